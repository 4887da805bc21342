//! Programs of the thin form keep all rules.
#![tactic(auto)]

mod laws;

pub use laws::thin_is_well_typed;
