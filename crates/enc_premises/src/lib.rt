//! Premises of rules, in the order in which they are judged, and the first that doesn't hold.
#![tactic(auto)]

mod laws;
mod premises;

pub use laws::one_answer;
pub use premises::demand;
