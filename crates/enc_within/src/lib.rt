//! A program that a text spells is within the limits.
#![tactic(auto)]

mod laws;

pub use laws::spelled_is_within;
