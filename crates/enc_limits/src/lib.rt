//! How much a program may have: names, brackets, variables, operators, declarations, groups and traits.
#![tactic(auto)]

mod laws;

pub use laws::names_are_no_words;
