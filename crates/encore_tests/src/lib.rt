//! Tests of the program as a whole, and of each call that its crates offer.
//!
//! What a run is given is made by functions that are proved. All else is tests.
#![tactic(auto)]

#[cfg(test)]
mod answer;
#[cfg(test)]
mod faults;
#[cfg(test)]
mod files;
#[cfg(test)]
mod grammar;
#[cfg(test)]
mod machine;
pub mod outside;
#[cfg(test)]
mod programs;
#[cfg(test)]
mod rows;
#[cfg(test)]
mod sinks;
#[cfg(test)]
mod small;
#[cfg(test)]
mod texts;
#[cfg(test)]
mod tokens;
#[cfg(test)]
mod top;
#[cfg(test)]
mod trees;
#[cfg(test)]
mod words;
