//! Tests of types, and of the calls by which names, written types, declarations and whole programs are
//! judged.
#![tactic(auto)]

#[cfg(test)]
mod checked;
#[cfg(test)]
mod fixture;
#[cfg(test)]
mod modes;
pub mod rows;
#[cfg(test)]
mod written;
