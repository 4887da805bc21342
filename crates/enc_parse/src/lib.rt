//! A text to the tree of the program that it spells.
#![tactic(auto)]

mod decls;
mod members;
mod params;
mod routines;
mod text;

pub use text::parse;
