//! The rules of declarations.
#![tactic(auto)]

mod classes;
mod groups;
mod judging;
mod known;
mod laws;
mod main_class;
mod members;
mod routines;
mod traits;

pub use judging::judge;
pub use laws::{one_main, one_name};
