//! The variables that are visible, and which of them were moved.
#![tactic(auto)]

mod env;
mod laws;
mod scope;

pub use env::Env;
pub use laws::{blocks, branches, growth, loops};
pub use scope::Scope;
