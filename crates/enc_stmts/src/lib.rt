//! Statements and what new variables are bound to: which tokens spell which of them.
#![tactic(auto)]

mod blocks;
mod requests;
mod sources;
mod stmts;
mod words;

pub use blocks::{block, stmt};
pub use requests::{Action, Member, Request};
pub use sources::source;
pub use words::{Applied, Double, Single};
