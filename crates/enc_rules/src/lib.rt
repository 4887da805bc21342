//! The rules of statements and programs, and what they come to.
#![tactic(auto)]

mod checked;
mod laws;
mod typing;

pub use checked::Checked;
pub use laws::{one_answer, rules_agree, types_are_told, usable_after};
pub use typing::type_of;
