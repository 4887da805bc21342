//! A place in a list of tokens, the words in which grammars and parsers are told, and the laws that join them.
#![tactic(auto)]

mod cursor;
mod error;
mod limits;

pub use cursor::Cursor;
pub use error::ParseError;
pub use limits::{
    MAX_BRACKETS, MAX_GROUPS, MAX_LETTERS, MAX_NAMES, MAX_OPERATORS, MAX_TRAITS, MAX_VARIABLES,
};
