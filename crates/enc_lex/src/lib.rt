//! The tokens of a text, each with its place, or the first failure of the text.
#![tactic(auto)]

mod first;
mod kinds;
mod lexing;
mod names;
mod numbers;
mod standing;
mod symbols;
mod texts;
mod tokens;
mod values;
mod words;

pub use kinds::Kind;
pub use lexing::{MAX_LEN, lex};
pub use tokens::{Token, Tokens};
pub use values::{bytes_at, int_value, text_bytes, word_of};
