// What stands at a place of a text.

use crate::Kind;

/// What stands at a place, with the number of bytes that it takes.
#[derive(Clone, Copy)]
pub(crate) enum Standing {
    /// A blank or a comment.
    Gap(usize),
    Token(Kind, usize),
    /// No token begins here.
    Nothing,
}
