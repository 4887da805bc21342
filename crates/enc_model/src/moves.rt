// What a frame does next.

use crate::{TrapKind, Value};
use enc_ast::{Row, Span, Word};

/// What an expression gives.
#[derive(Debug, Drop)]
pub enum Got {
    Gives(Value),
    Traps(TrapKind),
    /// A variable is missing, an operand has a wrong form, or the expression has no meaning so far.
    Nothing,
}

/// What the next statement of a frame asks for.
#[derive(Debug, Drop)]
pub enum Move {
    /// A new variable gets a value.
    Bind(Word, Value),
    /// A line is printed, its end included.
    Say(Row<u8>),
    /// The body is at its end.
    Leave,
    /// The statement at this part of the text traps.
    Fault(TrapKind, Span),
    /// The statement has no meaning here.
    Lost,
}
