// Expressions.

use crate::{Boxed, Items, Row, Span, TypeText, Word};

/// An expression at a place of the text.
#[cycle(expr)]
#[derive(Drop)]
pub struct Expr {
    pub form: ExprForm,
    pub span: Span,
}

/// What an expression computes.
#[cycle(expr)]
#[derive(Drop)]
pub enum ExprForm {
    Binary(Operator, Boxed<Expr>, Boxed<Expr>),
    Negative(Boxed<Expr>),
    Not(Boxed<Expr>),
    Int(i64),
    /// The bytes that the text stands for, each escape replaced by its byte.
    Text(Row<u8>),
    True,
    False,
    Unit,
    This,
    /// The value of a variable.
    Name(Word),
    /// An expression in brackets.
    Parens(Boxed<Expr>),
    /// A list of these values.
    List(Items<Expr>),
    /// The reference or the future of this type that refers to nothing.
    Null(TypeText),
    /// The tree of values of this type that has none.
    Empty(TypeText),
    /// The list of values of this type that has none.
    Nil(TypeText),
    /// The length of a list.
    Len(Boxed<Expr>),
    IsNull(Boxed<Expr>),
    /// The element of a list at a number.
    At(Boxed<Expr>, Boxed<Expr>),
    /// A list with one more value at its end.
    Append(Boxed<Expr>, Boxed<Expr>),
}

/// An operator between two operands.
#[derive(Clone, Copy, Debug, PartialEq, Eq)]
pub enum Operator {
    Or,
    And,
    Equal,
    NotEqual,
    Less,
    LessEqual,
    Greater,
    GreaterEqual,
    Add,
    Subtract,
    Multiply,
    Divide,
    Remainder,
}
