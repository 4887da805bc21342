// What new variables are bound to.

use crate::{Expr, Name, Receiver, Row, Span};

/// What a new variable is bound to, at a place of the text.
#[derive(Drop)]
pub struct Source {
    pub form: SourceForm,
    pub span: Span,
}

/// Where the value of a new variable comes from. A span without a name is that of a `this`.
#[derive(Drop)]
pub enum SourceForm {
    Expr(Expr),
    /// A new object of a class.
    New(Name),
    /// The value of a field.
    Field(Span, Name),
    /// The value of a field, which is null afterwards.
    Take(Span, Name),
    /// The result of a method.
    Call(Receiver, Name, Row<Expr>),
    /// The future of a message's result.
    Send(Receiver, Name, Row<Expr>),
    /// The value of a future, for which the actor waits.
    Get(Expr),
    /// The value of a future, until which the actor's other messages may go first.
    Await(Expr),
    /// The future of what a function gives for a future's value.
    Chain(Expr, Name, Row<Expr>),
    /// The tree of one value.
    Lift(Expr),
    /// The tree of a future's value.
    LiftFuture(Expr),
    /// The tree of a list's values.
    Each(Expr),
    /// The values of both trees.
    Both(Expr, Expr),
    /// The values of a tree, or of the other where it has none.
    Otherwise(Expr, Expr),
    /// The tree of what a function gives for each value.
    Seq(Expr, Name, Row<Expr>),
    /// The tree of the values of a tree of trees.
    Join(Expr),
    /// The tree of the value that is there first.
    Prune(Expr),
    /// The list of a tree's values, for which the actor waits.
    Extract(Expr),
    /// A reference by which other actors can send to a part of this one's objects.
    Bestow(Expr),
}
