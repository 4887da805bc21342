// Statements.

use crate::{Expr, Items, Name, Row, Source, Span, TypeText};

/// A statement at a place of the text.
#[cycle(stmt)]
#[derive(Drop)]
pub struct Stmt {
    pub form: StmtForm,
    pub span: Span,
}

/// What a statement does. A span without a name is that of a `this`.
#[cycle(stmt)]
#[derive(Drop)]
pub enum StmtForm {
    /// Binds a new variable.
    Let(Name, Source),
    /// Gives a variable another value.
    Assign(Name, Expr),
    /// Gives a field another value.
    Store(Span, Name, Expr),
    /// Calls a method with these arguments.
    Call(Receiver, Name, Row<Expr>),
    /// Sends a message with these arguments.
    Send(Receiver, Name, Row<Expr>),
    If(Expr, Items<Stmt>, Option<Items<Stmt>>),
    While(Expr, Items<Stmt>),
    /// Sends the messages of the block that go to this owner as one group.
    Atomic(Expr, Items<Stmt>),
    /// Splits the reference of a variable in two, each with its type.
    Split(Name, Name, TypeText, Name, TypeText),
    /// Puts the references of two variables together where they refer to one object.
    Pack(Name, Name, Name, Items<Stmt>, Items<Stmt>),
    /// Chooses one trait of a variable's disjunction: the variable, the trait, the new variable.
    Choose(Name, Name, Name),
    Return(Expr),
    /// Prints the values one after another, and ends the line.
    Print(Row<Expr>),
    /// Lets the actor's other messages go first.
    Suspend,
}

/// What a call or a send is made on.
#[derive(Drop)]
pub enum Receiver {
    Name(Name),
    /// The span of the `this`.
    This(Span),
}
