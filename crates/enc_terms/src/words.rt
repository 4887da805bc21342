// What the kinds of tokens stand for.
ghost use Rattle.std.specs.Prelude.{◌≡◌, IfOk};
ghost use Rattle.enc_cursor.specs.Steps.{stands_for};
ghost use Rattle.enc_terms.specs.Words as words;

use enc_ast::{Boxed, Expr, ExprForm, Operator, TypeForm, TypeText};
use enc_lex::Kind;
use std::alloc::{AllocError, Global};

/// A word that makes a type of another type.
#[derive(Clone, Copy, Debug, PartialEq, Eq)]
pub enum Wrapper {
    Fut,
    Par,
    List,
    Bestowed,
}

/// An operator before its operand.
#[derive(Clone, Copy, Debug, PartialEq, Eq)]
pub enum Prefix {
    Minus,
    Not,
}

/// A word that stands for a value of a type.
#[derive(Clone, Copy, Debug, PartialEq, Eq)]
pub enum Typed {
    Null,
    Empty,
    Nil,
}

/// A word with one operand in brackets.
#[derive(Clone, Copy, Debug, PartialEq, Eq)]
pub enum Single {
    Len,
    IsNull,
}

/// A word with two operands in brackets.
#[derive(Clone, Copy, Debug, PartialEq, Eq)]
pub enum Double {
    At,
    Append,
}

/// The type that a word says by itself.
pub(crate) fn plain_type(kind: Option<Kind>) -> Option<TypeForm>
    ensures { result ≡ stands_for words.plain_type kind }
{
    match kind {
        Some(Kind::TypeInt) => Some(TypeForm::Int),
        Some(Kind::TypeBool) => Some(TypeForm::Bool),
        Some(Kind::TypeText) => Some(TypeForm::Text),
        Some(Kind::Unit) => Some(TypeForm::Unit),
        _ => None,
    }
}

pub(crate) fn wrapper_of(kind: Option<Kind>) -> Option<Wrapper>
    ensures { result ≡ stands_for words.wrapper kind }
{
    match kind {
        Some(Kind::Fut) => Some(Wrapper::Fut),
        Some(Kind::Par) => Some(Wrapper::Par),
        Some(Kind::List) => Some(Wrapper::List),
        Some(Kind::Bestowed) => Some(Wrapper::Bestowed),
        _ => None,
    }
}

/// The type that the word makes of another.
pub(crate) fn wrapped(alloc: Global, wrapper: Wrapper, ty: TypeText) -> Result<TypeForm, AllocError>
    ensures { IfOk result (λ form. form ≡ words.wrapped wrapper ty) }
{
    let ty = Boxed::new(alloc, ty)?;
    Ok(match wrapper {
        Wrapper::Fut => TypeForm::Fut(ty),
        Wrapper::Par => TypeForm::Par(ty),
        Wrapper::List => TypeForm::List(ty),
        Wrapper::Bestowed => TypeForm::Bestowed(ty),
    })
}

pub(crate) fn or_word(kind: Option<Kind>) -> Option<Operator>
    ensures { result ≡ stands_for words.or_word kind }
{
    match kind {
        Some(Kind::Or) => Some(Operator::Or),
        _ => None,
    }
}

pub(crate) fn and_word(kind: Option<Kind>) -> Option<Operator>
    ensures { result ≡ stands_for words.and_word kind }
{
    match kind {
        Some(Kind::And) => Some(Operator::And),
        _ => None,
    }
}

pub(crate) fn comparison(kind: Option<Kind>) -> Option<Operator>
    ensures { result ≡ stands_for words.comparison kind }
{
    match kind {
        Some(Kind::Equal) => Some(Operator::Equal),
        Some(Kind::NotEqual) => Some(Operator::NotEqual),
        Some(Kind::Less) => Some(Operator::Less),
        Some(Kind::LessEqual) => Some(Operator::LessEqual),
        Some(Kind::Greater) => Some(Operator::Greater),
        Some(Kind::GreaterEqual) => Some(Operator::GreaterEqual),
        _ => None,
    }
}

pub(crate) fn sign(kind: Option<Kind>) -> Option<Operator>
    ensures { result ≡ stands_for words.sign kind }
{
    match kind {
        Some(Kind::Plus) => Some(Operator::Add),
        Some(Kind::Minus) => Some(Operator::Subtract),
        _ => None,
    }
}

pub(crate) fn factor(kind: Option<Kind>) -> Option<Operator>
    ensures { result ≡ stands_for words.factor kind }
{
    match kind {
        Some(Kind::Star) => Some(Operator::Multiply),
        Some(Kind::Slash) => Some(Operator::Divide),
        Some(Kind::Percent) => Some(Operator::Remainder),
        _ => None,
    }
}

pub(crate) fn prefix_of(kind: Option<Kind>) -> Option<Prefix>
    ensures { result ≡ stands_for words.prefix kind }
{
    match kind {
        Some(Kind::Minus) => Some(Prefix::Minus),
        Some(Kind::Not) => Some(Prefix::Not),
        _ => None,
    }
}

/// What the operator makes of its operand.
pub(crate) fn prefixed(alloc: Global, prefix: Prefix, expr: Expr) -> Result<ExprForm, AllocError>
    ensures { IfOk result (λ form. form ≡ words.prefixed prefix expr) }
{
    let expr = Boxed::new(alloc, expr)?;
    Ok(match prefix {
        Prefix::Minus => ExprForm::Negative(expr),
        Prefix::Not => ExprForm::Not(expr),
    })
}

/// The value that a word is by itself.
pub(crate) fn constant(kind: Option<Kind>) -> Option<ExprForm>
    ensures { result ≡ stands_for words.constant kind }
{
    match kind {
        Some(Kind::True) => Some(ExprForm::True),
        Some(Kind::False) => Some(ExprForm::False),
        Some(Kind::Unit) => Some(ExprForm::Unit),
        _ => None,
    }
}

pub(crate) fn typed_of(kind: Option<Kind>) -> Option<Typed>
    ensures { result ≡ stands_for words.typed kind }
{
    match kind {
        Some(Kind::Null) => Some(Typed::Null),
        Some(Kind::Empty) => Some(Typed::Empty),
        Some(Kind::Nil) => Some(Typed::Nil),
        _ => None,
    }
}

/// The value of the type that the word stands for.
pub(crate) fn value_of_type(word: Typed, ty: TypeText) -> ExprForm
    ensures { result ≡ words.value_of_type word ty }
{
    match word {
        Typed::Null => ExprForm::Null(ty),
        Typed::Empty => ExprForm::Empty(ty),
        Typed::Nil => ExprForm::Nil(ty),
    }
}

pub(crate) fn single_of(kind: Option<Kind>) -> Option<Single>
    ensures { result ≡ stands_for words.single kind }
{
    match kind {
        Some(Kind::Len) => Some(Single::Len),
        Some(Kind::IsNull) => Some(Single::IsNull),
        _ => None,
    }
}

/// What the word makes of its operand.
pub(crate) fn of_one(alloc: Global, word: Single, expr: Expr) -> Result<ExprForm, AllocError>
    ensures { IfOk result (λ form. form ≡ words.of_one word expr) }
{
    let expr = Boxed::new(alloc, expr)?;
    Ok(match word {
        Single::Len => ExprForm::Len(expr),
        Single::IsNull => ExprForm::IsNull(expr),
    })
}

pub(crate) fn double_of(kind: Option<Kind>) -> Option<Double>
    ensures { result ≡ stands_for words.double kind }
{
    match kind {
        Some(Kind::At) => Some(Double::At),
        Some(Kind::Append) => Some(Double::Append),
        _ => None,
    }
}

/// What the word makes of its operands.
pub(crate) fn of_two(
    alloc: Global,
    word: Double,
    left: Expr,
    right: Expr,
) -> Result<ExprForm, AllocError>
    ensures { IfOk result (λ form. form ≡ words.of_two word left right) }
{
    let left = Boxed::new(alloc, left)?;
    let right = Boxed::new(alloc, right)?;
    Ok(match word {
        Double::At => ExprForm::At(left, right),
        Double::Append => ExprForm::Append(left, right),
    })
}
