// What the kinds of tokens stand for where the value of a new variable comes from.
ghost use Rattle.std.specs.Prelude.{◌≡◌};
ghost use Rattle.enc_cursor.specs.Steps.{stands_for};
ghost use Rattle.enc_stmts.specs.Words as words;

use enc_ast::{Expr, Name, Row, SourceForm};
use enc_lex::Kind;

/// A word with one operand.
#[derive(Clone, Copy, Debug, PartialEq, Eq)]
pub enum Single {
    Get,
    Await,
    Each,
    Join,
    Prune,
    Extract,
    Bestow,
}

/// A word with two operands.
#[derive(Clone, Copy, Debug, PartialEq, Eq)]
pub enum Double {
    Both,
    Otherwise,
}

/// A word with an operand and a function.
#[derive(Clone, Copy, Debug, PartialEq, Eq)]
pub enum Applied {
    Chain,
    Seq,
}

pub(crate) fn single_of(kind: Option<Kind>) -> Option<Single>
    ensures { result ≡ stands_for words.single kind }
{
    match kind {
        Some(Kind::Get) => Some(Single::Get),
        Some(Kind::Await) => Some(Single::Await),
        Some(Kind::Each) => Some(Single::Each),
        Some(Kind::Join) => Some(Single::Join),
        Some(Kind::Prune) => Some(Single::Prune),
        Some(Kind::Extract) => Some(Single::Extract),
        Some(Kind::Bestow) => Some(Single::Bestow),
        _ => None,
    }
}

/// What the word makes of its operand.
pub(crate) fn of_one(word: Single, expr: Expr) -> SourceForm
    ensures { result ≡ words.of_one word expr }
{
    match word {
        Single::Get => SourceForm::Get(expr),
        Single::Await => SourceForm::Await(expr),
        Single::Each => SourceForm::Each(expr),
        Single::Join => SourceForm::Join(expr),
        Single::Prune => SourceForm::Prune(expr),
        Single::Extract => SourceForm::Extract(expr),
        Single::Bestow => SourceForm::Bestow(expr),
    }
}

pub(crate) fn double_of(kind: Option<Kind>) -> Option<Double>
    ensures { result ≡ stands_for words.double kind }
{
    match kind {
        Some(Kind::Both) => Some(Double::Both),
        Some(Kind::Otherwise) => Some(Double::Otherwise),
        _ => None,
    }
}

/// What the word makes of its operands.
pub(crate) fn of_two(word: Double, left: Expr, right: Expr) -> SourceForm
    ensures { result ≡ words.of_two word left right }
{
    match word {
        Double::Both => SourceForm::Both(left, right),
        Double::Otherwise => SourceForm::Otherwise(left, right),
    }
}

pub(crate) fn applied_of(kind: Option<Kind>) -> Option<Applied>
    ensures { result ≡ stands_for words.applied kind }
{
    match kind {
        Some(Kind::Chain) => Some(Applied::Chain),
        Some(Kind::Seq) => Some(Applied::Seq),
        _ => None,
    }
}

/// What the word makes of its operand, a function and the further arguments.
pub(crate) fn of_function(word: Applied, expr: Expr, name: Name, args: Row<Expr>) -> SourceForm
    ensures { result ≡ words.of_function word expr name args }
{
    match word {
        Applied::Chain => SourceForm::Chain(expr, name, args),
        Applied::Seq => SourceForm::Seq(expr, name, args),
    }
}
