// Expressions that no operator splits.
ghost use Rattle.std.specs.Prelude.{◌≡◌, ◌<◌};
ghost use Rattle.enc_cursor.specs.Cursor.{Reads};
ghost use Rattle.enc_cursor.specs.Limits.{allowed};
ghost use Rattle.enc_terms.specs.ExprReading as spec;

use crate::exprs::expr_inside;
use crate::names::name;
use crate::types::type_inside;
use crate::words::{
    Double, Single, Typed, constant, double_of, of_one, of_two, single_of, typed_of, value_of_type,
};
use enc_ast::{Boxed, Expr, ExprForm, Items, Name, Span};
use enc_cursor::{Cursor, ParseError};
use enc_lex::{Kind, int_value, text_bytes};
use std::alloc::Global;

/// The value of the variable with this name.
pub fn named(name: Name) -> Expr
    ensures { result ≡ spec.named name }
{
    Expr {
        form: ExprForm::Name(name.word),
        span: name.span,
    }
}

/// A `this` with this span.
pub fn this_at(span: Span) -> Expr
    ensures { result ≡ spec.this_at span }
{
    Expr {
        form: ExprForm::This,
        span,
    }
}

#[cycle(expr)]
#[tactic(auto, unfolding(crate::specs::ExprReading::atom))]
pub(crate) fn atom(
    alloc: Global,
    text: &[u8],
    cursor: &mut Cursor<'_>,
    depth: usize,
) -> Result<Expr, ParseError>
    ensures { Reads (spec.atom text.now allowed depth (spec.expr_inside text.now allowed depth) cursor.old) result cursor.new }
{
    if cursor.sees(Kind::Name) {
        return Ok(named(name(alloc, text, cursor)?));
    }
    if cursor.sees(Kind::This) {
        return Ok(this_at(cursor.token(Kind::This)?));
    }
    other_atom(alloc, text, cursor, depth)
}

/// An atom that is neither a name nor `this`.
#[cycle(expr)]
#[tactic(auto, unfolding(crate::specs::ExprReading::other_atom))]
pub(crate) fn other_atom(
    alloc: Global,
    text: &[u8],
    cursor: &mut Cursor<'_>,
    depth: usize,
) -> Result<Expr, ParseError>
    ensures { Reads (spec.other_atom text.now allowed depth (spec.expr_inside text.now allowed depth) cursor.old) result cursor.new }
{
    let start = cursor.start();
    let form = other_atom_form(alloc, text, cursor, depth)?;
    Ok(Expr {
        form,
        span: cursor.since(start),
    })
}

#[cycle(expr)]
#[tactic(auto, unfolding(crate::specs::ExprReading::other_atom_form))]
fn other_atom_form(
    alloc: Global,
    text: &[u8],
    cursor: &mut Cursor<'_>,
    depth: usize,
) -> Result<ExprForm, ParseError>
    ensures { Reads (spec.other_atom_form text.now allowed depth (spec.expr_inside text.now allowed depth) cursor.old) result cursor.new }
{
    if cursor.sees(Kind::Int) {
        return int_form(text, cursor);
    }
    if cursor.sees(Kind::Text) {
        return quoted_form(alloc, text, cursor);
    }
    if cursor.sees(Kind::OpenParen) {
        return parens_form(alloc, text, cursor, depth);
    }
    if cursor.sees(Kind::OpenBracket) {
        return list_form(alloc, text, cursor, depth);
    }
    word_form(alloc, text, cursor, depth)
}

#[tactic(auto, unfolding(crate::specs::ExprReading::int_form))]
fn int_form(text: &[u8], cursor: &mut Cursor<'_>) -> Result<ExprForm, ParseError>
    ensures { Reads (spec.int_form text.now cursor.old) result cursor.new }
{
    let span = cursor.token(Kind::Int)?;
    Ok(ExprForm::Int(int_value(text, span)))
}

#[tactic(auto, unfolding(crate::specs::ExprReading::quoted_form))]
fn quoted_form(alloc: Global, text: &[u8], cursor: &mut Cursor<'_>) -> Result<ExprForm, ParseError>
    ensures { Reads (spec.quoted_form text.now cursor.old) result cursor.new }
{
    let span = cursor.token(Kind::Text)?;
    Ok(ExprForm::Text(text_bytes(alloc, text, span)?))
}

#[cycle(expr)]
#[tactic(auto, unfolding(crate::specs::ExprReading::parens_form))]
fn parens_form(
    alloc: Global,
    text: &[u8],
    cursor: &mut Cursor<'_>,
    depth: usize,
) -> Result<ExprForm, ParseError>
    ensures { Reads (spec.parens_form depth (spec.expr_inside text.now allowed depth) cursor.old) result cursor.new }
{
    cursor.open(Kind::OpenParen, depth)?;
    let inner = expr_inside(alloc, text, cursor, depth)?;
    cursor.expect(Kind::CloseParen)?;
    Ok(ExprForm::Parens(Boxed::new(alloc, inner)?))
}

#[cycle(expr)]
#[tactic(auto, unfolding(crate::specs::ExprReading::list_form))]
fn list_form(
    alloc: Global,
    text: &[u8],
    cursor: &mut Cursor<'_>,
    depth: usize,
) -> Result<ExprForm, ParseError>
    ensures { Reads (spec.list_form depth (spec.expr_inside text.now allowed depth) cursor.old) result cursor.new }
{
    cursor.open(Kind::OpenBracket, depth)?;
    let items = exprs(alloc, text, cursor, depth)?;
    cursor.expect(Kind::CloseBracket)?;
    Ok(ExprForm::List(items))
}

/// The elements of a list: one or more, with commas between.
#[cycle(expr)]
#[tactic(auto, unfolding(crate::specs::ExprReading::exprs))]
fn exprs(
    alloc: Global,
    text: &[u8],
    cursor: &mut Cursor<'_>,
    depth: usize,
) -> Result<Items<Expr>, ParseError>
    requires { 0 < depth }
    ensures { Reads (spec.exprs (spec.expr_inside text.now allowed depth) cursor.old) result cursor.new }
{
    let mut items = Items::new(alloc);
    items.push(expr_inside(alloc, text, cursor, depth)?)?;
    while cursor.sees(Kind::Comma) {
        cursor.take();
        items.push(expr_inside(alloc, text, cursor, depth)?)?;
    }
    Ok(items)
}

/// An atom that begins with a word of its own.
#[cycle(expr)]
#[tactic(auto, unfolding(crate::specs::ExprReading::word_form, enc_cursor::specs::Counted::kind_token))]
fn word_form(
    alloc: Global,
    text: &[u8],
    cursor: &mut Cursor<'_>,
    depth: usize,
) -> Result<ExprForm, ParseError>
    ensures { Reads (spec.word_form text.now allowed depth (spec.expr_inside text.now allowed depth) cursor.old) result cursor.new }
{
    if let Some(form) = constant(cursor.peek()) {
        cursor.take();
        return Ok(form);
    }
    if let Some(word) = typed_of(cursor.peek()) {
        cursor.take();
        return typed_form(alloc, text, cursor, depth, word);
    }
    if let Some(word) = single_of(cursor.peek()) {
        cursor.take();
        return single_form(alloc, text, cursor, depth, word);
    }
    if let Some(word) = double_of(cursor.peek()) {
        cursor.take();
        return double_form(alloc, text, cursor, depth, word);
    }
    Err(ParseError::Form)
}

/// The type behind a word that stands for a value of it.
#[tactic(auto, unfolding(crate::specs::ExprReading::typed_form))]
fn typed_form(
    alloc: Global,
    text: &[u8],
    cursor: &mut Cursor<'_>,
    depth: usize,
    word: Typed,
) -> Result<ExprForm, ParseError>
    ensures { Reads (spec.typed_form text.now allowed depth word cursor.old) result cursor.new }
{
    cursor.open(Kind::OpenBracket, depth)?;
    let ty = type_inside(alloc, text, cursor, depth)?;
    cursor.expect(Kind::CloseBracket)?;
    Ok(value_of_type(word, ty))
}

/// The operand behind a word, in brackets.
#[cycle(expr)]
#[tactic(auto, unfolding(crate::specs::ExprReading::single_form))]
fn single_form(
    alloc: Global,
    text: &[u8],
    cursor: &mut Cursor<'_>,
    depth: usize,
    word: Single,
) -> Result<ExprForm, ParseError>
    ensures { Reads (spec.single_form depth (spec.expr_inside text.now allowed depth) word cursor.old) result cursor.new }
{
    cursor.open(Kind::OpenParen, depth)?;
    let inner = expr_inside(alloc, text, cursor, depth)?;
    cursor.expect(Kind::CloseParen)?;
    Ok(of_one(alloc, word, inner)?)
}

/// The two operands behind a word, in brackets.
#[cycle(expr)]
#[tactic(auto, unfolding(crate::specs::ExprReading::double_form))]
fn double_form(
    alloc: Global,
    text: &[u8],
    cursor: &mut Cursor<'_>,
    depth: usize,
    word: Double,
) -> Result<ExprForm, ParseError>
    ensures { Reads (spec.double_form depth (spec.expr_inside text.now allowed depth) word cursor.old) result cursor.new }
{
    cursor.open(Kind::OpenParen, depth)?;
    let left = expr_inside(alloc, text, cursor, depth)?;
    cursor.expect(Kind::Comma)?;
    let right = expr_inside(alloc, text, cursor, depth)?;
    cursor.expect(Kind::CloseParen)?;
    Ok(of_two(alloc, word, left, right)?)
}
