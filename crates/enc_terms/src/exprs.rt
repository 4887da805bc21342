// Expressions, by the levels of their operators.
ghost use Rattle.std.specs.Prelude.{◌≡◌, ◌<◌, IfOk};
ghost use Rattle.enc_cursor.specs.Counted as counted;
ghost use Rattle.enc_cursor.specs.Cursor.{Reads};
ghost use Rattle.enc_cursor.specs.Place as place;
ghost use Rattle.enc_cursor.specs.Steps as steps;
ghost use Rattle.enc_cursor.specs.Limits.{allowed};
ghost use Rattle.enc_terms.specs.ExprReading as spec;
ghost use Rattle.enc_terms.specs.Words as words;

use crate::atoms::{atom, other_atom};
use crate::words::{Prefix, and_word, comparison, factor, or_word, prefix_of, prefixed, sign};
use enc_ast::{Boxed, Expr, ExprForm, Operator, Span};
use enc_cursor::{Cursor, ParseError};
use std::alloc::{AllocError, Global};

fn binary(
    alloc: Global,
    operator: Operator,
    left: Expr,
    right: Expr,
    span: Span,
) -> Result<Expr, AllocError>
    ensures { IfOk result (λ x. x ≡ record { form = ExprForm.Binary operator left right; span = span }) }
{
    let form = ExprForm::Binary(
        operator,
        Boxed::new(alloc, left)?,
        Boxed::new(alloc, right)?,
    );
    Ok(Expr { form, span })
}

/// An expression inside brackets, which are counted in `depth`.
#[cycle(expr)]
#[tactic(auto, unfolding(crate::specs::ExprReading::expr_inside))]
pub(crate) fn expr_inside(
    alloc: Global,
    text: &[u8],
    cursor: &mut Cursor<'_>,
    depth: usize,
) -> Result<Expr, ParseError>
    requires { 0 < depth }
    ensures { Reads (spec.expr_inside text.now allowed depth cursor.old) result cursor.new }
{
    expr(alloc, text, cursor, depth - 1)
}

/// What goes on with the first operand of all, which starts at the byte `start`.
#[tactic(auto, unfolding(crate::specs::ExprReading::expr_after))]
pub(crate) fn expr_after(
    alloc: Global,
    text: &[u8],
    cursor: &mut Cursor<'_>,
    depth: usize,
    start: u32,
    first: Expr,
) -> Result<Expr, ParseError>
    ensures { Reads (spec.expr_after text.now allowed depth (spec.expr_inside text.now allowed depth) start first cursor.old) result cursor.new }
{
    let term = term_after(alloc, text, cursor, depth, start, first)?;
    let sum = signs_after(alloc, text, cursor, depth, start, term)?;
    let comp = compared_after(alloc, text, cursor, depth, start, sum)?;
    let conj = ands_after(alloc, text, cursor, depth, start, comp)?;
    ors_after(alloc, text, cursor, depth, start, conj)
}

/// An expression, in which `depth` brackets may still be opened.
#[cycle(expr)]
#[tactic(auto, unfolding(crate::specs::ExprReading::expr))]
pub(crate) fn expr(
    alloc: Global,
    text: &[u8],
    cursor: &mut Cursor<'_>,
    depth: usize,
) -> Result<Expr, ParseError>
    ensures { Reads (spec.expr text.now allowed depth (spec.expr_inside text.now allowed depth) cursor.old) result cursor.new }
{
    let start = cursor.start();
    let first = conj(alloc, text, cursor, depth)?;
    ors_after(alloc, text, cursor, depth, start, first)
}

/// What goes on with a conjunction that starts there.
#[cycle(expr)]
#[tactic(auto, unfolding(crate::specs::ExprReading::ors_after))]
fn ors_after(
    alloc: Global,
    text: &[u8],
    cursor: &mut Cursor<'_>,
    depth: usize,
    start: u32,
    first: Expr,
) -> Result<Expr, ParseError>
    ensures { Reads (spec.ors_after text.now allowed depth (spec.expr_inside text.now allowed depth) start first cursor.old) result cursor.new }
{
    let mut left = first;
    while let Some(operator) = or_word(cursor.peek()) {
        cursor.operator()?;
        let right = conj(alloc, text, cursor, depth)?;
        left = binary(alloc, operator, left, right, cursor.since(start))?;
    }
    Ok(left)
}

#[cycle(expr)]
#[tactic(auto, unfolding(crate::specs::ExprReading::conj))]
fn conj(
    alloc: Global,
    text: &[u8],
    cursor: &mut Cursor<'_>,
    depth: usize,
) -> Result<Expr, ParseError>
    ensures { Reads (spec.conj text.now allowed depth (spec.expr_inside text.now allowed depth) cursor.old) result cursor.new }
{
    let start = cursor.start();
    let first = comp(alloc, text, cursor, depth)?;
    ands_after(alloc, text, cursor, depth, start, first)
}

/// What goes on with a comparison that starts there.
#[cycle(expr)]
#[tactic(auto, unfolding(crate::specs::ExprReading::ands_after))]
fn ands_after(
    alloc: Global,
    text: &[u8],
    cursor: &mut Cursor<'_>,
    depth: usize,
    start: u32,
    first: Expr,
) -> Result<Expr, ParseError>
    ensures { Reads (spec.ands_after text.now allowed depth (spec.expr_inside text.now allowed depth) start first cursor.old) result cursor.new }
{
    let mut left = first;
    while let Some(operator) = and_word(cursor.peek()) {
        cursor.operator()?;
        let right = comp(alloc, text, cursor, depth)?;
        left = binary(alloc, operator, left, right, cursor.since(start))?;
    }
    Ok(left)
}

#[cycle(expr)]
#[tactic(auto, unfolding(crate::specs::ExprReading::comp))]
fn comp(
    alloc: Global,
    text: &[u8],
    cursor: &mut Cursor<'_>,
    depth: usize,
) -> Result<Expr, ParseError>
    ensures { Reads (spec.comp text.now allowed depth (spec.expr_inside text.now allowed depth) cursor.old) result cursor.new }
{
    let start = cursor.start();
    let first = sum(alloc, text, cursor, depth)?;
    compared_after(alloc, text, cursor, depth, start, first)
}

/// What goes on with a sum that starts there: one comparison, or none.
#[cycle(expr)]
#[tactic(auto, unfolding(crate::specs::ExprReading::compared_after))]
fn compared_after(
    alloc: Global,
    text: &[u8],
    cursor: &mut Cursor<'_>,
    depth: usize,
    start: u32,
    left: Expr,
) -> Result<Expr, ParseError>
    ensures { Reads (spec.compared_after text.now allowed depth (spec.expr_inside text.now allowed depth) start left cursor.old) result cursor.new }
{
    let Some(operator) = comparison(cursor.peek()) else {
        return Ok(left);
    };
    cursor.operator()?;
    let right = sum(alloc, text, cursor, depth)?;
    Ok(binary(alloc, operator, left, right, cursor.since(start))?)
}

#[cycle(expr)]
#[tactic(auto, unfolding(crate::specs::ExprReading::sum))]
fn sum(
    alloc: Global,
    text: &[u8],
    cursor: &mut Cursor<'_>,
    depth: usize,
) -> Result<Expr, ParseError>
    ensures { Reads (spec.sum text.now allowed depth (spec.expr_inside text.now allowed depth) cursor.old) result cursor.new }
{
    let start = cursor.start();
    let first = term(alloc, text, cursor, depth)?;
    signs_after(alloc, text, cursor, depth, start, first)
}

/// What goes on with a term that starts there.
#[cycle(expr)]
#[tactic(auto, unfolding(crate::specs::ExprReading::signs_after))]
fn signs_after(
    alloc: Global,
    text: &[u8],
    cursor: &mut Cursor<'_>,
    depth: usize,
    start: u32,
    first: Expr,
) -> Result<Expr, ParseError>
    ensures { Reads (spec.signs_after text.now allowed depth (spec.expr_inside text.now allowed depth) start first cursor.old) result cursor.new }
{
    let mut left = first;
    while let Some(operator) = sign(cursor.peek()) {
        cursor.operator()?;
        let right = term(alloc, text, cursor, depth)?;
        left = binary(alloc, operator, left, right, cursor.since(start))?;
    }
    Ok(left)
}

#[cycle(expr)]
#[tactic(auto, unfolding(crate::specs::ExprReading::term))]
fn term(
    alloc: Global,
    text: &[u8],
    cursor: &mut Cursor<'_>,
    depth: usize,
) -> Result<Expr, ParseError>
    ensures { Reads (spec.term text.now allowed depth (spec.expr_inside text.now allowed depth) cursor.old) result cursor.new }
{
    let start = cursor.start();
    let first = unary(alloc, text, cursor, depth)?;
    term_after(alloc, text, cursor, depth, start, first)
}

/// What goes on with an operand that starts there.
#[cycle(expr)]
#[tactic(auto, unfolding(crate::specs::ExprReading::term_after))]
fn term_after(
    alloc: Global,
    text: &[u8],
    cursor: &mut Cursor<'_>,
    depth: usize,
    start: u32,
    first: Expr,
) -> Result<Expr, ParseError>
    ensures { Reads (spec.term_after text.now allowed depth (spec.expr_inside text.now allowed depth) start first cursor.old) result cursor.new }
{
    let mut left = first;
    while let Some(operator) = factor(cursor.peek()) {
        cursor.operator()?;
        let right = unary(alloc, text, cursor, depth)?;
        left = binary(alloc, operator, left, right, cursor.since(start))?;
    }
    Ok(left)
}

#[cycle(expr)]
#[tactic(auto, unfolding(crate::specs::ExprReading::unary))]
fn unary(
    alloc: Global,
    text: &[u8],
    cursor: &mut Cursor<'_>,
    depth: usize,
) -> Result<Expr, ParseError>
    ensures { Reads (spec.unary text.now allowed depth (spec.expr_inside text.now allowed depth) cursor.old) result cursor.new }
{
    if sees_prefix(cursor) {
        return prefixed_atom(alloc, text, cursor, depth);
    }
    atom(alloc, text, cursor, depth)
}

/// One that begins with neither a name nor `this`.
#[tactic(auto, unfolding(crate::specs::ExprReading::other_unary))]
pub(crate) fn other_unary(
    alloc: Global,
    text: &[u8],
    cursor: &mut Cursor<'_>,
    depth: usize,
) -> Result<Expr, ParseError>
    ensures { Reads (spec.other_unary text.now allowed depth (spec.expr_inside text.now allowed depth) cursor.old) result cursor.new }
{
    if sees_prefix(cursor) {
        return prefixed_atom(alloc, text, cursor, depth);
    }
    other_atom(alloc, text, cursor, depth)
}

/// An operator before an atom, and the atom.
#[cycle(expr)]
#[tactic(auto, unfolding(crate::specs::ExprReading::prefixed_atom))]
fn prefixed_atom(
    alloc: Global,
    text: &[u8],
    cursor: &mut Cursor<'_>,
    depth: usize,
) -> Result<Expr, ParseError>
    ensures { Reads (spec.prefixed_atom text.now allowed depth (spec.expr_inside text.now allowed depth) cursor.old) result cursor.new }
{
    let start = cursor.start();
    let form = prefixed_form(alloc, text, cursor, depth)?;
    Ok(Expr {
        form,
        span: cursor.since(start),
    })
}

#[cycle(expr)]
#[tactic(auto, unfolding(crate::specs::ExprReading::prefixed_form))]
fn prefixed_form(
    alloc: Global,
    text: &[u8],
    cursor: &mut Cursor<'_>,
    depth: usize,
) -> Result<ExprForm, ParseError>
    ensures { Reads (spec.prefixed_form text.now allowed depth (spec.expr_inside text.now allowed depth) cursor.old) result cursor.new }
{
    let prefix = prefix_word(cursor)?;
    let operand = atom(alloc, text, cursor, depth)?;
    Ok(prefixed(alloc, prefix, operand)?)
}

/// Whether an operator comes next that stands before its operand.
fn sees_prefix(cursor: &Cursor<'_>) -> bool
    ensures { result ≡ steps.can words.prefix (place.peek cursor.now) }
{
    match prefix_of(cursor.peek()) {
        Some(_) => true,
        None => false,
    }
}

fn prefix_word(cursor: &mut Cursor<'_>) -> Result<Prefix, ParseError>
    ensures { Reads (counted.operator_of allowed words.prefix cursor.old) result cursor.new }
{
    let Some(prefix) = prefix_of(cursor.peek()) else {
        return Err(ParseError::Form);
    };
    cursor.operator()?;
    Ok(prefix)
}
