// Expressions that stand in no other one, and arguments.
ghost use Rattle.std.specs.Prelude.{◌≡◌, ◌<◌};
ghost use Rattle.enc_cursor.specs.Cursor.{Reads};
ghost use Rattle.enc_cursor.specs.Limits.{allowed};
ghost use Rattle.enc_terms.specs.ExprReading as spec;

use crate::exprs::{expr, expr_after, other_unary};
use enc_ast::{Expr, Row};
use enc_cursor::{Cursor, ParseError};
use enc_lex::Kind;
use std::alloc::Global;

/// An expression that stands in no other one, in which `depth` brackets may still be opened. It fails with
/// `Form` before the first token with which none begins, with `Over` behind a token by which a limit is
/// passed, and with `Memory` where memory runs out.
#[tactic(auto, unfolding(crate::specs::ExprReading::whole))]
pub fn whole(
    alloc: Global,
    text: &[u8],
    cursor: &mut Cursor<'_>,
    depth: usize,
) -> Result<Expr, ParseError>
    ensures { Reads (spec.whole text.now allowed depth cursor.old) result cursor.new }
{
    let found = expr(alloc, text, cursor, depth)?;
    cursor.finish();
    Ok(found)
}

/// The same behind a name or `this` that has been read: `start` is the byte where that starts. It fails as
/// `whole` does.
#[tactic(auto, unfolding(crate::specs::ExprReading::whole_after))]
pub fn whole_after(
    alloc: Global,
    text: &[u8],
    cursor: &mut Cursor<'_>,
    depth: usize,
    start: u32,
    first: Expr,
) -> Result<Expr, ParseError>
    ensures { Reads (spec.whole_after text.now allowed depth start first cursor.old) result cursor.new }
{
    let found = expr_after(alloc, text, cursor, depth, start, first)?;
    cursor.finish();
    Ok(found)
}

/// One that begins with neither a name nor `this`. It fails as `whole` does.
#[tactic(auto, unfolding(crate::specs::ExprReading::other_whole))]
pub fn other_whole(
    alloc: Global,
    text: &[u8],
    cursor: &mut Cursor<'_>,
    depth: usize,
) -> Result<Expr, ParseError>
    ensures { Reads (spec.other_whole text.now allowed depth cursor.old) result cursor.new }
{
    let start = cursor.start();
    let first = other_unary(alloc, text, cursor, depth)?;
    whole_after(alloc, text, cursor, depth, start, first)
}

/// One or more, with commas between. It fails as `whole` does.
#[tactic(auto, unfolding(crate::specs::ExprReading::wholes))]
pub fn wholes(
    alloc: Global,
    text: &[u8],
    cursor: &mut Cursor<'_>,
    depth: usize,
) -> Result<Row<Expr>, ParseError>
    ensures { Reads (spec.wholes text.now allowed depth cursor.old) result cursor.new }
{
    let mut items = Row::new(alloc);
    items.push(whole(alloc, text, cursor, depth)?)?;
    while cursor.sees(Kind::Comma) {
        cursor.take();
        items.push(whole(alloc, text, cursor, depth)?)?;
    }
    Ok(items)
}

/// The same inside brackets, which are counted in `depth`.
#[tactic(auto, unfolding(crate::specs::ExprReading::wholes_inside))]
fn wholes_inside(
    alloc: Global,
    text: &[u8],
    cursor: &mut Cursor<'_>,
    depth: usize,
) -> Result<Row<Expr>, ParseError>
    requires { 0 < depth }
    ensures { Reads (spec.wholes_inside text.now allowed depth cursor.old) result cursor.new }
{
    wholes(alloc, text, cursor, depth - 1)
}

/// The same, or none.
#[tactic(auto, unfolding(crate::specs::ExprReading::any_wholes))]
fn any_wholes(
    alloc: Global,
    text: &[u8],
    cursor: &mut Cursor<'_>,
    depth: usize,
) -> Result<Row<Expr>, ParseError>
    requires { 0 < depth }
    ensures { Reads (spec.any_wholes text.now allowed depth cursor.old) result cursor.new }
{
    if cursor.sees(Kind::CloseParen) {
        return Ok(Row::new(alloc));
    }
    wholes_inside(alloc, text, cursor, depth)
}

/// Arguments in their brackets. It fails as `whole` does.
#[tactic(auto, unfolding(crate::specs::ExprReading::args))]
pub fn args(
    alloc: Global,
    text: &[u8],
    cursor: &mut Cursor<'_>,
    depth: usize,
) -> Result<Row<Expr>, ParseError>
    ensures { Reads (spec.args text.now allowed depth cursor.old) result cursor.new }
{
    cursor.open(Kind::OpenParen, depth)?;
    let items = any_wholes(alloc, text, cursor, depth)?;
    cursor.expect(Kind::CloseParen)?;
    Ok(items)
}
