// The parameters of methods and functions.
ghost use Rattle.std.specs.Prelude.{◌≡◌, ◌<◌};
ghost use Rattle.enc_cursor.specs.Cursor.{Reads};
ghost use Rattle.enc_cursor.specs.Limits.{allowed};
ghost use Rattle.enc_parse.specs.DeclReading as spec;

use enc_ast::{Param, Row};
use enc_cursor::{Cursor, ParseError};
use enc_lex::Kind;
use enc_terms::{type_inside, variable};
use std::alloc::Global;

#[tactic(auto, unfolding(crate::specs::DeclReading::param))]
fn param(
    alloc: Global,
    text: &[u8],
    cursor: &mut Cursor<'_>,
    depth: usize,
) -> Result<Param, ParseError>
    requires { 0 < depth }
    ensures { Reads (spec.param text.now allowed depth cursor.old) result cursor.new }
{
    let start = cursor.start();
    let name = variable(alloc, text, cursor)?;
    cursor.expect(Kind::Colon)?;
    let ty = type_inside(alloc, text, cursor, depth)?;
    Ok(Param {
        name,
        ty,
        span: cursor.since(start),
    })
}

#[tactic(auto, unfolding(crate::specs::DeclReading::params))]
fn params(
    alloc: Global,
    text: &[u8],
    cursor: &mut Cursor<'_>,
    depth: usize,
) -> Result<Row<Param>, ParseError>
    requires { 0 < depth }
    ensures { Reads (spec.params text.now allowed depth cursor.old) result cursor.new }
{
    let mut items = Row::new(alloc);
    items.push(param(alloc, text, cursor, depth)?)?;
    'params: while cursor.sees(Kind::Comma) {
        cursor.take();
        items.push(param(alloc, text, cursor, depth)?)?;
    }
    Ok(items)
}

#[tactic(auto, unfolding(crate::specs::DeclReading::any_params))]
fn any_params(
    alloc: Global,
    text: &[u8],
    cursor: &mut Cursor<'_>,
    depth: usize,
) -> Result<Row<Param>, ParseError>
    requires { 0 < depth }
    ensures { Reads (spec.any_params text.now allowed depth cursor.old) result cursor.new }
{
    if cursor.sees(Kind::CloseParen) {
        return Ok(Row::new(alloc));
    }
    params(alloc, text, cursor, depth)
}

/// Parameters within brackets.
#[tactic(auto, unfolding(crate::specs::DeclReading::param_list))]
pub(crate) fn param_list(
    alloc: Global,
    text: &[u8],
    cursor: &mut Cursor<'_>,
    depth: usize,
) -> Result<Row<Param>, ParseError>
    ensures { Reads (spec.param_list text.now allowed depth cursor.old) result cursor.new }
{
    cursor.open(Kind::OpenParen, depth)?;
    let items = any_params(alloc, text, cursor, depth)?;
    cursor.expect(Kind::CloseParen)?;
    Ok(items)
}
