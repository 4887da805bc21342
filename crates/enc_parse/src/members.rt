// The fields and methods of traits and active classes.
ghost use Rattle.std.specs.Prelude.{◌≡◌, ◌<◌};
ghost use Rattle.enc_cursor.specs.Cursor.{Reads};
ghost use Rattle.enc_cursor.specs.Limits.{allowed};
ghost use Rattle.enc_parse.specs.DeclReading as spec;

use crate::routines::routine;
use enc_ast::{Field, Method, Row};
use enc_cursor::{Cursor, ParseError};
use enc_lex::Kind;
use enc_terms::{declared, type_text};
use std::alloc::Global;

#[tactic(auto, unfolding(crate::specs::DeclReading::field))]
fn field(
    alloc: Global,
    text: &[u8],
    cursor: &mut Cursor<'_>,
    depth: usize,
) -> Result<Field, ParseError>
    ensures { Reads (spec.field text.now allowed depth cursor.old) result cursor.new }
{
    let start = cursor.start();
    let name = declared(alloc, text, cursor)?;
    cursor.expect(Kind::Colon)?;
    let ty = type_text(alloc, text, cursor, depth)?;
    cursor.expect(Kind::Semicolon)?;
    Ok(Field {
        name,
        ty,
        span: cursor.since(start),
    })
}

#[tactic(auto, unfolding(crate::specs::DeclReading::fields))]
fn fields(
    alloc: Global,
    text: &[u8],
    cursor: &mut Cursor<'_>,
    depth: usize,
) -> Result<Row<Field>, ParseError>
    ensures { Reads (spec.fields text.now allowed depth cursor.old) result cursor.new }
{
    let mut items = Row::new(alloc);
    'fields: while cursor.sees(Kind::Name) {
        items.push(field(alloc, text, cursor, depth)?)?;
    }
    Ok(items)
}

#[tactic(auto, unfolding(crate::specs::DeclReading::methods))]
fn methods(
    alloc: Global,
    text: &[u8],
    cursor: &mut Cursor<'_>,
    depth: usize,
) -> Result<Row<Method>, ParseError>
    ensures { Reads (spec.methods text.now allowed depth cursor.old) result cursor.new }
{
    let mut items = Row::new(alloc);
    'methods: while cursor.sees(Kind::Def) {
        items.push(routine(alloc, text, cursor, depth, Kind::Def)?)?;
    }
    Ok(items)
}

/// Members behind the opening brace.
#[tactic(auto, unfolding(crate::specs::DeclReading::members_below))]
fn members_below(
    alloc: Global,
    text: &[u8],
    cursor: &mut Cursor<'_>,
    depth: usize,
) -> Result<(Row<Field>, Row<Method>), ParseError>
    ensures { Reads (spec.members_below text.now allowed depth cursor.old) result cursor.new }
{
    let fields = fields(alloc, text, cursor, depth)?;
    let methods = methods(alloc, text, cursor, depth)?;
    Ok((fields, methods))
}

/// Members inside braces, which are counted in `depth`.
#[tactic(auto, unfolding(crate::specs::DeclReading::members_inside))]
fn members_inside(
    alloc: Global,
    text: &[u8],
    cursor: &mut Cursor<'_>,
    depth: usize,
) -> Result<(Row<Field>, Row<Method>), ParseError>
    requires { 0 < depth }
    ensures { Reads (spec.members_inside text.now allowed depth cursor.old) result cursor.new }
{
    members_below(alloc, text, cursor, depth - 1)
}

/// Members within braces.
#[tactic(auto, unfolding(crate::specs::DeclReading::members))]
pub(crate) fn members(
    alloc: Global,
    text: &[u8],
    cursor: &mut Cursor<'_>,
    depth: usize,
) -> Result<(Row<Field>, Row<Method>), ParseError>
    ensures { Reads (spec.members text.now allowed depth cursor.old) result cursor.new }
{
    cursor.open(Kind::OpenBrace, depth)?;
    let items = members_inside(alloc, text, cursor, depth)?;
    cursor.expect(Kind::CloseBrace)?;
    Ok(items)
}
