// Blocks, and statements with blocks in them.
ghost use Rattle.std.specs.Prelude.{◌≡◌, ◌<◌};
ghost use Rattle.enc_cursor.specs.Cursor.{Reads};
ghost use Rattle.enc_cursor.specs.Limits.{allowed};
ghost use Rattle.enc_stmts.specs.StmtReading as spec;

use crate::stmts::plain_form;
use enc_ast::{Items, Name, Row, Stmt, StmtForm};
use enc_cursor::{Cursor, ParseError};
use enc_lex::Kind;
use enc_terms::{name, variable, whole};
use std::alloc::Global;

/// Statements inside braces, in which so many brackets less one may still be opened.
#[cycle(blocks)]
#[tactic(auto, unfolding(crate::specs::StmtReading::stmts_inside))]
fn stmts_inside(
    alloc: Global,
    text: &[u8],
    cursor: &mut Cursor<'_>,
    depth: usize,
) -> Result<Row<Stmt>, ParseError>
    requires { 0 < depth }
    ensures { Reads (spec.stmts_inside text.now allowed depth cursor.old) result cursor.new }
{
    stmts(alloc, text, cursor, depth - 1)
}

/// Statements, up to a closing brace.
#[cycle(blocks)]
fn stmts(
    alloc: Global,
    text: &[u8],
    cursor: &mut Cursor<'_>,
    depth: usize,
) -> Result<Row<Stmt>, ParseError>
    ensures { Reads (spec.stmts text.now allowed depth cursor.old) result cursor.new }
{
    let mut items = Row::new(alloc);
    while !cursor.sees(Kind::CloseBrace) {
        items.push(stmt(alloc, text, cursor, depth)?)?;
    }
    Ok(items)
}

/// A block, in which so many brackets may still be opened. Variables that it makes visible are so up to its end.
#[cycle(blocks)]
#[tactic(auto, unfolding(crate::specs::StmtReading::braced))]
pub fn block(
    alloc: Global,
    text: &[u8],
    cursor: &mut Cursor<'_>,
    depth: usize,
) -> Result<Row<Stmt>, ParseError>
    ensures { Reads (spec.block text.now allowed depth cursor.old) result cursor.new }
{
    let outer = cursor.variables();
    cursor.open(Kind::OpenBrace, depth)?;
    let items = stmts_inside(alloc, text, cursor, depth)?;
    cursor.expect(Kind::CloseBrace)?;
    cursor.leave(outer);
    Ok(items)
}

/// The same as a part of a statement.
#[cycle(blocks)]
fn inner_block(
    alloc: Global,
    text: &[u8],
    cursor: &mut Cursor<'_>,
    depth: usize,
) -> Result<Items<Stmt>, ParseError>
    ensures { Reads (spec.block text.now allowed depth cursor.old) result cursor.new }
{
    let items = block(alloc, text, cursor, depth)?;
    Ok(Items::from_vec(items.into_vec()))
}

#[cycle(blocks)]
#[tactic(auto, unfolding(crate::specs::StmtReading::else_part))]
fn else_part(
    alloc: Global,
    text: &[u8],
    cursor: &mut Cursor<'_>,
    depth: usize,
) -> Result<Option<Items<Stmt>>, ParseError>
    ensures { Reads (spec.else_part text.now allowed depth (spec.stmts_inside text.now allowed depth) cursor.old) result cursor.new }
{
    if !cursor.sees(Kind::Else) {
        return Ok(None);
    }
    cursor.expect(Kind::Else)?;
    Ok(Some(inner_block(alloc, text, cursor, depth)?))
}

#[cycle(blocks)]
#[tactic(auto, unfolding(crate::specs::StmtReading::if_form))]
fn if_form(
    alloc: Global,
    text: &[u8],
    cursor: &mut Cursor<'_>,
    depth: usize,
) -> Result<StmtForm, ParseError>
    ensures { Reads (spec.if_form text.now allowed depth (spec.stmts_inside text.now allowed depth) cursor.old) result cursor.new }
{
    cursor.expect(Kind::If)?;
    let condition = whole(alloc, text, cursor, depth)?;
    let then = inner_block(alloc, text, cursor, depth)?;
    let other = else_part(alloc, text, cursor, depth)?;
    Ok(StmtForm::If(condition, then, other))
}

#[cycle(blocks)]
#[tactic(auto, unfolding(crate::specs::StmtReading::while_form))]
fn while_form(
    alloc: Global,
    text: &[u8],
    cursor: &mut Cursor<'_>,
    depth: usize,
) -> Result<StmtForm, ParseError>
    ensures { Reads (spec.while_form text.now allowed depth (spec.stmts_inside text.now allowed depth) cursor.old) result cursor.new }
{
    cursor.expect(Kind::While)?;
    let condition = whole(alloc, text, cursor, depth)?;
    let body = inner_block(alloc, text, cursor, depth)?;
    Ok(StmtForm::While(condition, body))
}

#[cycle(blocks)]
#[tactic(auto, unfolding(crate::specs::StmtReading::atomic_form))]
fn atomic_form(
    alloc: Global,
    text: &[u8],
    cursor: &mut Cursor<'_>,
    depth: usize,
) -> Result<StmtForm, ParseError>
    ensures { Reads (spec.atomic_form text.now allowed depth (spec.stmts_inside text.now allowed depth) cursor.old) result cursor.new }
{
    cursor.expect(Kind::Atomic)?;
    let owner = whole(alloc, text, cursor, depth)?;
    let body = inner_block(alloc, text, cursor, depth)?;
    Ok(StmtForm::Atomic(owner, body))
}

/// A new variable, and the block in which it is visible.
#[cycle(blocks)]
#[tactic(auto, unfolding(crate::specs::StmtReading::packed))]
fn packed(
    alloc: Global,
    text: &[u8],
    cursor: &mut Cursor<'_>,
    depth: usize,
) -> Result<(Name, Items<Stmt>), ParseError>
    ensures { Reads (spec.packed text.now allowed depth (spec.stmts_inside text.now allowed depth) cursor.old) result cursor.new }
{
    let outer = cursor.variables();
    let name = variable(alloc, text, cursor)?;
    let body = inner_block(alloc, text, cursor, depth)?;
    cursor.leave(outer);
    Ok((name, body))
}

#[cycle(blocks)]
#[tactic(auto, unfolding(crate::specs::StmtReading::pack_form))]
fn pack_form(
    alloc: Global,
    text: &[u8],
    cursor: &mut Cursor<'_>,
    depth: usize,
) -> Result<StmtForm, ParseError>
    ensures { Reads (spec.pack_form text.now allowed depth (spec.stmts_inside text.now allowed depth) cursor.old) result cursor.new }
{
    cursor.expect(Kind::Pack)?;
    let left = name(alloc, text, cursor)?;
    cursor.expect(Kind::And)?;
    let right = name(alloc, text, cursor)?;
    cursor.expect(Kind::Into)?;
    let (whole, then) = packed(alloc, text, cursor, depth)?;
    cursor.expect(Kind::Else)?;
    let other = inner_block(alloc, text, cursor, depth)?;
    Ok(StmtForm::Pack(left, right, whole, then, other))
}

#[cycle(blocks)]
#[tactic(auto, unfolding(crate::specs::StmtReading::stmt_form))]
fn stmt_form(
    alloc: Global,
    text: &[u8],
    cursor: &mut Cursor<'_>,
    depth: usize,
) -> Result<StmtForm, ParseError>
    ensures { Reads (spec.stmt_form text.now allowed depth (spec.stmts_inside text.now allowed depth) cursor.old) result cursor.new }
{
    match cursor.peek() {
        Some(Kind::If) => if_form(alloc, text, cursor, depth),
        Some(Kind::While) => while_form(alloc, text, cursor, depth),
        Some(Kind::Atomic) => atomic_form(alloc, text, cursor, depth),
        Some(Kind::Pack) => pack_form(alloc, text, cursor, depth),
        _ => plain_form(alloc, text, cursor, depth),
    }
}

/// A statement, in which so many brackets may still be opened.
#[cycle(blocks)]
#[tactic(auto, unfolding(crate::specs::StmtReading::stmt_with))]
pub fn stmt(
    alloc: Global,
    text: &[u8],
    cursor: &mut Cursor<'_>,
    depth: usize,
) -> Result<Stmt, ParseError>
    ensures { Reads (spec.stmt text.now allowed depth cursor.old) result cursor.new }
{
    let start = cursor.start();
    let form = stmt_form(alloc, text, cursor, depth)?;
    Ok(Stmt {
        form,
        span: cursor.since(start),
    })
}
