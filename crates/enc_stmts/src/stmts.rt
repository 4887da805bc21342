// Statements with no block in them.
ghost use Rattle.std.specs.Prelude.{◌≡◌};
ghost use Rattle.enc_cursor.specs.Cursor.{Reads};
ghost use Rattle.enc_cursor.specs.Limits.{allowed};
ghost use Rattle.enc_stmts.specs.StmtReading as spec;

use crate::requests::{Action, Request, action_stmt, asked, sent, stmt_asked};
use crate::sources::source;
use enc_ast::{Name, Receiver, StmtForm};
use enc_cursor::{Cursor, ParseError};
use enc_lex::Kind;
use enc_terms::{args, cap, name, variable, whole, wholes};
use std::alloc::Global;

#[tactic(auto, unfolding(crate::specs::StmtReading::let_form))]
fn let_form(
    alloc: Global,
    text: &[u8],
    cursor: &mut Cursor<'_>,
    depth: usize,
) -> Result<StmtForm, ParseError>
    ensures { Reads (spec.let_form text.now allowed depth cursor.old) result cursor.new }
{
    cursor.expect(Kind::Let)?;
    let name = variable(alloc, text, cursor)?;
    cursor.expect(Kind::Assign)?;
    let value = source(alloc, text, cursor, depth)?;
    cursor.expect(Kind::Semicolon)?;
    Ok(StmtForm::Let(name, value))
}

#[tactic(auto, unfolding(crate::specs::StmtReading::name_form_after))]
fn name_form_after(
    alloc: Global,
    text: &[u8],
    cursor: &mut Cursor<'_>,
    depth: usize,
    name: Name,
) -> Result<StmtForm, ParseError>
    ensures { Reads (spec.name_form_after text.now allowed depth name cursor.old) result cursor.new }
{
    if !cursor.sees(Kind::Assign) {
        let request = asked(alloc, text, cursor, depth)?;
        return Ok(stmt_asked(Receiver::Name(name), request));
    }
    cursor.expect(Kind::Assign)?;
    let value = whole(alloc, text, cursor, depth)?;
    Ok(StmtForm::Assign(name, value))
}

#[tactic(auto, unfolding(crate::specs::StmtReading::name_form))]
fn name_form(
    alloc: Global,
    text: &[u8],
    cursor: &mut Cursor<'_>,
    depth: usize,
) -> Result<StmtForm, ParseError>
    ensures { Reads (spec.name_form text.now allowed depth cursor.old) result cursor.new }
{
    let name = name(alloc, text, cursor)?;
    let form = name_form_after(alloc, text, cursor, depth, name)?;
    cursor.expect(Kind::Semicolon)?;
    Ok(form)
}

/// What follows `this .` and the name.
#[tactic(auto, unfolding(crate::specs::StmtReading::field_action_after))]
fn field_action_after(
    alloc: Global,
    text: &[u8],
    cursor: &mut Cursor<'_>,
    depth: usize,
    name: Name,
) -> Result<Action, ParseError>
    ensures { Reads (spec.field_action_after text.now allowed depth name cursor.old) result cursor.new }
{
    if !cursor.sees(Kind::Assign) {
        let args = args(alloc, text, cursor, depth)?;
        return Ok(Action::Asked(Request::Call(name, args)));
    }
    cursor.expect(Kind::Assign)?;
    let value = whole(alloc, text, cursor, depth)?;
    Ok(Action::Store(name, value))
}

#[tactic(auto, unfolding(crate::specs::StmtReading::field_action))]
fn field_action(
    alloc: Global,
    text: &[u8],
    cursor: &mut Cursor<'_>,
    depth: usize,
) -> Result<Action, ParseError>
    ensures { Reads (spec.field_action text.now allowed depth cursor.old) result cursor.new }
{
    cursor.expect(Kind::Dot)?;
    let name = name(alloc, text, cursor)?;
    field_action_after(alloc, text, cursor, depth, name)
}

#[tactic(auto, unfolding(crate::specs::StmtReading::this_action))]
fn this_action(
    alloc: Global,
    text: &[u8],
    cursor: &mut Cursor<'_>,
    depth: usize,
) -> Result<Action, ParseError>
    ensures { Reads (spec.this_action text.now allowed depth cursor.old) result cursor.new }
{
    if cursor.sees(Kind::Dot) {
        return field_action(alloc, text, cursor, depth);
    }
    Ok(Action::Asked(sent(alloc, text, cursor, depth)?))
}

#[tactic(auto, unfolding(crate::specs::StmtReading::this_form))]
fn this_form(
    alloc: Global,
    text: &[u8],
    cursor: &mut Cursor<'_>,
    depth: usize,
) -> Result<StmtForm, ParseError>
    ensures { Reads (spec.this_form text.now allowed depth cursor.old) result cursor.new }
{
    let this = cursor.token(Kind::This)?;
    let action = this_action(alloc, text, cursor, depth)?;
    cursor.expect(Kind::Semicolon)?;
    Ok(action_stmt(this, action))
}

#[tactic(auto, unfolding(crate::specs::StmtReading::split_form))]
fn split_form(
    alloc: Global,
    text: &[u8],
    cursor: &mut Cursor<'_>,
    depth: usize,
) -> Result<StmtForm, ParseError>
    ensures { Reads (spec.split_form text.now allowed depth cursor.old) result cursor.new }
{
    cursor.expect(Kind::Split)?;
    let whole = name(alloc, text, cursor)?;
    cursor.expect(Kind::Into)?;
    let left = variable(alloc, text, cursor)?;
    cursor.expect(Kind::Colon)?;
    let left_type = cap(alloc, text, cursor, depth)?;
    cursor.expect(Kind::Comma)?;
    let right = variable(alloc, text, cursor)?;
    cursor.expect(Kind::Colon)?;
    let right_type = cap(alloc, text, cursor, depth)?;
    cursor.expect(Kind::Semicolon)?;
    Ok(StmtForm::Split(whole, left, left_type, right, right_type))
}

#[tactic(auto, unfolding(crate::specs::StmtReading::choose_form))]
fn choose_form(alloc: Global, text: &[u8], cursor: &mut Cursor<'_>) -> Result<StmtForm, ParseError>
    ensures { Reads (spec.choose_form text.now allowed cursor.old) result cursor.new }
{
    cursor.expect(Kind::Choose)?;
    let either = name(alloc, text, cursor)?;
    cursor.expect(Kind::As)?;
    let chosen = name(alloc, text, cursor)?;
    cursor.expect(Kind::Into)?;
    let new = variable(alloc, text, cursor)?;
    cursor.expect(Kind::Semicolon)?;
    Ok(StmtForm::Choose(either, chosen, new))
}

#[tactic(auto, unfolding(crate::specs::StmtReading::return_form))]
fn return_form(
    alloc: Global,
    text: &[u8],
    cursor: &mut Cursor<'_>,
    depth: usize,
) -> Result<StmtForm, ParseError>
    ensures { Reads (spec.return_form text.now allowed depth cursor.old) result cursor.new }
{
    cursor.expect(Kind::Return)?;
    let value = whole(alloc, text, cursor, depth)?;
    cursor.expect(Kind::Semicolon)?;
    Ok(StmtForm::Return(value))
}

#[tactic(auto, unfolding(crate::specs::StmtReading::print_form))]
fn print_form(
    alloc: Global,
    text: &[u8],
    cursor: &mut Cursor<'_>,
    depth: usize,
) -> Result<StmtForm, ParseError>
    ensures { Reads (spec.print_form text.now allowed depth cursor.old) result cursor.new }
{
    cursor.expect(Kind::Print)?;
    let values = wholes(alloc, text, cursor, depth)?;
    cursor.expect(Kind::Semicolon)?;
    Ok(StmtForm::Print(values))
}

#[tactic(auto, unfolding(crate::specs::StmtReading::suspend_form))]
fn suspend_form(cursor: &mut Cursor<'_>) -> Result<StmtForm, ParseError>
    ensures { Reads (spec.suspend_form cursor.old) result cursor.new }
{
    cursor.expect(Kind::Suspend)?;
    cursor.expect(Kind::Semicolon)?;
    Ok(StmtForm::Suspend)
}

/// What a statement with no block in it does.
#[tactic(auto, unfolding(crate::specs::StmtReading::plain_form))]
pub(crate) fn plain_form(
    alloc: Global,
    text: &[u8],
    cursor: &mut Cursor<'_>,
    depth: usize,
) -> Result<StmtForm, ParseError>
    ensures { Reads (spec.plain_form text.now allowed depth cursor.old) result cursor.new }
{
    match cursor.peek() {
        Some(Kind::Let) => let_form(alloc, text, cursor, depth),
        Some(Kind::Name) => name_form(alloc, text, cursor, depth),
        Some(Kind::This) => this_form(alloc, text, cursor, depth),
        Some(Kind::Split) => split_form(alloc, text, cursor, depth),
        Some(Kind::Choose) => choose_form(alloc, text, cursor),
        Some(Kind::Return) => return_form(alloc, text, cursor, depth),
        Some(Kind::Print) => print_form(alloc, text, cursor, depth),
        _ => suspend_form(cursor),
    }
}
