// What new variables are bound to.
ghost use Rattle.std.specs.Prelude.{◌≡◌};
ghost use Rattle.enc_cursor.specs.Cursor.{Reads};
ghost use Rattle.enc_cursor.specs.Limits.{allowed};
ghost use Rattle.enc_cursor.specs.Place as place;
ghost use Rattle.enc_stmts.specs.Requests as told;
ghost use Rattle.enc_stmts.specs.SourceReading as spec;

use crate::requests::{Member, Request, asked, member_source, message, sent, source_asked};
use crate::words::{applied_of, double_of, of_function, of_one, of_two, single_of};
use enc_ast::{Expr, Name, Receiver, Row, Source, SourceForm, Span};
use enc_cursor::{Cursor, ParseError};
use enc_lex::Kind;
use enc_terms::{args, name, named, other_whole, this_at, whole, whole_after};
use std::alloc::Global;

/// A field, or a method that is called where there are arguments.
fn member_of(name: Name, args: Option<Row<Expr>>) -> Member
    ensures { result ≡ told.member_of name args }
{
    match args {
        None => Member::Field(name),
        Some(args) => Member::Asked(Request::Call(name, args)),
    }
}

/// Whether something is asked of what stands before.
fn asks(cursor: &Cursor<'_>) -> bool
    ensures { result ≡ spec.asks (place.peek cursor.now) }
{
    cursor.sees(Kind::Dot) || cursor.sees(Kind::Bang)
}

#[tactic(auto, unfolding(crate::specs::SourceReading::any_args))]
fn any_args(
    alloc: Global,
    text: &[u8],
    cursor: &mut Cursor<'_>,
    depth: usize,
) -> Result<Option<Row<Expr>>, ParseError>
    ensures { Reads (spec.any_args text.now allowed depth cursor.old) result cursor.new }
{
    if !cursor.sees(Kind::OpenParen) {
        return Ok(None);
    }
    Ok(Some(args(alloc, text, cursor, depth)?))
}

#[tactic(auto, unfolding(crate::specs::SourceReading::field_or_call))]
fn field_or_call(
    alloc: Global,
    text: &[u8],
    cursor: &mut Cursor<'_>,
    depth: usize,
) -> Result<Member, ParseError>
    ensures { Reads (spec.field_or_call text.now allowed depth cursor.old) result cursor.new }
{
    cursor.expect(Kind::Dot)?;
    let name = name(alloc, text, cursor)?;
    let args = any_args(alloc, text, cursor, depth)?;
    Ok(member_of(name, args))
}

#[tactic(auto, unfolding(crate::specs::SourceReading::this_member))]
fn this_member(
    alloc: Global,
    text: &[u8],
    cursor: &mut Cursor<'_>,
    depth: usize,
) -> Result<Member, ParseError>
    ensures { Reads (spec.this_member text.now allowed depth cursor.old) result cursor.new }
{
    if cursor.sees(Kind::Dot) {
        return field_or_call(alloc, text, cursor, depth);
    }
    Ok(Member::Asked(sent(alloc, text, cursor, depth)?))
}

#[tactic(auto, unfolding(crate::specs::SourceReading::name_source_after))]
fn name_source_after(
    alloc: Global,
    text: &[u8],
    cursor: &mut Cursor<'_>,
    depth: usize,
    name: Name,
) -> Result<SourceForm, ParseError>
    ensures { Reads (spec.name_source_after text.now allowed depth name cursor.old) result cursor.new }
{
    if asks(cursor) {
        let request = asked(alloc, text, cursor, depth)?;
        return Ok(source_asked(Receiver::Name(name), request));
    }
    let start = name.span.start;
    let value = whole_after(alloc, text, cursor, depth, start, named(name))?;
    Ok(SourceForm::Expr(value))
}

#[tactic(auto, unfolding(crate::specs::SourceReading::name_source))]
fn name_source(
    alloc: Global,
    text: &[u8],
    cursor: &mut Cursor<'_>,
    depth: usize,
) -> Result<SourceForm, ParseError>
    ensures { Reads (spec.name_source text.now allowed depth cursor.old) result cursor.new }
{
    let name = name(alloc, text, cursor)?;
    name_source_after(alloc, text, cursor, depth, name)
}

#[tactic(auto, unfolding(crate::specs::SourceReading::this_source_after))]
fn this_source_after(
    alloc: Global,
    text: &[u8],
    cursor: &mut Cursor<'_>,
    depth: usize,
    this: Span,
) -> Result<SourceForm, ParseError>
    ensures { Reads (spec.this_source_after text.now allowed depth this cursor.old) result cursor.new }
{
    if asks(cursor) {
        let member = this_member(alloc, text, cursor, depth)?;
        return Ok(member_source(this, member));
    }
    let value = whole_after(alloc, text, cursor, depth, this.start, this_at(this))?;
    Ok(SourceForm::Expr(value))
}

#[tactic(auto, unfolding(crate::specs::SourceReading::this_source))]
fn this_source(
    alloc: Global,
    text: &[u8],
    cursor: &mut Cursor<'_>,
    depth: usize,
) -> Result<SourceForm, ParseError>
    ensures { Reads (spec.this_source text.now allowed depth cursor.old) result cursor.new }
{
    let this = cursor.token(Kind::This)?;
    this_source_after(alloc, text, cursor, depth, this)
}

#[tactic(auto, unfolding(crate::specs::SourceReading::take_source))]
fn take_source(
    alloc: Global,
    text: &[u8],
    cursor: &mut Cursor<'_>,
) -> Result<SourceForm, ParseError>
    ensures { Reads (spec.take_source text.now allowed cursor.old) result cursor.new }
{
    cursor.expect(Kind::Take)?;
    let this = cursor.token(Kind::This)?;
    cursor.expect(Kind::Dot)?;
    let field = name(alloc, text, cursor)?;
    Ok(SourceForm::Take(this, field))
}

#[tactic(auto, unfolding(crate::specs::SourceReading::new_source))]
fn new_source(alloc: Global, text: &[u8], cursor: &mut Cursor<'_>) -> Result<SourceForm, ParseError>
    ensures { Reads (spec.new_source text.now allowed cursor.old) result cursor.new }
{
    cursor.expect(Kind::New)?;
    Ok(SourceForm::New(name(alloc, text, cursor)?))
}

#[tactic(auto, unfolding(crate::specs::SourceReading::lifted))]
fn lifted(
    alloc: Global,
    text: &[u8],
    cursor: &mut Cursor<'_>,
    depth: usize,
) -> Result<SourceForm, ParseError>
    ensures { Reads (spec.lifted text.now allowed depth cursor.old) result cursor.new }
{
    if !cursor.sees(Kind::Future) {
        return Ok(SourceForm::Lift(whole(alloc, text, cursor, depth)?));
    }
    cursor.expect(Kind::Future)?;
    Ok(SourceForm::LiftFuture(whole(alloc, text, cursor, depth)?))
}

#[tactic(auto, unfolding(crate::specs::SourceReading::lift_source))]
fn lift_source(
    alloc: Global,
    text: &[u8],
    cursor: &mut Cursor<'_>,
    depth: usize,
) -> Result<SourceForm, ParseError>
    ensures { Reads (spec.lift_source text.now allowed depth cursor.old) result cursor.new }
{
    cursor.expect(Kind::Lift)?;
    lifted(alloc, text, cursor, depth)
}

#[tactic(auto, unfolding(crate::specs::SourceReading::single_source, enc_cursor::specs::Counted::kind_token))]
fn single_source(
    alloc: Global,
    text: &[u8],
    cursor: &mut Cursor<'_>,
    depth: usize,
) -> Result<SourceForm, ParseError>
    ensures { Reads (spec.single_source text.now allowed depth cursor.old) result cursor.new }
{
    let Some(word) = single_of(cursor.peek()) else {
        return Err(ParseError::Form);
    };
    cursor.take();
    let operand = whole(alloc, text, cursor, depth)?;
    Ok(of_one(word, operand))
}

#[tactic(auto, unfolding(crate::specs::SourceReading::double_source, enc_cursor::specs::Counted::kind_token))]
fn double_source(
    alloc: Global,
    text: &[u8],
    cursor: &mut Cursor<'_>,
    depth: usize,
) -> Result<SourceForm, ParseError>
    ensures { Reads (spec.double_source text.now allowed depth cursor.old) result cursor.new }
{
    let Some(word) = double_of(cursor.peek()) else {
        return Err(ParseError::Form);
    };
    cursor.take();
    let left = whole(alloc, text, cursor, depth)?;
    cursor.expect(Kind::Comma)?;
    let right = whole(alloc, text, cursor, depth)?;
    Ok(of_two(word, left, right))
}

#[tactic(auto, unfolding(crate::specs::SourceReading::applied_source, enc_cursor::specs::Counted::kind_token))]
fn applied_source(
    alloc: Global,
    text: &[u8],
    cursor: &mut Cursor<'_>,
    depth: usize,
) -> Result<SourceForm, ParseError>
    ensures { Reads (spec.applied_source text.now allowed depth cursor.old) result cursor.new }
{
    let Some(word) = applied_of(cursor.peek()) else {
        return Err(ParseError::Form);
    };
    cursor.take();
    let operand = whole(alloc, text, cursor, depth)?;
    cursor.expect(Kind::With)?;
    let (function, args) = message(alloc, text, cursor, depth)?;
    Ok(of_function(word, operand, function, args))
}

#[tactic(auto, unfolding(crate::specs::SourceReading::worded_source))]
fn worded_source(
    alloc: Global,
    text: &[u8],
    cursor: &mut Cursor<'_>,
    depth: usize,
) -> Result<SourceForm, ParseError>
    ensures { Reads (spec.worded_source text.now allowed depth cursor.old) result cursor.new }
{
    let next = cursor.peek();
    if single_of(next).is_some() {
        return single_source(alloc, text, cursor, depth);
    }
    if double_of(next).is_some() {
        return double_source(alloc, text, cursor, depth);
    }
    if applied_of(next).is_some() {
        return applied_source(alloc, text, cursor, depth);
    }
    Ok(SourceForm::Expr(other_whole(alloc, text, cursor, depth)?))
}

#[tactic(auto, unfolding(crate::specs::SourceReading::source_form, crate::specs::SourceReading::other_source))]
fn source_form(
    alloc: Global,
    text: &[u8],
    cursor: &mut Cursor<'_>,
    depth: usize,
) -> Result<SourceForm, ParseError>
    ensures { Reads (spec.source_form text.now allowed depth cursor.old) result cursor.new }
{
    match cursor.peek() {
        Some(Kind::Name) => name_source(alloc, text, cursor, depth),
        Some(Kind::This) => this_source(alloc, text, cursor, depth),
        Some(Kind::Take) => take_source(alloc, text, cursor),
        Some(Kind::New) => new_source(alloc, text, cursor),
        Some(Kind::Lift) => lift_source(alloc, text, cursor, depth),
        _ => worded_source(alloc, text, cursor, depth),
    }
}

/// What a new variable is bound to.
#[tactic(auto, unfolding(crate::specs::SourceReading::source))]
pub fn source(
    alloc: Global,
    text: &[u8],
    cursor: &mut Cursor<'_>,
    depth: usize,
) -> Result<Source, ParseError>
    ensures { Reads (spec.source text.now allowed depth cursor.old) result cursor.new }
{
    let start = cursor.start();
    let form = source_form(alloc, text, cursor, depth)?;
    Ok(Source {
        form,
        span: cursor.since(start),
    })
}
