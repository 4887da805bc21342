// What stands behind a receiver.
ghost use Rattle.std.specs.Prelude.{◌≡◌};
ghost use Rattle.enc_cursor.specs.Cursor.{Reads};
ghost use Rattle.enc_cursor.specs.Limits.{allowed};
ghost use Rattle.enc_stmts.specs.Requests as told;
ghost use Rattle.enc_stmts.specs.SourceReading as spec;

use enc_ast::{Expr, Name, Receiver, Row, SourceForm, Span, StmtForm};
use enc_cursor::{Cursor, ParseError};
use enc_lex::Kind;
use enc_terms::{args, name};
use std::alloc::Global;

/// What is asked of a receiver: a method, and its arguments.
#[derive(Drop)]
pub enum Request {
    Call(Name, Row<Expr>),
    Send(Name, Row<Expr>),
}

/// What a source may be made of behind `this`.
#[derive(Drop)]
pub enum Member {
    Field(Name),
    Asked(Request),
}

/// What a statement may do with `this`.
#[derive(Drop)]
pub enum Action {
    Store(Name, Expr),
    Asked(Request),
}

/// The source that asks this of a receiver.
pub(crate) fn source_asked(to: Receiver, request: Request) -> SourceForm
    ensures { result ≡ told.source_asked to request }
{
    match request {
        Request::Call(method, args) => SourceForm::Call(to, method, args),
        Request::Send(method, args) => SourceForm::Send(to, method, args),
    }
}

/// The statement that asks this of a receiver.
pub(crate) fn stmt_asked(to: Receiver, request: Request) -> StmtForm
    ensures { result ≡ told.stmt_asked to request }
{
    match request {
        Request::Call(method, args) => StmtForm::Call(to, method, args),
        Request::Send(method, args) => StmtForm::Send(to, method, args),
    }
}

/// The source that `this` and a member of it are.
pub(crate) fn member_source(this: Span, member: Member) -> SourceForm
    ensures { result ≡ told.member_source this member }
{
    match member {
        Member::Field(name) => SourceForm::Field(this, name),
        Member::Asked(request) => source_asked(Receiver::This(this), request),
    }
}

/// The statement that does this with `this`.
pub(crate) fn action_stmt(this: Span, action: Action) -> StmtForm
    ensures { result ≡ told.action_stmt this action }
{
    match action {
        Action::Store(name, value) => StmtForm::Store(this, name, value),
        Action::Asked(request) => stmt_asked(Receiver::This(this), request),
    }
}

/// `NAME args`
#[tactic(auto, unfolding(crate::specs::SourceReading::message))]
pub(crate) fn message(
    alloc: Global,
    text: &[u8],
    cursor: &mut Cursor<'_>,
    depth: usize,
) -> Result<(Name, Row<Expr>), ParseError>
    ensures { Reads (spec.message text.now allowed depth cursor.old) result cursor.new }
{
    let method = name(alloc, text, cursor)?;
    let args = args(alloc, text, cursor, depth)?;
    Ok((method, args))
}

/// `! NAME args`
#[tactic(auto, unfolding(crate::specs::SourceReading::sent))]
pub(crate) fn sent(
    alloc: Global,
    text: &[u8],
    cursor: &mut Cursor<'_>,
    depth: usize,
) -> Result<Request, ParseError>
    ensures { Reads (spec.sent text.now allowed depth cursor.old) result cursor.new }
{
    cursor.expect(Kind::Bang)?;
    let (method, args) = message(alloc, text, cursor, depth)?;
    Ok(Request::Send(method, args))
}

/// `. NAME args` or `! NAME args`
#[tactic(auto, unfolding(crate::specs::SourceReading::asked))]
pub(crate) fn asked(
    alloc: Global,
    text: &[u8],
    cursor: &mut Cursor<'_>,
    depth: usize,
) -> Result<Request, ParseError>
    ensures { Reads (spec.asked text.now allowed depth cursor.old) result cursor.new }
{
    if !cursor.sees(Kind::Dot) {
        return sent(alloc, text, cursor, depth);
    }
    cursor.expect(Kind::Dot)?;
    let (method, args) = message(alloc, text, cursor, depth)?;
    Ok(Request::Call(method, args))
}
