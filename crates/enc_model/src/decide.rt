// What a frame does next.
ghost use Rattle.std.specs.Prelude.{◌≡◌, ℕ, List, [], IfOk};
ghost use Rattle.std.specs.Option.{unwrap_or};
ghost use Rattle.enc_model.specs.Step.{decide as decide_of, decide_form, decide_items, decide_source, bound, says, goes_on, shown};
ghost use Rattle.enc_model.specs.Eval.{eval as eval_of};
ghost use Rattle.enc_model.specs.declared.moves.Move.{Move as Asked};

use crate::eval::eval;
use crate::{Frame, Got, Locals, Move, Value};
use enc_ast::{Expr, Name, Program, Row, Source, SourceForm, Span, Stmt, StmtForm};
use itoa::Buffer;
use std::alloc::{AllocError, Global};

/// What the frame asks for next.
pub fn decide(alloc: Global, program: &Program, frame: &Frame) -> Result<Move, AllocError>
    ensures { IfOk result (λ asked. asked ≡ decide_of program.now frame.now) }
{
    match program.body().get(frame.at as usize) {
        None => Ok(Move::Leave),
        Some(stmt) => decide_stmt(alloc, stmt, &frame.locals),
    }
}

fn decide_stmt(alloc: Global, stmt: &Stmt, locals: &Locals) -> Result<Move, AllocError>
    ensures { IfOk result (λ asked. asked ≡ decide_form stmt.now.span locals.now.pairs stmt.now.form) }
{
    match &stmt.form {
        StmtForm::Let(name, source) => decide_let(alloc, stmt.span, name, source, locals),
        StmtForm::Print(items) => decide_print(alloc, stmt.span, items.as_slice(), locals),
        _ => Ok(Move::Lost),
    }
}

fn decide_let(
    alloc: Global,
    span: Span,
    name: &Name,
    source: &Source,
    locals: &Locals,
) -> Result<Move, AllocError>
    ensures { IfOk result (λ asked. asked ≡ decide_source span locals.now.pairs name.now.word source.now.form) }
{
    match &source.form {
        SourceForm::Expr(expr) => decide_value(alloc, span, name, expr, locals),
        _ => Ok(Move::Lost),
    }
}

fn decide_value(
    alloc: Global,
    span: Span,
    name: &Name,
    expr: &Expr,
    locals: &Locals,
) -> Result<Move, AllocError>
    ensures { IfOk result (λ asked. asked ≡ bound span name.now.word (eval_of expr.now locals.now.pairs)) }
{
    match eval(alloc, expr, locals)? {
        Got::Gives(value) => Ok(Move::Bind(name.word.copy()?, value)),
        Got::Traps(kind) => Ok(Move::Fault(kind, span)),
        Got::Nothing => Ok(Move::Lost),
    }
}

fn decide_print(
    alloc: Global,
    span: Span,
    items: &[Expr],
    locals: &Locals,
) -> Result<Move, AllocError>
    ensures { IfOk result (λ asked. asked ≡ decide_items span locals.now.pairs items.now []) }
{
    let mut line = Row::new(alloc);
    for item in items {
        if let Some(asked) = say_item(alloc, span, item, locals, &mut line)? {
            return Ok(asked);
        }
    }
    line.push(b'\n')?;
    Ok(Move::Say(line))
}

// Adds the item's value to the line, or says what the statement asks for in place of a line.
fn say_item(
    alloc: Global,
    span: Span,
    item: &Expr,
    locals: &Locals,
    line: &mut Row<u8>,
) -> Result<Option<Move>, AllocError>
    ensures { IfOk result (λ other. (rest : List ℕ → Asked) → says span rest line.old (eval_of item.now locals.now.pairs) ≡ unwrap_or other (rest line.new)) }
{
    match eval(alloc, item, locals)? {
        Got::Gives(value) => show(&value, line),
        Got::Traps(kind) => Ok(Some(Move::Fault(kind, span))),
        Got::Nothing => Ok(Some(Move::Lost)),
    }
}

// Adds the bytes that stand for the value to the line. Where there are none, the statement has no meaning.
fn show(value: &Value, line: &mut Row<u8>) -> Result<Option<Move>, AllocError>
    ensures { IfOk result (λ other. (rest : List ℕ → Asked) → goes_on rest line.old (shown value.now) ≡ unwrap_or other (rest line.new)) }
{
    match value {
        Value::Int(number) => {
            let mut buffer = Buffer::new();
            line.extend(buffer.format(*number).as_bytes())?;
        }
        Value::Text(bytes) => line.extend(bytes.as_slice())?,
        Value::Unit => return Ok(Some(Move::Lost)),
    }
    Ok(None)
}
