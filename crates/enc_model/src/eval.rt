// What an expression gives.
ghost use Rattle.std.specs.Prelude.{◌≡◌, IfOk};
ghost use Rattle.enc_model.specs.Eval.{eval as eval_of, found, got_of, operated, fitted, result_of};

use crate::values::copy_bytes;
use crate::{Got, Locals, TrapKind, Value};
use enc_ast::{Expr, ExprForm, Operator};
use std::alloc::{AllocError, Global};

/// What the expression gives where these variables are bound.
#[tactic(auto, using(crate::proofs::Meaning::meaning))]
pub fn eval(alloc: Global, expr: &Expr, locals: &Locals) -> Result<Got, AllocError>
    ensures { IfOk result (λ got. got ≡ eval_of expr.now locals.now.pairs) }
{
    match &expr.form {
        ExprForm::Int(number) => Ok(Got::Gives(Value::Int(*number))),
        ExprForm::Text(bytes) => Ok(Got::Gives(Value::Text(copy_bytes(alloc, bytes)?))),
        ExprForm::Name(name) => find(alloc, locals, name.as_str()),
        ExprForm::Binary(operator, left, right) => match eval(alloc, left.get(), locals)? {
            Got::Gives(x) => match eval(alloc, right.get(), locals)? {
                Got::Gives(y) => Ok(operate(*operator, x, y)),
                Got::Traps(kind) => Ok(Got::Traps(kind)),
                Got::Nothing => Ok(Got::Nothing),
            },
            Got::Traps(kind) => Ok(Got::Traps(kind)),
            Got::Nothing => Ok(Got::Nothing),
        },
        ExprForm::Parens(inside) => eval(alloc, inside.get(), locals),
        _ => Ok(Got::Nothing),
    }
}

// The value of the first variable of this name.
fn find(alloc: Global, locals: &Locals, name: &str) -> Result<Got, AllocError>
    ensures { IfOk result (λ got. got ≡ found name.now locals.now.pairs) }
{
    for (word, value) in locals.pairs.as_slice() {
        if word.as_str() == name {
            return give(alloc, value);
        }
    }
    Ok(Got::Nothing)
}

// What a variable gives that has this value, or none.
fn give(alloc: Global, value: &Option<Value>) -> Result<Got, AllocError>
    ensures { IfOk result (λ got. got ≡ got_of value.now) }
{
    match value {
        None => Ok(Got::Nothing),
        Some(value) => Ok(Got::Gives(value.copy(alloc)?)),
    }
}

fn operate(operator: Operator, left: Value, right: Value) -> Got
    ensures { result ≡ operated operator left right }
{
    if let (Value::Int(x), Value::Int(y)) = (left, right) {
        calculate(operator, x, y)
    } else {
        Got::Nothing
    }
}

fn calculate(operator: Operator, x: i64, y: i64) -> Got
    ensures { result ≡ fitted (result_of operator x y) }
{
    let result = match operator {
        Operator::Add => x.checked_add(y),
        Operator::Subtract => x.checked_sub(y),
        Operator::Multiply => x.checked_mul(y),
        _ => return Got::Nothing,
    };
    match result {
        Some(number) => Got::Gives(Value::Int(number)),
        None => Got::Traps(TrapKind::Overflow),
    }
}
