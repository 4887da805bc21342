// The types of expressions.
ghost use Rattle.std.specs.Prelude.{◌≡◌, Some, true, IfOk, OnOk, OnErr};
ghost use Rattle.enc_modes.specs.declared.ty.Ty.{Ty as Value};
ghost use Rattle.enc_modes.specs.declared.ty.Ty.TheVariants as ty;
ghost use Rattle.enc_premises.specs.Passing.{Passes, Tells, MemoryOnly};
ghost use Rattle.enc_flow.specs.Env.{find, ty_of};
ghost use Rattle.enc_types.specs.Names.{Names as Table};
ghost use Rattle.enc_exprs.specs.declared.uses.Use.TheVariants.{Copies, Consumes, Looks};
ghost use Rattle.enc_exprs.specs.Types.{can_be_null, is_bool, is_int, is_list};
ghost use Rattle.enc_exprs.specs.Uses.{variable as variable_premises};
ghost use Rattle.enc_exprs.specs.Told.{told};
ghost use Rattle.enc_exprs.specs.Exprs as spec;
ghost use Rattle.enc_exprs.specs.Typing.{IsTyped};

use crate::lists::{append, at, list};
use crate::nothing::{empty, nil, null};
use crate::operands::{Asked, binary, operand};
use crate::told::Told;
use crate::uses::{Use, lend, variable};
use enc_ast::{Expr, ExprForm, Fail, Span};
use enc_flow::{Env, Scope};
use enc_modes::Ty;
use enc_types::Names;
use std::alloc::Global;

/// The type of an expression in a place, as far as it is known where no premise fails. It refuses by the
/// first premise that fails, in the order of the text. The types that it makes take memory: where that
/// runs out, it answers `Fail::Memory`.
#[cycle(expr)]
#[tactic(auto, using(crate::proofs::Meaning::exprs))]
pub fn expr_type<'a>(
    alloc: Global,
    names: &Names,
    env: &'a Scope,
    expr: &Expr,
    place: Use,
) -> Result<Told<'a>, Fail>
    ensures premises { Passes result (spec.expr_premises names.now env.now place expr.now) }
    ensures ty { IfOk result (λ t. told t ≡ spec.expr_type names.now env.now expr.now) }
{
    match &expr.form {
        ExprForm::Binary(operator, left, right) => {
            binary(alloc, names, env, *operator, left.get(), right.get())
        }
        ExprForm::Negative(inner) => negative(alloc, names, env, inner.get()),
        ExprForm::Not(inner) => not(alloc, names, env, inner.get()),
        ExprForm::Int(_) => Ok(Told::Made(Ty::Int)),
        ExprForm::Text(_) => Ok(Told::Made(Ty::Text)),
        ExprForm::True => Ok(Told::Made(Ty::Bool)),
        ExprForm::False => Ok(Told::Made(Ty::Bool)),
        ExprForm::Unit => Ok(Told::Made(Ty::Unit)),
        ExprForm::This => named(env, place, true, "this", expr.span),
        ExprForm::Name(word) => named(env, place, false, word.as_str(), expr.span),
        ExprForm::Parens(inner) => expr_type(alloc, names, env, inner.get(), Use::Copies),
        ExprForm::List(elements) => list(alloc, names, env, elements.as_slice()),
        ExprForm::Null(text) => null(names, text, expr.span),
        ExprForm::Empty(text) => empty(alloc, names, text, expr.span),
        ExprForm::Nil(text) => nil(alloc, names, text, expr.span),
        ExprForm::Len(inner) => length(alloc, names, env, inner.get()),
        ExprForm::IsNull(inner) => is_null(alloc, names, env, inner.get()),
        ExprForm::At(left, right) => at(alloc, names, env, left.get(), right.get()),
        ExprForm::Append(left, right) => append(alloc, names, env, left.get(), right.get()),
    }
}

#[tactic(auto, using(enc_premises::proofs::Passing::passing))]
fn named<'a>(
    env: &'a Scope,
    place: Use,
    mine: bool,
    name: &str,
    span: Span,
) -> Result<Told<'a>, Fail>
    ensures premises { Passes result (variable_premises env.now place mine name.now span) }
    ensures ty { IfOk result (λ t. told t ≡ ty_of (find env.now name.now)) }
{
    Ok(Told::seen(variable(env, place, mine, name, span)?))
}

#[cycle(expr)]
#[tactic(auto, using(enc_premises::proofs::Passing::passing))]
fn negative<'a>(
    alloc: Global,
    names: &Names,
    env: &'a Scope,
    inner: &Expr,
) -> Result<Told<'a>, Fail>
    ensures premises { Passes result (spec.copied env.now is_int (spec.judged names.now inner.now)) }
    ensures ty { IfOk result (λ t. told t ≡ Some ty.Int) }
{
    operand(alloc, names, env, inner, Use::Copies, Asked::Int)?;
    Ok(Told::Made(Ty::Int))
}

#[cycle(expr)]
#[tactic(auto, using(enc_premises::proofs::Passing::passing))]
fn not<'a>(alloc: Global, names: &Names, env: &'a Scope, inner: &Expr) -> Result<Told<'a>, Fail>
    ensures premises { Passes result (spec.copied env.now is_bool (spec.judged names.now inner.now)) }
    ensures ty { IfOk result (λ t. told t ≡ Some ty.Bool) }
{
    operand(alloc, names, env, inner, Use::Copies, Asked::Bool)?;
    Ok(Told::Made(Ty::Bool))
}

#[cycle(expr)]
#[tactic(auto, using(enc_premises::proofs::Passing::passing))]
fn length<'a>(alloc: Global, names: &Names, env: &'a Scope, inner: &Expr) -> Result<Told<'a>, Fail>
    ensures premises { Passes result (spec.copied env.now is_list (spec.judged names.now inner.now)) }
    ensures ty { IfOk result (λ t. told t ≡ Some ty.Int) }
{
    operand(alloc, names, env, inner, Use::Copies, Asked::List)?;
    Ok(Told::Made(Ty::Int))
}

#[cycle(expr)]
#[tactic(auto, using(enc_premises::proofs::Passing::passing))]
fn is_null<'a>(alloc: Global, names: &Names, env: &'a Scope, inner: &Expr) -> Result<Told<'a>, Fail>
    ensures premises { Passes result (spec.operand env.now Looks can_be_null (spec.judged names.now inner.now)) }
    ensures ty { IfOk result (λ t. told t ≡ Some ty.Bool) }
{
    operand(alloc, names, env, inner, Use::Looks, Asked::Null)?;
    Ok(Told::Made(Ty::Bool))
}

/// The variables after an expression in a consuming place: where it is a variable of a linear type, that
/// one is moved. It takes no memory.
#[tactic(auto, using(crate::proofs::Meaning::names))]
pub fn consume(env: &mut Scope, expr: &Expr)
    ensures { (names : Table) → env.new ≡ spec.consumes env.old (spec.judged names expr.now).name }
{
    match &expr.form {
        ExprForm::This => lend(env, "this"),
        ExprForm::Name(word) => lend(env, word.as_str()),
        _ => {}
    }
}

/// The type of an expression in a consuming place, as `expr_type` tells it, and the variables after it.
/// It fails as `expr_type` does, and then the variables stay as they were.
pub fn consumed(
    alloc: Global,
    names: &Names,
    env: &mut Scope,
    expr: &Expr,
) -> Result<Option<Ty>, Fail>
    ensures premises { Passes result (spec.expr_premises names.now env.old Consumes expr.now) }
    ensures ty { IfOk result (λ t. t ≡ spec.expr_type names.now env.old expr.now) }
    ensures after { OnOk result (env.new ≡ spec.consumes env.old (spec.judged names.now expr.now).name) }
    ensures err { OnErr result (env.new ≡ env.old) }
{
    let ty = owned(alloc, names, env, expr, Use::Consumes)?;
    consume(env, expr);
    Ok(ty)
}

/// The type of an expression in a copying place. It answers a type exactly where the expression is well
/// typed, and otherwise refuses by the first premise that fails; where memory runs out, it answers
/// `Fail::Memory`.
#[tactic(auto, using(enc_premises::proofs::Telling::tells, crate::proofs::Operand::typed))]
pub fn typed(alloc: Global, names: &Names, env: &Env, expr: &Expr) -> Result<Ty, Fail>
    ensures ok { IfOk result (λ t. IsTyped names.now env.now expr.now Copies t env.now) }
    ensures tells { Tells result (spec.expr_premises names.now env.now Copies expr.now) }
    ensures accepts { (t : Value) → IsTyped names.now env.now expr.now Copies t env.now → MemoryOnly result }
{
    let ty = owned(alloc, names, env.scope(), expr, Use::Copies)?;
    Ok(ty.unwrap())
}

/// The type that `expr_type` tells, as one of its own.
#[tactic(auto, using(crate::proofs::Memory::out_of_memory))]
fn owned(
    alloc: Global,
    names: &Names,
    env: &Scope,
    expr: &Expr,
    place: Use,
) -> Result<Option<Ty>, Fail>
    ensures premises { Passes result (spec.expr_premises names.now env.now place expr.now) }
    ensures ty { IfOk result (λ t. t ≡ spec.expr_type names.now env.now expr.now) }
{
    let told = expr_type(alloc, names, env, expr, place)?;
    Ok(told.into_ty()?)
}
