// Operands, and what is asked of their types.
ghost use Rattle.std.specs.Prelude.{◌≡◌, Some, IfOk};
ghost use Rattle.std.specs.Option.{option_copied};
ghost use Rattle.enc_premises.specs.Premises.{if_known};
ghost use Rattle.enc_premises.specs.Passing.{Passes};
ghost use Rattle.enc_exprs.specs.Types.{asks, is_known_as as known_as, is_plain as is_plain_type, like as is_like};
ghost use Rattle.enc_exprs.specs.Told.{told};
ghost use Rattle.enc_exprs.specs.Exprs as spec;

use crate::exprs::expr_type;
use crate::told::Told;
use crate::types::{can_be_null, is_bool, is_int, is_plain, item_of, like};
use crate::uses::Use;
use enc_ast::{Expr, Fail, Operator, Rule};
use enc_flow::Scope;
use enc_modes::{Ty, is_shareable};
use enc_premises::demand;
use enc_types::Names;
use std::alloc::Global;

/// What a form asks of the type of an operand.
#[derive(Clone, Copy)]
pub enum Asked {
    Int,
    Bool,
    /// An integer, a truth value or a text.
    Plain,
    /// What several actors may hold.
    Shareable,
    /// A list.
    List,
    /// What can refer to nothing.
    Null,
}

/// Whether a type is as asked, where it is known.
fn meets(asked: Asked, ty: Option<&Ty>) -> bool
    ensures { result ≡ if_known (asks asked) (option_copied ty.entry) }
{
    match ty {
        None => true,
        Some(ty) => is_as(asked, ty),
    }
}

/// Whether a type is known, and as asked.
pub fn is_known_as(asked: Asked, ty: Option<&Ty>) -> bool
    ensures { result ≡ known_as (asks asked) (option_copied ty.entry) }
{
    match ty {
        None => false,
        Some(ty) => is_as(asked, ty),
    }
}

fn is_as(asked: Asked, ty: &Ty) -> bool
    ensures { result ≡ asks asked ty.now }
{
    match asked {
        Asked::Int => is_int(ty),
        Asked::Bool => is_bool(ty),
        Asked::Plain => is_plain(ty),
        Asked::Shareable => is_shareable(ty),
        Asked::List => item_of(ty).is_some(),
        Asked::Null => can_be_null(ty),
    }
}

fn matches_first(first: Option<&Ty>, ty: Option<&Ty>) -> bool
    ensures { result ≡ if_known (is_like (option_copied first.entry)) (option_copied ty.entry) }
{
    match ty {
        None => true,
        Some(ty) => like(first, ty),
    }
}

/// The type of an operand of which something is asked. It refuses by the first premise that fails, and
/// answers `Fail::Memory` where memory runs out.
#[cycle(expr)]
#[tactic(auto, using(enc_premises::proofs::Passing::passing, crate::proofs::Meaning::spans))]
pub fn operand<'a>(
    alloc: Global,
    names: &Names,
    env: &'a Scope,
    expr: &Expr,
    place: Use,
    asked: Asked,
) -> Result<Told<'a>, Fail>
    ensures premises { Passes result (spec.operand env.now place (asks asked) (spec.judged names.now expr.now)) }
    ensures ty { IfOk result (λ t. told t ≡ spec.expr_type names.now env.now expr.now) }
{
    let ty = expr_type(alloc, names, env, expr, place)?;
    demand(Rule::EType, expr.span, meets(asked, ty.ty()))?;
    Ok(ty)
}

/// The type of an operand that is to be of the same type as an earlier one. It refuses by the first premise
/// that fails, and answers `Fail::Memory` where memory runs out.
#[cycle(expr)]
#[tactic(auto, using(enc_premises::proofs::Passing::passing, crate::proofs::Meaning::spans))]
pub fn matching<'a>(
    alloc: Global,
    names: &Names,
    env: &'a Scope,
    expr: &Expr,
    first: Option<&Ty>,
) -> Result<Told<'a>, Fail>
    ensures premises { Passes result (spec.copied env.now (is_like (option_copied first.entry)) (spec.judged names.now expr.now)) }
    ensures ty { IfOk result (λ t. told t ≡ spec.expr_type names.now env.now expr.now) }
{
    let ty = expr_type(alloc, names, env, expr, Use::Copies)?;
    demand(Rule::EType, expr.span, matches_first(first, ty.ty()))?;
    Ok(ty)
}

/// The type of an operator's result. It refuses by the first premise that fails, and answers
/// `Fail::Memory` where memory runs out.
#[cycle(expr)]
#[tactic(auto, using(enc_premises::proofs::Passing::passing))]
pub fn binary<'a>(
    alloc: Global,
    names: &Names,
    env: &'a Scope,
    operator: Operator,
    left: &Expr,
    right: &Expr,
) -> Result<Told<'a>, Fail>
    ensures premises { Passes result (spec.binary operator env.now (spec.judged names.now left.now) (spec.judged names.now right.now)) }
    ensures ty { IfOk result (λ t. told t ≡ Some (spec.binary_type operator)) }
{
    match operator {
        Operator::Or | Operator::And => two(alloc, names, env, left, right, Asked::Bool)?,
        Operator::Equal | Operator::NotEqual => alike(alloc, names, env, left, right)?,
        Operator::Less
        | Operator::LessEqual
        | Operator::Greater
        | Operator::GreaterEqual
        | Operator::Add
        | Operator::Subtract
        | Operator::Multiply
        | Operator::Divide
        | Operator::Remainder => two(alloc, names, env, left, right, Asked::Int)?,
    }
    Ok(Told::Made(binary_type(operator)))
}

#[cycle(expr)]
#[tactic(auto, using(enc_premises::proofs::Passing::passing))]
fn two(
    alloc: Global,
    names: &Names,
    env: &Scope,
    left: &Expr,
    right: &Expr,
    asked: Asked,
) -> Result<(), Fail>
    ensures { Passes result (spec.two env.now (asks asked) (spec.judged names.now left.now) (spec.judged names.now right.now)) }
{
    operand(alloc, names, env, left, Use::Copies, asked)?;
    operand(alloc, names, env, right, Use::Copies, asked)?;
    Ok(())
}

#[cycle(expr)]
#[tactic(auto, using(enc_premises::proofs::Passing::passing))]
fn alike(alloc: Global, names: &Names, env: &Scope, left: &Expr, right: &Expr) -> Result<(), Fail>
    ensures { Passes result (spec.alike env.now is_plain_type (spec.judged names.now left.now) (spec.judged names.now right.now)) }
{
    let ty = operand(alloc, names, env, left, Use::Copies, Asked::Plain)?;
    matching(alloc, names, env, right, ty.ty())?;
    Ok(())
}

fn binary_type(operator: Operator) -> Ty
    ensures { result ≡ spec.binary_type operator }
{
    match operator {
        Operator::Add
        | Operator::Subtract
        | Operator::Multiply
        | Operator::Divide
        | Operator::Remainder => Ty::Int,
        _ => Ty::Bool,
    }
}
