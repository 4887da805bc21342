// Lists and their elements.
ghost use Rattle.std.specs.Prelude.{◌≡◌, map, Some, IfOk, option_map};
ghost use Rattle.std.specs.Option.{option_copied};
ghost use Rattle.enc_modes.specs.declared.ty.Ty.TheVariants as ty;
ghost use Rattle.enc_premises.specs.Premises.{each, ◌⨾◌};
ghost use Rattle.enc_premises.specs.Passing.{Passes};
ghost use Rattle.enc_exprs.specs.Types.{is_list, is_int, like, item_of as element_of, items as items_of};
ghost use Rattle.enc_exprs.specs.Told.{told};
ghost use Rattle.enc_exprs.specs.Exprs as spec;

use crate::operands::{Asked, matching, operand};
use crate::told::Told;
use crate::types::{item_of, items};
use crate::uses::Use;
use enc_ast::{Expr, Fail};
use enc_flow::Scope;
use enc_modes::{Shared, Ty};
use enc_types::Names;
use std::alloc::{AllocError, Global};

/// The type of a list of these elements. It refuses by the first premise that fails, and answers
/// `Fail::Memory` where memory runs out.
#[cycle(expr)]
#[tactic(auto, using(enc_premises::proofs::Passing::passing, crate::proofs::Memory::out_of_memory, crate::proofs::Elements::list_none))]
pub fn list<'a>(
    alloc: Global,
    names: &Names,
    env: &'a Scope,
    elements: &[Expr],
) -> Result<Told<'a>, Fail>
    ensures premises { Passes result (spec.elements env.now (map (spec.judged names.now) elements.now)) }
    ensures ty { IfOk result (λ t. told t ≡ spec.elements_type env.now (map (spec.judged names.now) elements.now)) }
{
    match elements {
        [] => Ok(Told::made(list_of(alloc, Some(Ty::Unit))?)),
        [first, others @ ..] => {
            let ty = operand(alloc, names, env, first, Use::Copies, Asked::Shareable)?;
            all_match(alloc, names, env, others, ty.ty())?;
            Ok(Told::made(list_of(alloc, ty.into_ty()?)?))
        }
    }
}

#[cycle(expr)]
#[tactic(auto, using(enc_premises::proofs::Passing::passing))]
fn all_match(
    alloc: Global,
    names: &Names,
    env: &Scope,
    elements: &[Expr],
    first: Option<&Ty>,
) -> Result<(), Fail>
    ensures { Passes result (each (spec.copied env.now (like (option_copied first.entry))) (map (spec.judged names.now) elements.now)) }
{
    for element in elements {
        matching(alloc, names, env, element, first)?;
    }
    Ok(())
}

/// The type of an element of a list at a number. It refuses by the first premise that fails, and answers
/// `Fail::Memory` where memory runs out.
#[cycle(expr)]
#[tactic(auto, using(enc_premises::proofs::Passing::passing, crate::proofs::Memory::out_of_memory))]
pub fn at<'a>(
    alloc: Global,
    names: &Names,
    env: &'a Scope,
    list: &Expr,
    number: &Expr,
) -> Result<Told<'a>, Fail>
    ensures premises { Passes result (spec.copied env.now is_list (spec.judged names.now list.now) ⨾ spec.copied env.now is_int (spec.judged names.now number.now)) }
    ensures ty { IfOk result (λ t. told t ≡ items_of (spec.expr_type names.now env.now list.now)) }
{
    let ty = operand(alloc, names, env, list, Use::Copies, Asked::List)?;
    operand(alloc, names, env, number, Use::Copies, Asked::Int)?;
    Ok(into_item(ty)?)
}

/// The type of a list with one more element. It refuses by the first premise that fails, and answers
/// `Fail::Memory` where memory runs out.
#[cycle(expr)]
#[tactic(auto, using(enc_premises::proofs::Passing::passing))]
pub fn append<'a>(
    alloc: Global,
    names: &Names,
    env: &'a Scope,
    list: &Expr,
    element: &Expr,
) -> Result<Told<'a>, Fail>
    ensures premises { Passes result (spec.copied env.now is_list (spec.judged names.now list.now) ⨾ spec.copied env.now (like (items_of (spec.expr_type names.now env.now list.now))) (spec.judged names.now element.now)) }
    ensures ty { IfOk result (λ t. told t ≡ spec.expr_type names.now env.now list.now) }
{
    let ty = operand(alloc, names, env, list, Use::Copies, Asked::List)?;
    matching(alloc, names, env, element, items(ty.ty()))?;
    Ok(ty)
}

/// The type of lists of a type, where it is known, or `AllocError` where memory runs out.
pub fn list_of(alloc: Global, item: Option<Ty>) -> Result<Option<Ty>, AllocError>
    ensures { IfOk result (λ t. t ≡ option_map ty.List item) }
{
    match item {
        Some(item) => Ok(Some(Ty::List(Shared::new(alloc, item)?))),
        None => Ok(None),
    }
}

fn into_item<'a>(list: Told<'a>) -> Result<Told<'a>, AllocError>
    ensures { IfOk result (λ t. told t ≡ items_of (told list.entry)) }
{
    match list {
        Told::Unknown => Ok(Told::Unknown),
        Told::Seen(ty) => Ok(Told::seen(item_of(ty))),
        Told::Made(ty) => Ok(Told::made(shared_item(&ty)?)),
    }
}

fn shared_item(list: &Ty) -> Result<Option<Ty>, AllocError>
    ensures { IfOk result (λ item. item ≡ element_of list.now) }
{
    match item_of(list) {
        Some(item) => Ok(Some(item.share()?)),
        None => Ok(None),
    }
}
