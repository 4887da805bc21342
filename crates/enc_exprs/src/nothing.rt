// Values of a written type that refer to nothing or have nothing in them.
ghost use Rattle.std.specs.Prelude.{◌≡◌, [], ◌∷◌, IfOk, option_map};
ghost use Rattle.enc_ast.specs.declared.rules.Rule.TheVariants as rule;
ghost use Rattle.enc_modes.specs.declared.ty.Ty.TheVariants as ty;
ghost use Rattle.enc_premises.specs.Premises.{node};
ghost use Rattle.enc_premises.specs.Passing.{Passes};
ghost use Rattle.enc_types.specs.Written.{type_of};
ghost use Rattle.enc_exprs.specs.Told.{told};
ghost use Rattle.enc_exprs.specs.Types.{asks, can_be_null, is_known_as as known_as};
ghost use Rattle.enc_modes.specs.Modes.{is_shareable};

use crate::lists::list_of;
use crate::operands::{Asked, is_known_as};
use crate::told::Told;
use enc_ast::{Fail, Rule, Span, TypeText};
use enc_modes::{Shared, Ty};
use enc_premises::demand;
use enc_types::Names;
use std::alloc::{AllocError, Global};

/// The type of what refers to nothing, of a written type. It refuses where that can't be, and answers
/// `Fail::Memory` where memory runs out.
pub fn null<'a>(names: &Names, text: &TypeText, span: Span) -> Result<Told<'a>, Fail>
    ensures premises { Passes result (node span ((rule.EType, known_as can_be_null (type_of names.now text.now)) ∷ [])) }
    ensures ty { IfOk result (λ t. told t ≡ type_of names.now text.now) }
{
    Ok(Told::made(written(names, text, Asked::Null, span)?))
}

/// The type of the tree that has no value, of a written type. It refuses where that can't be, and answers
/// `Fail::Memory` where memory runs out.
#[tactic(auto, using(crate::proofs::Memory::out_of_memory))]
pub fn empty<'a>(
    alloc: Global,
    names: &Names,
    text: &TypeText,
    span: Span,
) -> Result<Told<'a>, Fail>
    ensures premises { Passes result (node span ((rule.EType, known_as is_shareable (type_of names.now text.now)) ∷ [])) }
    ensures ty { IfOk result (λ t. told t ≡ option_map ty.Par (type_of names.now text.now)) }
{
    let ty = written(names, text, Asked::Shareable, span)?;
    Ok(Told::made(par_of(alloc, ty)?))
}

/// The type of the list that has no element, of a written type. It refuses where that can't be, and
/// answers `Fail::Memory` where memory runs out.
#[tactic(auto, using(crate::proofs::Memory::out_of_memory))]
pub fn nil<'a>(alloc: Global, names: &Names, text: &TypeText, span: Span) -> Result<Told<'a>, Fail>
    ensures premises { Passes result (node span ((rule.EType, known_as is_shareable (type_of names.now text.now)) ∷ [])) }
    ensures ty { IfOk result (λ t. told t ≡ option_map ty.List (type_of names.now text.now)) }
{
    let ty = written(names, text, Asked::Shareable, span)?;
    Ok(Told::made(list_of(alloc, ty)?))
}

/// A written type, which is to stand for a type of which something is asked, at an expression's place.
#[tactic(auto, using(enc_premises::proofs::Passing::passing, crate::proofs::Memory::out_of_memory))]
fn written(names: &Names, text: &TypeText, asked: Asked, span: Span) -> Result<Option<Ty>, Fail>
    ensures premises { Passes result (node span ((rule.EType, known_as (asks asked) (type_of names.now text.now)) ∷ [])) }
    ensures ty { IfOk result (λ t. t ≡ type_of names.now text.now) }
{
    let ty = names.ty(text)?;
    demand(Rule::EType, span, is_known_as(asked, ty.as_ref()))?;
    Ok(ty)
}

fn par_of(alloc: Global, item: Option<Ty>) -> Result<Option<Ty>, AllocError>
    ensures { IfOk result (λ t. t ≡ option_map ty.Par item) }
{
    match item {
        Some(item) => Ok(Some(Ty::Par(Shared::new(alloc, item)?))),
        None => Ok(None),
    }
}
