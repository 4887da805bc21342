// References that are split, packed and chosen from.
ghost use Rattle.std.specs.Prelude.{◌≡◌, false, OnOk, IfOk, is_some};
ghost use Rattle.std.specs.Option.{option_copied};
ghost use Rattle.enc_premises.specs.Premises.{if_known};
ghost use Rattle.enc_premises.specs.Passing.{Passes, MemoryOnly};
ghost use Rattle.enc_flow.specs.Env.{declares};
ghost use Rattle.enc_exprs.specs.declared.uses.Use.TheVariants.{Consumes};
ghost use Rattle.enc_exprs.specs.Uses as uses;
ghost use Rattle.enc_rules.specs.Parts as parts;
ghost use Rattle.enc_rules.specs.Stmts as spec;

use crate::variables::{are_free, declare, is_free};
use enc_ast::{Fail, Name, Rule, Span, TypeText};
use enc_exprs::{Use, lend, type_in, variable};
use enc_flow::Scope;
use enc_modes::{Alt, Ty, is_linear};
use enc_premises::demand;
use enc_sources::{Context, chosen, of_trait, packed, splits};
use std::alloc::{AllocError, Global};

/// The reference of a variable, split in two new ones, each with its type.
#[tactic(auto, using(enc_premises::proofs::Passing::passing, crate::proofs::Memory::memory))]
pub fn split(
    context: &Context<'_>,
    env: &mut Scope,
    whole: &Name,
    left: (&Name, &TypeText),
    right: (&Name, &TypeText),
    span: Span,
) -> Result<(), Fail>
    ensures premises { Passes result (spec.split_premises context.now env.old whole.now left.entry.0.now left.entry.1.now right.entry.0.now right.entry.1.now span) }
    ensures after { OnOk result (env.new ≡ spec.split_after context.now env.old whole.now left.entry.0.now left.entry.1.now right.entry.0.now right.entry.1.now) }
{
    let word = whole.word.as_str();
    let whole_ty = variable(env, Use::Consumes, false, word, whole.span)?;
    let (left, left_text) = left;
    let (right, right_text) = right;
    let left_ty = context.tables.ty(left_text)?;
    let right_ty = context.tables.ty(right_text)?;
    demand(Rule::SLet, span, are_free(env, left, right))?;
    let fits = split_fits(whole_ty, left_ty.as_ref(), right_ty.as_ref());
    demand(Rule::SSplit, span, fits)?;
    lend(env, word);
    declare(env, left, left_ty)?;
    declare(env, right, right_ty)
}

/// Whether the two types part the whole one, as far as they are known.
fn split_fits(whole: Option<&Ty>, left: Option<&Ty>, right: Option<&Ty>) -> bool
    ensures { result ≡ spec.split_ok (option_copied whole.entry) (option_copied left.entry) (option_copied right.entry) }
{
    match (whole, left, right) {
        (None, _, _) => true,
        (Some(whole), Some(left), Some(right)) => splits(whole, left, right),
        (Some(whole), _, _) => is_linear(whole),
    }
}

/// The reference of a variable, narrowed to one trait of its disjunction.
#[tactic(auto, using(enc_premises::proofs::Passing::passing, crate::proofs::Memory::memory))]
pub fn choose(
    alloc: Global,
    context: &Context<'_>,
    env: &mut Scope,
    whole: &Name,
    wanted: &Name,
    name: &Name,
    span: Span,
) -> Result<(), Fail>
    ensures premises { Passes result (spec.choose_premises context.now env.old whole.now wanted.now name.now span) }
    ensures after { OnOk result (env.new ≡ spec.choose_after context.now env.old whole.now wanted.now name.now) }
{
    let word = whole.word.as_str();
    let whole_ty = variable(env, Use::Consumes, false, word, whole.span)?;
    let alt = context.tables.trait_named(wanted.word.as_str());
    let (ty, fits) = choice(alloc, whole_ty, alt)?;
    demand(Rule::SLet, span, is_free(env, name))?;
    demand(Rule::SChoose, span, fits)?;
    lend(env, word);
    declare(env, name, ty)
}

/// The type of what is chosen of a type, where it can be told, and whether it can be chosen, as far as
/// the type is known.
fn choice(
    alloc: Global,
    ty: Option<&Ty>,
    alt: Option<Alt>,
) -> Result<(Option<Ty>, bool), AllocError>
    ensures ty { IfOk result (λ r. r.0 ≡ parts.choice_of (option_copied ty.entry) alt) }
    ensures fits { IfOk result (λ r. r.1 ≡ if_known (λ t. is_some (parts.chosen t alt)) (option_copied ty.entry)) }
{
    match ty {
        None => Ok((of_trait(alloc, alt)?, true)),
        Some(ty) => {
            let found = chosen(alloc, ty, alt)?;
            let there = found.is_some();
            Ok((found, there))
        }
    }
}

/// Uses a variable up, as an expression in a consuming place does. It takes no memory.
pub fn move_out(env: &mut Scope, name: &Name) -> Result<(), Fail>
    ensures premises { Passes result (uses.variable env.old Consumes false name.now.word name.now.span) }
    ensures after { OnOk result (env.new ≡ uses.lends env.old name.now.word) }
{
    let word = name.word.as_str();
    variable(env, Use::Consumes, false, word, name.span)?;
    lend(env, word);
    Ok(())
}

/// Adds to `start` the variable to which the references of two variables of `env` are put together.
/// Answers whether they can be, as far as their types are known.
#[tactic(auto, using(crate::proofs::Memory::memory))]
pub fn pack(
    alloc: Global,
    env: &Scope,
    start: &mut Scope,
    names: (&Name, &Name, &Name),
) -> Result<bool, Fail>
    ensures memory { MemoryOnly result }
    ensures start { OnOk result (start.new ≡ declares start.old names.entry.2.now.word (spec.pack_known (spec.var_type env.now names.entry.0.now) (spec.var_type env.now names.entry.1.now))) }
    ensures fits { IfOk result (λ fits. fits ≡ spec.pack_ok (spec.var_type env.now names.entry.0.now) (spec.var_type env.now names.entry.1.now)) }
{
    let (left, right, name) = names;
    let left_ty = type_in(env, left.word.as_str());
    let right_ty = type_in(env, right.word.as_str());
    let (ty, fits) = union(alloc, left_ty, right_ty)?;
    declare(start, name, ty)?;
    Ok(fits)
}

/// The type of both together, where that is known, and whether they can be, as far as they are known.
fn union(
    alloc: Global,
    left: Option<&Ty>,
    right: Option<&Ty>,
) -> Result<(Option<Ty>, bool), AllocError>
    ensures ty { IfOk result (λ r. r.0 ≡ spec.pack_known (option_copied left.entry) (option_copied right.entry)) }
    ensures fits { IfOk result (λ r. r.1 ≡ spec.pack_ok (option_copied left.entry) (option_copied right.entry)) }
{
    match (left, right) {
        (None, None) => Ok((None, true)),
        (Some(ty), None) => Ok((None, is_linear(ty))),
        (None, Some(ty)) => Ok((None, is_linear(ty))),
        (Some(left), Some(right)) => {
            let both = packed(alloc, left, right)?;
            let there = both.is_some();
            Ok((both, there))
        }
    }
}
