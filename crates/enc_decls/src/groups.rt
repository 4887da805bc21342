// Disjunctions of traits.
ghost use Rattle.std.specs.Prelude.{◌≡◌, ◌++◌, IfOk, OnOk};
ghost use Rattle.enc_types.specs.Words.{every};
ghost use Rattle.enc_decls.specs.Conflicts as spec;
ghost use Rattle.enc_decls.specs.Found.{Right};

use crate::traits::Traits;
use enc_ast::{Decl, GroupText, Name, Row};
use enc_modes::Alt;
use enc_types::Names;
use std::alloc::{AllocError, Global};

/// Whether the group is one trait, or its traits may share a place: none is subordinate, each field
/// of theirs may go to another actor, and fields of one name in two traits have one type. Where
/// memory runs out, it answers `AllocError`.
#[tactic(auto, unfolding(crate::specs::Conflicts::may_share))]
pub fn may_share(
    alloc: Global,
    decls: &[Decl],
    names: &Names,
    traits: &mut Traits,
    group: &GroupText,
) -> Result<bool, AllocError>
    requires { Right decls.now names.now traits.old }
    ensures value { IfOk result (λ it. it ≡ spec.may_share decls.now names.now group.now) }
    ensures right { OnOk result (Right decls.now names.now traits.new) }
{
    match group.names.as_slice() {
        [] | [_] => Ok(true),
        words => {
            let alts = traits_in(alloc, names, words)?;
            alts_share(alloc, decls, names, traits, alts.as_slice())
        }
    }
}

fn traits_in(alloc: Global, names: &Names, words: &[Name]) -> Result<Row<Alt>, AllocError>
    ensures { IfOk result (λ alts. alts ≡ spec.traits_in names.now words.now) }
{
    let mut alts = Row::new(alloc);
    for name in words {
        if let Some(alt) = names.trait_named(name.word.as_str()) {
            alts.push(alt)?;
        }
    }
    Ok(alts)
}

fn alts_share(
    alloc: Global,
    decls: &[Decl],
    names: &Names,
    traits: &mut Traits,
    alts: &[Alt],
) -> Result<bool, AllocError>
    requires { Right decls.now names.now traits.old }
    ensures value { IfOk result (λ it. it ≡ spec.alts_share decls.now names.now alts.now) }
    ensures right { OnOk result (Right decls.now names.now traits.new) }
{
    for alt in alts {
        if !traits.may_leave(alloc, decls, names, *alt)? {
            return Ok(false);
        }
    }
    all_fit(alloc, decls, names, traits, alts)
}

// Whether each two of them are one trait, or fit.
fn all_fit(
    alloc: Global,
    decls: &[Decl],
    names: &Names,
    traits: &mut Traits,
    alts: &[Alt],
) -> Result<bool, AllocError>
    requires { Right decls.now names.now traits.old }
    ensures value { IfOk result (λ it. it ≡ spec.all_fit decls.now names.now alts.now) }
    ensures right { OnOk result (Right decls.now names.now traits.new) }
{
    for (at, alt) in alts.iter().enumerate() {
        if !fits_each(alloc, decls, names, traits, *alt, &alts[at + 1..])? {
            return Ok(false);
        }
    }
    Ok(true)
}

// Whether each of the others is the same trait as the one, or fits it.
fn fits_each(
    alloc: Global,
    decls: &[Decl],
    names: &Names,
    traits: &mut Traits,
    one: Alt,
    others: &[Alt],
) -> Result<bool, AllocError>
    requires { Right decls.now names.now traits.old }
    ensures value { IfOk result (λ it. it ≡ every (spec.one_or_fit decls.now names.now one) others.now) }
    ensures right { OnOk result (Right decls.now names.now traits.new) }
{
    for other in others {
        if !traits.are_one_or_fit(alloc, decls, names, one, *other)? {
            return Ok(false);
        }
    }
    Ok(true)
}
