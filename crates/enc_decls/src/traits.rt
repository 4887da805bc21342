// What was found of the traits of a program.
ghost use Rattle.std.specs.Prelude.{◌≡◌, ℕ, List, Some, is_some, true, IfOk, OnOk};
ghost use Rattle.enc_modes.specs.Modes as modes;
ghost use Rattle.enc_modes.specs.declared.ty.Alt.{Alt};
ghost use Rattle.enc_ast.specs.declared.decls.Decl.{Decl};
ghost use Rattle.enc_premises.specs.Premises.{if_known};
ghost use Rattle.enc_types.specs.Names.{Names};
ghost use Rattle.enc_types.specs.Words.{every};
ghost use Rattle.enc_types.specs.Written.{type_of};
ghost use Rattle.enc_decls.specs.Conflicts as conflicts;
ghost use Rattle.enc_decls.specs.Found as spec;

use crate::known::Fields;
use enc_ast::{Decl, Field};
use enc_modes::{Alt, Mode, Ty, is_sendable};
use enc_types::Names;
use indexmap::{IndexMap, IndexSet};
use std::alloc::{AllocError, Global};

// What was found of one trait.
#[derive(Drop)]
struct Found {
    fields: Fields,
    // Whether each of its fields may go to another actor.
    may_be_sent: bool,
}

impl Found {
    fn of(alloc: Global, decls: &[Decl], names: &Names, alt: Alt) -> Result<Found, AllocError>
        ensures fields { IfOk result (λ found. found.fields ≡ conflicts.entries_of decls.now names.now alt) }
        ensures may_be_sent { IfOk result (λ found. found.may_be_sent ≡ spec.all_sendable decls.now names.now alt) }
    {
        let fields = trait_fields(decls, alt.number);
        Ok(Found {
            fields: Fields::of(alloc, names, fields)?,
            may_be_sent: all_sendable(names, fields)?,
        })
    }
}

/// What was found of the traits so far, so that each is gone over once and each two are compared once.
#[derive(Drop)]
pub struct Traits {
    // By the numbers of their declarations.
    found: IndexMap<u32, Found>,
    // The numbers of each two that fit, the lesser one first.
    fitting: IndexSet<(u32, u32)>,
}

impl Traits {
    /// Nothing was found yet. It takes no memory.
    pub fn new(alloc: Global) -> Traits
        ensures { (decls : List Decl) (names : Names) → spec.Right decls names result }
    {
        Traits {
            found: IndexMap::new(alloc),
            fitting: IndexSet::new(alloc),
        }
    }

    /// Whether the trait isn't subordinate and each of its fields may go to another actor. Where
    /// memory runs out, it answers `AllocError`.
    pub fn may_leave(
        &mut self,
        alloc: Global,
        decls: &[Decl],
        names: &Names,
        alt: Alt,
    ) -> Result<bool, AllocError>
        requires { spec.Right decls.now names.now self.old }
        ensures value { IfOk result (λ it. it ≡ conflicts.may_leave decls.now names.now alt) }
        ensures right { OnOk result (spec.Right decls.now names.now self.new) }
    {
        if alt.mode == Mode::Subordinate {
            return Ok(false);
        }
        self.look(alloc, decls, names, alt)?;
        Ok(self.of(alt).may_be_sent)
    }

    /// Whether the traits are one, or each field of the one agrees with each of the other. Where
    /// memory runs out, it answers `AllocError`.
    pub fn are_one_or_fit(
        &mut self,
        alloc: Global,
        decls: &[Decl],
        names: &Names,
        left: Alt,
        right: Alt,
    ) -> Result<bool, AllocError>
        requires { spec.Right decls.now names.now self.old }
        ensures value { IfOk result (λ it. it ≡ conflicts.one_or_fit decls.now names.now left right) }
        ensures right { OnOk result (spec.Right decls.now names.now self.new) }
    {
        if left.number == right.number {
            return Ok(true);
        }
        if right.number < left.number {
            return self.fit(alloc, decls, names, right, left);
        }
        self.fit(alloc, decls, names, left, right)
    }

    // Whether each field of the one trait agrees with each of the other.
    fn fit(
        &mut self,
        alloc: Global,
        decls: &[Decl],
        names: &Names,
        left: Alt,
        right: Alt,
    ) -> Result<bool, AllocError>
        requires { spec.Right decls.now names.now self.old }
        ensures value { IfOk result (λ it. it ≡ conflicts.fit decls.now names.now left right) }
        ensures right { OnOk result (spec.Right decls.now names.now self.new) }
    {
        let numbers = (left.number, right.number);
        if self.fitting.contains(&numbers) {
            return Ok(true);
        }
        self.look(alloc, decls, names, left)?;
        self.look(alloc, decls, names, right)?;
        if !self.of(left).fields.fit(&self.of(right).fields) {
            return Ok(false);
        }
        self.fitting.insert(numbers)?;
        Ok(true)
    }

    // Goes over the fields of a trait, unless that was done.
    fn look(
        &mut self,
        alloc: Global,
        decls: &[Decl],
        names: &Names,
        alt: Alt,
    ) -> Result<(), AllocError>
        requires { spec.Right decls.now names.now self.old }
        ensures right { OnOk result (spec.Right decls.now names.now self.new) }
        ensures there { OnOk result (is_some (spec.found_of self.new alt.number) ≡ true) }
        ensures others { OnOk result ((k : ℕ) → is_some (spec.found_of self.old k) ≡ true → is_some (spec.found_of self.new k) ≡ true) }
    {
        if self.found.contains_key(&alt.number) {
            return Ok(());
        }
        let found = Found::of(alloc, decls, names, alt)?;
        self.found.insert(alt.number, found)?;
        Ok(())
    }

    // What was found of a trait that was gone over.
    fn of(&self, alt: Alt) -> &Found
        requires { is_some (spec.found_of self.now alt.number) ≡ true }
        ensures { spec.found_of self.now alt.number ≡ Some result.now }
    {
        self.found.get(&alt.number).unwrap()
    }
}

fn trait_fields(decls: &[Decl], number: u32) -> &[Field]
    ensures { result.now ≡ conflicts.trait_fields decls.now number }
{
    match decls.get(number as usize) {
        Some(Decl::Trait(decl)) => decl.fields.as_slice(),
        _ => &[],
    }
}

fn all_sendable(names: &Names, fields: &[Field]) -> Result<bool, AllocError>
    ensures { IfOk result (λ it. it ≡ every (λ f. if_known modes.is_sendable (type_of names.now f.ty)) fields.now) }
{
    for field in fields {
        if !may_be_sent(&names.ty(&field.ty)?) {
            return Ok(false);
        }
    }
    Ok(true)
}

fn may_be_sent(ty: &Option<Ty>) -> bool
    ensures { result ≡ if_known modes.is_sendable ty.now }
{
    match ty {
        None => true,
        Some(ty) => is_sendable(ty),
    }
}
