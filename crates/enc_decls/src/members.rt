// Fields and methods.
ghost use Rattle.std.specs.Prelude.{◌≡◌, []};
ghost use Rattle.enc_premises.specs.Premises.{each_after, if_known};
ghost use Rattle.enc_premises.specs.Passing.{Passes};
ghost use Rattle.enc_decls.specs.Rules as rules;
ghost use Rattle.enc_decls.specs.Nodes as spec;

use crate::routines::{has_distinct_params, routine_types};
use enc_ast::{Fail, Field, Method, Rule};
use enc_modes::{Mode, Ty, is_shareable, mode_of};
use enc_premises::demand;
use enc_types::{Names, Places};
use std::alloc::Global;

/// What has fields and methods.
#[derive(Clone, Copy, Debug, PartialEq, Eq)]
pub enum Owner {
    /// A trait of this mode.
    Trait(Mode),
    /// An active class.
    Active,
}

impl Owner {
    fn rule(self) -> Rule
        ensures { result ≡ spec.rule_of self }
    {
        match self {
            Owner::Trait(_) => Rule::KTrait,
            Owner::Active => Rule::KActive,
        }
    }

    // Whether a field may have the type, where it is known.
    fn fits(self, ty: &Option<Ty>) -> bool
        ensures { result ≡ if_known (spec.fits_in self) ty.now }
    {
        match (self, ty) {
            (Owner::Trait(mode), Some(ty)) => field_fits(mode, ty),
            _ => true,
        }
    }
}

#[tactic(auto, unfolding(crate::specs::Rules::field_fits))]
fn field_fits(mode: Mode, ty: &Ty) -> bool
    ensures { result ≡ rules.field_fits mode ty.now }
{
    match mode {
        Mode::Linear | Mode::Subordinate => goes_along(ty),
        Mode::Read => is_shareable(ty),
        Mode::Local => true,
    }
}

fn goes_along(ty: &Ty) -> bool
    ensures { result ≡ rules.goes_along ty.now }
{
    match ty {
        Ty::Cap(cap) => mode_of(cap) != Mode::Local,
        _ => true,
    }
}

/// Refuses by the first of the fields and the methods of an owner that breaks a rule, and answers
/// `Fail::Memory` where memory runs out.
#[tactic(auto, using(crate::proofs::Passing::passing))]
pub fn members(
    alloc: Global,
    names: &Names,
    owner: Owner,
    fields: &[Field],
    methods: &[Method],
) -> Result<(), Fail>
    ensures { Passes result (rules.member_premises names.now (spec.rule_of owner) (spec.fits_in owner) fields.now methods.now) }
{
    each_field(alloc, names, owner, fields)?;
    each_method(alloc, names, owner, methods)
}

#[tactic(auto, using(crate::proofs::Loops::afters))]
fn each_field(alloc: Global, names: &Names, owner: Owner, fields: &[Field]) -> Result<(), Fail>
    ensures { Passes result (each_after (rules.field_premises names.now (spec.rule_of owner) (spec.fits_in owner)) [] fields.now) }
{
    let mut seen = Places::new(alloc);
    for field in fields {
        let new = !seen.has(field.name.word.as_str());
        judge_field(names, owner, new, field)?;
        seen.add(&field.name.word)?;
    }
    Ok(())
}

#[tactic(auto, using(crate::proofs::Passing::passing))]
fn judge_field(names: &Names, owner: Owner, new: bool, field: &Field) -> Result<(), Fail>
    ensures { Passes result (spec.field_node names.now (spec.rule_of owner) (spec.fits_in owner) new field.now) }
{
    let ty = names.written(&field.ty)?;
    demand(owner.rule(), field.span, new && owner.fits(&ty))
}

#[tactic(auto, using(crate::proofs::Loops::afters))]
fn each_method(alloc: Global, names: &Names, owner: Owner, methods: &[Method]) -> Result<(), Fail>
    ensures { Passes result (each_after (rules.method_premises names.now (spec.rule_of owner)) [] methods.now) }
{
    let mut seen = Places::new(alloc);
    for method in methods {
        let new = !seen.has(method.name.word.as_str());
        judge_method(alloc, names, owner, new, method)?;
        seen.add(&method.name.word)?;
    }
    Ok(())
}

#[tactic(auto, using(crate::proofs::Passing::passing))]
fn judge_method(
    alloc: Global,
    names: &Names,
    owner: Owner,
    new: bool,
    method: &Method,
) -> Result<(), Fail>
    ensures { Passes result (spec.method_node names.now (spec.rule_of owner) new method.now) }
{
    routine_types(names, method)?;
    demand(owner.rule(), method.span, new)?;
    let distinct = has_distinct_params(alloc, method.params.as_slice())?;
    demand(Rule::KSig, method.span, distinct)
}
