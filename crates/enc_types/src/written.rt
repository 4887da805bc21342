// Written types.
ghost use Rattle.std.specs.Prelude.{◌≡◌, ◌∷◌, [], is_some, option_map, option_and_then, IfOk};
ghost use Rattle.enc_ast.specs.declared.rules.Rule.TheVariants as rule;
ghost use Rattle.enc_modes.specs.Modes as modes;
ghost use Rattle.enc_modes.specs.declared.ty.Ty.TheVariants as types;
ghost use Rattle.enc_premises.specs.Premises.{◌⨾◌, each, if_known, node};
ghost use Rattle.enc_premises.specs.Passing.{Passes};
ghost use Rattle.enc_types.specs.Written as spec;

use crate::Names;
use enc_ast::{Fail, GroupText, Rule, Span, TypeForm, TypeText};
use enc_modes::{Alt, Cap, Mode, Shared, Ty, is_shareable};
use enc_premises::demand;
use std::alloc::AllocError;

impl Names {
    /// The type that is written, or the first rule that it breaks. The answer is `None` where nothing is
    /// wrong with the type itself, but the list of a class that it names has a name of no trait. Where memory
    /// runs out, it answers `Fail::Memory`.
    #[cycle(written)]
    #[tactic(auto, using(crate::proofs::TypeFolds::types, enc_premises::proofs::Passing::passing))]
    pub fn written(&self, text: &TypeText) -> Result<Option<Ty>, Fail>
        ensures premises { Passes result (spec.type_premises self.now text.now) }
        ensures ty { IfOk result (λ ty. ty ≡ spec.type_of self.now text.now) }
    {
        let span = text.span;
        match &text.form {
            TypeForm::Int => Ok(Some(Ty::Int)),
            TypeForm::Bool => Ok(Some(Ty::Bool)),
            TypeForm::Text => Ok(Some(Ty::Text)),
            TypeForm::Unit => Ok(Some(Ty::Unit)),
            TypeForm::Fut(part) => Ok(future(self.shared(part.get(), span)?)),
            TypeForm::Par(part) => Ok(tree(self.shared(part.get(), span)?)),
            TypeForm::List(part) => Ok(list(self.shared(part.get(), span)?)),
            TypeForm::Bestowed(part) => self.bestowed(part.get(), span),
            TypeForm::Cap(groups) => self.composed(groups.as_slice(), span),
        }
    }

    #[cycle(written)]
    #[tactic(auto, using(crate::proofs::Knowing::parts, enc_premises::proofs::Passing::passing))]
    fn shared(&self, part: &TypeText, span: Span) -> Result<Option<Shared<Ty>>, Fail>
        ensures premises { Passes result (spec.type_premises self.now part.now ⨾ node span ((rule.KSig, if_known modes.is_shareable (spec.type_of self.now part.now)) ∷ [])) }
        ensures ty { IfOk result (λ ty. ty ≡ spec.where_it modes.is_shareable (spec.type_of self.now part.now)) }
    {
        match self.written(part)? {
            None => Ok(None),
            Some(ty) => {
                demand(Rule::KSig, span, is_shareable(&ty))?;
                Ok(Some(Shared::new(self.alloc(), ty)?))
            }
        }
    }

    #[cycle(written)]
    #[tactic(auto, using(crate::proofs::Knowing::parts, enc_premises::proofs::Passing::passing))]
    fn bestowed(&self, part: &TypeText, span: Span) -> Result<Option<Ty>, Fail>
        ensures premises { Passes result (spec.type_premises self.now part.now ⨾ node span ((rule.KSig, if_known (λ ty. is_some (spec.local_of ty)) (spec.type_of self.now part.now)) ∷ [])) }
        ensures ty { IfOk result (λ ty. ty ≡ option_and_then (λ ty. option_map types.Bestowed (spec.local_of ty)) (spec.where_it (λ ty. is_some (spec.local_of ty)) (spec.type_of self.now part.now))) }
    {
        match self.written(part)? {
            None => Ok(None),
            Some(ty) => {
                let local = local_of(&ty);
                demand(Rule::KSig, span, local.is_some())?;
                Ok(local.map(Ty::Bestowed))
            }
        }
    }

    #[tactic(auto, using(crate::proofs::Knowing::parts, enc_premises::proofs::Passing::passing))]
    fn composed(&self, groups: &[GroupText], span: Span) -> Result<Option<Ty>, Fail>
        ensures premises { Passes result (each (spec.group_premises self.now (spec.several groups.now)) groups.now ⨾ node span ((rule.KSig, if_known spec.is_composed (spec.named_type self.now groups.now)) ∷ [])) }
        ensures ty { IfOk result (λ ty. ty ≡ spec.where_it spec.is_composed (spec.named_type self.now groups.now)) }
    {
        self.group_names(several(groups), groups)?;
        match self.named_type(groups)? {
            None => Ok(None),
            Some(ty) => {
                demand(Rule::KSig, span, is_composed(&ty))?;
                Ok(Some(ty))
            }
        }
    }

    fn group_names(&self, many: bool, groups: &[GroupText]) -> Result<(), Fail>
        ensures { Passes result (each (spec.group_premises self.now many) groups.now) }
    {
        for group in groups {
            self.group(many, group)?;
        }
        Ok(())
    }

    #[tactic(auto, unfolding(crate::specs::Written::group_premises))]
    fn group(&self, many: bool, group: &GroupText) -> Result<(), Fail>
        ensures { Passes result (spec.group_premises self.now many group.now) }
    {
        demand(Rule::KName, group.span, self.names_fit(many, group))
    }

    fn names_fit(&self, many: bool, group: &GroupText) -> bool
        ensures { result ≡ spec.names_fit self.now many group.now }
    {
        if many {
            self.are_traits(group)
        } else {
            self.are_types(group)
        }
    }

    /// The type that is written, or `None` where it may not be written or isn't known. Where memory runs
    /// out, it answers `AllocError`.
    #[tactic(auto, using(crate::proofs::KnownTypes::refusals))]
    pub fn ty(&self, text: &TypeText) -> Result<Option<Ty>, AllocError>
        ensures { IfOk result (λ ty. ty ≡ spec.type_of self.now text.now) }
    {
        match self.written(text) {
            Ok(ty) => Ok(ty),
            Err(Fail::Reject(_)) => Ok(None),
            Err(Fail::Memory) => Err(AllocError),
        }
    }

    /// Whether each name of the group is one of a trait.
    #[tactic(auto, unfolding(crate::specs::Written::are_traits))]
    pub fn are_traits(&self, group: &GroupText) -> bool
        ensures { result ≡ spec.are_traits self.now group.now }
    {
        for name in group.names.as_slice() {
            if self.trait_named(name.word.as_str()).is_none() {
                return false;
            }
        }
        true
    }

    #[tactic(auto, unfolding(crate::specs::Written::are_types))]
    fn are_types(&self, group: &GroupText) -> bool
        ensures { result ≡ spec.are_types self.now group.now }
    {
        for name in group.names.as_slice() {
            if !self.is_type(name.word.as_str()) {
                return false;
            }
        }
        true
    }

    fn named_type(&self, groups: &[GroupText]) -> Result<Option<Ty>, AllocError>
        ensures { IfOk result (λ ty. ty ≡ spec.named_type self.now groups.now) }
    {
        match groups {
            [group] => match group.names.as_slice() {
                [name] => self.type_named(name.word.as_str()),
                _ => self.type_of_groups(groups),
            },
            _ => self.type_of_groups(groups),
        }
    }

    #[tactic(auto, using(crate::proofs::TypeFolds::groups))]
    fn type_of_groups(&self, groups: &[GroupText]) -> Result<Option<Ty>, AllocError>
        ensures { IfOk result (λ ty. ty ≡ spec.type_of_groups self.now groups.now) }
    {
        match self.cap_named(groups)? {
            None => Ok(None),
            Some(cap) => Ok(Some(Ty::Cap(cap))),
        }
    }
}

#[tactic(auto, unfolding(crate::specs::Written::is_composed))]
fn is_composed(ty: &Ty) -> bool
    ensures { result ≡ spec.is_composed ty.now }
{
    match ty {
        Ty::Cap(cap) => cap.composes(),
        _ => true,
    }
}

fn future(part: Option<Shared<Ty>>) -> Option<Ty>
    ensures { result ≡ option_map types.Fut part }
{
    Some(Ty::Fut(part?))
}

fn tree(part: Option<Shared<Ty>>) -> Option<Ty>
    ensures { result ≡ option_map types.Par part }
{
    Some(Ty::Par(part?))
}

fn list(part: Option<Shared<Ty>>) -> Option<Ty>
    ensures { result ≡ option_map types.List part }
{
    Some(Ty::List(part?))
}

fn several(groups: &[GroupText]) -> bool
    ensures { result ≡ spec.several groups.now }
{
    match groups {
        [] => false,
        [group] => group.names.len() > 1,
        _ => true,
    }
}

/// The local trait that a type is, or `None` where it is another type.
#[tactic(auto, unfolding(crate::specs::Written::local_of))]
pub fn local_of(ty: &Ty) -> Option<Alt>
    ensures { result ≡ spec.local_of ty.now }
{
    match ty {
        Ty::Cap(cap) => local_cap(cap),
        _ => None,
    }
}

fn local_cap(cap: &Cap) -> Option<Alt>
    ensures { result ≡ spec.local_cap cap.now }
{
    match cap.as_slice() {
        [group] => match group.as_slice() {
            [alt] => local_trait(*alt),
            _ => None,
        },
        _ => None,
    }
}

fn local_trait(alt: Alt) -> Option<Alt>
    ensures { result ≡ spec.local_trait alt alt.mode }
{
    match alt.mode {
        Mode::Local => Some(alt),
        _ => None,
    }
}
