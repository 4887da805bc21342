// Look-ups in tables.
ghost use Rattle.std.specs.Prelude.{◌≡◌, map, filter, filter_map, flat_map, slice_get, option_map, IfOk};
ghost use Rattle.std.specs.Option.{option_copied};
ghost use Rattle.enc_modes.specs.Modes.{linear_mode};
ghost use Rattle.enc_types.specs.Names.{found, trait_named};
ghost use Rattle.enc_types.specs.Written.{type_of};
ghost use Rattle.enc_names.specs.Members.{members_of};
ghost use Rattle.enc_names.specs.Lookups as spec;
ghost use Rattle.enc_names.specs.Finding.{find_all};
ghost use Rattle.enc_names.specs.declared.finding.Found.TheVariants.{Nothing};

use crate::finding::Found;
use crate::members::Members;
use crate::{MethodId, Signature};
use enc_ast::{Decl, Row, TypeText};
use enc_modes::{Alt, Cap, Group, Mode, Ty};
use enc_types::{Meaning, Names};
use std::alloc::{AllocError, Global};
use std::marker::Model;

/// What the names of a program stand for, and the fields and the methods of its declarations.
#[derive(Drop)]
pub struct Tables {
    names: Names,
    members: Row<Members>,
}

impl Model for Tables {
    ghost use Rattle.std.specs.Coded.{codes};
    ghost use Rattle.enc_modes.specs.contracts.ty.Ty as ty;
    ghost use Rattle.enc_names.specs.Members as value;

    ghost Value = { value.Tables };

    ghost coded = { Prim.hlevel (codes, ty.the_row.coded) };

    ghost view = { λ t. record { names = t.names; members = t.members } };
}

impl Tables {
    /// The tables of declarations, by what their names stand for.
    pub(crate) fn of(alloc: Global, names: Names, decls: &[Decl]) -> Result<Tables, AllocError>
        ensures { IfOk result (λ t. t ≡ record { names = names; members = map (members_of names) decls.now }) }
    {
        let mut members = Row::new(alloc);
        for decl in decls {
            members.push(Members::of(alloc, &names, decl)?)?;
        }
        Ok(Tables { names, members })
    }

    /// What the names of the declarations stand for.
    pub fn names(&self) -> &Names
        ensures { result.now ≡ self.now.names }
    {
        &self.names
    }

    /// The type that is written, or `None` where it may not be written. Where memory runs out, it answers
    /// `AllocError`.
    pub fn ty(&self, text: &TypeText) -> Result<Option<Ty>, AllocError>
        ensures { IfOk result (λ ty. ty ≡ type_of self.now.names text.now) }
    {
        self.names.ty(text)
    }

    /// The place of the first field of this name in the declaration with this number, or `None` where
    /// it has none. It takes no memory.
    #[tactic(auto, unfolding(crate::specs::Lookups::field_of))]
    pub fn field(&self, owner: u32, name: &str) -> Option<u32>
        ensures { result ≡ spec.field_of self.now owner name.now }
    {
        self.members.get(owner as usize)?.field(name)
    }

    /// The type of the field in this place of the declaration with this number, or `None` past the end.
    pub fn field_ty(&self, owner: u32, field: u32) -> Option<&Ty>
        ensures { option_copied result ≡ option_map (λ slot. slot.ty) (slice_get (spec.fields_of self.now owner) field) }
    {
        let slot = self.members.get(owner as usize)?.slot(field)?;
        Some(&slot.ty)
    }

    /// The method of this name that can be called on a receiver of the type, or `None` where there is
    /// none, or several. A trait that stands twice has its method once. Where an `Actor` has the number
    /// of no active class, or an `Alt` that of no trait, nothing is found there. It takes no memory.
    #[tactic(auto, unfolding(crate::specs::Lookups::method_for))]
    pub fn method(&self, ty: &Ty, name: &str) -> Option<MethodId>
        ensures { result ≡ spec.method_for self.now ty.now name.now }
    {
        match ty {
            Ty::Actor(number) => self.active_method(*number, name),
            Ty::Cap(cap) => self.usable_method(cap, name),
            _ => None,
        }
    }

    fn usable_method(&self, cap: &Cap, name: &str) -> Option<MethodId>
        ensures { result ≡ spec.only (filter_map (spec.trait_method self.now name.now) (flat_map spec.usable_in cap.now)) }
    {
        let mut found = Found::Nothing;
        for group in cap.as_slice() {
            found = self.in_group(found, group, name);
        }
        found.one()
    }

    fn in_group(&self, found: Found, group: &Group, name: &str) -> Found
        ensures { result ≡ find_all (spec.trait_method self.now name.now) found (spec.usable_in group.now) }
    {
        match group.as_slice() {
            [alt] => found.more(self.trait_method(alt.number, name)),
            alts => self.in_linear(found, alts, name),
        }
    }

    fn in_linear(&self, mut found: Found, alts: &[Alt], name: &str) -> Found
        ensures { result ≡ find_all (spec.trait_method self.now name.now) found (spec.numbers (filter (λ a. linear_mode a.mode) alts.now)) }
    {
        for alt in alts {
            if alt.mode == Mode::Linear {
                found = found.more(self.trait_method(alt.number, name));
            }
        }
        found
    }

    /// The method of this name that a message to a receiver of the type can ask for, or `None` where the
    /// type is no active class and no bestowed trait, or has no such method. It takes no memory.
    #[tactic(auto, unfolding(crate::specs::Lookups::sent_for))]
    pub fn sent_method(&self, ty: &Ty, name: &str) -> Option<MethodId>
        ensures { result ≡ spec.sent_for self.now ty.now name.now }
    {
        match ty {
            Ty::Actor(number) => self.active_method(*number, name),
            Ty::Bestowed(alt) => self.trait_method(alt.number, name),
            _ => None,
        }
    }

    fn active_method(&self, owner: u32, name: &str) -> Option<MethodId>
        ensures { result ≡ spec.active_method self.now name.now owner }
    {
        match self.names.get(owner)?.is {
            Meaning::Active => self.method_in(owner, name),
            _ => None,
        }
    }

    fn trait_method(&self, owner: u32, name: &str) -> Option<MethodId>
        ensures { result ≡ spec.trait_method self.now name.now owner }
    {
        match self.names.get(owner)?.is {
            Meaning::Trait(_) => self.method_in(owner, name),
            _ => None,
        }
    }

    fn method_in(&self, owner: u32, name: &str) -> Option<MethodId>
        ensures { result ≡ spec.method_in self.now name.now owner }
    {
        let index = self.members.get(owner as usize)?.method(name)?;
        Some(MethodId { owner, index })
    }

    /// What a method or a function takes and gives, or `None` where there is no such method.
    pub fn signature(&self, method: MethodId) -> Option<&Signature>
        ensures { option_copied result ≡ spec.signature_of self.now method }
    {
        self.members
            .get(method.owner as usize)?
            .signature(method.index)
    }

    /// The type of a new object of the class of this name, or `None` where the name is of no class, or
    /// of one whose list has a name of no trait. Where memory runs out, it answers `AllocError`.
    #[tactic(auto, unfolding(crate::specs::Lookups::class_named, enc_types::specs::Written::type_named))]
    pub fn class(&self, name: &str) -> Result<Option<Ty>, AllocError>
        ensures { IfOk result (λ ty. ty ≡ spec.class_named self.now.names name.now) }
    {
        match self.meaning(name) {
            Some(Meaning::Trait(_)) => Ok(None),
            _ => self.names.type_named(name),
        }
    }

    #[tactic(auto, unfolding(enc_types::specs::Names::found))]
    fn meaning(&self, name: &str) -> Option<&Meaning>
        ensures { option_copied result ≡ option_map (λ p. p.1) (found self.now.names name.now) }
    {
        let named = self.names.get(self.names.find(name)?)?;
        Some(&named.is)
    }

    /// The number of the function of this name, or `None` where the name is of no function.
    #[tactic(auto, unfolding(crate::specs::Lookups::function_named, enc_types::specs::Names::found))]
    pub fn function(&self, name: &str) -> Option<u32>
        ensures { result ≡ spec.function_named self.now.names name.now }
    {
        let number = self.names.find(name)?;
        match self.names.get(number)?.is {
            Meaning::Fun => Some(number),
            _ => None,
        }
    }

    /// The trait of this name, or `None` where the name is of no trait.
    pub fn trait_named(&self, name: &str) -> Option<Alt>
        ensures { result ≡ trait_named self.now.names name.now }
    {
        self.names.trait_named(name)
    }
}
