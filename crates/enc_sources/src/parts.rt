// What types are made of.
ghost use Rattle.std.specs.Prelude.{◌≡◌, IfOk, option_map};
ghost use Rattle.std.specs.Option.{option_copied};
ghost use Rattle.enc_rules.specs.Parts as spec;

use enc_modes::{Alt, Cap, Mode, Ty, choose_of, mode_of, pack_of, split_of};
use std::alloc::{AllocError, Global};

/// The type of what a future will be, or `None` where a type isn't one of futures.
#[tactic(auto, unfolding(enc_rules::specs::Parts::future_of))]
pub fn future_of(ty: &Ty) -> Option<&Ty>
    ensures { option_copied result ≡ spec.future_of ty.now }
{
    match ty {
        Ty::Fut(value) => Some(value.get()),
        _ => None,
    }
}

/// The type of the values of a tree, or `None` where a type isn't one of trees.
#[tactic(auto, unfolding(enc_rules::specs::Parts::tree_of))]
pub fn tree_of(ty: &Ty) -> Option<&Ty>
    ensures { option_copied result ≡ spec.tree_of ty.now }
{
    match ty {
        Ty::Par(value) => Some(value.get()),
        _ => None,
    }
}

/// The groups of a capability type, or `None` where a type is another one.
#[tactic(auto, unfolding(enc_rules::specs::Parts::cap_of))]
pub fn cap_of(ty: &Ty) -> Option<&Cap>
    ensures { option_copied result ≡ spec.cap_of ty.now }
{
    match ty {
        Ty::Cap(cap) => Some(cap),
        _ => None,
    }
}

/// Whether a type is a capability type.
pub fn is_cap(ty: &Ty) -> bool
    ensures { result ≡ spec.is_cap ty.now }
{
    cap_of(ty).is_some()
}

/// Whether messages can be sent to what has this type: an active class or a bestowed trait.
#[tactic(auto, unfolding(enc_rules::specs::Parts::is_target))]
pub fn is_target(ty: &Ty) -> bool
    ensures { result ≡ spec.is_target ty.now }
{
    match ty {
        Ty::Actor(_) | Ty::Bestowed(_) => true,
        _ => false,
    }
}

/// Whether a reference of the type may not leave the objects that it belongs to.
#[tactic(auto, unfolding(enc_rules::specs::Parts::is_subordinate))]
pub fn is_subordinate(ty: &Ty) -> bool
    ensures { result ≡ spec.is_subordinate ty.now }
{
    match ty {
        Ty::Cap(cap) => mode_of(cap) == Mode::Subordinate,
        _ => false,
    }
}

/// Whether two types are one, as far as both are known.
pub fn agree(left: Option<&Ty>, right: Option<&Ty>) -> bool
    ensures { result ≡ spec.agree (option_copied left.entry) (option_copied right.entry) }
{
    match (left, right) {
        (Some(left), Some(right)) => left.is(right),
        _ => true,
    }
}

/// Whether the left and the right type are the groups of the whole one, parted in two.
#[tactic(auto, unfolding(enc_rules::specs::Parts::splits))]
pub fn splits(whole: &Ty, left: &Ty, right: &Ty) -> bool
    ensures { result ≡ spec.splits whole.now left.now right.now }
{
    match (cap_of(whole), cap_of(left), cap_of(right)) {
        (Some(whole), Some(left), Some(right)) => split_of(whole, left, right),
        _ => false,
    }
}

/// The type of the groups of both, or `None` where they can't be put together. Where memory runs out, it
/// answers `AllocError`.
#[tactic(auto, unfolding(enc_rules::specs::Parts::packed))]
pub fn packed(alloc: Global, left: &Ty, right: &Ty) -> Result<Option<Ty>, AllocError>
    ensures { IfOk result (λ t. t ≡ spec.packed left.now right.now) }
{
    match (cap_of(left), cap_of(right)) {
        (Some(left), Some(right)) => Ok(pack_of(alloc, left, right)?.map(Ty::Cap)),
        _ => Ok(None),
    }
}

/// The type of a reference whose disjunction is narrowed to the trait, or `None` where the type isn't
/// one disjunction with this trait, or there is no trait. Where memory runs out, it answers `AllocError`.
#[tactic(auto, unfolding(enc_rules::specs::Parts::chosen))]
pub fn chosen(alloc: Global, ty: &Ty, alt: Option<Alt>) -> Result<Option<Ty>, AllocError>
    ensures { IfOk result (λ t. t ≡ spec.chosen ty.now alt) }
{
    match (cap_of(ty), alt) {
        (Some(cap), Some(alt)) => of_trait(alloc, choose_of(cap, alt.number)),
        _ => Ok(None),
    }
}

/// The type of a reference by one trait alone, where there is one. Where memory runs out, it answers
/// `AllocError`.
pub fn of_trait(alloc: Global, alt: Option<Alt>) -> Result<Option<Ty>, AllocError>
    ensures { IfOk result (λ t. t ≡ option_map spec.chosen_alt alt) }
{
    let Some(alt) = alt else {
        return Ok(None);
    };
    Ok(Some(Ty::Cap(Cap::of_trait(alloc, alt)?)))
}
