// Small tests of types.
ghost use Rattle.std.specs.Prelude.{◌≡◌};
ghost use Rattle.std.specs.Option.{option_copied};
ghost use Rattle.enc_exprs.specs.Types as spec;

use enc_modes::Ty;

/// Whether a type is that of integers.
#[tactic(auto, unfolding(crate::specs::Types::is_int))]
pub fn is_int(ty: &Ty) -> bool
    ensures { result ≡ spec.is_int ty.now }
{
    match ty {
        Ty::Int => true,
        _ => false,
    }
}

/// Whether a type is that of truth values.
#[tactic(auto, unfolding(crate::specs::Types::is_bool))]
pub fn is_bool(ty: &Ty) -> bool
    ensures { result ≡ spec.is_bool ty.now }
{
    match ty {
        Ty::Bool => true,
        _ => false,
    }
}

/// Whether values of a type can be compared by `==`: integers, truth values and texts.
#[tactic(auto, unfolding(crate::specs::Types::is_plain))]
pub fn is_plain(ty: &Ty) -> bool
    ensures { result ≡ spec.is_plain ty.now }
{
    match ty {
        Ty::Int | Ty::Bool | Ty::Text => true,
        _ => false,
    }
}

/// Whether a value of a type can refer to nothing: references and futures.
#[tactic(auto, unfolding(crate::specs::Types::can_be_null))]
pub fn can_be_null(ty: &Ty) -> bool
    ensures { result ≡ spec.can_be_null ty.now }
{
    match ty {
        Ty::Actor(_) | Ty::Cap(_) | Ty::Bestowed(_) | Ty::Fut(_) => true,
        _ => false,
    }
}

/// The type of the elements, or `None` where a type isn't one of lists.
#[tactic(auto, unfolding(crate::specs::Types::item_of))]
pub fn item_of(ty: &Ty) -> Option<&Ty>
    ensures { option_copied result ≡ spec.item_of ty.now }
{
    match ty {
        Ty::List(item) => Some(item.get()),
        _ => None,
    }
}

/// The type of the elements, or `None` where it isn't known that a type is one of lists.
pub fn items(ty: Option<&Ty>) -> Option<&Ty>
    ensures { option_copied result ≡ spec.items (option_copied ty.entry) }
{
    match ty {
        Some(ty) => item_of(ty),
        None => None,
    }
}

/// Whether the second type is the first, where that is known.
pub fn like(first: Option<&Ty>, second: &Ty) -> bool
    ensures { result ≡ spec.like (option_copied first.entry) second.now }
{
    match first {
        Some(first) => first.is(second),
        None => true,
    }
}
