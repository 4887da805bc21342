// The modes of types.
ghost use Rattle.std.specs.Prelude.{◌≡◌};
ghost use Rattle.enc_modes.specs.Modes as spec;

use crate::{Cap, Mode, Ty};

/// How the references of a capability type may be used: as those of its trait where it is one trait, and
/// otherwise as linear ones.
pub fn mode_of(cap: &Cap) -> Mode
    ensures { result ≡ spec.mode_of cap.now }
{
    match cap.as_slice() {
        [group] => match group.as_slice() {
            [alt] => alt.mode,
            _ => Mode::Linear,
        },
        _ => Mode::Linear,
    }
}

/// Whether a reference of the type has no other one beside it.
#[tactic(auto, unfolding(crate::specs::Modes::is_linear))]
pub fn is_linear(ty: &Ty) -> bool
    ensures { result ≡ spec.is_linear ty.now }
{
    match ty {
        Ty::Cap(cap) => mode_of(cap) == Mode::Linear,
        _ => false,
    }
}

/// Whether several actors may hold a value of the type.
#[tactic(auto, unfolding(crate::specs::Modes::is_shareable))]
pub fn is_shareable(ty: &Ty) -> bool
    ensures { result ≡ spec.is_shareable ty.now }
{
    match ty {
        Ty::Cap(cap) => mode_of(cap) == Mode::Read,
        _ => true,
    }
}

/// Whether a value of the type may go to another actor.
pub fn is_sendable(ty: &Ty) -> bool
    ensures { result ≡ spec.is_sendable ty.now }
{
    is_linear(ty) || is_shareable(ty)
}
