// When two types are the same, and how one is shared.
ghost use Rattle.std.specs.Prelude.{◌≡◌, IfOk};
ghost use Rattle.enc_modes.specs.Equality as spec;

use crate::{Alt, Group, Ty};
use std::alloc::AllocError;

impl Ty {
    /// Whether both are the same type, down to the order of groups and traits.
    #[tactic(auto, using(crate::proofs::Same::same_forms))]
    pub fn is(&self, other: &Ty) -> bool
        ensures { result ≡ spec.same self.now other.now }
    {
        let mut left = self;
        let mut right = other;
        loop {
            match (left, right) {
                (Ty::Int, Ty::Int) => return true,
                (Ty::Bool, Ty::Bool) => return true,
                (Ty::Text, Ty::Text) => return true,
                (Ty::Unit, Ty::Unit) => return true,
                (Ty::Actor(first), Ty::Actor(second)) => return *first == *second,
                (Ty::Cap(first), Ty::Cap(second)) => {
                    return same_cap(first.as_slice(), second.as_slice());
                }
                (Ty::Bestowed(first), Ty::Bestowed(second)) => return same_alt(first, second),
                (Ty::Fut(first), Ty::Fut(second))
                | (Ty::Par(first), Ty::Par(second))
                | (Ty::List(first), Ty::List(second)) => {
                    left = first.get();
                    right = second.get();
                }
                _ => return false,
            }
        }
    }

    /// The same type once more, without a copy of its parts, or `AllocError` where they can't be shared more
    /// often.
    pub fn share(&self) -> Result<Ty, AllocError>
        ensures { IfOk result (λ shared. shared ≡ self.now) }
    {
        Ok(match self {
            Ty::Int => Ty::Int,
            Ty::Bool => Ty::Bool,
            Ty::Text => Ty::Text,
            Ty::Unit => Ty::Unit,
            Ty::Actor(class) => Ty::Actor(*class),
            Ty::Cap(cap) => Ty::Cap(cap.share()?),
            Ty::Bestowed(alt) => Ty::Bestowed(*alt),
            Ty::Fut(part) => Ty::Fut(part.share()?),
            Ty::Par(part) => Ty::Par(part.share()?),
            Ty::List(part) => Ty::List(part.share()?),
        })
    }
}

/// Whether both have the same groups in the same order.
#[tactic(auto, using(crate::proofs::Agree::cap_length))]
pub(crate) fn same_cap(left: &[Group], right: &[Group]) -> bool
    ensures { result ≡ spec.same_cap left.now right.now }
{
    if left.len() != right.len() {
        return false;
    }
    for (at, group) in left.iter().enumerate() {
        let other = &right[at];
        if !same_group(group.as_slice(), other.as_slice()) {
            return false;
        }
    }
    true
}

/// Whether both have the same traits in the same order.
#[tactic(auto, using(crate::proofs::Agree::group_length))]
pub(crate) fn same_group(left: &[Alt], right: &[Alt]) -> bool
    ensures { result ≡ spec.same_group left.now right.now }
{
    if left.len() != right.len() {
        return false;
    }
    for (at, alt) in left.iter().enumerate() {
        let other = &right[at];
        if !same_alt(alt, other) {
            return false;
        }
    }
    true
}

pub(crate) fn same_alt(left: &Alt, right: &Alt) -> bool
    ensures { result ≡ spec.same_alt left.now right.now }
{
    left.number == right.number && left.mode == right.mode
}
