// Methods that are found one after another.
ghost use Rattle.std.specs.Prelude.{◌≡◌};
ghost use Rattle.enc_names.specs.Finding as spec;

use crate::MethodId;

/// The methods of one name that were found so far, as far as it matters how many they are.
#[derive(Clone, Copy)]
pub enum Found {
    Nothing,
    One(MethodId),
    Several,
}

impl Found {
    /// What was found, behind one more place that may have a method.
    pub fn more(self, method: Option<MethodId>) -> Found
        ensures { result ≡ spec.more self method }
    {
        match (method, self) {
            (None, _) => self,
            (Some(method), Found::Nothing) => Found::One(method),
            (Some(method), Found::One(found)) if method == found => self,
            _ => Found::Several,
        }
    }

    /// The one method, or `None` where none or several were found.
    pub fn one(self) -> Option<MethodId>
        ensures { result ≡ spec.one_of self }
    {
        match self {
            Found::One(method) => Some(method),
            _ => None,
        }
    }
}
