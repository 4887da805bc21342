// The type of an expression, as it is told.
ghost use Rattle.std.specs.Prelude.{◌≡◌, IfOk};
ghost use Rattle.std.specs.Option.{option_copied};
ghost use Rattle.enc_flow.specs.Env.{or_else};
ghost use Rattle.enc_exprs.specs.Told.{told};

use enc_modes::Ty;
use std::alloc::AllocError;

/// The type of an expression, where it is known. That of a variable stays where it is.
#[derive(Drop)]
pub enum Told<'a> {
    Unknown,
    Seen(&'a Ty),
    Made(Ty),
}

impl<'a> Told<'a> {
    /// A type that was made for the expression, where it is known.
    pub fn made(ty: Option<Ty>) -> Told<'a>
        ensures { told result ≡ ty }
    {
        match ty {
            Some(ty) => Told::Made(ty),
            None => Told::Unknown,
        }
    }

    /// The type of a variable, where it is known.
    pub fn seen(ty: Option<&'a Ty>) -> Told<'a>
        ensures { told result ≡ option_copied ty.entry }
    {
        match ty {
            Some(ty) => Told::Seen(ty),
            None => Told::Unknown,
        }
    }

    /// The type, or that of another expression where it isn't known.
    pub fn or(self, other: Told<'a>) -> Told<'a>
        ensures { told result ≡ or_else (told self.entry) (told other.entry) }
    {
        match self {
            Told::Unknown => other,
            known => known,
        }
    }

    /// The type, or `None` where it isn't known.
    pub fn ty(&self) -> Option<&Ty>
        ensures { option_copied result ≡ told self.now }
    {
        match self {
            Told::Unknown => None,
            Told::Seen(ty) => Some(ty),
            Told::Made(ty) => Some(ty),
        }
    }

    /// The type as one of its own, or `None` where it isn't known. That of a variable is shared: where it
    /// can't be more often, it answers `AllocError`.
    pub fn into_ty(self) -> Result<Option<Ty>, AllocError>
        ensures { IfOk result (λ ty. ty ≡ told self.entry) }
    {
        match self {
            Told::Unknown => Ok(None),
            Told::Seen(ty) => Ok(Some(ty.share()?)),
            Told::Made(ty) => Ok(Some(ty)),
        }
    }
}
