// Types of values.

use crate::{Cap, Shared};
use enc_ast::Row;

/// How the references of a capability type may be used.
#[derive(Clone, Copy, Debug, PartialEq, Eq)]
pub enum Mode {
    Linear,
    Local,
    Read,
    Subordinate,
}

/// A trait, by the number of its declaration.
#[derive(Clone, Copy, Debug, PartialEq, Eq)]
pub struct Alt {
    pub number: u32,
    pub mode: Mode,
}

/// One trait, or the traits of a disjunction. Those of a text stand in the order of their declarations.
pub type Group = Row<Alt>;

/// The type of a value. `share` gives it once more with the same parts.
pub enum Ty {
    Int,
    Bool,
    Text,
    Unit,
    /// A reference to an active object of the class with this number.
    Actor(u32),
    /// A reference to these groups of a passive object.
    Cap(Cap),
    /// An object of some actor that has this local trait.
    Bestowed(Alt),
    /// A value that will be there later.
    Fut(Shared<Ty>),
    /// A tree of values, each of which is there now or later.
    Par(Shared<Ty>),
    List(Shared<Ty>),
}

// A loop, since types have many thousands of layers in some programs.
impl Drop for Ty {
    fn drop(mut self) {
        loop {
            match self {
                Ty::Fut(part) | Ty::Par(part) | Ty::List(part) => match part.into_last() {
                    Some(ty) => self = ty,
                    None => return,
                },
                Ty::Cap(cap) => {
                    drop(cap);
                    return;
                }
                Ty::Int | Ty::Bool | Ty::Text | Ty::Unit | Ty::Actor(_) | Ty::Bestowed(_) => return,
            }
        }
    }
}
