// Parts of types, and types that are made of them.
ghost use Rattle.std.specs.Prelude.{◌≡◌, IfOk, is_some, option_and_then, option_map};
ghost use Rattle.std.specs.Option.{option_copied};
ghost use Rattle.enc_premises.specs.Premises.{if_known};
ghost use Rattle.enc_sources.specs.Shapes.{made_by, part_by, shared as shared_type};

use crate::parts::{future_of, tree_of};
use enc_ast::Rule;
use enc_exprs::item_of;
use enc_modes::{Shared, Ty, is_shareable};
use std::alloc::{AllocError, Global};

/// The part of an operand's type that a source is about.
#[derive(Clone, Copy)]
pub enum Part {
    /// The type itself, where several actors may hold its values.
    Shared,
    /// What a future will be.
    Future,
    /// The elements of a list.
    Item,
    /// The values of a tree.
    Tree,
    /// The values of the trees in a tree.
    TreeOfTrees,
}

/// What a source makes of a part.
#[derive(Clone, Copy)]
pub enum Made {
    Same,
    Future,
    Tree,
    List,
}

/// What a source asks of the type of its operand, by which rule, and what is made of the part.
#[derive(Clone, Copy)]
pub struct Shape {
    pub rule: Rule,
    pub part: Part,
    pub made: Made,
}

// What each source asks of its operand.

pub const GET: Shape = Shape {
    rule: Rule::SGet,
    part: Part::Future,
    made: Made::Same,
};

pub const AWAIT: Shape = Shape {
    rule: Rule::SAwait,
    part: Part::Future,
    made: Made::Same,
};

pub const CHAIN: Shape = Shape {
    rule: Rule::SChain,
    part: Part::Future,
    made: Made::Future,
};

pub const LIFT: Shape = Shape {
    rule: Rule::SPart,
    part: Part::Shared,
    made: Made::Tree,
};

pub const LIFT_FUTURE: Shape = Shape {
    rule: Rule::SPart,
    part: Part::Future,
    made: Made::Tree,
};

pub const EACH: Shape = Shape {
    rule: Rule::SPart,
    part: Part::Item,
    made: Made::Tree,
};

pub const SEQ: Shape = Shape {
    rule: Rule::SPart,
    part: Part::Tree,
    made: Made::Tree,
};

pub const JOIN: Shape = Shape {
    rule: Rule::SPart,
    part: Part::TreeOfTrees,
    made: Made::Tree,
};

pub const PRUNE: Shape = Shape {
    rule: Rule::SPart,
    part: Part::Tree,
    made: Made::Tree,
};

pub const EXTRACT: Shape = Shape {
    rule: Rule::SPart,
    part: Part::Tree,
    made: Made::List,
};

/// Whether a type has the part, as far as it is known, and the part.
pub fn inner_of(part: Part, ty: Option<&Ty>) -> (bool, Option<&Ty>)
    ensures whether { result.0 ≡ if_known (λ t. is_some (part_by part t)) (option_copied ty.entry) }
    ensures part { option_copied result.1 ≡ option_and_then (part_by part) (option_copied ty.entry) }
{
    match ty {
        None => (true, None),
        Some(ty) => {
            let inner = part_of(part, ty);
            (inner.is_some(), inner)
        }
    }
}

fn part_of(part: Part, ty: &Ty) -> Option<&Ty>
    ensures { option_copied result ≡ part_by part ty.now }
{
    match part {
        Part::Shared => shared(ty),
        Part::Future => future_of(ty),
        Part::Item => item_of(ty),
        Part::Tree => tree_of(ty),
        Part::TreeOfTrees => tree_of(tree_of(ty)?),
    }
}

fn shared(ty: &Ty) -> Option<&Ty>
    ensures { option_copied result ≡ shared_type ty.now }
{
    if is_shareable(ty) { Some(ty) } else { None }
}

/// What is made of a part, where there is one, or `AllocError` where memory runs out. The part isn't copied.
pub fn given(alloc: Global, made: Made, part: Option<&Ty>) -> Result<Option<Ty>, AllocError>
    ensures { IfOk result (λ t. t ≡ option_map (made_by made) (option_copied part.entry)) }
{
    let Some(part) = part else {
        return Ok(None);
    };
    let part = part.share()?;
    Ok(Some(match made {
        Made::Same => part,
        Made::Future => Ty::Fut(Shared::new(alloc, part)?),
        Made::Tree => Ty::Par(Shared::new(alloc, part)?),
        Made::List => Ty::List(Shared::new(alloc, part)?),
    }))
}
