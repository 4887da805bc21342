// What a body is judged in.
ghost use Rattle.std.specs.Prelude.{◌≡◌, true};
ghost use Rattle.std.specs.Option.{option_copied};
ghost use Rattle.enc_rules.specs.Context as spec;

use enc_modes::{Mode, Ty};
use enc_names::{MethodId, Signature, Tables};
use enc_types::{Meaning, Names};
use std::marker::Model;

/// What a body is judged in: the tables, the number of the trait or the active class that it belongs
/// to, unless it is one of a function, the type of its result, and whether the statement stands inside
/// an atomic block.
#[derive(Drop)]
pub struct Context<'a> {
    pub tables: &'a Tables,
    pub owner: Option<u32>,
    pub result: &'a Ty,
    pub inside: bool,
}

impl<'a> Model for Context<'a> {
    ghost use Rattle.std.specs.Coded.{codes};
    ghost use Rattle.enc_modes.specs.contracts.ty.Ty as ty;
    ghost use Rattle.enc_rules.specs.Context as value;

    ghost Value = { value.Context };

    ghost coded = { Prim.hlevel (codes, ty.the_row.coded) };

    ghost view = { λ c. record { tables = c.tables.now; owner = c.owner; result = c.result.now; inside = c.inside } };
}

impl<'a> Context<'a> {
    /// What the names of the program stand for.
    pub fn names(&self) -> &Names
        ensures { result.now ≡ self.now.tables.names }
    {
        self.tables.names()
    }

    /// The same, inside an atomic block.
    pub fn within(&self) -> Context<'_>
        ensures { result ≡ record self.now { inside = true } }
    {
        Context {
            tables: self.tables,
            owner: self.owner,
            result: self.result,
            inside: true,
        }
    }

    /// The type of the field of `this` with this name, or `None` where there is none. It takes no memory.
    #[tactic(auto, unfolding(enc_rules::specs::Context::field_type))]
    pub fn field_type(&self, name: &str) -> Option<&Ty>
        ensures { option_copied result ≡ spec.field_type self.now name.now }
    {
        let owner = self.owner?;
        let tables = self.tables;
        let field = tables.field(owner, name)?;
        tables.field_ty(owner, field)
    }

    /// Whether `this` is of mode read. It takes no memory.
    #[tactic(auto, unfolding(enc_rules::specs::Context::only_reads))]
    pub fn only_reads(&self) -> bool
        ensures { result ≡ spec.only_reads self.now }
    {
        let Some(owner) = self.owner else {
            return false;
        };
        let Some(named) = self.tables.names().get(owner) else {
            return false;
        };
        match &named.is {
            Meaning::Trait(mode) => *mode == Mode::Read,
            _ => false,
        }
    }

    /// What the function of this name takes and gives, or `None` where the name is of no function. It
    /// takes no memory.
    #[tactic(auto, unfolding(enc_rules::specs::Context::function_of))]
    pub fn function(&self, name: &str) -> Option<&Signature>
        ensures { option_copied result ≡ spec.function_of self.now.tables name.now }
    {
        let owner = self.tables.function(name)?;
        self.tables.signature(MethodId { owner, index: 0 })
    }
}
