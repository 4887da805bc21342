// Capability types.
ghost use Rattle.std.specs.Prelude.{◌≡◌, ◌∷◌, [], IfOk};
ghost use Rattle.enc_modes.specs.Modes as spec;

use crate::composing::go_together;
use crate::{Alt, Group, Shared};
use enc_ast::Row;
use std::alloc::{AllocError, Global};
use std::marker::Model;

// Groups, and whether they go together, which is found once.
#[derive(Drop)]
struct Groups {
    rows: Row<Group>,
    go_together: bool,
}

impl Model for Groups {
    ghost use Rattle.std.specs.Prelude.{◌≡◌, List};
    ghost use Rattle.std.specs.Coded.{codes};
    ghost use Rattle.enc_modes.specs.contracts.ty.Alt as alt;
    ghost use Rattle.enc_modes.specs.declared.ty.Alt.{Alt};
    ghost use Rattle.enc_modes.specs.Modes as spec;

    ghost Value = { List (List Alt) };

    ghost coded = { Prim.hlevel (codes, alt.the_row.coded) };

    ghost view = { λ groups. groups.rows };

    ghost invariant = { λ groups. groups.go_together ≡ spec.composes groups.rows };
}

/// The groups of a capability type. `share` gives them once more without a copy. Those of a text stand in
/// the order of the declarations of their first traits.
#[derive(Drop)]
pub struct Cap {
    groups: Shared<Groups>,
}

impl Model for Cap {
    ghost use Rattle.std.specs.Prelude.{List};
    ghost use Rattle.std.specs.Coded.{codes};
    ghost use Rattle.enc_modes.specs.contracts.ty.Alt as alt;
    ghost use Rattle.enc_modes.specs.declared.ty.Alt.{Alt};

    ghost Value = { List (List Alt) };

    ghost coded = { Prim.hlevel (codes, alt.the_row.coded) };

    ghost view = { λ cap. cap.groups };
}

impl Cap {
    /// These groups, as they stand, or `AllocError` where memory runs out, and then they are lost.
    pub fn of(alloc: Global, groups: Row<Group>) -> Result<Cap, AllocError>
        ensures { IfOk result (λ cap. cap ≡ groups) }
    {
        let go_together = go_together(alloc, groups.as_slice())?;
        let rows = groups;
        let groups = Shared::new(alloc, Groups { rows, go_together })?;
        Ok(Cap { groups })
    }

    /// The groups of a type that is one trait, or `AllocError` where memory runs out.
    #[tactic(auto, unfolding(crate::specs::Modes::composes))]
    pub fn of_trait(alloc: Global, alt: Alt) -> Result<Cap, AllocError>
        ensures { IfOk result (λ cap. cap ≡ (alt ∷ []) ∷ []) }
    {
        let mut group = Row::new(alloc);
        group.push(alt)?;
        let mut rows = Row::new(alloc);
        rows.push(group)?;
        let go_together = true;
        let groups = Shared::new(alloc, Groups { rows, go_together })?;
        Ok(Cap { groups })
    }

    /// Whether the groups go together: no trait stands in them twice, and of several groups each is a
    /// linear trait or a disjunction.
    pub fn composes(&self) -> bool
        ensures { result ≡ spec.composes self.now }
    {
        self.groups.get().go_together
    }

    /// The same groups once more, without a copy of them, or `AllocError` where they can't be shared
    /// more often.
    pub fn share(&self) -> Result<Cap, AllocError>
        ensures { IfOk result (λ shared. shared ≡ self.now) }
    {
        let groups = self.groups.share()?;
        Ok(Cap { groups })
    }

    /// All the groups.
    pub fn as_slice(&self) -> &[Group]
        ensures { result.now ≡ self.now }
    {
        self.groups.get().rows.as_slice()
    }
}
