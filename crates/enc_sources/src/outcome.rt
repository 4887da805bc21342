// What a source gives, and what it asks of its statement.
ghost use Rattle.std.specs.Prelude.{◌≡◌};
ghost use Rattle.enc_rules.specs.Sources.{free};

use enc_ast::Rule;
use enc_modes::Ty;
use std::marker::Model;

/// What a rule asks of a statement, and whether it holds.
#[derive(Clone, Copy, Debug)]
pub struct Demand {
    pub rule: Rule,
    pub holds: bool,
}

impl Model for Demand {
    ghost use Rattle.std.specs.Prelude.{Bool};
    ghost use Rattle.enc_ast.specs.declared.rules.Rule.{Rule};

    ghost Value = { Rule × Bool };

    ghost view = { λ d. (d.rule, d.holds) };

    ghost inverse = { λ d. record { rule = d.0; holds = d.1 } };
}

impl Demand {
    /// Nothing is asked.
    pub fn free() -> Demand
        ensures { result ≡ free }
    {
        Demand {
            rule: Rule::SLet,
            holds: true,
        }
    }
}

/// What is asked of the statement that has a source, by the source's own rule and by one more, and the
/// type of what the source gives, where that is known.
#[derive(Drop)]
pub struct Outcome {
    pub own: Demand,
    pub more: Demand,
    pub ty: Option<Ty>,
}

impl Outcome {
    /// Its own rule alone is asked of the statement.
    pub fn asking(rule: Rule, holds: bool, ty: Option<Ty>) -> Outcome
        ensures own { result.own ≡ (rule, holds) }
        ensures more { result.more ≡ free }
        ensures ty { result.ty ≡ ty }
    {
        Outcome {
            own: Demand { rule, holds },
            more: Demand::free(),
            ty,
        }
    }
}

/// What is asked of a statement that calls or sends.
#[derive(Clone, Copy)]
pub struct Demands {
    pub own: Demand,
    pub more: Demand,
}
