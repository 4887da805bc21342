// One premise.
ghost use Rattle.enc_premises.specs.Premises.{premise};
ghost use Rattle.enc_premises.specs.Passing.{Passes};

use enc_ast::{Fail, Reject, Rule, Span};

/// Refuses by a rule at a node, unless the premise holds.
#[tactic(auto, unfolding(crate::specs::Passing::Agrees))]
pub fn demand(rule: Rule, span: Span, holds: bool) -> Result<(), Fail>
    ensures { Passes result (premise rule span holds) }
{
    if holds {
        return Ok(());
    }
    Err(Fail::Reject(Reject { rule, span }))
}
