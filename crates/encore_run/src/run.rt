// A run of a program on the plain machine.
ghost use Rattle.std.specs.Prelude.{◌≡◌, ◌+◌, [], IfOk, OnOk, IsTrue, Some, None, true, false, if◌then◌else◌};
ghost use Rattle.enc_ast.specs.Thin.{is_thin};
ghost use Rattle.enc_model.specs.Exec.{exec, steps_of};
ghost use Rattle.enc_model.specs.Phase.{least_ready};
ghost use Rattle.encore_run.specs.Due.{StopsAt, has_steps};

use enc_model::{Pair, Plain, Schedule, StepFail};
use enc_rules::Checked;
use std::alloc::{AllocError, Global};

/// A run stops once it has made so many steps.
const MAX_STEPS: u64 = 10_000_000;

/// Runs a program until no actor is ready or the budget is used up. Gives the machine and how many
/// steps it has made, and leaves them in the schedule.
pub fn drive(
    alloc: Global,
    checked: Checked,
    schedule: &mut Schedule,
) -> Result<(Plain, u64), AllocError>
    requires thin { IsTrue (is_thin checked) }
    requires fresh { schedule.old.pairs ≡ [] }
    ensures program { IfOk result (λ run. run.0.program ≡ checked) }
    ensures stops { IfOk result (λ run. StopsAt checked schedule.new.pairs run.0.config) }
    ensures steps { IfOk result (λ run. run.1 ≡ steps_of schedule.new.pairs) }
{
    let mut plain = Plain::of(alloc, checked)?;
    for turns in 0..MAX_STEPS {
        if !turn(&mut plain, schedule)? {
            return Ok((plain, turns));
        }
    }
    Ok((plain, MAX_STEPS))
}

/// One step of the least ready actor, or false where none is ready.
fn turn(plain: &mut Plain, schedule: &mut Schedule) -> Result<bool, AllocError>
    requires { exec plain.old.program schedule.old.pairs ≡ Some plain.old.config }
    ensures program { plain.new.program ≡ plain.old.program }
    ensures exec { OnOk result (exec plain.new.program schedule.new.pairs ≡ Some plain.new.config) }
    ensures steps { IfOk result (λ went. steps_of schedule.new.pairs ≡ steps_of schedule.old.pairs + (if went then 1 else 0)) }
    ensures some { has_steps schedule.old.pairs ≡ true → has_steps schedule.new.pairs ≡ true }
    ensures idle { IfOk result (λ went. went ≡ false → least_ready plain.new.program plain.new.config ≡ None) }
{
    let Some(actor) = plain.least()? else {
        return Ok(false);
    };
    match plain.step(actor) {
        Err(StepFail::Memory) => return Err(AllocError),
        Err(StepFail::NotReady) => unreachable!(),
        Ok(_) => {}
    }
    schedule.pairs.push(Pair { actor, steps: 1 })?;
    Ok(true)
}
