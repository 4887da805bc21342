// One step of one actor.
ghost use Rattle.std.specs.Prelude.{◌≡◌, IfOk, OnErr, IsErrOf, IsSomeAnd, None, slice_get};
ghost use Rattle.enc_model.specs.Step.{Next, NotReady, Stuck, step_of};
ghost use Rattle.enc_model.specs.Phase.{is_ready as is_ready_by};
ghost use Rattle.enc_model.specs.Commit.{take_at};

use crate::commit::commit;
use crate::decide::decide;
use crate::{Config, Frame, Locals, StepFail, Stepped, Task};
use enc_ast::{Program, Row};
use std::alloc::Global;

/// Whether the actor's next step can be made.
pub fn is_ready(program: &Program, config: &Config, number: usize) -> bool
    requires { step_of program.now config.now number ≡ Stuck → ⊥ }
    ensures { result ≡ is_ready_by program.now config.now number }
{
    match config.actors.get(number) {
        None => false,
        Some(actor) => {
            actor.trap.is_none() && (actor.task.is_some() || !actor.mailbox.is_empty())
        }
    }
}

/// Makes the actor's next step. At an error the configuration is as it was.
pub fn make_step(
    alloc: Global,
    program: &Program,
    config: &mut Config,
    number: usize,
) -> Result<Stepped, StepFail>
    requires { step_of program.now config.old number ≡ Stuck → ⊥ }
    ensures next { IfOk result (λ kind. step_of program.now config.old number ≡ Next config.new kind) }
    ensures not_ready { IsErrOf result StepFail.NotReady → step_of program.now config.old number ≡ NotReady }
    ensures err { OnErr result (config.new ≡ config.old) }
{
    let Some(actor) = config.actors.get(number) else {
        return Err(StepFail::NotReady);
    };
    if actor.trap.is_some() {
        return Err(StepFail::NotReady);
    }
    let Some(task) = &actor.task else {
        return take(alloc, config, number);
    };
    let asked = decide(alloc, program, &task.frame)?;
    Ok(commit(config, number, asked)?)
}

// Begins the message at the front of the idle actor's mailbox.
#[tactic(auto, using(crate::proofs::Places::unchanged))]
fn take(alloc: Global, config: &mut Config, number: usize) -> Result<Stepped, StepFail>
    requires { IsSomeAnd (slice_get config.old.actors number) (λ actor. actor.task ≡ None) }
    ensures next { IfOk result (λ kind. take_at config.old number ≡ Next config.new kind) }
    ensures not_ready { OnErr result (take_at config.old number ≡ NotReady) }
    ensures err { OnErr result (config.new ≡ config.old) }
{
    let Some(actor) = config.actors.get_mut(number) else {
        unreachable!()
    };
    let Some(message) = actor.mailbox.pop_front() else {
        return Err(StepFail::NotReady);
    };
    actor.task = Some(Task {
        cell: message.cell,
        frame: Frame {
            at: 0,
            locals: Locals {
                pairs: Row::new(alloc),
            },
        },
    });
    Ok(Stepped::Interaction)
}
