// What a frame asks for is done, in place.
ghost use Rattle.std.specs.Prelude.{◌≡◌, ◌+◌, ◌++◌, [], ◌∷◌, IfOk, OnOk, OnErr, IfSome, IsSome, None, Some, slice_set};
ghost use Rattle.enc_model.specs.Commit.{IsBusy, commit_at};
ghost use Rattle.enc_model.specs.Step.{Next, Stuck, behind, in_frame};
ghost use Rattle.enc_model.specs.declared.config.Cell.TheVariants.{Full};
ghost use Rattle.enc_model.specs.declared.values.Value.TheVariants.{Unit};
ghost use Rattle.enc_model.specs.declared.moves.Move.TheVariants.{Bind, Say, Leave, Fault};
ghost use Rattle.enc_model.specs.declared.schedule.Stepped.TheVariants.{Local, Interaction};

use crate::{Actor, Cell, Config, Frame, Move, Stepped, TrapKind, Value};
use enc_ast::{Row, Span, Word};
use std::alloc::AllocError;

/// Does what the actor's frame asks for, and says whether that touches the actor alone.
/// After `AllocError` the configuration is as it was.
pub fn commit(config: &mut Config, number: usize, asked: Move) -> Result<Stepped, AllocError>
    requires busy { IsBusy config.old number }
    requires known { commit_at config.old number asked ≡ Stuck → ⊥ }
    ensures next { IfOk result (λ kind. commit_at config.old number asked ≡ Next config.new kind) }
    ensures err { OnErr result (config.new ≡ config.old) }
{
    match asked {
        Move::Bind(name, value) => {
            bind(config, number, name, value)?;
            Ok(Stepped::Local)
        }
        Move::Say(line) => {
            say(config, number, line.as_slice())?;
            Ok(Stepped::Interaction)
        }
        Move::Leave => {
            leave(config, number);
            Ok(Stepped::Interaction)
        }
        Move::Fault(kind, span) => {
            fault(config, number, kind, span);
            Ok(Stepped::Interaction)
        }
        Move::Lost => unreachable!(),
    }
}

// A new variable of the actor gets the value.
#[tactic(auto, using(crate::proofs::Places::unchanged))]
fn bind(config: &mut Config, number: usize, name: Word, value: Value) -> Result<(), AllocError>
    requires { IsBusy config.old number }
    ensures ok { OnOk result (commit_at config.old number (Bind name value) ≡ Next config.new Local) }
    ensures err { OnErr result (config.new ≡ config.old) }
{
    match config.actors.get_mut(number) {
        None => unreachable!(),
        Some(actor) => bind_in_actor(actor, name, value),
    }
}

fn bind_in_actor(actor: &mut Actor, name: Word, value: Value) -> Result<(), AllocError>
    requires { IsSome actor.old.task }
    ensures ok { OnOk result (IfSome actor.old.task (λ task. actor.new ≡ in_frame actor.old task (behind task.frame (task.frame.locals.pairs ++ (name, Some value) ∷ [])))) }
    ensures err { OnErr result (actor.new ≡ actor.old) }
{
    match &mut actor.task {
        None => unreachable!(),
        Some(task) => bind_in_frame(&mut task.frame, name, value),
    }
}

// The frame goes on behind its statement, with one variable more.
fn bind_in_frame(frame: &mut Frame, name: Word, value: Value) -> Result<(), AllocError>
    ensures ok { OnOk result (frame.new ≡ behind frame.old (frame.old.locals.pairs ++ (name, Some value) ∷ [])) }
    ensures err { OnErr result (frame.new ≡ frame.old) }
{
    let at = place_behind(frame)?;
    frame.locals.pairs.push((name, Some(value)))?;
    frame.at = at;
    Ok(())
}

// The place behind the frame's statement. One that can't be counted is taken for one that has no room.
fn place_behind(frame: &Frame) -> Result<u32, AllocError>
    ensures { IfOk result (λ at. at ≡ frame.now.at + 1) }
{
    frame.at.checked_add(1).ok_or(AllocError)
}

// The line stands at the end of the output.
#[tactic(auto, using(crate::proofs::Places::unchanged))]
fn say(config: &mut Config, number: usize, line: &[u8]) -> Result<(), AllocError>
    requires { IsBusy config.old number }
    ensures ok { OnOk result (commit_at config.old number (Say line.now) ≡ Next config.new Interaction) }
    ensures err { OnErr result (config.new ≡ config.old) }
{
    match config.actors.get_mut(number) {
        None => unreachable!(),
        Some(actor) => match &mut actor.task {
            None => unreachable!(),
            Some(task) => {
                let at = place_behind(&task.frame)?;
                config.output.extend(line)?;
                task.frame.at = at;
                Ok(())
            }
        },
    }
}

// The task is at its end, and its cell is full.
fn leave(config: &mut Config, number: usize)
    requires busy { IsBusy config.old number }
    requires known { commit_at config.old number Leave ≡ Stuck → ⊥ }
    ensures { commit_at config.old number Leave ≡ Next config.new Interaction }
{
    let Some(actor) = config.actors.get_mut(number) else {
        unreachable!()
    };
    let Some(task) = actor.task.take() else {
        unreachable!()
    };
    fill(&mut config.cells, task.cell as usize);
}

// The cell holds that there is no value.
#[tactic(auto, using(crate::proofs::Places::unchanged))]
fn fill(cells: &mut Row<Cell>, number: usize)
    ensures { cells.new ≡ slice_set cells.old number (Full Unit) }
{
    if let Some(cell) = cells.get_mut(number) {
        *cell = Cell::Full(Value::Unit);
    }
}

// The actor makes no further step.
fn fault(config: &mut Config, number: usize, kind: TrapKind, span: Span)
    requires { IsBusy config.old number }
    ensures { commit_at config.old number (Fault kind span) ≡ Next config.new Interaction }
{
    let Some(actor) = config.actors.get_mut(number) else {
        unreachable!()
    };
    actor.trap = Some((kind, span));
}
