// A machine that makes the steps one at a time.
ghost use Rattle.std.specs.Prelude.{◌≡◌, ◌<◌, ◌^◌, length, IsTrue, IfOk, OnErr, IsErrOf, Ok};
ghost use Rattle.enc_ast.specs.Thin.{is_thin};
ghost use Rattle.enc_model.specs.Exec.{start};
ghost use Rattle.enc_model.specs.Machine.{Machine};
ghost use Rattle.enc_model.specs.Phase.{least_ready, phase_of};
ghost use Rattle.enc_model.specs.Step.{Next, NotReady, step_of};
ghost use Rattle.enc_model.specs.declared.plain.StepFail.TheVariants.{Memory};

use crate::steps::{is_ready, make_step};
use crate::{Actor, Cell, Config, Message, Phase, Stepped};
use enc_ast::{Program, Row};
use enc_rules::Checked;
use std::alloc::{AllocError, Global};
use std::marker::Model;
use thiserror::Error;

/// Why no step was made.
#[derive(Debug, Drop, Error)]
pub enum StepFail {
    /// The actor has trapped, has nothing to do or isn't there.
    #[error("the actor is not ready")]
    NotReady,
    /// There is no room, or a count would pass its type.
    #[error("out of memory")]
    Memory,
}

impl From<AllocError> for StepFail {
    ghost from_gives = { λ _ e. e ≡ Memory };

    fn from(_: AllocError) -> Self {
        StepFail::Memory
    }
}

/// A program and the configuration to which its run has come.
#[derive(Drop)]
pub struct Plain {
    alloc: Global,
    program: Program,
    config: Config,
}

impl Model for Plain {
    ghost use Rattle.enc_model.specs.Machine.{Machine, IsValid};
    ghost use Rattle.std.specs.Coded.{codes};
    ghost use Rattle.enc_ast.specs.contracts.stmts.StmtForm as stmts;
    ghost use Rattle.enc_ast.specs.contracts.exprs.ExprForm as exprs;
    ghost use Rattle.enc_ast.specs.contracts.types.TypeForm as types;

    ghost Value = { Machine };

    ghost coded = { Prim.hlevel (codes, stmts.the_row.coded, exprs.the_row.coded, types.the_row.coded) };

    ghost view = { λ plain. record { program = plain.program; config = plain.config } };

    ghost invariant = { λ plain. IsValid plain.program plain.config };
}

impl Plain {
    /// The machine at the start of the program's run, or `AllocError` where memory runs out.
    #[tactic(auto, using(crate::proofs::Runs::machines))]
    pub fn of(alloc: Global, checked: Checked) -> Result<Plain, AllocError>
        requires { IsTrue (is_thin checked) }
        ensures { IfOk result (λ plain. plain ≡ record { program = checked; config = start }) }
    {
        let mut mailbox = Row::new(alloc);
        mailbox.push(Message { cell: 0 })?;
        let mut actors = Row::new(alloc);
        actors.push(Actor {
            mailbox,
            task: None,
            trap: None,
        })?;
        let mut cells = Row::new(alloc);
        cells.push(Cell::Pending)?;
        let config = Config {
            actors,
            cells,
            output: Row::new(alloc),
        };
        Ok(Plain {
            alloc,
            program: checked.into_program(),
            config,
        })
    }

    /// The program that runs.
    pub fn program(&self) -> &Program
        ensures { result.now ≡ self.now.program }
    {
        &self.program
    }

    /// Where the run has come.
    #[tactic(auto, using(crate::proofs::Runs::machines))]
    pub fn config(&self) -> &Config
        ensures config { result.now ≡ self.now.config }
        ensures few { length result.now.actors < 2 ^ 32 }
    {
        &self.config
    }

    /// Where the run has come, with no copy.
    #[tactic(auto, using(crate::proofs::Runs::machines))]
    pub fn into_config(self) -> Config
        ensures config { result ≡ self.config }
        ensures few { length result.actors < 2 ^ 32 }
    {
        let Plain { config, .. } = self;
        config
    }

    /// Makes the next step of an actor, and says whether it touched that actor alone. An error
    /// leaves the machine as it was, and after `Memory` the step can be tried again.
    #[tactic(auto, using(crate::proofs::Runs::machines))]
    pub fn step(&mut self, actor: u32) -> Result<Stepped, StepFail>
        ensures program { self.new.program ≡ self.old.program }
        ensures next { IfOk result (λ kind. step_of self.old.program self.old.config actor ≡ Next self.new.config kind) }
        ensures not_ready { IsErrOf result StepFail.NotReady → step_of self.old.program self.old.config actor ≡ NotReady }
        ensures err { OnErr result (self.new ≡ self.old) }
    {
        make_step(self.alloc, &self.program, &mut self.config, actor as usize)
    }

    /// The least actor that is ready, if there is one.
    #[tactic(auto, using(crate::proofs::Runs::machines))]
    pub fn least(&self) -> Result<Option<u32>, AllocError>
        ensures { result ≡ Ok (least_ready self.now.program self.now.config) }
    {
        for number in 0..self.config.actors.len() {
            if is_ready(&self.program, &self.config, number) {
                return Ok(Some(number as u32));
            }
        }
        Ok(None)
    }

    /// How far the run has come.
    #[tactic(auto, using(crate::proofs::Runs::machines))]
    pub fn phase(&self) -> Result<Phase, AllocError>
        ensures { result ≡ Ok (phase_of self.now.program self.now.config) }
    {
        if self.least()?.is_some() {
            return Ok(Phase::Running);
        }
        if self.config.first_trap().is_some() {
            return Ok(Phase::Trapped);
        }
        if self.config.waiting() > 0 {
            return Ok(Phase::Blocked);
        }
        Ok(Phase::Ended)
    }
}
