// What the words come to, before anything of it is written.
ghost use Rattle.std.specs.Prelude.{◌≡◌, ◌<◌, ◌≤◌, ◌^◌, ◌-◌, [], length, IfOk, IsTrue, None, Some};
ghost use Rattle.enc_ast.specs.Thin.{is_thin, body_of};
ghost use Rattle.enc_model.specs.Phase.{phase_of};
ghost use Rattle.enc_parse.specs.Spells.{Spells};
ghost use Rattle.encore_run.specs.Answer.{IsAnswer, IsJudgement, Reports};
ghost use Rattle.encore_run.specs.Command.{words_of, command_of, source_of};
ghost use Rattle.encore_run.specs.Due.{status_of, stop_line};
ghost use Rattle.encore_run.specs.Source.{NamedFileFailed};

use crate::Status;
use crate::lines::{blocked_line, budget_line, read_line, reject_line, trap_line};
use crate::reply::Reply;
use crate::run::drive;
use crate::words::{Command, read_words};
use enc_ast::{Fail, Program, Reject, Rule, Word};
use enc_check::check;
use enc_io::{Files, ReadFail, read_all};
use enc_model::{Config, Phase, Plain, Schedule, thin};
use enc_parse::parse;
use enc_rules::Checked;
use enc_within::spelled_is_within;
use std::alloc::{AllocError, Global};

/// How many bytes a source may have. One more is read, which tells that there are more.
const SOURCE_LIMIT: usize = 1_048_576;

/// What the words come to, before anything of it is written.
pub fn answer<F: Files>(
    alloc: Global,
    words: &[String],
    files: &mut F,
    schedule: &mut Schedule,
) -> Reply
    requires fresh { schedule.old.pairs ≡ [] }
    requires counted { F.faults files.old < 2 ^ 64 - 1 }
    ensures answer { IsAnswer (command_of (words_of words.now)) (F.texts files.old) (F.faults files.old) (F.faults files.new) (F.failed files.new) schedule.new.pairs result }
    ensures unread { command_of (words_of words.now) ≡ None → files.new ≡ files.old }
    ensures failed_file { F.faults files.old < F.faults files.new → NamedFileFailed (words_of words.now) (F.failed files.new) }
    ensures texts { F.texts files.new ≡ F.texts files.old }
{
    match read_words(alloc, words) {
        Err(_) => Reply::bare(alloc, Status::Memory),
        Ok(None) => Reply::bare(alloc, Status::Usage),
        Ok(Some(command)) => match carry_out(alloc, &command, files, schedule) {
            Err(_) => Reply::bare(alloc, Status::Memory),
            Ok(reply) => reply,
        },
    }
}

/// What a command comes to.
fn carry_out<F: Files>(
    alloc: Global,
    command: &Command,
    files: &mut F,
    schedule: &mut Schedule,
) -> Result<Reply, AllocError>
    requires fresh { schedule.old.pairs ≡ [] }
    requires counted { F.faults files.old < 2 ^ 64 - 1 }
    ensures answer { IfOk result (IsAnswer (Some command.now) (F.texts files.old) (F.faults files.old) (F.faults files.new) (F.failed files.new) schedule.new.pairs) }
    ensures failed_file { F.faults files.old < F.faults files.new → F.failed files.new ≡ Some (source_of command.now) }
    ensures texts { F.texts files.new ≡ F.texts files.old }
{
    match read_all(alloc, files, command.source(), SOURCE_LIMIT) {
        Err(ReadFail::Memory) => Err(AllocError),
        Err(ReadFail::Failed) => {
            let line = read_line(alloc, command.source())?;
            Ok(Reply::said(alloc, Status::ReadFault, line))
        }
        Ok(text) => judge(alloc, command.source(), &text, schedule),
    }
}

/// What a source comes to.
fn judge(
    alloc: Global,
    file: &str,
    text: &[u8],
    schedule: &mut Schedule,
) -> Result<Reply, AllocError>
    requires fresh { schedule.old.pairs ≡ [] }
    requires short { length text.now ≤ 1048577 }
    ensures { IfOk result (IsJudgement file.now text.now schedule.new.pairs) }
{
    match parse(alloc, text) {
        Err(Fail::Memory) => Err(AllocError),
        Err(Fail::Reject(reject)) => {
            let line = reject_line(alloc, file, text, reject)?;
            Ok(Reply::said(alloc, Status::Rejected, line))
        }
        Ok(program) => judge_program(alloc, file, text, program, schedule),
    }
}

/// What the program of a source comes to.
fn judge_program(
    alloc: Global,
    file: &str,
    text: &[u8],
    program: Program,
    schedule: &mut Schedule,
) -> Result<Reply, AllocError>
    requires spells { Spells text.now program }
    requires few { length (body_of program) ≤ length text.now }
    requires fresh { schedule.old.pairs ≡ [] }
    requires short { length text.now ≤ 1048577 }
    ensures { IfOk result (IsJudgement file.now text.now schedule.new.pairs) }
{
    spelled_is_within(text, &program);
    match check(alloc, program) {
        Err(Fail::Memory) => Err(AllocError),
        Err(Fail::Reject(broken)) => {
            let line = reject_line(alloc, file, text, broken)?;
            Ok(Reply::said(alloc, Status::Rejected, line))
        }
        Ok(checked) => judge_checked(alloc, file, text, checked, schedule),
    }
}

/// What a program that keeps all rules comes to.
fn judge_checked(
    alloc: Global,
    file: &str,
    text: &[u8],
    checked: Checked,
    schedule: &mut Schedule,
) -> Result<Reply, AllocError>
    requires spells { Spells text.now checked }
    requires few { length (body_of checked) ≤ length text.now }
    requires fresh { schedule.old.pairs ≡ [] }
    requires short { length text.now ≤ 1048577 }
    ensures { IfOk result (IsJudgement file.now text.now schedule.new.pairs) }
{
    let program = checked.program();
    if !thin(program) {
        let reject = Reject {
            rule: Rule::Stage,
            span: program.span,
        };
        let line = reject_line(alloc, file, text, reject)?;
        return Ok(Reply::said(alloc, Status::Rejected, line));
    }
    run(alloc, file, text, checked, schedule)
}

/// Runs a program, and tells how it ended.
fn run(
    alloc: Global,
    file: &str,
    text: &[u8],
    checked: Checked,
    schedule: &mut Schedule,
) -> Result<Reply, AllocError>
    requires thin { IsTrue (is_thin checked) }
    requires few { length (body_of checked) ≤ 1048577 }
    requires short { length text.now ≤ 1048577 }
    requires fresh { schedule.old.pairs ≡ [] }
    ensures { IfOk result (Reports file.now text.now checked schedule.new.pairs) }
{
    let (plain, steps) = drive(alloc, checked, schedule)?;
    report(alloc, file, text, plain, steps)
}

/// What a machine that has stopped comes to.
fn report(
    alloc: Global,
    file: &str,
    text: &[u8],
    plain: Plain,
    steps: u64,
) -> Result<Reply, AllocError>
    requires { length text.now ≤ 1048577 }
    ensures { let phase = phase_of plain.program plain.config in IfOk result (λ reply. reply ≡ record {
      status = status_of phase;
      output = plain.config.output;
      line = stop_line file.now text.now steps plain.config phase;
    }) }
{
    let phase = plain.phase()?;
    let line = stop_line(alloc, file, text, steps, plain.config(), phase)?;
    let Config {
        actors: _,
        cells: _,
        output,
    } = plain.into_config();
    Ok(Reply {
        status: status_of(phase),
        output,
        line,
    })
}

/// The line of a machine that has stopped in this phase.
fn stop_line(
    alloc: Global,
    file: &str,
    text: &[u8],
    steps: u64,
    config: &Config,
    phase: Phase,
) -> Result<Word, AllocError>
    requires short { length text.now ≤ 1048577 }
    requires few { length config.now.actors < 2 ^ 32 }
    ensures { IfOk result (λ line. line ≡ stop_line file.now text.now steps config.now phase) }
{
    match phase {
        Phase::Ended => Ok(Word::from_string(String::new(alloc))),
        Phase::Trapped => match config.first_trap() {
            None => Ok(Word::from_string(String::new(alloc))),
            Some(trap) => trap_line(alloc, file, text, trap),
        },
        Phase::Blocked => blocked_line(alloc, config.waiting()),
        Phase::Running => budget_line(alloc, steps),
    }
}

/// The status of a machine that has stopped in this phase.
fn status_of(phase: Phase) -> Status
    ensures { result ≡ status_of phase }
{
    match phase {
        Phase::Ended => Status::Ended,
        Phase::Trapped => Status::Trapped,
        Phase::Blocked => Status::Blocked,
        Phase::Running => Status::Budget,
    }
}
