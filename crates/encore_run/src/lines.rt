// The lines of the error stream.
ghost use Rattle.std.specs.Prelude.{◌≡◌, ◌<◌, length, IfOk};
ghost use Rattle.encore_run.specs.Lines as spec;

use enc_ast::{Reject, Span, Word, place};
use enc_model::TrapKind;
use std::alloc::{AllocError, Global};

/// Of words that are no command.
pub const USAGE_LINE: &str =
    "usage: encore check FILE, run FILE, replay FILE SCHEDULE, generate SEED SIZE\n";

/// Of a call for which memory ran out.
pub const MEMORY_LINE: &str = "out of memory\n";

/// Of an output that can't be written.
pub const WRITE_LINE: &str = "cannot write\n";

/// The line of a file that can't be read.
pub fn read_line(alloc: Global, file: &str) -> Result<Word, AllocError>
    ensures { IfOk result (λ line. line ≡ spec.read_line file.now) }
{
    let line = format!(in alloc; "{file}: cannot read\n")?;
    Ok(Word::from_string(line))
}

/// The line of a run in which so many actors wait.
pub fn blocked_line(alloc: Global, waiting: usize) -> Result<Word, AllocError>
    ensures { IfOk result (λ line. line ≡ spec.blocked_line waiting) }
{
    let line = format!(in alloc; "blocked: {waiting}\n")?;
    Ok(Word::from_string(line))
}

/// The line of a run that has made so many steps.
pub fn budget_line(alloc: Global, steps: u64) -> Result<Word, AllocError>
    ensures { IfOk result (λ line. line ≡ spec.budget_line steps) }
{
    let line = format!(in alloc; "budget: {steps}\n")?;
    Ok(Word::from_string(line))
}

/// The line of a text that breaks a rule.
pub fn reject_line(
    alloc: Global,
    file: &str,
    text: &[u8],
    reject: Reject,
) -> Result<Word, AllocError>
    requires { length text.now < 4294967295 }
    ensures { IfOk result (λ line. line ≡ spec.reject_line file.now text.now reject.rule reject.span) }
{
    let at = place(text, reject.span.start);
    placed(alloc, file, at, reject.rule.name())
}

/// The line of an actor that has trapped at a statement.
pub fn trap_line(
    alloc: Global,
    file: &str,
    text: &[u8],
    trap: (u32, TrapKind, Span),
) -> Result<Word, AllocError>
    requires { length text.now < 4294967295 }
    ensures { IfOk result (λ line. line ≡ spec.trap_line file.now text.now trap.0 trap.1 trap.2) }
{
    let (actor, kind, span) = trap;
    let name = kind.name();
    let what = format!(in alloc; "{name} in actor {actor}")?;
    placed(alloc, file, place(text, span.start), what.as_str())
}

/// A line that says what is at a place of a file.
fn placed(alloc: Global, file: &str, at: (u32, u32), what: &str) -> Result<Word, AllocError>
    ensures { IfOk result (λ line. line ≡ spec.placed file.now at.0 at.1 what.now) }
{
    let (line, column) = at;
    let line = format!(in alloc; "{file}:{line}:{column}: {what}\n")?;
    Ok(Word::from_string(line))
}
