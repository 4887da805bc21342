// Runs of the top calls, and what they are to come to.

use crate::outside::{Outside, Setting, prepare, program, run_of};
use enc_model::Pair;
use encore_run::{encore_main, encore_plain};
use std::alloc::{AllocError, Global};
use std::process::Abort;
use std::sync::Wait;
use std::thread::Threads;

/// What a call is to come to: its status, what the output and the error stream get, and how many
/// steps of actor 0 the schedule has.
#[derive(Clone, Copy)]
pub struct Due<'a> {
    pub status: u8,
    pub output: &'a str,
    pub said: &'a str,
    pub steps: usize,
}

/// A run comes to its end.
pub fn ended(output: &str, steps: usize) -> Due<'_> {
    Due {
        status: 0,
        output,
        said: "",
        steps,
    }
}

/// Nothing has run.
pub fn unrun(status: u8, said: &str) -> Due<'_> {
    Due {
        status,
        output: "",
        said,
        steps: 0,
    }
}

/// The line of a text that has no class `Main`.
pub const EMPTY_LINE: &str = "p.enc:1:1: K-MAIN\n";

/// The text has no class `Main`.
pub fn refused() -> Due<'static> {
    unrun(1, EMPTY_LINE)
}

/// The status with which a call ended, and what it left behind.
#[derive(Drop)]
pub struct Answer {
    pub status: u8,
    pub outside: Outside,
}

impl Answer {
    /// Asserts that the call came to what was due, with nothing in the history.
    pub fn check(&self, rt: &impl Abort, what: &str, due: Due<'_>) {
        self.check_written(rt, what, due.status, due.output, due.said);
        let pairs = self.outside.schedule.pairs.as_slice();
        assert_eq!(rt; pairs.len(), due.steps, "the steps of {what}");
        for &pair in pairs {
            assert_eq!(rt; pair, Pair { actor: 0, steps: 1 }, "a pair of {what}");
        }
    }

    /// Asserts that the call ended with the status and wrote this, with nothing in the history.
    pub fn check_written(&self, rt: &impl Abort, what: &str, status: u8, output: &str, said: &str) {
        let Outside {
            out,
            err,
            history,
            ..
        } = &self.outside;
        assert_eq!(rt; self.status, status, "the status of {what}");
        assert_eq!(rt; out.written(), output.as_bytes(), "the output of {what}");
        assert_eq!(rt; err.written(), said.as_bytes(), "the line of {what}");
        assert!(rt; history.written().is_empty(), "the history of {what}");
    }
}

/// The call that makes no use of threads.
pub fn run(alloc: Global, setting: Setting<'_>) -> Result<Answer, AllocError> {
    let mut outside = prepare(alloc, setting)?;
    let status = encore_plain(
        alloc,
        &outside.words,
        &mut outside.files,
        &mut outside.out,
        &mut outside.err,
        &mut outside.history,
        &mut outside.schedule,
    );
    Ok(Answer { status, outside })
}

/// The call of the program.
pub fn run_main<T: Threads + Wait + Sync>(
    rt: &T,
    alloc: Global,
    setting: Setting<'_>,
) -> Result<Answer, AllocError> {
    let mut outside = prepare(alloc, setting)?;
    let status = encore_main(
        rt,
        alloc,
        &outside.words,
        &mut outside.files,
        &mut outside.out,
        &mut outside.err,
        &mut outside.history,
        &mut outside.schedule,
    );
    Ok(Answer { status, outside })
}

/// The call on a program with these statements.
pub fn run_lines(alloc: Global, lines: &str) -> Result<Answer, AllocError> {
    let text = program(alloc, lines)?;
    run(alloc, run_of(text.as_bytes()))
}

/// Runs a program with these statements, and asserts what it comes to.
pub fn check_lines(
    rt: &impl Abort,
    alloc: Global,
    lines: &str,
    due: Due<'_>,
) -> Result<(), AllocError> {
    run_lines(alloc, lines)?.check(rt, lines, due);
    Ok(())
}
