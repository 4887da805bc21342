// The machine that makes the steps of a program one at a time.

use crate::outside::program;
use enc_ast::{Program, Span};
use enc_check::check;
use enc_model::{
    Cell, Phase, Plain, StepFail, Stepped, TrapKind, Value, never_blocked, never_stuck, stops_soon,
    thin, thin_accepted,
};
use enc_parse::parse;
use enc_within::spelled_is_within;
use std::alloc::Global;
use std::process::Abort;
use std::test::Fail;

fn machine(rt: &impl Abort, alloc: Global, lines: &str) -> Result<Plain, Fail> {
    let text = program(alloc, lines)?;
    let tree: Program = parse(alloc, text.as_bytes())?;
    if !thin(&tree) {
        panic!(rt; "another form")
    }
    never_stuck(&tree);
    never_blocked(&tree);
    stops_soon(&tree);
    thin_accepted(&tree);
    spelled_is_within(text.as_bytes(), &tree);
    Ok(Plain::of(alloc, check(alloc, tree)?)?)
}

/// Makes the next step of actor 0, and asserts its kind.
fn step(rt: &impl Abort, plain: &mut Plain, kind: Stepped) {
    assert!(rt; matches!(plain.step(0), Ok(made) if made == kind));
}

/// Asserts that an actor is refused.
fn check_refused(rt: &impl Abort, plain: &mut Plain, actor: u32) {
    assert!(rt; matches!(plain.step(actor), Err(StepFail::NotReady)));
}

/// Asserts how far the run has come, and which actor is the least that is ready.
fn check_phase(rt: &impl Abort, plain: &Plain, phase: Phase, least: Option<u32>) {
    assert!(rt; matches!(plain.phase(), Ok(found) if found == phase));
    assert!(rt; matches!(plain.least(), Ok(found) if found == least));
}

/// Asserts what was printed, and how many actors have begun something that isn't at its end.
fn check_config(rt: &impl Abort, plain: &Plain, output: &str, waiting: usize) {
    let config = plain.config();
    assert_eq!(rt; config.output.as_slice(), output.as_bytes());
    assert_eq!(rt; config.waiting(), waiting);
}

/// Asserts that the result of `main` isn't there yet.
fn check_pending(rt: &impl Abort, plain: &Plain) {
    assert!(rt; matches!(plain.config().cells.get(0), Some(Cell::Pending)));
}

#[test]
fn machines_begin(rt: HostRuntime) -> Result<(), Fail> {
    let mut plain = machine(&rt, rt.alloc(), "let a = 7; print a;")?;
    assert_eq!(rt; plain.program().body().len(), 2);
    check_phase(&rt, &plain, Phase::Running, Some(0));
    check_config(&rt, &plain, "", 0);
    check_pending(&rt, &plain);
    check_refused(&rt, &mut plain, 1);
    Ok(())
}

// Taking the message, binding, printing and giving the result.
#[test]
fn steps_have_kinds(rt: HostRuntime) -> Result<(), Fail> {
    let mut plain = machine(&rt, rt.alloc(), "let a = 7; print a;")?;
    step(&rt, &mut plain, Stepped::Interaction);
    step(&rt, &mut plain, Stepped::Local);
    step(&rt, &mut plain, Stepped::Interaction);
    step(&rt, &mut plain, Stepped::Interaction);
    check_refused(&rt, &mut plain, 0);
    Ok(())
}

#[test]
fn steps_print(rt: HostRuntime) -> Result<(), Fail> {
    let mut plain = machine(&rt, rt.alloc(), "print 7; print 8;")?;
    step(&rt, &mut plain, Stepped::Interaction);
    check_config(&rt, &plain, "", 1);
    step(&rt, &mut plain, Stepped::Interaction);
    check_config(&rt, &plain, "7\n", 1);
    step(&rt, &mut plain, Stepped::Interaction);
    check_config(&rt, &plain, "7\n8\n", 1);
    Ok(())
}

#[test]
fn machines_end(rt: HostRuntime) -> Result<(), Fail> {
    let mut plain = machine(&rt, rt.alloc(), "")?;
    step(&rt, &mut plain, Stepped::Interaction);
    check_phase(&rt, &plain, Phase::Running, Some(0));
    check_pending(&rt, &plain);
    step(&rt, &mut plain, Stepped::Interaction);
    check_phase(&rt, &plain, Phase::Ended, None);
    check_refused(&rt, &mut plain, 0);
    Ok(())
}

#[test]
fn ends_have_a_result(rt: HostRuntime) -> Result<(), Fail> {
    let mut plain = machine(&rt, rt.alloc(), "print 7;")?;
    step(&rt, &mut plain, Stepped::Interaction);
    step(&rt, &mut plain, Stepped::Interaction);
    step(&rt, &mut plain, Stepped::Interaction);
    assert_eq!(rt; plain.config().first_trap(), None);
    let config = plain.into_config();
    assert!(rt; matches!(config.cells.get(0), Some(Cell::Full(Value::Unit))));
    assert_eq!(rt; config.output.as_slice(), b"7\n".as_slice());
    Ok(())
}

#[test]
fn machines_stop_at_a_trap(rt: HostRuntime) -> Result<(), Fail> {
    let mut plain = machine(&rt, rt.alloc(), "print 9223372036854775807 + 1;")?;
    step(&rt, &mut plain, Stepped::Interaction);
    assert_eq!(rt; plain.config().first_trap(), None);
    step(&rt, &mut plain, Stepped::Interaction);
    check_phase(&rt, &plain, Phase::Trapped, None);
    check_config(&rt, &plain, "", 1);
    check_pending(&rt, &plain);
    check_refused(&rt, &mut plain, 0);
    Ok(())
}

#[test]
fn traps_have_places(rt: HostRuntime) -> Result<(), Fail> {
    let mut plain = machine(&rt, rt.alloc(), "print 9223372036854775807 + 1;")?;
    step(&rt, &mut plain, Stepped::Interaction);
    step(&rt, &mut plain, Stepped::Interaction);
    let span = Span { start: 54, end: 84 };
    let trap = (0, TrapKind::Overflow, span);
    assert_eq!(rt; plain.config().first_trap(), Some(trap));
    Ok(())
}
