// Names, numbers and lines that a table gives, and copies of values.

use enc_ast::{Fail as Refusal, Row, Rule, Word};
use enc_io::{Failed, ReadFail};
use enc_model::{StepFail, TrapKind, Value};
use encore_run::{Command, MEMORY_LINE, Status};
use std::alloc::AllocError;
use std::test::Fail;

#[test]
fn rules_have_names(rt: HostRuntime) -> Result<(), Fail> {
    assert_eq!(rt; Rule::KMain.name(), "K-MAIN");
    assert_eq!(rt; Rule::Size.name(), "L-SIZE");
    let shown = format!(in rt.alloc(); "{}", Rule::Stage)?;
    assert_eq!(rt; shown.as_str(), "STAGE");
    Ok(())
}

#[test]
fn statuses_have_numbers(rt: HostRuntime) {
    assert_eq!(rt; Status::Ended.code(), 0);
    assert_eq!(rt; Status::Rejected.code(), 1);
    assert_eq!(rt; Status::Usage.code(), 2);
    assert_eq!(rt; Status::Trapped.code(), 3);
    assert_eq!(rt; Status::Blocked.code(), 4);
    assert_eq!(rt; Status::Budget.code(), 5);
    assert_eq!(rt; Status::Memory.code(), 6);
    assert_eq!(rt; Status::ReadFault.code(), 7);
    assert_eq!(rt; Status::WriteFault.code(), 8);
}

#[test]
fn commands_have_a_source(rt: HostRuntime) -> Result<(), Fail> {
    let command = Command::Run(Word::copy_of(rt.alloc(), "p.enc")?);
    assert_eq!(rt; command.source(), "p.enc");
    assert_eq!(rt; MEMORY_LINE, "out of memory\n");
    assert_eq!(rt; TrapKind::Overflow.name(), "OVERFLOW");
    Ok(())
}

#[test]
fn values_are_copied(rt: HostRuntime) -> Result<(), Fail> {
    let alloc = rt.alloc();
    let mut row = Row::new(alloc);
    row.extend(b"hi")?;
    let text = Value::Text(row).copy(alloc)?;
    assert!(rt; matches!(&text, Value::Text(bytes) if bytes.as_slice() == b"hi".as_slice()));
    assert!(rt; matches!(Value::Int(-7).copy(alloc)?, Value::Int(-7)));
    assert!(rt; matches!(Value::Unit.copy(alloc)?, Value::Unit));
    Ok(())
}

#[test]
fn errors_are_turned(rt: HostRuntime) {
    assert_eq!(rt; ReadFail::from(Failed), ReadFail::Failed);
    assert_eq!(rt; ReadFail::from(AllocError), ReadFail::Memory);
    assert_eq!(rt; Refusal::from(AllocError), Refusal::Memory);
    assert!(rt; matches!(StepFail::from(AllocError), StepFail::Memory));
}

#[test]
fn errors_are_shown(rt: HostRuntime) -> Result<(), Fail> {
    let alloc = rt.alloc();
    let unread = format!(in alloc; "{}", ReadFail::Failed)?;
    assert_eq!(rt; unread.as_str(), "cannot read");
    let unready = format!(in alloc; "{}", StepFail::NotReady)?;
    assert_eq!(rt; unready.as_str(), "the actor is not ready");
    Ok(())
}
