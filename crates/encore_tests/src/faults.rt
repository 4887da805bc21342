// Runs in which a call of the outside fails.

use crate::answer::{Answer, Due, EMPTY_LINE, ended, run, unrun};
use crate::outside::{Flow, HELLO, OPEN, Setting, narrow, program, run_of};
use std::alloc::{AllocError, Global};
use std::process::Abort;
use std::test::Fail;

const UNREAD_LINE: &str = "p.enc: cannot read\n";

/// A run of a program that prints one line, in which this call of the files fails.
fn run_unread(alloc: Global, read_fault: u64) -> Result<Answer, AllocError> {
    let hello = run_of(HELLO.as_bytes());
    run(
        alloc,
        Setting {
            read_fault,
            ..hello
        },
    )
}

// The file is begun, then read, and read again to see that it is at its end.
#[test]
fn reads_can_fail(rt: HostRuntime) -> Result<(), Fail> {
    for read_fault in 1..=3 {
        let answer = run_unread(rt.alloc(), read_fault)?;
        answer.check(&rt, "a failed read", unrun(7, UNREAD_LINE));
        assert_eq!(rt; answer.outside.files.faults(), 1, "at {read_fault}");
    }
    Ok(())
}

#[test]
fn no_more_reads_are_made(rt: HostRuntime) -> Result<(), Fail> {
    let answer = run_unread(rt.alloc(), 4)?;
    answer.check(&rt, "a read that isn't made", ended("hi\n", 3));
    assert_eq!(rt; answer.outside.files.faults(), 0);
    Ok(())
}

/// A run of a program that prints one line, whose output flows so.
fn run_out(alloc: Global, out: Flow) -> Result<Answer, AllocError> {
    let hello = run_of(HELLO.as_bytes());
    run(alloc, Setting { out, ..hello })
}

/// Asserts that an output that flows so is cut off behind this front part.
fn check_cut(rt: &impl Abort, alloc: Global, out: Flow, output: &str) -> Result<(), AllocError> {
    let due = Due {
        status: 8,
        output,
        said: "cannot write\n",
        steps: 3,
    };
    let answer = run_out(alloc, out)?;
    answer.check(rt, output, due);
    assert_eq!(rt; answer.outside.out.faults(), 1, "behind {output}");
    Ok(())
}

#[test]
fn writes_can_fail(rt: HostRuntime) -> Result<(), Fail> {
    let alloc = rt.alloc();
    check_cut(&rt, alloc, narrow(1), "")?;
    check_cut(&rt, alloc, narrow(2), "h")?;
    check_cut(&rt, alloc, narrow(3), "hi")?;
    Ok(())
}

/// A sink with room for so many bytes.
fn with_room(room: usize) -> Flow {
    Flow { room, ..OPEN }
}

#[test]
fn outputs_can_be_full(rt: HostRuntime) -> Result<(), Fail> {
    let alloc = rt.alloc();
    check_cut(&rt, alloc, with_room(0), "")?;
    check_cut(&rt, alloc, with_room(1), "h")?;
    check_cut(&rt, alloc, with_room(2), "hi")?;
    Ok(())
}

#[test]
fn outputs_can_suffice(rt: HostRuntime) -> Result<(), Fail> {
    for out in [narrow(0), narrow(4), with_room(3)] {
        let answer = run_out(rt.alloc(), out)?;
        answer.check(&rt, "enough room", ended("hi\n", 3));
        assert_eq!(rt; answer.outside.out.faults(), 0);
    }
    Ok(())
}

#[test]
fn nothing_is_written_where_nothing_is_due(rt: HostRuntime) -> Result<(), Fail> {
    let empty = run_of(b"");
    let out = narrow(1);
    let answer = run(rt.alloc(), Setting { out, ..empty })?;
    answer.check(&rt, "a refused text", unrun(1, EMPTY_LINE));
    assert_eq!(rt; answer.outside.out.faults(), 0);
    Ok(())
}

/// Lines of which the first prints and the second traps.
const TRAPPING: &str = "print 5;\nprint 9223372036854775807 + 1;";

/// Asserts that a trap is told so far where this call of the error stream fails.
fn check_trap(rt: &impl Abort, alloc: Global, fault: u64, said: &str) -> Result<(), AllocError> {
    let text = program(alloc, TRAPPING)?;
    let traps = run_of(text.as_bytes());
    let err = narrow(fault);
    let due = Due {
        status: 3,
        output: "5\n",
        said,
        steps: 3,
    };
    let answer = run(alloc, Setting { err, ..traps })?;
    answer.check(rt, said, due);
    assert_eq!(rt; answer.outside.err.faults(), 1, "at {fault}");
    Ok(())
}

#[test]
fn traps_are_told_in_part(rt: HostRuntime) -> Result<(), Fail> {
    let alloc = rt.alloc();
    let line = "p.enc:3:1: OVERFLOW in actor 0";
    assert_eq!(rt; line.len(), 30);
    check_trap(&rt, alloc, 1, "")?;
    check_trap(&rt, alloc, 2, "p")?;
    check_trap(&rt, alloc, 31, line)?;
    Ok(())
}

/// Asserts that a cut output is told so far where this call of the error stream fails too.
fn check_both(rt: &impl Abort, alloc: Global, fault: u64, said: &str) -> Result<(), AllocError> {
    let text = program(alloc, TRAPPING)?;
    let traps = run_of(text.as_bytes());
    let out = narrow(2);
    let err = narrow(fault);
    let due = Due {
        status: 8,
        output: "5",
        said,
        steps: 3,
    };
    let answer = run(alloc, Setting { out, err, ..traps })?;
    answer.check(rt, said, due);
    Ok(())
}

#[test]
fn both_streams_can_fail(rt: HostRuntime) -> Result<(), Fail> {
    let alloc = rt.alloc();
    check_both(&rt, alloc, 1, "")?;
    check_both(&rt, alloc, 13, "cannot write")?;
    Ok(())
}

#[test]
fn refusals_are_told_in_part(rt: HostRuntime) -> Result<(), Fail> {
    let empty = run_of(b"");
    for (fault, said) in [(1, ""), (18, "p.enc:1:1: K-MAIN")] {
        let err = narrow(fault);
        let answer = run(rt.alloc(), Setting { err, ..empty })?;
        answer.check(&rt, said, unrun(1, said));
    }
    Ok(())
}

#[test]
fn files_and_errors_can_fail(rt: HostRuntime) -> Result<(), Fail> {
    let empty = run_of(b"");
    for (fault, said) in [(1, ""), (19, "p.enc: cannot read")] {
        let err = narrow(fault);
        let read_fault = 1;
        let setting = Setting {
            err,
            read_fault,
            ..empty
        };
        let answer = run(rt.alloc(), setting)?;
        answer.check(&rt, said, unrun(7, said));
    }
    Ok(())
}

#[test]
fn usage_can_go_untold(rt: HostRuntime) -> Result<(), Fail> {
    let empty = run_of(b"");
    let setting = Setting {
        words: &["check"],
        err: with_room(0),
        ..empty
    };
    run(rt.alloc(), setting)?.check(&rt, "an error stream without room", unrun(2, ""));
    Ok(())
}

// Where an allocation fails, the run says so and has written nothing, or it is as it would be.
#[test]
fn memory_can_run_out(rt: HostRuntime) {
    let Ok(answer) = run(rt.alloc(), run_of(HELLO.as_bytes())) else {
        return;
    };
    let steps = answer.outside.schedule.pairs.len();
    if answer.status == 6 {
        assert!(rt; steps <= 3);
        let due = Due {
            steps,
            ..unrun(6, "out of memory\n")
        };
        answer.check(&rt, "a run out of memory", due);
    } else {
        answer.check(&rt, "a run with memory", ended("hi\n", 3));
    }
    check_faultless(&rt, &answer);
}

fn check_faultless(rt: &impl Abort, answer: &Answer) {
    assert_eq!(rt; answer.outside.files.faults(), 0);
    assert_eq!(rt; answer.outside.out.faults(), 0);
    assert_eq!(rt; answer.outside.err.faults(), 0);
}
