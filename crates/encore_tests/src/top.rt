// Runs from a program's file to what they write.

use crate::answer::{Due, check_lines, ended, refused, run, run_main, unrun};
use crate::outside::{HELLO, Setting, run_of};
use std::alloc::{AllocError, Global};
use std::test::Fail;

const USAGE: &str =
    "usage: encore check FILE, run FILE, replay FILE SCHEDULE, generate SEED SIZE\n";

#[test]
fn prints_a_line(rt: HostRuntime) -> Result<(), Fail> {
    let alloc = rt.alloc();
    let hello = run_of(HELLO.as_bytes());
    assert_eq!(rt; hello.text.len(), 69);
    run(alloc, hello)?.check(&rt, "the plain call", ended("hi\n", 3));
    run_main(&rt, alloc, hello)?.check(&rt, "the program's call", ended("hi\n", 3));
    Ok(())
}

#[test]
fn refuses_and_traps(rt: HostRuntime) -> Result<(), Fail> {
    let alloc = rt.alloc();
    let empty = run_of(b"");
    run(alloc, empty)?.check(&rt, "the empty text", refused());
    run_main(&rt, alloc, empty)?.check(&rt, "the empty text", refused());
    let lines = "let k = 9223372036854775807; print k;\nlet j = k + 1;";
    let due = Due {
        status: 3,
        output: "9223372036854775807\n",
        said: "p.enc:3:1: OVERFLOW in actor 0\n",
        steps: 4,
    };
    check_lines(&rt, alloc, lines, due)?;
    Ok(())
}

/// A program that prints one line, with spaces behind it up to this size.
fn padded(alloc: Global, size: usize) -> Result<Vec<u8>, AllocError> {
    let mut text = Vec::from_slice(alloc, HELLO.as_bytes())?;
    for _ in HELLO.len()..size {
        text.push(b' ')?;
    }
    Ok(text)
}

#[test]
fn reads_texts_up_to_a_size(rt: HostRuntime) -> Result<(), Fail> {
    let alloc = rt.alloc();
    // The file is begun, and read at most two times more than it may have bytes.
    let read_fault = 1_048_580;
    let longest = padded(alloc, 1_048_576)?;
    let setting = Setting {
        read_fault,
        ..run_of(&longest)
    };
    run(alloc, setting)?.check(&rt, "the longest text", ended("hi\n", 3));
    let longer = padded(alloc, 1_048_577)?;
    let setting = Setting {
        read_fault,
        ..run_of(&longer)
    };
    let refused = unrun(1, "p.enc:1:1: L-SIZE\n");
    run(alloc, setting)?.check(&rt, "a text that is too long", refused);
    Ok(())
}

/// Words that are no command.
const NO_COMMANDS: [&[&str]; 10] = [
    &[],
    &["run"],
    &["p.enc"],
    &["run", "p.enc", "p.enc"],
    &["run", "p.enc", ""],
    &["check", "p.enc"],
    &["Run", "p.enc"],
    &["p.enc", "run"],
    &["run p.enc"],
    &["", ""],
];

#[test]
fn wants_its_words(rt: HostRuntime) -> Result<(), Fail> {
    let alloc = rt.alloc();
    let hello = run_of(HELLO.as_bytes());
    for words in NO_COMMANDS {
        // A call of the files would fail, and so be seen.
        let read_fault = 1;
        let setting = Setting {
            words,
            read_fault,
            ..hello
        };
        let answer = run(alloc, setting)?;
        answer.check(&rt, "words that are no command", unrun(2, USAGE));
        assert_eq!(rt; answer.outside.files.faults(), 0);
    }
    Ok(())
}

#[test]
fn tells_which_file_is_missing(rt: HostRuntime) -> Result<(), Fail> {
    let alloc = rt.alloc();
    let hello = run_of(HELLO.as_bytes());
    for (file, line) in [
        ("no.enc", "no.enc: cannot read\n"),
        ("", ": cannot read\n"),
        ("P.ENC", "P.ENC: cannot read\n"),
    ] {
        let words = &["run", file];
        let answer = run(alloc, Setting { words, ..hello })?;
        answer.check(&rt, file, unrun(7, line));
        assert_eq!(rt; answer.outside.files.faults(), 1, "at {file}");
        assert_eq!(rt; answer.outside.out.faults(), 0, "at {file}");
    }
    Ok(())
}
