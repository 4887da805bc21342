// Whole programs, and what is kept of those that are accepted.

use crate::fixture::pair_of;
use checker_tests::marked::unmarked;
use enc_check::{check, judge};
use enc_names::tables;
use enc_parse::parse;
use enc_rules::Checked;
use enc_within::spelled_is_within;
use std::alloc::{AllocError, Global};
use std::test::Fail;

/// A counter is sent on from actor to actor.
const ACCEPTED: &str =
    "linear trait Count { n: int; def up(): unit { let k = this.n; this.n = k + 1; } def now(): int { let k = this.n; return k; } }
class Counter = Count;
active class Adder { def put(c: Counter, next: Adder): unit { c.up(); if isnull(next) { let k = c.now(); print k; } else { next ! put(c, null[Adder]); } } }
active class Main { def main(args: List[int]): unit {
let a = new Adder; let b = new Adder; let c = new Counter; c.up(); a ! put(c, b);
} }";

/// A counter is used after it was sent.
const REFUSED: &str =
    "linear trait Count { n: int; def up(): unit { let k = this.n; this.n = k + 1; } def now(): int { let k = this.n; return k; } }
class Counter = Count;
active class Adder { def put(c: Counter): unit { c.up(); } }
active class Main { def main(args: List[int]): unit {
let a = new Adder; let c = new Counter; a ! put(c);
«c».up();
} }";

fn accepted(alloc: Global) -> Result<Checked, Fail> {
    let program = parse(alloc, ACCEPTED.as_bytes())?;
    spelled_is_within(ACCEPTED.as_bytes(), &program);
    Ok(check(alloc, program)?)
}

#[test]
fn programs_are_kept_with_their_tables(rt: HostRuntime) -> Result<(), Fail> {
    let checked = accepted(rt.alloc())?;
    assert_eq!(rt; checked.program().decls.len(), 4);
    assert_eq!(rt; checked.tables().names().find("Counter"), Some(1));
    assert_eq!(rt; checked.tables().field(0, "n"), Some(0));
    assert_eq!(rt; checked.tables().function("Adder"), None);
    Ok(())
}

#[test]
fn programs_are_given_back(rt: HostRuntime) -> Result<(), Fail> {
    let program = accepted(rt.alloc())?.into_program();
    assert_eq!(rt; program.decls.len(), 4);
    assert_eq!(rt; program.span.start, 0);
    assert_eq!(rt; u32::try_from(ACCEPTED.len()), Ok(program.span.end));
    Ok(())
}

#[test]
fn programs_that_keep_all_rules_are_kept_again(rt: HostRuntime) -> Result<(), Fail> {
    let alloc = rt.alloc();
    let program = accepted(alloc)?.into_program();
    let tables = tables(alloc, &program)?;
    let checked = Checked::new(program, tables);
    assert_eq!(rt; checked.program().decls.len(), 4);
    assert_eq!(rt; checked.tables().names().find("Main"), Some(3));
    Ok(())
}

#[test]
fn programs_are_refused(rt: HostRuntime) -> Result<(), Fail> {
    let alloc = rt.alloc();
    let Some(row) = unmarked(alloc, REFUSED)? else {
        panic!(rt; "a marked text")
    };
    let program = parse(alloc, row.text.as_bytes())?;
    spelled_is_within(row.text.as_bytes(), &program);
    let found = pair_of(check(alloc, program));
    assert_eq!(rt; found, Some(("E-MOVED", row.span)));
    Ok(())
}

/// A quarter of the brackets that stand round a variable, and of those behind it.
const OPENING: &str = "[[[[[[[[[[[[[[[[[[[[[[[[[[[[[[[[[[[[[[[[[[[[[[[[[[[[[[[[[[[[[[";

const CLOSING: &str = "]]]]]]]]]]]]]]]]]]]]]]]]]]]]]]]]]]]]]]]]]]]]]]]]]]]]]]]]]]]]]]";

/// A text of variables of which each is a list in 248 brackets round the one before.
fn lists_of_lists(alloc: Global, variables: u32) -> Result<String, AllocError> {
    let begin = "active class Main { def main(args: List[int]): unit { let v0 = 1;";
    let mut text = String::from_str(alloc, begin)?;
    for number in 1..variables {
        let last = number - 1;
        let opening = format!(in alloc;
            "let v{number} = {OPENING}{OPENING}{OPENING}{OPENING}v{last}"
        )?;
        let closing = format!(in alloc; "{CLOSING}{CLOSING}{CLOSING}{CLOSING};")?;
        text.push_str(opening.as_str())?;
        text.push_str(closing.as_str())?;
    }
    text.push_str(" } }")?;
    Ok(text)
}

#[test]
fn types_of_many_layers_take_no_stack(rt: HostRuntime) -> Result<(), Fail> {
    let alloc = rt.alloc();
    let text = lists_of_lists(alloc, 250)?;
    let program = parse(alloc, text.as_bytes())?;
    assert!(rt; judge(alloc, &program).is_ok());
    Ok(())
}
