// The rules of declarations: what is refused, by which rule and where, and what is accepted.

use crate::marked::unmarked;
use enc_ast::{Fail as Refusal, Reject, Span};
use enc_names::tables;
use enc_parse::parse;
use std::alloc::Global;
use std::process::Abort;
use std::test::Fail;

/// A class of which each program has one.
const MAIN: &str = " active class Main { def main(args: List[int]): unit { } }";

/// Checks the declarations of a text, which are to be refused by this rule at this place, or accepted.
fn check(
    rt: &impl Abort,
    alloc: Global,
    text: &str,
    due: Option<(&str, Span)>,
) -> Result<(), Fail> {
    let program = parse(alloc, text.as_bytes())?;
    let found = match tables(alloc, &program) {
        Ok(_) => None,
        Err(Refusal::Reject(Reject { rule, span })) => Some((rule.name(), span)),
        Err(Refusal::Memory) => Some(("memory", program.span)),
    };
    assert_eq!(rt; found, due, "{text}");
    Ok(())
}

/// Checks rows, each of which is a rule and a text in which the place is marked.
fn check_refused(rt: &impl Abort, alloc: Global, rows: &str, tail: &str) -> Result<(), Fail> {
    for row in rows.lines() {
        let Some((rule, marked)) = row.split_once(' ') else {
            panic!(rt; "a rule and a text")
        };
        let Some(mut row) = unmarked(alloc, marked)? else {
            panic!(rt; "a marked text")
        };
        row.text.push_str(tail)?;
        check(rt, alloc, row.text.as_str(), Some((rule, row.span)))?;
    }
    Ok(())
}

fn check_accepted(rt: &impl Abort, alloc: Global, rows: &str, tail: &str) -> Result<(), Fail> {
    for row in rows.lines() {
        let text = format!(in alloc; "{row}{tail}")?;
        check(rt, alloc, text.as_str(), None)?;
    }
    Ok(())
}

const BAD_NAMES: &str = "K-NAME linear trait A { } «linear trait A { }»
K-NAME linear trait A { } «fun A(k: int): int { return k; }»
K-NAME linear trait A { } «active class A { x: int; }»
K-NAME linear trait A { } «class A = A;»
K-NAME linear trait A { x: «Nope»; }
K-NAME linear trait A { def m(k: «Nope»): unit { } }
K-NAME linear trait A { def m(): List[«Nope»] { } }
K-NAME linear trait A { } class C = A; linear trait B { x: A and «C»; }
K-NAME linear trait A { } class C = A; linear trait B { x: «(A or C)»; }
K-NAME active class D { } linear trait A { } linear trait B { x: «D» and A; }
K-NAME fun f(k: int): int { return k; } linear trait B { x: «f»; }
K-NAME active class D { } class C = «D»;
K-NAME linear trait A { } class B = A; class C = A and «B»;
K-NAME linear trait A { } class C = «(A or Nope)»;
K-NAME class C = «C»;
K-NAME fun f(k: int): int { let x = null[«Nope»]; return k; }
K-NAME fun f(k: int): int { if true { } else { print [1, len(nil[«Nope»])]; } return k; }
K-NAME active class D { def m(): unit { while true { this.m(empty[List[«Nope»]]); } } }
K-NAME active class D { def m(): unit { split x into y: «Nope», z: A; } }";

const GOOD_NAMES: &str = "class C = A; linear trait A { x: C; }
linear trait A { x: D; } active class D { x: A; }
linear trait A { def x(): int { return 1; } }
linear trait T { a: int; } linear trait U { a: int; def a(): unit { } } fun a(a: int): int { return a; }
linear trait A { x: (A or B) and C; } linear trait B { } linear trait C { }";

#[test]
fn names_are_declared_once(rt: HostRuntime) -> Result<(), Fail> {
    check_refused(&rt, rt.alloc(), BAD_NAMES, MAIN)?;
    check_accepted(&rt, rt.alloc(), GOOD_NAMES, MAIN)
}

const NO_MAIN: &str = "K-MAIN «»
K-MAIN «linear trait Main { def main(args: List[int]): unit { } }»
K-MAIN «active class Main { }»
K-MAIN «active class Main { def main(): unit { } }»
K-MAIN «active class Main { def main(args: int): unit { } }»
K-MAIN «active class Main { def main(args: List[bool]): unit { } }»
K-MAIN «active class Main { def main(args: List[int], more: int): unit { } }»
K-MAIN «active class Main { def main(args: List[int]): int { return 1; } }»
K-MAIN «active class main { def Main(args: List[int]): unit { } }»
K-MAIN «fun main(args: List[int]): unit { } class Main = A; linear trait A { }»";

const SOME_MAIN: &str = "active class Main { def main(args: List[int]): unit { } }
active class Main { x: int; def other(): unit { } def main(given: List[int]): unit { } }
active class A { } active class Main { def main(a: List[int]): unit { } def more(): A { } }";

#[test]
fn programs_have_a_main(rt: HostRuntime) -> Result<(), Fail> {
    check_refused(&rt, rt.alloc(), NO_MAIN, "")?;
    check_accepted(&rt, rt.alloc(), SOME_MAIN, "")
}

const BAD_TRAITS: &str = "K-TRAIT linear trait A { x: int; «x: int;» }
K-TRAIT linear trait A { x: int; y: int; «x: bool;» y: text; }
K-TRAIT linear trait A { def m(): unit { } «def m(): unit { }» }
K-TRAIT local trait A { def m(): unit { } def n(): unit { } «def n(k: int): int { }» }
K-TRAIT local trait L { } linear trait A { «x: L;» }
K-TRAIT local trait L { } class C = L; subordinate trait A { y: int; «x: C;» }
K-TRAIT linear trait A { } read trait R { «x: A;» }
K-TRAIT subordinate trait A { } read trait R { «x: A;» }
K-TRAIT local trait A { } read trait R { «x: A;» }";

const GOOD_TRAITS: &str =
    "linear trait A { x: S; y: A; z: R; } subordinate trait S { x: A; y: S; } read trait R { x: R; }
local trait L { x: L; y: A; z: S; } linear trait A { } subordinate trait S { }
linear trait A { x: int; def x(): unit { } }
read trait R { x: int; y: List[text]; z: D; f: Fut[unit]; b: Bestowed[L]; } active class D { } local trait L { }";

#[test]
fn traits_have_fields_that_fit(rt: HostRuntime) -> Result<(), Fail> {
    check_refused(&rt, rt.alloc(), BAD_TRAITS, MAIN)?;
    check_accepted(&rt, rt.alloc(), GOOD_TRAITS, MAIN)
}

const BAD_CLASSES: &str = "K-CLASS linear trait A { } «class C = A and A;»
K-CLASS linear trait A { } «class C = (A or A);»
K-CLASS linear trait A { } linear trait B { } «class C = (A or B) and A;»
K-CLASS local trait L { } linear trait A { } «class C = A and L;»
K-CLASS subordinate trait S { } linear trait A { } «class C = S and A;»
K-CLASS read trait R { } linear trait A { } linear trait B { } «class C = (A or B) and R;»
K-CLASS read trait R { } «class C = R;»";

const GOOD_CLASSES: &str = "local trait L { } class C = L;
subordinate trait S { } class C = S;
read trait R { } linear trait A { } class C = (A or R);
read trait R { } local trait L { } linear trait A { } class C = (L or R) and A;
linear trait A { } linear trait B { } linear trait D { } class C = D and A and B;";

#[test]
fn classes_are_composed(rt: HostRuntime) -> Result<(), Fail> {
    check_refused(&rt, rt.alloc(), BAD_CLASSES, MAIN)?;
    check_accepted(&rt, rt.alloc(), GOOD_CLASSES, MAIN)
}

const BAD_DISJUNCTIONS: &str =
    "K-OR subordinate trait S { } linear trait A { } class C = «(A or S)»;
K-OR linear trait A { } class C = A and «(B or S)»; linear trait B { } subordinate trait S { }
K-OR local trait L { } local trait A { x: L; } linear trait B { } class C = «(B or A)»;
K-OR class C = «(A or B)»; linear trait A { x: S; } linear trait B { } subordinate trait S { }
K-OR linear trait A { x: int; } linear trait B { x: bool; } class C = «(A or B)»;
K-OR linear trait A { y: int; x: A; } linear trait B { } linear trait D { x: B; } class C = «(A or B or D)»;";

const GOOD_DISJUNCTIONS: &str =
    "linear trait A { x: int; y: A; } linear trait B { x: int; z: bool; } class C = (A or B);
linear trait A { x: A and B; } linear trait B { x: B and A; } class C = (A or B);
linear trait A { x: int; } linear trait B { x: bool; } class C = A and B;
local trait L { } local trait A { x: L; } class C = A;";

#[test]
fn traits_of_a_disjunction_share_a_place(rt: HostRuntime) -> Result<(), Fail> {
    check_refused(&rt, rt.alloc(), BAD_DISJUNCTIONS, MAIN)?;
    check_accepted(&rt, rt.alloc(), GOOD_DISJUNCTIONS, MAIN)
}

const BAD_ACTIVE: &str = "K-ACTIVE active class A { x: int; «x: int;» }
K-ACTIVE active class A { def m(): unit { } «def m(k: int): unit { }» }";

const GOOD_ACTIVE: &str =
    "local trait L { } active class A { x: L; m: int; def m(): unit { } def x(): L { } }
active class A { x: int; def m(x: int): unit { } } active class B { x: int; def m(x: int): unit { } }";

#[test]
fn members_of_active_classes_have_names(rt: HostRuntime) -> Result<(), Fail> {
    check_refused(&rt, rt.alloc(), BAD_ACTIVE, MAIN)?;
    check_accepted(&rt, rt.alloc(), GOOD_ACTIVE, MAIN)
}

const BAD_SIGNATURES: &str = "K-SIG linear trait A { } linear trait B { x: «Fut[A]»; }
K-SIG linear trait A { } linear trait B { x: List[«List[A]»]; }
K-SIG local trait A { } linear trait B { x: «Par[A]»; }
K-SIG linear trait A { } linear trait B { x: «Bestowed[A]»; }
K-SIG read trait A { } linear trait B { x: «Bestowed[A]»; }
K-SIG linear trait B { x: «Bestowed[int]»; }
K-SIG linear trait B { x: «Bestowed[Bestowed[L]]»; } local trait L { }
K-SIG linear trait A { x: «A and A»; }
K-SIG linear trait A { } linear trait B { x: «(A or B) and B»; }
K-SIG local trait L { } linear trait A { x: «A and L»; }
K-SIG linear trait A { «def m(k: int, k: bool): unit { }» }
K-SIG active class A { «def m(a: int, b: int, a: int): unit { }» }
K-SIG «fun f(): int { return 1; }»
K-SIG «fun f(k: int, k: int): int { return k; }»
K-SIG linear trait A { } «fun f(a: A): int { return 1; }»
K-SIG local trait A { } «fun f(k: int): A { }»
K-SIG linear trait A { } fun f(k: int): int { let x = nil[«Fut[A]»]; return k; }
K-SIG linear trait A { x: «(A or S or A)»; } subordinate trait S { }
K-SIG linear trait A { x: «(A or B) and S»; } linear trait B { } subordinate trait S { }";

const GOOD_SIGNATURES: &str =
    "linear trait B { x: Bestowed[L]; y: Fut[int]; z: List[Fut[text]]; } local trait L { }
linear trait B { x: Bestowed[C]; } local trait L { } class C = L;
linear trait A { def m(a: int, b: int): unit { } def n(a: int, b: int): unit { } }
read trait R { } fun f(k: R, d: D, xs: List[R]): Par[R] { } active class D { }
linear trait A { x: (A or L) and B; } local trait L { } linear trait B { }
linear trait A { x: (A or S); def m(k: (S or A)): (A or S) { } } subordinate trait S { }
linear trait A { } subordinate trait S { } fun f(k: int): int { let x = null[(A or S)]; return k; }
linear trait A { } subordinate trait S { } active class D { x: (S or A); }
subordinate trait S { x: (R or S); } read trait R { }";

#[test]
fn written_types_may_be_written(rt: HostRuntime) -> Result<(), Fail> {
    check_refused(&rt, rt.alloc(), BAD_SIGNATURES, MAIN)?;
    check_accepted(&rt, rt.alloc(), GOOD_SIGNATURES, MAIN)
}

/// Which of several failures comes first.
const FIRST: &str = "K-NAME linear trait B { x: Fut[Z]; } class Z = «Nope»;
K-SIG linear trait A { } linear trait B { x: «D»; } class D = A and A;
K-NAME fun f(): int { let x = null[«Nope»]; return 1; }
K-SIG linear trait A { } «fun f(): int { return 1; }» linear trait A { }
K-NAME linear trait A { } «fun A(): int { return 1; }»
K-NAME linear trait A { x: «Nope»; x: Nope; }
K-NAME linear trait A { def m(k: «Nope», k: Nope): unit { } }
K-TRAIT linear trait A { x: int; «x: int;» } linear trait A { }
K-NAME read trait R { } «class R = R and R;»
K-NAME subordinate trait S { } class C = «(S or Nope)»;
K-OR subordinate trait S { } class C = «(S or S)»;
K-SIG class C = (A or B); linear trait A { x: «Fut[A]»; } linear trait B { x: int; }
K-SIG class C = (A or B); linear trait A { x: int; } linear trait B { x: «List[B]»; }
K-SIG class C = (A or B); linear trait A { x: «A and A»; } linear trait B { x: A; }
K-SIG class C = (A or B); linear trait A { x: «Bestowed[A]»; } linear trait B { x: Par[A]; }
K-NAME class C = (A or B); linear trait A { x: «Nope»; } linear trait B { x: int; }
K-NAME class C = (A or B); linear trait A { x: Z; } linear trait B { x: int; } class Z = «Nope»;
K-NAME read trait R { x: Z; } class Z = «Nope»;
K-OR class C = «(A or B)»; linear trait A { x: Fut[A]; y: int; } linear trait B { y: bool; }
K-OR class C = «(A or B)»; linear trait A { x: int; x: bool; } linear trait B { x: int; }
K-OR class C = «(A or B)»; linear trait A { x: Nope; x: bool; } linear trait B { x: int; }
K-OR class C = «(A or B)»; linear trait A { x: int; } linear trait B { x: Fut[A]; x: int; x: bool; }
K-OR class C = «(A or A or B)»; linear trait A { x: int; x: bool; } linear trait B { x: bool; }
K-NAME class C = (A or B); linear trait A { x: int; x: «Nope»; } linear trait B { x: int; }
K-TRAIT class C = (A or B); linear trait A { x: int; «x: int;» } linear trait B { x: int; }
K-TRAIT class C = (A or B); linear trait A { x: int; «x: bool;» } linear trait B { y: bool; }
K-CLASS «class C = (A or A);» linear trait A { x: int; x: bool; }
K-TRAIT linear trait A { def m(): unit { } «def m(k: int, k: int): unit { }» }";

#[test]
fn the_first_failure_counts(rt: HostRuntime) -> Result<(), Fail> {
    check_refused(&rt, rt.alloc(), FIRST, MAIN)
}
