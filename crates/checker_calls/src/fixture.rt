// A program of many declarations, and rows of statements for its `main`.

use crate::rows::behind;
use checker_tests::marked::{count, joined, unmarked};
use enc_ast::{Decl, Fail as Refusal, Program, Reject, Span, Stmt};
use enc_parse::parse;
use std::alloc::Global;
use std::process::Abort;
use std::test::Fail;

/// Declarations 0 to 12, of which the last is the class of `main`.
const HEAD: &str = "local trait Top { k: int; }
linear trait A { n: int; a: A; def up(k: int): int { return k; } def give(x: A): unit { } }
linear trait B { def up(k: int): int { return k; } def down(): unit { } }
local trait L { m: int; def set(k: int): unit { this.m = k; } }
read trait R { v: int; def view(): int { let v = this.v; return v; } }
subordinate trait S { }
linear trait Own { c: S; def keep(x: S): unit { this.c = x; } }
class P = A and B;
class E = (A or R);
active class D { n: int; def put(c: A): unit { } def ask(): int { return 1; } def bad(x: L): unit { } def out(): A { return null[A]; } }
fun twice(k: int): int { return k * 2; }
fun sum(k: int, j: int): int { return k + j; }
active class Main { def main(args: List[int]): unit { ";

/// What stands behind the statements of `main`.
const TAIL: &str = " } }";

/// The program whose `main` has these statements.
pub fn program(alloc: Global, stmts: &str) -> Result<Program, Fail> {
    let text = joined(alloc, HEAD, stmts, TAIL)?;
    Ok(parse(alloc, text.as_bytes())?)
}

/// The statements of `main`, which is the last declaration's first method.
pub fn stmts_of(program: &Program) -> &[Stmt] {
    let Some(Decl::Active(class)) = program.decls.last() else {
        return &[];
    };
    match class.methods.get(0) {
        Some(method) => method.body.as_slice(),
        None => &[],
    }
}

/// The rule and the place of a refusal.
pub fn pair_of<T: Drop>(answer: Result<T, Refusal>) -> Option<(&'static str, Span)> {
    match answer {
        Ok(_) => None,
        Err(Refusal::Reject(Reject { rule, span })) => Some((rule.name(), span)),
        Err(Refusal::Memory) => Some(("memory", Span { start: 0, end: 0 })),
    }
}

/// Statements, with the rule and the place by which they are to be refused.
#[derive(Drop)]
pub struct Due<'a> {
    pub rule: &'a str,
    pub stmts: String,
    pub place: Span,
}

/// What is due of a row, which is a rule and statements in which the place is marked.
pub fn refused<'a>(rt: &impl Abort, alloc: Global, row: &'a str) -> Result<Due<'a>, Fail> {
    let Some((rule, marked)) = row.split_once(' ') else {
        panic!(rt; "a rule and statements")
    };
    let Some(row) = unmarked(alloc, marked)? else {
        panic!(rt; "marked statements")
    };
    Ok(Due {
        rule,
        place: behind(row.span, count(HEAD)),
        stmts: row.text,
    })
}
