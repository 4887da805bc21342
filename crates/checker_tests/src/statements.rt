// The rules of statements: what is refused, by which rule and where, and what is accepted.

use crate::marked::{count, joined, unmarked};
use enc_ast::{Fail as Refusal, Reject, Span};
use enc_check::judge;
use enc_parse::parse;
use std::alloc::Global;
use std::process::Abort;
use std::test::Fail;

/// What stands before the statements of `main`.
const HEAD: &str =
    "linear trait A { n: int; def up(): unit { this.n = 1; } def add(k: int, b: bool): int { return k; } def give(x: A): unit { } }
linear trait B { def up(): unit { } def down(): unit { } }
local trait L { m: int; def set(k: int): unit { this.m = k; } }
read trait R { v: int; def view(): int { let v = this.v; return v; } }
subordinate trait S { def link(x: S): S { return x; } }
linear trait Own { c: S; def keep(x: S): unit { this.c = x; } def core(): S { let x = this.c; return x; } def grow(): unit { let x = new Node; this.keep(x); let y = this.core(); } }
class C = A; class P = A and B; class E = (A or R); class Q = L; class Node = S; class Owner = Own;
active class D { a: A; def put(c: A): unit { } def ask(): int { return 1; } def bad(x: L): unit { } def out(): A { let x = take this.a; return x; } def own(x: S): unit { } def core(): S { return null[S]; } }
fun twice(k: int): int { return k * 2; }
fun sum(k: int, j: int): int { return k + j; }
active class Main { n: int; a: A; def other(): unit { } def own(x: S): S { return x; } def main(args: List[int]): unit { ";

/// What stands behind the statements of `main`.
const TAIL: &str = " } }";

/// A class of which each program has one.
const MAIN: &str = " active class Main { def main(args: List[int]): unit { } }";

/// Checks the rules of a text, which are to refuse it by this rule at this place, or accept it.
fn check(
    rt: &impl Abort,
    alloc: Global,
    text: &str,
    due: Option<(&str, Span)>,
) -> Result<(), Fail> {
    let program = parse(alloc, text.as_bytes())?;
    let found = match judge(alloc, &program) {
        Ok(_) => None,
        Err(Refusal::Reject(Reject { rule, span })) => Some((rule.name(), span)),
        Err(Refusal::Memory) => Some(("memory", program.span)),
    };
    assert_eq!(rt; found, due, "{text}");
    Ok(())
}

/// Checks rows, each of which is a rule and a text in which the place is marked, between a head and a tail.
fn check_refused(
    rt: &impl Abort,
    alloc: Global,
    head: &str,
    rows: &str,
    tail: &str,
) -> Result<(), Fail> {
    let before = count(head);
    for row in rows.lines() {
        let Some((rule, marked)) = row.split_once(' ') else {
            panic!(rt; "a rule and a text")
        };
        let Some(row) = unmarked(alloc, marked)? else {
            panic!(rt; "a marked text")
        };
        let text = joined(alloc, head, row.text.as_str(), tail)?;
        let place = Span {
            start: row.span.start.saturating_add(before),
            end: row.span.end.saturating_add(before),
        };
        check(rt, alloc, text.as_str(), Some((rule, place)))?;
    }
    Ok(())
}

fn check_accepted(
    rt: &impl Abort,
    alloc: Global,
    head: &str,
    rows: &str,
    tail: &str,
) -> Result<(), Fail> {
    for row in rows.lines() {
        let text = joined(alloc, head, row, tail)?;
        check(rt, alloc, text.as_str(), None)?;
    }
    Ok(())
}

const BAD_BINDINGS: &str = "S-LET let k = 1; «let k = 2;»
S-LET «let args = 1;»
S-LET let x = new P; «split x into y: A, y: B;»
S-LET let x = new P; let y = 1; «split x into y: A, z: B;»
S-LET let x = new E; «choose x as A into args;»
S-ASSIGN let k = 1; «k = true;»
S-ASSIGN let x = null[A]; «x = null[B];»
S-ASSIGN «args = [true];»
S-NEW «let x = new A;»
S-NEW «let x = new Nope;»
S-NEW «let x = new twice;»";

const GOOD_BINDINGS: &str = "if true { let k = 1; } let k = 2;
while false { let k = 1; } let k = true; k = false;
let x = null[P]; x = null[B and A];
let x = new C; let y = x; x = y; x.up();
let d = new D; let x = new C; let q = new Q; let r = q;";

#[test]
fn variables_are_bound(rt: HostRuntime) -> Result<(), Fail> {
    check_refused(&rt, rt.alloc(), HEAD, BAD_BINDINGS, TAIL)?;
    check_accepted(&rt, rt.alloc(), HEAD, GOOD_BINDINGS, TAIL)
}

const BAD_FIELDS: &str = "S-FIELD «let x = this.a;»
S-FIELD «let x = this.z;»
S-TAKE «let k = take this.n;»
S-TAKE «let k = take this.z;»
S-STORE «this.n = true;»
S-STORE «this.z = 1;»
S-STORE «this.a = null[B];»";

const GOOD_FIELDS: &str = "let k = this.n; let x = take this.a; this.a = x; this.n = k + 1;
this.a = null[A];";

#[test]
fn fields_are_read_and_written(rt: HostRuntime) -> Result<(), Fail> {
    check_refused(&rt, rt.alloc(), HEAD, BAD_FIELDS, TAIL)?;
    check_accepted(&rt, rt.alloc(), HEAD, GOOD_FIELDS, TAIL)
}

const BAD_CALLS: &str = "S-CALL let d = new D; «d.ask();»
S-CALL let x = new C; «x.nope();»
S-CALL let x = new P; «x.up();»
S-CALL let x = new C; «x.up(1);»
S-CALL let x = new C; «let k = x.add(1);»
S-CALL «args.up();»
S-CALL let q = new Q; let b = bestow q; «b.set(true);»
S-INNER let o = new Owner; let x = new Node; «o.keep(x);»
S-INNER let o = new Owner; «o.keep(null[S]);»
S-INNER let o = new Owner; «let x = o.core();»
S-SEND let x = new C; «x ! up();»
S-SEND let d = new D; «d ! nope();»
S-SEND let d = new D; «d ! ask(1);»
S-SEND let q = new Q; «q ! set(1);»
S-SENDABLE let d = new D; «d ! bad(null[L]);»
S-SENDABLE let d = new D; «d ! out();»
S-SENDABLE let d = new D; «d ! own(null[S]);»
S-SENDABLE let d = new D; «let f = d ! core();»
S-SENDABLE «this ! own(null[S]);»
S-CALL let d = new D; «d.own(null[S]);»
S-CALL let o = new Owner; let x = new Node; «o.keep(x, x);»
E-TYPE let x = new C; x.add(1, «2»);
E-TYPE let x = new C; let k = x.add(«true», true);
E-TYPE let d = new D; d ! put(«1»);
E-TYPE let d = new D; d.put(«2»);
E-TYPE let q = new Q; let b = bestow q; b ! set(«true»);
E-COPY let d = new D; let c = new C; d ! put((«c»));";

const GOOD_CALLS: &str = "let x = new P; x.down(); x.add(1, true);
let x = new C; let k = x.add(1, true); print k + 1;
let x = new C; let y = new C; x.give(y); x.up();
this.other(); let u = this.other();
let o = new Owner; o.grow();
let x = new Node; let y = new Node; x.link(y); let z = x.link(x);
let x = new Node; this.own(x); let y = this.own(x);
let d = new D; let f = d ! ask(); d ! put(null[A]);
let q = new Q; q.set(1); let b = bestow q; b ! set(1);";

#[test]
fn methods_are_called_and_asked_for(rt: HostRuntime) -> Result<(), Fail> {
    check_refused(&rt, rt.alloc(), HEAD, BAD_CALLS, TAIL)?;
    check_accepted(&rt, rt.alloc(), HEAD, GOOD_CALLS, TAIL)
}

const BAD_FUTURES: &str = "S-GET «let k = get 1;»
S-GET let d = new D; «let x = get d;»
S-AWAIT «let k = await 1;»
S-AWAIT let p = lift 1; «let k = await p;»
S-CHAIN let d = new D; let f = d ! ask(); «let g = chain f with nope();»
S-CHAIN let d = new D; let f = d ! ask(); «let g = chain f with sum();»
S-CHAIN let d = new D; let f = d ! ask(); «let g = chain f with twice(1);»
S-CHAIN «let g = chain 1 with twice();»
S-CHAIN let d = new D; let f = d ! put(null[A]); «let g = chain f with twice();»
E-TYPE let d = new D; let f = d ! ask(); let g = chain f with sum(«true»);
E-TYPE let g = chain 1 with sum(«true»);
E-TYPE let p = lift 1; let g = seq p with sum(«true»);
S-PART «let p = each 1;»
S-PART let q = new Q; «let p = lift q;»
S-PART «let p = lift future 1;»
S-PART let p = lift 1; let r = lift true; «let s = both p, r;»
S-PART let p = lift 1; «let s = otherwise p, 5;»
S-PART let p = lift 1; «let s = join p;»
S-PART «let s = prune 1;»
S-PART «let xs = extract 1;»
S-PART let p = lift 1; «let g = seq p with nope();»
S-PART let p = lift true; «let g = seq p with twice();»
S-BESTOW let k = 1; «let b = bestow k;»
S-BESTOW «let b = bestow this;»";

const GOOD_FUTURES: &str =
    "let d = new D; let f = d ! ask(); let k = get f; let j = await f; print k + j;
let d = new D; let f = d ! ask(); let g = chain f with sum(2); let k = get g; print k;
let p = each [1, 2]; let q = both p, p; let r = seq q with sum(1); let xs = extract r; print at(xs, 0);
let d = new D; let f = d ! ask(); let p = lift future f; let q = lift p; let r = join q; let s = prune r;
let e = empty[int]; let p = lift 1; let o = otherwise e, p; let ys = extract o; print len(ys);
let q = new Q; let b = bestow q; print isnull(b);";

#[test]
fn futures_and_trees_have_parts(rt: HostRuntime) -> Result<(), Fail> {
    check_refused(&rt, rt.alloc(), HEAD, BAD_FUTURES, TAIL)?;
    check_accepted(&rt, rt.alloc(), HEAD, GOOD_FUTURES, TAIL)
}

const BAD_GROUPS: &str = "S-ATOMIC let d = new D; atomic d { «suspend;» }
S-ATOMIC let d = new D; atomic d { «return unit;» }
S-ATOMIC let d = new D; atomic d { «return 1;» }
S-ATOMIC let d = new D; let f = d ! ask(); atomic d { if true { «let k = get f;» } }
S-ATOMIC let d = new D; let f = d ! ask(); atomic d { «let k = await f;» }
S-ATOMIC let d = new D; let p = lift 1; atomic d { «let k = extract p;» }
S-ATOMIC let d = new D; atomic d { while true { «this.other();» } }
S-ATOMIC let d = new D; atomic d { «let u = this.other();» }
S-ATOMIC let d = new D; atomic d { «atomic d { }» }
S-LET let d = new D; let f = d ! ask(); atomic d { «let f = get f;» }
S-GET let d = new D; atomic d { «let k = get 1;» }
S-AWAIT let d = new D; atomic d { «let k = await 1;» }
S-PART let d = new D; atomic d { «let xs = extract 1;» }
S-CALL let d = new D; atomic d { «d.ask();» }
S-CALL let d = new D; atomic d { «let k = d.ask();» }
S-INNER let d = new D; let o = new Owner; let x = new Node; atomic d { «o.keep(x);» }
S-INNER let d = new D; let o = new Owner; atomic d { if true { «let x = o.core();» } }
S-ATOMIC let d = new D; let x = new Node; atomic d { «x.link(x);» }
S-SENDABLE let d = new D; atomic d { «d ! own(null[S]);» }
S-ATOMIC let d = new D; atomic d { atomic d { «suspend;» } }
S-ATOMIC «atomic args { }»
E-COPY let c = new C; atomic «c» { }
S-ATOMIC «atomic 1 { }»
E-VAR atomic 1 { print «z»; }";

const GOOD_GROUPS: &str =
    "let d = new D; atomic d { d ! ask(); let f = d ! ask(); let p = lift 1; } suspend;
atomic this { this ! other(); }
let q = new Q; let b = bestow q; atomic b { b ! set(1); b ! set(2); }";

#[test]
fn groups_are_atomic(rt: HostRuntime) -> Result<(), Fail> {
    check_refused(&rt, rt.alloc(), HEAD, BAD_GROUPS, TAIL)?;
    check_accepted(&rt, rt.alloc(), HEAD, GOOD_GROUPS, TAIL)
}

const BAD_PARTS: &str = "S-SPLIT let x = new C; «split x into y: A, z: B;»
S-SPLIT let x = new P; «split x into y: A, z: A;»
S-SPLIT let k = 1; «split k into y: A, z: B;»
S-SPLIT let x = new P; «split x into y: A and B, z: A;»
S-PACK let x = new C; let y = new C; «pack x and y into z { } else { }»
S-PACK let x = new C; let k = 1; «pack x and k into z { } else { }»
S-PACK let x = new C; let y = new E; «pack x and y into z { } else { }»
S-PACK let x = new C; let q = new Q; «pack x and q into z { } else { }»
S-PACK let x = new C; let q = new Node; «pack q and x into z { } else { }»
S-PACK let k = 1; let x = new C; «pack k and x into z { let b = isnull(z); let j = z + 1; } else { }»
S-LET let x = new P; split x into y: A, z: B; «pack y and z into x { x.down(); } else { }»
S-CHOOSE let x = new C; «choose x as A into y;»
S-CHOOSE let x = new E; «choose x as B into y;»
S-CHOOSE let x = new E; «choose x as Nope into y;»
S-CHOOSE let x = new E; «choose x as C into y;»
S-CHOOSE let x = new E; «choose x as twice into y;»
S-CHOOSE let x = new P; «choose x as A into y;»
E-MOVED let x = new C; pack x and «x» into z { } else { }
E-MOVED let x = new P; split x into y: A, z: B; «x».down();
E-MOVED let x = new E; choose x as R into y; «x».up();
S-CHAIN let x = new C; let k = 1; pack x and k into z { «let g = chain z with nope();» } else { }
E-MOVED let k = 1; pack k and k into z { choose z as A into c; let d = c; let e = «c»; } else { }
S-PACK let k = 1; «pack k and k into z { choose z as Nope into c; let d = c; let e = c; d = 1; } else { }»
S-ASSIGN let k = 1; pack k and k into z { let p = lift k; let b = both z, p; «b = 1;» } else { }
S-ASSIGN let k = 1; pack k and k into z { let p = lift k; let b = otherwise z, p; b = p; «b = 1;» } else { }
S-PACK let k = 1; «pack k and k into z { let b = both z, z; b = 1; let c = both b, b; c = true; } else { }»";

const GOOD_PARTS: &str =
    "let x = new P; split x into y: B, z: A; pack z and y into w { w.down(); } else { y.down(); z.up(); }
let x = new E; choose x as R into y; let k = y.view(); let z = y; print k;
let x = new E; x.up(); choose x as A into y; y.up();
let x = null[P]; split x into y: A, z: B; x = null[P]; x.down();";

#[test]
fn objects_have_parts(rt: HostRuntime) -> Result<(), Fail> {
    check_refused(&rt, rt.alloc(), HEAD, BAD_PARTS, TAIL)?;
    check_accepted(&rt, rt.alloc(), HEAD, GOOD_PARTS, TAIL)
}

const BAD_FLOW: &str = "S-IF if «1» { }
S-IF if «args» { } else { }
S-LOOP while «1» { }
S-LOOP let d = new D; let c = new C; «while true { d ! put(c); }»
S-LOOP let d = new D; let c = new C; «while true { if true { d ! put(c); } else { } }»
S-LOOP let d = new D; let c = new C; d ! put(c); «while true { c = null[A]; }»
S-RETURN «return 1;»
S-PRINT «print args;»
S-PRINT let d = new D; «print 1, d;»
S-PRINT «print unit;»
E-MOVED let d = new D; let c = new C; d ! put(c); «c».up();
E-MOVED let d = new D; let c = new C; if true { d ! put(c); } else { } «c».up();
E-MOVED let d = new D; let c = new C; if true { } else { d ! put(c); } «c».up();
E-MOVED let d = new D; let c = new C; if true { d ! put(c); } print isnull(«c»);
E-MOVED let c = new C; let d = new D; if true { d ! put(c); return unit; } «c».up();
E-MOVED let c = new C; let d = new D; if true { } else { d ! put(c); return unit; } «c».up();
E-MOVED let c = new C; let d = new D; if true { let b = c; return unit; } else { return unit; } «c».up();
E-MOVED let c = new C; let d = new D; d ! put(c); return unit; «c».up();
E-MOVED let x = new P; split x into y: A, z: B; pack y and z into w { return unit; } else { } «y».up();
E-MOVED let x = new P; split x into y: A, z: B; let c = new C; pack y and z into w { } else { let b = c; return unit; } «c».up();
S-LOOP let c = new C; let d = new D; «while true { d ! put(c); return unit; }»
E-MOVED let c = new C; c.give(«c»);
E-MOVED let x = new C; x ! put(«x»);
E-MOVED let c = new C; let x = c; let y = «c»;
E-COPY let c = new C; let x = («c»);
E-COPY let c = new C; let p = lift «c»;
E-VAR «z» = 1;
E-VAR if true { let k = 1; } print «k»;
E-VAR print «k»; let k = 1;";

const GOOD_FLOW: &str = "if true { } else { } while false { }
let d = new D; while true { let c = new C; d ! put(c); }
let x = new C; x = null[A]; x.up();
let d = new D; let c = new C; if true { d ! put(c); c = null[A]; } else { c.up(); } c.up();
let d = new D; let c = new C; if true { d ! put(c); } else { } c = null[A]; c.up();";

#[test]
fn branches_and_loops_are_followed(rt: HostRuntime) -> Result<(), Fail> {
    check_refused(&rt, rt.alloc(), HEAD, BAD_FLOW, TAIL)?;
    check_accepted(&rt, rt.alloc(), HEAD, GOOD_FLOW, TAIL)
}

const BAD_BODIES: &str = "S-RETURN «fun g(k: int): int { }»
S-RETURN «fun g(k: int): int { if true { return 1; } }»
S-RETURN «fun g(k: int): int { if true { return 1; } else { } }»
S-RETURN «fun g(k: int): int { while true { return 1; } }»
S-RETURN linear trait A { «def m(): int { return 1; print 1; }» }
S-RETURN fun g(k: int): int { «return true;» }
S-RETURN fun g(k: int): unit { «return k;» }
E-VAR fun g(k: int): int { let j = «this».n; return j; }
E-VAR fun g(k: int): int { let j = take «this».n; return j; }
E-VAR fun g(k: int): int { «this».n = k; return k; }
E-VAR fun g(k: int): int { «this».m(); return k; }
E-COPY linear trait A { def m(): unit { let x = «this»; } }
E-COPY linear trait A { def m(): A { return «this»; } }
E-COPY linear trait A { def m(x: A): A { return («x»); } }
E-MOVED linear trait A { def m(x: A): unit { this.m(«this»); } }
S-READONLY read trait W { n: int; def m(): unit { «this.n = 1;» } }
S-READONLY read trait W { n: int; def m(k: int): unit { if true { «this.n = k;» } } }
E-VAR fun g(k: int): int { return k; print «z»; }
S-STORE read trait W { n: int; def m(): unit { «this.n = true;» } }";

const GOOD_BODIES: &str = "fun g(k: int): int { if k < 1 { return 1; } else { return k; } }
fun g(k: int): int { print 1; return 1; }
fun g(k: int): unit { }
fun g(k: int): unit { return unit; }
local trait A { def m(): A { let x = this; return this; } }
linear trait A { def m(): bool { this.n(); return isnull(this); } def n(): unit { } }
local trait W { n: int; def m(): unit { this.n = 1; } }";

#[test]
fn bodies_return(rt: HostRuntime) -> Result<(), Fail> {
    check_refused(&rt, rt.alloc(), "", BAD_BODIES, MAIN)?;
    check_accepted(&rt, rt.alloc(), "", GOOD_BODIES, MAIN)
}
