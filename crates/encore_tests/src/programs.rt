// Programs of the whole language: where the checker refuses them, and which keep all rules.

use crate::answer::{run, unrun};
use crate::outside::run_of;
use std::test::Fail;

/// Programs that break a rule, each with the line that is told.
const BROKEN: &[(&str, &str)] = &[
    (
        "linear trait Count { n: int; def up(): unit { let k = this.n; this.n = k + 1; } def now(): int { let k = this.n; return k; } }
class Counter = Count;
active class Adder { def put(c: Counter): unit { c.up(); } }
active class Main { def main(args: List[int]): unit {
let a = new Adder; let c = new Counter; a ! put(c);
c.up();
} }",
        "p.enc:6:1: E-MOVED\n",
    ),
    (
        "local trait Note { n: int; def set(k: int): unit { this.n = k; print \"note \", k; } }
class Book = Note;
active class Peer { def see(b: Bestowed[Note]): unit { b ! set(7); } def hold(x: Note): unit { } }
active class Main { def main(args: List[int]): unit {
let p = new Peer; let x = new Book;
p ! hold(x);
} }",
        "p.enc:6:1: S-SENDABLE\n",
    ),
    (
        "linear trait Build { n: int; def fill(k: int): unit { this.n = k; } }
read trait Config { n: int; def value(): int { this.n = 1; return 1; } }
class Box = (Build or Config);
active class Peer { def see(c: Config): unit { let k = c.value(); print k; } }
active class Main { def main(args: List[int]): unit {
let b = new Box; b.fill(7); choose b as Config into c;
let p = new Peer; let q = new Peer; let r = new Peer; p ! see(c); q ! see(c); r ! see(c);
} }",
        "p.enc:2:48: S-READONLY\n",
    ),
    (
        "subordinate trait Node { n: int; }
class Cell = Node;
linear trait Own { c: Node; def keep(x: Node): unit { this.c = x; } def grow(): unit { let x = new Cell; this.keep(x); } }
class Owner = Own;
active class Main { def main(args: List[int]): unit {
let o = new Owner; o.grow(); print \"ok\";
let x = new Cell; o.keep(x);
} }",
        "p.enc:7:19: S-INNER\n",
    ),
    (
        "linear trait Count { n: int; def up(): unit { let k = this.n; this.n = k + 1; } def now(): int { let k = this.n; return k; } }
class Counter = Count;
active class Adder { def put(c: Counter): unit { c.up(); } }
active class Main { def main(args: List[int]): unit {
let a = new Adder; let c = new Counter; if true { a ! put(c); } else { }
c.up();
} }",
        "p.enc:6:1: E-MOVED\n",
    ),
    (
        "linear trait Count { n: int; def up(): unit { let k = this.n; this.n = k + 1; } def now(): int { let k = this.n; return k; } }
class Counter = Count;
active class Adder { def put(c: Counter): unit { c.up(); } }
active class Main { def main(args: List[int]): unit {
let a = new Adder; let c = new Counter; while true { a ! put(c); }
} }",
        "p.enc:5:41: S-LOOP\n",
    ),
];

#[test]
fn programs_break_rules(rt: HostRuntime) -> Result<(), Fail> {
    for &(text, line) in BROKEN {
        run(rt.alloc(), run_of(text.as_bytes()))?.check(&rt, text, unrun(1, line));
    }
    Ok(())
}

/// Programs that keep all rules, and are of forms that don't run yet.
const KEPT: &[&str] = &[
    "linear trait Count { n: int; def up(): unit { let k = this.n; this.n = k + 1; } def now(): int { let k = this.n; return k; } }
class Counter = Count;
active class Adder { def put(c: Counter, next: Adder): unit { c.up(); if isnull(next) { let k = c.now(); print k; } else { next ! put(c, null[Adder]); } } }
active class Main { def main(args: List[int]): unit {
let a = new Adder; let b = new Adder; let c = new Counter; c.up(); a ! put(c, b);
} }",
    "local trait Note { n: int; def set(k: int): unit { this.n = k; print \"note \", k; } }
class Book = Note;
active class Peer { def see(b: Bestowed[Note]): unit { b ! set(7); } def hold(x: Note): unit { } }
active class Main { def main(args: List[int]): unit {
let p = new Peer; let x = new Book;
let b = bestow x; p ! see(b);
} }",
    "linear trait A { n: int; def a(): unit { let k = this.n; this.n = k + 1; print \"a\"; } }
linear trait B { n: int; def b(): unit { let k = this.n; this.n = k + 10; print \"b\"; } }
class P = A and B;
active class Peer { def go(x: A): unit { x.a(); } }
active class Main { def main(args: List[int]): unit {
let p = new P; let q = new Peer; split p into x: A, y: B; q ! go(x); y.b();
let s = new P; let r = new P; split s into t: A, w: B; split r into u: A, v: B;
pack t and v into z { print \"same\"; } else { print \"other\"; t.a(); pack u and v into o { o.b(); o.a(); } else { } }
} }",
    "linear trait Build { n: int; def fill(k: int): unit { this.n = k; } }
read trait Config { n: int; def value(): int { let k = this.n; return k; } }
class Box = (Build or Config);
active class Peer { def see(c: Config): unit { let k = c.value(); print k; } }
active class Main { def main(args: List[int]): unit {
let b = new Box; b.fill(7); choose b as Config into c;
let p = new Peer; let q = new Peer; let r = new Peer; p ! see(c); q ! see(c); r ! see(c);
} }",
    "subordinate trait Node { n: int; }
class Cell = Node;
linear trait Own { c: Node; def keep(x: Node): unit { this.c = x; } def grow(): unit { let x = new Cell; this.keep(x); } }
class Owner = Own;
active class Main { def main(args: List[int]): unit {
let o = new Owner; o.grow(); print \"ok\";
} }",
    "active class Tick { def go(): int { return 1; } }
active class Out { def say(t: text): unit { let k = new Tick; let f = k ! go(); let n = await f; print t; } }
active class Peer { def run(o: Out, t: text): unit { atomic o { o ! say(t); o ! say(t); o ! say(t); } } }
active class Main { def main(args: List[int]): unit {
let o = new Out; let p = new Peer; let q = new Peer; p ! run(o, \"A\"); q ! run(o, \"B\");
} }",
    "fun twice(k: int): int { return k * 2; }
active class Main { def main(args: List[int]): unit {
let p = each [1, 2, 3, 4]; let q = seq p with twice(); let xs = extract q;
print at(xs, 0), \" \", at(xs, 1), \" \", at(xs, 2), \" \", at(xs, 3);
let e = empty[int]; let o = otherwise e, p; let ys = extract o; let r = prune e; let zs = extract r; print len(ys), \" \", len(zs);
} }",
    "active class Peer { def ask(p: Peer): int { let f = p ! back(this); let k = get f; return k; } def back(p: Peer): int { let f = p ! one(); let k = get f; return k; } def one(): int { return 1; } }
active class Main { def main(args: List[int]): unit {
let a = new Peer; let b = new Peer; a ! ask(b);
} }",
    "active class Main { def go(): unit { this.go(); } def main(args: List[int]): unit {
this.go();
} }",
    "fun inc(k: int): int { return k + 1; }
active class Src { def one(): int { return 1; } }
active class Main { def main(args: List[int]): unit {
let s = new Src; let f = s ! one(); let g = chain f with inc(); let k = await g; print k;
} }",
];

#[test]
fn programs_keep_rules(rt: HostRuntime) -> Result<(), Fail> {
    for &text in KEPT {
        let answer = run(rt.alloc(), run_of(text.as_bytes()))?;
        answer.check(&rt, text, unrun(1, "p.enc:1:1: STAGE\n"));
    }
    Ok(())
}
