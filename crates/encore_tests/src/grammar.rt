// Texts of the whole language: what is read, and where it first fails.

use crate::answer::{check_lines, ended, run, unrun};
use crate::outside::{HELLO, program, run_of};
use enc_lex::lex;
use enc_parse::parse;
use std::alloc::{AllocError, Global};
use std::process::Abort;
use std::test::Fail;

/// Declarations that are read, whatever the checker says of them.
const DECLARATIONS: &str = "
linear trait T { n: int; f: Fut[Par[List[Bestowed[T]]]]; def m(a: bool, b: text): unit { } }
local trait T { }
read trait T { }
subordinate trait T { def m(): int { } def m(): unit { } }
class C = A;
class C = (A or B) and C and (D or E or F);
active class A { n: A and (B or C); def m(x: A): A and B { } }
fun f(): unit { }
fun f(größe: int, 合計: List[int]): bool { }
// nothing but a comment
class a = b; class a = b; class a = b;";

#[test]
fn declarations_are_read(rt: HostRuntime) -> Result<(), Fail> {
    for text in DECLARATIONS.split('\n') {
        check_read(&rt, rt.alloc(), text);
    }
    Ok(())
}

/// Asserts that a text spells a program.
fn check_read(rt: &impl Abort, alloc: Global, text: &str) {
    assert!(rt; parse(alloc, text.as_bytes()).is_ok(), "{text}");
}

/// Statements that are read, whatever the checker says of them.
const STATEMENTS: &str = "let a = new C;
let a = this.n;
let a = take this.n;
let a = b.m();
let a = this.m(1, x);
let a = b ! m(1);
let a = this ! m();
let a = get x;
let a = await x;
let a = each x;
let a = join x;
let a = prune x;
let a = extract x;
let a = bestow x;
let a = lift x;
let a = lift future x;
let a = both x, y;
let a = otherwise x, y;
let a = chain x with f(1);
let a = seq x with f();
let a = b or c;
let a = this == b;
x = 1;
this.n = 1;
x.m();
this.m(x);
x ! m();
this ! m(1, 2);
if a { }
if a { } else { }
while a { }
atomic a { x ! m(); }
split x into y: A, z: B and (C or D);
pack x and y into z { print 1; } else { print 2; }
choose x as A into y;
return unit;
suspend;
print a or b and c == d + e * -f, not (a), [1, 2], this, false, true;
print a != b, a < b, a <= b, a > b, a >= b, a - b, a / b, a % b;
print null[A], empty[int], nil[List[Fut[text]]], nil[A and (B or C)];
print len(x), isnull(x), at(x, 0), append(x, 1), \"t\", unit;";

#[test]
fn statements_are_read(rt: HostRuntime) -> Result<(), Fail> {
    for line in STATEMENTS.split('\n') {
        let text = program(rt.alloc(), line)?;
        check_read(&rt, rt.alloc(), text.as_str());
    }
    Ok(())
}

/// Texts, each behind the place at which nothing goes on.
const WRONG_DECLARATIONS: &str = "1:1 trait T { }
1:8 linear T { }
1:14 linear trait { }
1:9 class C { }
1:11 class C = ;
1:11 class C = int;
1:12 class C = A
1:8 active C
1:14 active class 1
1:7 fun f { }
1:8 fun f(x) : unit { }
1:14 fun f(x: int,)
1:9 fun f() { }
1:14 fun f(): unit;
1:20 linear trait T { x int; }
1:25 linear trait T { x: int }
1:36 linear trait T { def m(): unit { } x: int; }
1:1 let x = 1;
1:7 active
1:13 linear trait
1:21 linear trait T { def
1:29 linear trait T { def m(): un
1:13 class C = (A) and B;
1:18 class C = (A or B
1:22 linear trait T { def : unit { } }
1:23 linear trait T { def m: unit { } }
1:26 linear trait T { def m() { } }
1:27 linear trait T { def m(): { } }
1:31 linear trait T { def m(): unit; }
1:19 linear trait T { m(): unit { } }
1:22 active class A { def def m(): unit { } }
1:25 active class A { def m(k): unit { } }
1:32 active class A { def m(k: int, ): unit { } }
1:36 active class A { def m(): unit { } ; }";

/// The line that tells this place.
fn form_line(alloc: Global, place: &str) -> Result<String, AllocError> {
    format!(in alloc; "p.enc:{place}: P-FORM\n")
}

#[test]
fn wrong_declarations_have_places(rt: HostRuntime) -> Result<(), Fail> {
    let alloc = rt.alloc();
    for row in WRONG_DECLARATIONS.split('\n') {
        let Some((place, text)) = row.split_once(' ') else {
            panic!(rt; "a row without a place")
        };
        let line = form_line(alloc, place)?;
        let outside = run(alloc, run_of(text.as_bytes()))?;
        outside.check(&rt, text, unrun(1, line.as_str()));
    }
    Ok(())
}

/// Statements of `main`, from the second line on, each behind the place at which nothing goes on.
const WRONG_STATEMENTS: &str = "2:5 let = 1;
2:7 let x 1;
2:9 let x = ;
3:1 let x = 1
2:3 x + 1;
2:2 x;
2:3 x.;
2:4 x.m;
2:6 x.m(1;
2:5 x.m(,);
2:7 x.m(1,);
2:6 this = 1;
2:7 this.n;
2:6 this + 1;
2:8 this ! 1();
2:1 1 = x;
2:4 if { }
2:6 if a b
2:15 if a { } else if b { }
2:1 else { }
2:8 while a;
2:8 atomic { }
2:9 split x y
2:15 split x into y, z
2:17 split x into y: int
2:8 pack x into z
2:25 pack x and y into z { } }
2:15 choose x as T y
2:7 return;
2:6 print;
2:9 print 1,;
2:9 suspend 1;
2:12 let x = get;
2:20 let x = lift future;
2:15 let x = both a;
2:17 let x = chain f g()
2:20 let x = seq p with 1
2:13 let x = new new
2:14 let x = take x
2:14 let x = this.1
2:12 let x = y.m;
2:13 let x = y ! 1
2:7 print get f;
2:9 print 1 2;
2:13 print a < b < c;
2:11 print not not a;
2:9 print - - a;
2:8 print ();
2:8 print [];
2:9 print (1;
2:9 print [1;
2:11 print null(A);
2:11 print len x;
2:11 print at(x);
2:17 print append(x, );
2:8 print x.y;
2:8 print f(1);
2:11 print nil[];
2:15 print nil[Fut int];
2:13 print nil[(A)];
2:13 print nil[A or B];
2:16 print nil[A and];
2:8 print a.b and c;
2:12 print a or ;
2:12 print a or or b;
2:7 print or a;
2:16 x = a or (b or );
2:9 if a or { }
2:13 print a and ;
2:13 print a and or b;
2:7 print and a;
2:20 let x = a and b and;
2:12 print 1 == ;
2:12 print 1 <= >= 2;
2:11 print 1 < = 2;
2:9 print 1 = 2;
2:7 print == 1;
2:11 print 1 + ;
2:11 print 1 - * 2;
2:11 print 1 + + 2;
2:13 print 1 - - - 2;
2:7 print + 1;
2:11 print 1 * ;
2:11 print 1 / % 2;
2:13 return [1 % ];
2:7 print * 1;
2:9 print - not a;
2:11 print not - a;
2:10 print not;";

#[test]
fn wrong_statements_have_places(rt: HostRuntime) -> Result<(), Fail> {
    let alloc = rt.alloc();
    for row in WRONG_STATEMENTS.split('\n') {
        let Some((place, lines)) = row.split_once(' ') else {
            panic!(rt; "a row without a place")
        };
        let line = form_line(alloc, place)?;
        check_lines(&rt, alloc, lines, unrun(1, line.as_str()))?;
    }
    Ok(())
}

/// The first text, the second one so many times, and the third.
fn repeated(
    alloc: Global,
    head: &str,
    part: &str,
    times: usize,
    tail: &str,
) -> Result<String, AllocError> {
    let mut text = String::from_str(alloc, head)?;
    for _ in 0..times {
        text.push_str(part)?;
    }
    text.push_str(tail)?;
    Ok(text)
}

/// The statements with so many parts are read, and with one more they pass a limit at this place.
fn check_limit(
    rt: &impl Abort,
    alloc: Global,
    texts: [&str; 3],
    times: usize,
    line: &str,
) -> Result<(), AllocError> {
    let [head, part, tail] = texts;
    let most = repeated(alloc, head, part, times, tail)?;
    let read = program(alloc, most.as_str())?;
    check_read(rt, alloc, read.as_str());
    let more = repeated(alloc, head, part, times.saturating_add(1), tail)?;
    check_lines(rt, alloc, more.as_str(), unrun(1, line))
}

#[test]
fn limits_of_expressions(rt: HostRuntime) -> Result<(), Fail> {
    let alloc = rt.alloc();
    check_limit(
        &rt,
        alloc,
        ["print 1", "+1", ";"],
        256,
        "p.enc:2:520: P-LIMIT\n",
    )?;
    check_limit(
        &rt,
        alloc,
        ["print -1", "+1", ", 1 + 1;"],
        255,
        "p.enc:2:519: P-LIMIT\n",
    )?;
    check_limit(
        &rt,
        alloc,
        ["print ", "n", ";"],
        255,
        "p.enc:2:7: P-LIMIT\n",
    )?;
    Ok(())
}

#[test]
fn limits_of_brackets(rt: HostRuntime) -> Result<(), Fail> {
    let alloc = rt.alloc();
    let deepest = brackets(alloc, 254)?;
    check_lines(&rt, alloc, deepest.as_str(), ended("1\n", 3))?;
    let deeper = brackets(alloc, 255)?;
    check_lines(
        &rt,
        alloc,
        deeper.as_str(),
        unrun(1, "p.enc:2:261: P-LIMIT\n"),
    )?;
    let closing = repeated(alloc, "", "}", 254, "")?;
    let blocks = repeated(alloc, "", "if true {", 254, closing.as_str())?;
    check_lines(&rt, alloc, blocks.as_str(), unrun(1, "p.enc:1:1: STAGE\n"))?;
    let more = repeated(alloc, "", "if true {", 255, closing.as_str())?;
    check_lines(
        &rt,
        alloc,
        more.as_str(),
        unrun(1, "p.enc:2:2295: P-LIMIT\n"),
    )?;
    Ok(())
}

/// Prints a number with so many brackets round it.
fn brackets(alloc: Global, depth: usize) -> Result<String, AllocError> {
    let tail = repeated(alloc, "1", ")", depth, ";")?;
    repeated(alloc, "print ", "(", depth, tail.as_str())
}

#[test]
fn limits_of_variables(rt: HostRuntime) -> Result<(), Fail> {
    let alloc = rt.alloc();
    check_limit(
        &rt,
        alloc,
        ["", "let v = 1;\n", ""],
        254,
        "p.enc:256:5: P-LIMIT\n",
    )?;
    let blocks = repeated(alloc, "", "if true { let v = 1; }\n", 300, "")?;
    check_lines(&rt, alloc, blocks.as_str(), unrun(1, "p.enc:1:1: STAGE\n"))?;
    let second = "pack x and y into z { } else { let a = 1; }";
    let fits = repeated(alloc, "", "let v = 1;\n", 253, second)?;
    let fits = program(alloc, fits.as_str())?;
    check_read(&rt, alloc, fits.as_str());
    let first = "pack x and y into z { let a = 1; } else { }";
    let passes = repeated(alloc, "", "let v = 1;\n", 253, first)?;
    check_lines(
        &rt,
        alloc,
        passes.as_str(),
        unrun(1, "p.enc:255:27: P-LIMIT\n"),
    )?;
    Ok(())
}

/// The declarations with so many parts are read, and with one more they pass a limit at this place.
fn check_whole_limit(
    rt: &impl Abort,
    alloc: Global,
    texts: [&str; 3],
    times: usize,
    line: &str,
) -> Result<(), AllocError> {
    let [head, part, tail] = texts;
    let most = repeated(alloc, head, part, times, tail)?;
    check_read(rt, alloc, most.as_str());
    let more = repeated(alloc, head, part, times.saturating_add(1), tail)?;
    let refused = run(alloc, run_of(more.as_bytes()))?;
    refused.check(rt, "one part more", unrun(1, line));
    Ok(())
}

#[test]
fn limits_of_declarations(rt: HostRuntime) -> Result<(), Fail> {
    let alloc = rt.alloc();
    let names = ["", "class a=b;\n", ""];
    check_whole_limit(&rt, alloc, names, 65_535, "p.enc:65536:7: P-LIMIT\n")?;
    let groups = ["class C = A", " and A", ";"];
    check_whole_limit(&rt, alloc, groups, 63, "p.enc:1:395: P-LIMIT\n")?;
    let pairs = ["class C = (A or B)", " and (A or B)", ";"];
    check_whole_limit(&rt, alloc, pairs, 63, "p.enc:1:843: P-LIMIT\n")?;
    let traits = ["class C = (A", " or A", ");"];
    check_whole_limit(&rt, alloc, traits, 63, "p.enc:1:332: P-LIMIT\n")?;
    let written = ["fun f(x: (A", " or A", ")): unit { }"];
    check_whole_limit(&rt, alloc, written, 63, "p.enc:1:331: P-LIMIT\n")?;
    let wide = repeated(alloc, "fun f(x: A", " and A", 70, "): unit { }")?;
    check_read(&rt, alloc, wide.as_str());
    Ok(())
}

/// Texts that go deep, each as what stands before, what is opened again and again, what stands inside,
/// what closes and what stands behind; how often it may be opened; and the column at which once more
/// passes the limit.
const DEEP: &[([&str; 5], usize, u32)] = &[
    (["fun f(): unit { print ", "-(", "1", ")", "; }"], 255, 534),
    (["fun f(): unit { print ", "1+(", "1", ")", "; }"], 255, 790),
    (
        ["fun f(): unit { print ", "at(x, ", "1", ")", "; }"],
        255,
        1555,
    ),
    (
        ["fun f(): unit { print ", "append(", "x", ", 1)", "; }"],
        255,
        1814,
    ),
    (["fun f(): unit { print ", "[", "1", "]", "; }"], 255, 278),
    (
        ["fun f(): unit { x ! m(", "len(", "1", ")", "); }"],
        254,
        1042,
    ),
    (
        ["fun f(): unit { x = nil[", "Bestowed[", "int", "]", "]; }"],
        254,
        2319,
    ),
    (
        ["fun f(k: ", "List[", "A and B", "]", "): unit { }"],
        255,
        1289,
    ),
    (["fun f(): ", "Fut[", "int", "]", " { }"], 256, 1037),
    (
        ["active class A { n: ", "Par[", "int", "]", "; }"],
        255,
        1044,
    ),
    (["fun f(): unit { ", "while a { ", "", "} ", "}"], 255, 2575),
    (
        ["fun f(): unit { ", "if a { } else { ", "", "} ", "}"],
        255,
        4102,
    ),
    (
        [
            "fun f(): unit { ",
            "pack x and y into z { } else { ",
            "",
            "} ",
            "}",
        ],
        255,
        7942,
    ),
    (
        ["fun f(): unit { ", "atomic a { ", "", "} ", "}"],
        255,
        2831,
    ),
];

#[test]
fn texts_can_go_deep(rt: HostRuntime) -> Result<(), Fail> {
    let alloc = rt.alloc();
    for &(texts, times, column) in DEEP {
        let [head, open, inside, close, tail] = texts;
        let closing = repeated(alloc, inside, close, times, tail)?;
        let line = format!(in alloc; "p.enc:1:{column}: P-LIMIT\n")?;
        let most = repeated(alloc, head, open, times, closing.as_str())?;
        check_read(&rt, alloc, most.as_str());
        let more = repeated(alloc, head, open, times.saturating_add(1), closing.as_str())?;
        let outside = run(alloc, run_of(more.as_bytes()))?;
        outside.check(&rt, open, unrun(1, line.as_str()));
    }
    Ok(())
}

#[test]
fn the_earlier_failure_counts(rt: HostRuntime) -> Result<(), Fail> {
    let alloc = rt.alloc();
    let limit_first = repeated(alloc, "print ", "(", 255, ";")?;
    check_lines(
        &rt,
        alloc,
        limit_first.as_str(),
        unrun(1, "p.enc:2:261: P-LIMIT\n"),
    )?;
    let form_first = repeated(alloc, "print ;", "(", 255, ";")?;
    check_lines(
        &rt,
        alloc,
        form_first.as_str(),
        unrun(1, "p.enc:2:7: P-FORM\n"),
    )?;
    let at_one_token = repeated(alloc, "print 1", "+1", 255, " < 1 < 1;")?;
    check_lines(
        &rt,
        alloc,
        at_one_token.as_str(),
        unrun(1, "p.enc:2:523: P-FORM\n"),
    )?;
    let token_first = repeated(alloc, "print 1 2;", " ", 3, "\"")?;
    check_lines(
        &rt,
        alloc,
        token_first.as_str(),
        unrun(1, "p.enc:2:14: P-TOKEN\n"),
    )?;
    Ok(())
}

/// Declarations, each on its line, with something of each kind in them.
const WHOLE: &str =
    "active class Main { n: Fut[A and (B or C)]; def main(args: List[int], k: int): unit { let a = this.n; let b = x ! m(1, [2]); if not (a == 1) { } else { while true { } } atomic a { } split x into y: A, z: B; pack y and z into w { } else { } choose x as A into v; let c = chain f with g(1); let d = lift future f; print at(a, 0), null[A]; this.n = len(a); return -a; suspend; } }
active class D { def m(): unit { x.m(1, y); this.m(); x ! m(1, 2); this ! m(); x = 1 + 2 * 3; this.n = a or b and not c; let a = y.m(this, 2); let b = this.m(); let c = this ! m(); let d = new C; let e = take this.n; let f = get x; let g = await x; } }
active class D { def m(): unit { let h = each [1, 2]; let i = join p; let j = prune p; let k = extract p; let l = bestow x; let n = lift 1; let o = lift future x; let q = both p, r; let s = otherwise p, r; let t = seq p with f(1, 2); let u = chain x with f(); atomic this { x ! m(); suspend; } } }
active class D { def m(): unit { split x into y: A and (B or C), z: D and E; pack y and z into w { print 1; } else { print 2, \"t\"; } choose w as A into v; if a < b { let k = append(x, 1); } else { let k = isnull(x); } while (a) { x = empty[int]; x = nil[List[text]]; } return unit; } }
fun f(k: int, b: (A or B) and C): Par[bool] { let x = k; return [x, -k]; }
linear trait T { n: int; f: Bestowed[L]; def m(a: text): T { return this; } def n(): unit { } }
local trait L { }
read trait R { }
subordinate trait S { }
class C = (A or B or D) and E and F;";

#[test]
fn texts_can_end_anywhere(rt: HostRuntime) -> Result<(), Fail> {
    for text in WHOLE.lines() {
        check_ends(&rt, rt.alloc(), text)?;
    }
    Ok(())
}

/// Asserts that a declaration is read, and that it ends too early behind each token but its last.
fn check_ends(rt: &impl Abort, alloc: Global, text: &str) -> Result<(), Fail> {
    check_read(rt, alloc, text);
    let tokens = lex(alloc, text.as_bytes())?;
    for token in tokens.as_slice() {
        let end = token.span.end as usize;
        if end == text.len() {
            break;
        }
        let Some(front) = text.get(..end) else {
            panic!(rt; "a front part")
        };
        let line = format!(in alloc; "p.enc:1:{}: P-FORM\n", end.saturating_add(1))?;
        run(alloc, run_of(front.as_bytes()))?.check(rt, front, unrun(1, line.as_str()));
    }
    Ok(())
}

#[test]
fn what_stands_behind_a_program(rt: HostRuntime) -> Result<(), Fail> {
    let alloc = rt.alloc();
    let marked = repeated(alloc, HELLO, "!", 1, "")?;
    let outside = run(alloc, run_of(marked.as_bytes()))?;
    outside.check(&rt, "a mark behind", unrun(1, "p.enc:1:70: P-FORM\n"));
    let cut = run(alloc, run_of(&HELLO.as_bytes()[..59]))?;
    cut.check(&rt, "the front part", unrun(1, "p.enc:1:60: P-FORM\n"));
    Ok(())
}
