// Which texts are programs, and what these print.

use crate::answer::{check_lines, ended, run, run_lines, unrun};
use crate::outside::{HELLO, run_of};
use std::alloc::{AllocError, Global};
use std::test::Fail;

/// The tokens of a program that prints one line.
const TOKENS: [&str; 22] = [
    "active", "class", "Main", "{", "def", "main", "(", "args", ":", "List", "[", "int", "]", ")",
    ":", "unit", "{", "print", "\"hi\"", ";", "}", "}",
];

fn spaced(alloc: Global, space: &str) -> Result<String, AllocError> {
    let mut text = String::new(alloc);
    for token in TOKENS {
        text.push_str(space)?;
        text.push_str(token)?;
    }
    text.push_str(space)?;
    Ok(text)
}

#[test]
fn takes_blanks_between_tokens(rt: HostRuntime) -> Result<(), Fail> {
    let alloc = rt.alloc();
    for space in [" ", "\t", "\r\n", " \t\r\n\n\r\t "] {
        let text = spaced(alloc, space)?;
        run(alloc, run_of(text.as_bytes()))?.check(&rt, "blanks", ended("hi\n", 3));
    }
    Ok(())
}

#[test]
fn takes_no_other_bytes_between_tokens(rt: HostRuntime) -> Result<(), Fail> {
    let alloc = rt.alloc();
    for (space, said) in [
        ("", "p.enc:1:1: P-FORM\n"),
        ("\u{c}", "p.enc:1:1: P-TOKEN\n"),
        ("\u{a0}", "p.enc:1:1: P-TOKEN\n"),
        ("\u{feff}", "p.enc:1:1: P-TOKEN\n"),
    ] {
        let text = spaced(alloc, space)?;
        run(alloc, run_of(text.as_bytes()))?.check(&rt, "no blanks", unrun(1, said));
    }
    Ok(())
}

#[test]
fn needs_no_blanks_at_symbols(rt: HostRuntime) -> Result<(), Fail> {
    let dense = "active class Main{def main(args:List[int]):unit{print\"hi\";}}";
    let answer = run(rt.alloc(), run_of(dense.as_bytes()))?;
    answer.check(&rt, dense, ended("hi\n", 3));
    Ok(())
}

/// The statements of a program, and what it prints. `¶` stands for the end of a line.
const PRINTED: &str = r#"print ""; => ¶
print "a", "b" , "","c"; => abc¶
print "\\n"; => \n¶
print "} }", "; print 1;"; => } }; print 1;¶
print 1, 2, "x", 3; => 12x3¶
print 1 + 2; => 3¶
print 5 - 7; => -2¶
print 1+2,3-4,2*2; => 3-14¶
let x = 0 - 5; let y = x; print y * 3, x - y, x + y; => -150-10¶
let x = 3; let y = x - 10; print y * y, " ", x * y; => 49 -21¶
print 9223372036854775807; => 9223372036854775807¶
print 007, 00, 0009223372036854775807; => 709223372036854775807¶
print 0 - 9223372036854775807; => -9223372036854775807¶
let k = 0 - 9223372036854775807; let m = k - 1; print m; => -9223372036854775808¶
let k = 0 - 4611686018427387904; print k * 2; => -9223372036854775808¶
print 4611686018427387904 + 4611686018427387903; => 9223372036854775807¶
print 3037000499 * 3037000499; => 9223372030926249001¶
let _ = 1; let A1_ = 2; let a1_ = 3; print _, A1_, a1_; => 123¶
let Main = 1; let main = 2; let While = 3; print Main * main, While; => 23¶
let a=1;let b=a+a;let c=b*b;print c; => 4¶
print "grüße ✓ 𝄞"; => grüße ✓ 𝄞¶
print "a\\b"; => a\b¶
let é = 1; => 
print (1); => 1¶
print (1 + 2); => 3¶
let x = (1); => 
print 1; // last => 1¶
// first¶print 1; => 1¶
let é = 2; print ((é)), (é * 3), (é) - ((1)); => 261¶"#;

/// The statements of a program, what it prints before it traps, and the place of the trap.
const TRAPPED: &str = r#"print 9223372036854775807 + 1; =>  => 2:1
print 9223372036854775807 * 2; print 3; =>  => 2:1
let k = 9223372036854775807; print k + 1; =>  => 2:30
let k = 0 - 9223372036854775807;¶let m = k - 1;¶let n = m - 1; =>  => 4:1
let k = 0 - 9223372036854775807;¶let m = k - 1;¶ print 0 - m; =>  => 4:2
let k = 0 - 9223372036854775807;¶let m = k - 1;¶let j = 0 - 1;¶print m * j; =>  => 5:1
print 5;¶print 1, 9223372036854775807 + 1, 2; => 5¶ => 3:1
print "ü"; print 9223372036854775807 + 1; => ü¶ => 2:13"#;

/// Statements that are refused, each behind the rule and the place.
const REFUSED: &str = r#"E-VAR 2:7 print x;
E-VAR 2:7 print x; let x = 1;
E-VAR 2:9 let x = x;
E-VAR 2:13 let x = 1 + x;
S-LET 2:12 let x = 1; let x = 2;
S-LET 2:1 let args = 1;
S-PRINT 2:1 print args;
E-VAR 2:18 let a = 1; print A;
P-FORM 2:5 let while = 1;
P-FORM 2:5 let true = 1;
S-PRINT 2:1 print this;
P-FORM 2:5 let 1x = 2;
P-FORM 2:6 let a-b = 1;
P-TOKEN 2:7 print 9223372036854775808;
STAGE 1:1 print 1 + 2 + 3;
STAGE 1:1 print -1;
STAGE 1:1 let x = -1;
P-FORM 2:10 print 1 +;
P-FORM 2:9 print 1 2;
STAGE 1:1 print 7 / 2;
P-FORM 2:8 print 1.5;
P-TOKEN 2:7 print ١;
P-TOKEN 2:7 print "a;
P-TOKEN 2:7 print "a\q";
P-TOKEN 2:7 print "a\";
E-TYPE 2:7 print "a" + "b";
STAGE 1:1 let x = "a";
P-FORM 2:10 print "a""b";
P-FORM 2:6 print;
P-FORM 2:9 print 1,;
P-FORM 2:7 print , 1;
P-FORM 3:1 print 1
P-FORM 2:9 print 1;;
P-FORM 2:7 let x == 1;
STAGE 1:1 print 1 == 1;
P-FORM 2:10 let x = 1, y = 2;
STAGE 1:1 let x = 1; x = 2;
S-RETURN 2:1 return 1;
P-FORM 2:7 Print 1;
STAGE 1:1 let x = new Main;
P-TOKEN 2:7 print "a¶b";"#;

/// Texts that are refused, each behind the rule and the place.
const REFUSED_TEXTS: &str = r#"K-MAIN 1:1 active class Main { }
P-FORM 1:12 class Main { def main(args: List[int]): unit { } }
K-MAIN 1:1 active class main { def main(args: List[int]): unit { } }
K-MAIN 1:1 active class Main { def run(args: List[int]): unit { } }
K-MAIN 1:1 active class Main { def main(): unit { } }
K-MAIN 1:1 active class Main { def main(args: List[bool]): unit { } }
K-MAIN 1:1 active class Main { def main(args: int): unit { } }
K-MAIN 1:1 active class Main { def main(args: List[int]): int { } }
STAGE 1:1 active class Main { count: int; def main(args: List[int]): unit { } }
STAGE 1:1 active class Main { def main(args: List[int]): unit { } def more(): unit { } }
STAGE 1:1 active class Main { def main(args: List[int]): unit { } } active class More { }
P-FORM 1:59 active class Main { def main(args: List[int]): unit { } } }
P-FORM 1:59 active class Main { def main(args: List[int]): unit { } } 1
P-FORM 1:1 activeclass Main { def main(args: List[int]): unit { } }"#;

/// The text with its lines ended where the table says.
fn unfolded(alloc: Global, text: &str) -> Result<String, AllocError> {
    let mut lines = String::new(alloc);
    for (at, part) in text.split('¶').enumerate() {
        if at > 0 {
            lines.push('\n')?;
        }
        lines.push_str(part)?;
    }
    Ok(lines)
}

#[test]
fn prints(rt: HostRuntime) -> Result<(), Fail> {
    let alloc = rt.alloc();
    for case in PRINTED.lines() {
        let Some((lines, output)) = case.split_once(" => ") else {
            panic!(rt; "a case")
        };
        let lines = unfolded(alloc, lines)?;
        let output = unfolded(alloc, output)?;
        let answer = run_lines(alloc, lines.as_str())?;
        answer.check_written(&rt, case, 0, output.as_str(), "");
    }
    Ok(())
}

#[test]
fn prints_escapes(rt: HostRuntime) -> Result<(), Fail> {
    let escapes = "print \"a\\nb\\tc\\\\d\\\"e\";";
    check_lines(&rt, rt.alloc(), escapes, ended("a\nb\tc\\d\"e\n", 3))?;
    Ok(())
}

#[test]
fn stops_where_a_number_is_too_large(rt: HostRuntime) -> Result<(), Fail> {
    let alloc = rt.alloc();
    for case in TRAPPED.lines() {
        let Some((lines, rest)) = case.split_once(" => ") else {
            panic!(rt; "a case")
        };
        let Some((output, place)) = rest.split_once(" => ") else {
            panic!(rt; "a case")
        };
        let lines = unfolded(alloc, lines)?;
        let output = unfolded(alloc, output)?;
        let said = format!(in alloc; "p.enc:{place}: OVERFLOW in actor 0\n")?;
        let answer = run_lines(alloc, lines.as_str())?;
        answer.check_written(&rt, case, 3, output.as_str(), said.as_str());
    }
    Ok(())
}

/// The rule, the place and the text of a row.
fn parts_of(row: &str) -> Option<(&str, &str, &str)> {
    let (rule, rest) = row.split_once(' ')?;
    let (place, text) = rest.split_once(' ')?;
    Some((rule, place, text))
}

#[test]
fn refuses_statements(rt: HostRuntime) -> Result<(), Fail> {
    let alloc = rt.alloc();
    for row in REFUSED.lines() {
        let Some((rule, place, text)) = parts_of(row) else {
            panic!(rt; "a row")
        };
        let lines = unfolded(alloc, text)?;
        let said = format!(in alloc; "p.enc:{place}: {rule}\n")?;
        check_lines(&rt, alloc, lines.as_str(), unrun(1, said.as_str()))?;
    }
    Ok(())
}

#[test]
fn refuses_texts(rt: HostRuntime) -> Result<(), Fail> {
    let alloc = rt.alloc();
    for row in REFUSED_TEXTS.lines() {
        let Some((rule, place, text)) = parts_of(row) else {
            panic!(rt; "a row")
        };
        let said = format!(in alloc; "p.enc:{place}: {rule}\n")?;
        run(alloc, run_of(text.as_bytes()))?.check(&rt, text, unrun(1, said.as_str()));
    }
    Ok(())
}

/// The rule and the column at which the first `end` bytes of the program of one line are refused.
fn failure_of(end: u32) -> (&'static str, u32) {
    match end {
        0 => ("K-MAIN", 1),
        1..=5 => ("P-FORM", 1),
        7..=11 => ("P-FORM", 8),
        61..=63 => ("P-TOKEN", 61),
        _ => ("P-FORM", end.saturating_add(1)),
    }
}

#[test]
fn refuses_each_front_part(rt: HostRuntime) -> Result<(), Fail> {
    let alloc = rt.alloc();
    for end in 0..69 {
        let (rule, column) = failure_of(end);
        let said = format!(in alloc; "p.enc:1:{column}: {rule}\n")?;
        let Some(front) = HELLO.get(..end as usize) else {
            panic!(rt; "a front part")
        };
        run(alloc, run_of(front.as_bytes()))?.check(&rt, front, unrun(1, said.as_str()));
    }
    Ok(())
}

#[test]
fn refuses_bytes_that_are_no_characters(rt: HostRuntime) -> Result<(), Fail> {
    let alloc = rt.alloc();
    let (before, after) = HELLO.split_at(61);
    assert_eq!(rt; after, "hi\"; } }");
    let mut text = Vec::from_slice(alloc, before.as_bytes())?;
    text.push(255)?;
    text.extend_from_slice(after.as_bytes())?;
    run(alloc, run_of(&text))?.check(&rt, "no characters", unrun(1, "p.enc:1:62: P-TOKEN\n"));
    run(alloc, run_of(&[255]))?.check(&rt, "one byte", unrun(1, "p.enc:1:1: P-TOKEN\n"));
    Ok(())
}

/// Lines that bind and print a variable whose name has so many bytes.
fn with_name_of(alloc: Global, len: usize) -> Result<String, AllocError> {
    let mut name = String::new(alloc);
    for _ in 0..len {
        name.push('n')?;
    }
    let name = name.as_str();
    format!(in alloc; "let {name} = 7; print {name};")
}

#[test]
fn counts_the_bytes_of_names(rt: HostRuntime) -> Result<(), Fail> {
    let alloc = rt.alloc();
    let longest = with_name_of(alloc, 255)?;
    check_lines(&rt, alloc, longest.as_str(), ended("7\n", 4))?;
    let longer = with_name_of(alloc, 256)?;
    check_lines(
        &rt,
        alloc,
        longer.as_str(),
        unrun(1, "p.enc:2:5: P-LIMIT\n"),
    )?;
    Ok(())
}

/// Lines that bind so many variables, and print one of them.
fn with_variables(alloc: Global, count: u32) -> Result<String, AllocError> {
    let mut lines = String::new(alloc);
    for number in 0..count {
        let line = format!(in alloc; "let v{number} = {number}; ")?;
        lines.push_str(line.as_str())?;
    }
    lines.push_str("print v253;")?;
    Ok(lines)
}

#[test]
fn counts_variables(rt: HostRuntime) -> Result<(), Fail> {
    let alloc = rt.alloc();
    let most = with_variables(alloc, 254)?;
    check_lines(&rt, alloc, most.as_str(), ended("253\n", 257))?;
    let more = with_variables(alloc, 255)?;
    check_lines(
        &rt,
        alloc,
        more.as_str(),
        unrun(1, "p.enc:2:3849: P-LIMIT\n"),
    )?;
    Ok(())
}
