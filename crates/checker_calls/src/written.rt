// Names, written types, and the rules of declarations.

use crate::fixture::{pair_of, program, refused, stmts_of};
use checker_tests::marked::unmarked;
use enc_ast::{
    Decl, ExprForm, Fail as Refusal, GroupText, Program, Reject, Row, Rule, SourceForm, Span,
    StmtForm, TypeText, Word,
};
use enc_decls::judge;
use enc_modes::{Alt, Cap, Mode, Shared, Ty};
use enc_parse::parse;
use enc_premises::demand;
use enc_types::{Meaning, Names, Places, body_types, local_of};
use std::alloc::{AllocError, Global};
use std::test::Fail;

#[test]
fn premises_that_fail_are_refused(rt: HostRuntime) {
    let span = Span { start: 3, end: 7 };
    let rule = Rule::SLet;
    assert_eq!(rt; demand(rule, span, true), Ok(()));
    let refusal = Refusal::Reject(Reject { rule, span });
    assert_eq!(rt; demand(rule, span, false), Err(refusal));
}

#[test]
fn words_have_places(rt: HostRuntime) -> Result<(), Fail> {
    let alloc = rt.alloc();
    let mut places = Places::new(alloc);
    assert_eq!(rt; places.len(), 0);
    for word in ["a", "b", "a", "c"] {
        places.add(&Word::copy_of(alloc, word)?)?;
    }
    assert_eq!(rt; places.len(), 4);
    assert_eq!(rt; places.find("a"), Some(0));
    assert_eq!(rt; places.find("c"), Some(3));
    assert_eq!(rt; places.find("d"), None);
    assert!(rt; places.has("b") && !places.has("d"));
    Ok(())
}

/// The names of the declarations of all tests.
fn names(alloc: Global) -> Result<Names, Fail> {
    let program = program(alloc, "")?;
    Ok(Names::of(alloc, program.decls.as_slice())?)
}

/// A trait as it stands in types.
fn alt(number: u32, mode: Mode) -> Alt {
    Alt { number, mode }
}

/// The type of one trait.
fn one(alloc: Global, alt: Alt) -> Result<Ty, AllocError> {
    Ok(Ty::Cap(Cap::of_trait(alloc, alt)?))
}

/// The type of two linear traits, each a group of its own.
fn two(alloc: Global, first: u32, second: u32) -> Result<Ty, AllocError> {
    let mut groups = Row::new(alloc);
    for number in [first, second] {
        let mut group = Row::new(alloc);
        group.push(alt(number, Mode::Linear))?;
        groups.push(group)?;
    }
    Ok(Ty::Cap(Cap::of(alloc, groups)?))
}

/// Whether a type is there and is the one that is due.
fn is(found: &Option<Ty>, due: &Ty) -> bool {
    match found {
        Some(found) => found.is(due),
        None => false,
    }
}

#[test]
fn declarations_are_found_by_name(rt: HostRuntime) -> Result<(), Fail> {
    let names = names(rt.alloc())?;
    assert_eq!(rt; names.find("A"), Some(1));
    assert_eq!(rt; names.find("Main"), Some(12));
    assert_eq!(rt; names.find("Nope"), None);
    let Some(named) = names.get(7) else {
        panic!(rt; "a declaration")
    };
    assert_eq!(rt; named.word.as_str(), "P");
    assert!(rt; names.get(13).is_none());
    assert_eq!(rt; names.trait_named("L"), Some(alt(3, Mode::Local)));
    assert_eq!(rt; names.trait_named("P"), None);
    Ok(())
}

#[test]
fn names_have_meanings(rt: HostRuntime) -> Result<(), Fail> {
    let alloc = rt.alloc();
    let names = names(alloc)?;
    assert!(rt; matches!(names.meaning("S"), Some(Meaning::Trait(Mode::Subordinate))));
    assert!(rt; matches!(names.meaning("P"), Some(Meaning::Class(Some(_)))));
    assert!(rt; matches!(names.meaning("D"), Some(Meaning::Active)));
    assert!(rt; matches!(names.meaning("sum"), Some(Meaning::Fun)));
    assert!(rt; names.meaning("Nope").is_none());
    let program = parse(alloc, b"class C = Nope;".as_slice())?;
    let names = Names::of(alloc, program.decls.as_slice())?;
    assert!(rt; matches!(names.meaning("C"), Some(Meaning::Class(None))));
    Ok(())
}

#[test]
fn names_stand_for_types(rt: HostRuntime) -> Result<(), Fail> {
    let alloc = rt.alloc();
    let names = names(alloc)?;
    assert!(rt; is(&names.type_named("A")?, &one(alloc, alt(1, Mode::Linear))?));
    assert!(rt; is(&names.type_named("P")?, &two(alloc, 1, 2)?));
    assert!(rt; is(&names.type_named("D")?, &Ty::Actor(9)));
    assert!(rt; names.type_named("sum")?.is_none());
    assert!(rt; names.type_named("Nope")?.is_none());
    Ok(())
}

/// The type that the first statement writes, as in `let v = null[int];`.
fn written_in(program: &Program) -> Option<&TypeText> {
    let [stmt, ..] = stmts_of(program) else {
        return None;
    };
    let StmtForm::Let(_, source) = &stmt.form else {
        return None;
    };
    let SourceForm::Expr(expr) = &source.form else {
        return None;
    };
    match &expr.form {
        ExprForm::Null(text) => Some(text),
        _ => None,
    }
}

#[test]
fn written_types_stand_for_types(rt: HostRuntime) -> Result<(), Fail> {
    let alloc = rt.alloc();
    for (text, due) in [
        ("let v = null[int];", Ty::Int),
        ("let v = null[D];", Ty::Actor(9)),
        ("let v = null[L];", one(alloc, alt(3, Mode::Local))?),
        ("let v = null[B and A];", two(alloc, 1, 2)?),
        (
            "let v = null[Bestowed[L]];",
            Ty::Bestowed(alt(3, Mode::Local)),
        ),
        (
            "let v = null[List[int]];",
            Ty::List(Shared::new(alloc, Ty::Int)?),
        ),
    ] {
        let program = program(alloc, text)?;
        let names = Names::of(alloc, program.decls.as_slice())?;
        let Some(written) = written_in(&program) else {
            panic!(rt; "a type")
        };
        assert!(rt; is(&names.written(written)?, &due), "{text}");
        assert!(rt; is(&names.ty(written)?, &due), "{text}");
    }
    Ok(())
}

const BAD_TYPES: &str = "K-NAME let v = null[«Nope»];
K-NAME let v = null[«sum»];
K-NAME let v = null[A and «P»];
K-SIG let v = null[«Fut[A]»];
K-SIG let v = null[List[«Par[L]»]];
K-SIG let v = null[«Bestowed[R]»];
K-SIG let v = null[«A and A»];
K-SIG let v = null[«A and L»];";

#[test]
fn written_types_are_refused(rt: HostRuntime) -> Result<(), Fail> {
    let alloc = rt.alloc();
    for row in BAD_TYPES.lines() {
        let due = refused(&rt, alloc, row)?;
        let program = program(alloc, due.stmts.as_str())?;
        let names = Names::of(alloc, program.decls.as_slice())?;
        let Some(written) = written_in(&program) else {
            panic!(rt; "a type")
        };
        let place = Some((due.rule, due.place));
        assert_eq!(rt; pair_of(names.written(written)), place, "{row}");
        assert!(rt; names.ty(written)?.is_none(), "{row}");
        let found = pair_of(body_types(&names, stmts_of(&program)));
        assert_eq!(rt; found, place, "{row}");
    }
    Ok(())
}

const BODIES: &str = "K-NAME if b { print len(nil[«Nope»]); } let v = null[Nope];
K-NAME let v = null[A]; split v into x: «Nope», y: A;
K-SIG while b { x.up(empty[«Fut[A]»]); }";

#[test]
fn types_in_bodies_are_refused(rt: HostRuntime) -> Result<(), Fail> {
    let alloc = rt.alloc();
    for row in BODIES.lines() {
        let due = refused(&rt, alloc, row)?;
        let program = program(alloc, due.stmts.as_str())?;
        let names = Names::of(alloc, program.decls.as_slice())?;
        let found = pair_of(body_types(&names, stmts_of(&program)));
        assert_eq!(rt; found, Some((due.rule, due.place)), "{row}");
    }
    let program = program(alloc, "let v = null[A]; print len(nil[D]);")?;
    let names = Names::of(alloc, program.decls.as_slice())?;
    assert!(rt; body_types(&names, stmts_of(&program)).is_ok());
    Ok(())
}

#[test]
fn local_traits_are_told(rt: HostRuntime) -> Result<(), Fail> {
    let alloc = rt.alloc();
    let local = alt(3, Mode::Local);
    assert_eq!(rt; local_of(&one(alloc, local)?), Some(local));
    assert_eq!(rt; local_of(&one(alloc, alt(4, Mode::Read))?), None);
    assert_eq!(rt; local_of(&two(alloc, 1, 2)?), None);
    assert_eq!(rt; local_of(&Ty::Bestowed(local)), None);
    Ok(())
}

/// The first group of the first declaration, which is a class of passive objects.
fn group_in(program: &Program) -> Option<&GroupText> {
    match program.decls.get(0)? {
        Decl::Class(class) => class.groups.get(0),
        _ => None,
    }
}

#[test]
fn groups_have_traits(rt: HostRuntime) -> Result<(), Fail> {
    let alloc = rt.alloc();
    let names = names(alloc)?;
    for (text, due) in [
        ("class C = A;", true),
        ("class C = (A or L);", true),
        ("class C = (A or Nope);", false),
        ("class C = (P or A);", false),
        ("class C = sum;", false),
    ] {
        let program = parse(alloc, text.as_bytes())?;
        let Some(group) = group_in(&program) else {
            panic!(rt; "a group")
        };
        assert_eq!(rt; names.are_traits(group), due, "{text}");
    }
    Ok(())
}

/// Judges the declarations of a text.
fn judged(alloc: Global, text: &str) -> Result<(), Refusal> {
    let program = parse(alloc, text.as_bytes())?;
    let names = Names::of(alloc, program.decls.as_slice())?;
    judge(alloc, &program, &names)
}

const DECLARATIONS: &str =
    "K-NAME class C = «Nope»; active class Main { def main(args: List[int]): unit { } }
K-TRAIT local trait L { x: int; «x: int;» } active class Main { def main(args: List[int]): unit { } }
K-MAIN «active class Main { def main(): unit { } }»";

#[test]
fn declarations_are_judged(rt: HostRuntime) -> Result<(), Fail> {
    let alloc = rt.alloc();
    for row in DECLARATIONS.lines() {
        let Some((rule, marked)) = row.split_once(' ') else {
            panic!(rt; "a rule and a text")
        };
        let Some(row) = unmarked(alloc, marked)? else {
            panic!(rt; "a marked text")
        };
        let found = pair_of(judged(alloc, row.text.as_str()));
        assert_eq!(rt; found, Some((rule, row.span)), "{marked}");
    }
    let text = "active class Main { def main(args: List[int]): unit { } }";
    assert_eq!(rt; judged(alloc, text), Ok(()));
    Ok(())
}
