// Look-ups in the tables of a program.

use enc_ast::{Decl, Program, Row, TypeText};
use enc_modes::{Alt, Cap, Group, Mode, Ty};
use enc_names::{MethodId, Tables, tables};
use enc_parse::parse;
use std::alloc::{AllocError, Global};
use std::test::Fail;

/// Declarations 0 to 7: four traits, a function, a class of passive objects and two active classes.
const DECLARATIONS: &str =
    "linear trait A { n: int; m: A; def up(k: int): bool { } def same(): unit { } }
linear trait B { def same(): unit { } def down(): A { } }
local trait L { x: int; def look(): int { } }
read trait R { def view(): int { } }
fun twice(k: int): List[int] { return [k, k]; }
class P = (B or R) and A;
active class D { kept: P; def put(p: P, k: int): unit { } }
active class Main { def main(args: List[int]): unit { } }";

fn alt(number: u32, mode: Mode) -> Alt {
    Alt { number, mode }
}

fn found(alloc: Global) -> Result<Tables, Fail> {
    let program = parse(alloc, DECLARATIONS.as_bytes())?;
    Ok(tables(alloc, &program)?)
}

#[test]
fn fields_have_places_and_types(rt: HostRuntime) -> Result<(), Fail> {
    let tables = found(rt.alloc())?;
    assert_eq!(rt; tables.field(0, "m"), Some(1));
    assert_eq!(rt; tables.field(0, "x"), None);
    assert_eq!(rt; tables.field(2, "x"), Some(0));
    assert_eq!(rt; tables.field(5, "m"), None);
    assert!(rt; matches!(tables.field_ty(0, 0), Some(Ty::Int)));
    assert!(rt; matches!(tables.field_ty(0, 1), Some(Ty::Cap(_))));
    assert!(rt; tables.field_ty(0, 2).is_none());
    Ok(())
}

/// The type of the first field of the first declaration.
fn written_in(program: &Program) -> Option<&TypeText> {
    match program.decls.get(0)? {
        Decl::Trait(decl) => Some(&decl.fields.get(0)?.ty),
        _ => None,
    }
}

/// The type that a field's text stands for.
fn written(alloc: Global, tables: &Tables, text: &str) -> Result<Option<Ty>, Fail> {
    let text = format!(in alloc; "local trait T {{ x: {text}; }}")?;
    let program = parse(alloc, text.as_bytes())?;
    match written_in(&program) {
        Some(ty) => Ok(tables.ty(ty)?),
        None => Ok(None),
    }
}

#[test]
fn written_types_are_looked_up(rt: HostRuntime) -> Result<(), Fail> {
    let alloc = rt.alloc();
    let tables = found(alloc)?;
    let list = written(alloc, &tables, "List[int]")?;
    let Some(Ty::List(item)) = &list else {
        panic!(rt; "a list")
    };
    assert!(rt; matches!(item.get(), Ty::Int));
    let class = written(alloc, &tables, "P")?;
    let Some(Ty::Cap(groups)) = &class else {
        panic!(rt; "groups")
    };
    let [first, second] = groups.as_slice() else {
        panic!(rt; "two groups")
    };
    assert_eq!(rt; first.as_slice(), [alt(0, Mode::Linear)].as_slice());
    assert_eq!(rt;
        second.as_slice(),
        [alt(1, Mode::Linear), alt(3, Mode::Read)].as_slice()
    );
    for text in ["Nope", "twice", "Fut[A]", "Bestowed[A]", "A and A"] {
        assert!(rt; written(alloc, &tables, text)?.is_none(), "{text}");
    }
    Ok(())
}

#[test]
fn declarations_are_numbered(rt: HostRuntime) -> Result<(), Fail> {
    let tables = found(rt.alloc())?;
    assert_eq!(rt; tables.names().find("A"), Some(0));
    assert_eq!(rt; tables.names().find("P"), Some(5));
    assert_eq!(rt; tables.names().find("Nope"), None);
    Ok(())
}

#[test]
fn methods_are_found_by_types(rt: HostRuntime) -> Result<(), Fail> {
    let tables = found(rt.alloc())?;
    let Some(p) = tables.class("P")? else {
        panic!(rt; "a class")
    };
    let up = MethodId { owner: 0, index: 0 };
    assert_eq!(rt; tables.method(&p, "up"), Some(up));
    assert_eq!(rt;
        tables.method(&p, "down"),
        Some(MethodId { owner: 1, index: 1 })
    );
    assert_eq!(rt; tables.method(&p, "same"), None);
    assert_eq!(rt; tables.method(&p, "view"), None);
    assert_eq!(rt;
        tables.method(&Ty::Actor(6), "put"),
        Some(MethodId { owner: 6, index: 0 })
    );
    assert_eq!(rt; tables.method(&Ty::Int, "up"), None);
    Ok(())
}

/// A type with a group of this trait alone, as often as is asked.
fn alone(alloc: Global, alt: Alt, times: usize) -> Result<Ty, AllocError> {
    let mut groups = Row::new(alloc);
    for _ in 0..times {
        let mut group = Group::new(alloc);
        group.push(alt)?;
        groups.push(group)?;
    }
    Ok(Ty::Cap(Cap::of(alloc, groups)?))
}

#[test]
fn methods_are_of_what_is_declared(rt: HostRuntime) -> Result<(), Fail> {
    let alloc = rt.alloc();
    let tables = found(alloc)?;
    for number in [0, 4, 5, 8] {
        assert_eq!(rt; tables.method(&Ty::Actor(number), "up"), None);
        assert_eq!(rt; tables.sent_method(&Ty::Actor(number), "up"), None);
    }
    assert_eq!(rt; tables.method(&Ty::Actor(4), "twice"), None);
    let active = alt(6, Mode::Local);
    assert_eq!(rt; tables.method(&alone(alloc, active, 1)?, "put"), None);
    assert_eq!(rt; tables.sent_method(&Ty::Bestowed(active), "put"), None);
    Ok(())
}

#[test]
fn a_trait_that_stands_twice_has_its_method_once(rt: HostRuntime) -> Result<(), Fail> {
    let alloc = rt.alloc();
    let tables = found(alloc)?;
    let twice = alone(alloc, alt(0, Mode::Linear), 2)?;
    let up = MethodId { owner: 0, index: 0 };
    assert_eq!(rt; tables.method(&twice, "up"), Some(up));
    Ok(())
}

#[test]
fn messages_go_to_active_classes_and_bestowed_traits(rt: HostRuntime) -> Result<(), Fail> {
    let tables = found(rt.alloc())?;
    let bestowed = Ty::Bestowed(Alt {
        number: 2,
        mode: Mode::Local,
    });
    let look = MethodId { owner: 2, index: 0 };
    assert_eq!(rt; tables.sent_method(&bestowed, "look"), Some(look));
    assert_eq!(rt; tables.method(&bestowed, "look"), None);
    let put = MethodId { owner: 6, index: 0 };
    assert_eq!(rt; tables.sent_method(&Ty::Actor(6), "put"), Some(put));
    Ok(())
}

#[test]
fn signatures_have_types(rt: HostRuntime) -> Result<(), Fail> {
    let tables = found(rt.alloc())?;
    let Some(put) = tables.signature(MethodId { owner: 6, index: 0 }) else {
        panic!(rt; "a method")
    };
    assert_eq!(rt; put.word.as_str(), "put");
    let [first, second] = put.params.as_slice() else {
        panic!(rt; "two parameters")
    };
    assert!(rt; matches!(first.ty, Ty::Cap(_)));
    assert!(rt; matches!(second.ty, Ty::Int));
    assert!(rt; matches!(put.result, Ty::Unit));
    assert!(rt; tables.signature(MethodId { owner: 6, index: 1 }).is_none());
    Ok(())
}

#[test]
fn names_are_looked_up(rt: HostRuntime) -> Result<(), Fail> {
    let tables = found(rt.alloc())?;
    assert_eq!(rt; tables.function("twice"), Some(4));
    assert_eq!(rt; tables.function("A"), None);
    assert!(rt; matches!(&tables.class("D")?, Some(Ty::Actor(6))));
    assert!(rt; tables.class("A")?.is_none());
    let read = Alt {
        number: 3,
        mode: Mode::Read,
    };
    assert_eq!(rt; tables.trait_named("R"), Some(read));
    assert_eq!(rt; tables.trait_named("P"), None);
    Ok(())
}
