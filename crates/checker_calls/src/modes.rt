// Types, and what their modes allow.

use enc_ast::Row;
use enc_modes::{
    Alt, Cap, Group, Mode, Shared, Ty, choose_of, in_order, is_linear, is_sendable, is_shareable,
    mode_of, pack_of, split_of,
};
use std::alloc::{AllocError, Global};
use std::process::Abort;
use std::test::Fail;

fn linear(number: u32) -> Alt {
    let mode = Mode::Linear;
    Alt { number, mode }
}

/// The groups that the text names: a digit is a linear trait, and groups stand between blanks.
fn groups(alloc: Global, text: &str) -> Result<Row<Group>, AllocError> {
    let mut groups = Row::new(alloc);
    for word in text.split(' ') {
        groups.push(group(alloc, word)?)?;
    }
    Ok(groups)
}

/// A type of these groups.
fn cap(alloc: Global, text: &str) -> Result<Cap, AllocError> {
    Cap::of(alloc, groups(alloc, text)?)
}

fn group(alloc: Global, digits: &str) -> Result<Group, AllocError> {
    let mut group = Row::new(alloc);
    for digit in digits.bytes() {
        group.push(linear(u32::from(digit.saturating_sub(b'0'))))?;
    }
    Ok(group)
}

/// A type of one trait.
fn one(alloc: Global, mode: Mode) -> Result<Cap, AllocError> {
    Cap::of_trait(alloc, Alt { number: 3, mode })
}

/// Asserts what the references of a type of one trait may do.
fn check_one(
    rt: &impl Abort,
    alloc: Global,
    mode: Mode,
    linear: bool,
    shareable: bool,
) -> Result<(), AllocError> {
    let groups = one(alloc, mode)?;
    assert_eq!(rt; mode_of(&groups), mode);
    let ty = Ty::Cap(groups);
    assert_eq!(rt; is_linear(&ty), linear);
    assert_eq!(rt; is_shareable(&ty), shareable);
    assert_eq!(rt; is_sendable(&ty), linear || shareable);
    Ok(())
}

#[test]
fn one_trait_has_its_mode(rt: HostRuntime) -> Result<(), Fail> {
    let alloc = rt.alloc();
    check_one(&rt, alloc, Mode::Linear, true, false)?;
    check_one(&rt, alloc, Mode::Local, false, false)?;
    check_one(&rt, alloc, Mode::Read, false, true)?;
    check_one(&rt, alloc, Mode::Subordinate, false, false)?;
    Ok(())
}

#[test]
fn other_types_may_be_shared(rt: HostRuntime) {
    for ty in [
        Ty::Int,
        Ty::Bool,
        Ty::Text,
        Ty::Unit,
        Ty::Actor(1),
        Ty::Bestowed(linear(1)),
    ] {
        assert!(rt; is_shareable(&ty) && is_sendable(&ty) && !is_linear(&ty));
    }
}

#[test]
fn several_traits_are_linear(rt: HostRuntime) -> Result<(), Fail> {
    let alloc = rt.alloc();
    for text in ["12", "1 2", "12 3"] {
        let several = cap(alloc, text)?;
        assert_eq!(rt; mode_of(&several), Mode::Linear);
        assert!(rt; several.composes());
        assert!(rt; several.share()?.composes());
    }
    assert!(rt; !cap(alloc, "12 23")?.composes());
    assert!(rt; one(alloc, Mode::Read)?.composes());
    Ok(())
}

#[test]
fn traits_beside_others_are_linear(rt: HostRuntime) -> Result<(), Fail> {
    let alloc = rt.alloc();
    for mode in [Mode::Local, Mode::Read, Mode::Subordinate] {
        let mut rows = groups(alloc, "1")?;
        let mut group = Group::new(alloc);
        group.push(Alt { number: 3, mode })?;
        rows.push(group)?;
        assert!(rt; !Cap::of(alloc, rows)?.composes());
    }
    Ok(())
}

#[test]
fn groups_are_put_in_order(rt: HostRuntime) -> Result<(), Fail> {
    let alloc = rt.alloc();
    let sorted = Ty::Cap(in_order(alloc, groups(alloc, "5 42 3")?)?);
    assert!(rt; sorted.is(&Ty::Cap(cap(alloc, "24 3 5")?)));
    assert!(rt; !sorted.is(&Ty::Cap(cap(alloc, "42 3 5")?)));
    assert!(rt; sorted.share()?.is(&sorted));
    Ok(())
}

#[test]
fn groups_are_shared(rt: HostRuntime) -> Result<(), Fail> {
    let alloc = rt.alloc();
    let shared = Ty::Cap(cap(alloc, "24 3 5")?.share()?);
    assert!(rt; shared.is(&Ty::Cap(cap(alloc, "24 3 5")?)));
    assert!(rt; !shared.is(&Ty::Cap(cap(alloc, "24 3")?)));
    Ok(())
}

#[test]
fn types_are_split_and_packed(rt: HostRuntime) -> Result<(), Fail> {
    let alloc = rt.alloc();
    let whole = cap(alloc, "1 24 3")?;
    let left = cap(alloc, "1 3")?;
    let right = cap(alloc, "24")?;
    assert!(rt; split_of(&whole, &left, &right));
    assert!(rt; split_of(&whole, &right, &left));
    assert!(rt; !split_of(&whole, &left, &left));
    assert!(rt; !split_of(&whole, &whole, &Cap::of(alloc, Row::new(alloc))?));
    let Some(packed) = pack_of(alloc, &right, &left)? else {
        panic!(rt; "packed")
    };
    assert!(rt; Ty::Cap(packed).is(&Ty::Cap(whole)));
    assert!(rt; pack_of(alloc, &left, &cap(alloc, "34")?)?.is_none());
    assert!(rt; pack_of(alloc, &right, &one(alloc, Mode::Linear)?)?.is_some());
    for mode in [Mode::Local, Mode::Read, Mode::Subordinate] {
        let other = one(alloc, mode)?;
        assert!(rt; pack_of(alloc, &right, &other)?.is_none());
        assert!(rt; pack_of(alloc, &other, &right)?.is_none());
    }
    Ok(())
}

#[test]
fn the_order_of_groups_and_traits_makes_no_difference(rt: HostRuntime) -> Result<(), Fail> {
    let alloc = rt.alloc();
    let whole = cap(alloc, "3 42 1")?;
    assert!(rt; split_of(&whole, &cap(alloc, "1 3")?, &cap(alloc, "24")?));
    assert!(rt;
        split_of(
            &cap(alloc, "1 24 3")?,
            &cap(alloc, "42")?,
            &cap(alloc, "3 1")?
        )
    );
    assert!(rt; !split_of(&whole, &cap(alloc, "1 3")?, &cap(alloc, "2 4")?));
    assert!(rt; !split_of(&whole, &cap(alloc, "1 1")?, &cap(alloc, "24")?));
    Ok(())
}

#[test]
fn parts_have_to_be_all_groups_of_the_whole(rt: HostRuntime) -> Result<(), Fail> {
    let alloc = rt.alloc();
    let whole = cap(alloc, "1 24 3")?;
    for (left, right) in [
        ("1", "24"),
        ("1", "3"),
        ("1 24", "24"),
        ("1 24", "4"),
        ("1 24", "34"),
        ("1 24 3", "5"),
        ("1 24", "3 5"),
    ] {
        assert!(rt;
            !split_of(&whole, &cap(alloc, left)?, &cap(alloc, right)?),
            "{left}, {right}"
        );
    }
    Ok(())
}

#[test]
fn one_trait_is_chosen(rt: HostRuntime) -> Result<(), Fail> {
    let alloc = rt.alloc();
    assert_eq!(rt; choose_of(&cap(alloc, "12")?, 2), Some(linear(2)));
    assert_eq!(rt; choose_of(&cap(alloc, "12")?, 3), None);
    assert_eq!(rt; choose_of(&cap(alloc, "1")?, 1), None);
    assert_eq!(rt; choose_of(&cap(alloc, "12 3")?, 1), None);
    Ok(())
}

#[test]
fn a_split_asks_for_modes(rt: HostRuntime) -> Result<(), Fail> {
    let alloc = rt.alloc();
    let whole = cap(alloc, "1 3")?;
    let left = cap(alloc, "1")?;
    assert!(rt; split_of(&whole, &left, &one(alloc, Mode::Linear)?));
    assert!(rt; !split_of(&whole, &left, &one(alloc, Mode::Read)?));
    Ok(())
}

/// A type of so many layers of lists round integers.
fn lists(alloc: Global, layers: usize) -> Result<Ty, AllocError> {
    let mut ty = Ty::Int;
    for _ in 0..layers {
        ty = Ty::List(Shared::new(alloc, ty)?);
    }
    Ok(ty)
}

#[test]
fn layers_take_no_stack(rt: HostRuntime) -> Result<(), Fail> {
    let alloc = rt.alloc();
    let deep = lists(alloc, 100_000)?;
    assert!(rt; deep.is(&lists(alloc, 100_000)?));
    assert!(rt; !deep.is(&lists(alloc, 100_001)?));
    assert!(rt; deep.share()?.is(&deep));
    Ok(())
}

#[test]
fn layers_are_of_one_kind(rt: HostRuntime) -> Result<(), Fail> {
    let alloc = rt.alloc();
    let future = Ty::Fut(Shared::new(alloc, Ty::Int)?);
    let tree = Ty::Par(Shared::new(alloc, Ty::Int)?);
    let list = lists(alloc, 1)?;
    assert!(rt; future.is(&future) && tree.is(&tree) && list.is(&list));
    assert!(rt; !future.is(&tree) && !tree.is(&list) && !list.is(&future));
    assert!(rt; !future.is(&Ty::Int) && !Ty::Int.is(&list));
    assert!(rt; !list.is(&Ty::List(Shared::new(alloc, Ty::Bool)?)));
    Ok(())
}

#[test]
fn the_last_holder_gets_the_value(rt: HostRuntime) -> Result<(), Fail> {
    let alloc = rt.alloc();
    let first = Shared::new(alloc, 5)?;
    let second = first.share()?;
    assert_eq!(rt; *second.get(), 5);
    assert!(rt; first.into_last().is_none());
    assert_eq!(rt; second.into_last(), Some(5));
    Ok(())
}
