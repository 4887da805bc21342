// Variables, and which of them were moved.

use enc_ast::Word;
use enc_flow::{Env, Scope};
use enc_modes::{Alt, Cap, Mode, Ty};
use std::alloc::{AllocError, Global};
use std::process::Abort;
use std::test::Fail;

/// A type of one linear trait.
fn linear(alloc: Global) -> Result<Ty, AllocError> {
    let alt = Alt {
        number: 0,
        mode: Mode::Linear,
    };
    Ok(Ty::Cap(Cap::of_trait(alloc, alt)?))
}

/// Two linear variables, `x` and `y`, and an integer `k`.
fn three(alloc: Global) -> Result<Env, AllocError> {
    let mut env = Env::new(alloc);
    env.declare(Word::copy_of(alloc, "x")?, linear(alloc)?)?;
    env.declare(Word::copy_of(alloc, "y")?, linear(alloc)?)?;
    env.declare(Word::copy_of(alloc, "k")?, Ty::Int)?;
    Ok(env)
}

/// Takes the variable of a name, and tells whether it hadn't been moved.
fn take(rt: &impl Abort, env: &mut Env, name: &str) -> bool {
    let Some(variable) = env.find(name) else {
        panic!(rt; "a variable {name}")
    };
    env.take(variable)
}

fn take_in(scope: &mut Scope, name: &str) {
    if let Some(variable) = scope.find(name) {
        scope.take(variable);
    }
}

fn give_in(scope: &mut Scope, name: &str) {
    if let Some(variable) = scope.find(name) {
        scope.give(variable);
    }
}

/// Whether the variable of a name is moved.
fn is_moved(rt: &impl Abort, env: &Env, name: &str) -> bool {
    let Some(variable) = env.find(name) else {
        panic!(rt; "a variable {name}")
    };
    env.is_moved(variable)
}

#[test]
fn variables_are_found_by_name(rt: HostRuntime) -> Result<(), Fail> {
    let env = three(rt.alloc())?;
    assert_eq!(rt; env.len(), 3);
    assert_eq!(rt; env.find("x"), Some(0));
    assert_eq!(rt; env.find("k"), Some(2));
    assert_eq!(rt; env.find("z"), None);
    Ok(())
}

#[test]
fn variables_have_types(rt: HostRuntime) -> Result<(), Fail> {
    let env = three(rt.alloc())?;
    let Some(variable) = env.find("k") else {
        panic!(rt; "a variable")
    };
    assert!(rt; matches!(env.ty(variable), Ty::Int));
    Ok(())
}

#[test]
fn the_newest_of_a_name_is_found(rt: HostRuntime) -> Result<(), Fail> {
    let alloc = rt.alloc();
    let mut env = Env::new(alloc);
    assert!(rt; env.is_empty());
    env.declare(Word::copy_of(alloc, "x")?, Ty::Int)?;
    let newest = env.declare(Word::copy_of(alloc, "x")?, Ty::Bool)?;
    assert!(rt; !env.is_empty());
    assert_eq!(rt; env.find("x"), Some(1));
    assert!(rt; matches!(env.ty(newest), Ty::Bool));
    env.cut(1);
    assert_eq!(rt; env.find("x"), Some(0));
    Ok(())
}

#[test]
fn a_scope_has_variables_without_types(rt: HostRuntime) -> Result<(), Fail> {
    let alloc = rt.alloc();
    let mut scope = Scope::new(alloc);
    assert!(rt; scope.is_empty());
    let known = scope.declare(Word::copy_of(alloc, "k")?, Ty::Int)?;
    let unknown = scope.declare_unknown(Word::copy_of(alloc, "z")?)?;
    assert!(rt; matches!(scope.known(known), Some(Ty::Int)));
    assert!(rt; scope.known(unknown).is_none());
    assert!(rt; scope.take(unknown));
    assert!(rt; !scope.is_moved(unknown));
    assert_eq!(rt; scope.find("z"), Some(1));
    assert_eq!(rt; scope.len(), 2);
    scope.cut(1);
    assert_eq!(rt; scope.find("z"), None);
    Ok(())
}

#[test]
fn scopes_share_variables_and_no_moves(rt: HostRuntime) -> Result<(), Fail> {
    let env = three(rt.alloc())?;
    let mut left = env.scope().copy()?;
    let mut right = left.copy()?;
    take_in(&mut left, "x");
    assert!(rt; !left.same_moves(&right));
    give_in(&mut left, "x");
    assert!(rt; left.same_moves(&right));
    take_in(&mut right, "y");
    assert!(rt; !left.same_moves(&right));
    left.merge(&right);
    assert!(rt; left.same_moves(&right));
    Ok(())
}

#[test]
fn linear_variables_are_moved(rt: HostRuntime) -> Result<(), Fail> {
    let mut env = three(rt.alloc())?;
    assert!(rt; take(&rt, &mut env, "x"));
    assert!(rt; !take(&rt, &mut env, "x"));
    assert!(rt; take(&rt, &mut env, "k"));
    assert!(rt; take(&rt, &mut env, "k"));
    assert!(rt; is_moved(&rt, &env, "x"));
    assert!(rt; !is_moved(&rt, &env, "y"));
    assert!(rt; !is_moved(&rt, &env, "k"));
    if let Some(variable) = env.find("x") {
        env.give(variable);
    }
    assert!(rt; !is_moved(&rt, &env, "x"));
    Ok(())
}

#[test]
fn branches_are_united(rt: HostRuntime) -> Result<(), Fail> {
    let mut left = three(rt.alloc())?;
    let mut right = left.copy()?;
    assert!(rt; left.same_moves(&right));
    take(&rt, &mut left, "x");
    take(&rt, &mut right, "y");
    assert!(rt; !left.same_moves(&right));
    left.merge(&right);
    assert!(rt; is_moved(&rt, &left, "x"));
    assert!(rt; is_moved(&rt, &left, "y"));
    assert!(rt; !is_moved(&rt, &left, "k"));
    Ok(())
}
