// The rules of bodies.
ghost use Rattle.std.specs.Prelude.{◌≡◌, ◌++◌, map, IfOk, OnOk};
ghost use Rattle.enc_premises.specs.Premises.{each};
ghost use Rattle.enc_premises.specs.Passing.{Passes, MemoryOnly};
ghost use Rattle.enc_names.specs.Members.{type_or_unit as unit_or_type};
ghost use Rattle.enc_rules.specs.Context.{this_type as type_of_this};
ghost use Rattle.enc_rules.specs.Programs as spec;

use crate::returning::last_returns;
use crate::stmts::in_order;
use crate::variables::{add, declare};
use enc_ast::{Decl, Fail, Method, Param, Rule, TypeText, Word};
use enc_flow::Scope;
use enc_modes::{Alt, Cap, Ty};
use enc_names::Tables;
use enc_premises::demand;
use enc_sources::Context;
use enc_types::{Meaning, Names};
use std::alloc::{AllocError, Global};

/// Judges the bodies of declarations, of which these are the tables, in the order of the text. It refuses
/// by the first premise that fails, and answers `Fail::Memory` where memory runs out, also where more than
/// 1,024 variables would be visible.
#[tactic(auto, using(enc_premises::proofs::Passing::passing, crate::proofs::Memory::memory))]
pub fn bodies(alloc: Global, tables: &Tables, decls: &[Decl]) -> Result<(), Fail>
    ensures { Passes result (spec.bodies_from tables.now 0 decls.now) }
{
    for (at, decl) in decls.iter().enumerate() {
        if at > u32::MAX as usize {
            return Err(Fail::Memory);
        }
        decl_bodies(alloc, tables, at as u32, decl)?;
    }
    Ok(())
}

#[tactic(auto, using(enc_premises::proofs::Passing::passing))]
fn decl_bodies(alloc: Global, tables: &Tables, number: u32, decl: &Decl) -> Result<(), Fail>
    ensures { Passes result (spec.decl_bodies tables.now number decl.now) }
{
    match decl {
        Decl::Trait(decl) => methods(alloc, tables, number, decl.methods.as_slice()),
        Decl::Class(_) => Ok(()),
        Decl::Active(decl) => methods(alloc, tables, number, decl.methods.as_slice()),
        Decl::Fun(decl) => routine(alloc, tables, None, decl),
    }
}

fn methods(alloc: Global, tables: &Tables, owner: u32, methods: &[Method]) -> Result<(), Fail>
    ensures { Passes result (each (spec.routine_premises tables.now (Some owner)) methods.now) }
{
    for method in methods {
        routine(alloc, tables, Some(owner), method)?;
    }
    Ok(())
}

/// Judges the body of a method of the trait or the active class with this number, or of a function. It
/// refuses by the first premise that fails, and answers `Fail::Memory` where memory runs out, also where
/// more than 1,024 variables would be visible.
#[tactic(auto, using(enc_premises::proofs::Passing::passing, crate::proofs::Memory::memory))]
pub fn routine(
    alloc: Global,
    tables: &Tables,
    owner: Option<u32>,
    method: &Method,
) -> Result<(), Fail>
    ensures { Passes result (spec.routine_premises tables.now owner method.now) }
{
    let result = type_or_unit(tables, &method.result)?;
    let mut env = start(alloc, tables, owner, method.params.as_slice())?;
    let context = Context {
        tables,
        owner,
        result: &result,
        inside: false,
    };
    let body = method.body.as_slice();
    in_order(alloc, &context, &mut env, body)?;
    let returns = result.is(&Ty::Unit) || last_returns(body);
    demand(Rule::SReturn, method.span, returns)
}

/// The variables at the start of a body: `this`, unless it is one of a function, and the parameters.
#[tactic(auto, using(crate::proofs::Memory::memory))]
fn start(
    alloc: Global,
    tables: &Tables,
    owner: Option<u32>,
    params: &[Param],
) -> Result<Scope, Fail>
    ensures memory { MemoryOnly result }
    ensures start { IfOk result (λ env. env ≡ spec.start tables.now.names owner params.now) }
{
    let mut env = mine(alloc, tables.names(), owner)?;
    parameters(tables, &mut env, params)?;
    Ok(env)
}

#[tactic(auto, using(crate::proofs::Memory::memory))]
fn mine(alloc: Global, names: &Names, owner: Option<u32>) -> Result<Scope, Fail>
    ensures memory { MemoryOnly result }
    ensures this { IfOk result (λ env. env ≡ spec.this_var names.now owner) }
{
    let mut env = Scope::new(alloc);
    if let Some(owner) = owner {
        let ty = this_type(alloc, names, owner)?;
        add(&mut env, Word::copy_of(alloc, "this")?, ty)?;
    }
    Ok(env)
}

#[tactic(auto, using(crate::proofs::Memory::memory))]
fn parameters(tables: &Tables, env: &mut Scope, params: &[Param]) -> Result<(), Fail>
    ensures memory { MemoryOnly result }
    ensures after { OnOk result (env.new ≡ env.old ++ map (spec.param_var tables.now.names) params.now) }
{
    for param in params {
        let ty = type_or_unit(tables, &param.ty)?;
        declare(env, &param.name, Some(ty))?;
    }
    Ok(())
}

/// The type of `this` in the trait or the active class with this number, or `None` where there is none.
#[tactic(auto, unfolding(enc_rules::specs::Context::this_type))]
fn this_type(alloc: Global, names: &Names, owner: u32) -> Result<Option<Ty>, AllocError>
    ensures { IfOk result (λ t. t ≡ type_of_this names.now owner) }
{
    let Some(named) = names.get(owner) else {
        return Ok(None);
    };
    match named.is {
        Meaning::Trait(mode) => {
            let number = owner;
            let cap = Cap::of_trait(alloc, Alt { number, mode })?;
            Ok(Some(Ty::Cap(cap)))
        }
        Meaning::Active => Ok(Some(Ty::Actor(owner))),
        _ => Ok(None),
    }
}

// The type that is written, or `unit` where it stands for none.
fn type_or_unit(tables: &Tables, text: &TypeText) -> Result<Ty, AllocError>
    ensures { IfOk result (λ t. t ≡ unit_or_type tables.now.names text.now) }
{
    Ok(tables.ty(text)?.unwrap_or(Ty::Unit))
}
