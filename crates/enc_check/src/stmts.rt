// The rules of statements.
ghost use Rattle.std.specs.Prelude.{◌≡◌, ◌≤◌, take, OnOk, option_map};
ghost use Rattle.std.specs.Option.{option_copied};
ghost use Rattle.enc_premises.specs.Premises.{if_known};
ghost use Rattle.enc_premises.specs.Passing.{Passes};
ghost use Rattle.enc_rules.specs.Parts as parts;
ghost use Rattle.enc_rules.specs.Stmts as spec;

use crate::parting::{choose, move_out, pack, split};
use crate::plain::{
    assign, bind, call_method, condition, give_back, print, send_message, store, suspend,
};
use crate::variables::is_free;
use enc_ast::{Expr, Fail, Items, Name, Rule, Span, Stmt, StmtForm};
use enc_exprs::{Use, expr_type};
use enc_flow::Scope;
use enc_modes::Ty;
use enc_premises::demand;
use enc_sources::{Context, is_target};
use std::alloc::Global;

/// Judges a statement, and leaves the variables that there are after it. It refuses by the first premise
/// that fails, and answers that memory ran out also where more than 1,024 variables would be visible.
/// What it leaves of the variables then is of no use.
#[cycle(stmts)]
#[tactic(auto, using(crate::proofs::Meaning::stmts))]
pub fn stmt(
    alloc: Global,
    context: &Context<'_>,
    env: &mut Scope,
    judged: &Stmt,
) -> Result<(), Fail>
    ensures premises { Passes result ((spec.act judged.now).premises context.now env.old) }
    ensures after { OnOk result (env.new ≡ (spec.act judged.now).after context.now env.old) }
{
    let span = judged.span;
    match &judged.form {
        StmtForm::Let(name, source) => bind(alloc, context, env, name, &source.form, span),
        StmtForm::Assign(name, value) => assign(alloc, context, env, name, value, span),
        StmtForm::Store(at, name, value) => store(alloc, context, env, *at, name, value, span),
        StmtForm::Call(to, name, args) => call_method(alloc, context, env, to, name, args, span),
        StmtForm::Send(to, name, args) => send_message(alloc, context, env, to, name, args, span),
        StmtForm::If(value, then, other) => {
            branch(alloc, context, env, value, then.as_slice(), other.as_ref())
        }
        StmtForm::While(value, body) => repeat(alloc, context, env, value, body.as_slice(), span),
        StmtForm::Atomic(to, body) => together(alloc, context, env, to, body.as_slice(), span),
        StmtForm::Split(whole, left, one, right, two) => {
            split(context, env, whole, (left, one), (right, two), span)
        }
        StmtForm::Pack(left, right, name, one, two) => {
            both(alloc, context, env, (left, right, name), one, two, span)
        }
        StmtForm::Choose(of, alt, name) => choose(alloc, context, env, of, alt, name, span),
        StmtForm::Return(value) => give_back(alloc, context, env, value, span),
        StmtForm::Print(values) => print(alloc, context, env, values.as_slice(), span),
        StmtForm::Suspend => suspend(context, span),
    }
}

/// Judges statements one after another, and leaves the variables that there are after them. It refuses
/// by the first premise that fails, and answers `Fail::Memory` where memory runs out, also where more than
/// 1,024 variables would be visible. After an error the variables are of no use.
#[cycle(stmts)]
pub fn in_order(
    alloc: Global,
    context: &Context<'_>,
    env: &mut Scope,
    stmts: &[Stmt],
) -> Result<(), Fail>
    ensures premises { Passes result (spec.all_premises context.now env.old (spec.acts stmts.now)) }
    ensures after { OnOk result (env.new ≡ spec.all_after context.now env.old (spec.acts stmts.now)) }
{
    for judged in stmts {
        stmt(alloc, context, env, judged)?;
    }
    Ok(())
}

/// Judges a block, and leaves of the variables the first `count`, which are those around it.
#[cycle(stmts)]
fn block(
    alloc: Global,
    context: &Context<'_>,
    env: &mut Scope,
    count: usize,
    stmts: &[Stmt],
) -> Result<(), Fail>
    requires { count ≤ 1024 }
    ensures premises { Passes result (spec.all_premises context.now env.old (spec.acts stmts.now)) }
    ensures after { OnOk result (env.new ≡ take count (spec.all_after context.now env.old (spec.acts stmts.now))) }
{
    in_order(alloc, context, env, stmts)?;
    env.cut(count as u32);
    Ok(())
}

#[cycle(stmts)]
#[tactic(auto, using(enc_premises::proofs::Passing::passing))]
fn other_block(
    alloc: Global,
    context: &Context<'_>,
    env: &mut Scope,
    stmts: Option<&Items<Stmt>>,
) -> Result<(), Fail>
    ensures premises { Passes result (spec.else_premises context.now env.old (option_map spec.acts (option_copied stmts.entry))) }
    ensures after { OnOk result (env.new ≡ spec.else_after context.now env.old (option_map spec.acts (option_copied stmts.entry))) }
{
    match stmts {
        None => Ok(()),
        Some(stmts) => block(alloc, context, env, env.len(), stmts.as_slice()),
    }
}

/// Two branches, of which the second may be none: what is moved at the end of either is moved.
#[cycle(stmts)]
#[tactic(auto, using(enc_premises::proofs::Passing::passing, crate::proofs::Memory::memory))]
fn branch(
    alloc: Global,
    context: &Context<'_>,
    env: &mut Scope,
    value: &Expr,
    then: &[Stmt],
    other: Option<&Items<Stmt>>,
) -> Result<(), Fail>
    ensures premises { Passes result (spec.if_premises context.now env.old value.now (spec.acts then.now) (option_map spec.acts (option_copied other.entry))) }
    ensures after { OnOk result (env.new ≡ spec.if_after context.now env.old (spec.acts then.now) (option_map spec.acts (option_copied other.entry))) }
{
    condition(alloc, context, env, Rule::SIf, value)?;
    let mut start = env.copy()?;
    block(alloc, context, env, env.len(), then)?;
    other_block(alloc, context, &mut start, other)?;
    env.merge(&start);
    Ok(())
}

/// A loop, whose body moves nothing that is there before it.
#[cycle(stmts)]
#[tactic(auto, using(enc_premises::proofs::Passing::passing, crate::proofs::Memory::memory))]
fn repeat(
    alloc: Global,
    context: &Context<'_>,
    env: &Scope,
    value: &Expr,
    body: &[Stmt],
    span: Span,
) -> Result<(), Fail>
    ensures { Passes result (spec.while_premises context.now env.now value.now (spec.acts body.now) span) }
{
    condition(alloc, context, env, Rule::SLoop, value)?;
    let mut end = env.copy()?;
    block(alloc, context, &mut end, env.len(), body)?;
    demand(Rule::SLoop, span, env.same_moves(&end))
}

/// An atomic block, whose owner is one to which messages can be sent.
#[cycle(stmts)]
#[tactic(auto, using(enc_premises::proofs::Passing::passing))]
fn together(
    alloc: Global,
    context: &Context<'_>,
    env: &mut Scope,
    owner: &Expr,
    body: &[Stmt],
    span: Span,
) -> Result<(), Fail>
    ensures premises { Passes result (spec.atomic_premises context.now env.old owner.now (spec.acts body.now) span) }
    ensures after { OnOk result (env.new ≡ spec.block_after (spec.within context.now) env.old env.old (spec.acts body.now)) }
{
    let fits = {
        let ty = expr_type(alloc, context.names(), env, owner, Use::Copies)?;
        may_own(ty.ty())
    };
    block(alloc, &context.within(), env, env.len(), body)?;
    demand(Rule::SAtomic, span, fits && !context.inside)
}

/// Whether messages can be sent to what has this type, as far as it is known.
fn may_own(ty: Option<&Ty>) -> bool
    ensures { result ≡ if_known parts.is_target (option_copied ty.entry) }
{
    match ty {
        None => true,
        Some(ty) => is_target(ty),
    }
}

/// Two references put together in the first block, and apart in the second: what is moved at the end of
/// either is moved. The names are those of the two, and of both together.
#[cycle(stmts)]
#[tactic(auto, using(enc_premises::proofs::Passing::passing, crate::proofs::Memory::memory))]
fn both(
    alloc: Global,
    context: &Context<'_>,
    env: &mut Scope,
    names: (&Name, &Name, &Name),
    one: &Items<Stmt>,
    two: &Items<Stmt>,
    span: Span,
) -> Result<(), Fail>
    ensures premises { Passes result (spec.pack_premises context.now env.old names.entry.0.now names.entry.1.now names.entry.2.now (spec.acts one.now) (spec.acts two.now) span) }
    ensures after { OnOk result (env.new ≡ spec.pack_after context.now env.old names.entry.0.now names.entry.1.now names.entry.2.now (spec.acts one.now) (spec.acts two.now)) }
{
    let (left, right, name) = names;
    let free = is_free(env, name);
    let mut end = env.copy()?;
    move_out(&mut end, left)?;
    move_out(&mut end, right)?;
    let fits = pack(alloc, env, &mut end, names)?;
    block(alloc, context, &mut end, env.len(), one.as_slice())?;
    block(alloc, context, env, env.len(), two.as_slice())?;
    demand(Rule::SLet, span, free)?;
    demand(Rule::SPack, span, fits)?;
    end.merge(env);
    *env = end;
    Ok(())
}
