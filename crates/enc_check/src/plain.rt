// Statements without blocks.
ghost use Rattle.std.specs.Prelude.{◌≡◌, ◌&&◌, [], ◌∷◌, OnOk, IfOk};
ghost use Rattle.std.specs.Option.{option_copied};
ghost use Rattle.enc_ast.specs.declared.rules.Rule.TheVariants as rule;
ghost use Rattle.enc_modes.specs.Equality.{same};
ghost use Rattle.enc_premises.specs.Premises.{premise, node, each, if_known};
ghost use Rattle.enc_premises.specs.Passing.{Passes};
ghost use Rattle.enc_types.specs.Words.{every};
ghost use Rattle.enc_exprs.specs.declared.uses.Use.TheVariants.{Copies};
ghost use Rattle.enc_exprs.specs.Exprs.{expr_premises};
ghost use Rattle.enc_rules.specs.Context.{field_fits, field_type};
ghost use Rattle.enc_rules.specs.Sources as sources;
ghost use Rattle.enc_rules.specs.Stmts as spec;

use crate::variables::{declare, is_free, use_up};
use enc_ast::{Expr, Fail, Name, Receiver, Row, Rule, SourceForm, Span};
use enc_exprs::{Use, expr_type, is_bool, is_plain, regain, type_in, visible};
use enc_flow::Scope;
use enc_modes::Ty;
use enc_premises::demand;
use enc_sources::{Context, Demand, agree, call, send, source, waits};
use std::alloc::Global;

/// A new variable, bound to what a source gives.
#[tactic(auto, using(enc_premises::proofs::Passing::passing))]
pub fn bind(
    alloc: Global,
    context: &Context<'_>,
    env: &mut Scope,
    name: &Name,
    form: &SourceForm,
    span: Span,
) -> Result<(), Fail>
    ensures premises { Passes result (spec.let_premises context.now env.old name.now form.now span) }
    ensures after { OnOk result (env.new ≡ spec.let_after context.now env.old name.now form.now) }
{
    let free = is_free(env, name);
    let outcome = source(alloc, context, env, form)?;
    let last = Demand {
        rule: Rule::SAtomic,
        holds: !(context.inside && waits(form)),
    };
    demand(Rule::SLet, span, free)?;
    ask_three(span, outcome.own, outcome.more, last)?;
    declare(env, name, outcome.ty)
}

/// Three demands of one node.
#[tactic(auto, using(enc_premises::proofs::Passing::passing))]
fn ask_three(span: Span, own: Demand, more: Demand, last: Demand) -> Result<(), Fail>
    ensures { Passes result (node span (own ∷ more ∷ last ∷ [])) }
{
    ask(span, own)?;
    ask(span, more)?;
    ask(span, last)
}

fn ask(span: Span, asked: Demand) -> Result<(), Fail>
    ensures { Passes result (premise asked.0 span asked.1) }
{
    demand(asked.rule, span, asked.holds)
}

/// What may not stand inside an atomic block.
fn outside(context: &Context<'_>) -> Demand
    ensures { result ≡ spec.outside context.now }
{
    Demand {
        rule: Rule::SAtomic,
        holds: !context.inside,
    }
}

/// Another value for a variable.
#[tactic(auto, using(enc_premises::proofs::Passing::passing))]
pub fn assign(
    alloc: Global,
    context: &Context<'_>,
    env: &mut Scope,
    name: &Name,
    value: &Expr,
    span: Span,
) -> Result<(), Fail>
    ensures premises { Passes result (spec.assign_premises context.now env.old name.now value.now span) }
    ensures after { OnOk result (env.new ≡ spec.assign_after context.now env.old name.now value.now) }
{
    let word = name.word.as_str();
    visible(env, word, name.span)?;
    let fits = {
        let ty = expr_type(alloc, context.names(), env, value, Use::Consumes)?;
        agree(type_in(env, word), ty.ty())
    };
    demand(Rule::SAssign, span, fits)?;
    use_up(context, env, value);
    regain(env, word);
    Ok(())
}

/// Another value for a field of `this`, which stands at `place`.
#[tactic(auto, using(enc_premises::proofs::Passing::passing))]
pub fn store(
    alloc: Global,
    context: &Context<'_>,
    env: &mut Scope,
    place: Span,
    name: &Name,
    value: &Expr,
    span: Span,
) -> Result<(), Fail>
    ensures premises { Passes result (spec.store_premises context.now env.old place name.now value.now span) }
    ensures after { OnOk result (env.new ≡ spec.consumed context.now env.old value.now) }
{
    visible(env, "this", place)?;
    let fits = {
        let ty = expr_type(alloc, context.names(), env, value, Use::Consumes)?;
        fits_field(context, name, ty.ty())
    };
    demand(Rule::SStore, span, fits)?;
    demand(Rule::SReadonly, span, !context.only_reads())?;
    use_up(context, env, value);
    Ok(())
}

/// Whether there is a field of this name, and it is of the type, where that is known.
fn fits_field(context: &Context<'_>, name: &Name, ty: Option<&Ty>) -> bool
    ensures { result ≡ field_fits (λ t. if_known (same t) (option_copied ty.entry)) (field_type context.now name.now.word) }
{
    match (context.field_type(name.word.as_str()), ty) {
        (None, _) => false,
        (Some(_), None) => true,
        (Some(field), Some(ty)) => field.is(ty),
    }
}

/// A call whose result is dropped.
#[tactic(auto, using(enc_premises::proofs::Passing::passing))]
pub fn call_method(
    alloc: Global,
    context: &Context<'_>,
    env: &mut Scope,
    to: &Receiver,
    name: &Name,
    args: &Row<Expr>,
    span: Span,
) -> Result<(), Fail>
    ensures premises { Passes result (spec.call_premises context.now env.old to.now name.now args.now span) }
    ensures after { OnOk result (env.new ≡ (sources.call context.now env.old to.now name.now args.now).after) }
{
    let asked = call(alloc, context, env, to, name, args.as_slice())?;
    ask_three(span, asked.own, asked.more, outside(context))
}

/// A message whose result nobody waits for.
#[tactic(auto, using(enc_premises::proofs::Passing::passing))]
pub fn send_message(
    alloc: Global,
    context: &Context<'_>,
    env: &mut Scope,
    to: &Receiver,
    name: &Name,
    args: &Row<Expr>,
    span: Span,
) -> Result<(), Fail>
    ensures premises { Passes result (spec.send_premises context.now env.old to.now name.now args.now span) }
    ensures after { OnOk result (env.new ≡ (sources.send context.now env.old to.now name.now args.now).after) }
{
    let asked = send(alloc, context, env, to, name, args.as_slice())?;
    ask(span, asked.own)?;
    ask(span, asked.more)
}

/// The result of the body.
#[tactic(auto, using(enc_premises::proofs::Passing::passing))]
pub fn give_back(
    alloc: Global,
    context: &Context<'_>,
    env: &mut Scope,
    value: &Expr,
    span: Span,
) -> Result<(), Fail>
    ensures premises { Passes result (spec.return_premises context.now env.old value.now span) }
    ensures after { OnOk result (env.new ≡ spec.consumed context.now env.old value.now) }
{
    let fits = {
        let ty = expr_type(alloc, context.names(), env, value, Use::Consumes)?;
        is_result(context, ty.ty())
    };
    suspend(context, span)?;
    demand(Rule::SReturn, span, fits)?;
    use_up(context, env, value);
    Ok(())
}

fn is_result(context: &Context<'_>, ty: Option<&Ty>) -> bool
    ensures { result ≡ if_known (same context.now.result) (option_copied ty.entry) }
{
    match ty {
        None => true,
        Some(ty) => context.result.is(ty),
    }
}

/// What may not stand inside an atomic block. It takes no memory.
pub fn suspend(context: &Context<'_>, span: Span) -> Result<(), Fail>
    ensures { Passes result (node span (spec.outside context.now ∷ [])) }
{
    ask(span, outside(context))
}

/// Values that are printed.
#[tactic(auto, using(enc_premises::proofs::Passing::passing))]
pub fn print(
    alloc: Global,
    context: &Context<'_>,
    env: &Scope,
    values: &[Expr],
    span: Span,
) -> Result<(), Fail>
    ensures { Passes result (spec.print_premises context.now env.now values.now span) }
{
    let plain = are_plain(alloc, context, env, values)?;
    demand(Rule::SPrint, span, plain)
}

/// Whether each of the values is of a type that can be printed, as far as that is known.
fn are_plain(
    alloc: Global,
    context: &Context<'_>,
    env: &Scope,
    values: &[Expr],
) -> Result<bool, Fail>
    ensures premises { Passes result (each (expr_premises context.now.tables.names env.now Copies) values.now) }
    ensures plain { IfOk result (λ plain. plain ≡ every (spec.prints context.now env.now) values.now) }
{
    let mut plain = true;
    for value in values {
        plain = prints_too(alloc, context, env, plain, value)?;
    }
    Ok(plain)
}

/// Whether what comes before can be printed, and the value too, as far as its type is known.
fn prints_too(
    alloc: Global,
    context: &Context<'_>,
    env: &Scope,
    before: bool,
    value: &Expr,
) -> Result<bool, Fail>
    ensures premises { Passes result (expr_premises context.now.tables.names env.now Copies value.now) }
    ensures plain { IfOk result (λ plain. plain ≡ (before && spec.prints context.now env.now value.now)) }
{
    let ty = expr_type(alloc, context.names(), env, value, Use::Copies)?;
    match ty.ty() {
        None => Ok(before),
        Some(ty) => Ok(before && is_plain(ty)),
    }
}

/// A condition, whose rule is asked at its own node.
#[tactic(auto, using(enc_premises::proofs::Passing::passing))]
pub fn condition(
    alloc: Global,
    context: &Context<'_>,
    env: &Scope,
    rule: Rule,
    value: &Expr,
) -> Result<(), Fail>
    ensures { Passes result (spec.condition context.now env.now rule value.now) }
{
    let ty = expr_type(alloc, context.names(), env, value, Use::Copies)?;
    let fits = match ty.ty() {
        None => true,
        Some(ty) => is_bool(ty),
    };
    demand(rule, value.span, fits)
}
