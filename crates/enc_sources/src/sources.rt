// The rules of sources.
ghost use Rattle.std.specs.Prelude.{◌≡◌, ◌&&◌, IfOk, OnOk, is_some, length, option_and_then, option_map};
ghost use Rattle.std.specs.Option.{option_copied};
ghost use Rattle.enc_ast.specs.declared.rules.Rule.TheVariants as rules;
ghost use Rattle.enc_ast.specs.declared.sources.SourceForm.TheVariants as form;
ghost use Rattle.enc_premises.specs.Premises.{if_known, ◌⨾◌};
ghost use Rattle.enc_premises.specs.Passing.{Passes};
ghost use Rattle.enc_flow.specs.Env.{or_else};
ghost use Rattle.enc_exprs.specs.declared.uses.Use.TheVariants.{Copies};
ghost use Rattle.enc_exprs.specs.Uses.{this_word, visible as visible_premises};
ghost use Rattle.enc_exprs.specs.Exprs as exprs;
ghost use Rattle.enc_rules.specs.Context.{field_type, field_fits, function_of};
ghost use Rattle.enc_rules.specs.Parts as parts;
ghost use Rattle.enc_rules.specs.Calls as calls;
ghost use Rattle.enc_rules.specs.Sources as spec;
ghost use Rattle.enc_sources.specs.Shapes.{made_by, part_by, trees_of_one_type, wants};

use crate::calls::{
    applies, arguments, called, further, invoke, may_call, may_enter, may_send, may_travel,
    params_of, receiver_type, result_of, sent,
};
use crate::context::Context;
use crate::outcome::{Demand, Demands, Outcome};
use crate::parts::{agree, tree_of};
use crate::shapes::{
    AWAIT, CHAIN, EACH, EXTRACT, GET, JOIN, LIFT, LIFT_FUTURE, Made, PRUNE, Part, SEQ, Shape,
    given, inner_of,
};
use enc_ast::{Expr, Fail, Name, Receiver, Rule, SourceForm, Span};
use enc_exprs::{Use, consumed, expr_type, visible};
use enc_flow::Scope;
use enc_modes::{Ty, is_linear};
use enc_names::Signature;
use enc_types::local_of;
use std::alloc::Global;

/// Judges the parts of a source, and answers what else its statement has to keep. It refuses by the first
/// premise of the parts that fails, and answers `Fail::Memory` where memory runs out. After an error
/// nothing is known of the variables.
#[tactic(auto, unfolding(enc_rules::specs::Sources::outcome))]
pub fn source(
    alloc: Global,
    context: &Context<'_>,
    env: &mut Scope,
    form: &SourceForm,
) -> Result<Outcome, Fail>
    ensures premises { Passes result (spec.outcome context.now env.old form.now).parts }
    ensures own { IfOk result (λ o. o.own ≡ (spec.outcome context.now env.old form.now).own) }
    ensures more { IfOk result (λ o. o.more ≡ (spec.outcome context.now env.old form.now).more) }
    ensures ty { IfOk result (λ o. o.ty ≡ (spec.outcome context.now env.old form.now).ty) }
    ensures after { OnOk result (env.new ≡ (spec.outcome context.now env.old form.now).after) }
{
    match form {
        SourceForm::Expr(expr) => value(alloc, context, env, expr),
        SourceForm::New(class) => new(context, env, class),
        SourceForm::Field(span, name) => {
            field(alloc, context, env, Rule::SField, false, *span, name)
        }
        SourceForm::Take(span, name) => {
            field(alloc, context, env, Rule::STake, true, *span, name)
        }
        SourceForm::Call(to, method, args) => {
            called_value(alloc, context, env, to, method, args.as_slice())
        }
        SourceForm::Send(to, method, args) => {
            sent_value(alloc, context, env, to, method, args.as_slice())
        }
        SourceForm::Get(x) => part(alloc, context, env, GET, x),
        SourceForm::Await(x) => part(alloc, context, env, AWAIT, x),
        SourceForm::Chain(x, function, args) => {
            applied(alloc, context, env, CHAIN, x, function, args.as_slice())
        }
        SourceForm::Lift(x) => part(alloc, context, env, LIFT, x),
        SourceForm::LiftFuture(x) => part(alloc, context, env, LIFT_FUTURE, x),
        SourceForm::Each(x) => part(alloc, context, env, EACH, x),
        SourceForm::Both(x, y) => trees(alloc, context, env, x, y),
        SourceForm::Otherwise(x, y) => trees(alloc, context, env, x, y),
        SourceForm::Seq(x, function, args) => {
            applied(alloc, context, env, SEQ, x, function, args.as_slice())
        }
        SourceForm::Join(x) => part(alloc, context, env, JOIN, x),
        SourceForm::Prune(x) => part(alloc, context, env, PRUNE, x),
        SourceForm::Extract(x) => part(alloc, context, env, EXTRACT, x),
        SourceForm::Bestow(x) => bestow(alloc, context, env, x),
    }
}

#[tactic(auto, unfolding(enc_rules::specs::Sources::outcome))]
fn value(
    alloc: Global,
    context: &Context<'_>,
    env: &mut Scope,
    expr: &Expr,
) -> Result<Outcome, Fail>
    ensures premises { Passes result (spec.outcome context.now env.old (form.Expr expr.now)).parts }
    ensures own { IfOk result (λ o. o.own ≡ spec.free) }
    ensures more { IfOk result (λ o. o.more ≡ spec.free) }
    ensures ty { IfOk result (λ o. o.ty ≡ (spec.outcome context.now env.old (form.Expr expr.now)).ty) }
    ensures after { OnOk result (env.new ≡ (spec.outcome context.now env.old (form.Expr expr.now)).after) }
{
    let ty = consumed(alloc, context.names(), env, expr)?;
    Ok(Outcome {
        own: Demand::free(),
        more: Demand::free(),
        ty,
    })
}

#[tactic(auto, using(enc_premises::proofs::Passing::passing, enc_exprs::proofs::Memory::out_of_memory), unfolding(enc_rules::specs::Sources::outcome))]
fn new(context: &Context<'_>, env: &Scope, class: &Name) -> Result<Outcome, Fail>
    ensures premises { Passes result (spec.outcome context.now env.now (form.New class.now)).parts }
    ensures own { IfOk result (λ o. o.own ≡ (spec.outcome context.now env.now (form.New class.now)).own) }
    ensures more { IfOk result (λ o. o.more ≡ spec.free) }
    ensures ty { IfOk result (λ o. o.ty ≡ (spec.outcome context.now env.now (form.New class.now)).ty) }
{
    let ty = context.tables.class(class.word.as_str())?;
    Ok(Outcome::asking(Rule::SNew, ty.is_some(), ty))
}

#[tactic(auto, using(enc_premises::proofs::Passing::passing, enc_exprs::proofs::Memory::out_of_memory))]
fn field(
    alloc: Global,
    context: &Context<'_>,
    env: &Scope,
    rule: Rule,
    linear: bool,
    span: Span,
    name: &Name,
) -> Result<Outcome, Fail>
    ensures premises { Passes result (visible_premises env.now this_word span) }
    ensures own { IfOk result (λ o. o.own ≡ (rule, field_fits (wants linear) (field_type context.now name.now.word))) }
    ensures more { IfOk result (λ o. o.more ≡ spec.free) }
    ensures ty { IfOk result (λ o. o.ty ≡ field_type context.now name.now.word) }
{
    visible(env, "this", span)?;
    let field = context.field_type(name.word.as_str());
    let ty = given(alloc, Made::Same, field)?;
    Ok(Outcome::asking(rule, fits(linear, field), ty))
}

fn fits(linear: bool, field: Option<&Ty>) -> bool
    ensures { result ≡ field_fits (wants linear) (option_copied field.entry) }
{
    match field {
        None => false,
        Some(ty) => is_linear(ty) == linear,
    }
}

#[tactic(auto, using(enc_exprs::proofs::Memory::out_of_memory))]
fn called_value(
    alloc: Global,
    context: &Context<'_>,
    env: &mut Scope,
    to: &Receiver,
    name: &Name,
    args: &[Expr],
) -> Result<Outcome, Fail>
    ensures premises { Passes result (spec.call context.now env.old to.now name.now args.now).parts }
    ensures own { IfOk result (λ o. o.own ≡ (spec.call context.now env.old to.now name.now args.now).own) }
    ensures more { IfOk result (λ o. o.more ≡ (spec.call context.now env.old to.now name.now args.now).more) }
    ensures ty { IfOk result (λ o. o.ty ≡ (spec.call context.now env.old to.now name.now args.now).ty) }
    ensures after { OnOk result (env.new ≡ (spec.call context.now env.old to.now name.now args.now).after) }
{
    let method = called(context.tables, receiver_type(env, to), name.word.as_str());
    let ty = given(alloc, Made::Same, result_of(method))?;
    let Demands { own, more } = call(alloc, context, env, to, name, args)?;
    Ok(Outcome { own, more, ty })
}

#[tactic(auto, using(enc_exprs::proofs::Memory::out_of_memory))]
fn sent_value(
    alloc: Global,
    context: &Context<'_>,
    env: &mut Scope,
    to: &Receiver,
    name: &Name,
    args: &[Expr],
) -> Result<Outcome, Fail>
    ensures premises { Passes result (spec.send context.now env.old to.now name.now args.now).parts }
    ensures own { IfOk result (λ o. o.own ≡ (spec.send context.now env.old to.now name.now args.now).own) }
    ensures more { IfOk result (λ o. o.more ≡ (spec.send context.now env.old to.now name.now args.now).more) }
    ensures ty { IfOk result (λ o. o.ty ≡ (spec.send context.now env.old to.now name.now args.now).ty) }
    ensures after { OnOk result (env.new ≡ (spec.send context.now env.old to.now name.now args.now).after) }
{
    let method = sent(context.tables, receiver_type(env, to), name.word.as_str());
    let ty = given(alloc, Made::Future, result_of(method))?;
    let Demands { own, more } = send(alloc, context, env, to, name, args)?;
    Ok(Outcome { own, more, ty })
}

/// Judges the receiver and the arguments of a call, and answers what else its statement has to keep. It
/// refuses by the first premise of the parts that fails, and answers `Fail::Memory` where memory runs out.
/// After an error nothing is known of the variables.
#[tactic(auto, using(enc_premises::proofs::Passing::passing))]
pub fn call(
    alloc: Global,
    context: &Context<'_>,
    env: &mut Scope,
    to: &Receiver,
    name: &Name,
    args: &[Expr],
) -> Result<Demands, Fail>
    ensures premises { Passes result (spec.call context.now env.old to.now name.now args.now).parts }
    ensures own { IfOk result (λ d. d.own ≡ (spec.call context.now env.old to.now name.now args.now).own) }
    ensures more { IfOk result (λ d. d.more ≡ (spec.call context.now env.old to.now name.now args.now).more) }
    ensures after { OnOk result (env.new ≡ (spec.call context.now env.old to.now name.now args.now).after) }
{
    let ty = receiver_type(env, to);
    let method = called(context.tables, ty, name.word.as_str());
    let own = Demand {
        rule: Rule::SCall,
        holds: may_call(to, method, args.len(), ty),
    };
    let more = Demand {
        rule: Rule::SInner,
        holds: may_enter(to, method, ty),
    };
    invoke(alloc, context.names(), env, to, params_of(method), args)?;
    Ok(Demands { own, more })
}

/// Judges the receiver and the arguments of a send, and answers what else its statement has to keep. It
/// refuses by the first premise of the parts that fails, and answers `Fail::Memory` where memory runs out.
/// After an error nothing is known of the variables.
#[tactic(auto, using(enc_premises::proofs::Passing::passing))]
pub fn send(
    alloc: Global,
    context: &Context<'_>,
    env: &mut Scope,
    to: &Receiver,
    name: &Name,
    args: &[Expr],
) -> Result<Demands, Fail>
    ensures premises { Passes result (spec.send context.now env.old to.now name.now args.now).parts }
    ensures own { IfOk result (λ d. d.own ≡ (spec.send context.now env.old to.now name.now args.now).own) }
    ensures more { IfOk result (λ d. d.more ≡ (spec.send context.now env.old to.now name.now args.now).more) }
    ensures after { OnOk result (env.new ≡ (spec.send context.now env.old to.now name.now args.now).after) }
{
    let ty = receiver_type(env, to);
    let method = sent(context.tables, ty, name.word.as_str());
    let own = Demand {
        rule: Rule::SSend,
        holds: may_send(method, args.len(), ty),
    };
    let more = Demand {
        rule: Rule::SSendable,
        holds: may_travel(method),
    };
    invoke(alloc, context.names(), env, to, params_of(method), args)?;
    Ok(Demands { own, more })
}

#[tactic(auto, using(enc_premises::proofs::Passing::passing, enc_exprs::proofs::Memory::out_of_memory))]
fn part(
    alloc: Global,
    context: &Context<'_>,
    env: &Scope,
    shape: Shape,
    expr: &Expr,
) -> Result<Outcome, Fail>
    ensures premises { Passes result (exprs.expr_premises context.now.tables.names env.now Copies expr.now) }
    ensures own { IfOk result (λ o. o.own ≡ (shape.rule, if_known (λ t. is_some (part_by shape.part t)) (exprs.expr_type context.now.tables.names env.now expr.now))) }
    ensures more { IfOk result (λ o. o.more ≡ spec.free) }
    ensures ty { IfOk result (λ o. o.ty ≡ option_map (made_by shape.made) (option_and_then (part_by shape.part) (exprs.expr_type context.now.tables.names env.now expr.now))) }
{
    let ty = expr_type(alloc, context.names(), env, expr, Use::Copies)?;
    let (holds, inner) = inner_of(shape.part, ty.ty());
    let ty = given(alloc, shape.made, inner)?;
    Ok(Outcome::asking(shape.rule, holds, ty))
}

#[tactic(auto, unfolding(enc_rules::specs::Sources::outcome))]
fn bestow(alloc: Global, context: &Context<'_>, env: &Scope, expr: &Expr) -> Result<Outcome, Fail>
    ensures premises { Passes result (spec.outcome context.now env.now (form.Bestow expr.now)).parts }
    ensures own { IfOk result (λ o. o.own ≡ (spec.outcome context.now env.now (form.Bestow expr.now)).own) }
    ensures more { IfOk result (λ o. o.more ≡ spec.free) }
    ensures ty { IfOk result (λ o. o.ty ≡ (spec.outcome context.now env.now (form.Bestow expr.now)).ty) }
{
    let ty = expr_type(alloc, context.names(), env, expr, Use::Copies)?;
    Ok(match ty.ty() {
        None => Outcome::asking(Rule::SBestow, true, None),
        Some(ty) => {
            let local = local_of(ty);
            Outcome::asking(Rule::SBestow, local.is_some(), local.map(Ty::Bestowed))
        }
    })
}

#[tactic(auto, using(enc_premises::proofs::Passing::passing, enc_exprs::proofs::Memory::out_of_memory))]
fn trees(
    alloc: Global,
    context: &Context<'_>,
    env: &Scope,
    left: &Expr,
    right: &Expr,
) -> Result<Outcome, Fail>
    ensures premises { Passes result (exprs.expr_premises context.now.tables.names env.now Copies left.now ⨾ exprs.expr_premises context.now.tables.names env.now Copies right.now) }
    ensures own { IfOk result (λ o. o.own ≡ (rules.SPart, trees_of_one_type (exprs.expr_type context.now.tables.names env.now left.now) (exprs.expr_type context.now.tables.names env.now right.now))) }
    ensures more { IfOk result (λ o. o.more ≡ spec.free) }
    ensures ty { IfOk result (λ o. o.ty ≡ or_else (exprs.expr_type context.now.tables.names env.now left.now) (exprs.expr_type context.now.tables.names env.now right.now)) }
{
    let names = context.names();
    let ty = expr_type(alloc, names, env, left, Use::Copies)?;
    let other = expr_type(alloc, names, env, right, Use::Copies)?;
    let holds = both_trees(ty.ty(), other.ty());
    Ok(Outcome::asking(Rule::SPart, holds, ty.or(other).into_ty()?))
}

fn both_trees(left: Option<&Ty>, right: Option<&Ty>) -> bool
    ensures { result ≡ trees_of_one_type (option_copied left.entry) (option_copied right.entry) }
{
    may_be_tree(left) && may_be_tree(right) && agree(left, right)
}

fn may_be_tree(ty: Option<&Ty>) -> bool
    ensures { result ≡ if_known (λ t. is_some (parts.tree_of t)) (option_copied ty.entry) }
{
    match ty {
        None => true,
        Some(ty) => tree_of(ty).is_some(),
    }
}

#[tactic(auto, using(enc_premises::proofs::Passing::passing, enc_exprs::proofs::Memory::out_of_memory))]
fn applied(
    alloc: Global,
    context: &Context<'_>,
    env: &mut Scope,
    shape: Shape,
    expr: &Expr,
    name: &Name,
    args: &[Expr],
) -> Result<Outcome, Fail>
    ensures premises { Passes result (exprs.expr_premises context.now.tables.names env.old Copies expr.now ⨾ calls.arguments_of context.now.tables.names env.old (calls.further (function_of context.now.tables name.now.word)) args.now) }
    ensures own { IfOk result (λ o. o.own ≡ (shape.rule, if_known (λ t. is_some (part_by shape.part t)) (exprs.expr_type context.now.tables.names env.old expr.now) && calls.applies (function_of context.now.tables name.now.word) (length args.now) (option_and_then (part_by shape.part) (exprs.expr_type context.now.tables.names env.old expr.now)))) }
    ensures more { IfOk result (λ o. o.more ≡ spec.free) }
    ensures ty { IfOk result (λ o. o.ty ≡ option_map (made_by shape.made) (calls.result_of (function_of context.now.tables name.now.word))) }
    ensures after { OnOk result (env.new ≡ calls.after_args context.now.tables.names env.old args.now) }
{
    let function = context.function(name.word.as_str());
    let holds = may_apply(alloc, context, env, shape.part, expr, function, args.len())?;
    arguments(alloc, context.names(), env, further(function), args)?;
    let ty = given(alloc, shape.made, result_of(function))?;
    Ok(Outcome::asking(shape.rule, holds, ty))
}

/// Whether the operand's type has the part, as far as it is known, and the function can be applied to the
/// part and to so many further arguments.
fn may_apply(
    alloc: Global,
    context: &Context<'_>,
    env: &Scope,
    part: Part,
    expr: &Expr,
    function: Option<&Signature>,
    further: usize,
) -> Result<bool, Fail>
    ensures premises { Passes result (exprs.expr_premises context.now.tables.names env.now Copies expr.now) }
    ensures holds { IfOk result (λ holds. holds ≡ (if_known (λ t. is_some (part_by part t)) (exprs.expr_type context.now.tables.names env.now expr.now) && calls.applies (option_copied function.entry) further (option_and_then (part_by part) (exprs.expr_type context.now.tables.names env.now expr.now)))) }
{
    let ty = expr_type(alloc, context.names(), env, expr, Use::Copies)?;
    let (holds, inner) = inner_of(part, ty.ty());
    Ok(holds && applies(function, further, inner))
}

/// Whether a source may not stand inside an atomic block: where the actor would wait, and calls.
pub fn waits(form: &SourceForm) -> bool
    ensures { result ≡ spec.waits form.now }
{
    match form {
        SourceForm::Call(_, _, _) => true,
        SourceForm::Get(_) | SourceForm::Await(_) | SourceForm::Extract(_) => true,
        _ => false,
    }
}
