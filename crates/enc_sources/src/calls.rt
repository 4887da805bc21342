// Calls, sends and uses of functions.
ghost use Rattle.std.specs.Prelude.{◌≡◌, map, not, slice_get, OnOk};
ghost use Rattle.std.specs.Option.{option_copied};
ghost use Rattle.enc_modes.specs.Modes as modes;
ghost use Rattle.enc_premises.specs.Premises.{if_known};
ghost use Rattle.enc_premises.specs.Passing.{Passes};
ghost use Rattle.enc_types.specs.Words.{every};
ghost use Rattle.enc_exprs.specs.declared.uses.Use.TheVariants.{Consumes};
ghost use Rattle.enc_exprs.specs.Exprs.{consumes, judged, operand};
ghost use Rattle.enc_rules.specs.Parts as parts;
ghost use Rattle.enc_rules.specs.Calls as spec;
ghost use Rattle.enc_sources.specs.Arguments.{wanted};

use crate::parts::{is_cap, is_subordinate, is_target};
use enc_ast::{Expr, Fail, Receiver, Rule, Span};
use enc_exprs::{Use, consume, expr_type, lend, regain, type_in, variable};
use enc_flow::Scope;
use enc_modes::{Ty, is_sendable, is_shareable};
use enc_names::{Signature, Slot, Tables};
use enc_premises::demand;
use enc_types::Names;
use std::alloc::Global;

/// Judges a receiver and arguments. A receiver of a linear type is moved before its arguments, and can
/// be used again after them. The arguments are to be of the types of the parameters, where there are as
/// many. It refuses by the first premise that fails, and answers `Fail::Memory` where memory runs out.
/// After an error nothing is known of the variables.
#[tactic(auto, using(enc_premises::proofs::Passing::passing), unfolding(enc_rules::specs::Calls::invoked, enc_rules::specs::Calls::after_invoked))]
pub fn invoke(
    alloc: Global,
    names: &Names,
    env: &mut Scope,
    to: &Receiver,
    params: Option<&[Slot]>,
    args: &[Expr],
) -> Result<(), Fail>
    ensures premises { Passes result (spec.invoked names.now env.old to.now (option_copied params.entry) args.now) }
    ensures after { OnOk result (env.new ≡ spec.after_invoked names.now env.old to.now args.now) }
{
    variable(env, Use::Looks, is_this(to), word_of(to), span_of(to))?;
    lend(env, word_of(to));
    arguments(alloc, names, env, params, args)?;
    regain(env, word_of(to));
    Ok(())
}

/// The type of a receiver, or `None` where it isn't known or there is no such variable.
pub fn receiver_type<'a>(env: &'a Scope, to: &Receiver) -> Option<&'a Ty>
    ensures { option_copied result ≡ spec.receiver_type env.now to.now }
{
    type_in(env, word_of(to))
}

fn is_this(to: &Receiver) -> bool
    ensures { result ≡ spec.is_this to.now }
{
    match to {
        Receiver::Name(_) => false,
        Receiver::This(_) => true,
    }
}

fn word_of(to: &Receiver) -> &str
    ensures { result.now ≡ spec.receiver_word to.now }
{
    match to {
        Receiver::Name(name) => name.word.as_str(),
        Receiver::This(_) => "this",
    }
}

fn span_of(to: &Receiver) -> Span
    ensures { result ≡ spec.receiver_span to.now }
{
    match to {
        Receiver::Name(name) => name.span,
        Receiver::This(span) => *span,
    }
}

/// Judges arguments one after another, each in a consuming place. Where there are as many parameters,
/// each is to be of the type of its parameter. It refuses by the first premise that fails, and answers
/// `Fail::Memory` where memory runs out. After an error nothing is known of the variables.
pub fn arguments(
    alloc: Global,
    names: &Names,
    env: &mut Scope,
    params: Option<&[Slot]>,
    args: &[Expr],
) -> Result<(), Fail>
    ensures premises { Passes result (spec.arguments_of names.now env.old (option_copied params.entry) args.now) }
    ensures after { OnOk result (env.new ≡ spec.after_args names.now env.old args.now) }
{
    each_argument(alloc, names, env, asked(params, args.len()), args)
}

fn asked(params: Option<&[Slot]>, count: usize) -> &[Slot]
    ensures { result.now ≡ spec.asked_of (option_copied params.entry) count }
{
    match params {
        Some(params) if params.len() == count => params,
        _ => &[],
    }
}

fn each_argument(
    alloc: Global,
    names: &Names,
    env: &mut Scope,
    params: &[Slot],
    args: &[Expr],
) -> Result<(), Fail>
    ensures premises { Passes result (spec.arguments env.old params.now (map (judged names.now) args.now)) }
    ensures after { OnOk result (env.new ≡ spec.after_arguments env.old (map (judged names.now) args.now)) }
{
    for at in 0..args.len() {
        argument(alloc, names, env, param_at(params, at), &args[at])?;
    }
    Ok(())
}

fn param_at(params: &[Slot], at: usize) -> Option<&Slot>
    ensures { option_copied result ≡ slice_get params.now at }
{
    params.get(at)
}

fn argument(
    alloc: Global,
    names: &Names,
    env: &mut Scope,
    param: Option<&Slot>,
    arg: &Expr,
) -> Result<(), Fail>
    ensures premises { Passes result (operand env.old Consumes (wanted (option_copied param.entry)) (judged names.now arg.now)) }
    ensures after { OnOk result (env.new ≡ consumes env.old (judged names.now arg.now).name) }
{
    ask_argument(alloc, names, env, param, arg)?;
    consume(env, arg);
    Ok(())
}

#[tactic(auto, using(enc_premises::proofs::Passing::passing, enc_exprs::proofs::Meaning::spans))]
fn ask_argument(
    alloc: Global,
    names: &Names,
    env: &Scope,
    param: Option<&Slot>,
    arg: &Expr,
) -> Result<(), Fail>
    ensures { Passes result (operand env.now Consumes (wanted (option_copied param.entry)) (judged names.now arg.now)) }
{
    let ty = expr_type(alloc, names, env, arg, Use::Consumes)?;
    demand(Rule::EType, arg.span, fits(param, ty.ty()))
}

fn fits(param: Option<&Slot>, ty: Option<&Ty>) -> bool
    ensures { result ≡ if_known (wanted (option_copied param.entry)) (option_copied ty.entry) }
{
    match (param, ty) {
        (Some(param), Some(ty)) => param.ty.is(ty),
        _ => true,
    }
}

/// The method that a call names, or `None` where the receiver's type isn't known or hasn't exactly one
/// method of the name. It takes no memory.
#[tactic(auto, unfolding(enc_rules::specs::Calls::called))]
pub fn called<'a>(tables: &'a Tables, ty: Option<&Ty>, name: &str) -> Option<&'a Signature>
    ensures { option_copied result ≡ spec.called tables.now (option_copied ty.entry) name.now }
{
    tables.signature(tables.method(ty?, name)?)
}

/// The method that a send names, or `None` where the receiver's type isn't known or is none to which
/// messages with this name can be sent. It takes no memory.
#[tactic(auto, unfolding(enc_rules::specs::Calls::sent))]
pub fn sent<'a>(tables: &'a Tables, ty: Option<&Ty>, name: &str) -> Option<&'a Signature>
    ensures { option_copied result ≡ spec.sent tables.now (option_copied ty.entry) name.now }
{
    tables.signature(tables.sent_method(ty?, name)?)
}

/// The parameters of a method, where there is one.
pub fn params_of(method: Option<&Signature>) -> Option<&[Slot]>
    ensures { option_copied result ≡ spec.params_of (option_copied method.entry) }
{
    match method {
        Some(method) => Some(method.params.as_slice()),
        None => None,
    }
}

/// The type of what a method gives, where there is one.
pub fn result_of(method: Option<&Signature>) -> Option<&Ty>
    ensures { option_copied result ≡ spec.result_of (option_copied method.entry) }
{
    match method {
        Some(method) => Some(&method.result),
        None => None,
    }
}

fn takes(params: Option<&[Slot]>, count: usize) -> bool
    ensures { result ≡ spec.takes (option_copied params.entry) count }
{
    match params {
        Some(params) => params.len() == count,
        None => false,
    }
}

/// Whether a receiver of this type has exactly one method of the name that can be called, and it takes
/// so many arguments. Where the type isn't known, nothing is refused.
pub fn may_call(to: &Receiver, method: Option<&Signature>, count: usize, ty: Option<&Ty>) -> bool
    ensures { result ≡ spec.may_call to.now (option_copied method.entry) count (option_copied ty.entry) }
{
    match ty {
        None => true,
        Some(ty) => (is_this(to) || is_cap(ty)) && takes(params_of(method), count),
    }
}

/// Whether a method is called on `this` or on a subordinate reference, or neither takes nor gives one.
/// Where the type isn't known, nothing is refused.
pub fn may_enter(to: &Receiver, method: Option<&Signature>, ty: Option<&Ty>) -> bool
    ensures { result ≡ spec.may_enter to.now (option_copied method.entry) (option_copied ty.entry) }
{
    match ty {
        None => true,
        Some(ty) => is_this(to) || is_subordinate(ty) || !is_inner(method),
    }
}

fn is_inner(method: Option<&Signature>) -> bool
    ensures { result ≡ spec.is_inner (option_copied method.entry) }
{
    match method {
        None => false,
        Some(method) => {
            takes_subordinate(method.params.as_slice()) || is_subordinate(&method.result)
        }
    }
}

fn takes_subordinate(params: &[Slot]) -> bool
    ensures { result ≡ not (every (λ p. not (parts.is_subordinate p.ty)) params.now) }
{
    for param in params {
        if is_subordinate(&param.ty) {
            return true;
        }
    }
    false
}

/// Whether messages can be sent to what has this type, and it has the method with so many parameters.
/// Where the type isn't known, nothing is refused.
pub fn may_send(method: Option<&Signature>, count: usize, ty: Option<&Ty>) -> bool
    ensures { result ≡ spec.may_send (option_copied method.entry) count (option_copied ty.entry) }
{
    match ty {
        None => true,
        Some(ty) => is_target(ty) && takes(params_of(method), count),
    }
}

/// Whether what a method takes may go to another actor, and its result may be shared. Where there is no
/// method, nothing is refused.
pub fn may_travel(method: Option<&Signature>) -> bool
    ensures { result ≡ spec.may_travel (option_copied method.entry) }
{
    match method {
        None => true,
        Some(method) => are_sendable(method.params.as_slice()) && is_shareable(&method.result),
    }
}

fn are_sendable(params: &[Slot]) -> bool
    ensures { result ≡ every (λ p. modes.is_sendable p.ty) params.now }
{
    for param in params {
        if !is_sendable(&param.ty) {
            return false;
        }
    }
    true
}

/// The parameters of a function behind its first, where there is a function.
pub fn further(function: Option<&Signature>) -> Option<&[Slot]>
    ensures { option_copied result ≡ spec.further (option_copied function.entry) }
{
    match function?.params.as_slice() {
        [] => Some(&[]),
        [_, others @ ..] => Some(others),
    }
}

/// Whether a function takes a value of this type, as far as that is known, and so many further arguments.
pub fn applies(function: Option<&Signature>, count: usize, ty: Option<&Ty>) -> bool
    ensures { result ≡ spec.applies (option_copied function.entry) count (option_copied ty.entry) }
{
    let Some(signature) = function else {
        return false;
    };
    match signature.params.get(0) {
        Some(first) => fits(Some(first), ty) && takes(further(function), count),
        None => false,
    }
}
