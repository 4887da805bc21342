// Methods and functions, apart from what their owners ask of them.
ghost use Rattle.std.specs.Prelude.{◌≡◌, IfOk};
ghost use Rattle.enc_modes.specs.Modes as modes;
ghost use Rattle.enc_premises.specs.Premises.{each, if_known};
ghost use Rattle.enc_premises.specs.Passing.{Passes};
ghost use Rattle.enc_types.specs.Words.{every};
ghost use Rattle.enc_types.specs.Written.{type_of, type_premises};
ghost use Rattle.enc_decls.specs.Rules as spec;

use enc_ast::{Fail, Method, Param};
use enc_modes::{Ty, is_shareable};
use enc_types::{Names, Places, body_types};
use std::alloc::{AllocError, Global};

/// Refuses by the first type in a method or a function that breaks a rule, and answers `Fail::Memory`
/// where memory runs out.
#[tactic(auto, using(crate::proofs::Passing::passing))]
pub fn routine_types(names: &Names, method: &Method) -> Result<(), Fail>
    ensures { Passes result (spec.routine_types names.now method.now) }
{
    param_types(names, method.params.as_slice())?;
    names.written(&method.result)?;
    body_types(names, method.body.as_slice())
}

#[tactic(auto, using(crate::proofs::Loops::rests))]
fn param_types(names: &Names, params: &[Param]) -> Result<(), Fail>
    ensures { Passes result (each (λ p. type_premises names.now p.ty) params.now) }
{
    for param in params {
        names.written(&param.ty)?;
    }
    Ok(())
}

/// Whether no two parameters have one name, or `AllocError` where memory runs out.
#[tactic(auto, using(crate::proofs::Words::distinct_fresh))]
pub fn has_distinct_params(alloc: Global, params: &[Param]) -> Result<bool, AllocError>
    ensures { IfOk result (λ it. it ≡ spec.distinct_words (spec.param_words params.now)) }
{
    let mut seen = Places::new(alloc);
    for param in params {
        if seen.has(param.name.word.as_str()) {
            return Ok(false);
        }
        seen.add(&param.name.word)?;
    }
    Ok(true)
}

/// Whether a method by itself may be a function, or `AllocError` where memory runs out.
#[tactic(auto, unfolding(crate::specs::Rules::is_function))]
pub fn is_function(alloc: Global, names: &Names, method: &Method) -> Result<bool, AllocError>
    ensures { IfOk result (λ it. it ≡ spec.is_function names.now method.now) }
{
    let params = method.params.as_slice();
    if !has_distinct_params(alloc, params)? || params.is_empty() {
        return Ok(false);
    }
    Ok(shares_params(names, params)? && may_be_shared(&names.ty(&method.result)?))
}

fn shares_params(names: &Names, params: &[Param]) -> Result<bool, AllocError>
    ensures { IfOk result (λ it. it ≡ every (λ p. if_known modes.is_shareable (type_of names.now p.ty)) params.now) }
{
    for param in params {
        if !may_be_shared(&names.ty(&param.ty)?) {
            return Ok(false);
        }
    }
    Ok(true)
}

fn may_be_shared(ty: &Option<Ty>) -> bool
    ensures { result ≡ if_known modes.is_shareable ty.now }
{
    match ty {
        None => true,
        Some(ty) => is_shareable(ty),
    }
}
