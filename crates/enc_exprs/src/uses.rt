// Variables in their places.
ghost use Rattle.std.specs.Prelude.{◌≡◌, ◌<◌, length, IfOk, IfSome, is_some};
ghost use Rattle.std.specs.Option.{option_copied};
ghost use Rattle.enc_premises.specs.Passing.{Passes};
ghost use Rattle.enc_flow.specs.Env.{at_number, find, linear, moved_of, ty_of};
ghost use Rattle.enc_exprs.specs.Uses as spec;

use enc_ast::{Fail, Rule, Span};
use enc_flow::Scope;
use enc_modes::{Ty, is_linear};
use enc_premises::demand;

/// What an expression does with a variable that it is.
#[derive(Clone, Copy, Debug, PartialEq, Eq)]
pub enum Use {
    /// Its value is copied.
    Copies,
    /// A linear variable is moved.
    Consumes,
    /// It is looked at. A linear variable may stand there, and stays.
    Looks,
}

/// The type of a variable in a place, or `None` where it isn't known. It refuses the variable where there
/// is none of this name, where it was moved, or where it is linear and the place lets no linear one stand.
/// `mine` says that it is `this`, which may not be used up. It takes no memory.
#[tactic(auto, using(enc_premises::proofs::Passing::passing, crate::proofs::Variables::variables), unfolding(crate::specs::Uses::variable, enc_flow::specs::Env::find))]
pub fn variable<'a>(
    env: &'a Scope,
    place: Use,
    mine: bool,
    name: &str,
    span: Span,
) -> Result<Option<&'a Ty>, Fail>
    ensures premises { Passes result (spec.variable env.now place mine name.now span) }
    ensures ty { IfOk result (λ t. option_copied t ≡ ty_of (find env.now name.now)) }
{
    let found = env.find(name);
    demand(Rule::EVar, span, found.is_some())?;
    demand(Rule::EMoved, span, !is_moved(env, found))?;
    let ty = type_at(env, found);
    demand(
        Rule::ECopy,
        span,
        lets_linear(place, mine) || !is_known_linear(ty),
    )?;
    Ok(ty)
}

/// Refuses a name where there is no variable of this name. It takes no memory.
#[tactic(auto, using(crate::proofs::Variables::variables), unfolding(crate::specs::Uses::visible, enc_flow::specs::Env::find))]
pub fn visible(env: &Scope, name: &str, span: Span) -> Result<(), Fail>
    ensures { Passes result (spec.visible env.now name.now span) }
{
    demand(Rule::EVar, span, env.find(name).is_some())
}

/// The variable of a name is moved from now on, where its type is linear. Where there is no variable of
/// the name, nothing changes. It takes no memory.
#[tactic(auto, unfolding(crate::specs::Uses::lends))]
pub fn lend(env: &mut Scope, name: &str)
    ensures { env.new ≡ spec.lends env.old name.now }
{
    if let Some(variable) = env.find(name) {
        env.take(variable);
    }
}

/// The variable of a name can be used again. Where there is no variable of the name, nothing changes. It
/// takes no memory.
#[tactic(auto, unfolding(crate::specs::Uses::regains))]
pub fn regain(env: &mut Scope, name: &str)
    ensures { env.new ≡ spec.regains env.old name.now }
{
    if let Some(variable) = env.find(name) {
        env.give(variable);
    }
}

/// The type of a variable, or `None` where it isn't known or there is no variable of this name.
#[tactic(auto, unfolding(enc_flow::specs::Env::find))]
pub fn type_in<'a>(env: &'a Scope, name: &str) -> Option<&'a Ty>
    ensures { option_copied result ≡ ty_of (find env.now name.now) }
{
    type_at(env, env.find(name))
}

fn type_at(env: &Scope, found: Option<u32>) -> Option<&Ty>
    requires { IfSome found (λ variable. variable < length env.now) }
    ensures { option_copied result ≡ ty_of (at_number env.now found) }
{
    match found {
        Some(variable) => env.known(variable),
        None => None,
    }
}

fn lets_linear(place: Use, mine: bool) -> bool
    ensures { result ≡ spec.lets_linear place mine }
{
    match place {
        Use::Copies => false,
        Use::Consumes => !mine,
        Use::Looks => true,
    }
}

fn is_moved(env: &Scope, found: Option<u32>) -> bool
    requires { IfSome found (λ variable. variable < length env.now) }
    ensures { result ≡ moved_of (at_number env.now found) }
{
    match found {
        Some(variable) => env.is_moved(variable),
        None => false,
    }
}

fn is_known_linear(ty: Option<&Ty>) -> bool
    ensures { result ≡ linear (option_copied ty.entry) }
{
    match ty {
        Some(ty) => is_linear(ty),
        None => false,
    }
}
