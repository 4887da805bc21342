// New variables, and values that are used up.
ghost use Rattle.std.specs.Prelude.{◌≡◌, OnOk};
ghost use Rattle.enc_premises.specs.Passing.{MemoryOnly};
ghost use Rattle.enc_flow.specs.Env.{declares};
ghost use Rattle.enc_rules.specs.Stmts as spec;

use enc_ast::{Expr, Fail, Name, Word};
use enc_exprs::consume;
use enc_flow::Scope;
use enc_modes::Ty;
use enc_sources::Context;

/// Whether no variable of this name is visible. It takes no memory.
#[tactic(auto, using(enc_exprs::proofs::Variables::variables), unfolding(enc_flow::specs::Env::find))]
pub fn is_free(env: &Scope, name: &Name) -> bool
    ensures { result ≡ spec.fresh env.now name.now }
{
    env.find(name.word.as_str()).is_none()
}

/// Whether no variable of either name is visible, and the names differ. It takes no memory.
pub fn are_free(env: &Scope, left: &Name, right: &Name) -> bool
    ensures { result ≡ spec.both_fresh env.now left.now right.now }
{
    is_free(env, left) && is_free(env, right) && !left.word.is(right.word.as_str())
}

/// Adds a variable, whose type may be unknown. It answers `Fail::Memory` where memory runs out, also where
/// there are 1,024 already.
#[tactic(auto, using(crate::proofs::Memory::memory))]
pub fn declare(env: &mut Scope, name: &Name, ty: Option<Ty>) -> Result<(), Fail>
    ensures memory { MemoryOnly result }
    ensures after { OnOk result (env.new ≡ declares env.old name.now.word ty) }
{
    let word = name.word.copy()?;
    add(env, word, ty)
}

/// Adds a variable of this word, and answers `Fail::Memory` where `declare` does.
#[tactic(auto, using(crate::proofs::Memory::memory))]
pub fn add(env: &mut Scope, word: Word, ty: Option<Ty>) -> Result<(), Fail>
    ensures memory { MemoryOnly result }
    ensures after { OnOk result (env.new ≡ declares env.old word ty) }
{
    if env.len() >= 1024 {
        return Err(Fail::Memory);
    }
    match ty {
        Some(ty) => env.declare(word, ty)?,
        None => env.declare_unknown(word)?,
    };
    Ok(())
}

/// Uses a value up: where it is a variable of a linear type, that one is moved. It takes no memory.
pub fn use_up(context: &Context<'_>, env: &mut Scope, value: &Expr)
    ensures { env.new ≡ spec.consumed context.now env.old value.now }
{
    consume(env, value);
}
