// The types of expressions, by the tables of a program.
ghost use Rattle.std.specs.Prelude.{IfOk};
ghost use Rattle.enc_modes.specs.declared.ty.Ty.{Ty as Value};
ghost use Rattle.enc_premises.specs.Passing.{Tells, MemoryOnly};
ghost use Rattle.enc_exprs.specs.declared.uses.Use.TheVariants.{Copies};
ghost use Rattle.enc_exprs.specs.Exprs.{expr_premises};
ghost use Rattle.enc_exprs.specs.Typing.{IsTyped};

use enc_ast::{Expr, Fail};
use enc_exprs::typed;
use enc_flow::Env;
use enc_modes::Ty;
use enc_names::Tables;
use std::alloc::Global;

/// The type of an expression in a copying place. It answers a type exactly where the expression is well
/// typed, and otherwise refuses by the first premise that fails; where memory runs out, it answers
/// `Fail::Memory`.
pub fn type_of(alloc: Global, tables: &Tables, env: &Env, expr: &Expr) -> Result<Ty, Fail>
    ensures ok { IfOk result (λ t. IsTyped tables.now.names env.now expr.now Copies t env.now) }
    ensures tells { Tells result (expr_premises tables.now.names env.now Copies expr.now) }
    ensures accepts { (t : Value) → IsTyped tables.now.names env.now expr.now Copies t env.now → MemoryOnly result }
{
    typed(alloc, tables.names(), env, expr)
}
