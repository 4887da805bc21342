// The tables of a program that keeps the rules of declarations.
ghost use Rattle.std.specs.Prelude.{◌≡◌, IfOk};
ghost use Rattle.enc_premises.specs.Passing.{Tells, Accepts};
ghost use Rattle.enc_decls.specs.Rules.{table_premises};
ghost use Rattle.enc_names.specs.Members.{tables_of};

use crate::Tables;
use enc_ast::{Fail, Program};
use enc_decls::judge;
use enc_types::Names;
use std::alloc::Global;

/// The tables of a program, where its declarations keep all rules. Otherwise it answers which rule fails
/// first and at which node, or that memory ran out.
#[tactic(auto, using(crate::proofs::Passed::judged), unfolding(crate::specs::Members::tables_of))]
pub fn tables(alloc: Global, program: &Program) -> Result<Tables, Fail>
    ensures tables { IfOk result (λ t. t ≡ tables_of program.now.decls) }
    ensures tells { Tells result (table_premises program.now) }
    ensures accepts { Accepts result (table_premises program.now) }
{
    let decls = program.decls.as_slice();
    let names = Names::of(alloc, decls)?;
    judge(alloc, program, &names)?;
    let tables = Tables::of(alloc, names, decls)?;
    Ok(tables)
}
