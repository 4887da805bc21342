// The rules of programs.
ghost use Rattle.std.specs.Prelude.{◌≡◌, IfOk};
ghost use Rattle.enc_premises.specs.Passing.{Passes, Tells, Accepts};
ghost use Rattle.enc_decls.specs.Rules.{table_premises};
ghost use Rattle.enc_limits.specs.Programs.{IsWithinLimits};
ghost use Rattle.enc_names.specs.Members.{tables_of};
ghost use Rattle.enc_rules.specs.Programs as spec;
ghost use Rattle.enc_rules.specs.WellTyped.{WellTyped};
ghost use Rattle.enc_check.specs.Answers.{Checks, Spares};

use crate::routines::bodies;
use enc_ast::{Fail, Program};
use enc_names::{Tables, tables};
use enc_rules::Checked;
use std::alloc::Global;

/// The program with its tables, where it keeps all rules. Otherwise the program is dropped, and the answer
/// is which rule fails first and at which node, or that memory ran out.
#[tactic(auto, using(crate::proofs::Whole::checked))]
pub fn check(alloc: Global, program: Program) -> Result<Checked, Fail>
    requires within { IsWithinLimits program }
    ensures kept { IfOk result (λ checked. checked ≡ program) }

    // Ok: it is well typed. Reject: this is its first failure.
    ensures tells { Checks result program }

    // What is well typed is not refused.
    ensures spares { Spares result program }
{
    let tables = judge(alloc, &program)?;
    Ok(Checked::new(program, tables))
}

/// The tables of a program, where it keeps all rules. Otherwise it answers which rule fails first and at
/// which node, or that memory ran out: also where more than 1,024 variables would be visible somewhere.
#[tactic(auto, using(crate::proofs::Whole::judged))]
pub fn judge(alloc: Global, program: &Program) -> Result<Tables, Fail>
    ensures tells { Tells result (spec.program_premises program.now) }
    ensures accepts { Accepts result (spec.program_premises program.now) }
    ensures tables { IfOk result (λ t. t ≡ tables_of program.now.decls) }
{
    whole(alloc, program)
}

#[tactic(auto, using(crate::proofs::Whole::parts))]
fn whole(alloc: Global, program: &Program) -> Result<Tables, Fail>
    ensures premises { Passes result (spec.program_premises program.now) }
    ensures tables { IfOk result (λ t. t ≡ tables_of program.now.decls) }
{
    let tables = declared(alloc, program)?;
    all_bodies(alloc, &tables, program)?;
    Ok(tables)
}

#[tactic(auto, using(crate::proofs::Whole::told))]
fn declared(alloc: Global, program: &Program) -> Result<Tables, Fail>
    ensures premises { Passes result (table_premises program.now) }
    ensures tables { IfOk result (λ t. t ≡ tables_of program.now.decls) }
{
    tables(alloc, program)
}

#[tactic(auto, unfolding(enc_rules::specs::Programs::body_premises))]
fn all_bodies(alloc: Global, tables: &Tables, program: &Program) -> Result<(), Fail>
    requires { tables.now ≡ tables_of program.now.decls }
    ensures { Passes result (spec.body_premises program.now) }
{
    bodies(alloc, tables, program.decls.as_slice())
}
