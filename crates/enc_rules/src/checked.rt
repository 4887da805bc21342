// Programs that keep all rules.
ghost use Rattle.std.specs.Prelude.{◌≡◌};
ghost use Rattle.enc_limits.specs.Programs.{IsWithinLimits};
ghost use Rattle.enc_names.specs.Members.{tables_of};
ghost use Rattle.enc_rules.specs.WellTyped.{WellTyped};

use enc_ast::Program;
use enc_names::Tables;
use std::marker::Model;

/// A program within the limits that keeps all rules, with its tables. Contracts see the program.
#[derive(Drop)]
pub struct Checked {
    program: Program,
    tables: Tables,
}

impl Model for Checked {
    ghost use Rattle.std.specs.Prelude.{◌≡◌};
    ghost use Rattle.std.specs.Coded.{codes};
    ghost use Rattle.enc_limits.specs.Programs.{IsWithinLimits};
    ghost use Rattle.enc_names.specs.Members.{tables_of};
    ghost use Rattle.enc_rules.specs.WellTyped.{WellTyped};
    ghost use Rattle.enc_ast.specs.declared.decls.Program as value;
    ghost use Rattle.enc_ast.specs.contracts.stmts.StmtForm as stmts;
    ghost use Rattle.enc_ast.specs.contracts.exprs.ExprForm as exprs;
    ghost use Rattle.enc_ast.specs.contracts.types.TypeForm as types;

    ghost Value = { value.Program };

    ghost coded = { Prim.hlevel (codes, stmts.the_row.coded, exprs.the_row.coded, types.the_row.coded) };

    ghost view = { λ checked. checked.program };

    ghost invariant = { λ checked. WellTyped checked.program × (IsWithinLimits checked.program × (checked.tables ≡ tables_of checked.program.decls)) };
}

impl Checked {
    /// A program that is known to be within the limits and to keep all rules, with its tables.
    pub fn new(program: Program, tables: Tables) -> Checked
        requires well_typed { WellTyped program }
        requires within { IsWithinLimits program }
        requires tables { tables ≡ tables_of program.decls }
        ensures { result ≡ program }
    {
        Checked { program, tables }
    }

    /// The program.
    pub fn program(&self) -> &Program
        ensures program { result.now ≡ self.now }
        ensures well_typed { WellTyped self.now }
        ensures within { IsWithinLimits self.now }
    {
        &self.program
    }

    /// The tables of the program.
    pub fn tables(&self) -> &Tables
        ensures { result.now ≡ tables_of self.now.decls }
    {
        &self.tables
    }

    /// The program alone.
    pub fn into_program(self) -> Program
        ensures program { result ≡ self }
        ensures well_typed { WellTyped self }
        ensures within { IsWithinLimits self }
    {
        let Checked { program, tables: _ } = self;
        program
    }
}
