// What is said of each program of the thin form.
ghost use Rattle.std.specs.Prelude.{IsTrue};
ghost use Rattle.enc_ast.specs.Thin.{is_thin};
ghost use Rattle.enc_ast.specs.declared.decls.Program.{Program};
ghost use Rattle.enc_rules.specs.WellTyped.{WellTyped};

/// A program of the thin form is well typed: its declaration keeps all rules, and so does each statement of
/// `main`. This is a law over the definitions: the call answers nothing, changes nothing and takes no memory.
pub fn thin_is_well_typed()
    ensures { (p : Program) → IsTrue (is_thin p) → WellTyped p }
{}
