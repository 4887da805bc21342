// What the declarations of a program are like that keep all rules.
ghost use Rattle.std.specs.Prelude.{◌≡◌, ℕ, List};
ghost use Rattle.enc_ast.specs.declared.decls.Program.{Program};
ghost use Rattle.enc_decls.specs.Rules.{HasTables};
ghost use Rattle.enc_decls.specs.Laws.{IsNamedAt, IsMainAt};

/// A program whose declarations keep all rules starts in exactly one active class.
pub fn one_main()
    ensures there { (p : Program) → HasTables p → (k : ℕ) × IsMainAt p k }
    ensures alone { (p : Program) (j k : ℕ) → HasTables p → IsMainAt p j → IsMainAt p k → j ≡ k }
{}

/// No two of its declarations have one name.
pub fn one_name()
    ensures { (p : Program) (j k : ℕ) (x : List ℕ) → HasTables p → IsNamedAt p j x → IsNamedAt p k x → j ≡ k }
{}
