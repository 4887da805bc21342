// What being within the limits says of the names of variables.
ghost use Rattle.std.specs.Prelude.{ℕ, List, IsTrue};
ghost use Rattle.enc_ast.specs.declared.rules.Span.{Span};
ghost use Rattle.enc_ast.specs.declared.decls.Name.{Name};
ghost use Rattle.enc_ast.specs.declared.decls.Param.{Param};
ghost use Rattle.enc_ast.specs.declared.TypeText.{TypeText};
ghost use Rattle.enc_ast.specs.declared.Expr.{Expr};
ghost use Rattle.enc_ast.specs.declared.sources.Source.{Source};
ghost use Rattle.enc_ast.specs.declared.Stmt.{Stmt};
ghost use Rattle.enc_ast.specs.declared.StmtForm.TheVariants.{Let, Assign, Split, Pack, Choose};
ghost use Rattle.enc_limits.specs.Names.{IsFree, Fits};
ghost use Rattle.enc_limits.specs.Programs.{param_fits};

/// Within the limits, wherever a statement or a parameter stands, no word of the language is the name of a
/// variable that gets another value, of one that is bound, taken apart, put together, chosen or packed, or of
/// a parameter. This is a law over the definitions: the call answers nothing, changes nothing and takes no
/// memory.
pub fn names_are_no_words()
    ensures assigned { (x : Name) (y : Expr) (v : Span) (brackets variables : ℕ) → Fits (Assign x y) v brackets variables → IsFree x }
    ensures bound { (x : Name) (s : Source) (v : Span) (brackets variables : ℕ) → Fits (Let x s) v brackets variables → IsFree x }
    ensures split { (x y z : Name) (t u : TypeText) (v : Span) (brackets variables : ℕ) → Fits (Split x y t z u) v brackets variables → IsFree x × (IsFree y × IsFree z) }
    ensures packed { (x y z : Name) (a b : List Stmt) (v : Span) (brackets variables : ℕ) → Fits (Pack x y z a b) v brackets variables → IsFree x × (IsFree y × IsFree z) }
    ensures chosen { (x y z : Name) (v : Span) (brackets variables : ℕ) → Fits (Choose x y z) v brackets variables → IsFree x × IsFree z }
    ensures parameter { (x : Param) (brackets : ℕ) → IsTrue (param_fits brackets x) → IsFree x.name }
{}
