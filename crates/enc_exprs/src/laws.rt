// What the premises of expressions come to.
ghost use Rattle.std.specs.Prelude.{◌≡◌, ℕ, List, Option, Some, true, is_some};
ghost use Rattle.enc_ast.specs.declared.TypeText.{TypeText};
ghost use Rattle.enc_ast.specs.declared.Expr.{Expr};
ghost use Rattle.enc_modes.specs.declared.ty.Ty.{Ty};
ghost use Rattle.enc_premises.specs.First.{AllHold};
ghost use Rattle.enc_types.specs.Names.{Names};
ghost use Rattle.enc_types.specs.Written.{type_of, type_premises};
ghost use Rattle.enc_types.specs.Bodies.{expr_types};
ghost use Rattle.enc_flow.specs.Env.{Env, cut, declares, merged};
ghost use Rattle.enc_exprs.specs.declared.uses.Use.{Use as Place};
ghost use Rattle.enc_exprs.specs.Uses.{lends, regains};
ghost use Rattle.enc_exprs.specs.Exprs.{expr_type, expr_premises, judged, after, consumes};
ghost use Rattle.enc_exprs.specs.Typing.{IsTyped};
ghost use Rattle.enc_flow.specs.Known.{Knows};

/// An expression that is well typed has no premise that fails, and has the type and leaves the variables
/// that the rules tell. This is a law over the definitions: the call answers nothing, changes nothing and
/// takes no memory.
pub fn typed_holds()
    ensures hold { (names : Names) (env last : Env) (x : Expr) (u : Place) (t : Ty) → IsTyped names env x u t last → AllHold (expr_premises names env u x) }
    ensures ty { (names : Names) (env last : Env) (x : Expr) (u : Place) (t : Ty) → IsTyped names env x u t last → expr_type names env x ≡ Some t }
    ensures after { (names : Names) (env last : Env) (x : Expr) (u : Place) (t : Ty) → IsTyped names env x u t last → last ≡ after u env (judged names x).name }
{}

/// An expression of which no premise fails is well typed, where the types of all variables are known. This is
/// a law over the definitions: the call answers nothing, changes nothing and takes no memory.
pub fn held_is_typed()
    ensures { (names : Names) (env : Env) (x : Expr) (u : Place) → Knows env → AllHold (expr_premises names env u x) → (t : Ty) × (last : Env) × IsTyped names env x u t last }
{}

/// The types of all variables stay known, whatever is moved, given back, declared with its type, merged or
/// cut. This is a law over the definitions: the call answers nothing, changes nothing and takes no memory.
pub fn types_stay_known()
    ensures lent { (env : Env) (word : List ℕ) → Knows env → Knows (lends env word) }
    ensures regained { (env : Env) (word : List ℕ) → Knows env → Knows (regains env word) }
    ensures consumed { (env : Env) (word : Option (List ℕ)) → Knows env → Knows (consumes env word) }
    ensures declared { (env : Env) (word : List ℕ) (t : Ty) → Knows env → Knows (declares env word (Some t)) }
    ensures merged { (env other : Env) → Knows env → Knows (merged env other) }
    ensures cut { (env last : Env) → Knows last → Knows (cut env last) }
{}
