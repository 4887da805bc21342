// What is said of each program, of what its types stand for, and of what its statements leave.
ghost use Rattle.std.specs.Prelude.{◌≡◌, ◌⊎◌, ◌↔◌, ℕ, List, Some, true, false, is_some};
ghost use Rattle.enc_ast.specs.declared.decls.Program.{Program};
ghost use Rattle.enc_ast.specs.declared.rules.Reject.{Reject};
ghost use Rattle.enc_ast.specs.declared.TypeText.{TypeText};
ghost use Rattle.enc_ast.specs.declared.Stmt.{Stmt};
ghost use Rattle.enc_modes.specs.declared.ty.Ty.{Ty};
ghost use Rattle.enc_premises.specs.First.{AllHold};
ghost use Rattle.enc_flow.specs.Env.{Env, find, declares, cut, same_moves};
ghost use Rattle.enc_flow.specs.Under.{Under, GrownByNew};
ghost use Rattle.enc_types.specs.Written.{type_of, type_premises};
ghost use Rattle.enc_decls.specs.Rules.{HasTables};
ghost use Rattle.enc_names.specs.Members.{tables_of};
ghost use Rattle.enc_exprs.specs.Uses.{lends};
ghost use Rattle.enc_rules.specs.Context.{Context};
ghost use Rattle.enc_rules.specs.Branches.{UnderBoth};
ghost use Rattle.enc_rules.specs.Programs.{program_premises, IsFirstFailure};
ghost use Rattle.enc_rules.specs.Typing.{Layer, Types, TypesAll};
ghost use Rattle.enc_rules.specs.WellTyped.{WellTyped};

/// What is well typed by the rules, one by one, has no premise that fails, and the other way round. This is
/// a law over the definitions: the call answers nothing, changes nothing and takes no memory.
pub fn rules_agree()
    ensures typed_holds { (p : Program) → WellTyped p → AllHold (program_premises p) }
    ensures held_is_typed { (p : Program) → AllHold (program_premises p) → WellTyped p }
{}

/// A program is well typed or has exactly one first failure, and never both. This is a law over the
/// definitions: the call answers nothing, changes nothing and takes no memory.
pub fn one_answer()
    ensures either { (p : Program) → WellTyped p ⊎ ((reject : Reject) × IsFirstFailure p reject) }
    ensures not_both { (p : Program) (reject : Reject) → WellTyped p → IsFirstFailure p reject → ⊥ }
    ensures unique { (p : Program) (r s : Reject) → IsFirstFailure p r → IsFirstFailure p s → r ≡ s }
{}

/// Statements that are well typed leave the variables around them, moved or not, and new ones of other names.
/// So what can be used after a block, after two branches or after a loop can be used at the end of each. This
/// is a law over the definitions: the call answers nothing, changes nothing and takes no memory.
pub fn usable_after()
    ensures statement { (ctx : Context) (env last : Env) (form : Layer) → Types ctx env form last → GrownByNew env last }
    ensures statements { (ctx : Context) (env last : Env) (xs : List Stmt) → TypesAll ctx env xs last → GrownByNew env last }
    ensures block { (ctx : Context) (env last : Env) (xs : List Stmt) → TypesAll ctx env xs last → Under (cut env last) last }
    ensures branches { (ctx : Context) (env left right : Env) (a b : List Stmt) → TypesAll ctx env a left → TypesAll ctx env b right → UnderBoth (cut env left) (cut env right) }
    ensures one_branch { (ctx : Context) (env left : Env) (a : List Stmt) → TypesAll ctx env a left → UnderBoth (cut env left) env }
    ensures loops { (ctx : Context) (env last : Env) (a : List Stmt) → TypesAll ctx env a last → same_moves env (cut env last) ≡ true → Under env (cut env last) × Under (cut env last) env }

    // The first block of a pack begins with two names consumed and a new one declared.
    ensures pack_statements { (ctx : Context) (env last : Env) (x y z : List ℕ) (v : Ty) (a : List Stmt) → is_some (find env z) ≡ false → TypesAll ctx (declares (lends (lends env x) y) z (Some v)) a last → GrownByNew env last }
    ensures pack_block { (ctx : Context) (env last : Env) (x y z : List ℕ) (v : Ty) (a : List Stmt) → is_some (find env z) ≡ false → TypesAll ctx (declares (lends (lends env x) y) z (Some v)) a last → Under (cut env last) last }
    ensures pack_branches { (ctx : Context) (env left right : Env) (x y z : List ℕ) (v : Ty) (a b : List Stmt) → is_some (find env z) ≡ false → TypesAll ctx (declares (lends (lends env x) y) z (Some v)) a left → TypesAll ctx env b right → UnderBoth (cut env left) (cut env right) }
{}

/// In the tables of a program whose declarations keep all rules, a written type stands for a type exactly
/// where no rule fails at it or at a part of it. This is a law over the definitions: the call answers nothing,
/// changes nothing and takes no memory.
pub fn types_are_told()
    ensures { (p : Program) (text : TypeText) → HasTables p → (is_some (type_of (tables_of p.decls).names text) ≡ true) ↔ AllHold (type_premises (tables_of p.decls).names text) }
{}
