// What holds of what can be used, whoever judges it.
ghost use Rattle.std.specs.Prelude.{◌≡◌, ℕ, List, Option, Bool, true};
ghost use Rattle.enc_modes.specs.declared.ty.Ty.{Ty};
ghost use Rattle.enc_flow.specs.Env.{Env, declares, marked_at, takes, merged, cut, same_moves};
ghost use Rattle.enc_flow.specs.Under.{Under, Alike, Grown, GrownByNew};

/// What can be used after two branches can be used at the end of each. This is a law over the definitions:
/// the call answers nothing, changes nothing and takes no memory.
pub fn branches()
    ensures left { (a b : Env) → Alike a b → Under (merged a b) a }
    ensures right { (a b : Env) → Alike a b → Under (merged a b) b }
{}

/// Where a loop's body moves nothing for good, the same can be used before it and after it. This is a law
/// over the definitions: the call answers nothing, changes nothing and takes no memory.
pub fn loops()
    ensures after { (e d : Env) → Alike e d → same_moves e d ≡ true → Under e d }
    ensures before { (e d : Env) → Alike e d → same_moves e d ≡ true → Under d e }
{}

/// What can be used after a block that hides no name could be used at its end. This is a law over the
/// definitions: the call answers nothing, changes nothing and takes no memory.
pub fn blocks()
    ensures { (env grown : Env) → GrownByNew env grown → Under (cut env grown) grown }
{}

/// No change but the end of a block makes the variables fewer, and none gives one another name or type.
/// This is a law over the definitions: the call answers nothing, changes nothing and takes no memory.
pub fn growth()
    ensures none { (env : Env) → Grown env env }
    ensures then { (a b c : Env) → Grown a b → Grown b c → Grown a c }
    ensures declared { (env : Env) (x : List ℕ) (t : Option Ty) → Grown env (declares env x t) }
    ensures marked { (env : Env) (i : ℕ) (moved : Bool) → Grown env (marked_at env i moved) }
    ensures taken { (env : Env) (i : ℕ) → Grown env (takes env i) }
    ensures merged { (a b c : Env) → Grown a b → Grown a (merged b c) }

    // At the end of a block, what was there before is there again.
    ensures cut { (a b : Env) → Grown a b → Alike a (cut a b) }
    ensures both { (a b c : Env) → Alike a b → Alike a c → Alike b c }
{}
