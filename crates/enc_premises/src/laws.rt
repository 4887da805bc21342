// What premises are, whoever judges them.
ghost use Rattle.std.specs.Prelude.{◌≡◌, ◌⊎◌};
ghost use Rattle.enc_ast.specs.declared.rules.Reject.{Reject};
ghost use Rattle.enc_premises.specs.Premises.{Premises};
ghost use Rattle.enc_premises.specs.First.{AllHold, FirstFailure};

/// Premises all hold, or exactly one of them is the first failure, and never both.
pub fn one_answer()
    ensures either { (ps : Premises) → AllHold ps ⊎ ((reject : Reject) × FirstFailure ps reject) }
    ensures not_both { (ps : Premises) (reject : Reject) → AllHold ps → FirstFailure ps reject → ⊥ }
    ensures unique { (ps : Premises) (r s : Reject) → FirstFailure ps r → FirstFailure ps s → r ≡ s }
{}
