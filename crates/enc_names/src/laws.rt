// What tables hold, whoever looks there.
ghost use Rattle.std.specs.Prelude.{◌≡◌, ◌⊎◌, ℕ, true, List, Some, slice_get};
ghost use Rattle.std.specs.List.{Contains};
ghost use Rattle.enc_ast.specs.declared.rules.Reject.{Reject};
ghost use Rattle.enc_ast.specs.declared.decls.Program.{Program};
ghost use Rattle.enc_modes.specs.declared.ty.Ty.{Ty};
ghost use Rattle.enc_modes.specs.declared.ty.Ty.TheVariants.{Actor, Cap, Bestowed};
ghost use Rattle.enc_modes.specs.declared.ty.Alt.{Alt};
ghost use Rattle.enc_modes.specs.Order.{Group};
ghost use Rattle.enc_premises.specs.First.{FirstFailure};
ghost use Rattle.enc_decls.specs.Rules.{table_premises, HasTables};
ghost use Rattle.enc_names.specs.declared.members.Slot.{Slot};
ghost use Rattle.enc_names.specs.declared.members.Signature.{Signature};
ghost use Rattle.enc_names.specs.declared.members.MethodId.{MethodId};
ghost use Rattle.enc_names.specs.Members.{Tables};
ghost use Rattle.enc_names.specs.Lookups.{fields_of, field_of, is_active, is_trait, owners_of, method_for, sent_for, signature_of};

/// A field that is found has its name and a type.
pub fn field_exists()
    ensures { (t : Tables) (k : ℕ) (x : List ℕ) (i : ℕ) → field_of t k x ≡ Some i → (s : Slot) × (slice_get (fields_of t k) i ≡ Some s) × (s.word ≡ x) }
{}

/// A method that can be called has its name and a signature, and its owner is one whose methods can be
/// called on the receiver: an active class where that is an actor, a trait where it has groups.
pub fn method_exists()
    ensures signature { (t : Tables) (u : Ty) (x : List ℕ) (m : MethodId) → method_for t u x ≡ Some m → (s : Signature) × (signature_of t m ≡ Some s) × (s.word ≡ x) }
    ensures owner { (t : Tables) (u : Ty) (x : List ℕ) (m : MethodId) → method_for t u x ≡ Some m → Contains (owners_of u) m.owner }
    ensures active { (t : Tables) (k : ℕ) (x : List ℕ) (m : MethodId) → method_for t (Actor k) x ≡ Some m → is_active t m.owner ≡ true }
    ensures traits { (t : Tables) (gs : List Group) (x : List ℕ) (m : MethodId) → method_for t (Cap gs) x ≡ Some m → is_trait t m.owner ≡ true }
{}

/// A method that a message can ask for has its name and a signature, and its owner is an active class
/// where the receiver is an actor, a trait where it is bestowed.
pub fn sent_method_exists()
    ensures signature { (t : Tables) (u : Ty) (x : List ℕ) (m : MethodId) → sent_for t u x ≡ Some m → (s : Signature) × (signature_of t m ≡ Some s) × (s.word ≡ x) }
    ensures active { (t : Tables) (k : ℕ) (x : List ℕ) (m : MethodId) → sent_for t (Actor k) x ≡ Some m → is_active t m.owner ≡ true }
    ensures bestowed { (t : Tables) (a : Alt) (x : List ℕ) (m : MethodId) → sent_for t (Bestowed a) x ≡ Some m → is_trait t m.owner ≡ true }
{}

/// The declarations of a program keep all rules, or exactly one premise is the first that fails, and never
/// both.
pub fn tables_answer()
    ensures either { (p : Program) → HasTables p ⊎ ((reject : Reject) × FirstFailure (table_premises p) reject) }
    ensures not_both { (p : Program) (reject : Reject) → HasTables p → FirstFailure (table_premises p) reject → ⊥ }
    ensures unique { (p : Program) (r s : Reject) → FirstFailure (table_premises p) r → FirstFailure (table_premises p) s → r ≡ s }
{}
