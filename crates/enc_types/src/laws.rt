// What written types are, for all names.
ghost use Rattle.std.specs.Prelude.{◌≡◌, Some};
ghost use Rattle.enc_ast.specs.declared.TypeText.{TypeText};
ghost use Rattle.enc_modes.specs.declared.ty.Ty.{Ty};
ghost use Rattle.enc_premises.specs.First.{AllHold};
ghost use Rattle.enc_types.specs.Names.{Names};
ghost use Rattle.enc_types.specs.Written.{type_of, type_premises};

/// Where a written type stands for a type, it may be written.
pub fn known_types_hold()
    ensures { (names : Names) (text : TypeText) (ty : Ty) → type_of names text ≡ Some ty → AllHold (type_premises names text) }
{}
