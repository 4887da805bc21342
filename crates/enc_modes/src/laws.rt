// What holds of types.
ghost use Rattle.std.specs.Prelude.{◌≡◌, ◌↔◌, IsTrue, Some};
ghost use Rattle.enc_modes.specs.declared.ty.Ty.{Ty};
ghost use Rattle.enc_modes.specs.Equality.{same};
ghost use Rattle.enc_modes.specs.Modes.{composes, some_trait, split_of, pack_of};
ghost use Rattle.enc_modes.specs.Order.{Cap, in_order};
ghost use Rattle.std.specs.List.{list_all};

/// Types are the same exactly where they are equal.
pub fn same_is_equal()
    ensures { (t u : Ty) → IsTrue (same t u) ↔ (t ≡ u) }
{}

/// What was split can be packed again: a whole that composes and has a trait in each group is, in order,
/// what two parts of it pack to.
pub fn split_is_packed()
    ensures { (whole left right : Cap) → IsTrue (composes whole) → IsTrue (list_all some_trait whole) → IsTrue (split_of whole left right) → pack_of left right ≡ Some (in_order whole) }
{}
