//! The types of expressions, and the rules that they keep.
#![tactic(auto)]

mod exprs;
mod laws;
mod lists;
mod nothing;
mod operands;
mod told;
mod types;
mod uses;

pub use exprs::{consume, consumed, expr_type, typed};
pub use laws::{held_is_typed, typed_holds, types_stay_known};
pub use told::Told;
pub use types::{can_be_null, is_bool, is_int, is_plain, item_of, items, like};
pub use uses::{Use, lend, regain, type_in, variable, visible};
