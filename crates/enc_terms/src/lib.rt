//! Types and expressions: which tokens spell which of them.
#![tactic(auto)]

mod atoms;
mod exprs;
mod names;
mod types;
mod whole_exprs;
mod words;

pub use atoms::{named, this_at};
pub use names::{declared, name, variable};
pub use types::{cap, class_groups, type_inside, type_text};
pub use whole_exprs::{args, other_whole, whole, whole_after, wholes};
pub use words::{Double, Prefix, Single, Typed, Wrapper};
