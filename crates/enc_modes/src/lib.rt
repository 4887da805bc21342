//! Types, and what their modes allow.
#![tactic(auto)]

mod cap;
mod composing;
mod equality;
mod laws;
mod modes;
mod order;
mod shared;
mod splitting;
mod ty;

pub use cap::Cap;
pub use composing::{choose_of, pack_of};
pub use laws::{same_is_equal, split_is_packed};
pub use modes::{is_linear, is_sendable, is_shareable, mode_of};
pub use order::in_order;
pub use shared::Shared;
pub use splitting::split_of;
pub use ty::{Alt, Group, Mode, Ty};
