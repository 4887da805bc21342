//! The rules of statements, of bodies and of programs.
#![tactic(auto)]

mod checking;
mod parting;
mod plain;
mod returning;
mod routines;
mod stmts;
mod variables;

pub use checking::{check, judge};
pub use returning::last_returns;
pub use routines::{bodies, routine};
pub use stmts::{in_order, stmt};
