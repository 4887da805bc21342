//! What a program does: its configurations, its steps one at a time, a machine that makes
//! them, and what holds of every run.
#![tactic(auto)]

mod commit;
mod config;
mod decide;
mod eval;
mod laws;
mod moves;
mod plain;
mod schedule;
mod steps;
mod thin_form;
mod values;

pub use config::{Actor, Cell, Config, Frame, Message, Task};
pub use laws::{never_blocked, never_stuck, stops_soon, thin_accepted};
pub use moves::{Got, Move};
pub use plain::{Plain, StepFail};
pub use schedule::{Pair, Phase, Schedule, Stepped};
pub use thin_form::thin;
pub use values::{Locals, TrapKind, Value};
