//! The rules of calls, sends and sources.
#![tactic(auto)]

mod calls;
mod context;
mod outcome;
mod parts;
mod shapes;
mod sources;

pub use calls::{
    applies, arguments, called, further, invoke, may_call, may_enter, may_send, may_travel,
    params_of, receiver_type, result_of, sent,
};
pub use context::Context;
pub use outcome::{Demand, Demands, Outcome};
pub use parts::{
    agree, cap_of, chosen, future_of, is_cap, is_subordinate, is_target, of_trait, packed, splits,
    tree_of,
};
pub use sources::{call, send, source, waits};
