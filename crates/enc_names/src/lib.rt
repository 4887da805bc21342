//! The tables of a program: what its declarations stand for, and the rules that they keep.
#![tactic(auto)]

mod finding;
mod judged;
mod laws;
mod lookups;
mod members;

pub use judged::tables;
pub use laws::{field_exists, method_exists, sent_method_exists, tables_answer};
pub use lookups::Tables;
pub use members::{MethodId, Signature, Slot};
