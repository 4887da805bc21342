//! What names and written types stand for, and what the rules ask of written types.
#![tactic(auto)]

mod bodies;
mod laws;
mod names;
mod places;
mod written;

pub use bodies::body_types;
pub use laws::known_types_hold;
pub use names::{Meaning, Named, Names};
pub use places::Places;
pub use written::local_of;
