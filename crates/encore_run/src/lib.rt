//! The program's top calls, over files and sinks.
#![tactic(auto)]

mod answer;
mod deliver;
mod lines;
mod reply;
mod run;
mod status;
mod top;
mod words;

pub use lines::MEMORY_LINE;
pub use status::Status;
pub use top::{encore_main, encore_plain};
pub use words::Command;
