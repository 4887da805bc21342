//! The outside of a program: files that are read by name, and sinks that are written to.
//!
//! Both count their faults, so that a caller can tell a fault of the outside from want of memory.
#![tactic(auto)]

mod calls;
mod failed;
mod files;
mod host_files;
mod host_new;
mod host_sink;
mod mem_files;
mod mem_sink;
mod sink;
mod whole;

pub use failed::{Failed, ReadFail};
pub use files::Files;
pub use host_files::HostFiles;
pub use host_new::HostNew;
pub use host_sink::{HostErr, HostOut};
pub use mem_files::MemFiles;
pub use mem_sink::MemSink;
pub use sink::Sink;
pub use whole::{read_all, write_all};
