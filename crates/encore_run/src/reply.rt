// What a call comes to, before anything of it is written.

use crate::Status;
use enc_ast::{Row, Word};
use std::alloc::Global;

/// What a call comes to, before anything of it is written.
#[derive(Debug, Drop)]
pub struct Reply {
    pub status: Status,
    /// What the output is to get.
    pub output: Row<u8>,
    /// What the error stream is to get, where the status has no line of its own.
    pub line: Word,
}

impl Reply {
    ghost use Rattle.std.specs.Prelude.{◌≡◌, []};

    /// A reply without output and without a line.
    pub fn bare(alloc: Global, status: Status) -> Reply
        ensures { result ≡ record { status = status; output = []; line = [] } }
    {
        Reply::said(alloc, status, Word::from_string(String::new(alloc)))
    }

    /// A reply without output.
    pub fn said(alloc: Global, status: Status, line: Word) -> Reply
        ensures { result ≡ record { status = status; output = []; line = line } }
    {
        Reply {
            status,
            output: Row::new(alloc),
            line,
        }
    }
}
