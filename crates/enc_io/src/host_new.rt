// A new file of the system as a sink. What it holds is not known to a contract.
ghost use Rattle.std.specs.Prelude.{◌≡◌, ◌≤◌, length, IfOk};

use crate::host_sink::taken_or_fault;
use crate::{Failed, Sink};
use std::fs::File;
use std::io;
use std::io::Write;
use std::rt::Files;

/// A file that is made, or emptied, at the first write. Without a write nothing is touched.
///
/// A write fails where the file cannot be made, or where the system takes none of the bytes.
#[derive(Drop)]
pub struct HostNew<'a, R: Files> {
    rt: &'a R,
    name: &'static str,
    file: Option<R::File>,
    faults: u64,
}

impl<'a, R: Files> HostNew<'a, R> {
    ghost use Rattle.enc_io.specs.HostView.{host_new_name, host_new_faults};

    /// A sink for the file of this path, which is not yet made.
    pub fn new(rt: &'a R, name: &'static str) -> Self
        ensures named { host_new_name result ≡ name.now }
        ensures faultless { host_new_faults result ≡ 0 }
    {
        HostNew {
            rt,
            name,
            file: None,
            faults: 0,
        }
    }

    // Writes to the file, and makes it first where that was not done.
    fn write_on(&mut self, bytes: &[u8]) -> io::Result<usize>
        ensures within { IfOk result (λ count. count ≤ length bytes.now) }
        ensures faults { self.new.faults ≡ self.old.faults }
    {
        let mut file = match self.file.take() {
            Some(file) => file,
            None => File::create(self.rt, self.name)?,
        };
        let taken = file.write(bytes);
        self.file = Some(file);
        taken
    }
}

impl<R: Files> Sink for HostNew<'_, R> {
    ghost use Rattle.std.specs.Prelude.{None};
    ghost use Rattle.enc_io.specs.HostView.{host_new_faults};

    ghost written = { λ _. None };

    ghost faults = { host_new_faults };

    fn write(&mut self, bytes: &[u8]) -> Result<usize, Failed> {
        let taken = self.write_on(bytes);
        taken_or_fault(taken, &mut self.faults)
    }
}
