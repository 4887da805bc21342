// The streams of the system as sinks. What they hold is not known to a contract.
ghost use Rattle.std.specs.Prelude.{◌≡◌, ◌<◌, ◌^◌, ◌-◌, Ok, IfOk};
ghost use Rattle.enc_io.specs.Causes.{HasCause};

use crate::{Failed, Sink};
use std::io;

/// The standard output.
///
/// A write fails where the system takes none of the bytes.
#[derive(Drop)]
pub struct HostOut<R: Print + Drop> {
    stream: R,
    faults: u64,
}

impl<R: Print + Drop> HostOut<R> {
    ghost use Rattle.enc_io.specs.HostView.{host_out_faults};

    /// A sink over the standard output, as `rt.stdout()` gives it.
    pub fn new(stream: R) -> Self
        ensures { host_out_faults result ≡ 0 }
    {
        HostOut { stream, faults: 0 }
    }
}

impl<R: Print + Drop> Sink for HostOut<R> {
    ghost use Rattle.std.specs.Prelude.{None};
    ghost use Rattle.enc_io.specs.HostView.{host_out_faults};

    ghost written = { λ _. None };

    ghost faults = { host_out_faults };

    fn write(&mut self, bytes: &[u8]) -> Result<usize, Failed> {
        let taken = self.stream.write_some(bytes);
        taken_or_fault(taken, &mut self.faults)
    }
}

/// The standard error stream.
///
/// A write fails where the system takes none of the bytes.
#[derive(Drop)]
pub struct HostErr<R: Print + Drop> {
    stream: R,
    faults: u64,
}

impl<R: Print + Drop> HostErr<R> {
    ghost use Rattle.enc_io.specs.HostView.{host_err_faults};

    /// A sink over the standard error stream, as `rt.stderr()` gives it.
    pub fn new(stream: R) -> Self
        ensures { host_err_faults result ≡ 0 }
    {
        HostErr { stream, faults: 0 }
    }
}

impl<R: Print + Drop> Sink for HostErr<R> {
    ghost use Rattle.std.specs.Prelude.{None};
    ghost use Rattle.enc_io.specs.HostView.{host_err_faults};

    ghost written = { λ _. None };

    ghost faults = { host_err_faults };

    fn write(&mut self, bytes: &[u8]) -> Result<usize, Failed> {
        let taken = self.stream.write_some(bytes);
        taken_or_fault(taken, &mut self.faults)
    }
}

// How many bytes were taken. An error, and none at all, count as a fault.
pub(crate) fn taken_or_fault(taken: io::Result<usize>, faults: &mut u64) -> Result<usize, Failed>
    requires { faults.old < 2 ^ 64 - 1 }
    ensures taken { IfOk result (λ count. taken ≡ Ok count × (0 < count)) }
    ensures cause { HasCause faults.old faults.new result }
{
    match taken {
        Ok(count) if count > 0 => Ok(count),
        _ => {
            *faults += 1;
            Err(Failed)
        }
    }
}
