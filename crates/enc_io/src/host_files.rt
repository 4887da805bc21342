// The files of the system. What they hold is not known to a contract.
ghost use Rattle.std.specs.Prelude.{◌≡◌};

use crate::{Failed, Files};
use std::fs::File;
use std::io::Read;
use std::rt;

/// The files of the system by their paths, for reading.
///
/// `begin` fails where the path cannot be opened, and `read` where the system reports an error.
#[derive(Drop)]
pub struct HostFiles<'a, R: rt::Files> {
    rt: &'a R,
    open: Option<Open<R::File>>,
    faults: u64,
    failed: Option<String>,
}

#[derive(Drop)]
struct Open<F> {
    name: String,
    file: F,
}

impl<'a, R: rt::Files> HostFiles<'a, R> {
    ghost use Rattle.enc_io.specs.HostView.{host_files_faults};

    /// The files that this runtime reaches, none of which is begun.
    pub fn new(rt: &'a R) -> Self
        ensures { host_files_faults result ≡ 0 }
    {
        HostFiles {
            rt,
            open: None,
            faults: 0,
            failed: None,
        }
    }
}

impl<R: rt::Files> Files for HostFiles<'_, R> {
    ghost use Rattle.std.specs.Prelude.{None};
    ghost use Rattle.enc_io.specs.HostView.{host_files_begun, host_files_failed, host_files_faults};

    ghost texts = { λ _. None };

    ghost rest = { λ _. None };

    ghost begun = { host_files_begun };

    ghost failed = { host_files_failed };

    ghost faults = { host_files_faults };

    ghost tied = { λ _. tt };

    fn begin(&mut self, name: String) -> Result<(), Failed> {
        match File::open(self.rt, name.as_str()) {
            Ok(file) => {
                self.open = Some(Open { name, file });
                Ok(())
            }
            Err(_) => {
                self.open = None;
                self.failed = Some(name);
                self.faults += 1;
                Err(Failed)
            }
        }
    }

    fn read(&mut self, into: &mut [u8]) -> Result<usize, Failed> {
        match self.open.take() {
            None => unreachable!(),
            Some(Open { name, mut file }) => match file.read(into) {
                Ok(count) => {
                    self.open = Some(Open { name, file });
                    Ok(count)
                }
                Err(_) => {
                    self.failed = Some(name);
                    self.faults += 1;
                    Err(Failed)
                }
            },
        }
    }
}
