// Runs programs of actors from files.
#![tactic(auto)]

use enc_ast::Row;
use enc_io::{HostErr, HostFiles, HostNew, HostOut, write_all};
use enc_model::Schedule;
use encore_run::{MEMORY_LINE, Status, encore_main};
use std::alloc::Global;
use std::process::ExitCode;
use std::rt::Env;
use std::{env, io};

fn main(rt: HostRuntime) -> ExitCode {
    let alloc = rt.alloc();
    let mut err = HostErr::new(rt.stderr());
    let Ok(words) = words(&rt, alloc) else {
        let _ = write_all(&mut err, MEMORY_LINE.as_bytes());
        return ExitCode::from(Status::Memory.code());
    };
    let mut schedule = Schedule {
        pairs: Row::new(alloc),
    };
    let code = encore_main(
        &rt,
        alloc,
        &words,
        &mut HostFiles::new(&rt),
        &mut HostOut::new(rt.stdout()),
        &mut err,
        &mut HostNew::new(&rt, "encore.schedule"),
        &mut schedule,
    );
    ExitCode::from(code)
}

/// The words after the program's name. Where one of them is no text there are none, which is no
/// command.
fn words(rt: &(impl Env + AllocGlobal), alloc: Global) -> io::Result<Vec<String>> {
    let mut words = Vec::new(alloc);
    match env::args(rt) {
        Ok(all) => {
            for word in all.skip(1) {
                words.push(word)?;
            }
        }
        Err(error) if error.kind() == io::ErrorKind::InvalidData => {}
        Err(error) => return Err(error),
    }
    Ok(words)
}
