// A reply, written.
ghost use Rattle.std.specs.Prelude.{◌≡◌, ◌<◌, ◌^◌, ◌-◌, []};
ghost use Rattle.encore_run.specs.Answer.{IsDelivery, line_due};
ghost use Rattle.encore_run.specs.Promises.{Got};

use crate::Status;
use crate::lines::{MEMORY_LINE, USAGE_LINE, WRITE_LINE};
use crate::reply::Reply;
use enc_io::{Sink, write_all};

/// Writes what a call comes to, and gives the call's status. That the error stream fails changes
/// nothing of the status.
pub fn deliver<O: Sink, R: Sink>(reply: &Reply, out: &mut O, err: &mut R) -> Status
    requires out_counted { O.faults out.old < 2 ^ 64 - 1 }
    requires err_counted { R.faults err.old < 2 ^ 64 - 1 }
    ensures delivery { IsDelivery (O.faults out.old) (O.faults out.new) (O.written out.old) (O.written out.new) reply.now result }
    ensures untouched { reply.now.output ≡ [] → out.new ≡ out.old }
    ensures said { Got (R.faults err.old) (R.faults err.new) (R.written err.old) (R.written err.new) (line_due result reply.now.line) }
    ensures quiet { line_due result reply.now.line ≡ [] → err.new ≡ err.old }
{
    let status = write_output(reply, out);
    say(err, line_due(status, reply.line.as_str()));
    status
}

/// Writes the output, and gives the call's status.
fn write_output<O: Sink>(reply: &Reply, out: &mut O) -> Status
    requires { O.faults out.old < 2 ^ 64 - 1 }
    ensures delivery { IsDelivery (O.faults out.old) (O.faults out.new) (O.written out.old) (O.written out.new) reply.now result }
    ensures untouched { reply.now.output ≡ [] → out.new ≡ out.old }
{
    match write_all(out, reply.output.as_slice()) {
        Err(_) => Status::WriteFault,
        Ok(()) => reply.status,
    }
}

/// Writes a line, as far as the sink takes it.
fn say<R: Sink>(err: &mut R, line: &str)
    requires { R.faults err.old < 2 ^ 64 - 1 }
    ensures said { Got (R.faults err.old) (R.faults err.new) (R.written err.old) (R.written err.new) line.now }
    ensures quiet { line.now ≡ [] → err.new ≡ err.old }
{
    let _ = write_all(err, line.as_bytes());
}

/// The line of a status that has one of its own, else the reply's.
fn line_due<'a>(status: Status, line: &'a str) -> &'a str
    ensures { result.now ≡ line_due status line.now }
{
    match status {
        Status::Usage => USAGE_LINE,
        Status::Memory => MEMORY_LINE,
        Status::WriteFault => WRITE_LINE,
        _ => line,
    }
}
