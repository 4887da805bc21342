// The program's top calls.
ghost use Rattle.std.specs.Prelude.{◌≡◌, ◌<◌, ◌^◌, ◌-◌, []};
ghost use Rattle.encore_run.specs.Command.{words_of};
ghost use Rattle.encore_run.specs.Promises.{TellsUsage, LeavesFiles, TellsReadFault, NamesFailedFile, TellsMissing, TellsRejection, LeavesSchedule, LeavesSinks, LeavesHistory, HasProgram, HandsBackSchedule, TellsPhase, WritesOutput, WritesHistory, ComesToAnEnd, TellsWriteFault, CutsShort, Says, Got, LeavesErrors, IsKnown};

use crate::answer::answer;
use crate::deliver::deliver;
use enc_io::{Files, Sink};
use enc_model::Schedule;
use std::alloc::Global;
use std::sync::Wait;
use std::thread::Threads;

/// Does what the words ask for, on the calling thread, and gives the number with which the program
/// ends. The schedule, empty at first, gets the steps of the run that was made.
pub fn encore_plain<F: Files, O: Sink, R: Sink, H: Sink>(
    alloc: Global,
    words: &[String],
    files: &mut F,
    out: &mut O,
    err: &mut R,
    history: &mut H,
    schedule: &mut Schedule,
) -> u8
    requires fresh { schedule.old.pairs ≡ [] }
    requires files_counted { F.faults files.old < 2 ^ 64 - 1 }
    requires out_counted { O.faults out.old < 2 ^ 64 - 1 }
    requires err_counted { R.faults err.old < 2 ^ 64 - 1 }
    requires history_counted { H.faults history.old < 2 ^ 64 - 1 }

    // What was asked for, and what was read.
    ensures usage { TellsUsage (words_of words.now) result }
    ensures unread { LeavesFiles (words_of words.now) files.old files.new }
    ensures read_fault { TellsReadFault (F.faults files.old) (F.faults files.new) result }
    ensures failed_file { NamesFailedFile (words_of words.now) (F.faults files.old) (F.faults files.new) (F.failed files.new) }
    ensures missing { TellsMissing (words_of words.now) (F.texts files.old) result }
    ensures texts { F.texts files.new ≡ F.texts files.old }
    ensures rejected { TellsRejection (words_of words.now) (F.texts files.old) result }

    // Where nothing has run, or nothing can be said.
    ensures unrun { LeavesSchedule schedule.new.pairs result }
    ensures unwritten { LeavesSinks out.old out.new history.old history.new result }
    ensures unrecorded { LeavesHistory (words_of words.now) history.old history.new }

    // Where the command has run.
    ensures spelled { HasProgram (words_of words.now) (F.texts files.old) result }
    ensures legal { HandsBackSchedule (words_of words.now) (F.texts files.old) schedule.new.pairs result }
    ensures settled { TellsPhase (words_of words.now) (F.texts files.old) schedule.new.pairs result }
    ensures written { WritesOutput (words_of words.now) (F.texts files.old) schedule.new.pairs (O.written out.old) (O.written out.new) result }
    ensures recorded { WritesHistory (words_of words.now) (F.texts files.old) schedule.new.pairs (H.written history.old) (H.written history.new) result }
    ensures ends { ComesToAnEnd result }

    // Where a sink has failed.
    ensures write_fault { TellsWriteFault (O.faults out.old) (O.faults out.new) (H.faults history.old) (H.faults history.new) result }
    ensures cut_short { CutsShort (words_of words.now) (F.texts files.old) schedule.new.pairs (O.written out.old) (O.written out.new) (H.written history.old) (H.written history.new) result }

    // What the user is told, and all numbers.
    ensures said { Says (words_of words.now) (F.texts files.old) (F.failed files.new) schedule.new.pairs result (Got (R.faults err.old) (R.faults err.new) (R.written err.old) (R.written err.new)) }
    ensures quiet { LeavesErrors err.old err.new result }
    ensures known { IsKnown result }
{
    let reply = answer(alloc, words, files, schedule);
    deliver(&reply, out, err).code()
}

/// Does what the words ask for, and gives the number with which the program ends. The schedule,
/// empty at first, gets the steps of the run that was made. It is allowed to start threads and to wait for them.
pub fn encore_main<T: Threads + Wait + Sync, F: Files, O: Sink, R: Sink, H: Sink>(
    _rt: &T,
    alloc: Global,
    words: &[String],
    files: &mut F,
    out: &mut O,
    err: &mut R,
    history: &mut H,
    schedule: &mut Schedule,
) -> u8
    requires fresh { schedule.old.pairs ≡ [] }
    requires files_counted { F.faults files.old < 2 ^ 64 - 1 }
    requires out_counted { O.faults out.old < 2 ^ 64 - 1 }
    requires err_counted { R.faults err.old < 2 ^ 64 - 1 }
    requires history_counted { H.faults history.old < 2 ^ 64 - 1 }

    // What was asked for, and what was read.
    ensures usage { TellsUsage (words_of words.now) result }
    ensures unread { LeavesFiles (words_of words.now) files.old files.new }
    ensures read_fault { TellsReadFault (F.faults files.old) (F.faults files.new) result }
    ensures failed_file { NamesFailedFile (words_of words.now) (F.faults files.old) (F.faults files.new) (F.failed files.new) }
    ensures missing { TellsMissing (words_of words.now) (F.texts files.old) result }
    ensures texts { F.texts files.new ≡ F.texts files.old }
    ensures rejected { TellsRejection (words_of words.now) (F.texts files.old) result }

    // Where nothing has run, or nothing can be said.
    ensures unrun { LeavesSchedule schedule.new.pairs result }
    ensures unwritten { LeavesSinks out.old out.new history.old history.new result }
    ensures unrecorded { LeavesHistory (words_of words.now) history.old history.new }

    // Where the command has run.
    ensures spelled { HasProgram (words_of words.now) (F.texts files.old) result }
    ensures legal { HandsBackSchedule (words_of words.now) (F.texts files.old) schedule.new.pairs result }
    ensures settled { TellsPhase (words_of words.now) (F.texts files.old) schedule.new.pairs result }
    ensures written { WritesOutput (words_of words.now) (F.texts files.old) schedule.new.pairs (O.written out.old) (O.written out.new) result }
    ensures recorded { WritesHistory (words_of words.now) (F.texts files.old) schedule.new.pairs (H.written history.old) (H.written history.new) result }
    ensures ends { ComesToAnEnd result }

    // Where a sink has failed.
    ensures write_fault { TellsWriteFault (O.faults out.old) (O.faults out.new) (H.faults history.old) (H.faults history.new) result }
    ensures cut_short { CutsShort (words_of words.now) (F.texts files.old) schedule.new.pairs (O.written out.old) (O.written out.new) (H.written history.old) (H.written history.new) result }

    // What the user is told, and all numbers.
    ensures said { Says (words_of words.now) (F.texts files.old) (F.failed files.new) schedule.new.pairs result (Got (R.faults err.old) (R.faults err.new) (R.written err.old) (R.written err.new)) }
    ensures quiet { LeavesErrors err.old err.new result }
    ensures known { IsKnown result }
{
    encore_plain(alloc, words, files, out, err, history, schedule)
}
