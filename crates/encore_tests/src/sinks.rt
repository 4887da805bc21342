// Sinks in memory and of the system, and writes of whole texts.
ghost use Rattle.std.specs.Prelude.{◌≡◌, IfOk};
ghost use Rattle.enc_io.specs.MemSinkView.{mem_sink_faults};

use enc_io::{Failed, HostErr, HostNew, HostOut, MemSink, Sink, write_all};
use std::alloc::{AllocError, Global};
use std::test::Fail;

/// A sink with room for so many bytes, which takes two in a call. The call of this number fails
/// (0: none).
fn sink_of(alloc: Global, room: usize, fault: u64) -> Result<MemSink, AllocError>
    ensures { IfOk result (λ sink. mem_sink_faults sink ≡ 0) }
{
    let mut failing = Vec::new(alloc);
    failing.push(fault)?;
    Ok(MemSink::new(vec![in alloc; 0u8; room]?, 2, failing))
}

#[test]
fn sinks_take_pieces(rt: HostRuntime) -> Result<(), Fail> {
    let mut sink = sink_of(rt.alloc(), 3, 0)?;
    assert!(rt; sink.written().is_empty());
    assert_eq!(rt; sink.write(b"abcde"), Ok(2));
    assert_eq!(rt; sink.write(b"cde"), Ok(1));
    assert_eq!(rt; sink.written(), b"abc".as_slice());
    Ok(())
}

#[test]
fn texts_are_written_whole(rt: HostRuntime) -> Result<(), Fail> {
    let mut sink = sink_of(rt.alloc(), 5, 0)?;
    assert_eq!(rt; write_all(&mut sink, b"abcde"), Ok(()));
    assert_eq!(rt; write_all(&mut sink, b""), Ok(()));
    assert_eq!(rt; sink.written(), b"abcde".as_slice());
    assert_eq!(rt; sink.faults(), 0);
    Ok(())
}

#[test]
fn writes_can_fail(rt: HostRuntime) -> Result<(), Fail> {
    let mut sink = sink_of(rt.alloc(), 9, 2)?;
    assert_eq!(rt; write_all(&mut sink, b"abcde"), Err(Failed));
    assert_eq!(rt; sink.written(), b"ab".as_slice());
    assert_eq!(rt; sink.faults(), 1);
    assert_eq!(rt; write_all(&mut sink, b"fg"), Ok(()));
    assert_eq!(rt; sink.written(), b"abfg".as_slice());
    Ok(())
}

#[test]
fn sinks_can_be_full(rt: HostRuntime) -> Result<(), Fail> {
    let mut sink = sink_of(rt.alloc(), 3, 0)?;
    assert_eq!(rt; write_all(&mut sink, b"abcde"), Err(Failed));
    assert_eq!(rt; sink.written(), b"abc".as_slice());
    assert_eq!(rt; sink.faults(), 1);
    assert_eq!(rt; sink.write(b"d"), Err(Failed));
    assert_eq!(rt; sink.faults(), 2);
    Ok(())
}

#[test]
fn streams_of_the_system_are_written(rt: HostRuntime) {
    assert_eq!(rt; HostOut::new(rt.stdout()).write(b"\n"), Ok(1));
    assert_eq!(rt; HostErr::new(rt.stderr()).write(b"\n"), Ok(1));
}

#[test]
fn new_files_are_written(rt: HostRuntime) {
    let mut taken = HostNew::new(&rt, "/dev/null");
    assert_eq!(rt; taken.write(b"abc"), Ok(3));
    let mut refused = HostNew::new(&rt, "no/such/folder/file");
    assert_eq!(rt; refused.write(b"a"), Err(Failed));
}
