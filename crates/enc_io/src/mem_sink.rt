// A sink in memory, of which chosen calls fail.
ghost use Rattle.std.specs.Prelude.{◌≡◌, ◌≤◌, ◌<◌, ◌+◌, ◌-◌, ◌^◌, ◌↔◌, ◌⊎◌, [], IfOk, IsErr, OnErr, Some, length, take, vec_len};
ghost use Rattle.std.specs.Io.KnownBytes.{Appends};
ghost use Rattle.enc_io.specs.Causes.{HasCause};

use crate::calls::Calls;
use crate::{Failed, Sink};

/// A buffer that is filled from the front, for tests of code that writes.
///
/// A call fails exactly where its number is one of those that are to fail, or where the buffer is
/// full. Its calls take no memory.
#[derive(Drop)]
pub struct MemSink {
    buffer: Vec<u8>,
    used: usize,
    piece: usize,
    calls: Calls,
    faults: u64,
    ghost within: { used ≤ vec_len buffer },
    ghost some: { 0 < piece },
}

impl MemSink {
    ghost use Rattle.enc_io.specs.MemSinkView.{mem_sink_written, mem_sink_room, mem_sink_piece, mem_sink_faults, mem_sink_calls, mem_sink_failing};

    /// A sink that overwrites this buffer, whose length in bytes is the room, and takes at most
    /// `piece` bytes in a call. `failing` has the numbers of the calls that are to fail, where the
    /// first call has the number 1.
    pub fn new(buffer: Vec<u8>, piece: usize, failing: Vec<u64>) -> Self
        requires { 1 ≤ piece }
        ensures unwritten { mem_sink_written result ≡ [] }
        ensures room { mem_sink_room result ≡ vec_len buffer }
        ensures piece { mem_sink_piece result ≡ piece }
        ensures failing { mem_sink_failing result ≡ failing.items }
        ensures uncalled { mem_sink_calls result ≡ 0 }
        ensures faultless { mem_sink_faults result ≡ 0 }
    {
        MemSink {
            buffer,
            used: 0,
            piece,
            calls: Calls::new(failing),
            faults: 0,
        }
    }

    /// The bytes that were written.
    pub fn written(&self) -> &[u8]
        ensures { result.now ≡ mem_sink_written self.now }
    {
        &self.buffer[..self.used]
    }

    /// How many calls have failed.
    pub fn faults(&self) -> u64
        ensures { result ≡ mem_sink_faults self.now }
    {
        self.faults
    }
}

impl Sink for MemSink {
    ghost use Rattle.enc_io.specs.MemSinkView.{mem_sink_written, mem_sink_room, mem_sink_taken, mem_sink_faults, IsNextListed, CountsCall};

    ghost written = { λ s. Some (mem_sink_written s) };

    ghost faults = { mem_sink_faults };

    fn write(&mut self, bytes: &[u8]) -> Result<usize, Failed>
        requires counted { mem_sink_faults self.old < 2 ^ 64 - 1 }
        requires some { 0 < length bytes.now }
        ensures progress { IfOk result (λ count. 0 < count) }
        ensures within { IfOk result (λ count. count ≤ length bytes.now) }
        ensures bytes { IfOk result (λ count.
            Appends (Some (mem_sink_written self.old)) (Some (mem_sink_written self.new))
            (take count bytes.now)) }
        ensures none { OnErr result (Some (mem_sink_written self.new) ≡ Some (mem_sink_written self.old)) }
        ensures cause { HasCause (mem_sink_faults self.old) (mem_sink_faults self.new) result }

        // Which calls fail, and how many bytes the others take.
        ensures counted { CountsCall self.old self.new }
        ensures one_fault { OnErr result (mem_sink_faults self.new ≡ mem_sink_faults self.old + 1) }
        ensures fails { IsErr result ↔ (IsNextListed self.old ⊎ (mem_sink_room self.old ≡ 0)) }
        ensures taken { IfOk result (λ count. count ≡ mem_sink_taken self.old (length bytes.now)) }
        ensures room { IfOk result (λ count. mem_sink_room self.new + count ≡ mem_sink_room self.old) }
        ensures same_room { OnErr result (mem_sink_room self.new ≡ mem_sink_room self.old) }
    {
        let fails = self.calls.next_fails();
        let room = self.buffer.len() - self.used;
        if fails || room == 0 {
            self.faults += 1;
            return Err(Failed);
        }
        let count = bytes.len().min(self.piece).min(room);
        self.buffer[self.used..self.used + count].copy_from_slice(&bytes[..count]);
        self.used += count;
        Ok(count)
    }
}
