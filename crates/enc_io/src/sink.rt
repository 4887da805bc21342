// Where bytes are written, with a count of faults.
ghost use Rattle.std.specs.Prelude.{◌≡◌, ◌<◌, ◌≤◌, ◌^◌, ◌-◌, List, ℕ, length, take, Option, IfOk, OnErr};
ghost use Rattle.std.specs.Io.KnownBytes.{Appends};
ghost use Rattle.enc_io.specs.Causes.{HasCause};

use crate::Failed;

/// A taker of bytes, in pieces of any size.
pub trait Sink {
    /// The bytes that were written, where they are known.
    ghost written: { Self → Option (List ℕ) };

    /// How many calls have failed, or more. It never falls.
    ghost faults: { Self → ℕ };

    /// Takes one or more bytes from the front of `bytes`, and answers how many.
    fn write(&mut self, bytes: &[u8]) -> Result<usize, Failed>
        requires counted { faults self.old < 2 ^ 64 - 1 }
        requires some { 0 < length bytes.now }
        ensures progress { IfOk result (λ count. 0 < count) }
        ensures within { IfOk result (λ count. count ≤ length bytes.now) }
        ensures bytes { IfOk result (λ count.
            Appends (written self.old) (written self.new) (take count bytes.now)) }
        ensures none { OnErr result (written self.new ≡ written self.old) }
        ensures cause { HasCause (faults self.old) (faults self.new) result };
}
