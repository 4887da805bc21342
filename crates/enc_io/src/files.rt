// Files as a program sees them: named texts, one at a time, that are read from the front.
ghost use Rattle.std.specs.Prelude.{◌≡◌, ◌<◌, ◌≤◌, ◌^◌, ◌-◌, List, ℕ, length, take, Option, Some, None, IsSome, IfOk, OnOk, OnErr, string_bytes};
ghost use Rattle.std.specs.Io.KnownBytes.{Consumes, IsAtEnd};
ghost use Rattle.enc_io.specs.Causes.{HasCause};
ghost use Rattle.enc_io.specs.Texts.{Texts, Opens, IsRestOf};

use crate::Failed;

/// A source of files, of which at most one is begun at a time.
///
/// A call that fails leaves none begun. A source whose bytes cannot be foreseen, as the disk, tells
/// no texts: of its reads it is known how many bytes they put, and not which.
pub trait Files {
    /// The bytes of each file by its name, where they are known.
    ghost texts: { Self → Option Texts };

    /// The bytes of the begun file that are still to be read, where the texts are known.
    ghost rest: { Self → Option (List ℕ) };

    /// The name of the begun file.
    ghost begun: { Self → Option (List ℕ) };

    /// The name at which the latest failed call failed.
    ghost failed: { Self → Option (List ℕ) };

    /// How many calls have failed, or more. It never falls.
    ghost faults: { Self → ℕ };

    /// Begins a file at its first byte, in place of the one that was begun before.
    ///
    /// Where the texts are known, a name that they lack fails.
    fn begin(&mut self, name: String) -> Result<(), Failed>
        requires { faults self.old < 2 ^ 64 - 1 }
        ensures texts { texts self.new ≡ texts self.old }
        ensures begun { OnOk result (begun self.new ≡ Some (string_bytes name)) }
        ensures opened { OnOk result (Opens (texts self.old) (string_bytes name) (rest self.new)) }
        ensures closed { OnErr result (begun self.new ≡ None) }

        // The count of faults rises exactly at a failure, which is noted by its name.
        ensures cause { HasCause (faults self.old) (faults self.new) result }
        ensures kept { OnOk result (failed self.new ≡ failed self.old) }
        ensures named { OnErr result (failed self.new ≡ Some (string_bytes name)) };

    /// Puts the next bytes at the front of `into`, and answers how many. 0 is the end of the file.
    fn read(&mut self, into: &mut [u8]) -> Result<usize, Failed>
        requires counted { faults self.old < 2 ^ 64 - 1 }
        requires begun { IsSome (begun self.old) }
        requires room { 0 < length into.old }
        ensures texts { texts self.new ≡ texts self.old }
        ensures begun { OnOk result (begun self.new ≡ begun self.old) }
        ensures within { IfOk result (λ count. count ≤ length into.new) }
        ensures bytes { IfOk result (λ count. Consumes (rest self.old) (rest self.new) (take count into.new)) }
        ensures end { IfOk result (λ count. count ≡ 0 → IsAtEnd (rest self.old)) }
        ensures closed { OnErr result (begun self.new ≡ None) }

        // The count of faults rises exactly at a failure, which is noted by the file's name.
        ensures cause { HasCause (faults self.old) (faults self.new) result }
        ensures kept { OnOk result (failed self.new ≡ failed self.old) }
        ensures named { OnErr result (failed self.new ≡ begun self.old) };

    /// Where the texts are known, a begun file is one of them, and its rest is known.
    ghost tied: { (files : Self) → IsRestOf (texts files) (begun files) (rest files) };
}
