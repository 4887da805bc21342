// A file that is read whole, up to a limit, and bytes that are written whole.
ghost use Rattle.std.specs.Prelude.{◌≡◌, ◌<◌, ◌≤◌, ◌+◌, ◌-◌, ◌^◌, [], length, Some, None, IsSome, IfOk, OnOk, OnErr, IsErrOf, vec_len};
ghost use Rattle.std.specs.Io.KnownBytes.{Appends};
ghost use Rattle.enc_io.specs.Causes.{HasCause, HasReadCause, AppendsPrefix};
ghost use Rattle.enc_io.specs.Texts.{IsReadOf, ReadsMore};

use crate::{Failed, Files, ReadFail, Sink};
use std::alloc::Global;

// How many bytes are asked for in one read.
const PIECE: usize = 16384;

/// The first `limit + 1` bytes of the named file, or all of them where it has no more than `limit`.
///
/// So a result longer than `limit` tells that the file is too long, and no more of it is read.
/// After `ReadFail::Memory` the file may be begun and partly read.
pub fn read_all<F: Files>(
    alloc: Global,
    files: &mut F,
    name: &str,
    limit: usize,
) -> Result<Vec<u8>, ReadFail>
    requires limited { limit ≤ 2147483648 }
    requires counted { F.faults files.old < 2 ^ 64 - 1 }
    ensures bytes { IfOk result (λ bytes. IsReadOf (F.texts files.old) name.now (limit + 1) bytes.items) }
    ensures within { IfOk result (λ bytes. vec_len bytes ≤ limit + 1) }
    ensures texts { F.texts files.new ≡ F.texts files.old }
    ensures begun { OnOk result (F.begun files.new ≡ Some name.now) }
    ensures closed { IsErrOf result ReadFail.Failed → F.begun files.new ≡ None }

    // The count of faults rises exactly at `ReadFail::Failed`, which is noted by the name.
    ensures cause { HasReadCause (F.faults files.old) (F.faults files.new) result }
    ensures named { IsErrOf result ReadFail.Failed → F.failed files.new ≡ Some name.now }
    ensures kept { F.faults files.new ≡ F.faults files.old → F.failed files.new ≡ F.failed files.old }
{
    files.begin(String::from_str(alloc, name)?)?;
    let mut bytes = Vec::new(alloc);
    let mut piece = [0u8; PIECE];
    while bytes.len() <= limit {
        let room = (limit + 1 - bytes.len()).min(PIECE);
        if !read_more(files, &mut bytes, &mut piece[..room])? {
            return Ok(bytes);
        }
    }
    Ok(bytes)
}

// Reads once onto the end of `bytes`, by way of `piece`, and says whether the file goes on.
fn read_more<F: Files>(
    files: &mut F,
    bytes: &mut Vec<u8>,
    piece: &mut [u8],
) -> Result<bool, ReadFail>
    requires counted { F.faults files.old < 2 ^ 64 - 1 }
    requires begun { IsSome (F.begun files.old) }
    requires some { 0 < length piece.old }
    ensures texts { F.texts files.new ≡ F.texts files.old }
    ensures more { IfOk result (λ more.
        ReadsMore (F.rest files.old) (F.rest files.new) bytes.old.items bytes.new.items
        (length piece.old) more) }
    ensures begun { OnOk result (F.begun files.new ≡ F.begun files.old) }
    ensures closed { IsErrOf result ReadFail.Failed → F.begun files.new ≡ None }
    ensures cause { HasReadCause (F.faults files.old) (F.faults files.new) result }
    ensures named { IsErrOf result ReadFail.Failed → F.failed files.new ≡ F.begun files.old }
    ensures kept { F.faults files.new ≡ F.faults files.old → F.failed files.new ≡ F.failed files.old }
{
    let count = files.read(piece)?;
    bytes.extend_from_slice(&piece[..count])?;
    Ok(count > 0)
}

/// Writes all the bytes, in as few calls as the sink allows.
///
/// At `Failed` the sink has taken some front part of them. No memory is taken.
pub fn write_all<S: Sink>(sink: &mut S, bytes: &[u8]) -> Result<(), Failed>
    requires { S.faults sink.old < 2 ^ 64 - 1 }
    ensures ok { OnOk result (Appends (S.written sink.old) (S.written sink.new) bytes.now) }
    ensures err { OnErr result (AppendsPrefix (S.written sink.old) (S.written sink.new) bytes.now) }
    ensures cause { HasCause (S.faults sink.old) (S.faults sink.new) result }
    ensures none { bytes.now ≡ [] → sink.new ≡ sink.old }
{
    let mut at = 0;
    while at < bytes.len() {
        at += sink.write(&bytes[at..])?;
    }
    Ok(())
}
