// Files in memory and of the system, a piece at a time and whole.
ghost use Rattle.std.specs.Prelude.{◌≡◌, ◌≤◌, IfOk};
ghost use Rattle.enc_io.specs.MemFilesView.{mem_files_faults};

use enc_io::{Failed, Files, HostFiles, MemFiles, ReadFail, read_all};
use std::alloc::{AllocError, Global};
use std::process::Abort;
use std::test::Fail;

fn file_a(alloc: Global, text: &str) -> Result<(String, Vec<u8>), AllocError> {
    let bytes = Vec::from_slice(alloc, text.as_bytes())?;
    Ok((String::from_str(alloc, "a")?, bytes))
}

/// Two files of one name, of which the call of this number fails (0: none).
fn two_files(alloc: Global, fault: u64) -> Result<MemFiles, AllocError>
    ensures { IfOk result (λ files. mem_files_faults files ≡ 0) }
{
    let mut files = Vec::new(alloc);
    files.push(file_a(alloc, "abcdef")?)?;
    files.push(file_a(alloc, "later")?)?;
    let mut failing = Vec::new(alloc);
    failing.push(fault)?;
    Ok(MemFiles::new(files, failing))
}

/// Asserts that these bytes are read where a file may have so many. The file is begun by the first call,
/// and at most `limit + 2` reads follow: the call behind these would fail.
fn check_whole(rt: &impl Abort, alloc: Global, limit: usize, bytes: &str) -> Result<(), ReadFail>
    requires { limit ≤ 100 }
{
    let beyond = (limit as u64).saturating_add(4);
    let mut files = two_files(alloc, beyond)?;
    let read = read_all(alloc, &mut files, "a", limit)?;
    assert_eq!(rt; read.as_slice(), bytes.as_bytes(), "at {limit}");
    assert_eq!(rt; files.faults(), 0);
    Ok(())
}

#[test]
fn files_are_read_whole(rt: HostRuntime) -> Result<(), Fail> {
    let alloc = rt.alloc();
    check_whole(&rt, alloc, 100, "abcdef")?;
    check_whole(&rt, alloc, 6, "abcdef")?;
    check_whole(&rt, alloc, 5, "abcdef")?;
    Ok(())
}

#[test]
fn long_files_are_read_in_part(rt: HostRuntime) -> Result<(), Fail> {
    let alloc = rt.alloc();
    // One byte more than the limit tells that the file is too long.
    check_whole(&rt, alloc, 4, "abcde")?;
    check_whole(&rt, alloc, 0, "a")?;
    Ok(())
}

#[test]
fn files_are_read_in_pieces(rt: HostRuntime) -> Result<(), Fail> {
    let alloc = rt.alloc();
    let mut files = two_files(alloc, 0)?;
    files.begin(String::from_str(alloc, "a")?)?;
    let mut piece = [0u8; 4];
    assert_eq!(rt; files.read(&mut piece), Ok(4));
    assert_eq!(rt; piece.as_slice(), b"abcd".as_slice());
    assert_eq!(rt; files.read(&mut piece), Ok(2));
    assert_eq!(rt; piece.as_slice(), b"efcd".as_slice());
    assert_eq!(rt; files.read(&mut piece), Ok(0));
    Ok(())
}

#[test]
fn reads_can_fail(rt: HostRuntime) -> Result<(), Fail> {
    let alloc = rt.alloc();
    let mut files = two_files(alloc, 2)?;
    assert!(rt; matches!(read_all(alloc, &mut files, "a", 9), Err(ReadFail::Failed)));
    assert_eq!(rt; files.faults(), 1);
    let again = read_all(alloc, &mut files, "a", 9)?;
    assert_eq!(rt; again.as_slice(), b"abcdef".as_slice());
    Ok(())
}

#[test]
fn names_can_be_missing(rt: HostRuntime) -> Result<(), Fail> {
    let alloc = rt.alloc();
    let mut files = two_files(alloc, 0)?;
    assert!(rt; matches!(read_all(alloc, &mut files, "b", 9), Err(ReadFail::Failed)));
    assert_eq!(rt; files.faults(), 1);
    assert_eq!(rt; files.begin(String::from_str(alloc, "A")?), Err(Failed));
    assert_eq!(rt; files.faults(), 2);
    Ok(())
}

#[test]
fn files_of_the_system_are_read(rt: HostRuntime) -> Result<(), Fail> {
    let alloc = rt.alloc();
    let mut host = HostFiles::new(&rt);
    let zeros = String::from_str(alloc, "/dev/zero")?;
    host.begin(zeros)?;
    let mut piece = [1u8; 4];
    assert_eq!(rt; host.read(&mut piece), Ok(4));
    assert_eq!(rt; piece.as_slice(), [0u8; 4].as_slice());
    Ok(())
}

#[test]
fn files_of_the_system_end(rt: HostRuntime) -> Result<(), Fail> {
    let alloc = rt.alloc();
    let mut host = HostFiles::new(&rt);
    let empty = read_all(alloc, &mut host, "/dev/null", 9)?;
    assert!(rt; empty.is_empty());
    Ok(())
}

#[test]
fn files_of_the_system_can_be_missing(rt: HostRuntime) -> Result<(), Fail> {
    let mut host = HostFiles::new(&rt);
    let missing = String::from_str(rt.alloc(), "no/such/file")?;
    assert_eq!(rt; host.begin(missing), Err(Failed));
    Ok(())
}
