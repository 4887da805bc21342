// Files in memory, of which chosen calls fail.
ghost use Rattle.std.specs.Io.KnownBytes.{Consumes, IsAtEnd};
ghost use Rattle.std.specs.Prelude.{◌≡◌, ◌<◌, ◌≤◌, ◌+◌, ◌-◌, ◌^◌, ◌↔◌, ◌⊎◌, [], IfOk, IsErr, IsSome, None, OnErr, OnOk, length, min, take, drop, string_bytes, unwrap_or};
ghost use Rattle.std.specs.Option.{option_map, option_copied};
ghost use Rattle.enc_io.specs.Causes.{HasCause};
ghost use Rattle.enc_io.specs.MemFiles.{pairs_of, text_in, IsAmong};
ghost use Rattle.enc_io.specs.Texts.{Opens};

use crate::calls::Calls;
use crate::{Failed, Files};

// A file that is begun, and how many bytes of it were read.
#[derive(Drop)]
struct Begun {
    name: String,
    offset: usize,
}

/// Files that are held in memory, for tests of code that reads.
///
/// Of two pairs with one name the first counts. A call fails exactly where its number is one of
/// those that are to fail, or where it begins a name that no pair has. Its calls take no memory.
#[derive(Drop)]
pub struct MemFiles {
    files: Vec<(String, Vec<u8>)>,
    calls: Calls,
    begun: Option<Begun>,
    faults: u64,
    failed: Option<String>,
    ghost among: { IsAmong files.items begun },
}

impl MemFiles {
    ghost use Rattle.enc_io.specs.MemFilesView.{mem_files_texts, mem_files_calls, mem_files_failing, mem_files_begun, mem_files_failed, mem_files_faults};

    /// Files of these names and bytes. `failing` has the numbers of the calls that are to fail,
    /// where the first call has the number 1.
    pub fn new(files: Vec<(String, Vec<u8>)>, failing: Vec<u64>) -> Self
        ensures texts { mem_files_texts result ≡ pairs_of files.items }
        ensures failing { mem_files_failing result ≡ failing.items }
        ensures uncalled { mem_files_calls result ≡ 0 }
        ensures faultless { mem_files_faults result ≡ 0 }
        ensures unbegun { mem_files_begun result ≡ None }
        ensures unfailed { mem_files_failed result ≡ None }
    {
        MemFiles {
            files,
            calls: Calls::new(failing),
            begun: None,
            faults: 0,
            failed: None,
        }
    }

    /// How many calls have failed.
    pub fn faults(&self) -> u64
        ensures { result ≡ mem_files_faults self.now }
    {
        self.faults
    }
}

impl Files for MemFiles {
    ghost use Rattle.std.specs.Prelude.{Some};
    ghost use Rattle.enc_io.specs.MemFilesLaws.{mem_files_tied};
    ghost use Rattle.enc_io.specs.MemFilesView.{mem_files_texts, mem_files_rest, mem_files_left, mem_files_begun, mem_files_failed, mem_files_faults, IsNextListed, IsMissing, CountsCall};

    ghost texts = { λ m. Some (mem_files_texts m) };

    ghost rest = { mem_files_rest };

    ghost begun = { mem_files_begun };

    ghost failed = { mem_files_failed };

    ghost faults = { mem_files_faults };

    ghost tied = { mem_files_tied };

    fn begin(&mut self, name: String) -> Result<(), Failed>
        requires { mem_files_faults self.old < 2 ^ 64 - 1 }
        ensures texts { mem_files_texts self.new ≡ mem_files_texts self.old }
        ensures begun { OnOk result (mem_files_begun self.new ≡ Some (string_bytes name)) }
        ensures opened { OnOk result
            (Opens (Some (mem_files_texts self.old)) (string_bytes name) (mem_files_rest self.new)) }
        ensures closed { OnErr result (mem_files_begun self.new ≡ None) }
        ensures cause { HasCause (mem_files_faults self.old) (mem_files_faults self.new) result }
        ensures kept { OnOk result (mem_files_failed self.new ≡ mem_files_failed self.old) }
        ensures named { OnErr result (mem_files_failed self.new ≡ Some (string_bytes name)) }

        // Which calls fail.
        ensures counted { CountsCall self.old self.new }
        ensures one_fault { OnErr result (mem_files_faults self.new ≡ mem_files_faults self.old + 1) }
        ensures fails { IsErr result ↔ (IsNextListed self.old ⊎ IsMissing self.old (string_bytes name)) }
    {
        let fails = self.calls.next_fails();
        if fails || find(&self.files, name.as_str()).is_none() {
            self.begun = None;
            self.failed = Some(name);
            self.faults += 1;
            return Err(Failed);
        }
        self.begun = Some(Begun { name, offset: 0 });
        Ok(())
    }

    fn read(&mut self, into: &mut [u8]) -> Result<usize, Failed>
        requires counted { mem_files_faults self.old < 2 ^ 64 - 1 }
        requires begun { IsSome (mem_files_begun self.old) }
        requires room { 0 < length into.old }
        ensures texts { mem_files_texts self.new ≡ mem_files_texts self.old }
        ensures begun { OnOk result (mem_files_begun self.new ≡ mem_files_begun self.old) }
        ensures within { IfOk result (λ count. count ≤ length into.new) }
        ensures bytes { IfOk result (λ count.
            Consumes (mem_files_rest self.old) (mem_files_rest self.new) (take count into.new)) }
        ensures end { IfOk result (λ count. count ≡ 0 → IsAtEnd (mem_files_rest self.old)) }
        ensures closed { OnErr result (mem_files_begun self.new ≡ None) }
        ensures cause { HasCause (mem_files_faults self.old) (mem_files_faults self.new) result }
        ensures kept { OnOk result (mem_files_failed self.new ≡ mem_files_failed self.old) }
        ensures named { OnErr result (mem_files_failed self.new ≡ mem_files_begun self.old) }

        // Which calls fail, and how many bytes the others put.
        ensures counted { CountsCall self.old self.new }
        ensures one_fault { OnErr result (mem_files_faults self.new ≡ mem_files_faults self.old + 1) }
        ensures fails { IsErr result ↔ IsNextListed self.old }
        ensures put { IfOk result (λ count. count ≡ min (length (mem_files_left self.old)) (length into.new)) }
    {
        let fails = self.calls.next_fails();
        match self.begun.take() {
            None => unreachable!(),
            Some(Begun { name, offset }) => {
                if fails {
                    self.failed = Some(name);
                    self.faults += 1;
                    return Err(Failed);
                }
                let count = copy_front(rest_in(&self.files, name.as_str(), offset), into);
                self.begun = Some(Begun {
                    name,
                    offset: offset + count,
                });
                Ok(count)
            }
        }
    }
}

// The bytes of the first pair with this name.
fn find<'a>(files: &'a [(String, Vec<u8>)], name: &str) -> Option<&'a Vec<u8>>
    ensures { option_map (λ v. v.items) (option_copied result) ≡ text_in files.now name.now }
{
    for file in files {
        if file.0.as_str() == name {
            return Some(&file.1);
        }
    }
    None
}

// What stands in the named text from the offset on.
fn rest_in<'a>(files: &'a [(String, Vec<u8>)], name: &str, offset: usize) -> &'a [u8]
    ensures rest { result.now ≡ drop offset (unwrap_or (text_in files.now name.now) []) }
    ensures fits { offset + length result.now < 2 ^ 64 }
{
    match find(files, name) {
        None => &[],
        Some(text) => &text[offset.min(text.len())..],
    }
}

// Copies bytes to the front of `into`, as many as there are or as it has room for.
fn copy_front(from: &[u8], into: &mut [u8]) -> usize
    ensures count { result ≡ min (length from.now) (length into.old) }
    ensures bytes { take result into.new ≡ take result from.now }
{
    let count = from.len().min(into.len());
    into[..count].copy_from_slice(&from[..count]);
    count
}
