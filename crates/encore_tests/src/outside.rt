// What a run of the top calls is given: words, files and sinks in memory.
ghost use Rattle.std.specs.Prelude.{◌≡◌, [], ◌∷◌, ◌++◌, IfOk, codes, map, string_bytes};
ghost use Rattle.encore_tests.specs.Outside.{TakesAs, Holds, words_in};

use enc_ast::Row;
use enc_io::{MemFiles, MemSink};
use enc_model::Schedule;
use std::alloc::{AllocError, Global};

/// A program that prints one line.
pub const HELLO: &str = "active class Main { def main(args: List[int]): unit { print \"hi\"; } }";

/// What stands before the statements of a program.
pub const HEAD: &str = "active class Main { def main(args: List[int]): unit {\n";

/// What stands behind the statements of a program.
pub const TAIL: &str = "\n} }";

/// The text of a program with these statements, which begin on its second line.
pub fn program(alloc: Global, lines: &str) -> Result<String, AllocError>
    ensures { IfOk result (λ text. string_bytes text ≡ HEAD.now ++ lines.now ++ TAIL.now) }
{
    let mut text = String::from_str(alloc, HEAD)?;
    text.push_str(lines)?;
    text.push_str(TAIL)?;
    Ok(text)
}

/// How a sink takes bytes: its call of this number fails (0: none), it takes so many bytes in a
/// call, and has room for so many in all.
#[derive(Clone, Copy)]
pub struct Flow {
    pub fault: u64,
    pub piece: usize,
    pub room: usize,
}

/// A sink that takes all.
pub const OPEN: Flow = Flow {
    fault: 0,
    piece: 4096,
    room: 4096,
};

/// A sink that takes one byte in a call, of which the call of this number fails.
pub const fn narrow(fault: u64) -> Flow
    ensures { result ≡ record { fault = fault; piece = 1; room = 4096 } }
{
    Flow {
        fault,
        piece: 1,
        room: 4096,
    }
}

/// What a call is given: its words, the text of `p.enc`, which call of the files fails (0: none),
/// and how the output and the error stream take bytes.
#[derive(Clone, Copy)]
pub struct Setting<'a> {
    pub words: &'a [&'a str],
    pub text: &'a [u8],
    pub read_fault: u64,
    pub out: Flow,
    pub err: Flow,
}

/// The setting of a run of this text in which nothing fails.
pub fn run_of(text: &[u8]) -> Setting<'_>
    ensures words { words_in result.words.now ≡ codes "run" ∷ codes "p.enc" ∷ [] }
    ensures text { result.text.now ≡ text.now }
    ensures read_fault { result.read_fault ≡ 0 }
    ensures out { result.out ≡ OPEN }
    ensures err { result.err ≡ OPEN }
{
    Setting {
        words: &["run", "p.enc"],
        text,
        read_fault: 0,
        out: OPEN,
        err: OPEN,
    }
}

/// All that a call is given, and what it may change.
#[derive(Drop)]
pub struct Outside {
    pub words: Vec<String>,
    pub files: MemFiles,
    pub out: MemSink,
    pub err: MemSink,
    pub history: MemSink,
    pub schedule: Schedule,
}

/// The outside of a call in this setting. The history is a sink that takes all.
pub fn prepare(alloc: Global, setting: Setting<'_>) -> Result<Outside, AllocError>
    ensures words { IfOk result (λ outside. map string_bytes outside.words.items ≡ words_in setting.entry.words.now) }
    ensures files { IfOk result (λ outside. Holds outside.files setting.entry.text.now setting.entry.read_fault) }
    ensures out { IfOk result (λ outside. TakesAs outside.out setting.entry.out) }
    ensures err { IfOk result (λ outside. TakesAs outside.err setting.entry.err) }
    ensures history { IfOk result (λ outside. TakesAs outside.history OPEN) }
    ensures schedule { IfOk result (λ outside. outside.schedule.pairs ≡ []) }
{
    Ok(Outside {
        words: strings(alloc, setting.words)?,
        files: files(alloc, setting.text, setting.read_fault)?,
        out: sink(alloc, setting.out)?,
        err: sink(alloc, setting.err)?,
        history: sink(alloc, OPEN)?,
        schedule: Schedule {
            pairs: Row::new(alloc),
        },
    })
}

fn strings(alloc: Global, words: &[&str]) -> Result<Vec<String>, AllocError>
    ensures { IfOk result (λ strings. map string_bytes strings.items ≡ words_in words.now) }
{
    let mut strings = Vec::new(alloc);
    for word in words {
        strings.push(String::from_str(alloc, word)?)?;
    }
    Ok(strings)
}

fn files(alloc: Global, text: &[u8], read_fault: u64) -> Result<MemFiles, AllocError>
    ensures { IfOk result (λ files. Holds files text.now read_fault) }
{
    let mut texts = Vec::new(alloc);
    let name = String::from_str(alloc, "p.enc")?;
    texts.push((name, Vec::from_slice(alloc, text)?))?;
    Ok(MemFiles::new(texts, numbers(alloc, read_fault)?))
}

fn sink(alloc: Global, flow: Flow) -> Result<MemSink, AllocError>
    ensures { IfOk result (λ sink. TakesAs sink flow) }
{
    let buffer = vec![in alloc; 0u8; flow.room]?;
    let failing = numbers(alloc, flow.fault)?;
    Ok(MemSink::new(buffer, flow.piece.max(1), failing))
}

fn numbers(alloc: Global, number: u64) -> Result<Vec<u64>, AllocError>
    ensures { IfOk result (λ numbers. numbers.items ≡ number ∷ []) }
{
    let mut numbers = Vec::new(alloc);
    numbers.push(number)?;
    Ok(numbers)
}
