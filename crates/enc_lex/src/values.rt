// What tokens stand for.
ghost use Rattle.std.specs.Prelude.{◌≡◌, false, pos, IfOk};
ghost use Rattle.enc_lex.specs.Values.{bytes_at, int_of, text_of, inside, unescaped, word_of};

use crate::numbers::{MAX_INT, number};
use crate::texts::escaped;
use enc_ast::{Row, Span, Word};
use std::alloc::{AllocError, Global};

/// The bytes of a text at a span. Where the span goes past the end of the text, so many as there are.
pub fn bytes_at(text: &[u8], span: Span) -> &[u8]
    ensures { result.now ≡ bytes_at text.now span }
{
    let start = text.len().min(span.start as usize);
    let end = text.len().min(span.end as usize).max(start);
    &text[start..end]
}

/// The value of an integer at its span. For more digits than an `i64` holds, as no integer of a text has,
/// it is `i64::MAX`.
pub fn int_value(text: &[u8], span: Span) -> i64
    ensures { result ≡ pos (int_of (bytes_at text.now span)) }
{
    number(bytes_at(text, span)).min(MAX_INT) as i64
}

/// The bytes that a text between quotes stands for, each escape replaced by its byte. It fails only where
/// memory runs out.
pub fn text_bytes(alloc: Global, text: &[u8], span: Span) -> Result<Row<u8>, AllocError>
    ensures { IfOk result (λ bytes. bytes ≡ text_of (bytes_at text.now span)) }
{
    unescape(alloc, inside(bytes_at(text, span)))
}

/// The word of a name at its span. It fails only where memory runs out. Bytes that are not UTF-8, as no
/// name has, are replaced as `String::from_utf8_lossy` does.
pub fn word_of(alloc: Global, text: &[u8], span: Span) -> Result<Word, AllocError>
    ensures { IfOk result (λ word. word ≡ word_of (bytes_at text.now span)) }
{
    let word = String::from_utf8_lossy(alloc, bytes_at(text, span))?;
    Ok(Word::from_string(word))
}

fn inside(bytes: &[u8]) -> &[u8]
    ensures { result.now ≡ inside bytes.now }
{
    if bytes.len() < 2 {
        return &[];
    }
    &bytes[1..bytes.len() - 1]
}

fn unescape(alloc: Global, bytes: &[u8]) -> Result<Row<u8>, AllocError>
    ensures { IfOk result (λ row. row ≡ unescaped false bytes.now) }
{
    let mut row = Row::new(alloc);
    let mut is_escaped = false;
    for &byte in bytes {
        if is_escaped {
            row.push(escaped(byte).unwrap_or(byte))?;
            is_escaped = false;
        } else if byte == b'\\' {
            is_escaped = true;
        } else {
            row.push(byte)?;
        }
    }
    Ok(row)
}
