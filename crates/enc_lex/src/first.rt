// Finds what stands first in a text.
ghost use Rattle.std.specs.Prelude.{◌≡◌, ◌≤◌, length, slice_index, IsTrue};
ghost use Rattle.std.specs.List.{prefix_len};
ghost use Rattle.std.specs.Char.{is_ascii_digit};
ghost use Rattle.enc_lex.specs.Bytes.{quote, is_blank, is_in_line};
ghost use Rattle.enc_lex.specs.Reading.{starts_comment, comment_len, int_at, text_at, name_at, symbol_at, standing};

use crate::Kind;
use crate::names::{name_len, starts_name};
use crate::numbers::{MAX_INT, number};
use crate::standing::Standing;
use crate::symbols::{one_byte, two_bytes};
use crate::texts::text_len;
use crate::words::kind_of;

/// What stands at the start of a text, by longest match.
pub(crate) fn stands_first(text: &str) -> Standing
    ensures { result ≡ standing text.now }
{
    let bytes = text.as_bytes();
    let first = byte_at(bytes, 0);
    if is_blank(first) {
        Standing::Gap(1)
    } else if first == b'/' && byte_at(bytes, 1) == b'/' {
        Standing::Gap(comment_len(bytes))
    } else if first.is_ascii_digit() {
        int_first(bytes)
    } else if first == b'"' {
        text_first(bytes)
    } else if starts_name(text) {
        name_first(text)
    } else {
        symbol_first(bytes)
    }
}

fn is_blank(byte: u8) -> bool
    ensures { result ≡ is_blank byte }
{
    byte == b' ' || byte == b'\t' || byte == b'\r' || byte == b'\n'
}

/// The byte at a place, or 0 past the end.
fn byte_at(bytes: &[u8], at: usize) -> u8
    ensures { result ≡ slice_index bytes.now at }
{
    match bytes.get(at) {
        Some(&byte) => byte,
        None => 0,
    }
}

fn comment_len(bytes: &[u8]) -> usize
    requires { IsTrue (starts_comment bytes.now) }
    ensures { result ≡ comment_len bytes.now }
{
    2 + line_len(&bytes[2..])
}

/// How many bytes come before the end of the line.
fn line_len(bytes: &[u8]) -> usize
    ensures len { result ≡ prefix_len is_in_line bytes.now }
    ensures within { result ≤ length bytes.now }
{
    bytes.iter().take_while(|&&byte| byte != b'\n').count()
}

/// How many digits come first.
fn digits_len(bytes: &[u8]) -> usize
    ensures len { result ≡ prefix_len is_ascii_digit bytes.now }
    ensures within { result ≤ length bytes.now }
{
    bytes
        .iter()
        .take_while(|byte| byte.is_ascii_digit())
        .count()
}

fn int_first(bytes: &[u8]) -> Standing
    ensures { result ≡ int_at bytes.now }
{
    let len = digits_len(bytes);
    if number(&bytes[..len]) <= MAX_INT {
        Standing::Token(Kind::Int, len)
    } else {
        Standing::Nothing
    }
}

fn text_first(bytes: &[u8]) -> Standing
    requires { slice_index bytes.now 0 ≡ quote }
    ensures { result ≡ text_at bytes.now }
{
    match text_len(&bytes[1..]) {
        Some(len) => Standing::Token(Kind::Text, len),
        None => Standing::Nothing,
    }
}

fn name_first(text: &str) -> Standing
    ensures { result ≡ name_at text.now }
{
    let len = name_len(text);
    Standing::Token(kind_of(&text[..len]), len)
}

fn symbol_first(bytes: &[u8]) -> Standing
    ensures { result ≡ symbol_at bytes.now }
{
    let first = byte_at(bytes, 0);
    if let Some(kind) = two_bytes(first, byte_at(bytes, 1)) {
        return Standing::Token(kind, 2);
    }
    match one_byte(first) {
        Some(kind) => Standing::Token(kind, 1),
        None => Standing::Nothing,
    }
}
