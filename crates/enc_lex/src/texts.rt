// Texts between quotes.
ghost use Rattle.std.specs.Prelude.{◌≡◌, false};
ghost use Rattle.enc_lex.specs.Escapes.{escaped_byte};
ghost use Rattle.enc_lex.specs.Reading.{text_end};

/// The byte that a letter stands for behind a backslash, or `None` where it stands for none.
pub(crate) fn escaped(letter: u8) -> Option<u8>
    ensures { result ≡ escaped_byte letter }
{
    match letter {
        b'n' => Some(b'\n'),
        b't' => Some(b'\t'),
        b'\\' => Some(b'\\'),
        b'"' => Some(b'"'),
        _ => None,
    }
}

/// How many bytes a text takes with its quotes, where these bytes follow the first of them. `None` where
/// it isn't closed on its line or has an escape that stands for nothing.
pub(crate) fn text_len(bytes: &[u8]) -> Option<usize>
    ensures { result ≡ text_end 1 false bytes.now }
{
    let mut is_escaped = false;
    for at in 0..bytes.len() {
        let byte = bytes[at];
        if is_escaped {
            escaped(byte)?;
            is_escaped = false;
        } else if byte == b'"' {
            return Some(at + 2);
        } else if byte == b'\n' {
            return None;
        } else {
            is_escaped = byte == b'\\';
        }
    }
    None
}
