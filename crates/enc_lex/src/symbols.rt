// Symbols.
ghost use Rattle.std.specs.Prelude.{◌≡◌, [], ◌∷◌};
ghost use Rattle.enc_lex.specs.Symbols.{symbol_of};

use crate::Kind;

/// The symbol of one byte.
pub(crate) fn one_byte(byte: u8) -> Option<Kind>
    ensures { result ≡ symbol_of (byte ∷ []) }
{
    match byte {
        b'{' => Some(Kind::OpenBrace),
        b'}' => Some(Kind::CloseBrace),
        b'(' => Some(Kind::OpenParen),
        b')' => Some(Kind::CloseParen),
        b'[' => Some(Kind::OpenBracket),
        b']' => Some(Kind::CloseBracket),
        b':' => Some(Kind::Colon),
        b';' => Some(Kind::Semicolon),
        b',' => Some(Kind::Comma),
        b'.' => Some(Kind::Dot),
        b'!' => Some(Kind::Bang),
        b'=' => Some(Kind::Assign),
        b'<' => Some(Kind::Less),
        b'>' => Some(Kind::Greater),
        b'+' => Some(Kind::Plus),
        b'-' => Some(Kind::Minus),
        b'*' => Some(Kind::Star),
        b'/' => Some(Kind::Slash),
        b'%' => Some(Kind::Percent),
        _ => None,
    }
}

/// The symbol of two bytes.
pub(crate) fn two_bytes(first: u8, second: u8) -> Option<Kind>
    ensures { result ≡ symbol_of (first ∷ second ∷ []) }
{
    if second != b'=' {
        return None;
    }
    match first {
        b'=' => Some(Kind::Equal),
        b'!' => Some(Kind::NotEqual),
        b'<' => Some(Kind::LessEqual),
        b'>' => Some(Kind::GreaterEqual),
        _ => None,
    }
}
