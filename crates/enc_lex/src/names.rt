// Names, over the characters of a text.
ghost use Rattle.std.specs.Prelude.{◌≡◌, length, take_while, encode_utf8_all};
ghost use Rattle.std.specs.Str.{chars};
ghost use Rattle.unicode_ident.specs.Ident.{is_xid_continue};
ghost use Rattle.enc_lex.specs.Bytes.{begins_with};
ghost use Rattle.enc_lex.specs.Names.{begins_name};
ghost use Rattle.enc_lex.specs.Reading.{name_of};

/// Whether a name begins here.
pub(crate) fn starts_name(text: &str) -> bool
    ensures { result ≡ begins_with begins_name (chars text.now) }
{
    match text.chars().next() {
        Some(first) => is_first(first),
        None => false,
    }
}

/// How many bytes the name takes whose first character the text begins with.
pub(crate) fn name_len(text: &str) -> usize
    ensures { result ≡ length (name_of text.now) }
{
    let mut chars = text.chars();
    match chars.next() {
        Some(first) => first.len_utf8() + run_len(chars.as_str()),
        None => 0,
    }
}

/// How many bytes the characters take with which a name can go on.
fn run_len(text: &str) -> usize
    ensures { result ≡ length (encode_utf8_all (take_while is_xid_continue (chars text.now))) }
{
    let mut len = 0;
    'chars: for next in text.chars() {
        if !goes_on(next) {
            return len;
        }
        len += next.len_utf8();
    }
    len
}

fn is_first(char: char) -> bool
    ensures { result ≡ begins_name char }
{
    if char.is_ascii() {
        char == '_' || char.is_ascii_alphabetic()
    } else {
        unicode_ident::is_xid_start(char)
    }
}

fn goes_on(char: char) -> bool
    ensures { result ≡ is_xid_continue char }
{
    if char.is_ascii() {
        char.is_ascii_alphanumeric() || char == '_'
    } else {
        unicode_ident::is_xid_continue(char)
    }
}
