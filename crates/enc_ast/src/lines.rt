// Lines and columns of a text.
ghost use Rattle.std.specs.Prelude.{◌≡◌, ◌<◌, length, min};
ghost use Rattle.enc_ast.specs.Place.{line_of, column_of};

/// The line and the column of the byte `at`, both counted from 1, a column in bytes. A place past
/// the text counts as its end.
pub fn place(text: &[u8], at: u32) -> (u32, u32)
    requires { min at (length text.now) < 4294967295 }
    ensures { result ≡ (line_of text.now at, column_of text.now at) }
{
    let mut line = 1;
    let mut column = 1;
    for &byte in &text[..text.len().min(at as usize)] {
        if byte == b'\n' {
            line += 1;
            column = 1;
        } else {
            column += 1;
        }
    }
    (line, column)
}
