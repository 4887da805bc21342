// Texts in which a part is marked.
ghost use Rattle.std.specs.Prelude.{◌≡◌, ◌++◌, length, min, IfOk, string_bytes};

use enc_ast::Span;
use std::alloc::{AllocError, Global};

/// A text without its marks, and where the marked part stands.
#[derive(Drop)]
pub struct Marked {
    pub text: String,
    pub span: Span,
}

/// The text of three parts, of which the second was marked, in the midst of a program.
pub fn joined(alloc: Global, before: &str, inside: &str, after: &str) -> Result<String, AllocError>
    ensures { IfOk result (λ text. string_bytes text ≡ before.now ++ inside.now ++ after.now) }
{
    let mut text = String::from_str(alloc, before)?;
    text.push_str(inside)?;
    text.push_str(after)?;
    Ok(text)
}

/// The text of a row, whose marked part stands between `«` and `»`, or `None` where a mark is missing.
pub fn unmarked(alloc: Global, row: &str) -> Result<Option<Marked>, AllocError> {
    let Some((before, rest)) = row.split_once('«') else {
        return Ok(None);
    };
    let Some((inside, after)) = rest.split_once('»') else {
        return Ok(None);
    };
    let text = joined(alloc, before, inside, after)?;
    let start = count(before);
    let end = start.saturating_add(count(inside));
    Ok(Some(Marked {
        text,
        span: Span { start, end },
    }))
}

/// How many bytes a text has, or the greatest number where it has more.
pub fn count(text: &str) -> u32
    ensures { result ≡ min (length text.now) 4294967295 }
{
    u32::try_from(text.len()).unwrap_or(u32::MAX)
}
