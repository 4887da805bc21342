// Places in rows of a table that stand behind other text.
ghost use Rattle.std.specs.Prelude.{◌≡◌, ◌+◌, min};

use enc_ast::Span;

/// The same bytes where so many stand before them. Past the greatest number it stays at that number.
pub fn behind(span: Span, before: u32) -> Span
    ensures start { result.start ≡ min (span.start + before) 4294967295 }
    ensures end { result.end ≡ min (span.end + before) 4294967295 }
{
    Span {
        start: span.start.saturating_add(before),
        end: span.end.saturating_add(before),
    }
}
