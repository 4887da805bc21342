//! How much a text may have of what is counted.

ghost use Rattle.std.specs.Prelude.{◌≡◌, ◌&&◌, ◌<◌, ◌+◌, true};
ghost use Rattle.enc_cursor.specs.Limits.{at_most};
ghost use Rattle.enc_cursor.specs.Counts.{letters};

use enc_ast::Span;

/// How many brackets may be open.
pub const MAX_BRACKETS: usize = 256;

/// How many bytes a name may have.
pub const MAX_LETTERS: u32 = 255;

/// How many variables may be visible.
pub const MAX_VARIABLES: usize = 255;

/// How many operators a whole expression may have.
pub const MAX_OPERATORS: usize = 256;

/// How many names may be declared.
pub const MAX_NAMES: usize = 65_535;

/// How many groups a class may have.
pub const MAX_GROUPS: usize = 64;

/// How many traits a disjunction may have.
pub const MAX_TRAITS: usize = 64;

/// Whether one more is allowed.
#[tactic(auto, using(crate::proofs::Room::one_more, crate::proofs::Room::no_more))]
pub fn has_room(count: usize, max: usize) -> bool
    ensures room { result ≡ at_most (count + 1) max }
    ensures less { result ≡ true → count < max }
{
    count < max
}

/// Whether a name is short enough.
#[tactic(auto, using(crate::proofs::Room::is_at_most, crate::proofs::Room::is_more))]
pub fn is_short(name: Span) -> bool
    ensures { result ≡ at_most (letters name) 255 }
{
    name.end.saturating_sub(name.start) <= MAX_LETTERS
}

/// Whether a name may be one more of so many.
pub fn may_name(name: Span, count: usize, max: usize) -> bool
    ensures room { result ≡ (at_most (count + 1) max && at_most (letters name) 255) }
    ensures less { result ≡ true → count < max }
{
    if !has_room(count, max) {
        return false;
    }
    is_short(name)
}
