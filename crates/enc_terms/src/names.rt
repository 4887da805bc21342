//! Names.

ghost use Rattle.std.specs.Prelude.{◌≡◌, IfOk};
ghost use Rattle.enc_cursor.specs.Counts as counts;
ghost use Rattle.enc_cursor.specs.Cursor.{Reads};
ghost use Rattle.enc_cursor.specs.Limits.{allowed};
ghost use Rattle.enc_terms.specs.Names.{name_at, name_as};

use enc_ast::{Name, Span};
use enc_cursor::{Cursor, ParseError};
use enc_lex::word_of;
use std::alloc::{AllocError, Global};

/// The name at a span of a text.
fn name_at(alloc: Global, text: &[u8], span: Span) -> Result<Name, AllocError>
    ensures { IfOk result (λ name. name ≡ name_at text.now span) }
{
    let word = word_of(alloc, text, span)?;
    Ok(Name { word, span })
}

/// A name. It fails with `Form` where there is none, with `Over` where it is too long, and with `Memory`
/// where memory runs out.
#[tactic(auto, unfolding(crate::specs::Names::name_as))]
pub fn name(alloc: Global, text: &[u8], cursor: &mut Cursor<'_>) -> Result<Name, ParseError>
    ensures { Reads (name_as counts.word text.now allowed cursor.old) result cursor.new }
{
    let span = cursor.name()?;
    Ok(name_at(alloc, text, span)?)
}

/// The name of a variable, which is visible from there on. It fails as `name` does, and with `Over` also
/// where too many variables are visible.
#[tactic(auto, unfolding(crate::specs::Names::name_as))]
pub fn variable(alloc: Global, text: &[u8], cursor: &mut Cursor<'_>) -> Result<Name, ParseError>
    ensures { Reads (name_as counts.variable text.now allowed cursor.old) result cursor.new }
{
    let span = cursor.variable()?;
    Ok(name_at(alloc, text, span)?)
}

/// A name that is declared. It fails as `name` does, and with `Over` also where too many are declared.
#[tactic(auto, unfolding(crate::specs::Names::name_as))]
pub fn declared(alloc: Global, text: &[u8], cursor: &mut Cursor<'_>) -> Result<Name, ParseError>
    ensures { Reads (name_as counts.declared text.now allowed cursor.old) result cursor.new }
{
    let span = cursor.declared()?;
    Ok(name_at(alloc, text, span)?)
}

/// A name in a disjunction.
#[tactic(auto, unfolding(crate::specs::Names::name_as))]
pub(crate) fn trait_name(
    alloc: Global,
    text: &[u8],
    cursor: &mut Cursor<'_>,
) -> Result<Name, ParseError>
    ensures { Reads (name_as counts.trait_ text.now allowed cursor.old) result cursor.new }
{
    let span = cursor.trait_name()?;
    Ok(name_at(alloc, text, span)?)
}

/// A name by which a group begins, counted where it is one of a class.
#[tactic(auto, unfolding(crate::specs::Names::name_as))]
pub(crate) fn name_of_group(
    alloc: Global,
    text: &[u8],
    cursor: &mut Cursor<'_>,
    is_of_class: bool,
) -> Result<Name, ParseError>
    ensures { Reads (name_as (counts.group_rules is_of_class).name text.now allowed cursor.old) result cursor.new }
{
    let span = cursor.name_of_group(is_of_class)?;
    Ok(name_at(alloc, text, span)?)
}
