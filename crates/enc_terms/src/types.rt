//! Types.

ghost use Rattle.std.specs.Prelude.{◌≡◌, ◌<◌, true, false};
ghost use Rattle.enc_cursor.specs.Cursor.{Reads};
ghost use Rattle.enc_cursor.specs.Limits.{allowed};
ghost use Rattle.enc_terms.specs.TypeReading as spec;

use crate::names::{name_of_group, trait_name};
use crate::words::{plain_type, wrapped, wrapper_of};
use enc_ast::{GroupText, Items, Name, Row, TypeForm, TypeText};
use enc_cursor::{Cursor, ParseError};
use enc_lex::Kind;
use std::alloc::Global;

/// The names of a disjunction behind its first `or`.
#[tactic(auto, unfolding(crate::specs::TypeReading::or_names))]
fn or_names(alloc: Global, text: &[u8], cursor: &mut Cursor<'_>) -> Result<Row<Name>, ParseError>
    ensures { Reads (spec.or_names text.now allowed cursor.old) result cursor.new }
{
    let mut names = Row::new(alloc);
    names.push(trait_name(alloc, text, cursor)?)?;
    'names: while cursor.sees(Kind::Or) {
        cursor.take();
        names.push(trait_name(alloc, text, cursor)?)?;
    }
    Ok(names)
}

/// The names of a disjunction, of which there are two at least.
#[tactic(auto, unfolding(crate::specs::TypeReading::disjunction))]
fn disjunction(alloc: Global, text: &[u8], cursor: &mut Cursor<'_>) -> Result<Row<Name>, ParseError>
    ensures { Reads (spec.disjunction text.now allowed cursor.old) result cursor.new }
{
    let mut names = Row::new(alloc);
    names.push(trait_name(alloc, text, cursor)?)?;
    cursor.expect(Kind::Or)?;
    names.append(or_names(alloc, text, cursor)?)?;
    cursor.end_traits();
    Ok(names)
}

/// The names of a group in brackets.
#[tactic(auto, unfolding(crate::specs::TypeReading::several))]
fn several(
    alloc: Global,
    text: &[u8],
    cursor: &mut Cursor<'_>,
    depth: usize,
    is_of_class: bool,
) -> Result<Row<Name>, ParseError>
    ensures { Reads (spec.several text.now allowed is_of_class depth cursor.old) result cursor.new }
{
    cursor.open_of_group(Kind::OpenParen, depth, is_of_class)?;
    let names = disjunction(alloc, text, cursor)?;
    cursor.expect(Kind::CloseParen)?;
    Ok(names)
}

/// The name of a group of one name.
#[tactic(auto, unfolding(crate::specs::TypeReading::single))]
fn single(
    alloc: Global,
    text: &[u8],
    cursor: &mut Cursor<'_>,
    is_of_class: bool,
) -> Result<Row<Name>, ParseError>
    ensures { Reads (spec.single text.now allowed is_of_class cursor.old) result cursor.new }
{
    let mut names = Row::new(alloc);
    names.push(name_of_group(alloc, text, cursor, is_of_class)?)?;
    Ok(names)
}

#[tactic(auto, unfolding(crate::specs::TypeReading::group_names))]
fn group_names(
    alloc: Global,
    text: &[u8],
    cursor: &mut Cursor<'_>,
    depth: usize,
    is_of_class: bool,
) -> Result<Row<Name>, ParseError>
    ensures { Reads (spec.group_names text.now allowed is_of_class depth cursor.old) result cursor.new }
{
    if cursor.sees(Kind::OpenParen) {
        return several(alloc, text, cursor, depth, is_of_class);
    }
    single(alloc, text, cursor, is_of_class)
}

#[tactic(auto, unfolding(crate::specs::TypeReading::group))]
fn group(
    alloc: Global,
    text: &[u8],
    cursor: &mut Cursor<'_>,
    depth: usize,
    is_of_class: bool,
) -> Result<GroupText, ParseError>
    ensures { Reads (spec.group text.now allowed is_of_class depth cursor.old) result cursor.new }
{
    let start = cursor.start();
    let names = group_names(alloc, text, cursor, depth, is_of_class)?;
    Ok(GroupText {
        names,
        span: cursor.since(start),
    })
}

/// Groups with `and` between.
#[tactic(auto, unfolding(crate::specs::TypeReading::groups))]
fn groups(
    alloc: Global,
    text: &[u8],
    cursor: &mut Cursor<'_>,
    depth: usize,
    is_of_class: bool,
) -> Result<Row<GroupText>, ParseError>
    ensures { Reads (spec.groups text.now allowed is_of_class depth cursor.old) result cursor.new }
{
    let mut items = Row::new(alloc);
    items.push(group(alloc, text, cursor, depth, is_of_class)?)?;
    'groups: while cursor.sees(Kind::And) {
        cursor.take();
        items.push(group(alloc, text, cursor, depth, is_of_class)?)?;
    }
    Ok(items)
}

/// The groups of a class, where `depth` brackets may still be opened. It fails with `Form` where there
/// are none, with `Over` where a limit is passed, and with `Memory` where memory runs out.
#[tactic(auto, unfolding(crate::specs::TypeReading::class_groups))]
pub fn class_groups(
    alloc: Global,
    text: &[u8],
    cursor: &mut Cursor<'_>,
    depth: usize,
) -> Result<Row<GroupText>, ParseError>
    ensures { Reads (spec.class_groups text.now allowed depth cursor.old) result cursor.new }
{
    let items = groups(alloc, text, cursor, depth, true)?;
    cursor.end_groups();
    Ok(items)
}

/// What a type of groups says.
#[tactic(auto, unfolding(crate::specs::TypeReading::cap_form))]
fn cap_form(
    alloc: Global,
    text: &[u8],
    cursor: &mut Cursor<'_>,
    depth: usize,
) -> Result<TypeForm, ParseError>
    ensures { Reads (spec.cap_form text.now allowed depth cursor.old) result cursor.new }
{
    let items = groups(alloc, text, cursor, depth, false)?;
    Ok(TypeForm::Cap(Items::from_vec(items.into_vec())))
}

/// A type of groups, where `depth` brackets may still be opened. It fails with `Form` where there is
/// none, with `Over` where a limit is passed, and with `Memory` where memory runs out.
#[tactic(auto, unfolding(crate::specs::TypeReading::cap))]
pub fn cap(
    alloc: Global,
    text: &[u8],
    cursor: &mut Cursor<'_>,
    depth: usize,
) -> Result<TypeText, ParseError>
    ensures { Reads (spec.cap text.now allowed depth cursor.old) result cursor.new }
{
    let start = cursor.start();
    let form = cap_form(alloc, text, cursor, depth)?;
    Ok(TypeText {
        form,
        span: cursor.since(start),
    })
}

/// A type, where `depth` brackets may still be opened. It fails with `Form` where there is none, with
/// `Over` where a limit is passed, and with `Memory` where memory runs out.
#[cycle(types)]
#[tactic(auto, unfolding(crate::specs::TypeReading::type_text, crate::specs::TypeReading::type_within))]
pub fn type_text(
    alloc: Global,
    text: &[u8],
    cursor: &mut Cursor<'_>,
    depth: usize,
) -> Result<TypeText, ParseError>
    ensures { Reads (spec.type_text text.now allowed depth cursor.old) result cursor.new }
{
    let start = cursor.start();
    let form = type_form(alloc, text, cursor, depth)?;
    Ok(TypeText {
        form,
        span: cursor.since(start),
    })
}

/// A type inside brackets, which are counted in `depth`. It fails as `type_text` does.
#[cycle(types)]
#[tactic(auto, unfolding(crate::specs::TypeReading::type_inside))]
pub fn type_inside(
    alloc: Global,
    text: &[u8],
    cursor: &mut Cursor<'_>,
    depth: usize,
) -> Result<TypeText, ParseError>
    requires { 0 < depth }
    ensures { Reads (spec.type_inside text.now allowed depth cursor.old) result cursor.new }
{
    type_text(alloc, text, cursor, depth - 1)
}

#[cycle(types)]
#[tactic(auto, unfolding(crate::specs::TypeReading::type_form, enc_cursor::specs::Counted::kind_token))]
fn type_form(
    alloc: Global,
    text: &[u8],
    cursor: &mut Cursor<'_>,
    depth: usize,
) -> Result<TypeForm, ParseError>
    ensures { Reads (spec.type_form text.now allowed depth (spec.type_inside text.now allowed depth) cursor.old) result cursor.new }
{
    if let Some(form) = plain_type(cursor.peek()) {
        cursor.take();
        return Ok(form);
    }
    if wrapper_of(cursor.peek()).is_some() {
        return of_type(alloc, text, cursor, depth);
    }
    cap_form(alloc, text, cursor, depth)
}

/// A type that a word makes of another.
#[cycle(types)]
#[tactic(auto, unfolding(crate::specs::TypeReading::of_type, enc_cursor::specs::Counted::kind_token))]
fn of_type(
    alloc: Global,
    text: &[u8],
    cursor: &mut Cursor<'_>,
    depth: usize,
) -> Result<TypeForm, ParseError>
    ensures { Reads (spec.of_type text.now allowed depth (spec.type_inside text.now allowed depth) cursor.old) result cursor.new }
{
    let Some(wrapper) = wrapper_of(cursor.peek()) else {
        return Err(ParseError::Form);
    };
    cursor.take();
    cursor.open(Kind::OpenBracket, depth)?;
    let inner = type_inside(alloc, text, cursor, depth)?;
    cursor.expect(Kind::CloseBracket)?;
    Ok(wrapped(alloc, wrapper, inner)?)
}
