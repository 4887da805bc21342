// Declarations.
ghost use Rattle.std.specs.Prelude.{◌≡◌};
ghost use Rattle.enc_cursor.specs.Cursor.{Reads};
ghost use Rattle.enc_cursor.specs.Limits.{allowed};
ghost use Rattle.enc_cursor.specs.Counted.{kind_token};
ghost use Rattle.enc_cursor.specs.Steps.{stands_for};
ghost use Rattle.enc_parse.specs.Decls as words;
ghost use Rattle.enc_parse.specs.DeclReading as spec;

use crate::members::members;
use crate::routines::routine;
use enc_ast::{ActiveDecl, ClassDecl, Decl, ModeWord, Row, TraitDecl};
use enc_cursor::{Cursor, ParseError};
use enc_lex::Kind;
use enc_terms::{class_groups, declared};
use std::alloc::Global;

fn mode_of(kind: Option<Kind>) -> Option<ModeWord>
    ensures { result ≡ stands_for words.mode kind }
{
    match kind {
        Some(Kind::Linear) => Some(ModeWord::Linear),
        Some(Kind::Local) => Some(ModeWord::Local),
        Some(Kind::Read) => Some(ModeWord::Read),
        Some(Kind::Subordinate) => Some(ModeWord::Subordinate),
        _ => None,
    }
}

#[tactic(auto, unfolding(enc_cursor::specs::Counted::kind_token))]
fn mode(cursor: &mut Cursor<'_>) -> Result<ModeWord, ParseError>
    ensures { Reads (kind_token words.mode cursor.old) result cursor.new }
{
    let Some(mode) = mode_of(cursor.peek()) else {
        return Err(ParseError::Form);
    };
    cursor.take();
    Ok(mode)
}

#[tactic(auto, unfolding(crate::specs::DeclReading::trait_decl))]
fn trait_decl(
    alloc: Global,
    text: &[u8],
    cursor: &mut Cursor<'_>,
    depth: usize,
) -> Result<Decl, ParseError>
    ensures { Reads (spec.trait_decl text.now allowed depth cursor.old) result cursor.new }
{
    let start = cursor.start();
    let mode = mode(cursor)?;
    cursor.expect(Kind::Trait)?;
    let name = declared(alloc, text, cursor)?;
    let (fields, methods) = members(alloc, text, cursor, depth)?;
    Ok(Decl::Trait(TraitDecl {
        mode,
        name,
        fields,
        methods,
        span: cursor.since(start),
    }))
}

#[tactic(auto, unfolding(crate::specs::DeclReading::class_decl))]
fn class_decl(
    alloc: Global,
    text: &[u8],
    cursor: &mut Cursor<'_>,
    depth: usize,
) -> Result<Decl, ParseError>
    ensures { Reads (spec.class_decl text.now allowed depth cursor.old) result cursor.new }
{
    let start = cursor.start();
    cursor.expect(Kind::Class)?;
    let name = declared(alloc, text, cursor)?;
    cursor.expect(Kind::Assign)?;
    let groups = class_groups(alloc, text, cursor, depth)?;
    cursor.expect(Kind::Semicolon)?;
    Ok(Decl::Class(ClassDecl {
        name,
        groups,
        span: cursor.since(start),
    }))
}

#[tactic(auto, unfolding(crate::specs::DeclReading::active_decl))]
fn active_decl(
    alloc: Global,
    text: &[u8],
    cursor: &mut Cursor<'_>,
    depth: usize,
) -> Result<Decl, ParseError>
    ensures { Reads (spec.active_decl text.now allowed depth cursor.old) result cursor.new }
{
    let start = cursor.start();
    cursor.expect(Kind::Active)?;
    cursor.expect(Kind::Class)?;
    let name = declared(alloc, text, cursor)?;
    let (fields, methods) = members(alloc, text, cursor, depth)?;
    Ok(Decl::Active(ActiveDecl {
        name,
        fields,
        methods,
        span: cursor.since(start),
    }))
}

#[tactic(auto, unfolding(crate::specs::DeclReading::fun_decl))]
fn fun_decl(
    alloc: Global,
    text: &[u8],
    cursor: &mut Cursor<'_>,
    depth: usize,
) -> Result<Decl, ParseError>
    ensures { Reads (spec.fun_decl text.now allowed depth cursor.old) result cursor.new }
{
    Ok(Decl::Fun(routine(alloc, text, cursor, depth, Kind::Fun)?))
}

#[tactic(auto, unfolding(crate::specs::DeclReading::declaration))]
fn declaration(
    alloc: Global,
    text: &[u8],
    cursor: &mut Cursor<'_>,
    depth: usize,
) -> Result<Decl, ParseError>
    ensures { Reads (spec.declaration text.now allowed depth cursor.old) result cursor.new }
{
    if mode_of(cursor.peek()).is_some() {
        return trait_decl(alloc, text, cursor, depth);
    }
    match cursor.peek() {
        Some(Kind::Class) => class_decl(alloc, text, cursor, depth),
        Some(Kind::Active) => active_decl(alloc, text, cursor, depth),
        Some(Kind::Fun) => fun_decl(alloc, text, cursor, depth),
        _ => Err(ParseError::Form),
    }
}

/// All the declarations of a text, where `depth` brackets may be opened.
#[tactic(auto, unfolding(crate::specs::DeclReading::declarations))]
pub(crate) fn declarations(
    alloc: Global,
    text: &[u8],
    cursor: &mut Cursor<'_>,
    depth: usize,
) -> Result<Row<Decl>, ParseError>
    ensures { Reads (spec.declarations text.now allowed depth cursor.old) result cursor.new }
{
    let mut items = Row::new(alloc);
    'decls: while cursor.has_more() {
        items.push(declaration(alloc, text, cursor, depth)?)?;
    }
    Ok(items)
}
