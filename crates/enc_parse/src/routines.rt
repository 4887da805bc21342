// Methods and functions.
ghost use Rattle.std.specs.Prelude.{◌≡◌};
ghost use Rattle.enc_cursor.specs.Cursor.{Reads};
ghost use Rattle.enc_cursor.specs.Limits.{allowed};
ghost use Rattle.enc_parse.specs.DeclReading as spec;

use crate::params::param_list;
use enc_ast::Method;
use enc_cursor::{Cursor, ParseError};
use enc_lex::Kind;
use enc_stmts::block;
use enc_terms::{declared, type_text};
use std::alloc::Global;

/// A method or a function, which begins with the word.
#[tactic(auto, unfolding(crate::specs::DeclReading::routine, crate::specs::DeclReading::routine_parts))]
pub(crate) fn routine(
    alloc: Global,
    text: &[u8],
    cursor: &mut Cursor<'_>,
    depth: usize,
    word: Kind,
) -> Result<Method, ParseError>
    ensures { Reads (spec.routine text.now allowed word depth cursor.old) result cursor.new }
{
    let start = cursor.start();
    let outer = cursor.variables();
    cursor.expect(word)?;
    let name = declared(alloc, text, cursor)?;
    let params = param_list(alloc, text, cursor, depth)?;
    cursor.expect(Kind::Colon)?;
    let result = type_text(alloc, text, cursor, depth)?;
    let body = block(alloc, text, cursor, depth)?;
    cursor.leave(outer);
    Ok(Method {
        name,
        params,
        result,
        body,
        span: cursor.since(start),
    })
}
