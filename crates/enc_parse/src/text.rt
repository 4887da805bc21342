// The program of a whole text, or the text's first failure.
ghost use Rattle.std.specs.Prelude.{◌≡◌, ◌≤◌, ◌<◌, ◌^◌, IfOk, IfErr, length};
ghost use Rattle.enc_ast.specs.declared.rules.Reject.{Reject};
ghost use Rattle.enc_ast.specs.declared.Program.{Program};
ghost use Rattle.enc_ast.specs.Thin.{body_of};
ghost use Rattle.enc_lex.specs.Lexes.{max_len};
ghost use Rattle.enc_cursor.specs.Limits.{standard};
ghost use Rattle.enc_cursor.specs.Answers.{Fits};
ghost use Rattle.enc_parse.specs.Decls.{IsProgram};
ghost use Rattle.enc_parse.specs.Spells.{Spells, whole};
ghost use Rattle.enc_parse.specs.Failure.{Refuses, place_at};
ghost use Rattle.enc_parse.specs.Answers.{FailsTokens, Fails, GivesProgram, GivesFailure, OneAnswer};

use crate::decls::declarations;
use enc_ast::{Decl, Fail, Program, Reject, Row, Rule, Span};
use enc_cursor::{Cursor, MAX_BRACKETS, ParseError};
use enc_lex::{Token, lex};
use std::alloc::Global;

/// Where the token with this number stands, or the end of a text of this length.
fn place_at(len: u32, tokens: &[Token], at: usize) -> Span
    ensures { result ≡ place_at len tokens.now at }
{
    match tokens.get(at) {
        Some(token) => token.span,
        None => Span {
            start: len,
            end: len,
        },
    }
}

/// The declarations that the tokens of a text spell, or the first failure of the tokens.
fn decls_of(alloc: Global, text: &[u8], tokens: &[Token]) -> Result<Row<Decl>, Fail>
    requires { length text.now ≤ max_len }
    ensures fits { IfOk result (λ decls. Fits standard (IsProgram text.now) tokens.now decls) }
    ensures fails { IfErr result (λ fail. FailsTokens text.now tokens.now fail) }
{
    let len = text.len() as u32;
    let mut cursor = Cursor::new(tokens);
    match declarations(alloc, text, &mut cursor, MAX_BRACKETS) {
        Ok(decls) => Ok(decls),
        Err(ParseError::Memory) => Err(Fail::Memory),
        Err(ParseError::Form) => Err(Fail::Reject(Reject {
            rule: Rule::Form,
            span: place_at(len, tokens, tokens.len().saturating_sub(cursor.left())),
        })),
        Err(ParseError::Over) => Err(Fail::Reject(Reject {
            rule: Rule::Limit,
            span: place_at(
                len,
                tokens,
                tokens.len().saturating_sub(cursor.left()).saturating_sub(1),
            ),
        })),
    }
}

/// The program that a text spells, or the first failure of the text.
fn program_of(alloc: Global, text: &[u8]) -> Result<Program, Fail>
    ensures spells { IfOk result (λ program. Spells text.now program) }
    ensures refused { IfErr result (λ fail. Fails text.now fail) }
{
    let tokens = lex(alloc, text)?;
    let decls = decls_of(alloc, text, tokens.as_slice())?;
    Ok(Program {
        decls,
        span: Span {
            start: 0,
            end: text.len() as u32,
        },
    })
}

/// The program that a text spells. Spans are in bytes.
///
/// A text that spells none is refused at its first failure: as `enc_lex::lex` refuses it, where it has no
/// tokens; else by `Rule::Form` at the first token with which the tokens begin no program, or at the end
/// where they begin one and are none, or by `Rule::Limit` at the first token by which a limit is passed.
/// Of the last two the earlier token counts, and at one token `Rule::Form`. `Fail::Memory` says nothing of
/// the text.
pub fn parse(alloc: Global, text: &[u8]) -> Result<Program, Fail>
    ensures spells { IfOk result (λ program. Spells text.now program) }
    ensures refused { IfErr result (λ fail. Fails text.now fail) }

    // A text that spells a program or has a failure gets these and no others.
    ensures only_program { (program : Program) → Spells text.now program → GivesProgram program result }
    ensures only_failure { (reject : Reject) → Refuses text.now reject → GivesFailure reject result }

    // What runs of a program has no more statements than the text has bytes.
    ensures few { IfOk result (λ program. length (body_of program) ≤ length text.now) }

    // And every text has one answer.
    ensures one_answer { OneAnswer text.now }
{
    program_of(alloc, text)
}
