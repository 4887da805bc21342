// Reads a text into its tokens.
ghost use Rattle.std.specs.Prelude.{◌≡◌, ◌≤◌, IfOk, IfErr, All, List, length};
ghost use Rattle.enc_ast.specs.declared.rules.Reject.{Reject};
ghost use Rattle.enc_lex.specs.declared.tokens.Token.{Token};
ghost use Rattle.enc_lex.specs.Lexes.{max_len, Lexes, StandsIn, InOrder};
ghost use Rattle.enc_lex.specs.Answers.{Fails, GivesTokens, GivesFailure};
ghost use Rattle.enc_lex.specs.Failure.{Refuses, token_reject};

use crate::first::stands_first;
use crate::standing::Standing;
use crate::{Token, Tokens};
use enc_ast::{Fail, Reject, Row, Rule, Span};
use std::alloc::Global;
use std::str;

/// The greatest length of a text, in bytes.
pub const MAX_LEN: usize = 1 << 20;

/// The tokens of a text. They are read by longest match, and blanks and comments stand between them.
///
/// A text is refused at its first failure: by `Rule::Size` where it is longer than `MAX_LEN`, else by
/// `Rule::Token` at the first byte that is not UTF-8, else by `Rule::Token` at the first place where no
/// token begins. An integer over `i64::MAX` is no token, nor is a text that isn't closed on its line or
/// has an unknown escape. `Fail::Memory` says nothing of the text.
pub fn lex(alloc: Global, text: &[u8]) -> Result<Tokens, Fail>
    ensures lexed { IfOk result (λ tokens. Lexes text.now tokens) }
    ensures refused { IfErr result (λ fail. Fails text.now fail) }

    // A text that has tokens or a failure gets these and no others.
    ensures only_tokens { (tokens : List Token) → Lexes text.now tokens → GivesTokens tokens result }
    ensures only_failure { (reject : Reject) → Refuses text.now reject → GivesFailure reject result }

    // The tokens stand in order, each where the bytes at its span are such a token.
    ensures in_order { IfOk result (λ tokens. InOrder 0 (length text.now) tokens) }
    ensures standing { IfOk result (λ tokens. All (StandsIn text.now) tokens) }
{
    if text.len() > MAX_LEN {
        let span = Span { start: 0, end: 0 };
        return Err(Fail::Reject(Reject {
            rule: Rule::Size,
            span,
        }));
    }
    match str::from_utf8(text) {
        Ok(text) => tokens_of(alloc, text),
        Err(error) => Err(refused(error.valid_up_to())),
    }
}

fn tokens_of(alloc: Global, text: &str) -> Result<Tokens, Fail>
    requires { length text.now ≤ max_len }
    ensures lexed { IfOk result (λ tokens. Lexes text.now tokens) }
    ensures refused { IfErr result (λ fail. Fails text.now fail) }
{
    let mut tokens = Row::new(alloc);
    let mut at = 0;
    'places: while at < text.len() {
        match stands_first(&text[at..]) {
            Standing::Gap(len) => at += len,
            Standing::Token(kind, len) => {
                let span = Span {
                    start: at as u32,
                    end: (at + len) as u32,
                };
                tokens.push(Token { kind, span })?;
                at += len;
            }
            Standing::Nothing => return Err(refused(at)),
        }
    }
    Ok(Tokens::from_row(tokens))
}

/// The refusal of a text for its byte at a place.
fn refused(at: usize) -> Fail
    requires { at ≤ max_len }
    ensures { result ≡ Fail.Reject (token_reject at) }
{
    let start = at as u32;
    Fail::Reject(Reject {
        rule: Rule::Token,
        span: Span {
            start,
            end: start + 1,
        },
    })
}
