// Tokens, and lists of them.
ghost use Rattle.std.specs.Prelude.{◌≡◌, ◌<◌, ◌==◌, length, slice_get, OnSome};
ghost use Rattle.std.specs.Option.{option_copied};

use crate::Kind;
use enc_ast::{Row, Span};
use std::marker::Model;

/// A token of a text: what it is, and where it stands. What it says is the bytes at its span.
#[derive(Clone, Copy, Debug, PartialEq, Eq)]
pub struct Token {
    pub kind: Kind,
    pub span: Span,
}

/// The tokens of a text, in order. Contracts see the list of them.
#[derive(Debug, Drop)]
pub struct Tokens {
    items: Row<Token>,
}

impl Model for Tokens {
    ghost use Rattle.std.specs.Prelude.{List};
    ghost use Rattle.enc_lex.specs.declared.tokens.Token.{Token};

    ghost Value = { List Token };

    ghost view = { λ tokens. tokens.items };
}

impl Tokens {
    /// The tokens of a row, with no copy.
    pub(crate) fn from_row(items: Row<Token>) -> Tokens
        ensures { result ≡ items }
    {
        Tokens { items }
    }

    /// All the tokens, for whatever a slice can do.
    pub fn as_slice(&self) -> &[Token]
        ensures { result.now ≡ self.now }
    {
        self.items.as_slice()
    }

    /// How many tokens there are.
    pub fn len(&self) -> usize
        ensures { result ≡ length self.now }
    {
        self.items.len()
    }

    /// Whether there is no token.
    pub fn is_empty(&self) -> bool
        ensures { result ≡ (length self.now == 0) }
    {
        self.items.len() == 0
    }

    /// The token in a place, or `None` past the end.
    pub fn get(&self, at: usize) -> Option<&Token>
        ensures value { option_copied result ≡ slice_get self.now at }
        ensures within { OnSome result (at < length self.now) }
    {
        self.items.get(at)
    }
}
