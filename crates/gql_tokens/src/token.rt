//! A token of a text.

use crate::kinds::Kind;
use std::marker::Model;

/// A token of a text. Of a string the text is what stands between the quotes.
#[derive(Drop)]
pub struct Token<'a> {
    kind: Kind,
    text: &'a str,
}

impl<'a> Model for Token<'a> {
    ghost use Rattle.token_read.specs.Lexeme.{Lexeme};
    ghost use Rattle.gql_tokens.specs.declared.kinds.Kind.{Kind};

    ghost Value = { Lexeme Kind };

    ghost view = { λ t. record { kind = t.kind; text = t.text.now } };
}

impl<'a> Token<'a> {
    ghost use Rattle.std.specs.Prelude.{◌≡◌};

    /// A token of this kind with this text.
    pub fn new(kind: Kind, text: &'a str) -> Token<'a>
        ensures { result ≡ record { kind = kind; text = text.now } }
    {
        Token { kind, text }
    }

    /// What it is to the grammar.
    pub fn kind(&self) -> Kind
        ensures { result ≡ self.now.kind }
    {
        self.kind
    }

    /// Its source; of a string and a block string what stands between the quotes, as written.
    pub fn text(&self) -> &'a str
        ensures { result.now ≡ self.now.text }
    {
        self.text
    }

    /// The same token.
    pub fn copy(&self) -> Token<'a>
        ensures { result ≡ self.now }
    {
        Token {
            kind: self.kind,
            text: self.text,
        }
    }
}
