//! Tokens as the grammar sees them.

ghost use Rattle.std.specs.Prelude.{◌≡◌};
ghost use Rattle.cbpf_syntax.specs.Tokens.{IsSpanOf};
ghost use Rattle.cbpf_syntax.specs.Lexemes.{token_lexeme};
ghost use Rattle.cbpf_syntax.specs.Views.{lexeme_of};

use crate::token::{Kind, Token};

/// A token by what it says.
#[derive(Clone, Copy)]
pub enum Symbol<'a> {
    /// The bytes of a word.
    Word(&'a [u8]),
    /// The value of a number.
    Number(u32),
    /// The byte of a mark.
    Mark(u8),
}

/// A symbol, and the position of its first byte in the text, counted from 0.
#[derive(Clone, Copy)]
pub struct Lexeme<'a> {
    pub symbol: Symbol<'a>,
    pub at: usize,
}

/// What a token of the text says.
pub(crate) fn read_token(text: &[u8], token: Token) -> Lexeme<'_>
    requires { IsSpanOf text.now token }
    ensures { lexeme_of result ≡ token_lexeme text.now token }
{
    let symbol = match token.kind {
        Kind::Word => Symbol::Word(&text[token.start..token.end]),
        Kind::Number(n) => Symbol::Number(n),
        Kind::Mark(b) => Symbol::Mark(b),
    };
    Lexeme {
        symbol,
        at: token.start,
    }
}
