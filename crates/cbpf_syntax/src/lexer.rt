//! The tokens of a text.

ghost use Rattle.std.specs.Prelude.{◌≡◌, ◌≢◌, ◌≤◌, length, IfOk, IfErr, IfSome, IfNone, All};
ghost use Rattle.cbpf_syntax.specs.declared.token.LexFault.TheVariants.{Memory};
ghost use Rattle.cbpf_syntax.specs.Tokens.{Lexes, IsLexFault, IsSpanOf, line_of};
ghost use Rattle.cbpf_syntax.specs.TokenReading.{IsNextToken, HasNoMore};

use crate::piece::{PieceKind, bad_piece_of, next_piece};
use crate::token::{LexFault, Token};
use std::alloc::Allocator;
use std::marker::Model;

/// The line of the byte at a position, counted from 1. A line ends at each newline byte.
pub fn line_of(text: &[u8], at: usize) -> u64
    requires { at ≤ length text.now }
    ensures { result ≡ line_of text.now at }
{
    text[..at].iter().filter(|b| **b == b'\n').count() as u64 + 1
}

/// A source text, and how far its tokens were taken.
#[derive(Drop)]
pub struct Lexer<'a> {
    text: &'a [u8],
    /// Where the next piece begins.
    at: usize,
}

impl<'a> Model for Lexer<'a> {
    ghost use Rattle.std.specs.Prelude.{◌≤◌, length};
    ghost use Rattle.std.specs.Prelude.{List};
    ghost use Rattle.cbpf_syntax.specs.declared.token.Token.{Token};
    ghost use Rattle.cbpf_syntax.specs.Tokens.{LexesTo};
    ghost use Rattle.cbpf_syntax.specs.TokenReading.{PartlyRead};

    ghost Value = { PartlyRead };

    ghost view = { λ l. record { text = l.text.now; at = l.at } };

    // The text up to `at` can be cut into tokens.
    ghost invariant = { λ l. (l.at ≤ length l.text.now) × ((tokens : List Token) × LexesTo l.text.now l.at tokens) };
}

impl<'a> Lexer<'a> {
    /// A text of which no token was taken.
    pub fn new(text: &'a [u8]) -> Self
        ensures { result ≡ record { text = text.now; at = 0 } }
    {
        Lexer { text, at: 0 }
    }

    /// The same text, read as far.
    pub fn copied(&self) -> Self
        ensures { result ≡ self.now }
    {
        Lexer {
            text: self.text,
            at: self.at,
        }
    }

    /// The next token, as `tokens` would list it, or `None` at the text's end.
    ///
    /// # Errors
    ///
    /// `At`: a bad piece comes before the next token, at this position. The lexer then stays where
    /// it was.
    #[inline(always)]
    pub fn next_token(&mut self) -> Result<Option<Token>, LexFault>
        ensures text { self.new.text ≡ self.old.text }
        ensures token { IfOk result (λ next. IfSome next (IsNextToken self.old.text self.old.at self.new.at)) }
        ensures end { IfOk result (λ next. IfNone next (HasNoMore self.old.text self.old.at)) }
        ensures finished { IfOk result (λ next. IfNone next (self.new.at ≡ length self.old.text)) }
        ensures fault { IfErr result (IsLexFault self.old.text) }
        ensures no_memory { IfErr result (λ fault. fault ≢ Memory) }
        ensures stays { IfErr result (λ _. self.new ≡ self.old) }
    {
        let text = self.text;
        let mut at = self.at;
        while at < text.len() {
            let piece = next_piece(&text[..at], text[at], &text[at + 1..]);
            let end = at + piece.size;
            if let Some(fault) = bad_piece_of(piece.kind) {
                return Err(LexFault::At(fault, at));
            }
            if let PieceKind::TokenOf(kind) = piece.kind {
                self.at = end;
                return Ok(Some(Token {
                    kind,
                    start: at,
                    end,
                }));
            }
            at = end;
        }
        self.at = at;
        Ok(None)
    }
}

/// The tokens of a source text, in order.
///
/// The text is cut into blanks, comments and tokens, each the longest at its position.
/// Blanks are spaces, tabs, newlines and carriage returns. A comment is `/*` to the next
/// `*/` after these two bytes, `;` to the end of the line, or a line whose first byte
/// that isn't a blank is `#`.
///
/// # Errors
///
/// `At` reports the first piece that is none of these, and its position; `Memory` that the
/// allocator refused, whatever the text is.
pub fn tokens<A: Allocator>(alloc: A, text: &[u8]) -> Result<Vec<Token, A>, LexFault>
    ensures lexed { IfOk result (λ v. Lexes text.now v.items) }
    ensures spans { IfOk result (λ v. All (IsSpanOf text.now) v.items) }
    ensures fault { IfErr result (IsLexFault text.now) }
{
    let mut found = Vec::new(alloc);
    let mut lexer = Lexer::new(text);
    while let Some(token) = lexer.next_token()? {
        found.push(token)?;
    }
    Ok(found)
}
