//! The tokens of a source text, and what is reported of one that has none.

ghost use Rattle.std.specs.Prelude.{ℕ, List, IfOk, IfErr, All};
ghost use Rattle.cbpf_syntax.specs.Tokens.{Lexes, IsLexFault, IsSpanOf};
ghost use Rattle.cbpf_text.specs.Refusals.{IsLexRefused, IsPlacedPiece};

use crate::fault::{AsmFault, bad_piece_kind};
use crate::placed::PlacedFault;
use cbpf_syntax::{LexFault, Token};
use std::alloc::Allocator;

/// What is reported of a text that has no tokens.
pub(crate) fn lex_fault(fault: LexFault) -> PlacedFault
    ensures { (text : List ℕ) → IsLexFault text fault → IsPlacedPiece text result }
{
    match fault {
        LexFault::Memory => PlacedFault::Memory,
        LexFault::At(bad, at) => PlacedFault::At(bad_piece_kind(bad), at),
    }
}

/// The tokens of a source text, in order, each with its position.
///
/// # Errors
///
/// `At`: the first bad piece of the text, with its line. `Memory`: the allocator refused,
/// whatever the text is.
pub fn tokens<A: Allocator>(alloc: A, text: &[u8]) -> Result<Vec<Token, A>, AsmFault>
    ensures lexed { IfOk result (λ v. Lexes text.now v.items) }
    ensures spans { IfOk result (λ v. All (IsSpanOf text.now) v.items) }
    ensures refused { IfErr result (IsLexRefused text.now) }
{
    match cbpf_syntax::tokens(alloc, text) {
        Ok(found) => Ok(found),
        Err(fault) => Err(lex_fault(fault).on_line(text)),
    }
}
