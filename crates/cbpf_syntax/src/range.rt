//! Literals out of range.

ghost use Rattle.std.specs.Prelude.{◌≡◌, ◌<◌, ℕ, map, Some, IfSome, IfNone};
ghost use Rattle.cbpf_syntax.specs.Refusals.{is_large, IsLargeNegative};
ghost use Rattle.cbpf_syntax.specs.Views.{symbol_of, lexeme_of};

use crate::lexeme::{Lexeme, Symbol};

/// The greatest absolute value of a negative literal.
const MOST_NEGATIVE: u32 = 1 << 31;

/// Whether these are a `-` and a number that is too large.
fn is_large_negative(sign: Symbol<'_>, number: Symbol<'_>) -> bool
    ensures { result ≡ is_large (Some (symbol_of sign.entry)) (Some (symbol_of number.entry)) }
{
    match (sign, number) {
        (Symbol::Mark(b), Symbol::Number(n)) => b == b'-' && n > MOST_NEGATIVE,
        _ => false,
    }
}

/// The first number after a `-` that is too large.
pub(crate) fn large_negative(tokens: &[Lexeme<'_>]) -> Option<usize>
    ensures none { IfNone result ((k : ℕ) → IsLargeNegative (map lexeme_of tokens.now) k → ⊥) }
    ensures first { IfSome result (λ i. (k : ℕ) → k < i → IsLargeNegative (map lexeme_of tokens.now) k → ⊥) }
    ensures large { IfSome result (λ i. IsLargeNegative (map lexeme_of tokens.now) i) }
{
    for i in 1..tokens.len() {
        if is_large_negative(tokens[i - 1].symbol, tokens[i].symbol) {
            return Some(i);
        }
    }
    None
}
