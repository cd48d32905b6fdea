//! Finds the tokens of a text one after another.

ghost use Rattle.std.specs.Prelude.{◌≡◌, ◌≢◌, ◌+◌, ◌<◌, ◌≤◌, ◌^◌, ℕ, min, take, length, slice_index, true, false};
ghost use Rattle.std.specs.Prelude.{List, [], ◌∷◌, ◌++◌, MatchOption};
ghost use Rattle.std.specs.List.{AllByRecursion, prefix_len};
ghost use Rattle.cbpf_code.specs.WordTokens.{single, numeral, is_digit, is_blank, begins_with_digit, decimal_value, tokens_at};
ghost use Rattle.cbpf_code.specs.WordTokens.{tokens_from};
ghost use Rattle.cbpf_code.specs.NextToken.{IsFound};

/// No field of word text reaches this number, so greater ones stand for it.
const CAP: u64 = 4_294_967_296;

/// Whether a byte is one of the digits `0` to `9`.
#[inline(always)]
pub fn is_digit(b: u8) -> bool
    ensures { result ≡ is_digit b }
{
    b > 47 && b < 58
}

/// Whether a byte is a blank of word text, scripts and sources: a space, a tab, a carriage return or a newline.
#[inline(always)]
pub fn is_blank(b: u8) -> bool
    ensures { result ≡ is_blank b }
{
    b == b' ' || b == b'\t' || b == b'\r' || b == b'\n'
}

/// The length of the longest beginning of digits, and the number that they spell, at most `CAP`.
#[tactic(auto, using(std::proofs::lemmas::List::Sums::prefix_len_is))]
fn leading_digits(text: &[u8]) -> (usize, u64)
    ensures length { result.0 ≡ prefix_len is_digit text.now }
    ensures value { result.1 ≡ min (decimal_value (take result.0 text.now)) (2 ^ 32) }
{
    let mut value = 0;
    for (i, b) in text.iter().enumerate() {
        if !is_digit(*b) {
            return (i, value);
        }
        value = (10 * value + u64::from(*b - b'0')).min(CAP);
    }
    (text.len(), value)
}

/// What a token is.
#[derive(Clone, Copy)]
pub enum TokenKind {
    /// A run of digits, and the number that they spell, at most `CAP`.
    Digits(u64),
    /// A byte that is neither digit nor blank.
    Byte(u8),
}

/// A token with the position of its first byte and the position after its last.
#[derive(Clone, Copy)]
pub struct FoundToken {
    pub start: usize,
    pub end: usize,
    pub kind: TokenKind,
}

/// The position of the first byte from `at` on that is no blank, or the text's length.
#[tactic(auto, using(crate::proofs::WordTokenLemmas::token_steps))]
pub(crate) fn skip_blanks(text: &[u8], at: usize) -> usize
    requires { at ≤ length text.now }
    ensures range { (at ≤ result) × (result ≤ length text.now) }
    ensures same { tokens_from text.now result ≡ tokens_from text.now at }
    ensures stops { result < length text.now → is_blank (slice_index text.now result) ≡ false }
{
    let mut i = at;
    while i < text.len() && is_blank(text[i]) {
        i += 1;
    }
    i
}

/// The first token from `at` on.
#[tactic(auto, using(crate::proofs::WordTokenLemmas::token_steps))]
pub(crate) fn next_token(text: &[u8], at: usize) -> Option<FoundToken>
    requires { at ≤ length text.now }
    ensures { MatchOption result (tokens_from text.now at ≡ []) (λ f. IsFound text.now at f) }
{
    let start = skip_blanks(text, at);
    if start == text.len() {
        return None;
    }
    let byte = text[start];
    if is_digit(byte) {
        let (len, value) = leading_digits(&text[start..]);
        return Some(FoundToken {
            start,
            end: start + len,
            kind: TokenKind::Digits(value),
        });
    }
    Some(FoundToken {
        start,
        end: start + 1,
        kind: TokenKind::Byte(byte),
    })
}

/// How a text falls into tokens, read from its front: a blank is passed, a byte that is neither blank
/// nor digit stands alone, and the digits up to a byte that is none are one numeral. It does nothing; its
/// clauses are laws of the tokens that [`read_words`](crate::read_words) is defined by.
#[tactic(auto, using(crate::proofs::WordTokenLemmas::laws))]
pub fn laws_of_tokens()
    ensures empty { (at : ℕ) → tokens_at at [] ≡ [] }
    ensures blank { (at b : ℕ) (rest : List ℕ) → is_blank b ≡ true →
        tokens_at at (b ∷ rest) ≡ tokens_at (at + 1) rest }
    ensures single { (at b : ℕ) (rest : List ℕ) → is_blank b ≡ false → is_digit b ≡ false →
        tokens_at at (b ∷ rest) ≡ single at b ∷ tokens_at (at + 1) rest }
    ensures numeral { (at : ℕ) (digits rest : List ℕ) → digits ≢ [] → AllByRecursion (λ b. is_digit b ≡ true) digits →
        begins_with_digit rest ≡ false →
        tokens_at at (digits ++ rest) ≡ numeral at digits ∷ tokens_at (at + length digits) rest }
{}
