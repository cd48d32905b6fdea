//! The words of a line.

ghost use Rattle.std.specs.Prelude.{◌≡◌, ◌≤◌, ◌∷◌, ℕ, suc, drop, take, length, [], true, MatchOption, IfSome};
ghost use Rattle.cbpf_tool.specs.LineWords as spec;

use cbpf_code::is_blank;

/// Without the blanks at its front.
#[tactic(auto, using(crate::proofs::WordLemmas::starts))]
fn trim_start(text: &[u8]) -> &[u8]
    ensures { result.now ≡ spec.trim_start text.now }
{
    let mut at = 0;
    while at < text.len() && is_blank(text[at]) {
        at += 1;
    }
    &text[at..]
}

/// Without the blanks at its end.
#[tactic(auto, using(crate::proofs::WordLemmas::ends))]
fn trim_end(text: &[u8]) -> &[u8]
    ensures { result.now ≡ spec.trim_end text.now }
{
    let mut end = text.len();
    while end > 0 && is_blank(text[end - 1]) {
        end -= 1;
    }
    &text[..end]
}

/// Without the blanks around it.
pub(crate) fn trimmed(text: &[u8]) -> &[u8]
    ensures { result.now ≡ spec.trimmed text.now }
{
    trim_end(trim_start(text))
}

/// Where the first blank is, or the text's end.
#[tactic(auto, using(crate::proofs::WordLemmas::runs))]
fn word_len(text: &[u8]) -> usize
    ensures end { result ≡ spec.word_end text.now }
    ensures within { result ≤ length text.now }
{
    let mut len = 0;
    while len < text.len() && !is_blank(text[len]) {
        len += 1;
    }
    len
}

/// The first word, and what stands after it.
#[tactic(auto, using(crate::proofs::WordLemmas::firsts))]
pub(crate) fn next_word(text: &[u8]) -> Option<(&[u8], &[u8])>
    ensures words { MatchOption result (spec.words_of text.now ≡ [])
        (λ r. spec.words_of text.now ≡ r.0.now ∷ spec.words_of r.1.now) }
    ensures rest { IfSome result (λ r. (n : ℕ) → spec.after_words (suc n) text.now ≡ spec.after_words n r.1.now) }
{
    let begun = trim_start(text);
    if begun.is_empty() {
        return None;
    }
    let len = word_len(begun);
    Some((&begun[..len], &begun[len..]))
}
