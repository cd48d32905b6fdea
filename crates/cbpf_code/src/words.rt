//! Reads word text, as `bpf_asm` prints it. What `tcpdump -ddd` prints has newlines for the commas, and is refused
//! with N5.

ghost use Rattle.std.specs.Prelude.{◌≡◌, ◌<◌, ◌≤◌, ◌^◌, ◌↔◌, ℕ, length, [], ◌∷◌, IsTrue, IfOk, MatchResult, None};
ghost use Rattle.std.specs.Prelude.{List, ◌≢◌, ◌⊎◌, Some};
ghost use Rattle.cbpf_code.specs.Messages.{message_text, word_message};
ghost use Rattle.cbpf_code.specs.Text.{with_number};
ghost use Rattle.cbpf_code.specs.WordTokens.{tokens_from};
ghost use Rattle.cbpf_code.specs.WordText.{Due, code, comma, next_due, limit_of, Spells, Refused};
ghost use Rattle.cbpf_code.specs.WordSteps.{PassesTokens, IsFaultAt, IsReadWhole};
ghost use Rattle.cbpf_code.specs.declared.insn.Insn.{Insn};
ghost use Rattle.cbpf_code.specs.declared.words.WordFault.{WordFault};
ghost use Rattle.cbpf_code.specs.declared.words.WordFault.TheVariants.{Memory, NumberExpected, CommaExpected};

use crate::insn::Insn;
use crate::message::Message;
use crate::scan::{TokenKind, next_token, skip_blanks};
use std::alloc::Allocator;
use std::error::Error;
use std::fmt;

/// Why word text is refused. A position is a byte's, counted from 0.
#[derive(Clone, Copy, PartialEq, Eq, Debug)]
pub enum WordFault {
    /// Out of memory for the list.
    Memory,
    /// N1: a comma, or the end of the text, where a number must stand; at the comma, or at the
    /// text's length.
    NumberExpected(usize),
    /// N2: a number above its field's range; at its first digit.
    OutOfRange(usize),
    /// N3: a byte that is no digit, blank or comma.
    UnexpectedByte(usize),
    /// N4: the count differs from the number of instructions.
    CountDiffers { said: u32, found: usize },
    /// N5: a number, or the end of the text after the count, where a comma must stand.
    CommaExpected(usize),
}

impl WordFault {
    /// What the program prints of it after `error: `.
    pub fn message(&self) -> Message
        ensures { message_text result ≡ word_message self.now }
    {
        match *self {
            WordFault::Memory => Message::Text("out of memory"),
            WordFault::NumberExpected(at) => at_byte("N1 at byte ", at, ": number expected"),
            WordFault::OutOfRange(at) => at_byte("N2 at byte ", at, ": number out of range"),
            WordFault::UnexpectedByte(at) => at_byte("N3 at byte ", at, ": unexpected byte"),
            WordFault::CountDiffers { said, found } => {
                let (said, found) = (u64::from(said), found as u64);
                Message::Numbers("N4 count says ", said, ", found ", found, "")
            }
            WordFault::CommaExpected(at) => at_byte("N5 at byte ", at, ": comma expected"),
        }
    }
}

fn at_byte(before: &'static str, at: usize, after: &'static str) -> Message
    ensures { message_text result ≡ with_number before.now at after.now }
{
    Message::Number(before, at as u64, after)
}

impl fmt::Display for WordFault {
    ghost use Rattle.std.specs.Prelude.{Some};
    ghost use Rattle.cbpf_code.specs.Messages.{word_message};

    ghost output = { λ fault. Some (word_message fault) };

    fn fmt<W: fmt::Write>(&self, f: &mut fmt::Formatter<W>) -> fmt::Result {
        write!(f, "{}", self.message())
    }
}

impl Error for WordFault {}

/// Whether no token is left.
#[tactic(auto, using(crate::proofs::WordTokenLemmas::ends))]
fn is_end(text: &[u8], at: usize) -> bool
    requires { at ≤ length text.now }
    ensures { IsTrue result ↔ tokens_from text.now at ≡ [] }
{
    skip_blanks(text, at) == text.len()
}

/// A number below `range`, and where it ends.
fn decimal_at(text: &[u8], at: usize, range: u64) -> Result<(u64, usize), WordFault>
    requires within { at ≤ length text.now }
    requires range { range ≤ 2 ^ 32 }
    ensures below { IfOk result (λ r. (r.0 < range) × (r.1 ≤ length text.now)) }
    ensures step { (due : Due) → limit_of due ≡ Some range →
        MatchResult result (λ r. PassesTokens text.now due at (r.0 ∷ []) (next_due due) r.1)
        (λ e. IsFaultAt text.now due at e (NumberExpected (length text.now))) }
{
    match next_token(text, at) {
        None => Err(WordFault::NumberExpected(text.len())),
        Some(found) => match found.kind {
            TokenKind::Digits(n) if n < range => Ok((n, found.end)),
            TokenKind::Digits(_) => Err(WordFault::OutOfRange(found.start)),
            TokenKind::Byte(b',') => Err(WordFault::NumberExpected(found.start)),
            TokenKind::Byte(_) => Err(WordFault::UnexpectedByte(found.start)),
        },
    }
}

/// Where a comma ends.
fn comma_at(text: &[u8], at: usize) -> Result<usize, WordFault>
    requires { at ≤ length text.now }
    ensures { (due : Due) → limit_of due ≡ None →
        MatchResult result (λ end. PassesTokens text.now due at [] (next_due due) end)
        (λ e. IsFaultAt text.now due at e (CommaExpected (length text.now))) }
{
    match next_token(text, at) {
        None => Err(WordFault::CommaExpected(text.len())),
        Some(found) => match found.kind {
            TokenKind::Digits(_) => Err(WordFault::CommaExpected(found.start)),
            TokenKind::Byte(b',') => Ok(found.end),
            TokenKind::Byte(_) => Err(WordFault::UnexpectedByte(found.start)),
        },
    }
}

/// The four numbers of an instruction, and where they end.
fn insn_at(text: &[u8], at: usize) -> Result<(Insn, usize), WordFault>
    requires { at ≤ length text.now }
    ensures { MatchResult result
        (λ r. PassesTokens text.now code at (r.0.code ∷ r.0.jt ∷ r.0.jf ∷ r.0.k ∷ []) comma r.1)
        (λ e. IsFaultAt text.now code at e (NumberExpected (length text.now))) }
{
    let (code, at) = decimal_at(text, at, 65536)?;
    let (jt, at) = decimal_at(text, at, 256)?;
    let (jf, at) = decimal_at(text, at, 256)?;
    let (k, at) = decimal_at(text, at, 4_294_967_296)?;
    let insn = Insn {
        code: code as u16,
        jt: jt as u8,
        jf: jf as u8,
        k: k as u32,
    };
    Ok((insn, at))
}

/// The list, if the count is its length.
#[tactic(auto, using(crate::proofs::WordStepLemmas::reading))]
fn counted<A: Allocator>(
    text: &[u8],
    count: u32,
    list: Vec<Insn, A>,
) -> Result<Vec<Insn, A>, WordFault>
    requires { IsReadWhole text.now count list.items }
    ensures { MatchResult result (λ v. Spells text.now v.items) (λ e. Refused text.now e) }
{
    if list.len() as u64 == u64::from(count) {
        Ok(list)
    } else {
        Err(WordFault::CountDiffers {
            said: count,
            found: list.len(),
        })
    }
}

/// The instructions that word text spells, in one pass over it.
#[tactic(auto, using(crate::proofs::WordStepLemmas::reading))]
fn read_list<A: Allocator>(alloc: A, text: &[u8]) -> Result<Vec<Insn, A>, WordFault>
    ensures { MatchResult result (λ v. Spells text.now v.items) (λ e. Refused text.now e) }
{
    let (count, at) = decimal_at(text, 0, 4_294_967_296)?;
    let mut at = comma_at(text, at)?;
    let mut list = Vec::new(alloc);
    while !is_end(text, at) {
        let (insn, end) = insn_at(text, at)?;
        if list.push(insn).is_err() {
            return Err(WordFault::Memory);
        }
        if is_end(text, end) {
            return counted(text, count as u32, list);
        }
        at = comma_at(text, end)?;
    }
    counted(text, count as u32, list)
}

/// The instructions that word text spells: the count, a comma, and for each instruction its four
/// decimal numbers code, jt, jf and k and a comma, of which the last may be missing. Blanks may
/// stand anywhere between, and numbers may have leading zeros.
#[tactic(auto, using(crate::proofs::WordAnswerLemmas::answers))]
pub fn read_words<A: Allocator>(alloc: A, text: &[u8]) -> Result<Vec<Insn, A>, WordFault>
    ensures answer { MatchResult result (λ v. Spells text.now v.items) (λ e. Refused text.now e) }
    ensures spelled { (list : List Insn) → Spells text.now list →
        MatchResult result (λ v. v.items ≡ list) (λ e. e ≡ Memory) }
    ensures only { (f : WordFault) → f ≢ Memory → Refused text.now f →
        MatchResult result (λ v. ⊥) (λ e. (e ≡ Memory) ⊎ (e ≡ f)) }
{
    read_list(alloc, text)
}
