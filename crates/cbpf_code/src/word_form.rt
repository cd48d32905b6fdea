//! A program as word text.

ghost use Rattle.std.specs.Prelude.{◌≡◌, ◌≤◌, ◌<◌, ◌+◌, ◌*◌, ◌++◌, ◌∷◌, drop, length, decimal};
ghost use Rattle.std.specs.List.{flat_map};
ghost use Rattle.cbpf_code.specs.Writing.{Wrote};
ghost use Rattle.cbpf_code.specs.WordText.{Spells};
ghost use Rattle.cbpf_code.specs.WordForm.{InRange, word_line, word_text};

use crate::insn::Insn;
use crate::writing::{WriteFault, write_bytes, write_with_number};
use itoa::write_digits;
use std::io::Write;

/// The size of the longest line: 5, 3, 3 and 10 digits, and a byte after each of the numbers.
const LONGEST_LINE: usize = 25;

/// How many lines a writer gets at once, at most.
const LINES: usize = 64;

/// Writes a number and the byte after it before the position `end`, and returns where it begins.
#[inline(always)]
fn prepend_number(text: &mut [u8], end: usize, number: u64, after: u8) -> usize
    requires room { length (decimal number) < end }
    requires within { end ≤ length text.old }
    ensures begin { result + length (decimal number) + 1 ≡ end }
    ensures bytes { drop result text.new ≡ decimal number ++ after ∷ drop end text.old }
{
    text[end - 1] = after;
    write_digits(number, text, end - 1)
}

/// Writes an instruction's line before the position `end`, and returns where it begins.
// The line is made from its end, where its size isn't known yet.
#[inline(always)]
#[tactic(auto, using(crate::proofs::DigitLemmas::few_digits))]
fn prepend_word_line(text: &mut [u8], end: usize, insn: Insn) -> usize
    requires room { LONGEST_LINE ≤ end }
    requires within { end ≤ length text.old }
    ensures begin { (end ≤ result + LONGEST_LINE) × (result ≤ end) }
    ensures bytes { drop result text.new ≡ word_line insn ++ drop end text.old }
{
    let at = prepend_number(text, end, insn.k as u64, b',');
    let at = prepend_number(text, at, insn.jf as u64, b' ');
    let at = prepend_number(text, at, insn.jt as u64, b' ');
    prepend_number(text, at, insn.code as u64, b' ')
}

/// Writes the lines of at most `LINES` instructions to the end of a text, and returns where they begin.
fn prepend_word_lines(text: &mut [u8; LINES * LONGEST_LINE], list: &[Insn]) -> usize
    requires few { length list.now ≤ LINES }
    ensures begin { result ≤ LINES * LONGEST_LINE }
    ensures bytes { drop result text.new ≡ flat_map word_line list.now }
{
    let mut at = text.len();
    let mut i = list.len();
    while i > 0 {
        i -= 1;
        at = prepend_word_line(text, at, list[i]);
    }
    at
}

#[tactic(auto, using(crate::proofs::WrittenLemmas::loops))]
fn write_word_lines<W: Write>(w: &mut W, list: &[Insn]) -> Result<(), WriteFault>
    ensures { Wrote (W.contents w.old) (W.contents w.new) result (flat_map word_line list.now) }
{
    let mut text = [0; LINES * LONGEST_LINE];
    let mut i = 0;
    while i < list.len() {
        let end = (i + LINES).min(list.len());
        let at = prepend_word_lines(&mut text, &list[i..end]);
        write_bytes(w, &text[at..])?;
        i = end;
    }
    Ok(())
}

/// The fields of an instruction are in their types' ranges.
fn fields_are_in_range(_insn: Insn)
    ensures { InRange _insn }
{}

/// Looks at each instruction once, since only what is read is known to be in its range. It changes
/// nothing, so a compiler can drop it.
fn all_are_in_range(list: &[Insn])
    ensures { length list.now ≤ 4294967295 → Spells (word_text list.now) list.now }
{
    for insn in list {
        fields_are_in_range(*insn);
    }
}

/// Writes word text, as the kernel tree's `bpf_asm` does: the count, a comma, for each instruction
/// its code, jt, jf and k in decimal with a single space between two of them and a comma after, and
/// a newline. [`read_words`](crate::read_words) reads a list of at most 4294967295 instructions back
/// from its text.
#[tactic(auto, using(crate::proofs::WrittenLemmas::three))]
pub fn write_words<W: Write>(w: &mut W, list: &[Insn]) -> Result<(), WriteFault>
    ensures written { Wrote (W.contents w.old) (W.contents w.new) result (word_text list.now) }
    ensures read_back { length list.now ≤ 4294967295 → Spells (word_text list.now) list.now }
{
    all_are_in_range(list);
    write_with_number(w, b"", list.len() as u64, b",")?;
    write_word_lines(w, list)?;
    write_bytes(w, b"\n")
}
