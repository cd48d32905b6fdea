//! Programs by the text of a filter.

ghost use Rattle.std.specs.Prelude.{◌≡◌, IfOk, IfErr};
ghost use Rattle.cbpf_code.specs.WordText.{Spells};
ghost use Rattle.cbpf_text.specs.Assembled.{Assembles};
ghost use Rattle.cbpf_why.specs.Filters as spec;

use cbpf_code::{CheckFault, Insn, Program, WordFault, is_blank, is_digit, read_words};
use cbpf_text::{AsmFault, PlacedFault, assemble_placed};
use std::alloc::Allocator;
use std::error::Error;
use std::fmt;

/// Why a text is no program.
#[derive(Clone, Copy, Debug, PartialEq, Eq)]
pub enum FilterFault {
    /// It is no source. The fault is never `AsmFault::Memory`. The position in the text that shows it is counted in
    /// bytes from 0.
    Source(AsmFault, usize),
    /// It is no word text. It is never `WordFault::Memory`.
    Words(WordFault),
    /// The checker refuses its instructions.
    Check(CheckFault),
    /// The allocator refused.
    Memory,
}

/// Shows the fault of the source, of the words or of the program.
impl fmt::Display for FilterFault {
    ghost use Rattle.std.specs.Prelude.{Some};
    ghost use Rattle.cbpf_why.specs.Messages.{filter_message};

    ghost output = { λ fault. Some (filter_message fault) };

    fn fmt<W: fmt::Write>(&self, f: &mut fmt::Formatter<W>) -> fmt::Result {
        match self {
            FilterFault::Source(fault, _) => fmt::Display::fmt(fault, f),
            FilterFault::Words(fault) => fmt::Display::fmt(fault, f),
            FilterFault::Check(fault) => fmt::Display::fmt(fault, f),
            FilterFault::Memory => f.write_str("out of memory"),
        }
    }
}

impl Error for FilterFault {}

/// Whether a text is words, and no source.
fn are_words(text: &[u8]) -> bool
    ensures { result ≡ spec.are_words text.now }
{
    for b in text {
        if !is_blank(*b) {
            return is_digit(*b);
        }
    }
    false
}

/// A comma for a newline.
fn with_comma(b: u8) -> u8
    ensures { result ≡ spec.with_comma b }
{
    if b == b'\n' { b',' } else { b }
}

/// Puts a comma for each newline of a text that has no comma.
#[tactic(auto, using(std::proofs::lemmas::List::Edits::map_over_more))]
fn put_commas(text: &mut [u8])
    ensures { text.new ≡ spec.word_text_of text.old }
{
    if text.contains(&b',') {
        return;
    }
    for i in 0..text.len() {
        text[i] = with_comma(text[i]);
    }
}

/// The instructions of a word text.
fn words_list<A: Allocator>(alloc: A, text: &[u8]) -> Result<Vec<Insn, A>, FilterFault>
    ensures ok { IfOk result (λ list. Spells text.now list.items) }
    ensures fault { IfErr result (spec.IsWordsFault text.now) }
{
    match read_words(alloc, text) {
        Ok(list) => Ok(list),
        Err(WordFault::Memory) => Err(FilterFault::Memory),
        Err(fault) => Err(FilterFault::Words(fault)),
    }
}

/// The instructions of a source.
fn source_list<A: Allocator + Copy>(alloc: A, text: &[u8]) -> Result<Vec<Insn, A>, FilterFault>
    ensures ok { IfOk result (λ list. Assembles text.now list.items) }
    ensures fault { IfErr result (spec.IsSourceFault text.now) }
{
    match assemble_placed(alloc, text) {
        Ok(list) => Ok(list),
        Err(PlacedFault::Memory) => Err(FilterFault::Memory),
        Err(PlacedFault::At(kind, at)) => {
            let fault = PlacedFault::At(kind, at).on_line(text);
            Err(FilterFault::Source(fault, at))
        }
    }
}

/// The instructions that a text has.
#[tactic(auto, using(crate::proofs::FilterLemmas::filters))]
fn list_of<A: Allocator + Copy>(alloc: A, text: &mut [u8]) -> Result<Vec<Insn, A>, FilterFault>
    ensures ok { IfOk result (λ list. spec.Reads text.old list.items) }
    ensures fault { IfErr result (spec.IsNoFilter text.old) }
    ensures left { text.new ≡ spec.text_after text.old }
{
    if are_words(text) {
        put_commas(text);
        words_list(alloc, text)
    } else {
        source_list(alloc, text)
    }
}

/// The program that a filter's text is: words where its first byte that is no blank is a digit, else a source of the
/// assembler. Words are word text, or what `tcpdump -ddd` prints: in a text without a comma each newline stands for one,
/// and becomes one. The text of a source stays as it is.
///
/// # Errors
///
/// `Source`, `Words` or `Check` with why the text is no program; `Memory` where the allocator refused.
pub fn program_of<A: Allocator + Copy>(alloc: A, text: &mut [u8]) -> Result<Program<A>, FilterFault>
    ensures program { IfOk result (λ p. spec.IsFilter text.old p) }
    ensures refused { IfErr result (spec.IsNoFilter text.old) }
    ensures left { text.new ≡ spec.text_after text.old }
{
    let list = list_of(alloc, text)?;
    match Program::new(list) {
        Ok(program) => Ok(program),
        Err(fault) => Err(FilterFault::Check(fault)),
    }
}
