//! Word text against a plain reading of its rules, over every short text of five bytes.

use crate::assertions::Test;
use cbpf_code::{Insn, WordFault, read_words};
use std::process::Abort;

/// A longest run of digits with its number, or a byte that is neither digit nor blank, and its place.
#[derive(Clone, Copy)]
enum Mark {
    Number(usize, u64),
    Byte(usize, u8),
}

/// The number with one more digit.
fn with_digit(number: u64, digit: u8) -> u64 {
    let digit = u64::from(digit.saturating_sub(b'0'));
    number.saturating_mul(10).saturating_add(digit)
}

fn push(rt: &impl Abort, marks: &mut Vec<Mark>, mark: Mark) {
    marks.push(mark).expect(rt, "memory");
}

fn marks_of(rt: &impl Test, text: &[u8]) -> Vec<Mark> {
    let mut marks = Vec::new(rt.alloc());
    let mut number = None;
    for (place, byte) in text.iter().enumerate() {
        if byte.is_ascii_digit() {
            let (start, before) = number.unwrap_or((place, 0));
            number = Some((start, with_digit(before, *byte)));
            continue;
        }
        if let Some((start, n)) = number.take() {
            push(rt, &mut marks, Mark::Number(start, n));
        }
        if !matches!(byte, b' ' | b'\t' | b'\r' | b'\n') {
            push(rt, &mut marks, Mark::Byte(place, *byte));
        }
    }
    if let Some((start, n)) = number {
        push(rt, &mut marks, Mark::Number(start, n));
    }
    marks
}

/// The greatest number that may stand at a mark, and none where a comma is due: after the count and
/// after each fourth field.
fn greatest_at(mark: usize) -> Option<u64> {
    match mark % 5 {
        1 => None,
        2 => Some(65535),
        3 | 4 => Some(255),
        _ => Some(4294967295),
    }
}

fn fault_of(mark: Mark, greatest: Option<u64>) -> Option<WordFault> {
    match (mark, greatest) {
        (Mark::Number(place, _), None) => Some(WordFault::CommaExpected(place)),
        (Mark::Number(place, n), Some(most)) => (n > most).then_some(WordFault::OutOfRange(place)),
        (Mark::Byte(_, b','), None) => None,
        (Mark::Byte(place, b','), Some(_)) => Some(WordFault::NumberExpected(place)),
        (Mark::Byte(place, _), _) => Some(WordFault::UnexpectedByte(place)),
    }
}

fn first_fault(marks: &[Mark]) -> Option<WordFault> {
    for (i, mark) in marks.iter().enumerate() {
        let fault = fault_of(*mark, greatest_at(i));
        if fault.is_some() {
            return fault;
        }
    }
    None
}

fn number_at(marks: &[Mark], mark: usize) -> u64 {
    match marks.get(mark) {
        Some(Mark::Number(_, n)) => *n,
        _ => 0,
    }
}

/// What is wrong where each mark is what is due: marks are missing at the end, or the count differs.
fn fault_at_end(marks: &[Mark], length: usize) -> Option<WordFault> {
    let (count, left) = (marks.len() / 5, marks.len() % 5);
    if marks.len() == 1 {
        return Some(WordFault::CommaExpected(length));
    }
    if marks.is_empty() || (left != 1 && left != 2) {
        return Some(WordFault::NumberExpected(length));
    }
    let said = u32::try_from(number_at(marks, 0)).unwrap_or(0);
    (said as usize != count).then_some(WordFault::CountDiffers { said, found: count })
}

/// Whether an instruction is the four numbers from this mark on.
fn is_at(marks: &[Mark], first: usize, insn: Insn) -> bool {
    number_at(marks, first) == u64::from(insn.code)
        && number_at(marks, first.saturating_add(1)) == u64::from(insn.jt)
        && number_at(marks, first.saturating_add(2)) == u64::from(insn.jf)
        && number_at(marks, first.saturating_add(3)) == u64::from(insn.k)
}

/// Whether the instructions are the numbers after the count.
fn are_at(marks: &[Mark], list: &[Insn]) -> bool {
    for (i, insn) in list.iter().enumerate() {
        if !is_at(marks, i.saturating_mul(5).saturating_add(2), *insn) {
            return false;
        }
    }
    list.len() == marks.len() / 5
}

/// Whether `read_words` gives what the plain reading gives.
fn is_read(rt: &impl Test, text: &[u8]) -> bool {
    let marks = marks_of(rt, text);
    let fault = first_fault(&marks).or(fault_at_end(&marks, text.len()));
    match read_words(rt.alloc(), text) {
        Ok(list) => fault.is_none() && are_at(&marks, &list),
        Err(found) => fault == Some(found),
    }
}

static BYTES: [u8; 5] = *b"06, ;";

/// Lengths, and how many texts of that length there are over these bytes: 3906 together.
static LENGTHS: [(usize, u32); 6] = [(0, 1), (1, 5), (2, 25), (3, 125), (4, 625), (5, 3125)];

/// The text with this number, whose digits to the base five name its bytes.
fn text_with(number: u32) -> [u8; 5] {
    let mut text = [0; 5];
    let mut rest = number;
    for byte in text.iter_mut() {
        *byte = BYTES[(rest % 5) as usize];
        rest /= 5;
    }
    text
}

fn texts_of_length(rt: &impl Test, length: usize, count: u32) {
    for number in 0..count {
        let text = text_with(number);
        let holds = is_read(rt, &text[..length.min(5)]);
        assert!(rt; holds, "length {length}, text {number}");
    }
}

/// Every word text of at most five bytes over `0`, `6`, a comma, a blank and `;` is read as a plain reading of the
/// rules reads it.
#[test]
fn every_short_text(rt: HostRuntime) {
    for (length, count) in LENGTHS {
        texts_of_length(&rt, length, count);
    }
}
