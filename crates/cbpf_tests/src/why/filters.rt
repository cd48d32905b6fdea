//! Programs by the texts of filters.

use crate::assertions::{Test, assert_at};
use cbpf_code::{CheckFault, WordFault};
use cbpf_text::{AsmFault, AsmKind};
use cbpf_why::FilterFault;
use memory_tests::inputs::{ARP, ARP_WORDS};
use session_tests::inputs::program_of;

/// Texts of the ARP filter: a source, word text, and what `tcpdump -ddd` prints.
static ARP_TEXTS: [&[u8]; 12] = [
    ARP,
    b" \t\r\n; a comment with 1,\nldh [12]\njne #0x806, l3\nret #-1\nl3: ret #0",
    b"l0:\tldh [12]\nl1:\tjeq #0x806, l2, l3\nl2:\tret #0xffffffff\nl3:\tret #0\n",
    ARP_WORDS,
    b"4,40 0 0 12,21 0 1 2054,6 0 0 4294967295,6 0 0 0",
    b" \t\r\n4,40 0 0 12,21 0 1 2054,6 0 0 4294967295,6 0 0 0,\r\n",
    b"4,\n40 0 0 12,\n21 0 1 2054,\n6 0 0 4294967295,\n6 0 0 0\n",
    b"4\n40 0 0 12\n21 0 1 2054\n6 0 0 4294967295\n6 0 0 0\n",
    b"4\n40 0 0 12\n21 0 1 2054\n6 0 0 4294967295\n6 0 0 0",
    b"4\r\n40 0 0 12\r\n21 0 1 2054\r\n6 0 0 4294967295\r\n6 0 0 0\r\n",
    b" \t4\n40\t0 0 12\n21 0 1 2054\n 6 0 0 4294967295\n6 0 0 0 \n",
    b"\r04\n040 0 0 12\n21 0 1 2054\n6 0 0 4294967295\n6 0 0 0\n",
];

fn filter_of(rt: &impl Test, text: &[u8]) -> Result<cbpf_code::Program, FilterFault> {
    let mut text = Vec::from_slice(rt.alloc(), text).expect(rt, "memory");
    cbpf_why::program_of(rt.alloc(), text.as_mut_slice())
}

#[test]
fn texts_of_a_filter(rt: HostRuntime) {
    let program = program_of(rt.alloc(), ARP_WORDS).expect(&rt, "a program");
    for (row, text) in ARP_TEXTS.iter().enumerate() {
        let is_same =
            matches!(filter_of(&rt, text), Ok(other) if other.as_slice() == program.as_slice());
        assert_at(&rt, row, is_same);
    }
}

/// Texts of no program, why they are none, and what is printed of it.
static REFUSED: [(&[u8], FilterFault, &str); 19] = [
    (
        b"",
        FilterFault::Source(AsmFault::At(AsmKind::NoInstruction, 1), 0),
        "line 1: A11 no instruction",
    ),
    (
        b" \n",
        FilterFault::Source(AsmFault::At(AsmKind::NoInstruction, 1), 0),
        "line 1: A11 no instruction",
    ),
    (
        b"ret #0\nret $",
        FilterFault::Source(AsmFault::At(AsmKind::NoToken, 2), 11),
        "line 2: A1 unknown byte",
    ),
    // No word text begins so, nor does a source.
    (
        b"-1",
        FilterFault::Source(AsmFault::At(AsmKind::Misplaced, 1), 0),
        "line 1: A4 token can't stand here",
    ),
    (
        b",1,6 0 0 1",
        FilterFault::Source(AsmFault::At(AsmKind::Misplaced, 1), 0),
        "line 1: A4 token can't stand here",
    ),
    (
        b"1",
        FilterFault::Words(WordFault::CommaExpected(1)),
        "N5 at byte 1: comma expected",
    ),
    (
        b"1,6 0 0 x",
        FilterFault::Words(WordFault::UnexpectedByte(8)),
        "N3 at byte 8: unexpected byte",
    ),
    (
        b"1\n6 0 0 4294967296\n",
        FilterFault::Words(WordFault::OutOfRange(8)),
        "N2 at byte 8: number out of range",
    ),
    (
        b"1\n6 0 0 1\n7",
        FilterFault::Words(WordFault::NumberExpected(11)),
        "N1 at byte 11: number expected",
    ),
    (
        b"1,6 0 0 1 7",
        FilterFault::Words(WordFault::CommaExpected(10)),
        "N5 at byte 10: comma expected",
    ),
    (
        b"1\n6 0 0 1\n;",
        FilterFault::Words(WordFault::UnexpectedByte(10)),
        "N3 at byte 10: unexpected byte",
    ),
    (
        b"2\n6 0 0 1\n",
        FilterFault::Words(WordFault::CountDiffers { said: 2, found: 1 }),
        "N4 count says 2, found 1",
    ),
    // With a comma a newline is a blank, and else it stands for a comma wherever it is.
    (
        b"1,6 0 0 1\n6 0 0 1\n",
        FilterFault::Words(WordFault::CommaExpected(10)),
        "N5 at byte 10: comma expected",
    ),
    (
        b"\n1\n6 0 0 1\n",
        FilterFault::Words(WordFault::NumberExpected(0)),
        "N1 at byte 0: number expected",
    ),
    (
        b"1\n\n6 0 0 1\n",
        FilterFault::Words(WordFault::NumberExpected(2)),
        "N1 at byte 2: number expected",
    ),
    (
        b"ld #1",
        FilterFault::Check(CheckFault::NoReturn),
        "C9 last instruction is no return",
    ),
    (
        b"0,",
        FilterFault::Check(CheckFault::NoInstruction),
        "C1 no instruction",
    ),
    (
        b"2\n99 0 0 0\n6 0 0 0\n",
        FilterFault::Check(CheckFault::UnknownCode(0)),
        "C3 at 0: unknown code",
    ),
    (
        b"div #0\nret a",
        FilterFault::Check(CheckFault::ZeroDivisor(0)),
        "C5 at 0: division by zero",
    ),
];

fn prints(rt: &impl Test, fault: FilterFault, wanted: &str) -> bool {
    let text = format!(in rt.alloc(); "{fault}").expect(rt, "memory");
    text.as_str() == wanted
}

#[test]
fn texts_of_no_filter(rt: HostRuntime) {
    for (row, (text, wanted, printed)) in REFUSED.iter().enumerate() {
        let is_fault = matches!(filter_of(&rt, text), Err(fault) if fault == *wanted);
        assert_at(&rt, row, is_fault && prints(&rt, *wanted, printed));
    }
    assert!(rt; prints(&rt, FilterFault::Memory, "out of memory"));
}
