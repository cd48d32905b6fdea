//! Sources with their instructions, and refused sources with their lines.

use crate::assertions::{Test, assert_at};
use AsmKind::{
    LabelNotSet, LabelSetTwice, LargeNumber, Misplaced, NoInstruction, NoToken, NotAfter,
    OpenComment, TooFar, TooMany, Unfinished,
};
use cbpf_code::{Insn, read_words};
use cbpf_text::{AsmFault, AsmKind, assemble};
use std::alloc::Global;

/// Sources with the words of their instructions, or with their refusal and its line.
static SOURCES: [(&[u8], Result<&[u8], (AsmKind, u64)>); 36] = [
    (
        b"ldh [12]\njne #0x806, drop\nret #-1\ndrop: ret #0\n",
        Ok(b"4,40 0 0 12,21 0 1 2054,6 0 0 4294967295,6 0 0 0"),
    ),
    (
        b"ld #5\njlt #10, lo\nret #0\nlo: ret #1\n",
        Ok(b"4,0 0 0 5,53 0 1 10,6 0 0 0,6 0 0 1"),
    ),
    (
        b"ld rand\nmod #4\nret a\n",
        Ok(b"3,32 0 0 4294963256,148 0 0 4,22 0 0 0"),
    ),
    (
        b"ldb #type\nldx len\nret %a\n",
        Ok(b"3,48 0 0 4294963204,129 0 0 0,22 0 0 0"),
    ),
    (
        b"/* both\n   ways */ ldx 4*([14] & 0xf)   ; header\nldh [x + 16]\n  # port\njgt %x, up, down\nup: down: ret #0b11\n",
        Ok(b"4,177 0 0 14,72 0 0 16,45 0 0 0,6 0 0 3"),
    ),
    (b"ld [x + -1]", Ok(b"1,64 0 0 4294967295")),
    (b"ldx 0x4*([0]&017)", Ok(b"1,177 0 0 0")),
    (b"ldi 7", Ok(b"1,0 0 0 7")),
    (
        b"jle x, l\ntax\nl: ret a",
        Ok(b"3,45 0 1 0,7 0 0 0,22 0 0 0"),
    ),
    (
        b"ret #-0\nret #-2147483648",
        Ok(b"2,6 0 0 0,6 0 0 2147483648"),
    ),
    (
        b"unused: jeq #1, l, l\njmp l\nl: div #0",
        Ok(b"3,21 1 1 1,5 0 0 0,52 0 0 0"),
    ),
    (
        b"l0:\tldh [12]\nl1:\tjeq #0x800, l2, l5\nl2:\tldb [23]\nl3:\tjeq #0x1, l4, l5\nl4:\tret #0xffff\nl5:\tret #0\n",
        Ok(b"6,40 0 0 12,21 0 3 2048,48 0 0 23,21 0 1 1,6 0 0 65535,6 0 0 0"),
    ),
    (b"", Err((NoInstruction, 1))),
    (b"\n\n ; none\n", Err((NoInstruction, 1))),
    (b"top:", Err((Unfinished, 1))),
    (b"a: ret #0", Err((Misplaced, 1))),
    (b"ld #4294967296", Err((LargeNumber, 1))),
    (b"ld #-2147483649", Err((LargeNumber, 1))),
    (b"top: ld #1\njmp top\nret a", Err((NotAfter, 2))),
    (b"jeq #1, no\nret #0", Err((LabelNotSet, 1))),
    (b"ret ret\nret $", Err((NoToken, 2))),
    (b"ret #0 /* x", Err((OpenComment, 1))),
    (b"ld #08", Err((NoToken, 1))),
    (b"b: ret #0\nb: ret #0\n", Err((LabelSetTwice, 2))),
    (b"ldx type", Err((Misplaced, 1))),
    (b"ret #0x", Err((NoToken, 1))),
    (b"l: jmp l", Err((NotAfter, 1))),
    (b"jmp no\nb: tax\nb: tax", Err((LabelSetTwice, 3))),
    (b"l: jeq #1,\nl,\nno", Err((NotAfter, 2))),
    (b"tax\nret #-2147483649\nret ret", Err((LargeNumber, 2))),
    (b"tax\njeq #1, l\n\n", Err((LabelNotSet, 2))),
    (b"tax\njeq #1,\n\n", Err((Unfinished, 2))),
    // A label that is set twice on one item, and one that is nowhere used.
    (b"in: in: ret #0", Err((LabelSetTwice, 1))),
    (b"in:\nb: ld #1\n\nin:\nret #0", Err((LabelSetTwice, 4))),
    // Labels come before targets, whatever their order in the text.
    (b"jmp no\nin: ret #0\nin: ret #0", Err((LabelSetTwice, 3))),
    // A target on a later line than its jump.
    (b"jeq #1, yes,\n no\nyes: ret #0", Err((LabelNotSet, 2))),
];

type Fields = (u16, u8, u8, u32);

fn insn_of((code, jt, jf, k): Fields) -> Insn {
    Insn { code, jt, jf, k }
}

fn is_refused(alloc: Global, source: &[u8], (kind, line): (AsmKind, u64)) -> bool {
    assemble(alloc, source).err() == Some(AsmFault::At(kind, line))
}

fn is_assembled_to(alloc: Global, source: &[u8], words: &[u8]) -> bool {
    match (assemble(alloc, source), read_words(alloc, words)) {
        (Ok(list), Ok(wanted)) => list.as_slice() == wanted.as_slice(),
        _ => false,
    }
}

fn is_answered(alloc: Global, source: &[u8], wanted: &Result<&[u8], (AsmKind, u64)>) -> bool {
    match wanted {
        Ok(words) => is_assembled_to(alloc, source, words),
        Err(at) => is_refused(alloc, source, *at),
    }
}

#[test]
fn worked_sources(rt: HostRuntime) {
    for (row, (source, wanted)) in SOURCES.iter().enumerate() {
        assert_at(&rt, row, is_answered(rt.alloc(), source, wanted));
    }
}

/// A source of `tax` many times between a first and a last part, and one instruction by its index, or the refusal.
type Long = (
    &'static [u8],
    u32,
    &'static [u8],
    Result<(usize, Fields), (AsmKind, u64)>,
);

const FAR: &[u8] = b"far: ret #0";

const NEAR_AND_FAR: &[u8] = b"ld #1\njeq #1, near,\n far\nnear: ld #2\n";

static LONG: [Long; 12] = [
    (b"jeq #0, far\n", 255, FAR, Ok((0, (21, 255, 0, 0)))),
    (b"jeq #0, far\n", 256, FAR, Err((TooFar, 1))),
    (b"ja far\n", 4094, FAR, Ok((0, (5, 0, 0, 4094)))),
    (b"ja far\n", 4095, FAR, Err((TooMany, 4097))),
    // Either target can be too far, also one on a later line, and the one where `jne` does not hold.
    (NEAR_AND_FAR, 254, FAR, Ok((1, (21, 0, 255, 1)))),
    (NEAR_AND_FAR, 255, FAR, Err((TooFar, 3))),
    (
        b"jeq #1, far,\n near\nnear: ld #2\n",
        255,
        FAR,
        Err((TooFar, 1)),
    ),
    (b"ld #1\njne #1,\n far\nld #2\n", 255, FAR, Err((TooFar, 3))),
    (b"", 4096, b"", Ok((4095, (7, 0, 0, 0)))),
    (b"", 4097, b"", Err((TooMany, 4097))),
    // The line is that of the mnemonic; its label stands three lines above.
    (
        b"",
        4096,
        b"last:\n; a\n\ntax\nret #0\n",
        Err((TooMany, 4100)),
    ),
    // It comes before labels that are set twice and targets that are not set.
    (b"in: jmp no\nin: tax\n", 4095, b"", Err((TooMany, 4097))),
];

fn with_many(rt: &impl Test, first: &[u8], between: u32, last: &[u8]) -> Vec<u8> {
    let mut source = first.to_vec(rt.alloc()).expect(rt, "memory");
    for _ in 0..between {
        source.extend_from_slice(b"tax\n").expect(rt, "memory");
    }
    source.extend_from_slice(last).expect(rt, "memory");
    source
}

fn has_at(alloc: Global, source: &[u8], i: usize, wanted: Fields) -> bool {
    match assemble(alloc, source) {
        Ok(list) => list.get(i) == Some(&insn_of(wanted)),
        Err(_) => false,
    }
}

fn is_long_answered(
    alloc: Global,
    source: &[u8],
    wanted: &Result<(usize, Fields), (AsmKind, u64)>,
) -> bool {
    match wanted {
        Ok((i, fields)) => has_at(alloc, source, *i, *fields),
        Err(at) => is_refused(alloc, source, *at),
    }
}

/// A conditional jump over 255 instructions has the offset 255.
/// A conditional jump over 256 instructions is A9 on its line.
/// The 4097th instruction is A10 on its line.
#[test]
fn far_jumps_and_many_instructions(rt: HostRuntime) {
    for (row, (first, between, last, wanted)) in LONG.iter().enumerate() {
        let source = with_many(&rt, first, *between, last);
        assert_at(&rt, row, is_long_answered(rt.alloc(), &source, wanted));
    }
}

fn assert_text(rt: &impl Test, fault: AsmFault, wanted: &str) {
    let text = format!(in rt.alloc(); "{fault}").expect(rt, "memory");
    assert!(rt; text.as_str() == wanted);
}

// The texts of the other faults are printed by end-to-end cases.
#[test]
fn texts_of_faults_that_no_source_has(rt: HostRuntime) {
    assert_text(&rt, AsmFault::Memory, "out of memory");
    let misplaced = AsmFault::At(Misplaced, 18446744073709551615);
    let wanted = "line 18446744073709551615: A4 token can't stand here";
    assert_text(&rt, misplaced, wanted);
}
