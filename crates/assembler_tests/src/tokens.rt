//! What the tokens of texts are, by hand.

use crate::assertions::{Test, assert_at};
use BadPiece::{LargeNumber, NoToken, OpenComment};
use cbpf_syntax::{BadPiece, Kind, LexFault, Token, tokens};
use std::alloc::Global;

const WORD: Kind = Kind::Word;

const HASH: Kind = Kind::Mark(b'#');

const STAR: Kind = Kind::Mark(b'*');

/// Texts, and the kinds of their tokens.
static KINDS: [(&[u8], &[Kind]); 21] = [
    (b"", &[]),
    (b" \t\r\n /* \x00\xff */ ; \x0b", &[]),
    (b"_a9 Z", &[WORD, WORD]),
    (
        b"[](*&+-,:#%)",
        &[
            Kind::Mark(b'['),
            Kind::Mark(b']'),
            Kind::Mark(b'('),
            STAR,
            Kind::Mark(b'&'),
            Kind::Mark(b'+'),
            Kind::Mark(b'-'),
            Kind::Mark(b','),
            Kind::Mark(b':'),
            HASH,
            Kind::Mark(b'%'),
            Kind::Mark(b')'),
        ],
    ),
    // A line comment, and operands that begin with a `#`.
    (b"#", &[]),
    (b";", &[]),
    (b"  # port\nret", &[WORD]),
    (b"\r# x", &[]),
    (b"ld\n#5", &[WORD]),
    (b"l: #5", &[WORD, Kind::Mark(b':'), HASH, Kind::Number(5)]),
    (b" a#0b11", &[WORD, HASH, Kind::Number(3)]),
    (b"/* a */ # b\n", &[HASH, WORD]),
    (b"/* a\n */ # b\n", &[HASH, WORD]),
    (b"/* a\n# b */ c", &[WORD]),
    (b"; /* x\ny", &[WORD]),
    (b"# /* x ; #\ny", &[WORD]),
    (b"/* ; # \n*/ y", &[WORD]),
    // Block comments end at the next `*/`, and are not nested.
    (b"/**/x", &[WORD]),
    (b"/* a **/ x", &[WORD]),
    (b"/* /* */ x", &[WORD]),
    (b"/*/ */ x", &[WORD]),
];

/// Spellings of numbers.
static NUMBERS: [(&[u8], u32); 14] = [
    (b"0", 0),
    (b"00", 0),
    (b"017", 15),
    (b"0000017", 15),
    (b"7", 7),
    (b"4294967295", 4294967295),
    (b"0x0", 0),
    (b"0xfFfFfFfF", 4294967295),
    (b"0x0000000000000000000000000000000000000001", 1),
    (b"0x8", 8),
    (b"0b0", 0),
    (b"0b11", 3),
    (b"037777777777", 4294967295),
    (b"0b11111111111111111111111111111111", 4294967295),
];

/// Texts with a piece that is no token, and its position.
static FAULTS: [(&[u8], BadPiece, usize); 30] = [
    (b"ret ret\nret $", NoToken, 12),
    (b"ret #0 /* x", OpenComment, 7),
    (b"ret #0\n\n/*/ x", OpenComment, 8),
    (b"/*", OpenComment, 0),
    (b"/* *", OpenComment, 0),
    (b"a\n/* b\nc", OpenComment, 2),
    (b"ld #08", NoToken, 4),
    (b"ret #0x", NoToken, 5),
    (b"0b", NoToken, 0),
    (b"0b2", NoToken, 0),
    (b"0X10", NoToken, 0),
    (b"0B1", NoToken, 0),
    (b"1_0", NoToken, 0),
    (b"12ab", NoToken, 0),
    (b"0xg", NoToken, 0),
    (b"99999999999999999999a", NoToken, 0),
    (b"ld #4294967296", LargeNumber, 4),
    (b"0x100000000", LargeNumber, 0),
    (b"0b100000000000000000000000000000000", LargeNumber, 0),
    (b"040000000000", LargeNumber, 0),
    (b"99999999999999999999999999999999", LargeNumber, 0),
    (b"ld #-4294967296", LargeNumber, 5),
    (b"a / b", NoToken, 2),
    (b"*/", NoToken, 1),
    (b"/", NoToken, 0),
    (b"a\n\x0bb", NoToken, 2),
    (b"a\n\n\x0cb", NoToken, 3),
    (b"\x00", NoToken, 0),
    (b"/* \n\n */ \xff", NoToken, 9),
    (b"a\r\r$\n", NoToken, 3),
];

fn are_kinds(found: &[Token], wanted: &[Kind]) -> bool {
    for (token, kind) in found.iter().zip(wanted) {
        if token.kind != *kind {
            return false;
        }
    }
    found.len() == wanted.len()
}

/// Whether tokens are of these kinds, between these starts and ends.
fn are_placed(found: &[Token], wanted: &[(Kind, usize, usize)]) -> bool {
    for (token, row) in found.iter().zip(wanted) {
        if (token.kind, token.start, token.end) != *row {
            return false;
        }
    }
    found.len() == wanted.len()
}

fn tokens_of(rt: &impl Test, text: &[u8]) -> Vec<Token> {
    tokens(rt.alloc(), text).expect(rt, "tokens")
}

/// Whether the whole text is this number.
fn is_number(rt: &impl Test, text: &[u8], value: u32) -> bool {
    let found = tokens_of(rt, text);
    are_placed(&found, &[(Kind::Number(value), 0, text.len())])
}

fn is_bad(alloc: Global, text: &[u8], bad: BadPiece, at: usize) -> bool {
    tokens(alloc, text).err() == Some(LexFault::At(bad, at))
}

#[test]
fn each_kind(rt: HostRuntime) {
    for (row, (text, wanted)) in KINDS.iter().enumerate() {
        assert_at(&rt, row, are_kinds(&tokens_of(&rt, text), wanted));
    }
}

#[test]
fn each_number(rt: HostRuntime) {
    for (row, (text, value)) in NUMBERS.iter().enumerate() {
        assert_at(&rt, row, is_number(&rt, text, *value));
    }
}

#[test]
fn each_fault(rt: HostRuntime) {
    for (row, (text, bad, at)) in FAULTS.iter().enumerate() {
        assert_at(&rt, row, is_bad(rt.alloc(), text, *bad, *at));
    }
}

/// The tokens of `ld #0x5` are a word from 0 to 2, the mark `#` from 3 to 4, and the number 5 from 4 to 7.
#[test]
fn each_place(rt: HostRuntime) {
    let placed = [(WORD, 0, 2), (HASH, 3, 4), (Kind::Number(5), 4, 7)];
    assert!(rt; are_placed(&tokens_of(&rt, b"ld #0x5"), &placed));
}

/// A piece many times, between a first and a last one, and the number of tokens. A lexer that goes back over
/// the line at each `#` doesn't end in time.
static LONG: [(&[u8], &[u8], u32, &[u8], usize); 7] = [
    (b"/*", b"*", 1_000_000, b"/ a", 1),
    (b";", b";", 1_000_000, b"\na", 1),
    (b"#", b"\n", 1_000_000, b"a", 1),
    (b"0", b"0", 1_000_000, b" a", 2),
    (b"a", b"a", 1_000_000, b"", 1),
    (b"", b" ", 1_000_000, b"a", 1),
    (b"", b"ret #0 ", 200_000, b"", 600_000),
];

/// `piece` many times after `first`.
fn repeated(rt: &impl Test, first: &[u8], piece: &[u8], times: u32) -> Vec<u8> {
    let mut text = first.to_vec(rt.alloc()).expect(rt, "memory");
    for _ in 0..times {
        text.extend_from_slice(piece).expect(rt, "memory");
    }
    text
}

#[test]
fn long_texts_take_no_long_time(rt: HostRuntime) {
    for (row, (first, piece, times, last, count)) in LONG.iter().enumerate() {
        let mut text = repeated(&rt, first, piece, *times);
        text.extend_from_slice(last).expect(&rt, "memory");
        assert_at(&rt, row, tokens_of(&rt, &text).len() == *count);
    }
}
