//! Word texts with their instructions or their errors N.

use crate::assertions::{Test, assert_at};
use crate::lists::{Fields, list_of};
use WordFault::{CommaExpected, CountDiffers, NumberExpected, OutOfRange, UnexpectedByte};
use cbpf_code::{WordFault, read_words};

/// Word texts with their instructions, or their fault.
static TEXTS: [(&[u8], Result<&[Fields], WordFault>); 31] = [
    (b" 01 , 0006 0 0 07 ", Ok(&[(6, 0, 0, 7)])),
    (b"0,", Ok(&[])),
    (b"000,", Ok(&[])),
    (b" \t0 \r\n,", Ok(&[])),
    (
        b"1,6 0 0 00000000000000000000000000000000004294967295",
        Ok(&[(6, 0, 0, 4294967295)]),
    ),
    (b"2,6 0 0 0,6 0 0 0,\r\n", Ok(&[(6, 0, 0, 0), (6, 0, 0, 0)])),
    (
        b"3,1 2 3 4,65535 255 255 4294967295,5 6 7 8",
        Ok(&[(1, 2, 3, 4), (65535, 255, 255, 4294967295), (5, 6, 7, 8)]),
    ),
    (b"", Err(NumberExpected(0))),
    (b"  ", Err(NumberExpected(2))),
    (b",", Err(NumberExpected(0))),
    (b"1,6 0 0", Err(NumberExpected(7))),
    (b"1,6 0 0 ", Err(NumberExpected(8))),
    (b"1,,", Err(NumberExpected(2))),
    (b"2,6 0 0 0,6 0 0 0,,", Err(NumberExpected(18))),
    (b"1,6 0,0 0", Err(NumberExpected(5))),
    (b"1,300000 0 0 0", Err(OutOfRange(2))),
    (b"1,0300000 0 0 0", Err(OutOfRange(2))),
    (b"1,6 256 0 0", Err(OutOfRange(4))),
    (b"1,6 0 256 0", Err(OutOfRange(6))),
    (b"1,6 0 0 4294967296", Err(OutOfRange(8))),
    (b"4294967296,6 0 0 0", Err(OutOfRange(0))),
    (b"1;", Err(UnexpectedByte(1))),
    (b"-1", Err(UnexpectedByte(0))),
    (b"1,6x 0 0 0", Err(UnexpectedByte(3))),
    (b"2,6 0 0 0", Err(CountDiffers { said: 2, found: 1 })),
    (b"1,", Err(CountDiffers { said: 1, found: 0 })),
    (b"0,6 0 0 0,", Err(CountDiffers { said: 0, found: 1 })),
    (b"1 6 0 0 0", Err(CommaExpected(2))),
    (b"1,6 0 0 0 9", Err(CommaExpected(10))),
    (b"4", Err(CommaExpected(1))),
    (b" 4 ", Err(CommaExpected(3))),
];

/// Whether a text is read as these instructions, or refused so.
fn is_answered(rt: &impl Test, text: &[u8], wanted: &Result<&[Fields], WordFault>) -> bool {
    match (read_words(rt.alloc(), text), wanted) {
        (Ok(list), Ok(fields)) => list.as_slice() == list_of(rt, fields).as_slice(),
        (Err(found), Err(fault)) => found == *fault,
        _ => false,
    }
}

#[test]
fn worked_texts(rt: HostRuntime) {
    for (row, (text, wanted)) in TEXTS.iter().enumerate() {
        assert_at(&rt, row, is_answered(&rt, text, wanted));
    }
}
