//! The calls that write, and the forms of instructions.

use crate::assertions::{Test, assert_at};
use crate::lists::{Fields, list_of};
use cbpf_code::{
    Insn, WriteFault, read_words, write_bytes, write_c, write_decimal, write_hex, write_parts,
    write_words,
};

// The last write finds no room for its end.
#[test]
fn texts_and_numbers(rt: HostRuntime) {
    let mut room = [0u8; 83];
    let mut writer: &mut [u8] = &mut room;
    assert!(rt; write_bytes(&mut writer, b"ld ").is_ok());
    assert!(rt; write_bytes(&mut writer, b"").is_ok());
    assert!(rt; write_parts(&mut writer, &[b"#", b"", b"proto", b"\n\0\xff"]).is_ok());
    for n in [0, 10, u128::MAX] {
        assert!(rt; write_decimal(&mut writer, n).is_ok());
    }
    for (n, least) in [(0, 1), (255, 1), (255, 8), (60000, 2), (u32::MAX, 1)] {
        assert!(rt; write_hex(&mut writer, n, least).is_ok());
    }
    assert!(rt; write_bytes(&mut writer, b"\n").is_ok());
    assert!(rt; write_parts(&mut writer, &[b"jeq", b" #0x800"]) == Err(WriteFault));
    assert!(rt; writer.is_empty());
    let wanted = b"ld #proto\n\0\xff010340282366920938463463374607431768211455\
0ff000000ffea60ffffffff\njeq #";
    assert!(rt; room == *wanted);
}

/// The filter for ARP: `ldh [12]`, `jeq #0x806,drop`, `ret #-1`, `drop: ret #0`. Then the ends of the fields.
static LISTS: [(&[Fields], &[u8], &[u8]); 3] = [
    (
        &[
            (40, 0, 0, 12),
            (21, 0, 1, 2054),
            (6, 0, 0, 4294967295),
            (6, 0, 0, 0),
        ],
        b"4,40 0 0 12,21 0 1 2054,6 0 0 4294967295,6 0 0 0,\n",
        b"{ 0x28,  0,  0, 0x0000000c },\n{ 0x15,  0,  1, 0x00000806 },\n\
{ 0x06,  0,  0, 0xffffffff },\n{ 0x06,  0,  0, 0000000000 },\n",
    ),
    (&[], b"0,\n", b""),
    (
        &[
            (60000, 65, 7, 9),
            (0, 0, 0, 0),
            (6, 0, 255, 1),
            (65535, 255, 255, 4294967295),
        ],
        b"4,60000 65 7 9,0 0 0 0,6 0 255 1,65535 255 255 4294967295,\n",
        b"{ 0xea60, 65,  7, 0x00000009 },\n{ 0000,  0,  0, 0000000000 },\n\
{ 0x06,  0, 255, 0x00000001 },\n{ 0xffff, 255, 255, 0xffffffff },\n",
    ),
];

/// Whether a list is written as these words and in this C form, and the words are read as the list.
fn has_forms(rt: &impl Test, list: &[Insn], words: &[u8], c: &[u8]) -> bool {
    let (mut text, mut c_text) = (Vec::new(rt.alloc()), Vec::new(rt.alloc()));
    assert!(rt; write_words(&mut text, list).is_ok() && write_c(&mut c_text, list).is_ok());
    let back = read_words(rt.alloc(), &text).expect(rt, "a list");
    text.as_slice() == words && c_text.as_slice() == c && back.as_slice() == list
}

/// The instruction 60000 65 7 9 is `{ 0xea60, 65,  7, 0x00000009 },` in C.
#[test]
fn forms_of_instructions(rt: HostRuntime) {
    for (row, (fields, words, c)) in LISTS.iter().enumerate() {
        assert_at(&rt, row, has_forms(&rt, &list_of(&rt, fields), words, c));
    }
}
