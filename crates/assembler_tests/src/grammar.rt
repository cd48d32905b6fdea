//! What sources stand for, by hand.

use crate::assertions::{Test, assert_at, assert_of};
use cbpf_code::code_of;
use cbpf_syntax::{Fields, Reader, Row, Step, SyntaxFault};
use std::alloc::Global;

/// A source of one item, with its code.
type Item = (&'static [u8], u16, Fields);

/// Each mnemonic with each of its modes: loads and stores.
static LOADS: [Item; 23] = [
    (b"ld [12]", 32, Fields::Constant),
    (b"ld [x + 12]", 64, Fields::Constant),
    (b"ld rand", 32, Fields::Constant),
    (b"ld M[1]", 96, Fields::Constant),
    (b"ld #5", 0, Fields::Constant),
    (b"ld len", 128, Fields::Constant),
    (b"ldh [12]", 40, Fields::Constant),
    (b"ldh [x + 16]", 72, Fields::Constant),
    (b"ldh proto", 40, Fields::Constant),
    (b"ldb [12]", 48, Fields::Constant),
    (b"ldb [x+1]", 80, Fields::Constant),
    (b"ldb #type", 48, Fields::Constant),
    (b"ldi #7", 0, Fields::Constant),
    (b"ldi 7", 0, Fields::Constant),
    (b"ldx M[15]", 97, Fields::Constant),
    (b"ldx #1", 1, Fields::Constant),
    (b"ldx 4*([14]&0xf)", 177, Fields::Constant),
    (b"ldx len", 129, Fields::Constant),
    (b"ldxi #1", 1, Fields::Constant),
    (b"ldxi 1", 1, Fields::Constant),
    (b"ldxb 4*([14]&0xf)", 177, Fields::Constant),
    (b"st M[0]", 2, Fields::Constant),
    (b"stx M[0]", 3, Fields::Constant),
];

/// The jumps.
static JUMPS: [Item; 26] = [
    (b"jmp l", 5, Fields::Goto),
    (b"ja l", 5, Fields::Goto),
    (b"jeq #1, t", 21, Fields::Branch),
    (b"jeq x, t", 29, Fields::Branch),
    (b"jeq #1, t, f", 21, Fields::Branch),
    (b"jeq x, t, f", 29, Fields::Branch),
    (b"jgt #1, t", 37, Fields::Branch),
    (b"jgt x, t", 45, Fields::Branch),
    (b"jgt #1, t, f", 37, Fields::Branch),
    (b"jgt x, t, f", 45, Fields::Branch),
    (b"jge #1, t", 53, Fields::Branch),
    (b"jge x, t", 61, Fields::Branch),
    (b"jge #1, t, f", 53, Fields::Branch),
    (b"jge x, t, f", 61, Fields::Branch),
    (b"jset #1, t", 69, Fields::Branch),
    (b"jset x, t", 77, Fields::Branch),
    (b"jset #1, t, f", 69, Fields::Branch),
    (b"jset x, t, f", 77, Fields::Branch),
    (b"jneq #1, f", 21, Fields::Swapped),
    (b"jneq x, f", 29, Fields::Swapped),
    (b"jne #1, f", 21, Fields::Swapped),
    (b"jne x, f", 29, Fields::Swapped),
    (b"jlt #1, f", 53, Fields::Swapped),
    (b"jlt x, f", 61, Fields::Swapped),
    (b"jle #1, f", 37, Fields::Swapped),
    (b"jle x, f", 45, Fields::Swapped),
];

/// The others.
static OTHERS: [Item; 25] = [
    (b"add #1", 4, Fields::Constant),
    (b"add x", 12, Fields::Constant),
    (b"sub #1", 20, Fields::Constant),
    (b"sub x", 28, Fields::Constant),
    (b"mul #1", 36, Fields::Constant),
    (b"mul x", 44, Fields::Constant),
    (b"div #1", 52, Fields::Constant),
    (b"div x", 60, Fields::Constant),
    (b"mod #1", 148, Fields::Constant),
    (b"mod x", 156, Fields::Constant),
    (b"and #1", 84, Fields::Constant),
    (b"and x", 92, Fields::Constant),
    (b"or #1", 68, Fields::Constant),
    (b"or x", 76, Fields::Constant),
    (b"xor #1", 164, Fields::Constant),
    (b"xor x", 172, Fields::Constant),
    (b"lsh #1", 100, Fields::Constant),
    (b"lsh x", 108, Fields::Constant),
    (b"rsh #1", 116, Fields::Constant),
    (b"rsh x", 124, Fields::Constant),
    (b"neg", 132, Fields::Constant),
    (b"tax", 7, Fields::Constant),
    (b"txa", 135, Fields::Constant),
    (b"ret #1", 6, Fields::Constant),
    (b"ret a", 22, Fields::Constant),
];

/// Options of the forms, and all spellings of each mode once.
static OPTIONS: [Item; 37] = [
    (b"ld [+12]", 32, Fields::Constant),
    (b"ld [-12]", 32, Fields::Constant),
    (b"ld [x + -1]", 64, Fields::Constant),
    (b"ld [x + + 1]", 64, Fields::Constant),
    (b"ld [%x+1]", 64, Fields::Constant),
    (b"ld [%x++1]", 64, Fields::Constant),
    (b"ld [%x+-1]", 64, Fields::Constant),
    (b"ld #rand", 32, Fields::Constant),
    (b"ld M[+1]", 96, Fields::Constant),
    (b"ld M[-1]", 96, Fields::Constant),
    (b"ld #+5", 0, Fields::Constant),
    (b"ld #-5", 0, Fields::Constant),
    (b"ld #- /* c */ 5", 0, Fields::Constant),
    (b"ld #len", 128, Fields::Constant),
    (b"ldi +7", 0, Fields::Constant),
    (b"ldi -7", 0, Fields::Constant),
    (b"ldx 0x4*([0]&017)", 177, Fields::Constant),
    (b"ldx 04*([+0]&0b1111)", 177, Fields::Constant),
    (b"ldxb 4*([-0]&15)", 177, Fields::Constant),
    (b"jeq %x, t", 29, Fields::Branch),
    (b"jeq %x, t, f", 29, Fields::Branch),
    (b"jeq #-1, t", 21, Fields::Branch),
    (b"jeq #+1, t, f", 21, Fields::Branch),
    (b"jeq #-1, t, f", 21, Fields::Branch),
    (b"add %x", 12, Fields::Constant),
    (b"ret %a", 22, Fields::Constant),
    // The ends of the range of a literal.
    (b"ld #+4294967295", 0, Fields::Constant),
    (b"ld #-2147483648", 0, Fields::Constant),
    (b"ld #-0", 0, Fields::Constant),
    // Words that only look reserved; case counts.
    (b"X: A: LD: m: Len: tax", 7, Fields::Constant),
    (b"vlan_pr: q: tax", 7, Fields::Constant),
    (b"jmp X", 5, Fields::Goto),
    (b"jeq #1, l, l", 21, Fields::Branch),
    (b"up: down: ret #0b11", 6, Fields::Constant),
    (b"ld M[99]", 96, Fields::Constant),
    (b"div #0", 52, Fields::Constant),
    (b"ld\n[\n1\n]", 32, Fields::Constant),
];

/// Refused sources.
static FAULTS: [(&[u8], SyntaxFault); 46] = [
    (b"top:", SyntaxFault::Unfinished(3)),
    (b"top", SyntaxFault::Unfinished(0)),
    (b"ld", SyntaxFault::Unfinished(0)),
    (b"ld [", SyntaxFault::Unfinished(3)),
    (b"ld #", SyntaxFault::Unfinished(3)),
    (b"ld #-", SyntaxFault::Unfinished(4)),
    (b"ld [x +", SyntaxFault::Unfinished(6)),
    (b"ldx 4*([14]&15", SyntaxFault::Unfinished(12)),
    (b"jeq #1", SyntaxFault::Unfinished(5)),
    (b"jeq #1,", SyntaxFault::Unfinished(6)),
    (b"jeq #1, l,", SyntaxFault::Unfinished(9)),
    (b"tax top:", SyntaxFault::Unfinished(7)),
    (b"ret #0 ld\n#5", SyntaxFault::Unfinished(7)),
    (b"a: ret #0", SyntaxFault::Misplaced(0)),
    (b"ret ret", SyntaxFault::Misplaced(4)),
    (b"ldx type", SyntaxFault::Misplaced(4)),
    (b"ldh len", SyntaxFault::Misplaced(4)),
    (b"ret x", SyntaxFault::Misplaced(4)),
    (b"ldi x", SyntaxFault::Misplaced(4)),
    (b"ld x", SyntaxFault::Misplaced(3)),
    (b"LD #1", SyntaxFault::Misplaced(3)),
    (b"foo ret", SyntaxFault::Misplaced(4)),
    (b"vlan_pr ret", SyntaxFault::Misplaced(8)),
    (b"5", SyntaxFault::Misplaced(0)),
    (b"/**/ #5", SyntaxFault::Misplaced(5)),
    (b"x: tax", SyntaxFault::Misplaced(0)),
    (b"M: tax", SyntaxFault::Misplaced(0)),
    (b"len: tax", SyntaxFault::Misplaced(0)),
    (b"rand: tax", SyntaxFault::Misplaced(0)),
    (b"ret: tax", SyntaxFault::Misplaced(3)),
    (b"jmp ret", SyntaxFault::Misplaced(4)),
    (b"jmp x", SyntaxFault::Misplaced(4)),
    (b"jeq #1, a", SyntaxFault::Misplaced(8)),
    (b"jmp l :", SyntaxFault::Misplaced(6)),
    (b"ld [x - 1]", SyntaxFault::Misplaced(6)),
    (b"ldx 5*([14]&15)", SyntaxFault::Misplaced(4)),
    (b"ldx 4*([14]&14)", SyntaxFault::Misplaced(12)),
    (b"ldx 4*([14]&0)", SyntaxFault::Misplaced(12)),
    (b"ldx +4*([14]&15)", SyntaxFault::Misplaced(4)),
    (b"jne #1, t, f", SyntaxFault::Misplaced(9)),
    (b"ld /* c */ # 5 5", SyntaxFault::Misplaced(15)),
    (b"tax l: m: 5 ld #-2147483649", SyntaxFault::Misplaced(10)),
    // By place in the text.
    (b"ld #-2147483649", SyntaxFault::LargeNegative(5)),
    (b"ld #-4294967295 5", SyntaxFault::LargeNegative(5)),
    (b"ld [-2147483649", SyntaxFault::LargeNegative(5)),
    (
        b"ret #-2147483648 ret #-2147483649 tax",
        SyntaxFault::LargeNegative(23),
    ),
];

/// What stands next.
#[derive(Clone, Copy)]
enum Next {
    Label,
    Item(Row),
    End,
    Refused(SyntaxFault),
    /// The source has a bad piece, or the allocator refused.
    Unread,
}

/// What stands next, after a label or not.
fn read_next(reader: &mut Reader<'_, Global>, labelled: bool) -> Next {
    match reader.step() {
        Err(_) => Next::Unread,
        Ok(None) if labelled => Next::Refused(reader.fault(0)),
        Ok(None) => match reader.large() {
            Some(at) => Next::Refused(SyntaxFault::LargeNegative(at)),
            None => Next::End,
        },
        Ok(Some(Step::Label)) => {
            reader.take(2);
            Next::Label
        }
        Ok(Some(Step::Instruction(row))) => {
            reader.take(1 + row.operand.len());
            Next::Item(row)
        }
        Ok(Some(Step::Stuck(n))) => Next::Refused(reader.fault(n)),
    }
}

/// The number of a source's items, the last one, and what ends them.
fn read(alloc: Global, source: &[u8]) -> (u32, Option<Row>, Next) {
    let mut reader = Reader::new(alloc, source);
    let (mut count, mut item, mut labelled) = (0u32, None, false);
    for _ in 0..=source.len() {
        match read_next(&mut reader, labelled) {
            Next::Label => labelled = true,
            Next::Item(row) => {
                (count, item, labelled) = (count.saturating_add(1), Some(row), false);
            }
            end => return (count, item, end),
        }
    }
    (count, item, Next::Unread)
}

/// Whether the source is one item of this code.
fn has_item(alloc: Global, source: &[u8], code: u16, fields: Fields) -> bool {
    match read(alloc, source) {
        (1, Some(item), Next::End) => code_of(item.op) == code && item.fields == fields,
        _ => false,
    }
}

fn is_refused(alloc: Global, source: &[u8], fault: SyntaxFault) -> bool {
    match read(alloc, source) {
        (_, _, Next::Refused(found)) => found == fault,
        _ => false,
    }
}

fn assert_items(rt: &impl Test, table: &str, items: &[Item]) {
    for (row, (source, code, fields)) in items.iter().enumerate() {
        assert_of(rt, table, row, has_item(rt.alloc(), source, *code, *fields));
    }
}

// A call for each table: a proof grows with the square of the rows that its function sees.
fn loads(rt: &impl Test) {
    assert_items(rt, "loads", &LOADS);
}

fn jumps(rt: &impl Test) {
    assert_items(rt, "jumps", &JUMPS);
}

fn others(rt: &impl Test) {
    assert_items(rt, "others", &OTHERS);
}

fn options(rt: &impl Test) {
    assert_items(rt, "options", &OPTIONS);
}

#[test]
fn worked_sources(rt: HostRuntime) {
    loads(&rt);
    jumps(&rt);
    others(&rt);
    options(&rt);
}

/// Another number in place of the 4 or the 15 is A4.
#[test]
fn each_refusal(rt: HostRuntime) {
    for (row, (source, fault)) in FAULTS.iter().enumerate() {
        assert_at(&rt, row, is_refused(rt.alloc(), source, *fault));
    }
}
