//! Lists with the errors C, and lists that are accepted.

use CheckFault::{
    JumpOutside, NoInstruction, NoReturn, NoSlot, UnknownCode, UnknownExtension, UnwrittenSlot,
    WideShift, ZeroDivisor,
};
use cbpf_code::{CheckFault, Insn, check, read_words};
use std::process::Abort;

/// Lists as word text, and the fault of each that is refused.
static LISTS: [(&[u8], Option<CheckFault>); 26] = [
    (b"0,", Some(NoInstruction)),
    (b"1,0 0 0 0", Some(NoReturn)),
    (b"1,5 0 0 0", Some(JumpOutside(0))),
    (b"1,60000 0 0 0", Some(UnknownCode(0))),
    (b"2,2 0 0 16,6 0 0 0", Some(NoSlot(0))),
    (b"2,52 0 0 0,22 0 0 0", Some(ZeroDivisor(0))),
    (b"2,148 0 0 0,22 0 0 0", Some(ZeroDivisor(0))),
    (b"2,100 0 0 32,22 0 0 0", Some(WideShift(0))),
    (b"2,116 0 0 32,22 0 0 0", Some(WideShift(0))),
    (b"2,21 0 1 0,6 0 0 0", Some(JumpOutside(0))),
    (b"2,21 1 0 0,6 0 0 0", Some(JumpOutside(0))),
    (b"2,5 0 0 4294967295,6 0 0 0", Some(JumpOutside(0))),
    (b"2,32 0 0 4294963240,22 0 0 0", Some(UnknownExtension(0))),
    // the end comes before unwritten slots
    (b"2,96 0 0 0,7 0 0 0", Some(NoReturn)),
    // the least index comes first, whatever the kind
    (b"2,60000 0 0 0,2 0 0 16", Some(UnknownCode(0))),
    (b"2,2 0 0 16,60000 0 0 0", Some(NoSlot(0))),
    // one of two paths stores
    (
        b"5,0 0 0 1,21 0 1 1,2 0 0 0,96 0 0 0,22 0 0 0",
        Some(UnwrittenSlot(3)),
    ),
    (b"3,97 0 0 15,96 0 0 0,22 0 0 0", Some(UnwrittenSlot(0))),
    // a divisor and a shift distance in the index register aren't known
    (b"2,60 0 0 0,22 0 0 0", None),
    (b"2,108 0 0 32,22 0 0 0", None),
    (b"2,100 0 0 31,22 0 0 0", None),
    // a load by the index register is none of an extension
    (b"2,64 0 0 4294963240,22 0 0 0", None),
    (b"2,32 0 0 4294963256,22 0 0 0", None),
    // no path reaches the load
    (b"3,5 0 0 1,96 0 0 5,6 0 0 0", None),
    // nothing goes on from a return
    (
        b"6,21 0 2 0,2 0 0 0,5 0 0 1,6 0 0 0,96 0 0 0,22 0 0 0",
        None,
    ),
    (
        b"6,21 0 2 0,2 0 0 0,5 0 0 1,22 0 0 0,96 0 0 0,22 0 0 0",
        None,
    ),
];

fn assert_fault(rt: &impl Abort, list: Vec<Insn>, wanted: Option<CheckFault>, row: usize) {
    let found = match check(list) {
        Ok(_) => None,
        Err((fault, _)) => Some(fault),
    };
    assert!(rt; found == wanted, "row {row}");
}

#[test]
fn worked_lists(rt: HostRuntime) {
    for (row, (words, wanted)) in LISTS.iter().enumerate() {
        let list = read_words(rt.alloc(), words).expect(&rt, "a list");
        assert_fault(&rt, list, *wanted, row);
    }
}
