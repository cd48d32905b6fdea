//! Scripts of which each growth is refused, one after another.

use crate::assertions::{Test, assert_named};
use crate::inputs::two_packets_as_k;
use cbpf_tool::{ToolFault, debug};
use session_tests::fault_injection::{Fault, FaultyAllocator, FaultyWriter};
use std::process::Abort;

const LOADS: &[u8] = b"load bpf 1,6 0 0 1\nload pcap k\nrun\nquit\n";

/// The same, but the third line is longer than the first, and the only one that needs more room than it.
const LONG_LINE: &[u8] = b"load bpf 1,6 0 0 1\nload pcap k\n\
run                                                                                             \n\
quit\n";

const COUNTS: &[u8] = b"bpf: 1 instructions\npcap: 2 packets\nbpf passes:2 fails:0\n";

// Where room is refused for the program of `LOADS`, for the capture, and for a breakpoint.
const NO_PROGRAM: &[u8] = b"error: out of memory\npcap: 2 packets\nerror: S1 no program\n";

const NO_CAPTURE: &[u8] = b"bpf: 1 instructions\nerror: out of memory\nerror: S2 no capture\n";

const NO_BREAKPOINT: &[u8] = b"bpf: 1 instructions\nerror: out of memory\nbreakpoints:\n";

/// A script, its replies where no growth is refused, the least number of growths, and what it writes where
/// this growth is refused and the script goes on.
type Row = (&'static [u8], &'static [u8], u64, &'static [Refused]);

/// A growth, and what is written where it is refused.
type Refused = (u64, &'static [u8]);

static SCRIPTS: [Row; 5] = [
    (
        LOADS,
        COUNTS,
        4,
        &[(2, NO_PROGRAM), (3, NO_CAPTURE), (4, NO_CAPTURE)],
    ),
    (LONG_LINE, COUNTS, 5, &[]),
    (
        b"load bpf 1,6 0 0 1\nbreakpoint 0\nbreakpoint\nquit\n",
        b"bpf: 1 instructions\nbreakpoint at: l0:\tret #0x1\nbreakpoints: 0\n",
        3,
        &[(3, NO_BREAKPOINT)],
    ),
    (
        b"load bpf 1,6 0 0 1\nbreakpoint 0 a 5\nbreakpoint\nquit\n",
        b"bpf: 1 instructions\nbreakpoint at: l0:\tret #0x1 when a = 5\nbreakpoints: 0(a=5)\n",
        3,
        &[(3, NO_BREAKPOINT)],
    ),
    (
        b"load bpf 1,6 0 0 1\nbreakpoint 0\nbreakpoint 0 x 7\nbreakpoint\nquit\n",
        b"bpf: 1 instructions\n\
breakpoint at: l0:\tret #0x1\n\
breakpoint at: l0:\tret #0x1 when x = 7\n\
breakpoints: 0(x=7)\n",
        3,
        &[(
            3,
            b"bpf: 1 instructions\n\
error: out of memory\n\
breakpoint at: l0:\tret #0x1 when x = 7\n\
breakpoints: 0(x=7)\n",
        )],
    ),
];

/// What is to be written where the growth `nth` is refused, where that is said.
fn text_after(refused: &[Refused], nth: u64) -> Option<&'static [u8]> {
    for (growth, text) in refused {
        if *growth == nth {
            return Some(text);
        }
    }
    None
}

/// Whether the growth `nth` is refused, and then out of memory is found.
fn is_refused(rt: &impl Test, script: &Row, row: usize, nth: u64) -> bool {
    let (script, replies, _, refused) = *script;
    let mut files = two_packets_as_k(rt.alloc()).expect(rt, "memory");
    let alloc = FaultyAllocator::new(rt.alloc(), nth);
    let mut reader = script;
    let mut writer = FaultyWriter::<256>::new(Fault::Fails, 0);
    let result = debug(&alloc, &mut reader, &mut writer, &mut files);
    let is_whole = result == Ok(()) && writer.written() == replies;
    let is_refused = alloc.left() == 0;
    assert_named(rt, is_whole != is_refused, "the whole text", (row, nth));
    if !is_whole {
        after_refusal(
            rt,
            result,
            writer.written(),
            text_after(refused, nth),
            row,
            nth,
        );
    }
    !is_whole
}

fn after_refusal(
    rt: &impl Abort,
    answer: Result<(), ToolFault>,
    written: &[u8],
    wanted: Option<&[u8]>,
    row: usize,
    nth: u64,
) {
    let is_wanted = match wanted {
        Some(text) => answer == Ok(()) && written == text,
        None => matches!(answer, Ok(()) | Err(ToolFault::Memory)),
    };
    assert_named(rt, is_wanted, "the answer and the text", (row, nth));
}

/// Each growth of a script is refused, one after another.
fn each_is_refused(rt: &impl Test, script: &Row, row: usize) {
    let mut growths = 0u64;
    for nth in 1..100u64 {
        if !is_refused(rt, script, row, nth) {
            break;
        }
        growths = nth;
    }
    let are_wanted = script.2 <= growths && growths < 99;
    assert_named(rt, are_wanted, "the number of growths", (row, growths));
}

// Out of memory is a fault of the script, or the reply to a line, and neither comes of itself.
#[test]
fn each_growth_of_a_script(rt: HostRuntime) {
    for (row, script) in SCRIPTS.iter().enumerate() {
        each_is_refused(&rt, script, row);
    }
}

/// How `LOADS` ends where room is refused for its first line, for the program and for the capture, and where
/// no growth is refused.
static ENDS: [(Result<(), ToolFault>, &[u8]); 4] = [
    (Err(ToolFault::Memory), b""),
    (Ok(()), NO_PROGRAM),
    (Ok(()), NO_CAPTURE),
    (Ok(()), COUNTS),
];

/// Which of `ENDS` an answer and what was written are, or 4 for none.
fn end_of(answer: Result<(), ToolFault>, written: &[u8]) -> usize {
    for (i, (wanted, text)) in ENDS.iter().enumerate() {
        if answer == *wanted && written == *text {
            return i;
        }
    }
    4
}

/// Which of `ENDS` comes of `LOADS` over a slice as writer, and whether the growth `nth` was refused.
fn end_over_a_slice(rt: &impl Test, nth: u64) -> (usize, bool) {
    let mut files = two_packets_as_k(rt.alloc()).expect(rt, "memory");
    let alloc = FaultyAllocator::new(rt.alloc(), nth);
    let mut reader = LOADS;
    let mut room = [0u8; 128];
    let mut writer: &mut [u8] = &mut room;
    let answer = debug(&alloc, &mut reader, &mut writer, &mut files);
    let written = 128usize.saturating_sub(writer.len());
    (end_of(answer, &room[..written]), alloc.left() == 0)
}

/// Each growth of a script over a slice as writer is refused, and it ends in one of four ways, each of which is met.
#[test]
fn each_growth_over_a_slice(rt: HostRuntime) {
    let mut met = [false; 4];
    for nth in 1..100u64 {
        let (end, is_refused) = end_over_a_slice(&rt, nth);
        assert_named(&rt, is_refused == (end < 3), "the end", nth);
        if let Some(is_met) = met.get_mut(end) {
            *is_met = true;
        }
        if !is_refused {
            break;
        }
    }
    assert!(rt; met == [true; 4]);
}
