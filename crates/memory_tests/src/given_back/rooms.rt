//! How much room a trail, a tally, a report and breakpoints ask for, and that it is given back.

use crate::assertions::{Test, assert_named};
use crate::reports::report_in;
use cbpf_dbg::{ListTrail, MarkTrail, Session, Trail, When};
use cbpf_machine::Tally;
use cbpf_why::Report;
use pcap_classic::CaptureReader;
use session_tests::fault_injection::FaultyAllocator;
use session_tests::files::repeated;
use session_tests::inputs::{HEADER, RECORD, STRAIGHT, program_of};
use std::alloc::{Allocator, Global};
use std::process::Abort;

/// A trail of all states asks for exactly the room of 4096 states.
#[test]
fn room_for_a_list_of_states(rt: HostRuntime) {
    let counting = FaultyAllocator::new(rt.alloc(), 0);
    let trail = ListTrail::new(&counting).expect(&rt, "the trail");
    // 4096 states of 80 bytes.
    assert!(rt; counting.asked() == 327680 && counting.held() == 327680);
    drop(trail);
    assert!(rt; counting.held() == 0);
}

#[test]
fn room_for_a_tally(rt: HostRuntime) {
    let p = program_of(rt.alloc(), STRAIGHT).expect(&rt, "the program");
    let counting = FaultyAllocator::new(rt.alloc(), 0);
    let tally = Tally::new(&counting, &p).expect(&rt, "the tally");
    // 16 bytes for each of 21 instructions.
    assert!(rt; counting.asked() == 336 && counting.held() == 336);
    drop(tally);
    assert!(rt; counting.held() == 0);
}

/// What a report on a capture asks for, beside the capture's reader and the text. It is given back.
fn room_of_report(rt: &impl Test, report: Report, file: &[u8]) -> u64 {
    let counting = FaultyAllocator::new(rt.alloc(), 0);
    let mut reader = CaptureReader::new(rt.alloc(), file)
        .ok()
        .expect(rt, "the capture");
    let mut text = Vec::new(rt.alloc());
    let answer = report_in(rt, &counting, report, &[], &mut reader, &mut text);
    assert!(rt; answer.is_ok() && counting.held() == 0);
    counting.asked()
}

const REPORTS: [Report; 5] = [
    Report::Summary,
    Report::Traces,
    Report::Packets,
    Report::Coverage,
    Report::Graph,
];

#[test]
fn room_for_a_report(rt: HostRuntime) {
    let file = repeated(rt.alloc(), HEADER, RECORD, 3000, b"").expect(&rt, "memory");
    for report in &REPORTS {
        let room = room_of_report(&rt, *report, &file);
        // Six groups of 56 bytes for each of 4 instructions, 16 bytes for how often it ran, and where blocks begin.
        let is_wanted = room_of_report(&rt, *report, HEADER) == room && room <= 4 * 354;
        assert_named(&rt, is_wanted, "the room of a report", *report);
    }
}

/// The bytes that breakpoints at all instructions of a session take.
#[derive(Clone, Copy)]
struct Room {
    breakpoints: u64,
    /// What the first one asks for.
    first: u64,
    /// What they all ask for.
    asked: u64,
    held: u64,
}

/// Sets a breakpoint at each instruction: how many there are.
fn set_all<T: Trail, A: Allocator + Copy>(session: &mut Session<T, A>) -> u64 {
    for n in 0..4096u64 {
        if session.breakpoint(n) != Ok(()) {
            return n;
        }
    }
    4096
}

/// Sets a breakpoint at each instruction of a session, whose bytes `counting` counts.
fn room_of<T: Trail, A: Allocator + Copy>(
    rt: &impl Abort,
    session: &mut Session<T, A>,
    counting: &FaultyAllocator<Global>,
) -> Room {
    let (asked, held) = (counting.asked(), counting.held());
    assert!(rt; session.breakpoint_when(0, When::A(7)) == Ok(()));
    let first = counting.asked().saturating_sub(asked);
    let breakpoints = set_all(session);
    Room {
        breakpoints,
        first,
        asked: counting.asked().saturating_sub(asked),
        held: counting.held().saturating_sub(held),
    }
}

/// Room for conditions of 8 bytes an instruction, and for a table that doubles.
fn is_bounded(room: &Room) -> bool {
    let conditions = room.breakpoints.saturating_mul(8).saturating_add(320);
    let held = conditions.saturating_add(room.breakpoints.saturating_mul(48));
    let asked = conditions.saturating_add(room.breakpoints.saturating_mul(80));
    room.first <= conditions && room.held <= held && room.asked <= asked
}

fn assert_room<A: Allocator + Copy>(
    rt: &impl Abort,
    alloc: A,
    counting: &FaultyAllocator<Global>,
    words: &[u8],
) {
    let mut session = Session::new(alloc, MarkTrail::new());
    session.load_program(program_of(alloc, words).expect(rt, "the program"));
    let room = room_of(rt, &mut session, counting);
    let count = session.breakpoint_count() as u64;
    let is_wanted = room.breakpoints == count && is_bounded(&room);
    assert_named(rt, is_wanted, "the room of breakpoints", count);
}

/// The first breakpoint asks for 8 bytes an instruction and 320 more at most, and breakpoints at all instructions for
/// 80 bytes each beside these, of which they hold 48.
#[test]
fn room_for_breakpoints(rt: HostRuntime) {
    let counting = FaultyAllocator::new(rt.alloc(), 0);
    assert_room(&rt, &counting, &counting, b"1,6 0 0 1");
    assert_room(&rt, &counting, &counting, STRAIGHT);
    let longest = repeated(rt.alloc(), b"4096,", b"7 0 0 0,", 4095, b"6 0 0 1").expect(
        &rt, "memory",
    );
    assert_room(&rt, &counting, &counting, &longest);
    assert!(rt; counting.held() == 0);
}
