//! Calls that ask an allocator for nothing, though what they are given holds one. Writers get a slice, or a `Program`, which lends none.

use crate::assertions::Test;
use crate::fault_injection::{Fault, FaultyAllocator, FaultyWriter};
use crate::inputs::{ICMP_WORDS, STRAIGHT, program_of, session_of, two_packets};
use crate::sessions::rows::{Answer, Row, Turns, check_calls};
use cbpf_code::{CheckFault, Ext, Insn, check, read_words};
use cbpf_dbg::{MarkTrail, Meter, RunReply, Session, SessionFault, When};
use std::alloc::{Allocator, Global};
use std::process::Abort;

const NOTHING_LOADED: &[Row] = &[
    Row::Break(0, When::Always, Err(SessionFault::NoProgram)),
    Row::Break(0, When::A(1), Err(SessionFault::NoProgram)),
];

fn call_with_nothing_loaded<A: Allocator + Copy>(rt: &impl Test, alloc: A) {
    let mut session = Session::new(alloc, MarkTrail::new());
    check_calls(rt, &mut session, "nothing loaded", NOTHING_LOADED);
    let mut found = Vec::new(alloc);
    let reply = session.run_to_end(&mut Meter::new(), &mut found);
    assert!(rt; reply == Err(SessionFault::NoProgram));
}

#[test]
fn a_session_with_nothing_loaded(rt: HostRuntime) {
    let refusing = FaultyAllocator::new(rt.alloc(), 1000);
    call_with_nothing_loaded(&rt, &refusing);
    assert!(rt; refusing.left() == 1000);
}

const BREAKPOINTS: &[Row] = &[
    Row::Break(1, When::Always, Ok(())),
    Row::Break(4, When::X(0), Ok(())),
];

/// Breakpoints that are refused, and two that are set already, set again.
const SET_AGAIN: &[Row] = &[
    Row::Break(6, When::Always, Err(SessionFault::NoInstruction)),
    Row::Break(6, When::A(1), Err(SessionFault::NoInstruction)),
    Row::Break(1, When::A(2054), Ok(())),
    Row::Break(4, When::Always, Ok(())),
];

/// From the first stop on. What is found is listed in another memory.
const CALLS: &[Row] = &[
    Row::Step(3, Answer::Steps(2, 2, 1, 2048), Turns::Exactly(3)),
    Row::Step(-1, Answer::Steps(2, 1, 0, 0), Turns::Exactly(0)),
    Row::Run(Some(1), Answer::Breaks(2, 5, 4, 1), Turns::Exactly(4)),
    Row::Resume(2, 3, Ok(()), Turns::Exactly(4)),
    Row::Select(1, Ok(())),
    Row::Mark(1, 0),
    Row::SetValue(Ext::Mark, 7, Ok(())),
    Row::Stops(&[(1, 2, 1, 2054), (2, 5, 4, 1)]),
    Row::RunToEnd(
        &[(1, 2, 1, 2054), (2, 5, 4, 1)],
        (1, 1, 0),
        Turns::Exactly(8),
    ),
    Row::Delete(4, Ok(true)),
];

/// Whether a run comes to a stop, which is dumped.
fn dumps<A: Allocator + Copy>(session: &mut Session<MarkTrail, A>) -> bool {
    match session.run(&mut Meter::new(), None) {
        Ok(RunReply::Stopped(stop)) => {
            let mut w = FaultyWriter::<2048>::new(Fault::Fails, 0);
            session.write_stop(&mut w, &stop) == Ok(())
        }
        _ => false,
    }
}

/// The calls of the rows, and a dump. After the first breakpoints none asks for room.
fn make_calls<A: Allocator + Copy>(
    rt: &impl Test,
    session: &mut Session<MarkTrail, A>,
    refusing: &FaultyAllocator<Global>,
) {
    check_calls(rt, session, "breakpoints", BREAKPOINTS);
    let left = refusing.left();
    check_calls(rt, session, "breakpoints again", SET_AGAIN);
    assert!(rt; dumps(session));
    check_calls(rt, session, "calls from the first stop on", CALLS);
    session.reset_breakpoints();
    assert!(rt; refusing.left() == left);
}

/// Calls of a session of `alloc`, whose calls `refusing` counts.
fn calls_of<A: Allocator + Copy>(rt: &impl Test, alloc: A, refusing: &FaultyAllocator<Global>) {
    let mut session = session_of(alloc, ICMP_WORDS).expect(rt, "the session");
    make_calls(rt, &mut session, refusing);
}

#[test]
fn calls_of_a_session(rt: HostRuntime) {
    let refusing = FaultyAllocator::new(rt.alloc(), 1000);
    calls_of(&rt, &refusing, &refusing);
}

/// A program and a capture of `alloc`, whose calls `refusing` counts, go into a session.
fn load_both<A: Allocator + Copy>(rt: &impl Abort, alloc: A, refusing: &FaultyAllocator<Global>) {
    let mut session = session_of(alloc, ICMP_WORDS).expect(rt, "the session");
    let program = program_of(alloc, STRAIGHT).expect(rt, "the program");
    let capture = two_packets(alloc).expect(rt, "the capture");
    let left = refusing.left();
    session.load_program(program);
    session.load_capture(capture);
    assert!(rt; refusing.left() == left);
}

#[test]
fn loads_of_a_session(rt: HostRuntime) {
    let refusing = FaultyAllocator::new(rt.alloc(), 1000);
    load_both(&rt, &refusing, &refusing);
}

/// Word texts, and the fault of each that is no program.
static CHECKED: [(&[u8], Option<CheckFault>); 5] = [
    (ICMP_WORDS, None),
    // Both paths to the load store into its slot, and then one of them alone.
    (
        b"6,21 0 2 0,2 0 0 0,5 0 0 1,6 0 0 0,96 0 0 0,22 0 0 0",
        None,
    ),
    (
        b"5,0 0 0 1,21 0 1 1,2 0 0 0,96 0 0 0,22 0 0 0",
        Some(CheckFault::UnwrittenSlot(3)),
    ),
    (b"1,5 0 0 0", Some(CheckFault::JumpOutside(0))),
    (b"1,0 0 0 0", Some(CheckFault::NoReturn)),
];

fn fault_of<A: Allocator>(list: Vec<Insn, A>) -> Option<CheckFault> {
    match check(list) {
        Ok(_) => None,
        Err((fault, _)) => Some(fault),
    }
}

/// A check, around which no room is asked for.
fn check_words(rt: &impl Test, words: &[u8], wanted: Option<CheckFault>) {
    let refusing = FaultyAllocator::new(rt.alloc(), 1000);
    let list = read_words(&refusing, words).expect(rt, "the list");
    let left = refusing.left();
    assert!(rt; fault_of(list) == wanted && refusing.left() == left);
}

#[test]
fn the_checker(rt: HostRuntime) {
    for (words, wanted) in CHECKED.iter() {
        check_words(&rt, words, *wanted);
    }
}
