//! Calls of a session in rows: what it is asked, what it answers, and in how many turns.

use super::Shown;
use crate::assertions::{Test, assert_named};
use crate::programs::{Code, program_of};
use crate::{programs, two_packets};
use cbpf_code::{Ext, Program};
use cbpf_dbg::{Meter, Place, RunReply, Session, SessionFault, Stop, Trail, When, Why};
use pcap_classic::Capture;
use std::alloc::Allocator;

/// The capture of the two packets.
pub fn capture(rt: &impl Test) -> Capture {
    programs::capture(rt, two_packets::little_endian())
}

/// The first instruction, so many times the others in their order, and the last.
pub fn program(rt: &impl Test, first: Code, count: u32, others: &[Code], last: Code) -> Program {
    let mut all = Vec::new(rt.alloc());
    all.push(first).expect(rt, "memory");
    for _ in 0..count {
        all.extend_from_slice(others).expect(rt, "memory");
    }
    all.push(last).expect(rt, "memory");
    program_of(rt, &all)
}

/// A call of a session, and its answer.
#[derive(Drop)]
pub enum Row {
    /// Loads the first instruction, so many times the others in their order, and the last.
    Program(Code, u32, &'static [Code], Code),
    /// Loads the two packets.
    Capture,
    /// Loads them from the file in the other byte order.
    SwappedCapture,
    /// A run with its limit.
    Run(Option<u64>, Answer, Turns),
    /// A run to the end, which finds these stops, and the packets of each end, as `Answer::Finishes` has them.
    RunToEnd(&'static [(u64, u32, u32, u32)], (u64, u64, u64), Turns),
    Step(i64, Answer, Turns),
    /// To a packet and a step.
    Resume(u64, u32, Result<(), SessionFault>, Turns),
    Select(u64, Result<(), SessionFault>),
    /// `mark` gives this packet and step.
    Mark(u64, u32),
    /// `breakpoint` for `When::Always`, and else `breakpoint_when`.
    Break(u64, When, Result<(), SessionFault>),
    Delete(u64, Result<bool, SessionFault>),
    /// What the breakpoints are, in their order.
    Breakpoints(&'static [(u32, When)]),
    SetValue(Ext, u32, Result<(), SessionFault>),
    ValueOf(Ext, Option<u32>),
    /// The stops from here on, as `Answer::Breaks` has them.
    Stops(&'static [(u64, u32, u32, u32)]),
}

/// What a run or a step answers. X is 0 at each stop.
#[derive(Drop)]
pub enum Answer {
    /// A breakpoint: the packet, the step, the instruction, and A.
    Breaks(u64, u32, u32, u32),
    /// The end of a step, likewise.
    Steps(u64, u32, u32, u32),
    /// The first instruction of that packet asks for an extension.
    Asks(u64, Ext),
    /// The packets that passed, that failed, and that asked for an extension.
    Finishes(u64, u64, u64),
    /// The same up to the run's limit.
    Limit(u64, u64, u64),
    Refuses(SessionFault),
}

/// How many turns a call makes.
#[derive(Drop)]
pub enum Turns {
    Exactly(u128),
    /// So many on the way back where each 64th state is kept, and none where all are.
    Back(u128),
}

fn matches_stop(stop: &Stop, row: &(u64, u32, u32, u32), why: Why) -> bool {
    let (packet, step, pc, a) = *row;
    stop.place == Place { packet, step }
        && (stop.state.pc(), stop.state.a(), stop.state.x()) == (pc, a, 0)
        && stop.why == why
}

fn matches_answer(reply: Result<RunReply, SessionFault>, wanted: &Answer) -> bool {
    match (reply, wanted) {
        (Ok(RunReply::Stopped(stop)), Answer::Breaks(packet, step, pc, a)) => {
            matches_stop(&stop, &(*packet, *step, *pc, *a), Why::Break)
        }
        (Ok(RunReply::Stopped(stop)), Answer::Steps(packet, step, pc, a)) => {
            matches_stop(&stop, &(*packet, *step, *pc, *a), Why::Step)
        }
        (Ok(RunReply::Stopped(stop)), Answer::Asks(packet, e)) => {
            matches_stop(&stop, &(*packet, 1, 0, 0), Why::Unknown(*e))
        }
        (Ok(RunReply::Finished(seen)), Answer::Finishes(passes, fails, unknown)) => {
            (seen.passes, seen.fails, seen.unknown) == (*passes, *fails, *unknown)
        }
        (Ok(RunReply::Limit(seen)), Answer::Limit(passes, fails, unknown)) => {
            (seen.passes, seen.fails, seen.unknown) == (*passes, *fails, *unknown)
        }
        (Err(seen), Answer::Refuses(fault)) => seen == *fault,
        _ => false,
    }
}

fn matches_turns(meter: &Meter, wanted: &Turns, keeps_all: bool) -> bool {
    match wanted {
        Turns::Exactly(n) => meter.spent() == *n,
        Turns::Back(n) => meter.spent() == if keeps_all { 0 } else { *n },
    }
}

fn matches_breakpoints<T: Trail, A: Allocator>(s: &Session<T, A>, wanted: &[(u32, When)]) -> bool {
    for (i, (n, when)) in wanted.iter().enumerate() {
        if s.breakpoint_at(i) != Some(*n) || s.breakpoint_when_at(i) != Some(*when) {
            return false;
        }
    }
    s.breakpoint_count() == wanted.len() && s.breakpoint_at(wanted.len()) == None
}

/// Whether the stops are those of the rows, each at a breakpoint.
fn matches_stops(found: &[Stop], wanted: &[(u64, u32, u32, u32)]) -> bool {
    for (i, row) in wanted.iter().enumerate() {
        match found.get(i) {
            Some(stop) if matches_stop(stop, row, Why::Break) => {}
            _ => return false,
        }
    }
    found.len() == wanted.len()
}

fn matches_run_to_end<T: Trail, A: Allocator>(
    rt: &impl Test,
    s: &mut Session<T, A>,
    stops: &[(u64, u32, u32, u32)],
    (passes, fails, unknown): (u64, u64, u64),
    turns: &Turns,
    keeps_all: bool,
) -> bool {
    let mut meter = Meter::new();
    let mut found = Vec::new(rt.alloc());
    let reply = match s.run_to_end(&mut meter, &mut found) {
        Ok(counts) => Ok(RunReply::Finished(counts)),
        Err(fault) => Err(fault),
    };
    matches_answer(reply, &Answer::Finishes(passes, fails, unknown))
        && matches_stops(&found, stops)
        && matches_turns(&meter, turns, keeps_all)
}

fn matches_list<T: Trail, A: Allocator>(
    rt: &impl Test,
    s: &Session<T, A>,
    list: &[(u64, u32, u32, u32)],
) -> bool {
    let mut found = Vec::new(rt.alloc());
    for stop in s.stops().ok().expect(rt, "stops") {
        found.push(stop).expect(rt, "memory");
    }
    matches_stops(&found, list)
}

/// Makes the call of a row that lists or changes breakpoints.
fn matches_at_breakpoints<T: Trail, A: Allocator + Copy>(s: &mut Session<T, A>, row: &Row) -> bool {
    match row {
        Row::Break(n, When::Always, answer) => s.breakpoint(*n) == *answer,
        Row::Break(n, when, answer) => s.breakpoint_when(*n, *when) == *answer,
        Row::Delete(n, answer) => s.delete(*n) == *answer,
        Row::Breakpoints(list) => matches_breakpoints(s, list),
        _ => false,
    }
}

/// Makes the call of a row that makes no turns.
fn matches_still<T: Trail, A: Allocator + Copy>(s: &mut Session<T, A>, row: &Row) -> bool {
    match row {
        Row::Select(k, answer) => s.select(*k) == *answer,
        Row::Mark(packet, step) => {
            let place = Place {
                packet: *packet,
                step: *step,
            };
            s.mark() == Ok(place)
        }
        Row::SetValue(e, v, answer) => s.set_value(*e, *v) == *answer,
        Row::ValueOf(e, answer) => s.value_of(*e) == *answer,
        _ => matches_at_breakpoints(s, row),
    }
}

/// Makes the call of a row that makes turns or lists the stops, or that `matches_still` makes.
fn matches_call<T: Trail, A: Allocator + Copy>(
    rt: &impl Test,
    s: &mut Session<T, A>,
    row: &Row,
    keeps_all: bool,
) -> bool {
    let mut meter = Meter::new();
    match row {
        Row::Run(limit, answer, turns) => {
            let reply = s.run(&mut meter, *limit);
            matches_answer(reply, answer) && matches_turns(&meter, turns, keeps_all)
        }
        Row::RunToEnd(stops, ends, turns) => {
            matches_run_to_end(rt, s, stops, *ends, turns, keeps_all)
        }
        Row::Step(n, answer, turns) => {
            let reply = s.step(&mut meter, *n);
            matches_answer(reply, answer) && matches_turns(&meter, turns, keeps_all)
        }
        Row::Resume(packet, step, answer, turns) => {
            let place = Place {
                packet: *packet,
                step: *step,
            };
            s.resume(&mut meter, place) == *answer && matches_turns(&meter, turns, keeps_all)
        }
        Row::Stops(list) => matches_list(rt, s, list),
        _ => matches_still(s, row),
    }
}

/// Makes the call of a row, and reports whether the session answers as the row has it.
fn matches_row<T: Trail>(rt: &impl Test, s: &mut Session<T>, row: &Row, keeps_all: bool) -> bool {
    match row {
        Row::Program(first, count, others, last) => {
            s.load_program(program(rt, *first, *count, others, *last));
            true
        }
        Row::Capture => {
            s.load_capture(capture(rt));
            true
        }
        Row::SwappedCapture => {
            let file = two_packets::big_endian();
            s.load_capture(programs::capture(rt, file));
            true
        }
        _ => matches_call(rt, s, row, keeps_all),
    }
}

/// Makes the calls of the rows, which load nothing, of a session that keeps each 64th state.
pub fn check_calls<T: Trail, A: Allocator + Copy>(
    rt: &impl Test,
    s: &mut Session<T, A>,
    shows: &str,
    rows: &[Row],
) {
    for (i, row) in rows.iter().enumerate() {
        let holds = matches_call(rt, s, row, false);
        assert_named(rt, holds, shows, i);
    }
}

/// Makes the calls of the rows one after the other, and asserts what each answers.
fn check_each<T: Trail>(
    rt: &impl Test,
    s: &mut Session<T>,
    keeps_all: bool,
    shows: &str,
    rows: &[Row],
) {
    for (i, row) in rows.iter().enumerate() {
        let holds = matches_row(rt, s, row, keeps_all);
        assert_named(rt, holds, shows, i);
    }
}

/// The calls in a session of its own.
pub fn check_rows<T: Trail>(rt: &impl Test, trail: T, keeps_all: bool, session: &Shown) {
    let (shows, begin, rows) = *session;
    let mut s = Session::new(rt.alloc(), trail);
    check_each(rt, &mut s, keeps_all, shows, begin);
    check_each(rt, &mut s, keeps_all, shows, rows);
}
