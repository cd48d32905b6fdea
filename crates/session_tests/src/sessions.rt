//! Sessions over a capture of an ARP packet and an ICMP packet, with the turns that each call makes.
//!
//! `LOAD_RULE` is `ldh [12]`, `jeq #2048, l2, l5`, `ldb [23]`, `jeq #1, l4, l5`, `ret #65535`, `ret #0`: it
//! passes ICMP packets. The ARP packet executes 3 of them, and the ICMP packet 5.

mod listed_stops;
pub(crate) mod rows;
mod values;

use crate::assertions::Test;
use crate::outsiders::counting_trail;
use cbpf_dbg::{ListTrail, MarkTrail, Place, SessionFault, When};
use rows::Answer::{Breaks, Finishes, Limit, Refuses, Steps};
use rows::Turns::{Back, Exactly};
use rows::{Row, check_rows};
use std::cell::Cell;
use values::values;

const LOAD_RULE: Row = Row::Program(
    (40, 0, 0, 12),
    1,
    &[
        (21, 0, 3, 2048),
        (48, 0, 0, 23),
        (21, 0, 1, 1),
        (6, 0, 0, 65535),
    ],
    (6, 0, 0, 0),
);

/// `ldh [12]`, 4094 times `add #1`, `ret a`.
const LOAD_LONG: Row = Row::Program((40, 0, 0, 12), 4094, &[(4, 0, 0, 1)], (22, 0, 0, 0));

/// 4095 times `tax`, and `ret #1`.
const LOAD_STRAIGHT: Row = Row::Program((7, 0, 0, 0), 4094, &[(7, 0, 0, 0)], (6, 0, 0, 1));

/// What a session shows, how it begins, and its further calls.
pub(crate) type Shown = (&'static str, &'static [Row], &'static [Row]);

const LOADED: &[Row] = &[LOAD_RULE, Row::Capture];

const WITH_TWO_BREAKPOINTS: &[Row] = &[
    LOAD_RULE,
    Row::Capture,
    Row::Break(1, When::Always, Ok(())),
    Row::Break(4, When::Always, Ok(())),
];

/// Runs, with conditions and limits.
const RUNS: &[Shown] = &[
    (
        "each hit once and in order, also from the start again",
        WITH_TWO_BREAKPOINTS,
        &[
            Row::Run(None, Breaks(1, 2, 1, 2054), Exactly(1)),
            Row::Run(None, Breaks(2, 2, 1, 2048), Exactly(3)),
            Row::Run(None, Breaks(2, 5, 4, 1), Exactly(3)),
            Row::Run(None, Finishes(1, 1, 0), Exactly(1)),
            Row::Mark(1, 0),
            Row::Run(None, Breaks(1, 2, 1, 2054), Exactly(1)),
            Row::Run(None, Breaks(2, 2, 1, 2048), Exactly(3)),
            Row::Run(None, Breaks(2, 5, 4, 1), Exactly(3)),
            Row::Run(None, Finishes(1, 1, 0), Exactly(1)),
            Row::Mark(1, 0),
        ],
    ),
    (
        "the list of stops, and a run to the end, which finds them",
        WITH_TWO_BREAKPOINTS,
        &[
            Row::Stops(&[(1, 2, 1, 2054), (2, 2, 1, 2048), (2, 5, 4, 1)]),
            Row::Mark(1, 0),
            Row::RunToEnd(
                &[(1, 2, 1, 2054), (2, 2, 1, 2048), (2, 5, 4, 1)],
                (1, 1, 0),
                Exactly(8),
            ),
            Row::Mark(1, 0),
            Row::Select(2, Ok(())),
            Row::RunToEnd(&[(2, 2, 1, 2048), (2, 5, 4, 1)], (1, 0, 0), Exactly(5)),
        ],
    ),
    (
        "a breakpoint that is taken out between",
        WITH_TWO_BREAKPOINTS,
        &[
            Row::Run(None, Breaks(1, 2, 1, 2054), Exactly(1)),
            Row::Delete(1, Ok(true)),
            Row::Run(None, Breaks(2, 5, 4, 1), Exactly(6)),
            Row::Delete(1, Ok(false)),
            Row::Breakpoints(&[(4, When::Always)]),
        ],
    ),
    (
        "breakpoints that there are not leave the others and the place",
        LOADED,
        &[
            Row::Break(3, When::Always, Ok(())),
            Row::Break(2, When::X(7), Ok(())),
            Row::Run(Some(1), Limit(0, 1, 0), Exactly(3)),
            Row::Break(6, When::Always, Err(SessionFault::NoInstruction)),
            Row::Break(4294967296, When::Always, Err(SessionFault::NoInstruction)),
            Row::Break(4294967297, When::A(1), Err(SessionFault::NoInstruction)),
            Row::Delete(18446744073709551615, Err(SessionFault::NoInstruction)),
            Row::Breakpoints(&[(3, When::Always), (2, When::X(7))]),
            Row::Mark(2, 0),
        ],
    ),
    (
        "the same hits and turns over the file in the other byte order",
        &[],
        &[
            LOAD_RULE,
            Row::SwappedCapture,
            Row::Break(1, When::Always, Ok(())),
            Row::Break(4, When::Always, Ok(())),
            Row::Run(None, Breaks(1, 2, 1, 2054), Exactly(1)),
            Row::Run(None, Breaks(2, 2, 1, 2048), Exactly(3)),
            Row::Run(None, Breaks(2, 5, 4, 1), Exactly(3)),
            Row::Run(None, Finishes(1, 1, 0), Exactly(1)),
            Row::Mark(1, 0),
        ],
    ),
    (
        "a condition on A, and one on X, which is 0 at each instruction",
        LOADED,
        &[
            Row::Break(1, When::A(2048), Ok(())),
            Row::Run(None, Breaks(2, 2, 1, 2048), Exactly(4)),
            Row::Run(None, Finishes(1, 1, 0), Exactly(4)),
            Row::Break(1, When::X(0), Ok(())),
            Row::Stops(&[(1, 2, 1, 2054), (2, 2, 1, 2048)]),
        ],
    ),
    (
        "limits",
        LOADED,
        &[
            Row::Run(Some(0), Refuses(SessionFault::ZeroCount), Exactly(0)),
            Row::Run(Some(1), Limit(0, 1, 0), Exactly(3)),
            Row::Mark(2, 0),
            Row::Run(Some(1), Finishes(1, 1, 0), Exactly(5)),
            Row::Run(Some(1), Limit(0, 1, 0), Exactly(3)),
            Row::Run(Some(18446744073709551615), Finishes(1, 1, 0), Exactly(5)),
        ],
    ),
];

const PLACES: &[Shown] = &[
    (
        "a saved place gives the rest, and counts from its packet",
        WITH_TWO_BREAKPOINTS,
        &[
            Row::Resume(2, 2, Ok(()), Exactly(2)),
            Row::Mark(2, 2),
            Row::Run(None, Breaks(2, 5, 4, 1), Exactly(3)),
            Row::Run(None, Finishes(1, 0, 0), Exactly(1)),
            Row::Select(2, Ok(())),
            Row::Mark(2, 0),
            Row::Run(None, Breaks(2, 2, 1, 2048), Exactly(1)),
            Row::Delete(4, Ok(true)),
            Row::Run(None, Finishes(1, 0, 0), Exactly(4)),
        ],
    ),
    (
        "the last place of a packet and the place before the next one have the same rest",
        LOADED,
        &[
            Row::Break(5, When::Always, Ok(())),
            Row::Break(0, When::Always, Ok(())),
            Row::Run(None, Breaks(1, 1, 0, 0), Exactly(0)),
            Row::Run(None, Breaks(1, 3, 5, 2054), Exactly(2)),
            Row::Mark(1, 3),
            Row::Resume(1, 3, Ok(()), Exactly(4)),
            Row::Run(None, Breaks(2, 1, 0, 0), Exactly(1)),
            Row::Resume(2, 0, Ok(()), Exactly(0)),
            Row::Run(None, Breaks(2, 1, 0, 0), Exactly(0)),
        ],
    ),
    (
        "places that there are not leave the place",
        LOADED,
        &[
            Row::Break(1, When::Always, Ok(())),
            Row::Run(None, Breaks(1, 2, 1, 2054), Exactly(1)),
            Row::Resume(3, 0, Err(SessionFault::NoPacket), Exactly(0)),
            Row::Resume(0, 0, Err(SessionFault::NoPacket), Exactly(0)),
            Row::Resume(2, 6, Err(SessionFault::NoStep(5)), Exactly(5)),
            Row::Resume(1, 4, Err(SessionFault::NoStep(3)), Exactly(3)),
            Row::Select(3, Err(SessionFault::NoPacket)),
            Row::Select(0, Err(SessionFault::NoPacket)),
            Row::Mark(1, 2),
            Row::Step(-1, Steps(1, 1, 0, 0), Back(0)),
        ],
    ),
    (
        "loads go to the start; a program takes the breakpoints with it",
        LOADED,
        &[
            Row::Break(1, When::Always, Ok(())),
            Row::Run(None, Breaks(1, 2, 1, 2054), Exactly(1)),
            Row::Capture,
            Row::Mark(1, 0),
            Row::Breakpoints(&[(1, When::Always)]),
            Row::Run(None, Breaks(1, 2, 1, 2054), Exactly(1)),
            LOAD_RULE,
            Row::Mark(1, 0),
            Row::Breakpoints(&[]),
            Row::Run(None, Finishes(1, 1, 0), Exactly(8)),
        ],
    ),
];

const STEPS: &[Shown] = &[
    (
        "steps both ways",
        WITH_TWO_BREAKPOINTS,
        &[
            Row::Run(None, Breaks(1, 2, 1, 2054), Exactly(1)),
            Row::Run(None, Breaks(2, 2, 1, 2048), Exactly(3)),
            Row::Run(None, Breaks(2, 5, 4, 1), Exactly(3)),
            Row::Step(-3, Steps(2, 2, 1, 2048), Back(1)),
            Row::Step(-2, Refuses(SessionFault::TooFarBack(1)), Exactly(0)),
            Row::Step(3, Steps(2, 5, 4, 1), Exactly(3)),
        ],
    ),
    (
        "steps over packets",
        LOADED,
        &[
            Row::Step(3, Steps(1, 3, 5, 2054), Exactly(2)),
            Row::Step(1, Steps(2, 1, 0, 0), Exactly(1)),
            Row::Select(1, Ok(())),
            Row::Step(8, Steps(2, 5, 4, 1), Exactly(7)),
            Row::Select(1, Ok(())),
            Row::Step(9, Finishes(1, 1, 0), Exactly(8)),
            Row::Mark(1, 0),
            Row::Run(Some(1), Limit(0, 1, 0), Exactly(3)),
            Row::Step(-1, Refuses(SessionFault::TooFarBack(0)), Exactly(0)),
            Row::Step(0, Refuses(SessionFault::ZeroCount), Exactly(0)),
            Row::Step(i64::MIN, Refuses(SessionFault::TooFarBack(0)), Exactly(0)),
            Row::Mark(2, 0),
        ],
    ),
    (
        "a packet of 4096 instructions",
        &[],
        &[
            LOAD_LONG,
            Row::Capture,
            Row::Break(4095, When::Always, Ok(())),
            Row::Break(100, When::Always, Ok(())),
            Row::Run(None, Breaks(1, 101, 100, 2153), Exactly(100)),
            Row::Resume(2, 4097, Err(SessionFault::NoStep(4096)), Exactly(4096)),
            Row::Step(-1, Steps(1, 100, 99, 2152), Back(35)),
            Row::Delete(100, Ok(true)),
            Row::Run(None, Breaks(1, 4096, 4095, 6148), Exactly(3996)),
            Row::Step(-1, Steps(1, 4095, 4094, 6147), Back(62)),
            Row::Step(-4031, Steps(1, 64, 63, 2116), Back(63)),
            Row::Step(1, Steps(1, 65, 64, 2117), Exactly(1)),
            Row::Step(-1, Steps(1, 64, 63, 2116), Back(63)),
            Row::Step(-63, Steps(1, 1, 0, 0), Back(0)),
            Row::Resume(1, 2, Ok(()), Exactly(2)),
            Row::Resume(1, 0, Ok(()), Exactly(0)),
            Row::Delete(4095, Ok(true)),
            Row::Run(None, Finishes(2, 0, 0), Exactly(8192)),
        ],
    ),
    (
        "4095 times `tax` and a return, back from its end and onto entry 64, and without the breakpoint",
        &[],
        &[
            LOAD_STRAIGHT,
            Row::Capture,
            Row::Break(4095, When::Always, Ok(())),
            Row::Run(None, Breaks(1, 4096, 4095, 0), Exactly(4095)),
            Row::Step(-1, Steps(1, 4095, 4094, 0), Back(62)),
            Row::Step(-4031, Steps(1, 64, 63, 0), Back(63)),
            Row::Step(1, Steps(1, 65, 64, 0), Exactly(1)),
            Row::Step(-1, Steps(1, 64, 63, 0), Back(63)),
            Row::Step(-63, Steps(1, 1, 0, 0), Back(0)),
            LOAD_STRAIGHT,
            Row::Run(None, Finishes(2, 0, 0), Exactly(8192)),
        ],
    ),
];

/// The calls of a session, over each trail, and over one of an outsider.
fn check_session(rt: &impl Test, session: &Shown) {
    check_rows(rt, MarkTrail::new(), false, session);
    let all = ListTrail::new(rt.alloc()).expect(rt, "memory");
    check_rows(rt, all, true, session);
    let given = Cell::new(0u64);
    check_rows(rt, counting_trail(rt, &given), true, session);
}

const LATE_IN_1: Place = Place {
    packet: 1,
    step: 4096,
};

const BEFORE_2: Place = Place { packet: 2, step: 0 };

fn places_are_in_order() -> bool {
    LATE_IN_1 < BEFORE_2
        && Place { packet: 2, step: 1 } < Place { packet: 2, step: 2 }
        && !(BEFORE_2 < LATE_IN_1)
}

fn check_sessions(rt: &impl Test, sessions: &[Shown]) {
    for session in sessions {
        check_session(rt, session);
    }
}

// Each table by a call, so that proofs do not carry all rows.
fn runs() -> &'static [Shown] {
    RUNS
}

fn places() -> &'static [Shown] {
    PLACES
}

fn steps() -> &'static [Shown] {
    STEPS
}

#[test]
fn sessions_over_two_packets(rt: HostRuntime) {
    check_sessions(&rt, runs());
    check_sessions(&rt, places());
    check_sessions(&rt, steps());
    check_sessions(&rt, values());
    assert!(rt; places_are_in_order());
}
