//! Random lists of calls of a session, beside a model that is written from the definitions.

mod answers;
mod calls;
mod choices;
mod loads;
mod model;
mod random;

use crate::assertions::{Test, assert_named};
use answers::{answer, mark, stops, turns};
use calls::{Call, make_call};
use cbpf_dbg::{ListTrail, MarkTrail, Meter, Place, Session, SessionFault, Stop, Trail};
use choices::{EXTENSIONS, choose};
use model::Model;
use random::Random;

/// How many lists of calls each trail gets.
const LISTS: u64 = 40;

/// How many calls a list has.
const CALLS: u32 = 400;

fn agrees_on_place<T: Trail>(s: &Session<T>, m: &Model) -> bool {
    s.mark() == mark(m) && s.place() == m.place
}

fn agrees_on_breakpoints<T: Trail>(s: &Session<T>, m: &Model) -> bool {
    for (i, (n, when)) in m.breakpoints.iter().enumerate() {
        if s.breakpoint_at(i) != Some(*n) || s.breakpoint_when_at(i) != Some(*when) {
            return false;
        }
    }
    s.breakpoint_count() == m.breakpoints.len()
}

fn agrees_on_values<T: Trail>(s: &Session<T>, m: &Model) -> bool {
    for e in &EXTENSIONS {
        if s.value_of(*e) != m.value_of(*e) {
            return false;
        }
    }
    true
}

/// The stops of the session's list.
fn listed<T: Trail>(rt: &impl Test, s: &Session<T>) -> Result<Vec<Stop>, SessionFault> {
    let mut found = Vec::new(rt.alloc());
    for stop in s.stops()? {
        found.push(stop).expect(rt, "memory");
    }
    Ok(found)
}

fn agrees_on_stops<T: Trail>(rt: &impl Test, s: &Session<T>, m: &Model) -> bool {
    match (listed(rt, s), stops(rt, m)) {
        (Ok(found), Ok(wanted)) => found.as_slice() == wanted.as_slice(),
        (Err(found), Err(wanted)) => found == wanted,
        _ => false,
    }
}

/// Asserts that a session agrees with the model about all that it can be asked.
fn check_agrees<T: Trail>(rt: &impl Test, s: &Session<T>, m: &Model, at: (u64, u32, Call)) {
    assert_named(rt, agrees_on_place(s, m), "the place", at);
    assert_named(rt, agrees_on_breakpoints(s, m), "the breakpoints", at);
    assert_named(rt, agrees_on_values(s, m), "the values", at);
    assert_named(rt, agrees_on_stops(rt, s, m), "the stops", at);
}

/// Makes a call, and asserts that the session answers what the model answers, in exactly as many turns.
fn check_call<T: Trail>(
    rt: &impl Test,
    s: &mut Session<T>,
    m: &mut Model,
    keeps_all: bool,
    at: (u64, u32, Call),
) {
    let (_, _, call) = at;
    let from = m.place;
    let mut meter = Meter::new();
    let reply = make_call(rt, s, &mut meter, call);
    assert_named(rt, reply == answer(rt, m, call), "the reply", at);
    let wanted = turns(m, from, call, reply, keeps_all);
    assert_named(rt, meter.spent() == wanted, "the turns", at);
}

/// Makes the calls of one list. Each place that the session comes to is saved for later calls.
fn check_calls<T: Trail>(rt: &impl Test, s: &mut Session<T>, keeps_all: bool, list: u64) {
    let mut m = Model::new(rt);
    let mut random = Random::new(list);
    let mut saved: Vec<Place> = Vec::new(rt.alloc());
    for n in 0..CALLS {
        let at = (list, n, choose(&mut random, &m, &saved));
        check_call(rt, s, &mut m, keeps_all, at);
        check_agrees(rt, s, &m, at);
        saved.push(m.place).expect(rt, "memory");
    }
}

/// Makes a list of calls in a session of its own, over this trail.
fn check_list<T: Trail>(rt: &impl Test, trail: T, keeps_all: bool, list: u64) {
    let mut s = Session::new(rt.alloc(), trail);
    check_calls(rt, &mut s, keeps_all, list);
}

#[test]
fn random_calls_where_each_64th_state_is_kept(rt: HostRuntime) {
    for list in 0..LISTS {
        check_list(&rt, MarkTrail::new(), false, list);
    }
}

#[test]
fn random_calls_where_all_states_are_kept(rt: HostRuntime) {
    for list in 0..LISTS {
        let trail = ListTrail::new(rt.alloc()).expect(&rt, "memory");
        check_list(&rt, trail, true, list);
    }
}
