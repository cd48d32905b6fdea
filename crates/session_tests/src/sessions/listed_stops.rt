//! The stops of a session's list beside those that its runs come to.

use super::rows::{capture, program};
use crate::assertions::Test;
use cbpf_dbg::{MarkTrail, Meter, RunReply, Session};
use std::process::Abort;

/// A session that stops twice in each of the two packets.
fn session_with_stops(rt: &impl Test) -> Session<MarkTrail> {
    let mut s = Session::new(rt.alloc(), MarkTrail::new());
    let p = program(rt, (40, 0, 0, 12), 3, &[(4, 0, 0, 1)], (22, 0, 0, 0));
    s.load_program(p);
    s.load_capture(capture(rt));
    assert!(rt; s.breakpoint(1) == Ok(()) && s.breakpoint(4) == Ok(()));
    s
}

/// The dumps of the stops of the list.
fn listed(rt: &impl Test, s: &Session<MarkTrail>) -> Vec<u8> {
    let mut text = Vec::new(rt.alloc());
    for stop in s.stops().ok().expect(rt, "stops") {
        assert!(rt; s.write_stop(&mut text, &stop).is_ok());
    }
    text
}

/// The dump of the stop of a run.
fn dump_next(rt: &impl Abort, s: &mut Session<MarkTrail>, text: &mut Vec<u8>) {
    match s.run(&mut Meter::new(), None) {
        Ok(RunReply::Stopped(stop)) => assert!(rt; s.write_stop(text, &stop).is_ok()),
        _ => panic!(rt; "no stop"),
    }
}

/// The dumps of the stops of four runs.
fn met(rt: &impl Test, s: &mut Session<MarkTrail>) -> Vec<u8> {
    let mut text = Vec::new(rt.alloc());
    for _ in 0..4 {
        dump_next(rt, s, &mut text);
    }
    text
}

/// From the first stop to the last byte of the last one.
fn is_whole(dumps: &[u8]) -> bool {
    dumps.starts_with(b"-- packet 1, step 2 --\n") && dumps.ends_with(b" 00 00\n(breakpoint)\n")
}

/// Both the stops of the list and those of runs can be written as they are, with nothing to test.
#[test]
fn runs_show_the_stops_of_the_list(rt: HostRuntime) {
    let mut s = session_with_stops(&rt);
    let listed = listed(&rt, &s);
    let met = met(&rt, &mut s);
    assert!(rt; listed.as_slice() == met.as_slice() && is_whole(&listed));
}

/// A session that goes back to a stop shows it again. Before a packet there is none.
#[test]
fn each_stop_is_there_again(rt: HostRuntime) {
    let mut s = session_with_stops(&rt);
    let mut stops = Vec::new(rt.alloc());
    let whole = s.run_to_end(&mut Meter::new(), &mut stops).is_ok();
    assert!(rt; whole && stops.len() == 4 && s.here() == None);
    for stop in &stops {
        assert!(rt; s.resume(&mut Meter::new(), stop.place) == Ok(()) && s.here() == Some(*stop));
    }
}
