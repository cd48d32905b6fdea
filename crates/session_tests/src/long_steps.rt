//! A long step goes over whole packets without keeping their entries, which no clause says. It is counted, as time
//! would depend on the machine.

use crate::assertions::Test;
use crate::inputs::{HEADER, RECORD, STRAIGHT, program_of};
use crate::outsiders::counting_trail;
use cbpf_dbg::{Meter, Place, RunReply, Session, Trail};
use pcap_classic::Capture;
use std::cell::Cell;

/// Steps 60,000 entries ahead over packets of 21 entries: the place.
fn step<T: Trail>(rt: &impl Test, trail: T) -> Option<Place> {
    let mut session = Session::new(rt.alloc(), trail);
    session.load_program(program_of(rt.alloc(), STRAIGHT).expect(rt, "the program"));
    let mut bytes = Vec::from_slice(rt.alloc(), HEADER).expect(rt, "memory");
    for _ in 0..3000 {
        bytes.extend_from_slice(RECORD).expect(rt, "memory");
    }
    let capture = Capture::from_bytes(rt.alloc(), bytes).ok();
    session.load_capture(capture.expect(rt, "the capture"));
    match session.step(&mut Meter::new(), 60_000) {
        Ok(RunReply::Stopped(stop)) => Some(stop.place),
        _ => None,
    }
}

/// A step over thousands of packets keeps few entries.
#[test]
fn a_step_over_thousands_of_packets_keeps_few_entries(rt: HostRuntime) {
    let given = Cell::new(0u64);
    let trail = counting_trail(&rt, &given);
    let place = Place {
        packet: 2858,
        step: 3,
    };
    assert!(rt; step(&rt, trail) == Some(place));
    assert!(rt; 0 < given.get() && given.get() < 100);
}
