//! The example `keep`, over a session that stops in each of two packets.

use crate::programs::{Code, program_of};
use crate::two_packets;
use cbpf_dbg::{Capture, MarkTrail, Session};
use keep::{go_back_to_first, keep_all};

const ARP: [Code; 4] = [
    (40, 0, 0, 12),
    (21, 0, 1, 2054),
    (6, 0, 0, 4294967295),
    (6, 0, 0, 0),
];

#[test]
fn stops_that_are_kept(rt: HostRuntime) {
    let mut session = Session::new(rt.alloc(), MarkTrail::new());
    let file = Vec::from_slice(rt.alloc(), two_packets::little_endian()).expect(&rt, "memory");
    session.load_program(program_of(&rt, &ARP));
    session.load_capture(Capture::new(rt.alloc(), file).ok().expect(&rt, "a capture"));
    session.breakpoint(1).ok().expect(&rt, "a breakpoint");
    let kept = keep_all(rt.alloc(), &mut session).ok().expect(&rt, "stops");
    let again = go_back_to_first(&mut session, &kept)
        .ok()
        .expect(&rt, "a stop");
    assert!(rt; kept.len() == 2 && again == kept.first().copied());
}
