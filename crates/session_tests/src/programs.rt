//! Programs by the numbers of their instructions, and captures by their bytes.

use crate::assertions::Test;
use cbpf_code::{Insn, Program, check};
use cbpf_machine::{Meter, Packet, State, Turn, Values, turn};
use pcap_classic::Capture;
use std::process::Abort;

/// Code, jt, jf and k of an instruction.
pub type Code = (u16, u8, u8, u32);

pub fn program_of(rt: &impl Test, list: &[Code]) -> Program {
    let mut all = Vec::new(rt.alloc());
    for (code, jt, jf, k) in list {
        let insn = Insn {
            code: *code,
            jt: *jt,
            jf: *jf,
            k: *k,
        };
        all.push(insn).expect(rt, "memory");
    }
    check(all).ok().expect(rt, "a program")
}

/// The state after a turn that does not end the packet, which has no bytes.
pub fn next_state(rt: &impl Abort, p: &Program, meter: &mut Meter, s: &State) -> State {
    let packet = Packet {
        bytes: b"",
        wire: 0,
    };
    assert!(rt; s.pc() < p.len() && meter.spent() < 5);
    match turn(meter, p, packet, &Values::new(), s) {
        Turn::Next(next) => next,
        _ => panic!(rt; "the packet ends"),
    }
}

/// The capture of a file's bytes.
pub fn capture(rt: &impl Test, file: &[u8]) -> Capture {
    let bytes = Vec::from_slice(rt.alloc(), file).expect(rt, "memory");
    Capture::new(rt.alloc(), bytes).ok().expect(rt, "a capture")
}
