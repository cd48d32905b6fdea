//! Dumps of stops, byte for byte.

use crate::assertions::{Test, assert_at};
use crate::inputs::program_of;
use cbpf_code::{Ext, Program};
use cbpf_machine::{Meter, Packet, State, Turn, Values, turn};
use cbpf_reply::{Place, Stop, Why, write_stop};
use std::process::Abort;

/// The state in a packet after some turns.
fn state_after(rt: &impl Abort, p: &Program, packet: Packet<'_>, turns: u32) -> State {
    let values = Values::new();
    let mut state = State::zero();
    for _ in 0..turns {
        assert!(rt; state.pc() < p.len());
        match turn(&mut Meter::new(), p, packet, &values, &state) {
            Turn::Next(next) => state = next,
            _ => panic!(rt; "the packet ends before"),
        }
    }
    state
}

fn written(rt: &impl Test, p: &Program, stop: &Stop, packet: Packet<'_>) -> Vec<u8> {
    assert!(rt; stop.state.pc() < p.len());
    let mut text = Vec::new(rt.alloc());
    write_stop(&mut text, p, stop, packet.bytes, packet.wire)
        .ok()
        .expect(rt, "a dump");
    text
}

/// The dump of the stop in a packet of this number after some turns.
fn dump(rt: &impl Test, words: &[u8], packet: (u64, Packet<'_>), turns: u32, why: Why) -> Vec<u8> {
    let (number, packet) = packet;
    let p = program_of(rt.alloc(), words).expect(rt, "a program");
    let place = Place {
        packet: number,
        step: turns.saturating_add(1),
    };
    let state = state_after(rt, &p, packet, turns);
    written(rt, &p, &Stop { place, state, why }, packet)
}

/// 20 instructions that store many values, and load two registers.
const SLOTS: &[u8] = b"20,0 0 0 7,2 0 0 0,2 0 0 1,2 0 0 3,2 0 0 4,2 0 0 5,0 0 0 1,2 0 0 9,\
0 0 0 10,2 0 0 10,2 0 0 11,2 0 0 12,0 0 0 2748,2 0 0 13,2 0 0 14,2 0 0 15,\
1 0 0 4026531840,0 0 0 4294967295,32 0 0 4294963256,22 0 0 0";

/// A scratch line is the longest run of neighbouring slots of equal value, and a run of one has one index.
#[test]
fn slots_are_shown_as_longest_runs(rt: HostRuntime) {
    let packet = Packet {
        bytes: b"",
        wire: 4294967295,
    };
    let text = dump(
        &rt,
        SLOTS,
        (18446744073709551615, packet),
        18,
        Why::Unknown(Ext::Rand),
    );
    let wanted = b"-- packet 18446744073709551615, step 19 --\n\
-- register dump --\n\
pc:       [18]\n\
code:     [32] jt[0] jf[0] k[4294963256]\n\
curr:     l18:\tld rand\n\
A:        [ffffffff][4294967295]\n\
X:        [f0000000][4026531840]\n\
M[0,1]:   [00000007][7]\n\
M[2]:     [00000000][0]\n\
M[3,5]:   [00000007][7]\n\
M[6,8]:   [00000000][0]\n\
M[9]:     [00000001][1]\n\
M[10,12]: [0000000a][10]\n\
M[13,15]: [00000abc][2748]\n\
-- packet dump --\n\
len: 0 wire: 4294967295\n\
(extension rand)\n";
    assert!(rt; text.as_slice() == wanted.as_slice());
}

/// A seventeenth byte has a line of its own.
#[test]
fn a_seventeenth_byte_has_a_row_of_its_own(rt: HostRuntime) {
    let bytes = b"\x00\x01\x09\x0a\x0f\x10\x1f\x7f\x80\x99\x9a\xa0\xaf\xf0\xfe\xff\xc3";
    let packet = Packet { bytes, wire: 42 };
    let text = dump(&rt, b"1,6 255 9 1", (1, packet), 0, Why::Break);
    let wanted = b"-- packet 1, step 1 --\n\
-- register dump --\n\
pc:       [0]\n\
code:     [6] jt[255] jf[9] k[1]\n\
curr:     l0:\tret #0x1\n\
A:        [00000000][0]\n\
X:        [00000000][0]\n\
M[0,15]:  [00000000][0]\n\
-- packet dump --\n\
len: 17 wire: 42\n    0: 00 01 09 0a 0f 10 1f 7f 80 99 9a a0 af f0 fe ff\n   16: c3\n\
(breakpoint)\n";
    assert!(rt; text.as_slice() == wanted.as_slice());
}

/// The dump of a packet that has so many bytes of 0, and then the bytes 2a and 00.
fn dump_after_zeros(rt: &impl Test, zeros: usize) -> Vec<u8> {
    let mut bytes = vec![in rt.alloc(); 0u8; zeros].expect(rt, "memory");
    bytes.extend_from_slice(b"\x2a\x00").expect(rt, "memory");
    let packet = Packet {
        bytes: &bytes,
        wire: 42,
    };
    dump(rt, b"1,6 0 0 1", (1, packet), 0, Why::Break)
}

/// How many bytes of 0 there are, and how the dump ends.
static OFFSETS: [(usize, &[u8]); 4] = [
    (0, b"\n    0: 2a 00\n(breakpoint)\n"),
    (9984, b"\n 9984: 2a 00\n(breakpoint)\n"),
    (99984, b"\n99984: 2a 00\n(breakpoint)\n"),
    (100000, b"\n100000: 2a 00\n(breakpoint)\n"),
];

/// The offset of a line is right in 5 places, and wider from 100000 on.
#[test]
fn offsets_are_right_in_five_places(rt: HostRuntime) {
    for (zeros, end) in &OFFSETS {
        let text = dump_after_zeros(&rt, *zeros);
        assert_at(&rt, *zeros, text.ends_with(end));
    }
}
