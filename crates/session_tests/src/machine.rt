//! The effect of each instruction, by packets and values from elsewhere.

use crate::assertions::{Test, assert_at};
use crate::inputs::program_of as of_words;
use crate::programs::{next_state, program_of};
use cbpf_code::{Ext, Insn, Program};
use cbpf_machine::Outcome::{Fail, Pass, Unknown};
use cbpf_machine::{Meter, Outcome, Packet, State, Values, missing_extension, run_packet};
use std::process::Abort;

/// How a packet ends.
fn outcome(p: &Program, packet: Packet<'_>, values: &Values) -> Outcome {
    run_packet(&mut Meter::new(), p, packet, values)
}

const NEGATE: &[u8] = b"3,0 0 0 1,132 0 0 0,22 0 0 0";

const SQUARE: &[u8] = b"3,0 0 0 65536,36 0 0 65536,22 0 0 0";

const SHIFT_BY_31: &[u8] = b"4,0 0 0 1,1 0 0 31,108 0 0 0,22 0 0 0";

const SHIFT_BY_32: &[u8] = b"4,0 0 0 1,1 0 0 32,108 0 0 0,22 0 0 0";

const HEADER_LENGTH: &[u8] = b"3,177 0 0 0,135 0 0 0,22 0 0 0";

const BYTE_AFTER_7: &[u8] = b"3,0 0 0 7,48 0 0 0,22 0 0 0";

// Three programs like those of lib/test_bpf.c of the Linux kernel; the values were worked out by hand.
const ADD_SUB_MUL: &[u8] = b"7,0 0 0 1,4 0 0 2,1 0 0 3,28 0 0 0,4 0 0 4294967295,36 0 0 3,22 0 0 0";

const AND_OR_LSH: &[u8] =
    b"8,0 0 0 255,84 0 0 240,100 0 0 27,7 0 0 0,0 0 0 15,68 0 0 240,12 0 0 0,22 0 0 0";

const INDEXED: &[u8] =
    b"11,0 0 0 1,7 0 0 0,0 0 0 2,12 0 0 0,132 0 0 0,7 0 0 0,128 0 0 0,12 0 0 0,7 0 0 0,80 0 0 1,22 0 0 0";

/// Byte 1 of the packet: the index register and an extension's number, modulo 2 to the 32.
const INDEXED_BY_AN_EXTENSION: &[u8] = b"3,1 0 0 4041,80 0 0 4294963256,22 0 0 0";

/// Programs as word text, a packet's bytes and original length, and how the packet ends.
static WORKED: [(&[u8], &[u8], u32, Outcome); 19] = [
    (NEGATE, b"", 0, Pass(4294967295)),
    (SQUARE, b"\x08\x06", 60, Fail),
    (SHIFT_BY_32, b"\x08\x06", 60, Fail),
    (SHIFT_BY_31, b"", 0, Pass(2147483648)),
    (HEADER_LENGTH, b"\x4f", 1, Pass(60)),
    (HEADER_LENGTH, b"", 0, Fail),
    (b"2,40 0 0 0,22 0 0 0", b"\x08\x06", 2, Pass(2054)),
    (b"2,40 0 0 1,22 0 0 0", b"\x08\x06", 2, Fail),
    (b"2,40 0 0 4294963199,22 0 0 0", b"\x08\x06", 2, Fail),
    // Nothing was captured of a packet of 60 bytes.
    (BYTE_AFTER_7, b"", 60, Fail),
    (b"2,128 0 0 0,22 0 0 0", b"", 60, Pass(60)),
    (ADD_SUB_MUL, b"", 0, Pass(0xfffffffd)),
    (AND_OR_LSH, b"", 0, Pass(0x800000ff)),
    (INDEXED, &[10, 20, 30, 40, 50], 2, Pass(10)),
    (INDEXED, &[10, 20, 30, 40, 50], 3, Pass(20)),
    (INDEXED, &[10, 20, 30, 40, 50], 4, Pass(30)),
    // An indexed load at an extension's number goes into the packet, and asks for nothing.
    (INDEXED_BY_AN_EXTENSION, &[10, 20, 30], 3, Pass(20)),
    (INDEXED_BY_AN_EXTENSION, &[10], 1, Fail),
    (b"2,64 0 0 4294963256,22 0 0 0", b"\x08\x06", 2, Fail),
];

fn outcome_of(rt: &impl Test, words: &[u8], packet: Packet<'_>) -> Outcome {
    let p = of_words(rt.alloc(), words).expect(rt, "a program");
    outcome(&p, packet, &Values::new())
}

#[test]
fn worked_programs(rt: HostRuntime) {
    for (i, (words, bytes, wire, wanted)) in WORKED.iter().enumerate() {
        let packet = Packet { bytes, wire: *wire };
        assert_at(&rt, i, outcome_of(&rt, words, packet) == *wanted);
    }
}

const REGISTERS_AND_A_SLOT: &[u8] =
    b"7,1 0 0 9,3 0 0 5,97 0 0 5,135 0 0 0,53 0 1 10,6 0 0 0,22 0 0 0";

/// Where its turns lead, and A, X and slot 5 there.
static TURNS: [(u32, u32, u32, u32); 5] = [
    (1, 0, 9, 0),
    (2, 0, 9, 9),
    (3, 0, 9, 9),
    (4, 9, 9, 9),
    (6, 9, 9, 9),
];

fn is_at(s: &State, (pc, a, x, slot): (u32, u32, u32, u32)) -> bool {
    (s.pc(), s.a(), s.x(), s.slot(5)) == (pc, a, x, slot) && s.slot(4) == 0
}

#[test]
fn turns_one_by_one(rt: HostRuntime) {
    let p = of_words(rt.alloc(), REGISTERS_AND_A_SLOT).expect(&rt, "a program");
    let mut meter = Meter::new();
    let mut s = State::zero();
    for (i, row) in TURNS.iter().enumerate() {
        s = next_state(&rt, &p, &mut meter, &s);
        assert_at(&rt, i, is_at(&s, *row));
    }
    assert!(rt; meter.spent() == 5);
}

/// Each extension, the place from which a load asks for it, and a value for it, where it takes one.
static EXTENSIONS: [(Ext, u32, Option<u32>); 15] = [
    (Ext::Proto, 4294963200, Some(4294967295)),
    (Ext::PktType, 4294963204, Some(2147483648)),
    (Ext::IfIdx, 4294963208, Some(65536)),
    (Ext::Nla, 4294963212, None),
    (Ext::NlaN, 4294963216, None),
    (Ext::Mark, 4294963220, Some(3735928559)),
    (Ext::Queue, 4294963224, Some(256)),
    (Ext::HaType, 4294963228, Some(16777217)),
    (Ext::RxHash, 4294963232, Some(2863311530)),
    (Ext::Cpu, 4294963236, Some(1)),
    (Ext::VlanTci, 4294963244, Some(65535)),
    (Ext::VlanAvail, 4294963248, Some(4278190080)),
    (Ext::PayOff, 4294963252, None),
    (Ext::Rand, 4294963256, None),
    (Ext::VlanTpid, 4294963260, Some(34984)),
];

/// What loads from an extension's place ask for, and how they end.
fn asked_and_outcome(values: &Values, e: Ext) -> (Option<Ext>, Outcome) {
    match values.value_of(e) {
        None => (Some(e), Unknown(e)),
        Some(0) => (None, Fail),
        Some(n) => (None, Pass(n)),
    }
}

/// How a packet of 60 bytes ends, of which a load from a place is returned.
fn loaded(rt: &impl Test, values: &Values, code: u16, place: u32) -> Outcome {
    let list = [(code, 0, 0, place), (22, 0, 0, 0)];
    let packet = Packet {
        bytes: &[7; 60],
        wire: 60,
    };
    outcome(&program_of(rt, &list), packet, values)
}

/// What a load from a place asks for.
fn asked(values: &Values, code: u16, k: u32) -> Option<Ext> {
    let load = Insn {
        code,
        jt: 0,
        jf: 0,
        k,
    };
    missing_extension(load, values)
}

/// Whether a load from an extension's place asks for what it is to ask for, and ends so.
fn load_is_so(rt: &impl Test, values: &Values, code: u16, e: Ext, place: u32) -> bool {
    let (ext, wanted) = asked_and_outcome(values, e);
    asked(values, code, place) == ext && loaded(rt, values, code, place) == wanted
}

/// Whether loads from an extension's place do, whatever their size: all bits of a value are loaded.
fn loads_so(rt: &impl Test, values: &Values, e: Ext, place: u32) -> bool {
    load_is_so(rt, values, 32, e, place)
        && load_is_so(rt, values, 40, e, place)
        && load_is_so(rt, values, 48, e, place)
}

fn assert_loads_without_values(rt: &impl Test) {
    let none = Values::new();
    for (e, place, _) in &EXTENSIONS {
        let is_wanted = none.value_of(*e).is_none() && loads_so(rt, &none, *e, *place);
        assert_at(rt, *place as usize, is_wanted);
    }
}

/// Values for all extensions that take one.
fn all_values(rt: &impl Abort) -> Values {
    let mut values = Values::new();
    for (e, place, value) in &EXTENSIONS {
        let had_none = values.value_of(*e).is_none();
        let is_set = values.set(*e, value.unwrap_or(1));
        let is_wanted = had_none && is_set == value.is_some();
        assert_at(rt, *place as usize, is_wanted);
    }
    values
}

fn assert_loads_with_values(rt: &impl Test, values: &Values) {
    for (e, place, value) in &EXTENSIONS {
        let is_wanted = values.value_of(*e) == *value && loads_so(rt, values, *e, *place);
        assert_at(rt, *place as usize, is_wanted);
    }
}

/// 0 is a value too, and takes the place of another.
fn loads_0(rt: &impl Test, values: &mut Values) -> bool {
    values.set(Ext::Mark, 0)
        && values.value_of(Ext::Mark) == Some(0)
        && loads_so(rt, values, Ext::Mark, 4294963220)
}

/// Nothing but an absolute load from the place of an extension asks for one.
fn others_ask_for_none() -> bool {
    let none = Values::new();
    asked(&none, 64, 4294963256).is_none()
        && asked(&none, 177, 4294963256).is_none()
        && asked(&none, 33, 4294963256).is_none()
        && asked(&none, 32, 4294963240).is_none()
}

/// A load at the place of rand asks for rand, of a word as of a half word and a byte.
/// A load at X + k never asks for an extension, also where the sum is its number and it has a value.
/// Nla, nlan, poff and rand take no value, and the other eleven take one.
#[test]
fn extensions_without_and_with_values(rt: HostRuntime) {
    assert_loads_without_values(&rt);
    let mut values = all_values(&rt);
    assert_loads_with_values(&rt, &values);
    assert!(rt; loads_0(&rt, &mut values) && others_ask_for_none());
}

fn is_packet(packet: Packet<'_>, bytes: &[u8], wire: u32) -> bool {
    packet == Packet { bytes, wire }
}

#[test]
fn packets_are_equal_by_their_bytes_and_their_length(rt: HostRuntime) {
    let packet = Packet {
        bytes: &[7, 8],
        wire: 60,
    };
    assert!(rt; is_packet(packet, b"\x07\x08", 60));
    let is_other = is_packet(packet, b"\x07\x08", 61)
        || is_packet(packet, b"\x07\x09", 60)
        || is_packet(packet, b"\x07", 60);
    assert!(rt; !is_other);
}
