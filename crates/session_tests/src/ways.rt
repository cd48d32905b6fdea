//! How packets go through programs, and how often each instruction runs.

ghost use Rattle.std.specs.Prelude.{◌≡◌};

use crate::assertions::{Test, assert_at};
use crate::inputs::program_of;
use cbpf_code::{Ext, Program};
use cbpf_machine::{
    Choice, End, Meter, Packet, PacketEnd, Runs, State, Tally, Task, Turn, Values, decided_end,
    end_of_packet, run_packet, turn,
};
use std::alloc::Allocator;

/// An instruction's number, with A and X before it.
type Place = (u32, u32, u32);

/// A conditional jump's number, and whether its comparison held.
type Decision = (u32, bool);

/// A program as word text, a packet's bytes, its last place, why it ends there, and its last conditional jump.
type Row = (&'static [u8], &'static [u8], Place, End, Option<Decision>);

static ROWS: [Row; 10] = [
    (b"1,6 0 0 7", b"", (0, 0, 0), End::Returned(7), None),
    (b"1,6 0 0 0", b"", (0, 0, 0), End::Returned(0), None),
    (
        b"2,40 0 0 1,22 0 0 0",
        b"\x08\x06",
        (0, 0, 0),
        End::Outside,
        None,
    ),
    // Byte 1 of the packet, at X.
    (
        b"5,1 0 0 1,80 0 0 0,21 0 0 6,80 0 0 1,22 0 0 0",
        b"\x08\x06",
        (3, 6, 1),
        End::Outside,
        Some((2, true)),
    ),
    // `ld #9`, `jeq #9`, `div x`
    (
        b"4,0 0 0 9,21 0 1 9,60 0 0 0,22 0 0 0",
        b"",
        (2, 9, 0),
        End::ZeroDivisor,
        Some((1, true)),
    ),
    // `jge #5`, `ld mark`
    (
        b"3,53 0 0 5,32 0 0 4294963220,22 0 0 0",
        b"",
        (1, 0, 0),
        End::Unknown(Ext::Mark),
        Some((0, false)),
    ),
    // A is another after the jump, `jgt x`.
    (
        b"5,1 0 0 3,0 0 0 7,45 0 0 0,0 0 0 1,22 0 0 0",
        b"",
        (4, 1, 3),
        End::Returned(1),
        Some((2, true)),
    ),
    // The last of two, and then `ja`.
    (
        b"6,0 0 0 1,69 0 0 1,21 0 0 2,5 0 0 1,6 0 0 9,6 0 0 0",
        b"",
        (5, 1, 0),
        End::Returned(0),
        Some((2, false)),
    ),
    // The jump that skips another.
    (
        b"5,21 1 0 0,21 0 0 0,5 0 0 0,0 0 0 8,22 0 0 0",
        b"",
        (4, 8, 0),
        End::Returned(8),
        Some((0, true)),
    ),
    // `ja` alone.
    (b"2,5 0 0 0,6 0 0 5", b"", (1, 0, 0), End::Returned(5), None),
];

/// Whether a packet's end is that of a row.
fn ends_so(end: &PacketEnd, last: Place, reason: End) -> bool {
    let s = end.last;
    (s.pc(), s.a(), s.x()) == last && end.reason == reason
}

/// A program, a packet and values as one.
fn task<'a, A: Allocator>(
    program: &'a Program<A>,
    packet: Packet<'a>,
    values: &'a Values,
) -> Task<'a, A>
    ensures { result.program.now ≡ program.now }
{
    Task {
        program,
        packet,
        values,
    }
}

/// The last conditional jump of a packet, turn by turn.
fn last_choice<A: Allocator>(rt: &impl Test, task: &Task<'_, A>) -> Option<Choice> {
    let mut meter = Meter::new();
    let mut s = State::zero();
    let mut last = None;
    for _ in 0..task.program.len() {
        assert!(rt; s.pc() < task.program.len() && meter.spent() < 100);
        last = Choice::at(task.program, &s).or(last);
        match turn(&mut meter, task.program, task.packet, task.values, &s) {
            Turn::Next(next) => s = next,
            _ => return last,
        }
    }
    last
}

/// Whether all calls say so of a packet.
fn all_say_so<A: Allocator>(rt: &impl Test, p: &Program<A>, row: &Row) -> bool {
    let (_, bytes, last, reason, choice) = *row;
    let packet = Packet { bytes, wire: 60 };
    let values = Values::new();
    let task = task(p, packet, &values);
    let decided = decided_end::<A, 4>(&mut Meter::new(), &task);
    let end = end_of_packet(&mut Meter::new(), &task);
    let mut tally = Tally::new(rt.alloc(), p).expect(rt, "the tally");
    let counted = tally.count_packet(&mut Meter::new(), &task);
    let outcome = run_packet(&mut Meter::new(), p, packet, &values);
    ends_so(&end, last, reason)
        && decided.end == end
        && decided.choice.map(|c| (c.pc, c.taken)) == choice
        && last_choice(rt, &task) == decided.choice
        && counted == end
        && end.outcome() == outcome
}

#[test]
fn ways_of_packets(rt: HostRuntime) {
    for (i, row) in ROWS.iter().enumerate() {
        let p = program_of(rt.alloc(), row.0).expect(&rt, "a program");
        assert_at(&rt, i, all_say_so(&rt, &p, row));
    }
}

/// `ip proto 17`: the type at byte 12, then the protocol at byte 23.
const IP_PROTO_17: &[u8] = b"6,40 0 0 12,21 0 3 2048,48 0 0 23,21 0 1 17,6 0 0 262144,6 0 0 0";

const UDP: &[u8] = b"\x00\x00\x00\x00\x00\x00\x00\x00\x00\x00\x00\x00\x08\x00\
\x45\x00\x00\x00\x00\x00\x00\x00\x00\x11";

const TCP: &[u8] = b"\x00\x00\x00\x00\x00\x00\x00\x00\x00\x00\x00\x00\x08\x00\
\x45\x00\x00\x00\x00\x00\x00\x00\x00\x06";

const ARP: &[u8] = b"\x00\x00\x00\x00\x00\x00\x00\x00\x00\x00\x00\x00\x08\x06";

/// It ends before byte 23.
const SHORT_IP: &[u8] = b"\x00\x00\x00\x00\x00\x00\x00\x00\x00\x00\x00\x00\x08\x00\x45";

/// It ends before byte 13.
const SHORT: &[u8] = b"\x00\x00\x00\x00\x00\x00\x00\x00\x00\x00\x00\x00\x08";

/// How often each instruction is executed, and its comparison holds.
const IP_PROTO_17_RUNS: &[(u64, u64)] = &[(6, 0), (5, 4), (4, 0), (3, 2), (2, 0), (2, 0)];

/// Whether a tally says so.
fn are_runs(runs: &[Runs], wanted: &[(u64, u64)]) -> bool {
    let mut are_so = runs.len() == wanted.len();
    for (found, (executed, taken)) in runs.iter().zip(wanted.iter()) {
        are_so = are_so && found.executed == *executed && found.taken == *taken;
    }
    are_so
}

#[test]
fn counts_over_packets(rt: HostRuntime) {
    let p = program_of(rt.alloc(), IP_PROTO_17).expect(&rt, "a program");
    let mut tally = Tally::new(rt.alloc(), &p).expect(&rt, "the tally");
    let mut meter = Meter::new();
    let values = Values::new();
    assert!(rt; are_runs(tally.runs(), &[(0, 0); 6]) && tally.packets() == 0);
    for (i, bytes) in [UDP, TCP, ARP, SHORT_IP, SHORT, UDP].iter().enumerate() {
        assert!(rt;
            tally.packets() < 6 && tally.runs().len() == p.len() as usize && meter.spent() < 100
        );
        let task = task(&p, Packet { bytes, wire: 60 }, &values);
        tally.count_packet(&mut meter, &task);
        assert_at(&rt, i, tally.packets() == i as u64 + 1);
    }
    assert!(rt; are_runs(tally.runs(), IP_PROTO_17_RUNS) && meter.spent() == 22);
}

/// A jump whose targets are the same is counted by its comparison.
#[test]
fn counts_of_a_jump_with_one_target(rt: HostRuntime) {
    for (words, taken) in [
        (b"2,21 0 0 0,6 0 0 1".as_slice(), 1),
        (b"2,21 0 0 1,6 0 0 1".as_slice(), 0),
    ] {
        let p = program_of(rt.alloc(), words).expect(&rt, "a program");
        let mut tally = Tally::new(rt.alloc(), &p).expect(&rt, "the tally");
        let values = Values::new();
        let packet = Packet {
            bytes: b"",
            wire: 0,
        };
        let task = task(&p, packet, &values);
        tally.count_packet(&mut Meter::new(), &task);
        assert!(rt; are_runs(tally.runs(), &[(1, taken), (1, 0)]));
    }
}
