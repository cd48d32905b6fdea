//! Trails by the calls of the machine alone.

ghost use Rattle.std.specs.Prelude.{◌≡◌, ◌≤◌, ◌-◌, [], Some, length, slice_get, take};
ghost use Rattle.cbpf_machine.specs.Follow.{Knows, KnowsEach};
ghost use Rattle.cbpf_machine.specs.Machine.{machine_of};
ghost use Rattle.cbpf_machine.specs.Task.{entries_in};
ghost use Rattle.cbpf_machine.specs.Trace.{trace};
ghost use Rattle.cbpf_machine.specs.Values.{no_values};

use crate::assertions::{Test, assert_at, assert_at_both};
use crate::programs::program_of;
use cbpf_code::Program;
use cbpf_machine::{
    Before, Followed, ListTrail, MarkTrail, Meter, Outcome, Packet, State, Task, Trail, Values,
    Watched, When, follow_on, follow_packet,
};
use std::alloc::Global;
use std::process::Abort;

/// 4096 instructions, which count in the accumulator, keep each second count in a slot, and return.
fn counting(rt: &impl Test) -> Program {
    let mut list = Vec::new(rt.alloc());
    for i in 1..=4096 {
        let (code, k) = match i {
            4096 => (22, 0),
            _ if i % 2 == 1 => (4, 1),
            _ => (2, 3),
        };
        list.push((code, 0, 0, k)).expect(rt, "memory");
    }
    program_of(rt, &list)
}

const EMPTY: Packet<'static> = Packet {
    bytes: b"",
    wire: 0,
};

/// Whether a state is entry `n` of the trace of `counting`, counted from 1.
fn is_entry(s: &State, n: u32) -> bool {
    let before = n.saturating_sub(1);
    s.pc() == before && s.a() == n / 2 && s.slot(3) == before / 2
}

/// The table of a program where at most one instruction is watched.
fn only(alloc: Global, p: &Program, watched: u32) -> Watched
    ensures knows { KnowsEach (λ i insn. Knows result i insn) p.now }
{
    let mut table = Watched::none(alloc);
    'all: for i in 0..p.len() {
        let watch = (i == watched).then_some(When::Always);
        table.set(i as usize, p.at_index(i), watch);
    }
    table
}

/// Keeps the first `count` entries of a packet's trace, of which it returns the last.
fn fill<T: Trail>(rt: &impl Abort, trail: &mut T, task: &Task<'_>, count: u32) -> State
    requires from_one { 1 ≤ count }
    requires few { count ≤ 4096 }
    ensures last { slice_get (entries_in task.now) (count - 1) ≡ Some result }
    ensures stands { T.stands_for trail.new (take count (entries_in task.now)) }
    ensures kept { T.kept trail.new ≡ count }
{
    let mut meter = Meter::new();
    match trail.go_to(&mut meter, task, count) {
        Ok(last) => last,
        Err(_) => panic!(rt; "the packet ends before"),
    }
}

/// Fills a trail, and follows the packet from its last entry to the instruction that is watched: where it
/// then is, the state, and how many turns that took.
fn filled_and_followed<T: Trail>(
    rt: &impl Test,
    trail: &mut T,
    p: &Program,
    count: u32,
    watched: u32,
) -> (Followed, State, u128) {
    let values = Values::new();
    let task = Task {
        program: p,
        packet: EMPTY,
        values: &values,
    };
    assert!(rt; 1 <= count && count <= 4096);
    let _sound = p.len();
    let mut s = fill(rt, trail, &task, count);
    let mut meter = Meter::new();
    let table = only(rt.alloc(), p, watched);
    let followed = trail.follow(&mut meter, &task, &table, &mut s);
    (followed, s, meter.spent())
}

/// Fills a trail, and goes on from its last entry by so many: where the packet then is, the state, and the turns.
fn filled_and_advanced<T: Trail>(
    rt: &impl Test,
    trail: &mut T,
    p: &Program,
    count: u32,
    more: u32,
) -> (Followed, State, u128) {
    let values = Values::new();
    let task = Task {
        program: p,
        packet: EMPTY,
        values: &values,
    };
    assert!(rt; 1 <= count && count <= 4096);
    let mut s = fill(rt, trail, &task, count);
    let mut meter = Meter::new();
    let advanced = trail.advance(&mut meter, &task, more, &mut s);
    (advanced, s, meter.spent())
}

/// Asserts where a packet is that was begun and followed to the instruction that is watched.
fn check_begun(rt: &impl Abort, s: &State, count: u32, watched: u32, turns: u128) {
    let is_there = is_entry(s, count) && s.pc() == watched;
    let is_wanted = is_there && turns == u128::from(watched);
    assert_at(rt, watched as usize, is_wanted);
}

/// Follows a packet to the instruction that is watched, or to the first entry but one that the trail stores, and starts
/// the trail there: how many entries it keeps.
fn begun<T: Trail>(
    rt: &impl Abort,
    trail: &mut T,
    p: &Program,
    table: &Watched,
    meter: &mut Meter,
    s: &mut State,
) -> u32
    requires fresh { meter.old ≡ 0 }
    requires knows { KnowsEach (λ i insn. Knows table.now i insn) p.now }
    ensures from_one { 1 ≤ result }
    ensures last { slice_get (trace (machine_of p.now no_values) [] 0) (result - 1) ≡ Some s.new }
    ensures stands { T.stands_for trail.new (take result (trace (machine_of p.now no_values) [] 0)) }
    ensures turns { meter.new ≤ 4096 }
{
    let _sound = p.len();
    let pause = Before {
        pause: table,
        fence: T::first_gap() as usize,
    };
    let values = Values::new();
    let task = Task {
        program: p,
        packet: EMPTY,
        values: &values,
    };
    let followed = follow_packet(meter, &task, &pause, s);
    let Followed::Paused(count) = followed else {
        panic!(rt; "the packet ends before")
    };
    assert!(rt; count <= 4096 && count - 1 <= T::first_gap());
    trail.clear();
    trail.start(count, *s);
    count
}

/// Goes on in a packet of which the trail keeps `count` entries to the instruction that is watched, unless it is there:
/// how many entries it then keeps.
fn gone_on<T: Trail>(
    rt: &impl Abort,
    trail: &mut T,
    p: &Program,
    table: &Watched,
    meter: &mut Meter,
    count: u32,
    s: &mut State,
) -> u32
    requires from_one { 1 ≤ count }
    requires last { slice_get (trace (machine_of p.now no_values) [] 0) (count - 1) ≡ Some s.old }
    requires stands { T.stands_for trail.old (take count (trace (machine_of p.now no_values) [] 0)) }
    requires turns { meter.old ≤ 4096 }
    requires knows { KnowsEach (λ i insn. Knows table.now i insn) p.now }
    ensures stands { T.stands_for trail.new (take result (trace (machine_of p.now no_values) [] 0)) }
    ensures within { result ≤ length (trace (machine_of p.now no_values) [] 0) }
{
    let _sound = p.len();
    if table.pauses_at(s) {
        return count;
    }
    let values = Values::new();
    let task = Task {
        program: p,
        packet: EMPTY,
        values: &values,
    };
    match trail.follow(meter, &task, table, s) {
        Followed::Paused(more) => count + more,
        Followed::Ended(_) => panic!(rt; "the packet ends before"),
    }
}

/// Begins a packet, follows it to the instruction that is watched, and goes from there back to an
/// entry: the state, and how many turns the way back took.
fn begun_and_back<T: Trail>(
    rt: &impl Test,
    trail: &mut T,
    p: &Program,
    watched: u32,
    to: u32,
) -> (State, u128) {
    let table = only(rt.alloc(), p, watched);
    let mut meter = Meter::new();
    let mut s = State::zero();
    let count = begun(rt, trail, p, &table, &mut meter, &mut s);
    let count = gone_on(rt, trail, p, &table, &mut meter, count, &mut s);
    check_begun(rt, &s, count, watched, meter.spent());
    assert!(rt; 1 <= to && to <= count);
    let mut meter = Meter::new();
    let back = trail.back(&mut meter, p, EMPTY, &Values::new(), to);
    (back, meter.spent())
}

/// The instruction that is watched, the entry to which the way goes back from there, and by how many turns
/// where each 64th state is kept.
static BACK: [(u32, u32, u128); 15] = [
    (0, 1, 0),
    (1, 1, 0),
    (1, 2, 1),
    (63, 1, 0),
    (63, 64, 63),
    (64, 64, 63),
    (64, 65, 0),
    (65, 65, 0),
    (65, 66, 1),
    (4095, 1, 0),
    (4095, 65, 0),
    (4095, 128, 63),
    (4095, 129, 0),
    (4095, 4095, 62),
    (4095, 4096, 63),
];

/// How many entries are kept, and the next instruction that is watched, which lies before where there is
/// none.
static ONWARD: [(u32, u32); 10] = [
    (1, 1),
    (1, 64),
    (1, 4095),
    (64, 65),
    (65, 128),
    (130, 2000),
    (1, 0),
    (64, 63),
    (65, 0),
    (4096, 4095),
];

/// How following goes on from entry `count` where one instruction is watched, the entry that it comes
/// to, and how many turns that takes.
fn onward(count: u32, watched: u32) -> (Followed, u32, u128) {
    if watched < count {
        let left = 4097u32.saturating_sub(count);
        (Followed::Ended(Outcome::Pass(2048)), count, left.into())
    } else {
        let turns = (watched - count).saturating_add(1);
        let entry = watched.saturating_add(1);
        (Followed::Paused(turns), entry, turns.into())
    }
}

/// Whether following went on so.
fn is_onward((followed, s, turns): (Followed, State, u128), count: u32, watched: u32) -> bool {
    let (wanted, entry, most) = onward(count, watched);
    followed == wanted && is_entry(&s, entry) && turns == most
}

fn check_back<T: Trail>(rt: &impl Test, trail: &mut T, p: &Program, keeps_all: bool) {
    for (watched, to, turns) in &BACK {
        let (back, found) = begun_and_back(rt, trail, p, *watched, *to);
        let wanted = if keeps_all { 0 } else { *turns };
        assert_at_both(rt, *watched, *to, is_entry(&back, *to) && found == wanted);
    }
}

fn check_onward<T: Trail>(rt: &impl Test, trail: &mut T, p: &Program) {
    for (count, watched) in &ONWARD {
        let found = filled_and_followed(rt, trail, p, *count, *watched);
        assert_at_both(rt, *count, *watched, is_onward(found, *count, *watched));
        let (stays, s, turns) = filled_and_advanced(rt, trail, p, *count, 0);
        let is_same = stays == Followed::Paused(0) && is_entry(&s, *count) && turns == 0;
        assert_at(rt, *count as usize, is_same);
        // As many entries on, or more than are ahead.
        let ahead = watched.checked_sub(*count);
        let more = ahead.map_or(4096, |n| n.saturating_add(1));
        let found = filled_and_advanced(rt, trail, p, *count, more);
        assert_at_both(rt, *count, *watched, is_onward(found, *count, *watched));
    }
}

/// Asserts the ways back and onward, of a trail that keeps all states, or some.
fn check_trail<T: Trail>(rt: &impl Test, trail: &mut T, p: &Program, keeps_all: bool) {
    check_back(rt, trail, p, keeps_all);
    check_onward(rt, trail, p);
}

/// A step back over a checkpoint, from (1,65) to (1,64), takes exactly 63 turns.
#[test]
fn trails_of_4096_entries(rt: HostRuntime) {
    let p = counting(&rt);
    let mut all = ListTrail::new(rt.alloc()).expect(&rt, "memory");
    check_trail(&rt, &mut all, &p, true);
    check_trail(&rt, &mut MarkTrail::new(), &p, false);
}

/// Follows a packet from before it to the instruction that is watched: how, to which state, and in
/// how many turns.
fn followed_from_before(rt: &impl Test, p: &Program, watched: u32) -> (Followed, State, u128) {
    let mut s = State::zero();
    let mut meter = Meter::new();
    let table = only(rt.alloc(), p, watched);
    let values = Values::new();
    let task = Task {
        program: p,
        packet: EMPTY,
        values: &values,
    };
    let followed = follow_packet(&mut meter, &task, &table, &mut s);
    (followed, s, meter.spent())
}

/// Follows a packet from a state of it to the instruction that is watched, likewise.
fn followed_on(rt: &impl Test, p: &Program, from: State, watched: u32) -> (Followed, State, u128) {
    assert!(rt; from.pc() < p.len());
    let mut s = from;
    let mut meter = Meter::new();
    let table = only(rt.alloc(), p, watched);
    let values = Values::new();
    let task = Task {
        program: p,
        packet: EMPTY,
        values: &values,
    };
    let followed = follow_on(&mut meter, &task, &table, &mut s);
    (followed, s, meter.spent())
}

/// Asserts the way from before a packet to the first instruction that is watched: the state there.
fn check_from_before(rt: &impl Test, p: &Program, first: u32) -> State {
    let (followed, s, turns) = followed_from_before(rt, p, first);
    let entry = first.saturating_add(1);
    let is_wanted = followed == Followed::Paused(entry)
        && is_entry(&s, entry)
        && turns == u128::from(first);
    assert_at(rt, first as usize, is_wanted);
    s
}

/// Asserts the way from the first instruction that is watched to the second one, or to the end.
fn check_on(rt: &impl Test, p: &Program, first: u32, second: u32) {
    let from = check_from_before(rt, p, first);
    let found = followed_on(rt, p, from, second);
    let is_wanted = is_onward(found, first.saturating_add(1), second);
    assert_at_both(rt, first, second, is_wanted);
}

/// Where nothing is watched, the state stays.
fn keeps_the_state(alloc: Global, p: &Program, from: State) -> bool {
    let mut s = from;
    let mut meter = Meter::new();
    let table = only(alloc, p, 4096);
    let values = Values::new();
    let task = Task {
        program: p,
        packet: EMPTY,
        values: &values,
    };
    let followed = follow_packet(&mut meter, &task, &table, &mut s);
    followed == Followed::Ended(Outcome::Pass(2048)) && is_entry(&s, 2) && meter.spent() == 4096
}

/// The instructions that are watched, first and then.
static FIRST_AND_SECOND: [(u32, u32); 13] = [
    (0, 1),
    (0, 63),
    (0, 64),
    (0, 65),
    (0, 4095),
    (63, 64),
    (64, 2000),
    (0, 0),
    (1, 1),
    (64, 63),
    (64, 64),
    (65, 64),
    (4095, 4095),
];

#[test]
fn a_packet_is_followed_with_no_trail(rt: HostRuntime) {
    let p = counting(&rt);
    for (first, second) in &FIRST_AND_SECOND {
        check_on(&rt, &p, *first, *second);
    }
    assert!(rt; keeps_the_state(rt.alloc(), &p, check_from_before(&rt, &p, 1)));
}
