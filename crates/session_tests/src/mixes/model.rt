//! A model of a session, written from the definitions: one list of the entries of all packets. `turn` gives each
//! entry from the one before, and `State::zero` is the first of a packet. Answers filter the list and compare places.
//! The model has no cursor and no trail, and goes over the whole list at each question.

use crate::assertions::Test;
use cbpf_code::{Ext, Program};
use cbpf_dbg::{Counts, Place, State, Stop, When, Why};
use cbpf_machine::{Meter, Packet, Turn, Values, turn};
use pcap_classic::Capture;

/// What comes after an entry.
#[derive(Clone, Copy, PartialEq, Eq)]
pub enum After {
    /// The packet's next entry.
    Entry,
    /// The packet's end: it passes.
    Pass,
    /// The packet's end: it fails.
    Fail,
    /// The packet's end: it asks for this extension, which has no value.
    Unknown(Ext),
}

/// An entry of a packet.
#[derive(Clone, Copy)]
pub struct Entry {
    pub place: Place,
    pub state: State,
    pub after: After,
}

/// All that the answers of a session depend on.
#[derive(Drop)]
pub struct Model {
    pub program: Option<Program>,
    pub capture: Option<Capture>,
    /// The values that extensions were given. The last one of each extension holds.
    pub values: Vec<(Ext, u32)>,
    /// In order of setting.
    pub breakpoints: Vec<(u32, When)>,
    pub origin: u64,
    pub place: Place,
    /// The entries of all packets, in order.
    pub joined: Vec<Entry>,
}

/// What comes after an entry whose turn gave this.
fn after_turn(turn: &Turn) -> After {
    match turn {
        Turn::Next(_) => After::Entry,
        Turn::Returned(0) | Turn::Outside | Turn::ZeroDivisor => After::Fail,
        Turn::Returned(_) => After::Pass,
        Turn::Unknown(e) => After::Unknown(*e),
    }
}

/// The state after a turn, unless the packet ends.
fn state_after(turn: &Turn) -> Option<State> {
    match turn {
        Turn::Next(next) => Some(*next),
        _ => None,
    }
}

/// The turn at a state.
fn turn_at(
    rt: &impl Test,
    p: &Program,
    packet: Packet<'_>,
    values: &Values,
    state: &State,
) -> Turn {
    assert!(rt; state.pc() < p.len());
    turn(&mut Meter::new(), p, packet, values, state)
}

/// Adds the entries of one packet.
fn add_entries(
    rt: &impl Test,
    joined: &mut Vec<Entry>,
    p: &Program,
    number: u64,
    packet: Packet<'_>,
    values: &Values,
) {
    let mut state = State::zero();
    for step in 1..=p.len() {
        let gives = turn_at(rt, p, packet, values, &state);
        let entry = Entry {
            place: Place {
                packet: number,
                step,
            },
            state,
            after: after_turn(&gives),
        };
        joined.push(entry).expect(rt, "memory");
        let Some(next) = state_after(&gives) else {
            return;
        };
        state = next;
    }
}

/// The entries of all packets.
fn join(rt: &impl Test, p: &Program, capture: &Capture, values: &Values) -> Vec<Entry> {
    let mut joined = Vec::new(rt.alloc());
    for n in 1..=capture.count() {
        let item = capture.item(n);
        let packet = Packet {
            bytes: item.bytes,
            wire: item.wire,
        };
        add_entries(rt, &mut joined, p, n, packet, values);
    }
    joined
}

/// Whether a breakpoint stops at a state.
fn stops_at(breakpoint: &(u32, When), state: &State) -> bool {
    let (n, when) = *breakpoint;
    n == state.pc()
        && match when {
            When::Always => true,
            When::A(v) => state.a() == v,
            When::X(v) => state.x() == v,
        }
}

impl Entry {
    /// The stop at this entry, for this reason unless the entry asks for an extension.
    pub fn stop(&self, why: Why) -> Stop {
        let why = match self.after {
            After::Unknown(e) => Why::Unknown(e),
            _ => why,
        };
        Stop {
            place: self.place,
            state: self.state,
            why,
        }
    }
}

impl Model {
    /// With nothing loaded and nothing set.
    pub fn new(rt: &impl Test) -> Model {
        Model {
            program: None,
            capture: None,
            values: Vec::new(rt.alloc()),
            breakpoints: Vec::new(rt.alloc()),
            origin: 1,
            place: Place { packet: 1, step: 0 },
            joined: Vec::new(rt.alloc()),
        }
    }

    /// The value of an extension, where it has one.
    pub fn value_of(&self, e: Ext) -> Option<u32> {
        let mut value = None;
        for (of, given) in &self.values {
            if *of == e {
                value = Some(*given);
            }
        }
        value
    }

    /// Makes the list of entries anew.
    pub fn join(&mut self, rt: &impl Test) {
        let mut values = Values::new();
        for (e, given) in &self.values {
            values.set(*e, *given);
        }
        if let (Some(p), Some(capture)) = (&self.program, &self.capture) {
            self.joined = join(rt, p, capture, &values);
        }
    }

    /// Goes before a packet, from which it then counts.
    pub fn go_before(&mut self, packet: u64) {
        self.place = Place { packet, step: 0 };
        self.origin = packet;
    }

    /// How many packets there are.
    pub fn packet_count(&self) -> u64 {
        match &self.capture {
            Some(capture) => capture.count(),
            None => 0,
        }
    }

    /// How many entries a packet has.
    pub fn steps_of(&self, packet: u64) -> u32 {
        let mut steps: u32 = 0;
        for entry in &self.joined {
            if entry.place.packet == packet {
                steps = steps.saturating_add(1);
            }
        }
        steps
    }

    /// Whether the entry is a hit.
    pub fn is_hit(&self, entry: &Entry) -> bool {
        for breakpoint in &self.breakpoints {
            if stops_at(breakpoint, &entry.state) {
                return true;
            }
        }
        matches!(entry.after, After::Unknown(_))
    }

    /// The hits after the place.
    pub fn hits_ahead(&self, rt: &impl Test) -> Vec<Stop> {
        let mut hits = Vec::new(rt.alloc());
        for entry in &self.joined {
            if self.place < entry.place && self.is_hit(entry) {
                hits.push(entry.stop(Why::Break)).expect(rt, "memory");
            }
        }
        hits
    }

    /// The `n`-th entry after the place, from 1.
    pub fn entry_ahead(&self, n: u64) -> Option<Entry> {
        let mut ahead: u64 = 0;
        for entry in &self.joined {
            if self.place < entry.place {
                ahead = ahead.saturating_add(1);
                if ahead == n {
                    return Some(*entry);
                }
            }
        }
        None
    }

    /// The entry at a place.
    pub fn entry_at(&self, place: Place) -> Option<Entry> {
        for entry in &self.joined {
            if entry.place == place {
                return Some(*entry);
            }
        }
        None
    }

    /// How the packets end from the origin on, up to the one before `end`.
    pub fn counts(&self, end: u64) -> Counts {
        let mut counts = Counts {
            passes: 0,
            fails: 0,
            unknown: 0,
        };
        for entry in &self.joined {
            if entry.place.packet < self.origin || end <= entry.place.packet {
                continue;
            }
            match entry.after {
                After::Entry => {}
                After::Pass => counts.passes = counts.passes.saturating_add(1),
                After::Fail => counts.fails = counts.fails.saturating_add(1),
                After::Unknown(_) => counts.unknown = counts.unknown.saturating_add(1),
            }
        }
        counts
    }

    /// How many entries there are from a place on, and before another one if it is given.
    pub fn entries_between(&self, from: Place, to: Option<Place>) -> u128 {
        let mut count: u128 = 0;
        for entry in &self.joined {
            let is_before = match to {
                Some(to) => entry.place < to,
                None => true,
            };
            if from <= entry.place && is_before {
                count = count.saturating_add(1);
            }
        }
        count
    }
}
