//! A cursor over the entries of a capture.

ghost use Rattle.std.specs.Prelude.{◌≡◌, ◌+◌, ◌<◌, ◌≤◌, ◌^◌, ℕ, List, length};
ghost use Rattle.cbpf_code.specs.Sound.{IsSound};
ghost use Rattle.cbpf_machine.specs.Machine.{Machine, machine_of};
ghost use Rattle.pcap_classic.specs.Records.{Record};
ghost use Rattle.cbpf_dbg.specs.Cursor.{Stands, IsEntry, entered, passed, followed as after};
ghost use Rattle.cbpf_dbg.specs.Cursor.{Countable, moved_by, entry_here};
ghost use Rattle.cbpf_machine.specs.declared.follow.Followed.TheVariants as ways;
ghost use Rattle.cbpf_dbg.specs.Joined as joined;

use cbpf_code::Program;
use cbpf_machine::{Followed, Outcome, State, Values, missing_extension};
use cbpf_reply::{Counts, Place, Stop, Why};
use pcap_classic::Records;
use std::alloc::Allocator;

/// A place with its state, and the outcomes of the packets from the origin up to the place's.
#[derive(Clone, Copy)]
pub(crate) struct Cursor {
    /// The packet from which outcomes are counted.
    pub(crate) origin: u64,
    pub(crate) place: Place,
    /// Where the record of the place's packet starts in the capture's file, where there is one; of no meaning on the way
    /// over packets.
    pub(crate) start: usize,
    /// The entry at the place; of no meaning at step 0.
    pub(crate) state: State,
    pub(crate) counts: Counts,
}

/// A cursor with the records of its place's packet and the later ones.
#[derive(Drop)]
pub(crate) struct Walk<'a> {
    pub(crate) cursor: Cursor,
    pub(crate) left: Records<'a>,
    /// The packet before which a run ends.
    pub(crate) end: u64,
}

/// Where a move led.
#[derive(Clone, Copy)]
pub(crate) enum Moved {
    /// To an entry of the packet.
    Entry,
    /// Out of the packet, before the next one.
    Packet,
}

impl Cursor {
    pub(crate) fn enter(&mut self)
        ensures { self.new ≡ entered self.old }
    {
        self.place.step = 1;
        self.state = State::zero();
    }

    /// Counts the outcome of the packet that it stands before, and goes before the next.
    pub(crate) fn finish_whole_packet(&mut self, outcome: Outcome)
        requires before { self.old.place.step ≡ 0 }
        requires counts { Countable self.old.place.packet self.old.counts }
        ensures { self.new ≡ passed self.old outcome }
    {
        match outcome {
            Outcome::Pass(_) => self.counts.passes += 1,
            Outcome::Fail => self.counts.fails += 1,
            Outcome::Unknown(_) => self.counts.unknown += 1,
        }
        self.place.packet += 1;
    }

    /// The same from anywhere in the packet.
    pub(crate) fn finish_packet(&mut self, outcome: Outcome)
        requires { Countable self.old.place.packet self.old.counts }
        ensures { self.new ≡ passed self.old outcome }
    {
        self.place.step = 0;
        self.finish_whole_packet(outcome);
    }

    /// Moves to where following the packet led: to an entry, whose state is there already, or before the next packet.
    pub(crate) fn apply(&mut self, followed: Followed) -> Moved
        requires counts { Countable self.old.place.packet self.old.counts }
        requires steps { (n : ℕ) → followed ≡ ways.Paused n → self.old.place.step + n < 2 ^ 32 }
        ensures cursor { self.new ≡ after self.old followed }
        ensures moved { result ≡ moved_by followed }
    {
        match followed {
            Followed::Paused(entries) => {
                self.place.step += entries;
                Moved::Entry
            }
            Followed::Ended(outcome) => {
                self.finish_packet(outcome);
                Moved::Packet
            }
        }
    }

    /// Before a packet, whose record starts at `start`, and from which it counts.
    pub(crate) fn before(packet: u64, start: usize) -> Cursor
        requires { 1 ≤ packet }
        ensures stands { (machine : Machine) (capture : List Record) → IsSound machine.list
            → packet ≤ length capture + 1 → Stands machine capture result }
        ensures place { result.place ≡ record { packet = packet; step = 0 } }
        ensures start { result.start ≡ start }
        ensures origin { result.origin ≡ packet }
    {
        Cursor::at(Place { packet, step: 0 }, start, State::zero())
    }

    /// At a place of a packet, whose record starts at `start`, and from which it counts.
    pub(crate) fn at(place: Place, start: usize, state: State) -> Cursor
        requires { 1 ≤ place.packet }
        ensures stands { (machine : Machine) (capture : List Record) → IsSound machine.list
            → place.packet ≤ length capture + 1 → (0 < place.step → IsEntry machine capture place state)
            → Stands machine capture result }
        ensures place { result.place ≡ place }
        ensures start { result.start ≡ start }
        ensures origin { result.origin ≡ place.packet }
    {
        Cursor {
            origin: place.packet,
            place,
            start,
            state,
            counts: Counts {
                passes: 0,
                fails: 0,
                unknown: 0,
            },
        }
    }
}

/// The stop at the entry of a cursor, whose instruction is read without a turn.
// Inlined, so that a stop is made where it is wanted, and not copied.
#[inline(always)]
pub(crate) fn stop_at<A: Allocator>(
    program: &Program<A>,
    values: &Values,
    cursor: &Cursor,
    reason: Why,
) -> Stop
    requires { cursor.now.state.pc < length program.now }
    ensures { (r : Record) → result
        ≡ joined.stop_at reason (entry_here (machine_of program.now values.now) r cursor.now) }
{
    let insn = program.at_index(cursor.state.pc());
    let why = match missing_extension(insn, values) {
        Some(e) => Why::Unknown(e),
        None => reason,
    };
    Stop {
        place: cursor.place,
        state: cursor.state,
        why,
    }
}
