//! A trail of an outsider, who writes no more than the trait asks: `clear`, `push` and `back`.

use crate::assertions::Test;
use cbpf_code::Program;
use cbpf_dbg::{ListTrail, Trail};
use cbpf_machine::{Meter, Packet, State, Values};
use std::alloc::Allocator;
use std::cell::Cell;

/// A trail that stores each state, and counts those that it is given.
#[derive(Drop)]
pub struct CountingTrail<'a> {
    states: ListTrail,
    given: &'a Cell<u64>,
}

pub fn counting_trail<'a>(rt: &impl Test, given: &'a Cell<u64>) -> CountingTrail<'a> {
    CountingTrail {
        states: ListTrail::new(rt.alloc()).expect(rt, "memory"),
        given,
    }
}

impl<'a> Trail for CountingTrail<'a> {
    ghost use Rattle.std.specs.Prelude.{◌≡◌, length};
    ghost use Rattle.std.proofs.Common.{rules};

    ghost stands_for = { λ t xs. t.states ≡ xs };

    ghost kept = { λ t. length t.states };

    ghost as_long = { λ t xs h. Prim.search rules };

    fn clear(&mut self) {
        self.states.clear();
    }

    fn push(&mut self, s: State) {
        self.given.set(self.given.get().saturating_add(1));
        self.states.push(s);
    }

    fn back<A: Allocator>(
        &mut self,
        meter: &mut Meter,
        p: &Program<A>,
        packet: Packet<'_>,
        values: &Values,
        to: u32,
    ) -> State {
        self.states.back(meter, p, packet, values, to)
    }
}
