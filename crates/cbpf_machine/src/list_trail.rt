//! A trail that stores every state.

ghost use Rattle.std.specs.Prelude.{◌≡◌, [], IfOk};

use crate::load::Packet;
use crate::meter::Meter;
use crate::state::State;
use crate::trail::Trail;
use crate::values::Values;
use cbpf_code::{MAX_INSTRUCTIONS, Program};
use std::alloc::{AllocError, Allocator, Global};
use std::marker::Model;

/// A trail of all states, with room made once for those of the longest program.
#[derive(Drop)]
pub struct ListTrail<A: Allocator = Global> {
    states: Vec<State, A>,
}

impl<A: Allocator> Model for ListTrail<A> {
    ghost use Rattle.std.specs.Prelude.{List, ◌≤◌, vec_capacity};
    ghost use Rattle.cbpf_code.specs.declared.checker.TheConstants.{MAX_INSTRUCTIONS};
    ghost use Rattle.cbpf_machine.specs.Registers.{Registers};

    ghost Value = { List Registers };

    ghost view = { λ t. t.states.items };

    ghost invariant = { λ t. MAX_INSTRUCTIONS ≤ vec_capacity t.states };
}

impl<A: Allocator> ListTrail<A> {
    /// An empty trail with room for `MAX_INSTRUCTIONS` states; no later call takes memory.
    pub fn new(alloc: A) -> Result<Self, AllocError>
        ensures { IfOk result (λ t. t ≡ []) }
    {
        let states = Vec::with_capacity(alloc, MAX_INSTRUCTIONS)?;
        Ok(ListTrail { states })
    }
}

impl<A: Allocator> Trail for ListTrail<A> {
    ghost use Rattle.std.specs.Prelude.{◌≡◌, length};
    ghost use Rattle.std.proofs.Common.{rules};

    ghost stands_for = { λ t xs. t ≡ xs };

    ghost kept = { λ t. length t };

    ghost as_long = { λ t xs h. Prim.search rules };

    fn clear(&mut self) {
        self.states.clear();
    }

    fn push(&mut self, s: State) {
        match self.states.push(s) {
            Ok(()) => (),
            Err(_) => unreachable!(),
        }
    }

    fn back<B: Allocator>(
        &mut self,
        _meter: &mut Meter,
        _p: &Program<B>,
        _packet: Packet<'_>,
        _values: &Values,
        to: u32,
    ) -> State {
        let s = self.states[to as usize - 1];
        self.states.truncate(to as usize);
        s
    }
}
