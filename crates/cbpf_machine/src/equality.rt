//! The laws of `==`.

ghost use Rattle.std.specs.Prelude.{◌≡◌, Decides};

use crate::follow::{Choice, Followed};
use crate::load::Packet;
use crate::outcome::{End, Outcome, Turn};
use crate::packet_end::{Decided, PacketEnd};
use crate::pause::When;
use crate::state::{Core, State};
use crate::tally::Runs;
use crate::values::Values;

/// Two values of a type are equal by `==` exactly where contracts see the same.
pub fn equal_where_same()
    ensures state { (a b : _) → Decides (⟦<State as PartialEq>⟧.eq a b) (a ≡ b) }
    ensures core { (a b : _) → Decides (⟦<Core as PartialEq>⟧.eq a b) (a ≡ b) }
    ensures values { (a b : _) → Decides (⟦<Values as PartialEq>⟧.eq a b) (a ≡ b) }
    ensures when { (a b : _) → Decides (⟦<When as PartialEq>⟧.eq a b) (a ≡ b) }
    ensures turn { (a b : _) → Decides (⟦<Turn as PartialEq>⟧.eq a b) (a ≡ b) }
    ensures outcome { (a b : _) → Decides (⟦<Outcome as PartialEq>⟧.eq a b) (a ≡ b) }
    ensures end { (a b : _) → Decides (⟦<End as PartialEq>⟧.eq a b) (a ≡ b) }
    ensures packet_end { (a b : _) → Decides (⟦<PacketEnd as PartialEq>⟧.eq a b) (a ≡ b) }
    ensures choice { (a b : _) → Decides (⟦<Choice as PartialEq>⟧.eq a b) (a ≡ b) }
    ensures decided { (a b : _) → Decides (⟦<Decided as PartialEq>⟧.eq a b) (a ≡ b) }
    ensures runs { (a b : _) → Decides (⟦<Runs as PartialEq>⟧.eq a b) (a ≡ b) }
    ensures followed { (a b : _) → Decides (⟦<Followed as PartialEq>⟧.eq a b) (a ≡ b) }
    ensures packet { (a b : _) → Decides (⟦<Packet<'static> as PartialEq>⟧.eq a b)
        ((a.bytes.now ≡ b.bytes.now) × (a.wire ≡ b.wire)) }
{}
