//! The laws of `==`.

ghost use Rattle.std.specs.Prelude.{◌≡◌, Decides};

use crate::errors::{CommandFault, LoadFault};
use crate::reply::{Counts, Place, RunReply, SessionFault, Stop, Why};

/// Two values of a type are equal by `==` exactly where contracts see the same.
pub fn equal_where_same()
    ensures place { (a b : _) → Decides (⟦<Place as PartialEq>⟧.eq a b) (a ≡ b) }
    ensures why { (a b : _) → Decides (⟦<Why as PartialEq>⟧.eq a b) (a ≡ b) }
    ensures stop { (a b : _) → Decides (⟦<Stop as PartialEq>⟧.eq a b) (a ≡ b) }
    ensures counts { (a b : _) → Decides (⟦<Counts as PartialEq>⟧.eq a b) (a ≡ b) }
    ensures run_reply { (a b : _) → Decides (⟦<RunReply as PartialEq>⟧.eq a b) (a ≡ b) }
    ensures session_fault { (a b : _) → Decides (⟦<SessionFault as PartialEq>⟧.eq a b) (a ≡ b) }
    ensures command_fault { (a b : _) → Decides (⟦<CommandFault as PartialEq>⟧.eq a b) (a ≡ b) }
    ensures load_fault { (a b : _) → Decides (⟦<LoadFault as PartialEq>⟧.eq a b) (a ≡ b) }
{}
