//! The laws of `==`.

ghost use Rattle.std.specs.Prelude.{◌≡◌, Decides};
ghost use Rattle.cbpf_command_line.specs.CommandLine.{meaning, IsSameFault};

use crate::job::{Job, LineFault};
use crate::request::Detail;

/// Two values of a type are equal by `==` exactly where they mean the same: the same job with names of the same bytes,
/// the same fault with the same text, the same detail.
pub fn equal_where_same()
    ensures job { (a b : _) → Decides (⟦<Job as PartialEq>⟧.eq a b) (meaning a ≡ meaning b) }
    ensures line_fault { (a b : _) → Decides (⟦<LineFault as PartialEq>⟧.eq a b) (IsSameFault a b) }
    ensures detail { (a b : _) → Decides (⟦<Detail as PartialEq>⟧.eq a b) (a ≡ b) }
{}
