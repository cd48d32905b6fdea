//! The laws of `==`.

ghost use Rattle.std.specs.Prelude.{◌≡◌, Decides};
ghost use Rattle.pcap_classic.specs.Lent.{record_of};

use crate::captured::Captured;
use crate::ending::Ending;
use crate::header::{CaptureFault, HeaderFault};

/// Two values of a type are equal by `==` exactly where contracts see the same.
pub fn equal_where_same()
    ensures captured { (a b : _) → Decides (⟦<Captured<'static> as PartialEq>⟧.eq a b) (record_of a ≡ record_of b) }
    ensures ending { (a b : _) → Decides (⟦<Ending as PartialEq>⟧.eq a b) (a ≡ b) }
    ensures capture_fault { (a b : _) → Decides (⟦<CaptureFault as PartialEq>⟧.eq a b) (a ≡ b) }
    ensures header_fault { (a b : _) → Decides (⟦<HeaderFault as PartialEq>⟧.eq a b) (a ≡ b) }
{}
