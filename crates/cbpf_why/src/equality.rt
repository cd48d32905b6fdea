//! What `==` of the public types says.

ghost use Rattle.std.specs.Prelude.{◌≡◌, Decides};

use crate::chosen::PacketRange;
use crate::ended::{Ended, Verdict};
use crate::filter::FilterFault;
use crate::report::Report;
use crate::reporting::{CaptureEnd, WhyFault};

/// Two values of a type are equal by `==` exactly where contracts see the same.
pub fn equal_where_same()
    ensures verdict { (a b : _) → Decides (⟦<Verdict as PartialEq>⟧.eq a b) (a ≡ b) }
    ensures ended { (a b : _) → Decides (⟦<Ended as PartialEq>⟧.eq a b) (a ≡ b) }
    ensures filter_fault { (a b : _) → Decides (⟦<FilterFault as PartialEq>⟧.eq a b) (a ≡ b) }
    ensures report { (a b : _) → Decides (⟦<Report as PartialEq>⟧.eq a b) (a ≡ b) }
    ensures packet_range { (a b : _) → Decides (⟦<PacketRange as PartialEq>⟧.eq a b) (a ≡ b) }
    ensures capture_end { (a b : _) → Decides (⟦<CaptureEnd as PartialEq>⟧.eq a b) (a ≡ b) }
    ensures why_fault { (a b : _) → Decides (⟦<WhyFault as PartialEq>⟧.eq a b) (a ≡ b) }
{}
