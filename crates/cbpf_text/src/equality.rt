//! The laws of `==`.

ghost use Rattle.std.specs.Prelude.{◌≡◌, Decides};

use crate::fault::{AsmFault, AsmKind};
use crate::placed::PlacedFault;

/// Two values of a type are equal by `==` exactly where contracts see the same.
pub fn equal_where_same()
    ensures asm_fault { (a b : _) → Decides (⟦<AsmFault as PartialEq>⟧.eq a b) (a ≡ b) }
    ensures asm_kind { (a b : _) → Decides (⟦<AsmKind as PartialEq>⟧.eq a b) (a ≡ b) }
    ensures placed_fault { (a b : _) → Decides (⟦<PlacedFault as PartialEq>⟧.eq a b) (a ≡ b) }
{}
