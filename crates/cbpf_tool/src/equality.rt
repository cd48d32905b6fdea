//! The laws of `==`.

ghost use Rattle.std.specs.Prelude.{◌≡◌, Decides};

use crate::fault::ToolFault;
use crate::host::CreateFault;

/// Two values of a type are equal by `==` exactly where contracts see the same.
pub fn equal_where_same()
    ensures tool_fault { (a b : _) → Decides (⟦<ToolFault as PartialEq>⟧.eq a b) (a ≡ b) }
    ensures create_fault { (a b : _) → Decides (⟦<CreateFault as PartialEq>⟧.eq a b) (a ≡ b) }
{}
