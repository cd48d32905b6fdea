//! Laws of the definitions, which hold whatever a program does.

ghost use Rattle.std.specs.Prelude.{◌≡◌, ◌↔◌, true};
ghost use Rattle.std.specs.declared.cmp.Ordering.TheVariants.{Less, Equal};
ghost use Rattle.cbpf_reply.specs.declared.packet.TheConstants.{ROW};
ghost use Rattle.cbpf_reply.specs.declared.reply.Place as declared_place;
ghost use Rattle.cbpf_reply.specs.Places.{is_before};

use crate::reply::Place;

/// Places are ordered by the packet, then by the step, and two that are equal in order are the same.
pub fn place_order()
    ensures less { (a b : declared_place.Place) → (⟦<Place as Ord>⟧.cmp a b ≡ Less) ↔ (is_before a b ≡ true) }
    ensures same { (a b : declared_place.Place) → (⟦<Place as Ord>⟧.cmp a b ≡ Equal) ↔ (b ≡ a) }
{}

/// A row of a dump has 16 bytes.
pub fn row_length()
    ensures { ROW ≡ 16 }
{}
