//! Saved places.

ghost use Rattle.std.specs.Prelude.{◌≡◌, ◌+◌, ◌-◌, ◌*◌, ◌<◌, ◌≤◌, ◌^◌, length, slice_get, IfErr, MatchResult, OnOk};
ghost use Rattle.pcap_classic.specs.Records.{StartsAt};
ghost use Rattle.cbpf_dbg.specs.Commands.{steps_of};
ghost use Rattle.cbpf_dbg.specs.Loaded.{machine_in, records_in};
ghost use Rattle.cbpf_dbg.specs.Here.{Keeps};
ghost use Rattle.cbpf_dbg.specs.Cursor.{Stands};

use crate::cursor::Cursor;
use crate::loaded::Loaded;
use cbpf_machine::{Meter, Trail};
use cbpf_reply::{Place, task_of};
use std::alloc::Allocator;

/// Goes to a step of a packet, or returns how many steps the packet has and moves nothing.
pub(crate) fn resume_at<T: Trail, A: Allocator>(
    meter: &mut Meter,
    loaded: &Loaded<'_, A>,
    cursor: &mut Cursor,
    trail: &mut T,
    place: Place,
) -> Result<(), u32>
    requires from_one { 1 ≤ place.packet }
    requires within { place.packet ≤ length (records_in loaded.now) }
    requires spare { meter.old ≤ 2 ^ 127 }
    ensures found { OnOk result (Stands (machine_in loaded.now) (records_in loaded.now) cursor.new
        × Keeps (λ xs. T.stands_for trail.new xs) (machine_in loaded.now) (records_in loaded.now) cursor.new.place
        × (cursor.new.place ≡ place) × (cursor.new.origin ≡ place.packet)
        × StartsAt (records_in loaded.now) place.packet cursor.new.start
        × (place.step ≤ steps_of (machine_in loaded.now) (slice_get (records_in loaded.now) (place.packet - 1)))) }
    ensures short { IfErr result
        (λ n. (n ≡ steps_of (machine_in loaded.now) (slice_get (records_in loaded.now) (place.packet - 1)))
        × (n < place.step) × (cursor.new ≡ cursor.old) × (trail.new ≡ trail.old)) }
    ensures turns { MatchResult result (λ u. meter.new ≡ meter.old + 2 * (place.step - 1)) (λ n. meter.new ≡ meter.old + n) }
{
    let item = loaded.capture.item(place.packet);
    if place.step == 0 {
        trail.clear();
        *cursor = Cursor::before(place.packet, item.start);
        return Ok(());
    }
    let task = task_of(loaded.program, loaded.values, &item);
    let state = trail.go_to(meter, &task, place.step)?;
    *cursor = Cursor::at(place, item.start, state);
    Ok(())
}
