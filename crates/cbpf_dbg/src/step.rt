//! Steps both ways.

ghost use Rattle.std.specs.Prelude.{◌≡◌, ◌+◌, ◌*◌, ◌≤◌, ◌^◌, MatchResult, OnErr, OnOk, IfSome};
ghost use Rattle.std.specs.Prelude.{◌-◌, ◌<◌, length, min, slice_get, Some, None};
ghost use Rattle.cbpf_machine.specs.Trace.{trace};
ghost use Rattle.pcap_classic.specs.Lent.{record_of};
ghost use Rattle.cbpf_code.specs.declared.checker.TheConstants.{MAX_INSTRUCTIONS};
ghost use Rattle.pcap_classic.specs.Records.{StartsAt};
ghost use Rattle.cbpf_dbg.specs.Breakpoints.{Breakpoints};
ghost use Rattle.cbpf_dbg.specs.Loaded.{machine_in, records_in};
ghost use Rattle.cbpf_dbg.specs.Going.{KeepsIn};
ghost use Rattle.cbpf_dbg.specs.Session.{IsInside};
ghost use Rattle.cbpf_dbg.specs.Cursor.{Stands, AreLeft, Nears, GoesOnBy, GoesOut, owed};
ghost use Rattle.cbpf_dbg.specs.Cursor.{RepliesBy, step_from, turns_of, StepsBack, CannotStepBack};
ghost use Rattle.cbpf_machine.specs.declared.trail.TheConstants.{MOST_TURNS_BACK};

use crate::cursor::{Cursor, Moved, Walk, stop_at};
use crate::loaded::Loaded;
use crate::run::{NoTrail, run_records};
use cbpf_code::MAX_INSTRUCTIONS;
use cbpf_machine::{Meter, Never, Trail};
use cbpf_reply::{RunReply, Stop, Why, packet_of, task_of};
use pcap_classic::{Captured, Records};
use std::alloc::Allocator;

/// Passes over whole packets while the entry that is sought, the `n`-th ahead, is in a later one: how far ahead it is
/// then.
fn skip_packets<'a, A: Allocator>(
    meter: &mut Meter,
    loaded: &Loaded<'a, A>,
    records: &mut Records<'a>,
    cursor: &mut Cursor,
    n: u64,
) -> u64
    requires stands { Stands (machine_in loaded.now) (records_in loaded.now) cursor.old }
    requires left { AreLeft (records_in loaded.now) cursor.old.place records.old }
    requires before { cursor.old.place.step ≡ 0 }
    requires some { 1 ≤ n }
    requires spare { meter.old + owed (machine_in loaded.now) (records_in loaded.now) cursor.old.place
        + 2 * MAX_INSTRUCTIONS ≤ 2 ^ 128 }
    ensures nears { Nears (machine_in loaded.now) (records_in loaded.now) cursor.old cursor.new n result
        meter.old meter.new }
    ensures left { AreLeft (records_in loaded.now) cursor.new.place records.new }
    ensures before { cursor.new.place.step ≡ 0 }
{
    let longest = u64::from(loaded.program.len());
    if n <= longest {
        return n;
    }
    let Some(here) = records.first() else {
        return n;
    };
    let past = loaded.capture.count() + 1;
    let mut walk = Walk {
        cursor: *cursor,
        left: loaded
            .capture
            .records_at(cursor.place.packet, here.start, past),
        end: past,
    };
    let mut ahead = n;
    'skip: while ahead > longest && walk.cursor.place.packet < past {
        // So many packets have fewer entries than `ahead`, so the one that is sought comes after them.
        let packets = (ahead - 1) / longest;
        walk.end = walk.cursor.place.packet.saturating_add(packets).min(past);
        let before = meter.spent();
        let _paused = run_records(meter, loaded, &Never, &mut walk, &mut NoTrail);
        ahead -= (meter.spent() - before) as u64;
    }
    *cursor = walk.cursor;
    *records = walk.left;
    ahead
}

/// Goes to the first entry of a packet, whose record is `here`, where the cursor stands before it: how many entries ahead
/// the one that is sought is then, which was the `n`-th.
fn enter_packet<T: Trail, A: Allocator>(
    loaded: &Loaded<'_, A>,
    here: &Captured<'_>,
    cursor: &mut Cursor,
    trail: &mut T,
    n: u64,
) -> u64
    requires stands { Stands (machine_in loaded.now) (records_in loaded.now) cursor.old }
    requires here { slice_get (records_in loaded.now) (cursor.old.place.packet - 1) ≡ Some (record_of here.now) }
    requires keeps { KeepsIn (λ xs. T.stands_for trail.old xs) loaded.now cursor.old.place }
    requires some { 1 ≤ n }
    ensures stands { Stands (machine_in loaded.now) (records_in loaded.now) cursor.new }
    ensures keeps { KeepsIn (λ xs. T.stands_for trail.new xs) loaded.now cursor.new.place }
    ensures packet { cursor.new.place.packet ≡ cursor.old.place.packet }
    ensures origin { cursor.new.origin ≡ cursor.old.origin }
    ensures step { cursor.new.place.step + min cursor.old.place.step 1 ≡ cursor.old.place.step + 1 }
    ensures ahead { cursor.new.place.step + result ≡ cursor.old.place.step + n }
{
    if cursor.place.step > 0 {
        return n;
    }
    cursor.enter();
    trail.push(cursor.state);
    n - 1
}

/// Goes on from an entry of a packet, whose record is `here`, by `n` entries: `None`. Or goes out of the packet: how many
/// entries ahead the one that is sought is then.
fn step_in_packet<T: Trail, A: Allocator>(
    meter: &mut Meter,
    loaded: &Loaded<'_, A>,
    here: &Captured<'_>,
    cursor: &mut Cursor,
    trail: &mut T,
    n: u64,
) -> Option<u64>
    requires stands { Stands (machine_in loaded.now) (records_in loaded.now) cursor.old }
    requires here { slice_get (records_in loaded.now) (cursor.old.place.packet - 1) ≡ Some (record_of here.now) }
    requires keeps { KeepsIn (λ xs. T.stands_for trail.old xs) loaded.now cursor.old.place }
    requires begun { 0 < cursor.old.place.step }
    requires spare { meter.old + MAX_INSTRUCTIONS < 2 ^ 128 }
    ensures stands { Stands (machine_in loaded.now) (records_in loaded.now) cursor.new }
    ensures origin { cursor.new.origin ≡ cursor.old.origin }
    ensures keeps { result ≡ None → KeepsIn (λ xs. T.stands_for trail.new xs) loaded.now cursor.new.place }
    ensures on { result ≡ None → GoesOnBy cursor.old cursor.new n meter.old meter.new }
    ensures out { IfSome result (λ ahead. GoesOut (length (trace (machine_in loaded.now) here.now.bytes.now here.now.wire))
        cursor.old cursor.new n ahead meter.old meter.new) }
{
    let task = task_of(loaded.program, loaded.values, here);
    let before = meter.spent();
    // A packet has no more entries.
    let most = n.min(MAX_INSTRUCTIONS as u64) as u32;
    let followed = trail.advance(meter, &task, most, &mut cursor.state);
    match cursor.apply(followed) {
        Moved::Entry => None,
        // The last entry's turn leads out.
        Moved::Packet => Some(n - (meter.spent() - before - 1) as u64),
    }
}

/// Goes on by that many entries, or to the end.
pub(crate) fn step_on<T: Trail, A: Allocator>(
    meter: &mut Meter,
    loaded: &Loaded<'_, A>,
    cursor: &mut Cursor,
    trail: &mut T,
    n: u64,
) -> RunReply
    requires stands { Stands (machine_in loaded.now) (records_in loaded.now) cursor.old }
    requires keeps { KeepsIn (λ xs. T.stands_for trail.old xs) loaded.now cursor.old.place }
    requires early { meter.old ≤ 2 ^ 127 }
    requires start { StartsAt (records_in loaded.now) cursor.old.place.packet cursor.old.start }
    requires some { 1 ≤ n }
    ensures stands { Stands (machine_in loaded.now) (records_in loaded.now) cursor.new }
    ensures start { StartsAt (records_in loaded.now) cursor.new.place.packet cursor.new.start }
    ensures keeps { KeepsIn (λ xs. T.stands_for trail.new xs) loaded.now cursor.new.place }
    ensures steps { (breakpoints : Breakpoints) → RepliesBy (machine_in loaded.now) loaded.now.capture.now breakpoints
        (step_from (machine_in loaded.now) (records_in loaded.now) n) cursor.old cursor.new result }
    ensures inside { IsInside (records_in loaded.now) cursor.new.place }
    ensures turns { (breakpoints : Breakpoints) → meter.new
        ≡ meter.old + turns_of (machine_in loaded.now) loaded.now.capture.now breakpoints
        (step_from (machine_in loaded.now) (records_in loaded.now) n) cursor.old }
{
    let count = loaded.capture.count();
    let mut ahead = n;
    let mut records = loaded
        .capture
        .records_at(cursor.place.packet, cursor.start, count + 1);
    if cursor.place.step == 0 {
        ahead = skip_packets(meter, loaded, &mut records, cursor, ahead);
        trail.clear();
    }
    'go: while let Some(here) = records.first() {
        let further = enter_packet(loaded, &here, cursor, trail, ahead);
        match step_in_packet(meter, loaded, &here, cursor, trail, further) {
            None => {
                cursor.start = here.start;
                return RunReply::Stopped(stop_at(loaded.program, loaded.values, cursor, Why::Step));
            }
            Some(more) => {
                records.pass(&here);
                ahead = skip_packets(meter, loaded, &mut records, cursor, more);
                trail.clear();
            }
        }
    }
    let counts = cursor.counts;
    trail.clear();
    *cursor = Cursor::before(1, loaded.capture.start_of(1));
    RunReply::Finished(counts)
}

/// Goes back by that many entries in the same packet, or returns the most that fits.
pub(crate) fn step_back<T: Trail, A: Allocator>(
    meter: &mut Meter,
    loaded: &Loaded<'_, A>,
    cursor: &mut Cursor,
    trail: &mut T,
    b: u64,
) -> Result<Stop, u32>
    requires stands { Stands (machine_in loaded.now) (records_in loaded.now) cursor.old }
    requires keeps { KeepsIn (λ xs. T.stands_for trail.old xs) loaded.now cursor.old.place }
    requires start { StartsAt (records_in loaded.now) cursor.old.place.packet cursor.old.start }
    requires some { 1 ≤ b }
    requires spare { meter.old ≤ 2 ^ 127 }
    ensures stands { Stands (machine_in loaded.now) (records_in loaded.now) cursor.new }
    ensures keeps { KeepsIn (λ xs. T.stands_for trail.new xs) loaded.now cursor.new.place }
    ensures answer { MatchResult result
        (λ stop. StepsBack (machine_in loaded.now) (records_in loaded.now) cursor.old cursor.new b stop)
        (λ most. CannotStepBack cursor.old cursor.new b most) }
    ensures start { cursor.new.start ≡ cursor.old.start }
    ensures inside { IsInside (records_in loaded.now) cursor.old.place
        → IsInside (records_in loaded.now) cursor.new.place }
    ensures counts { meter.old ≤ meter.new }
    ensures turns { OnOk result (meter.new ≡ meter.old + T.turns_back cursor.new.place.step) }
    ensures few { meter.new ≤ meter.old + MOST_TURNS_BACK }
    ensures refused { OnErr result (meter.new ≡ meter.old) }
{
    if b >= u64::from(cursor.place.step) {
        return Err(cursor.place.step.saturating_sub(1));
    }
    let to = cursor.place.step - b as u32;
    let item = loaded.capture.item_at(cursor.place.packet, cursor.start);
    let packet = packet_of(&item);
    let state = trail.back(meter, loaded.program, packet, loaded.values, to);
    cursor.state = state;
    cursor.place.step = to;
    Ok(stop_at(loaded.program, loaded.values, cursor, Why::Step))
}
