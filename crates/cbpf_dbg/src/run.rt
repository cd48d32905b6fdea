//! Runs to the next hit.

ghost use Rattle.std.specs.Prelude.{◌≡◌, ◌≢◌, ◌+◌, ◌-◌, ◌*◌, ◌<◌, ◌≤◌, ◌^◌, ℕ, List, [], Some, true, false, OnSome, take, drop};
ghost use Rattle.cbpf_code.specs.Sound.{IsSound};
ghost use Rattle.cbpf_code.specs.declared.checker.TheConstants.{MAX_INSTRUCTIONS};
ghost use Rattle.cbpf_machine.specs.Registers.{Registers};
ghost use Rattle.cbpf_machine.specs.Follow.{KnowsEach, follow_ahead, is_watched, unpaused_len};
ghost use Rattle.cbpf_machine.specs.declared.follow.Followed.TheVariants as followed;
ghost use Rattle.pcap_classic.specs.Records.{StartsAt};
ghost use Rattle.cbpf_dbg.specs.Commands.{AgreesWithStops};
ghost use Rattle.cbpf_dbg.specs.Joined.{stops_after};
ghost use Rattle.cbpf_dbg.specs.Loaded.{machine_in, records_in, breakpoints_in};
ghost use Rattle.cbpf_dbg.specs.Session.{IsInside, KeepsTo};
ghost use Rattle.cbpf_dbg.specs.Cursor.{Stands, Passes, RepliesBy, run_from, turns_of, ComesTo};
ghost use Rattle.cbpf_machine.specs.Task.{entries_in, outcome_in};
ghost use Rattle.cbpf_dbg.specs.Going.{CanGoOn, GoesOn, KeepsIn};

use crate::cursor::{Cursor, Moved, Walk, stop_at};
use crate::loaded::Loaded;
use cbpf_machine::{
    Followed, Meter, Never, Pause, State, Task, Trail, Watched, follow_on, follow_packet,
};
use cbpf_reply::{RunReply, Stop, Why, task_of};
use std::alloc::Allocator;

/// What a run keeps of a packet as it follows it: a trail, or nothing.
pub(crate) trait Keeper<P: Pause, A: Allocator> {
    /// The lists of entries that it stands for.
    ghost stands_for: { Self → List Registers → Type 0 };

    /// As `cbpf_machine::follow_packet`.
    fn follow_packet(
        &mut self,
        meter: &mut Meter,
        task: &Task<'_, A>,
        pause: &P,
        state: &mut State,
    ) -> Followed
        requires spare { meter.old + 2 * MAX_INSTRUCTIONS ≤ 2 ^ 128 }
        requires knows { KnowsEach (λ i insn. P.knows pause.now i insn) task.now.program.now }
        ensures follows { (result, state.new) ≡ follow_ahead (λ s. P.pauses pause.now s) (entries_in task.now)
            (outcome_in task.now) state.old }
        ensures turns { meter.new ≡ meter.old + unpaused_len (λ s. P.pauses pause.now s) (entries_in task.now) }
        ensures stands { (n : ℕ) → result ≡ followed.Paused n
            → stands_for self.new (take n (entries_in task.now)) };

    /// As `cbpf_machine::follow_on`, from an entry up to which the packet's are kept.
    fn follow_on(
        &mut self,
        meter: &mut Meter,
        task: &Task<'_, A>,
        pause: &P,
        state: &mut State,
    ) -> Followed
        requires sound { IsSound task.now.program.now }
        requires keeps { (k : ℕ) × KeepsTo (λ xs. stands_for self.old xs) (entries_in task.now) k state.old }
        requires spare { meter.old + 2 * MAX_INSTRUCTIONS ≤ 2 ^ 128 }
        requires knows { KnowsEach (λ i insn. P.knows pause.now i insn) task.now.program.now }
        ensures follows { (k : ℕ) → KeepsTo (λ xs. stands_for self.old xs) (entries_in task.now) k state.old
            → (result, state.new) ≡ follow_ahead (λ s. P.pauses pause.now s) (drop k (entries_in task.now))
            (outcome_in task.now) state.old }
        ensures turns { (k : ℕ) → KeepsTo (λ xs. stands_for self.old xs) (entries_in task.now) k state.old
            → meter.new ≡ meter.old + unpaused_len (λ s. P.pauses pause.now s) (drop k (entries_in task.now)) + 1 }
        ensures stands { (k : ℕ) → KeepsTo (λ xs. stands_for self.old xs) (entries_in task.now) k state.old
            → (n : ℕ) → result ≡ followed.Paused n → stands_for self.new (take (k + n) (entries_in task.now)) };
}

/// No trail.
#[derive(Drop)]
pub(crate) struct NoTrail;

impl<P: Pause, A: Allocator> Keeper<P, A> for NoTrail {
    ghost stands_for = { λ t xs. Unit {0} };

    fn follow_packet(
        &mut self,
        meter: &mut Meter,
        task: &Task<'_, A>,
        pause: &P,
        state: &mut State,
    ) -> Followed {
        follow_packet(meter, task, pause, state)
    }

    fn follow_on(
        &mut self,
        meter: &mut Meter,
        task: &Task<'_, A>,
        pause: &P,
        state: &mut State,
    ) -> Followed {
        follow_on(meter, task, pause, state)
    }
}

impl<T: Trail, A: Allocator> Keeper<Watched<A>, A> for T {
    ghost stands_for = { λ t xs. T.stands_for t xs };

    fn follow_packet(
        &mut self,
        meter: &mut Meter,
        task: &Task<'_, A>,
        pause: &Watched<A>,
        state: &mut State,
    ) -> Followed {
        Trail::follow_packet(self, meter, task, pause, state)
    }

    fn follow_on(
        &mut self,
        meter: &mut Meter,
        task: &Task<'_, A>,
        pause: &Watched<A>,
        state: &mut State,
    ) -> Followed {
        self.follow(meter, task, pause, state)
    }
}

/// Goes on over whole packets to the next entry where it pauses, or to the end: whether it pauses.
// Kept out of line: the hot loop over packets stands alone.
#[inline(never)]
pub(crate) fn run_records<P: Pause, A: Allocator, K: Keeper<P, A>>(
    meter: &mut Meter,
    loaded: &Loaded<'_, A>,
    pause: &P,
    walk: &mut Walk<'_>,
    keeper: &mut K,
) -> bool
    requires can { CanGoOn loaded.now walk.old meter.old }
    requires before { walk.old.cursor.place.step ≡ 0 }
    requires knows { KnowsEach (λ i insn. P.knows pause.now i insn) loaded.now.program.now }
    ensures goes { GoesOn loaded.now (λ s. P.pauses pause.now s) walk.old walk.new meter.old meter.new result }
    ensures none { result ≡ false → walk.new.cursor.place.packet ≡ walk.new.end }
    ensures keeps { result ≡ true → KeepsIn (λ xs. K.stands_for keeper.new xs) loaded.now walk.new.cursor.place }
{
    // Read once, not once a packet.
    let program = loaded.program;
    let values = loaded.values;
    let end = walk.end;
    'go: while walk.cursor.place.packet < end {
        let here = walk.left.front();
        let task = task_of(program, values, &here);
        match keeper.follow_packet(meter, &task, pause, &mut walk.cursor.state) {
            Followed::Paused(entries) => {
                walk.cursor.place.step = entries;
                return true;
            }
            Followed::Ended(outcome) => walk.cursor.finish_whole_packet(outcome),
        }
        walk.left.pass(&here);
    }
    false
}

/// Goes on over whole packets to the next hit, or to the end: whether there is one. It keeps no trail on the way where
/// nothing can stop it, or the program is so short that the trail can start at the hit.
fn run_whole<T: Trail, A: Allocator>(
    meter: &mut Meter,
    loaded: &Loaded<'_, A>,
    walk: &mut Walk<'_>,
    trail: &mut T,
) -> bool
    requires can { CanGoOn loaded.now walk.old meter.old }
    requires before { walk.old.cursor.place.step ≡ 0 }
    requires empty { T.stands_for trail.old [] }
    ensures goes { GoesOn loaded.now (is_watched loaded.now.watched.now) walk.old walk.new meter.old meter.new result }
    ensures none { result ≡ false → walk.new.cursor.place.packet ≡ walk.new.end }
    ensures keeps { KeepsIn (λ xs. T.stands_for trail.new xs) loaded.now walk.new.cursor.place }
{
    if loaded.cannot_stop() {
        return run_records(meter, loaded, &Never, walk, &mut NoTrail);
    }
    if loaded.program.len() > T::first_gap() {
        if run_records(meter, loaded, loaded.watched, walk, trail) {
            return true;
        }
        trail.clear();
        return false;
    }
    if !run_records(meter, loaded, loaded.watched, walk, &mut NoTrail) {
        return false;
    }
    trail.start(walk.cursor.place.step, walk.cursor.state);
    true
}

/// Goes on in the place's packet, where it has begun, to its next entry where it pauses, or out of it: whether it pauses.
pub(crate) fn go_on_in_packet<P: Pause, A: Allocator, K: Keeper<P, A>>(
    meter: &mut Meter,
    loaded: &Loaded<'_, A>,
    pause: &P,
    walk: &mut Walk<'_>,
    keeper: &mut K,
) -> bool
    requires can { CanGoOn loaded.now walk.old meter.old }
    requires keeps { KeepsIn (λ xs. K.stands_for keeper.old xs) loaded.now walk.old.cursor.place }
    requires knows { KnowsEach (λ i insn. P.knows pause.now i insn) loaded.now.program.now }
    ensures goes { GoesOn loaded.now (λ s. P.pauses pause.now s) walk.old walk.new meter.old meter.new result }
    ensures keeps { result ≡ true → KeepsIn (λ xs. K.stands_for keeper.new xs) loaded.now walk.new.cursor.place }
{
    if walk.cursor.place.step == 0 {
        return false;
    }
    let here = walk.left.front();
    let task = task_of(loaded.program, loaded.values, &here);
    let followed = keeper.follow_on(meter, &task, pause, &mut walk.cursor.state);
    if let Moved::Entry = walk.cursor.apply(followed) {
        return true;
    }
    walk.left.pass(&here);
    false
}

/// Goes on to the next hit, or to the end.
fn run_to_hit<T: Trail, A: Allocator>(
    meter: &mut Meter,
    loaded: &Loaded<'_, A>,
    walk: &mut Walk<'_>,
    trail: &mut T,
) -> Option<Stop>
    requires can { CanGoOn loaded.now walk.old meter.old }
    requires keeps { KeepsIn (λ xs. T.stands_for trail.old xs) loaded.now walk.old.cursor.place }
    ensures passes { Passes (machine_in loaded.now) (records_in loaded.now) walk.old.cursor walk.new.cursor
        meter.old meter.new }
    ensures comes { ComesTo (machine_in loaded.now) (records_in loaded.now) (breakpoints_in loaded.now) walk.old.end
        walk.old.cursor result walk.new.cursor }
    ensures start { OnSome result (StartsAt (records_in loaded.now) walk.new.cursor.place.packet walk.new.cursor.start) }
    ensures keeps { KeepsIn (λ xs. T.stands_for trail.new xs) loaded.now walk.new.cursor.place }
{
    if !go_on_in_packet(meter, loaded, loaded.watched, walk, trail) {
        trail.clear();
        if !run_whole(meter, loaded, walk, trail) {
            return None;
        }
    }
    let here = walk.left.front();
    walk.cursor.start = here.start;
    Some(stop_at(loaded.program, loaded.values, &walk.cursor, Why::Break))
}

/// Goes on to the next hit, to the limit of finished packets, or to the end.
// It moves a copy, and writes it back once, at its end.
pub(crate) fn run_to_limit<T: Trail, A: Allocator>(
    meter: &mut Meter,
    loaded: &Loaded<'_, A>,
    cursor: &mut Cursor,
    trail: &mut T,
    limit: Option<u64>,
) -> RunReply
    requires stands { Stands (machine_in loaded.now) (records_in loaded.now) cursor.old }
    requires keeps { KeepsIn (λ xs. T.stands_for trail.old xs) loaded.now cursor.old.place }
    requires early { meter.old ≤ 2 ^ 127 }
    requires start { StartsAt (records_in loaded.now) cursor.old.place.packet cursor.old.start }
    requires limit { limit ≢ Some 0 }
    ensures stands { Stands (machine_in loaded.now) (records_in loaded.now) cursor.new }
    ensures start { StartsAt (records_in loaded.now) cursor.new.place.packet cursor.new.start }
    ensures keeps { KeepsIn (λ xs. T.stands_for trail.new xs) loaded.now cursor.new.place }
    ensures runs { RepliesBy (machine_in loaded.now) loaded.now.capture.now (breakpoints_in loaded.now)
        (run_from (machine_in loaded.now) (records_in loaded.now) limit) cursor.old cursor.new result }
    ensures inside { IsInside (records_in loaded.now) cursor.new.place }
    ensures ahead { AgreesWithStops result
        (stops_after (machine_in loaded.now) (records_in loaded.now) (breakpoints_in loaded.now) cursor.old.place)
        (stops_after (machine_in loaded.now) (records_in loaded.now) (breakpoints_in loaded.now) cursor.new.place) }
    ensures turns { meter.new ≡ meter.old
        + turns_of (machine_in loaded.now) loaded.now.capture.now (breakpoints_in loaded.now)
        (run_from (machine_in loaded.now) (records_in loaded.now) limit) cursor.old }
{
    let count = loaded.capture.count();
    let most = limit.unwrap_or(u64::MAX);
    let end = cursor.place.packet.saturating_add(most).min(count + 1);
    let mut walk = Walk {
        cursor: *cursor,
        left: loaded
            .capture
            .records_at(cursor.place.packet, cursor.start, count + 1),
        end,
    };
    let stop = run_to_hit(meter, loaded, &mut walk, trail);
    *cursor = walk.cursor;
    if let Some(stop) = stop {
        return RunReply::Stopped(stop);
    }
    if end <= count {
        cursor.start = loaded.capture.start_of(end);
        return RunReply::Limit(cursor.counts);
    }
    let counts = cursor.counts;
    trail.clear();
    *cursor = Cursor::before(1, loaded.capture.start_of(1));
    RunReply::Finished(counts)
}
