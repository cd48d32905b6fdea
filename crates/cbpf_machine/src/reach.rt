//! How far a packet goes, by a state of its own.

ghost use Rattle.std.specs.Prelude.{◌≡◌, ◌<◌, ◌≤◌, ◌+◌, ◌^◌, ℕ, length, IfErr, MatchResult, OnOk};
ghost use Rattle.cbpf_machine.specs.Core.{registers};
ghost use Rattle.cbpf_machine.specs.Task.{entries_in};
ghost use Rattle.cbpf_machine.specs.OnPacket.{IsOnTrace, GoesBy, in_task};

use crate::follow::{Followed, make_turns};
use crate::meter::Meter;
use crate::outcome::Outcome;
use crate::pause::Never;
use crate::state::Core;
use crate::task::Task;
use cbpf_code::SLOTS;
use std::alloc::Allocator;

/// Goes on from an entry of a packet's trace by at most `most` turns, 1 at least: how many it made, or how many up to
/// the packet's end.
#[inline(never)]
pub(crate) fn go_on<A: Allocator>(
    meter: &mut Meter,
    task: &Task<'_, A>,
    most: u32,
    s: &mut Core,
    slots: &mut [u32; SLOTS],
) -> Result<u32, u32>
    requires some { 1 ≤ most }
    requires on { (i : ℕ) × IsOnTrace (in_task task.now) i (registers s.old slots.old) }
    requires spare { meter.old + most < 2 ^ 128 }
    ensures goes { (i : ℕ) → IsOnTrace (in_task task.now) i (registers s.old slots.old)
        → MatchResult result (λ n. (1 ≤ n) × (n ≤ most)
        × IsOnTrace (in_task task.now) (i + n) (registers s.new slots.new))
        (λ n. (1 ≤ n) × (n ≤ most) × (length (entries_in task.now) ≡ i + n)) }
    ensures turns { MatchResult result (λ n. meter.new ≡ meter.old + n) (λ n. meter.new ≡ meter.old + n) }
{
    let _few = task.program.len();
    let fence = s.pc + most as usize;
    // A copy, which the loop of turns keeps in registers.
    let mut here = *s;
    let (turns, end) = make_turns::<_, A, 2>(
        &Never,
        false,
        Some(fence),
        task,
        &mut None,
        &mut here,
        slots,
    );
    *s = here;
    meter.add(turns);
    match end {
        None => Ok(turns),
        Some(_) => Err(turns),
    }
}

/// The same, and how the packet ended.
// Apart, as the loop of turns is faster where nobody asks for that.
#[inline(never)]
pub(crate) fn go_on_or_end<A: Allocator>(
    meter: &mut Meter,
    task: &Task<'_, A>,
    most: u32,
    s: &mut Core,
    slots: &mut [u32; SLOTS],
) -> Followed
    requires some { 1 ≤ most }
    requires on { (i : ℕ) × IsOnTrace (in_task task.now) i (registers s.old slots.old) }
    requires spare { meter.old + most < 2 ^ 128 }
    ensures goes { (i : ℕ) → IsOnTrace (in_task task.now) i (registers s.old slots.old)
        → GoesBy (in_task task.now) i most (registers s.new slots.new) meter.old meter.new result }
{
    let _few = task.program.len();
    let fence = s.pc + most as usize;
    // A copy, which the loop of turns keeps in registers.
    let mut here = *s;
    let (turns, end) = make_turns::<_, A, 3>(
        &Never,
        false,
        Some(fence),
        task,
        &mut None,
        &mut here,
        slots,
    );
    *s = here;
    meter.add(turns);
    match end {
        None => Followed::Paused(turns),
        Some(end) => Followed::Ended(Outcome::from(end)),
    }
}

/// Whether a packet's trace has an entry `to`, counted from 1, or how many entries it has.
pub(crate) fn reach<A: Allocator>(meter: &mut Meter, task: &Task<'_, A>, to: u32) -> Result<(), u32>
    requires from_one { 1 ≤ to }
    requires spare { meter.old + to < 2 ^ 128 }
    ensures long { OnOk result (to ≤ length (entries_in task.now)) }
    ensures short { IfErr result (λ n. (n ≡ length (entries_in task.now)) × (n < to)) }
    ensures turns { MatchResult result (λ s. meter.new + 1 ≡ meter.old + to) (λ n. meter.new ≡ meter.old + n) }
{
    let _sound = task.program.len();
    let mut here = Core::zero();
    let mut slots = [0; SLOTS];
    let mut entries = 1;
    'reach: while entries < to {
        match go_on(meter, task, to - entries, &mut here, &mut slots) {
            Ok(turns) => entries += turns,
            Err(turns) => return Err(entries + turns - 1),
        }
    }
    Ok(())
}
