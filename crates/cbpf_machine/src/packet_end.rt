//! Where and why a packet ends.

ghost use Rattle.std.specs.Prelude.{◌≡◌, ◌≤◌, ◌+◌, ◌*◌, ◌^◌, length};
ghost use Rattle.cbpf_code.specs.declared.checker.TheConstants.{MAX_INSTRUCTIONS};
ghost use Rattle.cbpf_machine.specs.Registers.{zero_state};
ghost use Rattle.cbpf_machine.specs.InPlace.{turn_of};
ghost use Rattle.cbpf_machine.specs.Task.{entries_in, outcome_in, turn_from};
ghost use Rattle.cbpf_machine.specs.Trace.{last_or, outcome_of};
ghost use Rattle.cbpf_machine.specs.Choices.{last_choice};

use crate::follow::{Choice, make_turns};
use crate::meter::Meter;
use crate::outcome::{End, Outcome};
use crate::pause::Never;
use crate::state::{Core, State};
use crate::task::Task;
use cbpf_code::SLOTS;
use std::alloc::Allocator;

/// Where and why a packet ended.
#[derive(Clone, Copy, Debug, PartialEq, Eq)]
pub struct PacketEnd {
    /// The state before the last instruction.
    pub last: State,
    /// Why the packet ended there.
    pub reason: End,
}

impl PacketEnd {
    /// The packet's outcome.
    pub fn outcome(&self) -> Outcome
        ensures { result ≡ outcome_of (turn_of self.now.reason) }
    {
        Outcome::from(self.reason)
    }
}

/// Where and why a packet ended, and the last conditional jump before.
#[derive(Clone, Copy, Debug, PartialEq, Eq)]
pub struct Decided {
    /// Where and why it ended.
    pub end: PacketEnd,
    /// The last conditional jump, if there was one, and which way it went.
    pub choice: Option<Choice>,
}

/// Runs a program on a packet as `end_of_packet` does, and finds which way the last conditional jump went.
///
/// The meter is at least twice `MAX_INSTRUCTIONS` turns below 2 to the 128 before.
///
/// `COPY` changes nothing but speed. The compiler inlines the loop over the instructions where one place alone calls it by
/// this number, and this crate takes those below 4 itself.
#[inline(always)]
pub fn decided_end<A: Allocator, const COPY: u32>(meter: &mut Meter, task: &Task<'_, A>) -> Decided
    requires { meter.old + 2 * MAX_INSTRUCTIONS ≤ 2 ^ 128 }
    ensures last { result.end.last ≡ last_or zero_state (entries_in task.now) }
    ensures reason { turn_from task.now result.end.last ≡ turn_of result.end.reason }
    ensures outcome { outcome_in task.now ≡ outcome_of (turn_of result.end.reason) }
    ensures choice { result.choice ≡ last_choice task.now.program.now (entries_in task.now) }
    ensures turns { meter.new ≡ meter.old + length (entries_in task.now) }
    ensures few { meter.new ≤ meter.old + length task.now.program.now }
{
    let _few = task.program.len();
    let mut core = Core::zero();
    let mut slots = [0; SLOTS];
    let mut choice = None;
    let (turns, end) = make_turns::<_, A, COPY>(
        &Never,
        false,
        None,
        task,
        &mut choice,
        &mut core,
        &mut slots,
    );
    meter.add(turns);
    match end {
        Some(reason) => Decided {
            end: PacketEnd {
                last: State::of(core, slots),
                reason,
            },
            choice,
        },
        None => unreachable!(),
    }
}

/// Runs a program on a packet as `run_packet` does: where and why the packet ended.
///
/// The meter is at least twice `MAX_INSTRUCTIONS` turns below 2 to the 128 before.
#[inline(always)]
pub fn end_of_packet<A: Allocator>(meter: &mut Meter, task: &Task<'_, A>) -> PacketEnd
    requires { meter.old + 2 * MAX_INSTRUCTIONS ≤ 2 ^ 128 }
    ensures last { result.last ≡ last_or zero_state (entries_in task.now) }
    ensures reason { turn_from task.now result.last ≡ turn_of result.reason }
    ensures outcome { outcome_in task.now ≡ outcome_of (turn_of result.reason) }
    ensures turns { meter.new ≡ meter.old + length (entries_in task.now) }
    ensures few { meter.new ≤ meter.old + length task.now.program.now }
{
    decided_end::<A, 4>(meter, task).end
}
