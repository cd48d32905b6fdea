//! How often the instructions of a program run.

ghost use Rattle.std.specs.Prelude.{◌≡◌, ◌<◌, ◌≤◌, ◌+◌, ◌*◌, ◌^◌, ℕ, length, replicate, option_map, IfOk};
ghost use Rattle.cbpf_code.specs.declared.checker.TheConstants.{MAX_INSTRUCTIONS};
ghost use Rattle.cbpf_machine.specs.Registers.{zero_state};
ghost use Rattle.cbpf_machine.specs.InPlace.{turn_of};
ghost use Rattle.cbpf_machine.specs.Trace.{last_or, outcome_of};
ghost use Rattle.cbpf_machine.specs.Running.{IsEnd};
ghost use Rattle.cbpf_machine.specs.Task.{entries_in, outcome_in, turn_from};
ghost use Rattle.cbpf_machine.specs.OnPacket.{in_task};
ghost use Rattle.cbpf_machine.specs.Choices.{executed_in, runs_at, taken_in};

use crate::meter::Meter;
use crate::packet_end::PacketEnd;
use crate::running::Running;
use crate::task::Task;
use cbpf_code::{Program, SLOTS};
use std::alloc::{AllocError, Allocator, Global};
use std::marker::Model;

/// How often an instruction ran.
#[derive(Clone, Copy, Debug, PartialEq, Eq)]
pub struct Runs {
    /// In how many packets it was executed.
    pub executed: u64,
    /// In how many of these it was a conditional jump whose comparison held, so that it skipped `jt` instructions.
    pub taken: u64,
}

/// Makes all turns of a packet and counts them: how many they are, and how the packet ended.
#[inline(always)]
fn count_turns<A: Allocator>(task: &Task<'_, A>, runs: &mut [Runs]) -> (u32, PacketEnd)
    requires long { length runs.old ≡ length task.now.program.now }
    requires fits { (i : ℕ) → ((runs_at runs.old i).executed + 1 < 2 ^ 64) × ((runs_at runs.old i).taken + 1 < 2 ^ 64) }
    ensures turns { result.0 ≡ length (entries_in task.now) }
    ensures few { result.0 ≤ length task.now.program.now }
    ensures most { result.0 ≤ MAX_INSTRUCTIONS }
    ensures end { IsEnd (in_task task.now) result.1 }
    ensures long { length runs.new ≡ length runs.old }
    ensures executed { (i : ℕ) → (runs_at runs.new i).executed ≡ (runs_at runs.old i).executed
        + executed_in (entries_in task.now) i }
    ensures taken { (i : ℕ) → (runs_at runs.new i).taken ≡ (runs_at runs.old i).taken
        + taken_in task.now.program.now (entries_in task.now) i }
    ensures once { (i : ℕ) → ((runs_at runs.new i).executed ≤ (runs_at runs.old i).executed + 1)
        × ((runs_at runs.new i).taken ≤ (runs_at runs.old i).taken + 1) }
{
    let _few = task.program.len();
    let mut running = Running::new();
    let mut slots = [0; SLOTS];
    'turns: loop {
        let pc = running.pc();
        if let Some(reason) = running.turn(task, &mut slots, &mut runs[pc]) {
            return (running.turns(), running.ended(slots, reason));
        }
    }
}

/// How often each instruction of a program ran, in packets that were counted.
#[derive(Drop)]
pub struct Tally<A: Allocator = Global> {
    packets: u64,
    runs: Vec<Runs, A>,
}

impl<A: Allocator> Model for Tally<A> {
    ghost use Rattle.std.specs.Prelude.{ℕ, ◌≤◌};
    ghost use Rattle.cbpf_machine.specs.Choices.{Counted, runs_at};

    ghost Value = { Counted };

    ghost view = { λ t. record { packets = t.packets; runs = t.runs.items } };

    // Program counters rise, so a packet executes an instruction at most once.
    ghost invariant = { λ t. (i : ℕ) → ((runs_at t.runs.items i).executed ≤ t.packets)
        × ((runs_at t.runs.items i).taken ≤ t.packets) };
}

impl<A: Allocator> Tally<A> {
    /// No packet was counted.
    ///
    /// # Errors
    ///
    /// `AllocError`.
    pub fn new<B: Allocator>(alloc: A, p: &Program<B>) -> Result<Tally<A>, AllocError>
        ensures { IfOk result
            (λ t. t ≡ record { packets = 0; runs = replicate (length p.now) (record { executed = 0; taken = 0 }) }) }
    {
        let mut runs = Vec::new(alloc);
        runs.resize(
            p.len() as usize,
            Runs {
                executed: 0,
                taken: 0,
            },
        )?;
        Ok(Tally { packets: 0, runs })
    }

    /// How many packets were counted.
    pub fn packets(&self) -> u64
        ensures { result ≡ self.now.packets }
    {
        self.packets
    }

    /// How often each instruction ran, in the program's order.
    pub fn runs(&self) -> &[Runs]
        ensures { result.now ≡ self.now.runs }
    {
        self.runs.as_slice()
    }

    /// Runs a program on a packet as `end_of_packet` does, and counts its instructions. The program has as many
    /// instructions as that of the tally.
    ///
    /// Fewer than 2 to the 64 packets minus 1 were counted before. The meter is at least twice `MAX_INSTRUCTIONS`
    /// turns below 2 to the 128 before.
    pub fn count_packet<B: Allocator>(&mut self, meter: &mut Meter, task: &Task<'_, B>) -> PacketEnd
        requires long { length self.old.runs ≡ length task.now.program.now }
        requires few { self.old.packets + 1 < 2 ^ 64 }
        requires spare { meter.old + 2 * MAX_INSTRUCTIONS ≤ 2 ^ 128 }
        ensures last { result.last ≡ last_or zero_state (entries_in task.now) }
        ensures reason { turn_from task.now result.last ≡ turn_of result.reason }
        ensures outcome { outcome_in task.now ≡ outcome_of (turn_of result.reason) }
        ensures turns { meter.new ≡ meter.old + length (entries_in task.now) }
        ensures few { meter.new ≤ meter.old + length task.now.program.now }
        ensures packets { self.new.packets ≡ self.old.packets + 1 }
        ensures long { length self.new.runs ≡ length self.old.runs }
        ensures executed { (i : ℕ) → (runs_at self.new.runs i).executed ≡ (runs_at self.old.runs i).executed
            + executed_in (entries_in task.now) i }
        ensures taken { (i : ℕ) → (runs_at self.new.runs i).taken ≡ (runs_at self.old.runs i).taken
            + taken_in task.now.program.now (entries_in task.now) i }
    {
        self.packets += 1;
        let (turns, end) = count_turns(task, self.runs.as_mut_slice());
        meter.add(turns);
        end
    }
}
