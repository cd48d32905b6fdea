//! A packet from its start to its end.

ghost use Rattle.std.specs.Prelude.{◌≡◌, ◌≤◌, ◌+◌, ◌*◌, ◌^◌, length};
ghost use Rattle.cbpf_code.specs.declared.checker.TheConstants.{MAX_INSTRUCTIONS};
ghost use Rattle.cbpf_machine.specs.Machine.{machine_of};
ghost use Rattle.cbpf_machine.specs.Trace as spec;

use crate::load::Packet;
use crate::meter::Meter;
use crate::outcome::Outcome;
use crate::packet_end::end_of_packet;
use crate::task::Task;
use crate::values::Values;
use cbpf_code::Program;
use std::alloc::Allocator;

/// Runs a program on a packet, from the zero state to the packet's end, by at most as many turns
/// as the program has instructions.
///
/// The meter is at least twice `MAX_INSTRUCTIONS` turns below 2 to the 128 before.
pub fn run_packet<A: Allocator>(
    meter: &mut Meter,
    p: &Program<A>,
    packet: Packet<'_>,
    values: &Values,
) -> Outcome
    requires { meter.old + 2 * MAX_INSTRUCTIONS ≤ 2 ^ 128 }
    ensures value { result ≡ spec.outcome (machine_of p.now values.now) packet.entry.bytes.now packet.entry.wire }
    ensures turns { meter.new
        ≡ meter.old + length (spec.trace (machine_of p.now values.now) packet.entry.bytes.now packet.entry.wire) }
    ensures few { meter.new ≤ meter.old + length p.now }

    // The definition's trace is a run to its end: it ends by itself, and its program counters rise.
    ensures whole { spec.IsRun (machine_of p.now values.now) packet.entry.bytes.now packet.entry.wire
        (spec.trace (machine_of p.now values.now) packet.entry.bytes.now packet.entry.wire) }
{
    let _sound = p.len();
    let task = Task {
        program: p,
        packet,
        values,
    };
    end_of_packet(meter, &task).outcome()
}

/// How a program ends on a packet, for those who count no turns.
pub fn outcome_of<A: Allocator>(p: &Program<A>, packet: Packet<'_>, values: &Values) -> Outcome
    ensures { result ≡ spec.outcome (machine_of p.now values.now) packet.entry.bytes.now packet.entry.wire }
{
    run_packet(&mut Meter::new(), p, packet, values)
}
