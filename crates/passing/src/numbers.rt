//! The packets of a capture that pass a program.

ghost use Rattle.std.specs.Prelude.{◌≡◌, IfOk};
ghost use Rattle.cbpf_machine.specs.Machine.{machine_of};
ghost use Rattle.cbpf_machine.specs.Values.{no_values};
ghost use Rattle.pcap_classic.specs.Lent.{record_of};
ghost use Rattle.passing.specs.Passing as spec;

use cbpf_code::Program;
use cbpf_machine::{Values, outcome_of};
use cbpf_reply::packet_of;
use pcap_classic::{Capture, Captured};
use std::alloc::{AllocError, Allocator};

/// Whether the program passes a packet, where no extension has a value.
fn passes<A: Allocator>(program: &Program<A>, captured: &Captured<'_>) -> bool
    ensures { result ≡ spec.passes (machine_of program.now no_values) (record_of captured.now) }
{
    outcome_of(program, packet_of(captured), &Values::new()).is_pass()
}

/// The numbers of the packets that pass.
pub fn passing<A: Allocator + Copy>(
    alloc: A,
    program: &Program<A>,
    capture: &Capture<A>,
) -> Result<Vec<u64, A>, AllocError>
    ensures { IfOk result (λ numbers. numbers.items
        ≡ spec.passing (machine_of program.now no_values) capture.now.records) }
{
    let mut numbers = Vec::new(alloc);
    for record in capture {
        if passes(program, &record) {
            numbers.push(record.number)?;
        }
    }
    Ok(numbers)
}
