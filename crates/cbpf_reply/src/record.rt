//! The packet of a capture's record, as the machine takes it.

ghost use Rattle.std.specs.Prelude.{◌≡◌};

use cbpf_code::Program;
use cbpf_machine::{Packet, Task, Values};
use pcap_classic::Captured;
use std::alloc::Allocator;

/// The bytes of a record and the length that its packet had.
#[inline(always)]
pub fn packet_of<'a>(captured: &Captured<'a>) -> Packet<'a>
    ensures { result ≡ record { bytes = captured.now.bytes; wire = captured.now.wire } }
{
    Packet {
        bytes: captured.bytes,
        wire: captured.wire,
    }
}

/// A program with values for extensions, to be run on the packet of a record.
#[inline(always)]
pub fn task_of<'a, A: Allocator>(
    program: &'a Program<A>,
    values: &'a Values,
    captured: &Captured<'a>,
) -> Task<'a, A>
    ensures { result ≡ record {
      program = program.entry;
      packet = record { bytes = captured.now.bytes; wire = captured.now.wire };
      values = values.entry;
    } }
{
    Task {
        program,
        packet: packet_of(captured),
        values,
    }
}
