//! Reports of the ARP filter, with counts in a memory of their own.
ghost use Rattle.std.specs.Prelude.{◌≡◌};
ghost use Rattle.cbpf_why.specs.Chosen.{AreSorted};

use crate::assertions::Test;
use crate::inputs::ARP;
use cbpf_machine::Values;
use cbpf_why::{CaptureEnd, PacketRange, Question, Report, WhyFault, program_of, why};
use pcap_classic::CaptureReader;
use std::alloc::Allocator;
use std::io::{Read, Write};

/// Writes what is reported of packets of a capture of which none was read, with counts in this memory.
pub fn report_in<A: Allocator + Copy, R: Read, B: Allocator, W: Write>(
    rt: &impl Test,
    alloc: A,
    report: Report,
    packets: &[PacketRange],
    reader: &mut CaptureReader<R, B>,
    w: &mut W,
) -> Result<Option<CaptureEnd>, WhyFault>
    requires count { reader.old.count ≡ 0 }
    requires sorted { AreSorted packets.now }
{
    let mut text = Vec::from_slice(rt.alloc(), ARP).expect(rt, "memory");
    let program = program_of(rt.alloc(), text.as_mut_slice())
        .ok()
        .expect(rt, "a filter");
    let question = Question {
        program: &program,
        values: &Values::new(),
        report,
        packets,
    };
    why(alloc, &question, reader, w)
}
