//! Reports of filters on captures.
ghost use Rattle.std.specs.Prelude.{◌≡◌};
ghost use Rattle.cbpf_why.specs.Chosen.{AreSorted};

mod faults;
mod filters;
mod flushes;
mod on_host;
mod ranges;
mod reports;
mod sizes;

use crate::assertions::Test;
use cbpf_code::{Ext, Program};
use cbpf_machine::Values;
use cbpf_why::{CaptureEnd, PacketRange, Question, Report, WhyFault, program_of, why};
use pcap_classic::CaptureReader;
use std::alloc::Allocator;
use std::io::{Read, Write};

/// What is reported of the ARP filter on the capture of two packets, of which it passes the first.
pub(crate) const ARP_SUMMARY: &[u8] =
    b"pass 1 at l1:\tjeq #0x806, l2, l3, true, then l2:\tret #0xffffffff, first packet 1\n\
fail 1 at l1:\tjeq #0x806, l2, l3, false, then l3:\tret #0, first packet 2\n\
bpf passes:1 fails:1\n";

const ARP_TRACES: &[u8] = b"packet 1\n\
l0:\tldh [12]          \tA 0 (0x0) X 0 (0x0)\n\
l1:\tjeq #0x806, l2, l3\tA 2054 (0x806) X 0 (0x0)\tto l2\n\
l2:\tret #0xffffffff   \tA 2054 (0x806) X 0 (0x0)\n\
pass at l1:\tjeq #0x806, l2, l3, true with A 2054 (0x806) X 0 (0x0), then l2:\tret #0xffffffff\n\
packet 2\n\
l0:\tldh [12]          \tA 0 (0x0) X 0 (0x0)\n\
l1:\tjeq #0x806, l2, l3\tA 2048 (0x800) X 0 (0x0)\tto l3\n\
l3:\tret #0            \tA 2048 (0x800) X 0 (0x0)\n\
fail at l1:\tjeq #0x806, l2, l3, false with A 2048 (0x800) X 0 (0x0), then l3:\tret #0\n";

pub(crate) const ARP_LINES: &[u8] =
    b"1\tpass\tl2\t4294967295\tl1\ttrue\n2\tfail\tl3\t0\tl1\tfalse\n";

const ARP_COVERAGE: &[u8] = b"2\tl0:\tldh [12]\n\
2\tl1:\tjeq #0x806, l2, l3\ttrue 1 false 1\n\
1\tl2:\tret #0xffffffff\n\
1\tl3:\tret #0\n";

const ARP_GRAPH: &[u8] = b"digraph filter {\n\
graph [fontname=monospace labelloc=t]\n\
node [shape=box fontname=monospace]\n\
edge [fontname=monospace]\n\
packets [shape=plaintext]\n\
packets -> l0 [label=\" 2 \"]\n\
l0 [label=<l0: ldh [12]<br align=\"left\"/>l1: jeq #0x806, l2, l3<br align=\"left\"/>>]\n\
l0 -> l2 [label=\" true 1 \"]\n\
l0 -> l3 [label=\" false 1 \"]\n\
l2 [label=<l2: ret #0xffffffff<br align=\"left\"/>>]\n\
l3 [label=<l3: ret #0<br align=\"left\"/>>]\n\
pass2 [label=\"pass\" shape=oval style=filled fillcolor=palegreen]\n\
l2 -> pass2 [label=\" 1 \"]\n\
fail3 [label=\"fail\" shape=oval style=filled fillcolor=lightsalmon]\n\
l3 -> fail3 [label=\" 1 \"]\n\
}\n";

/// A report, its text, and how long the text is after no packet, one and two.
pub(crate) type Reported = (Report, &'static [u8], [usize; 3]);

pub(crate) static ARP_REPORTS: [Reported; 5] = [
    (Report::Summary, ARP_SUMMARY, [0, 0, 0]),
    (Report::Traces, ARP_TRACES, [0, 247, 486]),
    (Report::Packets, ARP_LINES, [0, 29, 50]),
    (Report::Coverage, ARP_COVERAGE, [0, 0, 0]),
    (Report::Graph, ARP_GRAPH, [0, 0, 0]),
];

/// A filter's text, the value of `mark` where it has one, and what is reported.
pub(crate) type Asked<'a> = (&'a [u8], Option<u32>, Report);

/// The program of a filter's text.
fn filter(rt: &impl Test, text: &[u8]) -> Program {
    let mut text = Vec::from_slice(rt.alloc(), text).expect(rt, "memory");
    program_of(rt.alloc(), text.as_mut_slice())
        .ok()
        .expect(rt, "a filter")
}

/// Values of which `mark` has one, or none has.
fn values_of(mark: Option<u32>) -> Values {
    let mut values = Values::new();
    if let Some(mark) = mark {
        values.set(Ext::Mark, mark);
    }
    values
}

/// Writes what is reported of packets of a capture of which none was read, with counts in this memory.
pub(crate) fn report_in<A: Allocator + Copy, R: Read, B: Allocator, W: Write>(
    rt: &impl Test,
    alloc: A,
    asked: Asked<'_>,
    packets: &[PacketRange],
    reader: &mut CaptureReader<R, B>,
    w: &mut W,
) -> Result<Option<CaptureEnd>, WhyFault>
    requires count { reader.old.count ≡ 0 }
    requires sorted { AreSorted packets.now }
{
    let (text, mark, report) = asked;
    let program = filter(rt, text);
    let question = Question {
        program: &program,
        values: &values_of(mark),
        report,
        packets,
    };
    why(alloc, &question, reader, w)
}

/// Writes the same of a capture that a reader gives.
pub(crate) fn report_on<R: Read + Drop, W: Write>(
    rt: &impl Test,
    asked: Asked<'_>,
    packets: &[PacketRange],
    file: R,
    w: &mut W,
) -> Result<Option<CaptureEnd>, WhyFault>
    requires { AreSorted packets.now }
{
    let mut reader = CaptureReader::new(rt.alloc(), file)
        .ok()
        .expect(rt, "a capture");
    report_in(rt, rt.alloc(), asked, packets, &mut reader, w)
}
