//! What was loaded.

ghost use Rattle.cbpf_code.specs.Writing.{Wrote};
ghost use Rattle.cbpf_reply.specs.Loads as spec;

use cbpf_code::{Line, WriteFault, write_with_number};
use pcap_classic::{Capture, Ending};
use std::alloc::Allocator;
use std::io::Write;

/// Writes the reply to a program of so many instructions that was loaded.
pub fn write_program<W: Write>(w: &mut W, count: u32) -> Result<(), WriteFault>
    ensures { Wrote (W.contents w.old) (W.contents w.new) result (spec.program_text count) }
{
    write_with_number(w, b"bpf: ", u64::from(count), b" instructions\n")
}

/// Writes how many packets a capture has, and where it is cut, if it is.
fn write_packets<W: Write>(w: &mut W, count: u64, ending: Ending) -> Result<(), WriteFault>
    ensures { Wrote (W.contents w.old) (W.contents w.new) result (spec.packet_count_text count ending) }
{
    let mut line = Line::new();
    line.prepend(b"\n");
    match ending {
        Ending::Whole => {}
        Ending::CutHeader(offset) => {
            line.prepend_u64(offset as u64);
            line.prepend(b", cut record header at ");
        }
        Ending::CutData(offset) => {
            line.prepend_u64(offset as u64);
            line.prepend(b", cut record data at ");
        }
    }
    line.prepend(b" packets");
    line.prepend_u64(count);
    line.prepend(b"pcap: ");
    line.write(w)
}

/// Writes the reply to a capture that was loaded: how many packets it has, and where it is cut, if it is.
pub fn write_capture<W: Write, A: Allocator>(
    w: &mut W,
    capture: &Capture<A>,
) -> Result<(), WriteFault>
    ensures { Wrote (W.contents w.old) (W.contents w.new) result (spec.capture_text capture.now) }
{
    write_packets(w, capture.count(), capture.ending())
}

/// Writes the same of a capture of so many packets, where it is cut.
#[tactic(auto, using(cbpf_code::proofs::WrittenLemmas::steps))]
pub fn write_cut<W: Write>(w: &mut W, count: u64, ending: Ending) -> Result<(), WriteFault>
    ensures { Wrote (W.contents w.old) (W.contents w.new) result (spec.cut_text count ending) }
{
    match ending {
        Ending::Whole => Ok(()),
        Ending::CutHeader(_) | Ending::CutData(_) => write_packets(w, count, ending),
    }
}
