//! Counts and places.

ghost use Rattle.std.specs.Prelude.{◌≡◌, ◌≤◌, ◌+◌, ◌++◌, length};
ghost use Rattle.cbpf_code.specs.Writing.{Wrote};
ghost use Rattle.cbpf_code.specs.declared.writing.TheConstants.{LINE_SIZE};
ghost use Rattle.cbpf_reply.specs.Counts as spec;

use crate::reply::{Counts, Place};
use cbpf_code::{Line, WriteFault};
use std::io::Write;

/// Writes a place after a text of at most 3 bytes.
#[inline(always)]
fn write_place_after<W: Write>(w: &mut W, before: &[u8], place: Place) -> Result<(), WriteFault>
    requires { length before.now ≤ 3 }
    ensures { Wrote (W.contents w.old) (W.contents w.new) result (spec.place_after before.now place) }
{
    let mut line = Line::new();
    line.prepend(b"\n");
    line.prepend_u32(place.step);
    line.prepend(b" ");
    line.prepend_u64(place.packet);
    line.prepend(before);
    line.write(w)
}

/// Writes a place.
#[tactic(auto, unfolding(crate::specs::Counts::place_text))]
pub fn write_place<W: Write>(w: &mut W, place: Place) -> Result<(), WriteFault>
    ensures { Wrote (W.contents w.old) (W.contents w.new) result (spec.place_text place) }
{
    write_place_after(w, b"", place)
}

/// Writes the place that a command went to.
#[tactic(auto, unfolding(crate::specs::Counts::at_text))]
pub fn write_went_to<W: Write>(w: &mut W, place: Place) -> Result<(), WriteFault>
    ensures { Wrote (W.contents w.old) (W.contents w.new) result (spec.at_text place) }
{
    write_place_after(w, b"at ", place)
}

/// Puts how many packets passed and failed, and how many asked for an extension without a value.
#[inline(always)]
#[tactic(auto, unfolding(crate::specs::Counts::counts_text))]
fn prepend_counts(line: &mut Line, counts: Counts)
    requires room { length line.old + 88 ≤ LINE_SIZE }
    ensures { line.new ≡ spec.counts_text counts ++ line.old }
{
    if counts.unknown != 0 {
        line.prepend_u64(counts.unknown);
        line.prepend(b" unknown:");
    }
    line.prepend_u64(counts.fails);
    line.prepend(b" fails:");
    line.prepend_u64(counts.passes);
    line.prepend(b"bpf passes:");
}

/// Writes the counts at the end of a capture.
pub fn write_finished<W: Write>(w: &mut W, counts: Counts) -> Result<(), WriteFault>
    ensures { Wrote (W.contents w.old) (W.contents w.new) result (spec.finished_text counts) }
{
    let mut line = Line::new();
    line.prepend(b"\n");
    prepend_counts(&mut line, counts);
    line.write(w)
}

/// Writes the counts at a limit, and the packet that comes next.
pub fn write_limit<W: Write>(w: &mut W, counts: Counts, packet: u64) -> Result<(), WriteFault>
    ensures { Wrote (W.contents w.old) (W.contents w.new) result (spec.limit_text counts packet) }
{
    let mut line = Line::new();
    line.prepend(b"\n");
    line.prepend_u64(packet);
    line.prepend(b" next:");
    prepend_counts(&mut line, counts);
    line.write(w)
}
