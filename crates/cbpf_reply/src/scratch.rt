//! The lines of scratch memory.

ghost use Rattle.std.specs.Prelude.{◌≡◌, ◌≤◌, ◌<◌, ◌+◌, ◌++◌, length};
ghost use Rattle.cbpf_code.specs.Writing.{Wrote};
ghost use Rattle.cbpf_reply.specs.Scratch as spec;

use cbpf_code::{Line, WriteFault};
use std::io::Write;

/// The line of slots `first` to `last`. Only where one is written is room for it made.
fn write_scratch_line<W: Write>(
    w: &mut W,
    first: usize,
    last: usize,
    value: u32,
) -> Result<(), WriteFault>
    requires { first ≤ last }
    ensures { Wrote (W.contents w.old) (W.contents w.new) result (spec.scratch_line first last value) }
{
    let mut label = Line::new();
    label.prepend(b"]:");
    label.prepend_u64(last as u64);
    if first < last {
        label.prepend(b",");
        label.prepend_u64(first as u64);
    }
    label.prepend(b"M[");
    let label = label.as_bytes();
    let mut line = Line::new();
    line.prepend(b"]\n");
    line.prepend_u32(value);
    line.prepend(b"][");
    line.prepend_hex(value, 8);
    line.prepend(b"[");
    // The label stands left in ten places.
    line.prepend(&b"          "[label.len().min(10)..]);
    line.prepend(label);
    line.write(w)
}

/// Writes the line that begins at a slot, if one does.
#[tactic(auto, using(crate::proofs::RowLemmas::runs))]
pub(crate) fn write_slots_at<W: Write>(w: &mut W, slots: &[u32], i: usize) -> Result<(), WriteFault>
    requires { i < length slots.now }
    ensures { Wrote (W.contents w.old) (W.contents w.new) result (spec.slots_line slots.now i) }
{
    let value = slots[i];
    if i > 0 && slots[i - 1] == value {
        return Ok(());
    }
    let mut end = i + 1;
    while end < slots.len() && slots[end] == value {
        end += 1;
    }
    write_scratch_line(w, i, end - 1, value)
}
