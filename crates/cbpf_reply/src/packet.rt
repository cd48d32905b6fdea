//! The packet's bytes.

#![tactic(auto, using(crate::proofs::RowLemmas::rows))]

ghost use Rattle.std.specs.Prelude.{◌≡◌, ◌≤◌, ◌+◌, ◌-◌, ◌++◌, [], length};
ghost use Rattle.std.specs.Int.{div_ceil};
ghost use Rattle.std.specs.List.{flat_map};
ghost use Rattle.std.specs.Option.{option_map_or};
ghost use Rattle.cbpf_code.specs.Writing.{Wrote};
ghost use Rattle.cbpf_code.specs.declared.writing.TheConstants.{LINE_SIZE};
ghost use Rattle.cbpf_reply.specs.Dump.{why_line};
ghost use Rattle.cbpf_reply.specs.declared.packet.TheConstants.{ROW};
ghost use Rattle.cbpf_reply.specs.Packet as spec;

use crate::dump::prepend_why;
use crate::reply::Why;
use cbpf_code::{Line, WriteFault};
use std::io::Write;

/// How many bytes stand in a row.
const ROW: usize = 16;

/// Puts the bytes of a row in hexadecimal, each after a space.
#[inline(always)]
fn prepend_cells(line: &mut Line, row: &[u8])
    requires few { length row.now ≤ ROW }
    requires room { length line.old + 48 ≤ LINE_SIZE }
    ensures text { line.new ≡ flat_map spec.byte_text row.now ++ line.old }
    ensures grown { length line.new ≤ length line.old + 48 }
{
    let mut i = row.len();
    while i > 0 {
        i -= 1;
        line.prepend_byte(row[i]);
        line.prepend(b" ");
    }
}

/// Writes the rows from `from` on and before `to`, of which there are at most three, each after the offset of its
/// first byte, right in five places, and after the last ones why it stopped.
#[inline(always)]
fn write_rows<W: Write>(
    w: &mut W,
    bytes: &[u8],
    from: usize,
    to: usize,
    why: Option<Why>,
) -> Result<(), WriteFault>
    requires order { from ≤ to }
    requires few { to ≤ from + 3 }
    requires within { to ≤ div_ceil (length bytes.now) ROW }
    ensures { Wrote (W.contents w.old) (W.contents w.new) result
        (spec.texts_from (spec.packet_row bytes.now) from (to - from) ++ option_map_or (λ y. why_line y) why []) }
{
    let mut line = Line::new();
    if let Some(why) = why {
        prepend_why(&mut line, why);
    }
    let mut r = to;
    while r > from {
        r -= 1;
        let at = ROW * r;
        let end = bytes.len().min(at + ROW);
        line.prepend(b"\n");
        prepend_cells(&mut line, &bytes[at..end]);
        line.prepend(b":");
        let before = line.as_bytes().len();
        line.prepend_u64(at as u64);
        let digits = line.as_bytes().len() - before;
        line.prepend(&b"     "[digits.min(5)..]);
    }
    line.write(w)
}

/// Writes the lengths of a packet, a row for each `ROW` captured bytes, and why it stopped.
#[tactic(auto, using(crate::proofs::RowLemmas::rows))]
pub(crate) fn write_packet<W: Write>(
    w: &mut W,
    bytes: &[u8],
    wire: u32,
    why: Why,
) -> Result<(), WriteFault>
    ensures { Wrote (W.contents w.old) (W.contents w.new) result
        (spec.packet_head (length bytes.now) wire ++ (spec.packet_rows bytes.now ++ why_line why)) }
{
    let mut head = Line::new();
    head.prepend(b"\n");
    head.prepend_u32(wire);
    head.prepend(b" wire: ");
    head.prepend_u64(bytes.len() as u64);
    head.prepend(b"-- packet dump --\nlen: ");
    head.write(w)?;
    let count = bytes.len().div_ceil(ROW);
    let mut from = 0;
    while count - from > 3 {
        write_rows(w, bytes, from, from + 3, None)?;
        from += 3;
    }
    write_rows(w, bytes, from, count, Some(why))
}
