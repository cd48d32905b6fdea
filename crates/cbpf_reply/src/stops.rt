//! The list of stops.

ghost use Rattle.cbpf_code.specs.Writing.{Wrote};
ghost use Rattle.cbpf_reply.specs.Stops as spec;

use crate::dump::prepend_why;
use crate::reply::Stop;
use cbpf_code::{Line, WriteFault, write_parts};
use itoa::Buffer;
use std::io::Write;

/// Writes a stop's line in the list of stops.
pub fn write_stop_line<W: Write>(w: &mut W, stop: &Stop) -> Result<(), WriteFault>
    ensures { Wrote (W.contents w.old) (W.contents w.new) result (spec.stop_line stop.now) }
{
    let mut line = Line::new();
    prepend_why(&mut line, stop.why);
    line.prepend(b" ");
    line.prepend_u32(stop.state.x());
    line.prepend(b" X ");
    line.prepend_u32(stop.state.a());
    line.prepend(b" A ");
    line.prepend_u32(stop.state.pc());
    line.prepend(b" l");
    line.prepend_u32(stop.place.step);
    line.prepend(b" ");
    line.prepend_u64(stop.place.packet);
    line.write(w)
}

/// Writes how many stops there are.
pub fn write_total<W: Write>(w: &mut W, n: u128) -> Result<(), WriteFault>
    ensures { Wrote (W.contents w.old) (W.contents w.new) result (spec.total_text n) }
{
    let mut number = Buffer::new();
    write_parts(w, &[b"stops: ", number.format(n).as_bytes(), b"\n"])
}
