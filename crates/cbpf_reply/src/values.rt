//! Values of extensions.

ghost use Rattle.cbpf_code.specs.Writing.{Wrote};
ghost use Rattle.cbpf_reply.specs.Values as spec;

use cbpf_code::{Ext, Line, WriteFault, ext_name};
use std::io::Write;

/// Writes the reply to `value`.
#[tactic(auto, using(cbpf_code::proofs::NameLemmas::names))]
pub fn write_value<W: Write>(w: &mut W, e: Ext, n: u32) -> Result<(), WriteFault>
    ensures { Wrote (W.contents w.old) (W.contents w.new) result (spec.value_text e n) }
{
    let mut line = Line::new();
    line.prepend(b"\n");
    line.prepend_u32(n);
    line.prepend(b" ");
    line.prepend(ext_name(e).as_bytes());
    line.prepend(b"value ");
    line.write(w)
}
