//! A program as the initializers of a C array.

ghost use Rattle.std.specs.Prelude.{◌≡◌, ◌≤◌, ◌+◌, ◌++◌, length, decimal};
ghost use Rattle.cbpf_code.specs.Writing.{Wrote};
ghost use Rattle.cbpf_code.specs.declared.writing.TheConstants.{LINE_SIZE};
ghost use Rattle.cbpf_code.specs.CForm.{hex_prefix, padding, c_line, c_form};

use crate::insn::Insn;
use crate::writing::{Line, WriteFault};
use std::io::Write;

fn prefix_of(n: u32) -> &'static [u8]
    ensures { result.now ≡ hex_prefix n }
{
    if n == 0 { b"00" } else { b"0x" }
}

/// Puts a number in decimal, right-aligned in two columns.
#[inline(always)]
#[tactic(auto, using(crate::proofs::DigitLemmas::one_or_more_digits))]
fn prepend_padded(line: &mut Line, n: u8)
    requires room { length line.old + 11 ≤ LINE_SIZE }
    ensures text { line.new ≡ padding n ++ decimal n ++ line.old }
    ensures grown { length line.new ≤ length line.old + 11 }
{
    line.prepend_u32(u32::from(n));
    if n < 10 {
        line.prepend(b" ");
    }
}

fn write_c_line<W: Write>(w: &mut W, insn: Insn) -> Result<(), WriteFault>
    ensures { Wrote (W.contents w.old) (W.contents w.new) result (c_line insn) }
{
    let code = u32::from(insn.code);
    let mut line = Line::new();
    line.prepend(b" },\n");
    line.prepend_hex(insn.k, 8);
    line.prepend(prefix_of(insn.k));
    line.prepend(b", ");
    prepend_padded(&mut line, insn.jf);
    line.prepend(b", ");
    prepend_padded(&mut line, insn.jt);
    line.prepend(b", ");
    line.prepend_hex(code, 2);
    line.prepend(prefix_of(code));
    line.prepend(b"{ ");
    line.write(w)
}

/// Writes one line an instruction, as `{ 0x28,  0,  0, 0x0000000c },`: the code and k in
/// hexadecimal, or zeros alone where they are 0, and jt and jf in decimal, right-aligned in two columns.
#[tactic(auto, using(crate::proofs::WrittenLemmas::loops))]
pub fn write_c<W: Write>(w: &mut W, list: &[Insn]) -> Result<(), WriteFault>
    ensures { Wrote (W.contents w.old) (W.contents w.new) result (c_form list.now) }
{
    for insn in list {
        write_c_line(w, *insn)?;
    }
    Ok(())
}
