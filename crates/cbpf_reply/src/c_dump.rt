//! The program that is loaded, in C form.

ghost use Rattle.std.specs.Prelude.{Some};
ghost use Rattle.cbpf_code.specs.Writing.{Wrote};
ghost use Rattle.cbpf_reply.specs.CDump as spec;

use cbpf_code::{Insn, WriteFault, write_bytes, write_c};
use std::io::Write;

/// Writes a program in C form, under its head line.
pub fn write_c_dump<W: Write>(w: &mut W, program: &[Insn]) -> Result<(), WriteFault>
    ensures { Wrote (W.contents w.old) (W.contents w.new) result (spec.c_dump_text (Some program.now)) }
{
    write_bytes(w, b"/* { op, jt, jf, k }, */\n")?;
    write_c(w, program)
}
