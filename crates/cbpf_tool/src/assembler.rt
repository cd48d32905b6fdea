//! Assembles what a reader gives.

ghost use Rattle.std.specs.Prelude.{◌≡◌, ◌≢◌, ℕ, List, [], Some, IfOk, IfErr, OnOk};
ghost use Rattle.std.specs.Io.KnownBytes.{IsAtEnd};
ghost use Rattle.cbpf_code.specs.Writing.{Appended, Wrote};
ghost use Rattle.cbpf_text.specs.Assembled.{Assembles};
ghost use Rattle.cbpf_tool.specs.Assembling.{Assembled, IsReadingFault, form_text};
ghost use Rattle.cbpf_tool.specs.declared.fault.ToolFault.TheVariants as fault;

use crate::READ_SIZE;
use crate::fault::ToolFault;
use cbpf_code::{Form, Insn, WriteFault, write_c, write_words};
use cbpf_text::{AsmFault, assemble};
use std::alloc::Allocator;
use std::io::{Read, Write};

/// All bytes up to the reader's end, by at most 18446744073709551615 reads. A read that is interrupted has
/// failed like any other, which `read_to_end` would make again.
pub(crate) fn read_source<A: Allocator, R: Read>(
    alloc: A,
    reader: &mut R,
) -> Result<Vec<u8, A>, ToolFault>
    ensures bytes { IfOk result
        (λ source. (text : List ℕ) → R.remaining reader.old ≡ Some text → source.items ≡ text) }
    ensures end { OnOk result (IsAtEnd (R.remaining reader.new)) }
    ensures fault { IfErr result IsReadingFault }
{
    let mut source = Vec::new(alloc);
    let mut chunk = [0; READ_SIZE];
    for _ in 0..u64::MAX {
        let Ok(count) = reader.read(&mut chunk) else {
            return Err(ToolFault::Read);
        };
        if count == 0 {
            return Ok(source);
        }
        if source.extend_from_slice(&chunk[..count]).is_err() {
            return Err(ToolFault::Memory);
        }
    }
    Err(ToolFault::Read)
}

/// Writes instructions in a form.
fn write_form<W: Write>(w: &mut W, list: &[Insn], form: Form) -> Result<(), WriteFault>
    ensures { Wrote (W.contents w.old) (W.contents w.new) result (form_text form list.now) }
{
    match form {
        Form::Decimal => write_words(w, list),
        Form::C => write_c(w, list),
    }
}

/// Writes the instructions that a source assembles to.
pub(crate) fn write_and_flush<W: Write>(
    w: &mut W,
    list: &[Insn],
    form: Form,
) -> Result<(), ToolFault>
    ensures wrote { (source : List ℕ) → Assembles source list.now
        → Assembled source form (W.contents w.old) (W.contents w.new) result }
    ensures fault { IfErr result (λ e. e ≡ fault.Write) }
{
    match write_form(w, list, form) {
        Err(_) => Err(ToolFault::Write),
        Ok(()) => match w.flush() {
            Ok(()) => Ok(()),
            Err(_) => Err(ToolFault::Write),
        },
    }
}

/// Writes the instructions of a source.
#[tactic(auto, using(crate::proofs::AssemblyLemmas::asm_answers))]
fn assemble_into<A: Allocator + Copy, W: Write>(
    alloc: A,
    source: &[u8],
    writer: &mut W,
    form: Form,
) -> Result<(), ToolFault>
    ensures { Assembled source.now form (W.contents writer.old) (W.contents writer.new) result }
{
    let list = match assemble(alloc, source) {
        Ok(list) => list,
        Err(AsmFault::Memory) => return Err(ToolFault::Memory),
        Err(fault) => return Err(ToolFault::Source(fault)),
    };
    write_and_flush(writer, &list, form)
}

/// Assembles a source, which is all bytes up to the reader's end, and writes its instructions.
///
/// # Errors
///
/// `Source` where the source is refused, `Read` where a read failed or the input hadn't ended after
/// 18446744073709551615 reads, `Memory` where the allocator refused: nothing was written. `Write` where a
/// write or a flush failed: a beginning of the text was written.
#[tactic(auto, using(crate::proofs::AssemblyLemmas::asm_answers))]
pub fn asm<A: Allocator, R: Read, W: Write>(
    alloc: A,
    reader: &mut R,
    writer: &mut W,
    form: Form,
) -> Result<(), ToolFault>
    ensures written { (source : List ℕ) → R.remaining reader.old ≡ Some source
        → Assembled source form (W.contents writer.old) (W.contents writer.new) result }
    ensures ended { OnOk result (IsAtEnd (R.remaining reader.new)) }
    ensures untouched { IfErr result (λ e. e ≢ fault.Write
        → Appended (W.contents writer.old) (W.contents writer.new) []) }
{
    match read_source(&alloc, reader) {
        Ok(source) => assemble_into(&alloc, &source, writer, form),
        Err(fault) => Err(fault),
    }
}
