//! The job `asm`.

ghost use Rattle.std.specs.Prelude.{◌≡◌, ℕ, List, [], Some, string_bytes};
ghost use Rattle.std.specs.Option.{option_map};
ghost use Rattle.cbpf_tool.specs.Hosted.{IsReady};
ghost use Rattle.cbpf_tool.specs.Jobs.{AsmDone, AssemblesTo, IsAssembled};

use crate::assembler::{read_source, write_and_flush};
use crate::failure::{Failure, source_failure, tooled};
use crate::fault::ToolFault;
use crate::host::Host;
use cbpf_code::Form;
use cbpf_text::assemble_placed;
use std::alloc::Allocator;
use std::io::{Read, Write};

/// Assembles a source, and shows the line of its fault.
fn assemble_shown<A: Allocator + Copy, W: Write>(
    alloc: A,
    source: &[u8],
    writer: &mut W,
    form: Form,
) -> Result<(), Failure>
    ensures { IsAssembled source.now form (W.contents writer.old) (W.contents writer.new) result }
{
    match assemble_placed(alloc, source) {
        Ok(list) => tooled(write_and_flush(writer, &list, form)),
        Err(fault) => Err(source_failure(source, fault)),
    }
}

/// The same of what a reader gives.
fn assemble_all<A: Allocator, I: Read, W: Write>(
    alloc: A,
    reader: &mut I,
    writer: &mut W,
    form: Form,
) -> Result<(), Failure>
    ensures { (source : List ℕ) → I.remaining reader.old ≡ Some source →
        IsAssembled source form (W.contents writer.old) (W.contents writer.new) result }
{
    match read_source(&alloc, reader) {
        Ok(source) => assemble_shown(&alloc, &source, writer, form),
        Err(fault) => Err(Failure::Tool(fault)),
    }
}

/// Assembles what a reader gives to the standard output.
fn assemble_from<A: Allocator, H: Host, I: Read>(
    alloc: A,
    host: &mut H,
    reader: &mut I,
    form: Form,
) -> Result<(), Failure>
    ensures { IsReady (H.view host.old) → (source : List ℕ) → I.remaining reader.old ≡ Some source →
        AssemblesTo (H.view host.old) (H.view host.new) source form result }
{
    let Ok(mut writer) = host.output() else {
        return Err(Failure::Tool(ToolFault::Memory));
    };
    let done = assemble_all(alloc, reader, &mut writer, form);
    host.print(writer);
    done
}

/// `asm`: assembles a file, or the standard input, to the standard output.
pub fn asm_job<A: Allocator, H: Host>(
    alloc: A,
    host: &mut H,
    form: Form,
    file: Option<String>,
) -> Result<(), Failure>
    ensures { IsReady (H.view host.old) → AsmDone (H.view host.old) (H.view host.new) form
        (option_map (λ n. string_bytes n) file) result }
{
    match file {
        None => {
            let mut input = host.input();
            assemble_from(alloc, host, &mut input, form)
        }
        Some(name) => match host.open(name.as_str()) {
            Ok(source) => {
                let mut source = source;
                assemble_from(alloc, host, &mut source, form)
            }
            Err(_) => Err(Failure::CannotOpen(name)),
        },
    }
}
