//! The job `dbg`.

ghost use Rattle.std.specs.Prelude.{◌≡◌, ℕ, IsTrue, List, [], None, Some, string_bytes};
ghost use Rattle.std.specs.Option.{option_map};
ghost use Rattle.cbpf_tool.specs.Hosted.{IsReady, printed, without_output};
ghost use Rattle.cbpf_tool.specs.Jobs.{DbgDone, DebuggedTo, RanOnce, RepliesTo};

use crate::debugger::debug;
use crate::failure::{Failure, tooled};
use crate::fault::ToolFault;
use crate::host::{CreateFault, Host};
use std::alloc::Allocator;
use std::io::{Read, Write};

/// Runs a script over the machine's files.
fn run_script<A: Allocator, H: Host, I: Read, O: Write>(
    alloc: A,
    host: &mut H,
    reader: &mut I,
    writer: &mut O,
) -> Result<(), ToolFault>
    ensures { IsTrue (H.view host.old).is_known → (script : List ℕ) → I.remaining reader.old ≡ Some script →
        O.contents writer.old ≡ Some [] → (H.view host.new ≡ H.view host.old) × (text : List ℕ) ×
        (O.contents writer.new ≡ Some text) × DebuggedTo (H.view host.old) script text result }
{
    let mut disk = host.disk();
    debug(alloc, reader, writer, &mut disk)
}

/// Runs the script that a reader gives, with the replies to the standard output.
fn debug_to_output<A: Allocator, H: Host, I: Read>(
    alloc: A,
    host: &mut H,
    reader: &mut I,
) -> Result<(), ToolFault>
    ensures { IsReady (H.view host.old) → (script : List ℕ) → I.remaining reader.old ≡ Some script →
        RanOnce (without_output (H.view host.old)) (H.view host.new) printed
        (DebuggedTo (H.view host.old) script) result }
{
    let Ok(mut writer) = host.output() else {
        return Err(ToolFault::Memory);
    };
    let done = run_script(alloc, host, reader, &mut writer);
    host.print(writer);
    done
}

/// The same with the replies to a file.
fn debug_to_file<A: Allocator, H: Host, I: Read>(
    alloc: A,
    host: &mut H,
    reader: &mut I,
    name: String,
) -> Result<(), Failure>
    ensures { IsTrue (H.view host.old).is_known → (script : List ℕ) → I.remaining reader.old ≡ Some script →
        RepliesTo (H.view host.old) (H.view host.new) script (Some (string_bytes name)) result }
{
    match host.create(name.as_str()) {
        Ok(sink) => {
            let mut sink = sink;
            let done = run_script(alloc, host, reader, &mut sink);
            host.close(name.as_str(), sink);
            tooled(done)
        }
        Err(CreateFault::NotCreated) => Err(Failure::CannotOpen(name)),
        Err(CreateFault::Memory) => Err(Failure::Tool(ToolFault::Memory)),
    }
}

/// The same with the replies to the file of this name, or to the standard output.
fn debug_from<A: Allocator, H: Host, I: Read>(
    alloc: A,
    host: &mut H,
    reader: &mut I,
    output: Option<String>,
) -> Result<(), Failure>
    ensures { IsReady (H.view host.old) → (script : List ℕ) → I.remaining reader.old ≡ Some script →
        RepliesTo (H.view host.old) (H.view host.new) script (option_map (λ n. string_bytes n) output) result }
{
    match output {
        None => tooled(debug_to_output(alloc, host, reader)),
        Some(name) => debug_to_file(alloc, host, reader, name),
    }
}

/// Runs the script of the standard input, whose reader has a buffer in it.
fn debug_input<A: Allocator, H: Host>(
    alloc: A,
    host: &mut H,
    output: Option<String>,
) -> Result<(), Failure>
    ensures { IsReady (H.view host.old) → DbgDone (H.view host.old) (H.view host.new) None
        (option_map (λ n. string_bytes n) output) result }
{
    let mut reader = host.input();
    debug_from(alloc, host, &mut reader, output)
}

/// `dbg`: runs a script of a file, or of the standard input.
pub fn dbg_job<A: Allocator, H: Host>(
    alloc: A,
    host: &mut H,
    input: Option<String>,
    output: Option<String>,
) -> Result<(), Failure>
    ensures { IsReady (H.view host.old) → DbgDone (H.view host.old) (H.view host.new)
        (option_map (λ n. string_bytes n) input) (option_map (λ n. string_bytes n) output) result }
{
    match input {
        None => debug_input(alloc, host, output),
        Some(name) => match host.open(name.as_str()) {
            Ok(commands) => {
                let mut reader = commands;
                debug_from(alloc, host, &mut reader, output)
            }
            Err(_) => Err(Failure::CannotOpen(name)),
        },
    }
}
