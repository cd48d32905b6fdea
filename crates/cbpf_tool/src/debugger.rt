//! Runs a script line by line.

ghost use Rattle.std.specs.Prelude.{◌≡◌, ℕ, List, [], Some, IsTrue, Ok};
ghost use Rattle.cbpf_dbg.specs.View.{empty_view};
ghost use Rattle.cbpf_tool.specs.Debugged.{Debugged};
ghost use Rattle.cbpf_tool.specs.Progress.{LineRan};
ghost use Rattle.cbpf_tool.specs.LineReader.{pending_in};

use crate::command::{Command, command_of};
use crate::fault::ToolFault;
use crate::files::Files;
use crate::flushing::{Said, flush, flush_if, may_take_long};
use crate::line_reader::{LineEnd, LineReader};
use crate::loads::{load_capture, load_words};
use crate::reply_to::{ScriptSession, reply_to};
use cbpf_code::WriteFault;
use cbpf_dbg::{MarkTrail, Session};
use cbpf_reply::{CommandFault, write_error};
use std::alloc::Allocator;
use std::io::{Read, Write};

/// What comes after a line.
#[derive(Clone, Copy)]
pub enum AfterLine {
    NextLine,
    Quit,
}

/// Runs a command, and writes its reply; `quit` has none, and ends the script.
fn act<A: Allocator + Copy, W: Write, F: Files>(
    alloc: A,
    w: &mut W,
    session: &mut ScriptSession<A>,
    files: &mut F,
    command: Command<'_>,
) -> Result<AfterLine, WriteFault>
    ensures { LineRan (F.source files.old) (F.source files.new) session.old session.new (Ok (Some command.entry))
        (W.contents w.old) (W.contents w.new) result }
{
    let reply = match command {
        Command::LoadWords(text) => load_words(alloc, w, session, text.as_slice()),
        Command::LoadCapture(name) => load_capture(alloc, w, session, files, name.as_str()),
        Command::Session(command) => reply_to(w, session, command),
        Command::Quit => return Ok(AfterLine::Quit),
    };
    reply?;
    Ok(AfterLine::NextLine)
}

/// Runs a line that was read, and writes its reply.
fn run_line<A: Allocator + Copy, W: Write, F: Files>(
    alloc: A,
    w: &mut W,
    session: &mut ScriptSession<A>,
    files: &mut F,
    said: Said<'_>,
) -> Result<AfterLine, WriteFault>
    ensures { LineRan (F.source files.old) (F.source files.new) session.old session.new
        said.entry (W.contents w.old) (W.contents w.new) result }
{
    match said {
        Ok(None) => Ok(AfterLine::NextLine),
        Ok(Some(command)) => act(alloc, w, session, files, command),
        Err(fault) => {
            write_error(w, fault.message())?;
            Ok(AfterLine::NextLine)
        }
    }
}

/// Runs the lines of the input up to `quit`, in a session with nothing loaded, and then flushes the writer. `line` is
/// room for one line.
// It takes references, so that no exit drops anything: that keeps its proof short. `debug` drops them at its only exit.
fn run_lines<A: Allocator + Copy, R: Read, W: Write, F: Files>(
    alloc: A,
    reader: &mut R,
    writer: &mut W,
    files: &mut F,
    session: &mut ScriptSession<A>,
    lines: &mut LineReader,
    line: &mut Vec<u8, A>,
) -> Result<(), ToolFault>
    requires session { session.old ≡ empty_view }
    requires lines { pending_in lines.old.chunk lines.old.start lines.old.end ≡ [] }
    ensures { (script : List ℕ) → R.remaining reader.old ≡ Some script → IsTrue (F.source files.old).is_known →
        Debugged script (R.remaining reader.new) (W.contents writer.old) (W.contents writer.new) (F.source files.old)
        (F.source files.new) result }
{
    'script: loop {
        if let Err(fault) = flush_if(writer, !lines.has_line()) {
            return Err(fault);
        }
        match lines.next_line(reader, line) {
            Err(fault) => return Err(fault),
            Ok(None) => return flush(writer),
            Ok(Some(end)) => {
                let said = command_of(line.as_slice());
                if let Err(fault) = flush_if(writer, may_take_long(&said)) {
                    return Err(fault);
                }
                match run_line(alloc, writer, session, files, said) {
                    Err(_) => return Err(ToolFault::Write),
                    Ok(AfterLine::Quit) => return flush(writer),
                    Ok(AfterLine::NextLine) => match end {
                        LineEnd::Newline => {}
                        LineEnd::Input => return flush(writer),
                    },
                }
            }
        }
    }
}

/// Runs a script of commands: reads lines up to `quit` or the end of the input, and writes the reply of
/// each before the next one acts. A refused command is answered by a line `error: ..`, and the script goes
/// on. The writer is flushed before each line that isn't read yet, before `Ok`, and before each command that loads a
/// capture, runs, resumes, lists stops or steps by 4096 instructions or more, as it may take long.
///
/// # Errors
///
/// `Read` where a read failed, or the input hadn't ended after 18446744073709551615 reads: the replies to
/// the whole lines before it were written. `Write` where a write or a flush failed: a beginning of the
/// replies was written. `Memory` where a line could not be held: the replies to the lines before it were
/// written.
pub fn debug<A: Allocator, R: Read, W: Write, F: Files>(
    alloc: A,
    reader: &mut R,
    writer: &mut W,
    files: &mut F,
) -> Result<(), ToolFault>
    ensures { (script : List ℕ) → R.remaining reader.old ≡ Some script → IsTrue (F.source files.old).is_known →
        Debugged script (R.remaining reader.new) (W.contents writer.old) (W.contents writer.new) (F.source files.old)
        (F.source files.new) result }
{
    let alloc = &alloc;
    let mut session = Session::new(alloc, MarkTrail::new());
    let mut lines = LineReader::new();
    let mut line = Vec::new(alloc);
    run_lines(
        alloc,
        reader,
        writer,
        files,
        &mut session,
        &mut lines,
        &mut line,
    )
}
