//! When replies go out.

ghost use Rattle.std.specs.Prelude.{◌≡◌, IfErr};
ghost use Rattle.std.specs.Io.KnownBytes.{Keeps};
ghost use Rattle.cbpf_tool.specs.Flushing as spec;
ghost use Rattle.cbpf_tool.specs.declared.fault.ToolFault.TheVariants as fault;

use crate::command::{Command, SessionCommand};
use crate::fault::ToolFault;
use cbpf_reply::CommandFault;
use std::io::Write;

/// A step of as many instructions, on or back, may take long.
const LONG_STEP: u64 = 4096;

/// What a line says, as `command_of` answers it.
pub(crate) type Said<'a> = Result<Option<Command<'a>>, CommandFault>;

/// Whether a command of the session may make many turns.
// Without `_`, so that each new command gets an answer.
fn makes_many_turns(command: &SessionCommand) -> bool
    ensures { result ≡ spec.makes_many_turns command.now }
{
    match command {
        SessionCommand::Run(_) | SessionCommand::Resume(_) | SessionCommand::Stops => true,
        SessionCommand::Step(n) => LONG_STEP <= n.unsigned_abs(),
        SessionCommand::Disassemble
        | SessionCommand::Dump
        | SessionCommand::Breakpoint(_, _)
        | SessionCommand::Breakpoints
        | SessionCommand::ResetBreakpoints
        | SessionCommand::Delete(_)
        | SessionCommand::Select(_)
        | SessionCommand::Mark
        | SessionCommand::Value(_, _) => false,
    }
}

/// Whether a line's command may take long: it may make many turns, or loads a capture.
pub(crate) fn may_take_long(said: &Said<'_>) -> bool
    ensures { result ≡ spec.may_take_long said.now }
{
    match said {
        Ok(Some(Command::LoadCapture(_))) => true,
        Ok(Some(Command::Session(command))) => makes_many_turns(command),
        Ok(Some(Command::LoadWords(_) | Command::Quit)) | Ok(None) | Err(_) => false,
    }
}

/// Flushes a writer.
pub(crate) fn flush<W: Write>(w: &mut W) -> Result<(), ToolFault>
    ensures kept { Keeps (W.contents w.old) (W.contents w.new) }
    ensures fault { IfErr result (λ e. e ≡ fault.Write) }
{
    if w.flush().is_err() {
        return Err(ToolFault::Write);
    }
    Ok(())
}

/// Flushes a writer where that is due.
#[inline(always)]
pub(crate) fn flush_if<W: Write>(w: &mut W, is_due: bool) -> Result<(), ToolFault>
    ensures kept { Keeps (W.contents w.old) (W.contents w.new) }
    ensures fault { IfErr result (λ e. e ≡ fault.Write) }
{
    if is_due {
        return flush(w);
    }
    Ok(())
}
