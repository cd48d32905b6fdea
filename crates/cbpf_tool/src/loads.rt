//! Loads of programs and captures into a session.

ghost use Rattle.std.specs.Prelude.{Some, Ok};
ghost use Rattle.cbpf_code.specs.Writing.{Wrote};
ghost use Rattle.cbpf_tool.specs.Progress.{Answered, Replied};
ghost use Rattle.cbpf_tool.specs.declared.command.Command.TheVariants.{LoadWords, LoadCapture};

use crate::files::Files;
use crate::reply_to::ScriptSession;
use cbpf_code::{Message, WriteFault, check, read_words};
use cbpf_reply::{write_capture, write_error, write_program};
use pcap_classic::Capture;
use std::alloc::Allocator;
use std::io::Write;

/// `load bpf`
pub(crate) fn load_words<A: Allocator, W: Write>(
    alloc: A,
    w: &mut W,
    session: &mut ScriptSession<A>,
    text: &[u8],
) -> Result<(), WriteFault>
    ensures { Answered session.old session.new (LoadWords text.now)
        (λ t. Wrote (W.contents w.old) (W.contents w.new) result t) }
{
    let list = match read_words(alloc, text) {
        Ok(list) => list,
        Err(fault) => return write_error(w, fault.message()),
    };
    match check(list) {
        Ok(program) => {
            let count = program.len();
            session.load_program(program);
            write_program(w, count)
        }
        Err((fault, _)) => write_error(w, fault.message()),
    }
}

/// `load pcap`
pub(crate) fn load_capture<A: Allocator + Copy, W: Write, F: Files>(
    alloc: A,
    w: &mut W,
    session: &mut ScriptSession<A>,
    files: &mut F,
    name: &str,
) -> Result<(), WriteFault>
    ensures { Replied (F.source files.old) (F.source files.new) session.old session.new
        (Ok (Some (LoadCapture name.now))) (λ t. Wrote (W.contents w.old) (W.contents w.new) result t) }
{
    let bytes = match files.load(alloc, name) {
        Ok(bytes) => bytes,
        Err(fault) => return write_error(w, fault.message()),
    };
    match Capture::from_bytes(alloc, bytes) {
        Ok(capture) => {
            let written = write_capture(w, &capture);
            session.load_capture(capture);
            written
        }
        Err((fault, _)) => write_error(w, Message::Text(fault.message())),
    }
}
