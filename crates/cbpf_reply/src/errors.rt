//! The lines `error: ..`: refusals by their numbers, and out of memory.

ghost use Rattle.std.specs.Prelude.{◌≡◌};
ghost use Rattle.cbpf_code.specs.Messages.{message_text};
ghost use Rattle.cbpf_code.specs.Writing.{Wrote};
ghost use Rattle.cbpf_reply.specs.Errors as spec;

use crate::reply::SessionFault;
use cbpf_code::Message::{self, Number, Numbers, Text};
use cbpf_code::{WriteFault, write_parts};
use itoa::Buffer;
use std::error::Error;
use std::fmt;
use std::io::Write;

/// Why a line is no command.
#[derive(Clone, Copy, Debug, PartialEq, Eq)]
pub enum CommandFault {
    /// Q1: the first word is no command's.
    UnknownCommand,
    /// Q2: a missing, extra or unreadable argument.
    WrongArguments,
}

impl CommandFault {
    /// What the program prints of it after `error: `.
    pub fn message(&self) -> Message
        ensures { message_text result ≡ spec.command_message self.now }
    {
        match *self {
            CommandFault::UnknownCommand => Text("Q1 unknown command"),
            CommandFault::WrongArguments => Text("Q2 wrong arguments"),
        }
    }
}

impl fmt::Display for CommandFault {
    ghost use Rattle.std.specs.Prelude.{Some};
    ghost use Rattle.cbpf_reply.specs.Errors.{command_message};

    ghost output = { λ fault. Some (command_message fault) };

    fn fmt<W: fmt::Write>(&self, f: &mut fmt::Formatter<W>) -> fmt::Result {
        write!(f, "{}", self.message())
    }
}

impl Error for CommandFault {}

/// Why a file was not loaded.
#[derive(Clone, Copy, PartialEq, Eq, Debug)]
pub enum LoadFault {
    /// F1: there is no file of that name.
    Absent,
    /// F2: the file could not be read.
    Device,
    /// Out of memory for its bytes.
    Memory,
}

impl LoadFault {
    /// What the program prints of it after `error: `.
    pub fn message(&self) -> Message
        ensures { message_text result ≡ spec.load_message self.now }
    {
        match *self {
            LoadFault::Absent => Text("F1 no such file"),
            LoadFault::Device => Text("F2 file could not be read"),
            LoadFault::Memory => OUT_OF_MEMORY,
        }
    }
}

impl fmt::Display for LoadFault {
    ghost use Rattle.std.specs.Prelude.{Some};
    ghost use Rattle.cbpf_reply.specs.Errors.{load_message};

    ghost output = { λ fault. Some (load_message fault) };

    fn fmt<W: fmt::Write>(&self, f: &mut fmt::Formatter<W>) -> fmt::Result {
        write!(f, "{}", self.message())
    }
}

impl Error for LoadFault {}

impl SessionFault {
    /// What the program prints of it after `error: `.
    pub fn message(&self) -> Message
        ensures { message_text result ≡ spec.session_message self.now }
    {
        match *self {
            SessionFault::NoProgram => Text("S1 no program"),
            SessionFault::NoCapture => Text("S2 no capture"),
            SessionFault::NoPackets => Text("S3 capture has no packets"),
            SessionFault::NoInstruction => Text("S4 no such instruction"),
            SessionFault::NoPacket => Text("S5 no such packet"),
            SessionFault::NoStep(steps) => Number("S6 packet has ", u64::from(steps), " steps"),
            SessionFault::TooFarBack(most) => Number("S7 at most ", u64::from(most), " back"),
            SessionFault::ZeroCount => Text("S8 count is zero"),
            SessionFault::TakesNoValue => Text("S9 no value for this extension"),
            SessionFault::Memory => OUT_OF_MEMORY,
        }
    }
}

impl fmt::Display for SessionFault {
    ghost use Rattle.std.specs.Prelude.{Some};
    ghost use Rattle.cbpf_reply.specs.Errors.{session_message};

    ghost output = { λ fault. Some (session_message fault) };

    fn fmt<W: fmt::Write>(&self, f: &mut fmt::Formatter<W>) -> fmt::Result {
        write!(f, "{}", self.message())
    }
}

impl Error for SessionFault {}

const OUT_OF_MEMORY: Message = Text("out of memory");

/// Writes a line that begins so and ends with what a fault says.
pub fn write_message<W: Write>(
    w: &mut W,
    start: &'static [u8],
    message: Message,
) -> Result<(), WriteFault>
    ensures { Wrote (W.contents w.old) (W.contents w.new) result (spec.message_line start.now (message_text message)) }
{
    match message {
        Text(text) => write_parts(w, &[start, text.as_bytes(), b"\n"]),
        Number(before, n, after) => {
            let mut number = Buffer::new();
            let n = number.format(n).as_bytes();
            let (before, after) = (before.as_bytes(), after.as_bytes());
            write_parts(w, &[start, before, n, after, b"\n"])
        }
        Numbers(before, m, between, n, after) => {
            let (mut first, mut second) = (Buffer::new(), Buffer::new());
            let (m, n) = (first.format(m).as_bytes(), second.format(n).as_bytes());
            let (before, between) = (before.as_bytes(), between.as_bytes());
            let after = after.as_bytes();
            write_parts(w, &[start, before, m, between, n, after, b"\n"])
        }
    }
}

/// Writes the line of what a fault says.
pub fn write_error<W: Write>(w: &mut W, message: Message) -> Result<(), WriteFault>
    ensures { Wrote (W.contents w.old) (W.contents w.new) result (spec.error_line (message_text message)) }
{
    write_message(w, b"error: ", message)
}
