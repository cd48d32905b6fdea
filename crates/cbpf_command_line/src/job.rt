//! What the program is asked to do.

use cbpf_code::Form;
use std::error::Error;
use std::fmt;

/// What the program is asked to do. Without a file's name it is the standard stream.
#[derive(Debug, PartialEq, Eq, Drop)]
pub enum Job {
    /// `asm [-c] [file]`: assemble a source.
    Asm {
        form: Form,
        file: Option<String>,
    },
    /// `dbg [input [output]]`, and the program without words: run the debugger's commands.
    Dbg {
        input: Option<String>,
        output: Option<String>,
    },
}

/// Why a command line asks for no job.
#[derive(Debug, PartialEq, Eq, Drop)]
pub enum LineFault {
    /// It asks for help or the version, and this is the text.
    Help(String),
    /// It is refused, and this says why.
    Refused(String),
    /// The allocator refused.
    Memory,
}

impl fmt::Display for LineFault {
    ghost use Rattle.std.specs.Prelude.{Some};
    ghost use Rattle.cbpf_command_line.specs.CommandLine.{line_message};

    ghost output = { λ fault. Some (line_message fault) };

    fn fmt<W: fmt::Write>(&self, f: &mut fmt::Formatter<W>) -> fmt::Result {
        match self {
            LineFault::Help(text) => f.write_str(text.as_str()),
            LineFault::Refused(text) => f.write_str(text.as_str()),
            LineFault::Memory => f.write_str("out of memory"),
        }
    }
}

impl Error for LineFault {}
