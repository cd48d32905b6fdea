//! Why the assembler or the debugger ends before its end.

use cbpf_text::AsmFault;
use cbpf_why::WhyFault;
use std::error::Error;
use std::fmt;

/// Why a run of the tool ended before its end.
#[derive(Clone, Copy, PartialEq, Eq, Debug)]
pub enum ToolFault {
    /// The source is refused. It is never `AsmFault::Memory`.
    Source(AsmFault),
    /// The input failed, or hadn't ended after 18446744073709551615 reads.
    Read,
    /// A write failed, as [`WriteFault`](cbpf_code::WriteFault) says, or a flush did.
    Write,
    /// The input, or what it stands for, could not be held.
    Memory,
}

impl fmt::Display for ToolFault {
    ghost use Rattle.std.specs.Prelude.{Some};
    ghost use Rattle.cbpf_tool.specs.Messages.{tool_message};

    ghost output = { λ fault. Some (tool_message fault) };

    fn fmt<W: fmt::Write>(&self, f: &mut fmt::Formatter<W>) -> fmt::Result {
        match self {
            ToolFault::Source(fault) => fmt::Display::fmt(fault, f),
            ToolFault::Read => fmt::Display::fmt(&WhyFault::Read, f),
            ToolFault::Write => fmt::Display::fmt(&WhyFault::Write, f),
            ToolFault::Memory => fmt::Display::fmt(&WhyFault::Memory, f),
        }
    }
}

impl Error for ToolFault {}
