//! Why a job ended before its end.

ghost use Rattle.std.specs.Prelude.{◌≡◌};
ghost use Rattle.cbpf_tool.specs.Jobs as spec;

use crate::fault::ToolFault;
use crate::hints::{Hint, source_hint};
use crate::host::CreateFault;
use cbpf_text::{AsmFault, PlacedFault};
use std::error::Error;
use std::fmt;

/// Why the program failed.
#[derive(Debug, Drop)]
pub enum Failure {
    /// A tool ended before its end.
    Tool(ToolFault),
    /// The source is refused, whose line of the fault is shown so.
    Source(AsmFault, Hint),
    /// The file of this name could not be opened, or created.
    CannotOpen(String),
}

impl fmt::Display for Failure {
    ghost use Rattle.std.specs.Prelude.{Some};
    ghost use Rattle.cbpf_tool.specs.Messages.{failure_message};

    ghost output = { λ fault. Some (failure_message fault) };

    fn fmt<W: fmt::Write>(&self, f: &mut fmt::Formatter<W>) -> fmt::Result {
        match self {
            Failure::Tool(fault) => fmt::Display::fmt(fault, f),
            Failure::Source(fault, _) => fmt::Display::fmt(fault, f),
            Failure::CannotOpen(name) => write!(f, "{} {name}", CreateFault::NotCreated),
        }
    }
}

impl Error for Failure {}

/// The result of a tool as that of a job.
pub(crate) fn tooled(done: Result<(), ToolFault>) -> Result<(), Failure>
    ensures { result ≡ spec.tooled done }
{
    match done {
        Ok(()) => Ok(()),
        Err(fault) => Err(Failure::Tool(fault)),
    }
}

/// The fault of a source as the failure of a job, which shows its line.
pub(crate) fn source_failure(source: &[u8], fault: PlacedFault) -> Failure
    ensures { result ≡ spec.source_failure source.now fault }
{
    match fault {
        PlacedFault::Memory => Failure::Tool(ToolFault::Memory),
        PlacedFault::At(_, at) => {
            let fault = fault.on_line(source);
            Failure::Source(fault, source_hint(source, fault, at))
        }
    }
}
