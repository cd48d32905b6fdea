//! Why `why` ended before its end.

ghost use Rattle.std.specs.Prelude.{◌≡◌, Some, None, string_bytes};
ghost use Rattle.std.specs.Option.{option_map};
ghost use Rattle.cbpf_tool.specs.WhyJobs as spec;

use crate::failure::Failure;
use crate::fault::ToolFault;
use crate::hints::Hint;
use crate::host::CreateFault;
use crate::remarks::Remarks;
use crate::report_asked::ReportAsked;
use cbpf_why::{CaptureEnd, FilterFault, WhyFault};
use pcap_classic::HeaderFault;
use std::error::Error;
use std::fmt;

/// Why the program failed, with `why`.
#[derive(Debug, Drop)]
pub enum WhyFailure {
    /// As of the other jobs.
    Job(Failure),
    /// The file of this name could not be read.
    Read(String),
    /// The filter of this name could not be opened.
    NoFilter(String),
    /// The filter of this name is refused, with what is said of it on the next line.
    Filter(String, FilterFault, Hint),
    /// The capture of this name is none.
    Capture(String, HeaderFault),
    /// The standard input holds no capture.
    Input(HeaderFault),
}

/// Shows what failed, after the name of the file if there is one.
impl fmt::Display for WhyFailure {
    ghost use Rattle.std.specs.Prelude.{Some};
    ghost use Rattle.cbpf_tool.specs.Messages.{why_failure_message};

    ghost output = { λ fault. Some (why_failure_message fault) };

    fn fmt<W: fmt::Write>(&self, f: &mut fmt::Formatter<W>) -> fmt::Result {
        match self {
            WhyFailure::Job(failure) => fmt::Display::fmt(failure, f),
            WhyFailure::Read(name) => write!(f, "{name}: {}", ToolFault::Read),
            WhyFailure::NoFilter(name) => write!(f, "{} {name}", CreateFault::NotCreated),
            WhyFailure::Filter(name, fault, _) => write!(f, "{name}: {fault}"),
            WhyFailure::Capture(name, fault) => write!(f, "{name}: {fault}"),
            WhyFailure::Input(fault) => fmt::Display::fmt(fault, f),
        }
    }
}

impl Error for WhyFailure {}

/// The fault of a tool as that of `why`.
pub(crate) fn failed(fault: ToolFault) -> WhyFailure
    ensures { result ≡ spec.failed fault }
{
    WhyFailure::Job(Failure::Tool(fault))
}

/// A read failed of the file of this name, or of the standard input.
pub(crate) fn read_failure(name: Option<String>) -> WhyFailure
    ensures { spec.IsReadFailure (option_map (λ n. string_bytes n) name) result }
{
    match name {
        Some(name) => WhyFailure::Read(name),
        None => failed(ToolFault::Read),
    }
}

/// Why a report on the capture of this name ended, as the failure of the job.
fn report_failure(fault: WhyFault, name: Option<String>) -> WhyFailure
    ensures { spec.IsReportFailure (option_map (λ n. string_bytes n) name) fault result }
{
    match fault {
        WhyFault::Read => read_failure(name),
        WhyFault::Write => failed(ToolFault::Write),
        WhyFault::Memory => failed(ToolFault::Memory),
    }
}

/// The end of a report on the capture of this name and link type as that of the job.
pub(crate) fn reported(
    done: Result<Option<CaptureEnd>, WhyFault>,
    asked: ReportAsked,
    name: Option<String>,
    link: u32,
) -> Result<Remarks, WhyFailure>
    ensures { spec.IsReported asked (option_map (λ n. string_bytes n) name) link done result }
{
    match done {
        Ok(end) => Ok(Remarks {
            capture: name,
            link,
            asked,
            end,
        }),
        Err(fault) => Err(report_failure(fault, name)),
    }
}
