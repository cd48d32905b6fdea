//! The job `why`.

ghost use Rattle.std.specs.Prelude.{◌≡◌, ℕ, List, Some, None, IsTrue, string_bytes};
ghost use Rattle.std.specs.Option.{option_map};
ghost use Rattle.pcap_classic.specs.Savefile.{Savefile};
ghost use Rattle.cbpf_why.specs.Reports.{ReadsWithin};
ghost use Rattle.cbpf_tool.specs.Hosted.{IsReady};
ghost use Rattle.cbpf_tool.specs.WhyJobs as spec;

use crate::assembler::read_source;
use crate::failure::Failure;
use crate::fault::ToolFault;
use crate::hints::filter_hint;
use crate::host::Host;
use crate::remarks::Remarks;
use crate::report_asked::ReportAsked;
use crate::request::WhyJob;
use crate::why_failure::{WhyFailure, failed, read_failure, reported};
use cbpf_code::Program;
use cbpf_why::{CaptureEnd, FilterFault, Question, WhyFault, program_of, why};
use pcap_classic::{CaptureReader, OpenFault, ReadFault};
use std::alloc::Allocator;
use std::io::{Read, Write};

/// The filter that a file holds.
#[tactic(auto, using(crate::proofs::WhyLemmas::hinted))]
fn read_filter<A: Allocator + Copy, R: Read>(
    alloc: A,
    reader: &mut R,
    name: String,
) -> Result<Program<A>, WhyFailure>
    ensures { (text : List ℕ) → R.remaining reader.old ≡ Some text → spec.IsProgram (string_bytes name) text result }
{
    let mut text = match read_source(alloc, reader) {
        Ok(text) => text,
        Err(ToolFault::Read) => return Err(WhyFailure::Read(name)),
        Err(fault) => return Err(failed(fault)),
    };
    match program_of(alloc, text.as_mut_slice()) {
        Ok(program) => Ok(program),
        Err(FilterFault::Memory) => Err(failed(ToolFault::Memory)),
        Err(fault) => {
            let hint = filter_hint(&text, fault);
            Err(WhyFailure::Filter(name, fault, hint))
        }
    }
}

/// The filter of this name.
fn open_filter<A: Allocator + Copy, H: Host>(
    alloc: A,
    host: &mut H,
    name: String,
) -> Result<Program<A>, WhyFailure>
    ensures { IsTrue (H.view host.old).is_known →
        spec.OpensFilter (H.view host.old) (H.view host.new) (string_bytes name) result }
{
    match host.open(name.as_str()) {
        Ok(source) => {
            let mut source = source;
            read_filter(alloc, &mut source, name)
        }
        Err(_) => Err(WhyFailure::NoFilter(name)),
    }
}

/// Why the capture of this name can't be read.
fn open_failure(fault: OpenFault, name: Option<String>) -> WhyFailure
    ensures { spec.IsOpenFailure (option_map (λ n. string_bytes n) name) fault result }
{
    match fault {
        OpenFault::Header(fault) => match name {
            Some(name) => WhyFailure::Capture(name, fault),
            None => WhyFailure::Input(fault),
        },
        OpenFault::Read(ReadFault::Read(_)) => read_failure(name),
        OpenFault::Read(ReadFault::Memory) => failed(ToolFault::Memory),
    }
}

/// Writes a report on a capture, of which no record was read yet.
fn write_report<A: Allocator + Copy, P: Allocator, R: Read, W: Write>(
    alloc: A,
    program: &Program<P>,
    asked: &ReportAsked,
    reader: &mut CaptureReader<R, A>,
    w: &mut W,
) -> Result<Option<CaptureEnd>, WhyFault>
    requires count { reader.old.count ≡ 0 }
    ensures reported { (c : Savefile) → reader.old.left ≡ Some c →
        spec.IsReportOf program.now asked.now c reader.new.count (W.contents w.old) (W.contents w.new) result }
    ensures within { ReadsWithin asked.now.packets.items reader.new.count }
{
    let question = Question {
        program,
        values: &asked.values,
        report: asked.report,
        packets: &asked.packets,
    };
    why(alloc, &question, reader, w)
}

/// Writes a report on the capture of this name to the standard output.
// It takes the reader itself, so that no caller reads on after the report.
fn print_report<A: Allocator + Copy, P: Allocator, H: Host, R: Read + Drop>(
    alloc: A,
    host: &mut H,
    program: &Program<P>,
    asked: ReportAsked,
    reader: CaptureReader<R, A>,
    name: Option<String>,
) -> Result<Remarks, WhyFailure>
    requires count { reader.count ≡ 0 }
    ensures { IsReady (H.view host.old) → (c : Savefile) → reader.left ≡ Some c →
        spec.PrintsReport (H.view host.old) (H.view host.new) program.now asked
        (option_map (λ n. string_bytes n) name) c result }
{
    let Ok(mut writer) = host.output() else {
        return Err(failed(ToolFault::Memory));
    };
    let mut reader = reader;
    let link = reader.link();
    let done = write_report(alloc, program, &asked, &mut reader, &mut writer);
    host.print(writer);
    reported(done, asked, name, link)
}

/// Writes a report on the capture that a reader gives.
fn report_on<A: Allocator + Copy, P: Allocator, H: Host, R: Read + Drop>(
    alloc: A,
    host: &mut H,
    program: &Program<P>,
    asked: ReportAsked,
    reader: R,
    name: Option<String>,
) -> Result<Remarks, WhyFailure>
    ensures { IsReady (H.view host.old) → (bytes : List ℕ) → R.remaining reader ≡ Some bytes →
        spec.ReportsOn (H.view host.old) (H.view host.new) program.now asked
        (option_map (λ n. string_bytes n) name) bytes result }
{
    match CaptureReader::new(alloc, reader) {
        Ok(capture) => print_report(alloc, host, program, asked, capture, name),
        Err(fault) => Err(open_failure(fault, name)),
    }
}

/// Writes a report on the capture of the standard input.
fn report_on_input<A: Allocator + Copy, P: Allocator, H: Host>(
    alloc: A,
    host: &mut H,
    program: &Program<P>,
    asked: ReportAsked,
) -> Result<Remarks, WhyFailure>
    ensures { IsReady (H.view host.old) →
        spec.ReportsBy (H.view host.old) (H.view host.new) program.now asked None result }
{
    let input = host.input();
    report_on(alloc, host, program, asked, input, None)
}

/// Writes a report on the capture of this name.
fn report_on_file<A: Allocator + Copy, P: Allocator, H: Host>(
    alloc: A,
    host: &mut H,
    program: &Program<P>,
    asked: ReportAsked,
    name: String,
) -> Result<Remarks, WhyFailure>
    ensures { IsReady (H.view host.old) → spec.ReportsBy (H.view host.old) (H.view host.new)
        program.now asked (Some (string_bytes name)) result }
{
    match host.open(name.as_str()) {
        Ok(source) => report_on(alloc, host, program, asked, source, Some(name)),
        Err(_) => Err(WhyFailure::Job(Failure::CannotOpen(name))),
    }
}

/// Writes a report on the capture of this name, or on that of the standard input.
fn report_by_name<A: Allocator + Copy, P: Allocator, H: Host>(
    alloc: A,
    host: &mut H,
    program: &Program<P>,
    asked: ReportAsked,
    capture: Option<String>,
) -> Result<Remarks, WhyFailure>
    ensures { IsReady (H.view host.old) → spec.ReportsBy (H.view host.old) (H.view host.new)
        program.now asked (option_map (λ n. string_bytes n) capture) result }
{
    match capture {
        Some(name) => report_on_file(alloc, host, program, asked, name),
        None => report_on_input(alloc, host, program, asked),
    }
}

/// `why`: reports on a filter and a capture to the standard output. The filter's file is opened and read first, and
/// nothing is printed before the capture's header was read. The answer is what is to be said of the report.
///
/// # Errors
///
/// `Read` where a file could not be read; `Job` where a file can't be opened, the standard input could not be read, a
/// write failed, or memory ran out; `Filter` where the filter is refused; `Capture` or `Input` where the header of the
/// capture is.
pub fn why_job<A: Allocator + Copy, H: Host>(
    alloc: A,
    host: &mut H,
    job: WhyJob,
) -> Result<Remarks, WhyFailure>
    ensures { IsReady (H.view host.old) → spec.WhyDone (H.view host.old) (H.view host.new) job result }
{
    let program = open_filter(alloc, host, job.filter)?;
    report_by_name(alloc, host, &program, job.asked, job.capture)
}
