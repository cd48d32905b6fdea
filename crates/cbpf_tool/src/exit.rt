//! What the program does with its words, what it says on standard error, and the status with which it ends.

ghost use Rattle.std.specs.Prelude.{◌≡◌, ◌++◌, map, string_bytes, IfErr};
ghost use Rattle.std.specs.Io.KnownBytes.{Keeps as KeepsBytes};
ghost use Rattle.std.specs.Process.{exit_status};
ghost use Rattle.cbpf_code.specs.Writing.{Wrote};
ghost use Rattle.cbpf_command_line.specs.CommandLine.{text_of};
ghost use Rattle.cbpf_text.specs.Messages.{fault_text};
ghost use Rattle.cbpf_why.specs.Messages.{filter_message};
ghost use Rattle.cbpf_tool.specs.Hosted.{IsReady};
ghost use Rattle.cbpf_tool.specs.Messages.{tool_message};
ghost use Rattle.cbpf_tool.specs.Exits as spec;
ghost use Rattle.cbpf_tool.specs.declared.fault.ToolFault.TheVariants as fault;

use crate::failure::Failure;
use crate::fault::ToolFault;
use crate::hints::{Hint, write_capture_hint};
use crate::host::Host;
use crate::remarks::{Remarks, write_remarks};
use crate::request::read_request;
use crate::run_job::{request_status, run_request};
use crate::why_failure::{WhyFailure, failed};
use cbpf_code::{WriteFault, write_bytes, write_parts};
use cbpf_command_line::LineFault;
use cbpf_reply::write_message;
use cbpf_text::AsmFault;
use cbpf_why::FilterFault;
use itoa::Buffer;
use pcap_classic::HeaderFault;
use std::alloc::Global;
use std::io::{ErrorKind, Write};
use std::process::ExitCode;

/// How the program ends.
#[derive(Debug, Drop)]
pub enum Exit {
    /// A request was done, or failed; or help was printed, which is `Ok(None)`.
    Request(Result<Option<Remarks>, WhyFailure>),
    /// The command line is refused with this text.
    Refused(String),
    /// A word of the command line is not UTF-8.
    NotUtf8,
}

impl Exit {
    /// The program had no memory.
    pub fn out_of_memory() -> Exit
        ensures { result ≡ spec.out_of_memory }
    {
        Exit::Request(Err(failed(ToolFault::Memory)))
    }

    /// The status with which the program ends: 0, 1 where a request failed or the capture lacks a packet that was asked for,
    /// or 2 where the command line is refused.
    pub fn status(&self) -> ExitCode
        ensures { exit_status result ≡ spec.status_of self.now }
    {
        match self {
            Exit::Request(done) => request_status(done),
            Exit::Refused(_) => ExitCode::from(2),
            Exit::NotUtf8 => ExitCode::from(2),
        }
    }
}

/// Writes why a source is refused, and a newline.
fn write_source_fault<W: Write>(w: &mut W, fault: AsmFault) -> Result<(), WriteFault>
    ensures { Wrote (W.contents w.old) (W.contents w.new) result (spec.with_newline (fault_text fault)) }
{
    match fault {
        AsmFault::Memory => write_bytes(w, b"out of memory\n"),
        AsmFault::At(kind, line) => {
            let mut number = Buffer::new();
            let line = number.format(line).as_bytes();
            write_parts(
                w,
                &[b"line ", line, b": ", kind.message().as_bytes(), b"\n"],
            )
        }
    }
}

/// Writes why a filter is refused, and a newline.
fn write_filter_fault<W: Write>(w: &mut W, fault: FilterFault) -> Result<(), WriteFault>
    ensures { Wrote (W.contents w.old) (W.contents w.new) result (spec.with_newline (filter_message fault)) }
{
    match fault {
        FilterFault::Source(fault, _) => write_source_fault(w, fault),
        FilterFault::Words(fault) => write_message(w, b"", fault.message()),
        FilterFault::Check(fault) => write_message(w, b"", fault.message()),
        FilterFault::Memory => write_bytes(w, b"out of memory\n"),
    }
}

/// Writes the fault of a tool, and a newline.
fn write_tool_fault<W: Write>(w: &mut W, fault: ToolFault) -> Result<(), WriteFault>
    ensures { Wrote (W.contents w.old) (W.contents w.new) result (spec.with_newline (tool_message fault)) }
{
    match fault {
        ToolFault::Source(fault) => write_source_fault(w, fault),
        ToolFault::Read => write_bytes(w, b"read fault\n"),
        ToolFault::Write => write_bytes(w, b"write fault\n"),
        ToolFault::Memory => write_bytes(w, b"out of memory\n"),
    }
}

/// Writes that the file of this name can't be opened.
fn write_unopened<W: Write>(w: &mut W, name: &str) -> Result<(), WriteFault>
    ensures { Wrote (W.contents w.old) (W.contents w.new) result (spec.unopened_line name.now) }
{
    write_parts(w, &[b"cannot open ", name.as_bytes(), b"\n"])
}

/// Writes why a job failed, and the line below.
#[tactic(auto, using(cbpf_code::proofs::WrittenLemmas::three, cbpf_code::proofs::WrittenLemmas::steps))]
fn write_job_failure<W: Write>(w: &mut W, failure: &Failure) -> Result<(), WriteFault>
    ensures { Wrote (W.contents w.old) (W.contents w.new) result (spec.job_lines failure.now) }
{
    match failure {
        Failure::Tool(fault) => write_tool_fault(w, *fault),
        Failure::Source(fault, hint) => {
            write_source_fault(w, *fault)?;
            hint.write(w)
        }
        Failure::CannotOpen(name) => write_unopened(w, name.as_str()),
    }
}

/// Writes why a header is refused, and the line below.
#[tactic(auto, using(cbpf_code::proofs::WrittenLemmas::three, cbpf_code::proofs::WrittenLemmas::steps))]
fn write_header_fault<W: Write>(w: &mut W, fault: HeaderFault) -> Result<(), WriteFault>
    ensures { Wrote (W.contents w.old) (W.contents w.new) result (spec.header_lines fault) }
{
    write_parts(w, &[fault.message().as_bytes(), b"\n"])?;
    write_capture_hint(w, fault)
}

/// Writes the name of a file, before what is wrong with it.
fn write_name<W: Write>(w: &mut W, name: &str) -> Result<(), WriteFault>
    ensures { Wrote (W.contents w.old) (W.contents w.new) result (spec.named name.now) }
{
    write_parts(w, &[name.as_bytes(), b": "])
}

/// Writes why a filter of this name is refused, and the line below.
#[tactic(auto, using(cbpf_code::proofs::WrittenLemmas::three, cbpf_code::proofs::WrittenLemmas::steps))]
fn write_filter_lines<W: Write>(
    w: &mut W,
    name: &str,
    fault: FilterFault,
    hint: &Hint,
) -> Result<(), WriteFault>
    ensures { Wrote (W.contents w.old) (W.contents w.new) result
        (spec.named name.now ++ (spec.with_newline (filter_message fault) ++ hint.now)) }
{
    write_name(w, name)?;
    write_filter_fault(w, fault)?;
    hint.write(w)
}

/// Writes why a request failed, and the line below.
#[tactic(auto, using(cbpf_code::proofs::WrittenLemmas::three, cbpf_code::proofs::WrittenLemmas::steps))]
fn write_failure<W: Write>(w: &mut W, failure: &WhyFailure) -> Result<(), WriteFault>
    ensures { Wrote (W.contents w.old) (W.contents w.new) result (spec.failure_lines failure.now) }
{
    match failure {
        WhyFailure::Job(failure) => write_job_failure(w, failure),
        WhyFailure::Read(name) => {
            write_name(w, name.as_str())?;
            write_tool_fault(w, ToolFault::Read)
        }
        WhyFailure::NoFilter(name) => write_parts(
            w,
            &[
                b"cannot open ",
                name.as_str().as_bytes(),
                b"\n    FILTER is a file, such as <(tcpdump -r CAPTURE -ddd 'port 53')\n",
            ],
        ),
        WhyFailure::Filter(name, fault, hint) => {
            write_filter_lines(w, name.as_str(), *fault, hint)
        }
        WhyFailure::Capture(name, fault) => {
            write_name(w, name.as_str())?;
            write_header_fault(w, *fault)
        }
        WhyFailure::Input(fault) => write_header_fault(w, *fault),
    }
}

/// Writes what a line begins with.
#[tactic(auto, unfolding(crate::specs::Exits::start))]
fn write_start<W: Write>(w: &mut W) -> Result<(), WriteFault>
    ensures { Wrote (W.contents w.old) (W.contents w.new) result spec.start }
{
    write_bytes(w, b"cbpf: ")
}

/// Writes what is to be said on standard error of how the program ends.
///
/// # Errors
///
/// The writer failed: a beginning of the text was written.
#[tactic(auto, using(cbpf_code::proofs::WrittenLemmas::three, cbpf_code::proofs::WrittenLemmas::steps))]
pub fn write_exit<W: Write>(w: &mut W, exit: &Exit) -> Result<(), WriteFault>
    ensures { Wrote (W.contents w.old) (W.contents w.new) result (spec.exit_text exit.now) }
{
    match exit {
        Exit::Request(Ok(None)) => write_bytes(w, b""),
        Exit::Request(Ok(Some(remarks))) => write_remarks(w, remarks),
        Exit::Request(Err(failure)) => {
            write_start(w)?;
            write_failure(w, failure)
        }
        Exit::Refused(text) => write_bytes(w, text.as_str().as_bytes()),
        Exit::NotUtf8 => write_bytes(w, b"cbpf: an argument is not UTF-8\n"),
    }
}

/// Flushes help. A reader that closes its pipe has seen enough of it.
fn flush_help<W: Write>(w: &mut W) -> Result<(), ToolFault>
    ensures kept { KeepsBytes (W.contents w.old) (W.contents w.new) }
    ensures fault { IfErr result (λ e. e ≡ fault.Write) }
{
    match w.flush() {
        Ok(()) => Ok(()),
        Err(e) => {
            if e.kind() == ErrorKind::BrokenPipe {
                Ok(())
            } else {
                Err(ToolFault::Write)
            }
        }
    }
}

/// Writes a text of help.
#[tactic(auto, using(crate::proofs::HostLemmas::helps))]
fn write_help<W: Write>(w: &mut W, text: &[u8]) -> Result<(), ToolFault>
    ensures { spec.Helped (W.contents w.old) (W.contents w.new) text.now result }
{
    match write_bytes(w, text) {
        Err(_) => Err(ToolFault::Write),
        Ok(()) => flush_help(w),
    }
}

/// How the program ends after help.
fn after_help(done: Result<(), ToolFault>) -> Exit
    ensures { result ≡ spec.after_help done }
{
    match done {
        Ok(()) => Exit::Request(Ok(None)),
        Err(fault) => Exit::Request(Err(failed(fault))),
    }
}

/// Prints a text of help.
fn explain<H: Host>(host: &mut H, text: String) -> Exit
    ensures { IsReady (H.view host.old) →
        spec.Explained (H.view host.old) (H.view host.new) (string_bytes text) result }
{
    let Ok(mut writer) = host.output() else {
        return Exit::out_of_memory();
    };
    let done = write_help(&mut writer, text.as_str().as_bytes());
    host.print(writer);
    after_help(done)
}

/// Does what the words of a command line ask for, of which the first is the program's own name. Help goes to the standard
/// output, and a line that is refused does nothing.
pub fn run_words<H: Host>(alloc: Global, host: &mut H, words: Vec<String>) -> Exit
    ensures { IsReady (H.view host.old) →
        spec.WordsDone (H.view host.old) (H.view host.new) (map text_of words.items) result }
{
    match read_request(alloc, words) {
        Ok(request) => Exit::Request(run_request(alloc, host, request)),
        Err(LineFault::Help(text)) => explain(host, text),
        Err(LineFault::Refused(text)) => Exit::Refused(text),
        Err(LineFault::Memory) => Exit::out_of_memory(),
    }
}
