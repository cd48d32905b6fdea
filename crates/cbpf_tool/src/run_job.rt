//! Doing what a command line asks for, and the status with which the program ends.

ghost use Rattle.std.specs.Prelude.{◌≡◌};
ghost use Rattle.cbpf_tool.specs.Hosted.{IsReady};
ghost use Rattle.std.specs.Process.{exit_status};
ghost use Rattle.cbpf_tool.specs.RunJob as spec;

use crate::asm_on_host::asm_job;
use crate::dbg_on_host::dbg_job;
use crate::failure::Failure;
use crate::host::Host;
use crate::remarks::Remarks;
use crate::request::Request;
use crate::why_failure::WhyFailure;
use crate::why_on_host::why_job;
use cbpf_command_line::Job;
use std::alloc::Allocator;
use std::process::ExitCode;

/// Runs `asm` or `dbg` on a machine.
fn run_on<A: Allocator, H: Host>(alloc: A, host: &mut H, job: Job) -> Result<(), Failure>
    ensures { IsReady (H.view host.old) → spec.JobDone (H.view host.old) (H.view host.new) job result }
{
    match job {
        Job::Asm { form, file } => asm_job(alloc, host, form, file),
        Job::Dbg { input, output } => dbg_job(alloc, host, input, output),
    }
}

/// The result of a job as that of a request.
fn as_request(done: Result<(), Failure>) -> Result<Option<Remarks>, WhyFailure>
    ensures { result ≡ spec.as_request done }
{
    match done {
        Ok(()) => Ok(None),
        Err(failure) => Err(WhyFailure::Job(failure)),
    }
}

/// The result of `why` as that of a request.
fn remarked(done: Result<Remarks, WhyFailure>) -> Result<Option<Remarks>, WhyFailure>
    ensures { result ≡ spec.why_request done }
{
    Ok(Some(done?))
}

/// Runs what a command line asks for on a machine. The answer is what is to be said of a report of `why`.
pub fn run_request<A: Allocator + Copy, H: Host>(
    alloc: A,
    host: &mut H,
    request: Request,
) -> Result<Option<Remarks>, WhyFailure>
    ensures { IsReady (H.view host.old) → spec.RequestDone (H.view host.old) (H.view host.new) request result }
{
    match request {
        Request::Job(job) => as_request(run_on(alloc, host, job)),
        Request::Why(job) => remarked(why_job(alloc, host, job)),
    }
}

/// Whether a request was done, with each packet that was asked for.
fn is_done(done: &Result<Option<Remarks>, WhyFailure>) -> bool
    ensures { result ≡ spec.is_done done.now }
{
    match done {
        Ok(Some(remarks)) => !remarks.lacks_packets(),
        Ok(None) => true,
        Err(_) => false,
    }
}

/// The status with which the program ends after a request: 1 where it failed, or the capture lacks a packet that was asked
/// for.
pub fn request_status(done: &Result<Option<Remarks>, WhyFailure>) -> ExitCode
    ensures { exit_status result ≡ spec.request_status done.now }
{
    if is_done(done) {
        ExitCode::SUCCESS
    } else {
        ExitCode::FAILURE
    }
}
