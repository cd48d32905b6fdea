//! The job over a machine in memory, of which growths are refused.

use crate::assertions::{Test, assert_named};
use crate::memory_host::{Entry, has_entries, machine};
use cbpf_machine::Values;
use cbpf_tool::{
    CreateFault, Failure, Remarks, ReportAsked, Request, ToolFault, WhyFailure, WhyJob,
    request_status, run_request,
};
use cbpf_why::{ALL_PACKETS, Report};
use session_tests::fault_injection::FaultyAllocator;
use std::process::ExitCode;

fn named(rt: &impl Test, name: &str) -> String {
    String::from_str(rt.alloc(), name).expect(rt, "a name")
}

/// A report of the source `-` on the capture `k`.
fn job(rt: &impl Test, report: Report) -> WhyJob {
    WhyJob {
        filter: named(rt, "-"),
        capture: Some(named(rt, "k")),
        asked: ReportAsked {
            report,
            values: Values::new(),
            packets: Vec::from_slice(rt.alloc(), &[ALL_PACKETS]).expect(rt, "memory"),
        },
    }
}

fn is_out_of_memory(done: &Result<Option<Remarks>, WhyFailure>) -> bool {
    let Err(fault) = done else {
        return false;
    };
    let WhyFailure::Job(failure) = fault else {
        return false;
    };
    match failure {
        Failure::Tool(fault) => matches!(fault, ToolFault::Memory),
        _ => false,
    }
}

/// Whether a report succeeds where this growth is refused. Where it fails, it is out of memory, and nothing is printed.
fn succeeds(rt: &impl Test, report: Report, growth: u64) -> bool {
    let alloc = FaultyAllocator::new(rt.alloc(), growth);
    let mut host = machine(rt, rt.alloc());
    let request = Request::Why(job(rt, report));
    let done = run_request(&alloc, &mut host, request);
    if alloc.left() > 0 {
        return done.is_ok();
    }
    assert_named(rt, is_out_of_memory(&done), "out of memory", growth);
    let opened: [Entry; 3] = [
        ("opened", b"-", b""),
        ("opened", b"k", b""),
        ("printed", b"", b""),
    ];
    let is_front = has_entries(&host.log, &opened)
        || has_entries(&host.log, &opened[..2])
        || has_entries(&host.log, &opened[..1]);
    assert_named(rt, is_front, "the log", growth);
    false
}

/// How many growths a report has.
fn growths(rt: &impl Test, report: Report) -> u64 {
    for growth in 1..100 {
        if succeeds(rt, report, growth) {
            return growth - 1;
        }
    }
    0
}

#[test]
fn each_growth_is_refused(rt: HostRuntime) {
    for report in [Report::Summary, Report::Traces, Report::Coverage] {
        assert_named(&rt, growths(&rt, report) > 5, "growths", report);
    }
    let more = growths(&rt, Report::Graph);
    assert!(rt; more == growths(&rt, Report::Packets).saturating_add(1));
}

#[test]
fn an_output_without_room(rt: HostRuntime) {
    let mut host = machine(&rt, rt.alloc());
    host.refusal = Some(CreateFault::Memory);
    let request = Request::Why(job(&rt, Report::Packets));
    let done = run_request(rt.alloc(), &mut host, request);
    assert!(rt; is_out_of_memory(&done) && request_status(&done) == ExitCode::FAILURE);
    let opened: [Entry; 2] = [("opened", b"-", b""), ("opened", b"k", b"")];
    assert!(rt; has_entries(&host.log, &opened));
}
