//! Calls of which each growth is refused, one after another, and which run out of memory only then.

use crate::assertions::{Test, assert_named};
use crate::inputs::{ARP, ARP_WORDS, two_packets_as_k};
use crate::reports::report_in;
use cbpf_code::{WordFault, read_words};
use cbpf_dbg::{ListTrail, MarkTrail, Meter, Session, SessionFault, Stop, When};
use cbpf_machine::Tally;
use cbpf_text::{AsmFault, assemble, tokens};
use cbpf_tool::{DiskFiles, Files, LoadFault, MemoryFiles};
use cbpf_why::{ALL_PACKETS, FilterFault, Report, WhyFault};
use pcap_classic::{Capture, CaptureFault, CaptureReader};
use session_tests::fault_injection::FaultyAllocator;
use session_tests::files::repeated;
use session_tests::inputs::{
    HEADER, ICMP_WORDS, RECORD, STRAIGHT, TWO_PACKETS, program_of, session_of,
};
use std::alloc::Allocator;
use std::process::Abort;
use std::rt;

/// With the file system.
trait DiskTest: Test + rt::Files {}

impl<R: Test + rt::Files> DiskTest for R {}

/// What is called, over what.
#[derive(Clone, Copy)]
enum Call<'a> {
    Words(&'a [u8]),
    Tokens(&'a [u8]),
    Source(&'a [u8]),
    Capture(&'a [u8]),
    Trail,
    /// A tally for a program of 21 instructions.
    Tally,
    /// Twenty files in memory, of two names.
    Put,
    /// A file in memory, of which there is `k` alone.
    Load(&'a str),
    /// A file of the file system.
    LoadFromDisk(&'a str),
    /// A session with a breakpoint at each of 20 instructions.
    Breakpoints(When),
    /// A run to the end over two packets, with so many breakpoints. The session is in another memory.
    RunToEnd(u64),
    Filter(&'a [u8]),
    /// What is reported of the ARP filter on two packets. The filter and the reader are in another memory.
    Why(Report),
}

/// Whether the call answers that it is out of memory. What is called again after a refusal works.
fn finds_no_memory<A: Allocator + Copy>(rt: &impl DiskTest, alloc: A, call: Call<'_>) -> bool {
    match call {
        Call::Words(text) => matches!(read_words(alloc, text), Err(WordFault::Memory)),
        Call::Tokens(source) => matches!(tokens(alloc, source), Err(AsmFault::Memory)),
        Call::Source(source) => matches!(assemble(alloc, source), Err(AsmFault::Memory)),
        Call::Capture(bytes) => finds_none_for_a_capture(alloc, bytes),
        Call::Trail => ListTrail::new(alloc).is_err(),
        Call::Tally => finds_none_for_a_tally(rt, alloc),
        Call::Put => finds_none_for_files(rt, alloc),
        Call::Load(name) => finds_none_for_a_load(rt, alloc, name),
        Call::LoadFromDisk(name) => finds_none_for_a_disk_file(rt, alloc, name),
        Call::Breakpoints(when) => finds_none_for_breakpoints(rt, alloc, when),
        Call::RunToEnd(breakpoints) => finds_none_for_stops(rt, alloc, breakpoints),
        Call::Filter(text) => finds_none_for_a_filter(alloc, text),
        Call::Why(report) => finds_none_for_a_report(rt, alloc, report),
    }
}

fn finds_none_for_a_capture<A: Allocator + Copy>(alloc: A, bytes: &[u8]) -> bool {
    match Vec::from_slice(alloc, bytes) {
        Ok(bytes) => matches!(
            Capture::from_bytes(alloc, bytes),
            Err((CaptureFault::Memory, _))
        ),
        Err(_) => true,
    }
}

fn finds_none_for_a_tally<A: Allocator>(rt: &impl Test, alloc: A) -> bool {
    let p = program_of(rt.alloc(), STRAIGHT).expect(rt, "the program");
    Tally::new(alloc, &p).is_err()
}

fn is_put<A: Allocator + Copy>(alloc: A, files: &mut MemoryFiles<A>, count: u8) -> bool {
    let name = if count % 2 == 0 { "even" } else { "odd" };
    match Vec::from_slice(alloc, &[count]) {
        Ok(bytes) => files.put(name, bytes).is_ok(),
        Err(_) => false,
    }
}

fn finds_none_for_files<A: Allocator + Copy>(rt: &impl Abort, alloc: A) -> bool {
    let mut files = MemoryFiles::new(alloc);
    let mut found = false;
    for count in 0..20u8 {
        let is_put = is_put(alloc, &mut files, count);
        assert_named(rt, is_put || !found, "a file after a refusal", count);
        found |= !is_put;
    }
    found
}

fn finds_none_for_a_load<A: Allocator + Copy>(rt: &impl Test, alloc: A, name: &str) -> bool {
    let mut files = two_packets_as_k(rt.alloc()).expect(rt, "memory");
    let found = matches!(files.load(alloc, name), Err(LoadFault::Memory));
    assert!(rt; !found || files.load(alloc, name).is_ok());
    found
}

fn finds_none_for_a_disk_file<A: Allocator + Copy>(
    rt: &impl DiskTest,
    alloc: A,
    name: &str,
) -> bool {
    match DiskFiles::new(rt).load(alloc, name) {
        Ok(bytes) => {
            assert!(rt; name == "/dev/null" || bytes.len() > 64);
            false
        }
        Err(fault) => {
            assert!(rt; fault == LoadFault::Memory);
            true
        }
    }
}

fn set<A: Allocator + Copy>(
    session: &mut Session<MarkTrail, A>,
    n: u64,
    when: When,
) -> Result<(), SessionFault> {
    match when {
        When::Always => session.breakpoint(n),
        _ => session.breakpoint_when(n, when),
    }
}

/// Whether a breakpoint runs out of memory. The same call then sets it.
fn finds_none_for_one<A: Allocator + Copy>(
    rt: &impl Abort,
    session: &mut Session<MarkTrail, A>,
    n: u64,
    when: When,
) -> bool {
    let set = set(session, n, when);
    if set == Err(SessionFault::Memory) {
        let set = session.breakpoint_when(n, when);
        assert_named(rt, set == Ok(()), "the same breakpoint", n);
        true
    } else {
        assert_named(rt, set == Ok(()), "a breakpoint", n);
        false
    }
}

fn finds_none_for_twenty<A: Allocator + Copy>(
    rt: &impl Abort,
    session: &mut Session<MarkTrail, A>,
    when: When,
) -> bool {
    let mut found = false;
    for n in 0..20u64 {
        let finds_none = finds_none_for_one(rt, session, n, when);
        assert_named(rt, !finds_none || !found, "a breakpoint after a refusal", n);
        found |= finds_none;
    }
    assert!(rt; session.breakpoint_count() == 20);
    found
}

fn finds_none_for_breakpoints<A: Allocator + Copy>(rt: &impl Abort, alloc: A, when: When) -> bool {
    match session_of(alloc, STRAIGHT) {
        Ok(mut session) => finds_none_for_twenty(rt, &mut session, when),
        Err(_) => true,
    }
}

/// A session with a breakpoint at each of the first instructions, of which there are so many.
fn session_with(rt: &impl Test, breakpoints: u64) -> Session<MarkTrail> {
    let mut session = session_of(rt.alloc(), STRAIGHT).expect(rt, "the session");
    for n in 0..breakpoints {
        assert!(rt; session.breakpoint(n).is_ok());
    }
    session
}

fn run_to_end<A: Allocator>(
    session: &mut Session<MarkTrail>,
    stops: &mut Vec<Stop, A>,
) -> Result<(), SessionFault> {
    match session.run_to_end(&mut Meter::new(), stops) {
        Ok(_) => Ok(()),
        Err(fault) => Err(fault),
    }
}

fn finds_none_in_a_run<A: Allocator>(
    rt: &impl Abort,
    alloc: A,
    session: &mut Session<MarkTrail>,
    breakpoints: u64,
) -> bool {
    let mut stops = Vec::new(alloc);
    let found = run_to_end(session, &mut stops) == Err(SessionFault::Memory);
    if found {
        // The rest, from where the run came to a halt.
        assert!(rt; run_to_end(session, &mut stops) == Ok(()));
    }
    assert!(rt; stops.len() as u64 == breakpoints.saturating_mul(2));
    found
}

fn finds_none_for_stops<A: Allocator + Copy>(rt: &impl Test, alloc: A, breakpoints: u64) -> bool {
    let mut session = session_with(rt, breakpoints);
    finds_none_in_a_run(rt, alloc, &mut session, breakpoints)
}

fn finds_none_for_a_filter<A: Allocator + Copy>(alloc: A, text: &[u8]) -> bool {
    match Vec::from_slice(alloc, text) {
        Ok(text) => {
            let mut text = text;
            let program = cbpf_why::program_of(alloc, text.as_mut_slice());
            matches!(program, Err(FilterFault::Memory))
        }
        Err(_) => true,
    }
}

/// Nothing is written where there is no room for what is counted.
fn finds_none_for_a_report<A: Allocator + Copy>(rt: &impl Test, alloc: A, report: Report) -> bool {
    let mut reader = CaptureReader::new(rt.alloc(), TWO_PACKETS)
        .ok()
        .expect(rt, "the capture");
    let mut text = Vec::new(rt.alloc());
    let answer = report_in(rt, alloc, report, &[ALL_PACKETS], &mut reader, &mut text);
    let found = answer == Err(WhyFault::Memory);
    assert!(rt; found == text.is_empty() && (found || answer.is_ok()));
    found
}

const BRANCH: &[u8] = b"/* both\n   ways */ ldx 4*([14] & 0xf)   ; header\nldh [x + 16]\n  # port\n\
jgt %x, up, down\nother: ret #0\nup: down: ret #0b11\n";

const SMALL: &[u8] = b"a: ld [12] ; c\n jeq #1, a, a /* d */";

const GREATEST_LENGTH: &[u8] = b"\xd4\xc3\xb2\xa1\x02\x00\x04\x00\x00\x00\x00\x00\x00\x00\x00\x00\
\xff\xff\xff\xff\x01\x00\x00\x00";

const GREATEST_RECORD: &[u8] = b"\xd4\xc3\xb2\xa1\x02\x00\x04\x00\x00\x00\x00\x00\x00\x00\x00\x00\
\xff\xff\xff\xff\x01\x00\x00\x00\
\x00\x00\x00\x00\x00\x00\x00\x00\xff\xff\xff\xff\xff\xff\xff\xff";

const OTHER_VERSION: &[u8] = b"\xd4\xc3\xb2\xa1\x02\x00\x05\x00\x00\x00\x00\x00\x00\x00\x00\x00\
\xff\xff\xff\xff\x01\x00\x00\x00";

/// A call, and the least and the greatest number of its growths.
type Row<'a> = (Call<'a>, u64, u64);

static ROWS: [Row<'static>; 43] = [
    (Call::Words(ICMP_WORDS), 2, 99),
    // A count asks for no room.
    (Call::Words(b"4294967295,"), 0, 0),
    (Call::Words(b"4294967295"), 0, 0),
    (Call::Words(b"4294967295,x"), 0, 0),
    (Call::Words(b"4294967295,6 0 0"), 0, 0),
    (Call::Tokens(SMALL), 2, 99),
    (Call::Source(BRANCH), 4, 99),
    // Refused sources.
    (Call::Source(b"ld #1\nret $"), 1, 99),
    (Call::Source(b"ld #1\nret #0 /* x"), 1, 99),
    (Call::Source(b"ld #1\nret #4294967296"), 1, 99),
    (Call::Source(b"in: ld #1\nret ret"), 1, 99),
    (Call::Source(b"in: ld #1\nret #-2147483649"), 1, 99),
    (Call::Source(b"in: ld #1\nret #0\ntop:"), 1, 99),
    (Call::Source(b"in: ld #1\nin: ret #0"), 1, 99),
    (Call::Source(b"in: ld #1\njmp no\nret #0"), 1, 99),
    (Call::Source(b"in: ld #1\njmp in\nret #0"), 1, 99),
    (Call::Source(b"; nothing"), 0, 99),
    (Call::Capture(TWO_PACKETS), 2, 2),
    // The bytes alone: the greatest snapshot length asks for no room, nor does the greatest record,
    // nor a refused capture.
    (Call::Capture(GREATEST_LENGTH), 1, 1),
    (Call::Capture(GREATEST_RECORD), 1, 1),
    (Call::Capture(OTHER_VERSION), 1, 1),
    (Call::Put, 41, 99),
    (Call::Load("k"), 1, 1),
    (Call::Load("j"), 0, 0),
    (Call::LoadFromDisk("/dev/null"), 1, 1),
    // The file is longer than the system says.
    (Call::LoadFromDisk("/proc/self/status"), 2, 20),
    (Call::Trail, 1, 1),
    (Call::Tally, 1, 1),
    (Call::Breakpoints(When::Always), 6, 99),
    (Call::Breakpoints(When::A(0)), 6, 99),
    (Call::Breakpoints(When::X(0)), 6, 99),
    // Room for one stop more is asked for before each run, and so where there are none too.
    (Call::RunToEnd(0), 1, 1),
    (Call::RunToEnd(1), 1, 99),
    (Call::RunToEnd(21), 4, 99),
    (Call::Filter(ARP), 5, 99),
    (Call::Filter(ARP_WORDS), 2, 99),
    (Call::Filter(b"in: ld #1\njmp in\nret #0"), 2, 99),
    // Out of range, and no return.
    (Call::Filter(b"1,65536"), 1, 1),
    // Groups of those that pass, fail and ask, and how often each instruction ran.
    (Call::Why(Report::Summary), 4, 4),
    (Call::Why(Report::Traces), 4, 4),
    (Call::Why(Report::Packets), 4, 4),
    (Call::Why(Report::Coverage), 4, 4),
    // And where blocks begin.
    (Call::Why(Report::Graph), 5, 5),
];

/// A first piece, one that comes so many times, and a last; the call over all, and its row.
type LargeRow = (
    &'static [u8],
    &'static [u8],
    u32,
    &'static [u8],
    Row<'static>,
);

static LARGE_ROWS: [LargeRow; 6] = [
    (b"5000,", b"7 0 0 0,", 5000, b"", (Call::Words(b""), 9, 99)),
    (b"", b"add x\n", 3000, b"", (Call::Tokens(b""), 9, 99)),
    (b"", b"tax\n", 4097, b"", (Call::Source(b""), 9, 99)),
    (
        b"jeq #0, far\n",
        b"tax\n",
        256,
        b"far: ret #0\n",
        (Call::Source(b""), 9, 99),
    ),
    (HEADER, RECORD, 3000, b"", (Call::Capture(b""), 6, 6)),
    (
        b"4096\n",
        b"7 0 0 0\n",
        4095,
        b"6 0 0 1\n",
        (Call::Filter(b""), 9, 99),
    ),
];

/// Whether the growth `nth` is refused. It runs out of memory only then.
fn is_refused(rt: &impl DiskTest, call: Call<'_>, row: usize, nth: u64) -> bool {
    let refusing = FaultyAllocator::new(rt.alloc(), nth);
    let found = finds_no_memory(rt, &refusing, call);
    let is_wanted = found == (refusing.left() == 0);
    assert_named(rt, is_wanted, "memory", (row, nth));
    found
}

/// Each growth of a row is refused, one after another.
fn check_row(rt: &impl DiskTest, row: usize, content: &Row<'_>) {
    let (call, least, most) = *content;
    let mut growths = 0u64;
    for nth in 1..102u64 {
        if !is_refused(rt, call, row, nth) {
            break;
        }
        growths = nth;
    }
    let are_wanted = least <= growths && growths <= most;
    assert_named(rt, are_wanted, "the number of growths", (row, growths));
}

/// The same call over other bytes.
fn over<'a>(call: Call<'_>, bytes: &'a [u8]) -> Call<'a> {
    match call {
        Call::Words(_) => Call::Words(bytes),
        Call::Tokens(_) => Call::Tokens(bytes),
        Call::Source(_) => Call::Source(bytes),
        Call::Filter(_) => Call::Filter(bytes),
        _ => Call::Capture(bytes),
    }
}

fn check_large_row(rt: &impl DiskTest, row: usize, content: &LargeRow) {
    let (first, piece, count, last, (call, least, most)) = *content;
    let bytes = repeated(rt.alloc(), first, piece, count, last).expect(rt, "memory");
    check_row(rt, row, &(over(call, &bytes), least, most));
}

/// Each growth of each call is refused, and only then is it out of memory.
#[test]
fn each_growth_of_a_call(rt: HostRuntime) {
    for (row, content) in ROWS.iter().enumerate() {
        check_row(&rt, row, content);
    }
}

/// Each growth over thousands of instructions, tokens and records is refused, and only then is it out of memory.
#[test]
fn each_growth_over_large_inputs(rt: HostRuntime) {
    for (row, content) in LARGE_ROWS.iter().enumerate() {
        check_large_row(&rt, row, content);
    }
}
