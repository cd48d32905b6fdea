//! Calls at sizes near their greatest sensible ones, with memory at hand, which no script of the program makes.

ghost use Rattle.std.specs.Prelude.{◌<◌};

use crate::assertions::{Test, assert_named};
use cbpf_code::{CheckFault, Insn, check, read_words};
use cbpf_dbg::{Counts, MarkTrail, Meter, Place, Session, Stop};
use cbpf_text::tokens;
use cbpf_tool::{Files, MemoryFiles, debug};
use pcap_classic::Capture;
use session_tests::fault_injection::FaultyReader;
use session_tests::files::repeated;
use session_tests::inputs::{HEADER, RECORD, STRAIGHT, program_of};
use std::process::Abort;

/// A word text of 50,000 instructions, after a beginning.
fn words_of_50000(rt: &impl Test, first: &[u8]) -> Vec<u8> {
    repeated(rt.alloc(), first, b"7 0 0 0,", 49999, b"6 1 2 3\n").expect(rt, "memory")
}

fn refusal_of(list: Vec<Insn>) -> Option<CheckFault> {
    match check(list) {
        Ok(_) => None,
        Err((fault, _)) => Some(fault),
    }
}

/// Word text of 50,000 instructions is read where there is memory, and refused by C2.
#[test]
fn word_text_of_50000_instructions(rt: HostRuntime) {
    let words = words_of_50000(&rt, b"50000,");
    let list = read_words(rt.alloc(), &words).expect(&rt, "the list");
    assert!(rt; list.len() == 50000);
    assert!(rt; refusal_of(list) == Some(CheckFault::TooMany));
}

/// Asserts the replies to a script, of which each read gives so many bytes.
fn replies(rt: &impl Test, script: &[u8], chunk: usize, wanted: &[u8])
    requires { 0 < chunk }
{
    let mut reader = FaultyReader::new(script, chunk, 0);
    let mut text = Vec::new(rt.alloc());
    let mut files = MemoryFiles::new(rt.alloc());
    assert!(rt; debug(rt.alloc(), &mut reader, &mut text, &mut files) == Ok(()));
    assert!(rt; text.as_slice() == wanted);
}

/// Lines of three million bytes and of 50,000 instructions are read where there is memory.
#[test]
fn lines_of_three_million_bytes_and_of_50000_instructions(rt: HostRuntime) {
    let line = repeated(rt.alloc(), b"load bpf ", b" \t", 1_500_000, b"1,6 0 0 1\n").expect(
        &rt, "memory",
    );
    replies(&rt, &line, 4096, b"bpf: 1 instructions\n");
    let line = words_of_50000(&rt, b"load bpf 50000,");
    replies(&rt, &line, 4096, b"error: C2 more than 4096 instructions\n");
}

/// A session of 21 instructions over 25,000 packets.
fn session_of_25000(rt: &impl Test) -> Session<MarkTrail> {
    let bytes = repeated(rt.alloc(), HEADER, RECORD, 25000, b"").expect(rt, "memory");
    let capture = Capture::from_bytes(rt.alloc(), bytes)
        .ok()
        .expect(rt, "the capture");
    let mut session = Session::new(rt.alloc(), MarkTrail::new());
    session.load_program(program_of(rt.alloc(), STRAIGHT).expect(rt, "the program"));
    session.load_capture(capture);
    session
}

/// A run over all packets, which finishes.
fn run_to_end(rt: &impl Abort, session: &mut Session<MarkTrail>, stops: &mut Vec<Stop>) {
    let finished = Counts {
        passes: 25000,
        fails: 0,
        unknown: 0,
    };
    assert!(rt; session.run_to_end(&mut Meter::new(), stops) == Ok(finished));
}

/// The first and the last instruction of each packet.
fn are_both_of_each(rt: &impl Abort, stops: &[Stop]) {
    let mut wanted = Place { packet: 1, step: 1 };
    for stop in stops {
        assert_named(rt, stop.place == wanted, "the stop", wanted.packet);
        wanted = if wanted.step == 1 {
            Place { step: 21, ..wanted }
        } else {
            Place {
                packet: wanted.packet.saturating_add(1),
                step: 1,
            }
        };
    }
}

/// A run to the end finds 50,000 stops where there is memory.
#[test]
fn a_run_to_the_end_with_50000_stops(rt: HostRuntime) {
    let mut session = session_of_25000(&rt);
    assert!(rt; session.breakpoint(0) == Ok(()) && session.breakpoint(20) == Ok(()));
    let mut stops = Vec::new(rt.alloc());
    run_to_end(&rt, &mut session, &mut stops);
    assert!(rt; stops.len() == 50000);
    are_both_of_each(&rt, &stops);
}

/// A list of two million tokens is made where there is memory.
#[test]
fn two_million_tokens(rt: HostRuntime) {
    let source = repeated(rt.alloc(), b"", b"tax\n", 2000000, b"").expect(&rt, "memory");
    let tokens = tokens(rt.alloc(), &source).expect(&rt, "the tokens");
    let last = tokens.last().expect(&rt, "a token");
    assert!(rt; tokens.len() == 2000000 && last.start == 7999996);
}

/// A record without bytes.
const EMPTY: &[u8] = &[0; 16];

// Where each look-up went over all records before, this would take hours.
#[test]
fn a_hundred_thousand_look_ups_late_in_a_capture(rt: HostRuntime) {
    let bytes = repeated(rt.alloc(), HEADER, EMPTY, 1_000_000, b"").expect(&rt, "memory");
    let capture = Capture::from_bytes(rt.alloc(), bytes)
        .ok()
        .expect(&rt, "the capture");
    assert!(rt; capture.count() == 1_000_000);
    for _ in 0..100_000u32 {
        assert!(rt; capture.item(999_937).start == 15_999_000);
        assert!(rt; capture.records(999_937, 999_938).count() == 1);
    }
}

/// A name that begins with its number, of 40,950 bytes where the number is 1, else of 300.
fn name_of(rt: &impl Test, n: u32) -> Vec<u8> {
    let length = if n == 1 { 40950 } else { 300 };
    let mut name = vec![in rt.alloc(); b'n'; length].expect(rt, "memory");
    let mut left = n;
    for digit in name.iter_mut().take(4) {
        *digit = b'0' + (left % 10) as u8;
        left /= 10;
    }
    name
}

/// The bytes of a file: one of them is of ten million bytes.
fn bytes_of(rt: &impl Test, n: u32) -> Vec<u8> {
    let count = if n == 500 { 10000000 } else { 1 };
    vec![in rt.alloc(); (n % 251) as u8; count].expect(rt, "memory")
}

fn put(rt: &impl Test, files: &mut MemoryFiles, n: u32) {
    let bytes = bytes_of(rt, n);
    let name = name_of(rt, n);
    let name = std::str::from_utf8(&name).ok().expect(rt, "the name");
    assert_named(rt, files.put(name, bytes).is_ok(), "a file", n);
}

fn is_there(rt: &impl Test, files: &mut MemoryFiles, n: u32) {
    let wanted = bytes_of(rt, n);
    let name = name_of(rt, n);
    let name = std::str::from_utf8(&name).ok().expect(rt, "the name");
    let bytes = files.load(rt.alloc(), name).ok().expect(rt, "the load");
    assert_named(rt, bytes.as_slice() == wanted.as_slice(), "the bytes", n);
}

/// 1000 files with long names, one of 40,950 bytes, and one file of ten million bytes are put and loaded in memory
/// where there is memory.
#[test]
fn a_thousand_files_with_long_names(rt: HostRuntime) {
    let mut files = MemoryFiles::new(rt.alloc());
    for n in 0..1000u32 {
        put(&rt, &mut files, n);
    }
    for n in 0..1000u32 {
        is_there(&rt, &mut files, n);
    }
}
