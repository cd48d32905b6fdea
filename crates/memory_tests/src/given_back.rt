//! Loads and commands give back what they asked for: loads that take the place of others, refused loads, breakpoints
//! that are set and taken out, and what is dropped.

mod indexes;
mod rooms;

use crate::assertions::{Test, assert_named};
use crate::inputs::{ARP, ARP_WORDS, two_packets_as_k};
use cbpf_code::{check, read_words};
use cbpf_dbg::{ListTrail, MarkTrail, Session, Trail, When};
use cbpf_text::{assemble, tokens};
use cbpf_tool::{DiskFiles, Files, Form, ToolFault, asm, debug};
use pcap_classic::Capture;
use session_tests::fault_injection::{Fault, FaultyAllocator, FaultyWriter};
use session_tests::inputs::{HEADER, ICMP_WORDS, RECORD, STRAIGHT, program_of, two_packets};
use std::alloc::{Allocator, Global};
use std::io;
use std::io::Read;
use std::process::Abort;

/// A breakpoint at each of 20 instructions, in turn with a condition.
fn set<T: Trail, A: Allocator + Copy>(rt: &impl Abort, session: &mut Session<T, A>) {
    for n in 0..20u64 {
        let set = if n % 2 == 0 {
            session.breakpoint(n)
        } else {
            session.breakpoint_when(n, When::A(7))
        };
        assert_named(rt, set == Ok(()), "a breakpoint", n);
    }
}

fn take_out<T: Trail, A: Allocator + Copy>(rt: &impl Abort, session: &mut Session<T, A>) {
    for n in 0..20u64 {
        assert_named(rt, session.delete(n) == Ok(true), "a breakpoint", n);
    }
}

/// Loads in the place of others, and breakpoints that are set and go.
fn load<T: Trail, A: Allocator + Copy>(rt: &impl Abort, alloc: A, session: &mut Session<T, A>) {
    session.load_program(program_of(alloc, STRAIGHT).expect(rt, "the program"));
    session.load_capture(two_packets(alloc).expect(rt, "the capture"));
    set(rt, session);
    take_out(rt, session);
    set(rt, session);
    session.reset_breakpoints();
}

/// A session of `alloc`, whose bytes `counting` counts: of each further round of loads nothing is held.
fn load_again_and_again<T: Trail, A: Allocator + Copy>(
    rt: &impl Abort,
    alloc: A,
    counting: &FaultyAllocator<Global>,
    trail: T,
) {
    let mut session = Session::new(alloc, trail);
    load(rt, alloc, &mut session);
    let held = counting.held();
    assert!(rt; held > 0);
    for round in 2..=10u32 {
        load(rt, alloc, &mut session);
        assert_named(rt, counting.held() == held, "held after a round", round);
    }
}

/// Loads again and again, and breakpoints that are set and taken out, hold no more memory, and a session that is
/// dropped none.
#[test]
fn loads_and_breakpoints_of_a_session(rt: HostRuntime) {
    let counting = FaultyAllocator::new(rt.alloc(), 0);
    load_again_and_again(&rt, &counting, &counting, MarkTrail::new());
    assert!(rt; counting.held() == 0);
    let trail = ListTrail::new(&counting).expect(&rt, "the trail");
    load_again_and_again(&rt, &counting, &counting, trail);
    assert!(rt; counting.held() == 0);
    assert!(rt; counting.asked() > 0);
}

/// What is called, and whether it is refused. Its answer goes.
#[derive(Clone, Copy)]
enum Call {
    Words(&'static [u8]),
    Program(&'static [u8]),
    Capture(&'static [u8]),
    Tokens(&'static [u8]),
    Source(&'static [u8]),
    Filter(&'static [u8]),
}

fn is_program_refused<A: Allocator>(rt: &impl Abort, alloc: A, text: &[u8]) -> bool {
    check(read_words(alloc, text).expect(rt, "the list")).is_err()
}

fn is_capture_refused<A: Allocator + Copy>(rt: &impl Abort, alloc: A, bytes: &[u8]) -> bool {
    let bytes = Vec::from_slice(alloc, bytes).expect(rt, "the bytes");
    Capture::from_bytes(alloc, bytes).is_err()
}

fn is_filter_refused<A: Allocator + Copy>(rt: &impl Abort, alloc: A, text: &[u8]) -> bool {
    let mut text = Vec::from_slice(alloc, text).expect(rt, "the text");
    cbpf_why::program_of(alloc, text.as_mut_slice()).is_err()
}

fn is_refused<A: Allocator + Copy>(rt: &impl Abort, alloc: A, call: Call) -> bool {
    match call {
        Call::Words(text) => read_words(alloc, text).is_err(),
        Call::Program(text) => is_program_refused(rt, alloc, text),
        Call::Capture(bytes) => is_capture_refused(rt, alloc, bytes),
        Call::Tokens(source) => tokens(alloc, source).is_err(),
        Call::Source(source) => assemble(alloc, source).is_err(),
        Call::Filter(text) => is_filter_refused(rt, alloc, text),
    }
}

/// A call, and whether it is refused.
static CALLS: [(Call, bool); 29] = [
    (Call::Words(ICMP_WORDS), false),
    (Call::Words(b"3,6 0 0 1,6 0 0 1"), true),
    (Call::Words(b"2,6 0 0 1,6 0 0"), true),
    (Call::Words(b"2,6 0 0 1,6 0 0 4294967296"), true),
    (Call::Words(b"2,6 0 0 1,6 0 0 x"), true),
    (Call::Words(b"2,6 0 0 1,6 0 0 0 9"), true),
    (Call::Program(STRAIGHT), false),
    (Call::Program(b"2,6 0 0 1,5 0 0 0"), true),
    (Call::Program(b"2,96 0 0 0,22 0 0 0"), true),
    (Call::Capture(HEADER), false),
    (Call::Capture(RECORD), true),
    (Call::Capture(b"no capture, as its magic says"), true),
    (Call::Tokens(b"ldh [12] $"), true),
    (Call::Source(ARP), false),
    (Call::Source(b"in: ld #1\nret $"), true),
    (Call::Source(b"in: ld #1\nret #0 /* x"), true),
    (Call::Source(b"in: ld #1\nret #4294967296"), true),
    (Call::Source(b"in: ld #1\nret #-2147483649"), true),
    (Call::Source(b"in: ld #1\nret ret"), true),
    (Call::Source(b"in: ld #1\nret #0\ntop:"), true),
    (Call::Source(b"in: ld #1\nin: ret #0"), true),
    (Call::Source(b"in: ld #1\njmp no\nret #0"), true),
    (Call::Source(b"in: ld #1\njmp in\nret #0"), true),
    (Call::Filter(ARP), false),
    (Call::Filter(ARP_WORDS), false),
    (Call::Filter(b"2\n0 0 0 1\n22 0 0 0\n"), false),
    (Call::Filter(b"in: ld #1\njmp in\nret #0"), true),
    (Call::Filter(b"2,6 0 0 1,6 0 0 x"), true),
    (Call::Filter(b"2,6 0 0 1,5 0 0 0"), true),
];

/// Refused words, programs, captures and sources give back what they asked for.
#[test]
fn answers_and_refusals(rt: HostRuntime) {
    let counting = FaultyAllocator::new(rt.alloc(), 0);
    for (row, (call, refused)) in CALLS.iter().enumerate() {
        let asked = counting.asked();
        let answer = is_refused(&rt, &counting, *call);
        assert_named(&rt, answer == *refused, "the answer", row);
        assert_named(&rt, counting.asked() > asked || *refused, "asked for", row);
        assert_named(&rt, counting.held() == 0, "held", row);
    }
}

/// Whether a file is loaded. Its bytes go.
fn is_loaded<F: Files>(files: &mut F, alloc: &FaultyAllocator<Global>, name: &str) -> bool {
    files.load(alloc, name).is_ok()
}

/// Loads of files give back what they asked for.
#[test]
fn loads_of_files(rt: HostRuntime) {
    let counting = FaultyAllocator::new(rt.alloc(), 0);
    assert!(rt; is_loaded(&mut DiskFiles::new(&rt), &counting, "/proc/self/status"));
    assert!(rt; counting.asked() > 0 && counting.held() == 0);
    let mut files = two_packets_as_k(rt.alloc()).expect(&rt, "memory");
    assert!(rt; is_loaded(&mut files, &counting, "k"));
    assert!(rt; !is_loaded(&mut files, &counting, "absent"));
    assert!(rt; counting.held() == 0);
}

/// Lines that are read again and again: loads, refused loads, and breakpoints that are set and go. All are of
/// one length at most, so that the room for a line stays.
static LINES: [&[u8]; 12] = [
    b"load bpf 6,40 0 0 12,21 0 3 2048,48 0 0 23,21 0 1 1,6 0 0 65535,6 0 0 0\n",
    b"load pcap k\n",
    b"breakpoint 1\n",
    b"breakpoint 4 a 7\n",
    b"run\n",
    b"step -1\n",
    b"delete 4\n",
    b"load bpf 6,40 0 0 12,21 0 3 2048,48 0 0 23,21 0 1 1,6 0 0 65535,6 0 0 x\n",
    b"load bpf 6,40 0 0 12,21 0 3 2048,48 0 0 23,21 0 1 1,6 0 0 65535,5 0 0 0\n",
    b"load pcap absent\n",
    b"load pcap bad\n",
    b"breakpoint reset\n",
];

/// A reader that gives one line a call, for ten rounds, and compares what is held before each round.
#[derive(Drop)]
struct NotingReader<'a> {
    counting: &'a FaultyAllocator<Global>,
    reads: usize,
    /// What was held after the first round.
    held: u64,
    /// How often it was something else later.
    differing: u64,
}

impl<'a> NotingReader<'a> {
    fn note(&mut self) {
        if self.reads == LINES.len() {
            self.held = self.counting.held();
        } else if self.reads % LINES.len() == 0 && self.counting.held() != self.held {
            self.differing = self.differing.saturating_add(1);
        }
    }
}

impl<'a> Read for NotingReader<'a> {
    fn read(&mut self, buf: &mut [u8]) -> io::Result<usize> {
        self.note();
        if self.reads >= 10 * LINES.len() {
            return Ok(0);
        }
        let mut line = LINES[self.reads % LINES.len()];
        self.reads += 1;
        line.read(buf)
    }
}

/// Runs the script over the capture of two packets, and a file that is none.
fn run(rt: &impl Test, reader: &mut NotingReader<'_>) {
    let mut files = two_packets_as_k(rt.alloc()).expect(rt, "memory");
    let bad = Vec::from_slice(rt.alloc(), RECORD).expect(rt, "the bytes");
    assert!(rt; files.put("bad", bad).is_ok());
    let mut replies = Vec::new(rt.alloc());
    assert!(rt; debug(reader.counting, reader, &mut replies, &mut files) == Ok(()));
}

/// A debugger that loads again and again, also in vain, holds no more memory, and at its end none.
#[test]
fn commands_of_a_script(rt: HostRuntime) {
    let counting = FaultyAllocator::new(rt.alloc(), 0);
    let mut reader = NotingReader {
        counting: &counting,
        reads: 0,
        held: 0,
        differing: 0,
    };
    run(&rt, &mut reader);
    assert!(rt; reader.reads == 120 && reader.held > 0 && reader.differing == 0);
    assert!(rt; counting.held() == 0);
}

/// An assembler gives back what it asked for.
#[test]
fn sources(rt: HostRuntime) {
    let counting = FaultyAllocator::new(rt.alloc(), 0);
    for (source, is_taken) in [
        (ARP, true),
        (b"in: ld #1\njmp no\nret #0".as_slice(), false),
    ] {
        let mut reader = source;
        let mut words = Vec::new(rt.alloc());
        let answer = asm(&counting, &mut reader, &mut words, Form::Decimal);
        assert!(rt; answer.is_ok() == is_taken);
        assert!(rt; counting.asked() > 0 && counting.held() == 0);
    }
}

/// Writes into a room, and fails at each flush.
fn unflushable() -> FaultyWriter<64> {
    let mut writer = FaultyWriter::new(Fault::Fails, 0);
    writer.set_flush_fails(true);
    writer
}

/// An assembler and a debugger whose last flush fails give back what they asked for.
#[test]
fn after_a_last_flush_that_failed(rt: HostRuntime) {
    let counting = FaultyAllocator::new(rt.alloc(), 0);
    let (mut reader, mut writer) = (ARP, unflushable());
    let answer = asm(&counting, &mut reader, &mut writer, Form::Decimal);
    assert!(rt; answer == Err(ToolFault::Write) && writer.written() == ARP_WORDS);
    assert!(rt; counting.asked() > 0 && counting.held() == 0);
    for script in [LINES[0], b"load bpf 1,6 0 0 1\nbreakpoint 0\nquit\n"] {
        let (mut reader, mut writer) = (script, unflushable());
        let mut files = two_packets_as_k(rt.alloc()).expect(&rt, "memory");
        let answer = debug(&counting, &mut reader, &mut writer, &mut files);
        assert!(rt; answer == Err(ToolFault::Write) && writer.flushes() > 0);
        assert!(rt; counting.asked() > 0 && counting.held() == 0);
    }
}
