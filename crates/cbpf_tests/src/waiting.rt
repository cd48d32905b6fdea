//! A reader and a writer that share a count. The writer is flushed before each line that isn't read yet, before each
//! command that may take long, and at the end. By then the replies so far are written, and after a flush that fails
//! nothing is read and nothing is written.

use crate::assertions::{Test, assert_named};
use cbpf_tool::{ToolFault, debug};
use memory_tests::inputs::two_packets_as_k;
use session_tests::fault_injection::ERROR_KINDS;
use std::cell::Cell;
use std::io;
use std::io::{ErrorKind, Read, Write};
use std::process::Abort;

/// How many bytes were written, how many of these were flushed, and what came too late.
#[derive(Clone, Copy)]
pub(crate) struct Progress {
    pub(crate) written: u64,
    pub(crate) flushed: u64,
    /// Whether a flush failed.
    pub(crate) failed: bool,
    /// How many reads were made while replies waited, and how many reads and writes after a flush that failed.
    pub(crate) late: u64,
}

pub(crate) const NOTHING: Progress = Progress {
    written: 0,
    flushed: 0,
    failed: false,
    late: 0,
};

/// A writer that takes all that it is given, and keeps how much that was at each flush. One flush may be chosen
/// to fail.
#[derive(Drop)]
pub(crate) struct CountingWriter<'a> {
    pub(crate) progress: &'a Cell<Progress>,
    pub(crate) flushes: Vec<u64>,
    /// The number of the flush that fails, counted from 1; 0 for none.
    pub(crate) failing: usize,
    pub(crate) error: ErrorKind,
}

impl<'a> Write for CountingWriter<'a> {
    fn write(&mut self, buf: &[u8]) -> io::Result<usize> {
        let mut progress = self.progress.get();
        progress.late = progress.late.saturating_add(u64::from(progress.failed));
        progress.written = progress.written.saturating_add(buf.len() as u64);
        self.progress.set(progress);
        Ok(buf.len())
    }

    fn flush(&mut self) -> io::Result<()> {
        let mut progress = self.progress.get();
        self.flushes.push(progress.written)?;
        progress.failed = self.flushes.len() == self.failing;
        progress.flushed = progress.written;
        self.progress.set(progress);
        if progress.failed {
            return Err(io::Error::from(self.error));
        }
        Ok(())
    }
}

/// Whether a command may take long.
#[derive(Clone, Copy, PartialEq)]
pub(crate) enum Length {
    Short,
    Long,
}

use Length::{Long, Short};

/// A line of a script or a part of one, whether its command may take long, and the length of its reply.
pub(crate) type Exchange = (&'static [u8], Length, u64);

/// A reader that gives one line a call, as a terminal does.
#[derive(Drop)]
pub(crate) struct WaitingReader<'a> {
    pub(crate) exchanges: &'a [Exchange],
    pub(crate) progress: &'a Cell<Progress>,
    /// The length of the replies to the lines that it gave.
    pub(crate) replies: u64,
    pub(crate) reads: usize,
}

impl<'a> Read for WaitingReader<'a> {
    fn read(&mut self, buf: &mut [u8]) -> io::Result<usize> {
        let mut progress = self.progress.get();
        let is_late = progress.failed
            || progress.written != self.replies
            || progress.flushed != self.replies;
        progress.late = progress.late.saturating_add(u64::from(is_late));
        self.progress.set(progress);
        let exchange = self.exchanges.get(self.reads);
        self.reads = self.reads.saturating_add(1);
        let Some((line, _, reply)) = exchange else {
            return Ok(0);
        };
        self.replies = self.replies.saturating_add(*reply);
        let mut bytes: &[u8] = line;
        bytes.read(buf)
    }
}

static EXCHANGES: [Exchange; 19] = [
    // bpf: 1 instructions
    (b"load bpf 1,6 0 0 1\n", Short, 20),
    // pcap: 2 packets
    (b"load pcap k\n", Long, 16),
    // bpf passes:2 fails:0
    (b"run\n", Long, 21),
    (b"\n", Short, 0),
    // error: Q1 unknown command
    (b"hello\n", Short, 26),
    // A line in two parts: the first has no reply.
    (b"ma", Short, 0),
    // 1 0
    (b"rk\n", Short, 4),
    // stops: 0, and 1 0
    (b"stops\nmark\n", Long, 13),
    (b"value mark 7\n", Short, 13),
    (b"breakpoint 0\n", Short, 28),
    (b"breakpoint\n", Short, 15),
    (b"delete 0\n", Short, 13),
    (b"breakpoint reset\n", Short, 13),
    (b"disassemble\n", Short, 13),
    (b"dump\n", Short, 55),
    (b"select 2\n", Short, 7),
    (b"resume 1 0\n", Long, 7),
    (b"load\n", Short, 26),
    (b"quit\n", Short, 0),
];

/// The first lines that end in the middle of one: it is answered after the read that finds the end.
const CUT: usize = 6;

/// error: Q1 unknown command
const ANSWER_TO_A_CUT_LINE: u64 = 26;

/// How many bytes are written at each flush that is wanted, where each line comes in a read of its own or all come
/// in one.
fn wanted_flushes(rt: &impl Test, exchanges: &[Exchange], in_one_read: bool) -> Vec<u64> {
    let mut flushes = Vec::new(rt.alloc());
    let mut written: u64 = 0;
    let mut is_unread = true;
    for (line, length, reply) in exchanges {
        if is_unread {
            flushes.push(written).expect(rt, "memory");
        }
        if *length == Long {
            flushes.push(written).expect(rt, "memory");
        }
        written = written.saturating_add(*reply);
        is_unread = !in_one_read && line.last() == Some(&b'\n');
    }
    let quits = matches!(exchanges.last(), Some((b"quit\n", _, _)));
    if is_unread && !quits {
        flushes.push(written).expect(rt, "memory");
    }
    if exchanges.len() == CUT {
        written = written.saturating_add(ANSWER_TO_A_CUT_LINE);
    }
    flushes.push(written).expect(rt, "memory");
    flushes
}

/// A run that ended is compared with what is wanted, where no flush fails or one does.
fn check(
    rt: &impl Abort,
    outcome: Result<(), ToolFault>,
    writer: &CountingWriter<'_>,
    wanted: &[u64],
    place: (usize, usize),
) {
    let failing = writer.failing;
    let answer = if failing == 0 {
        Ok(())
    } else {
        Err(ToolFault::Write)
    };
    let made = if failing == 0 { wanted.len() } else { failing };
    let done = writer.progress.get();
    let are_made = outcome == answer && wanted.get(..made) == Some(writer.flushes.as_slice());
    assert_named(rt, are_made, "the answer and the flushes", place);
    let is_in_time = done.late == 0 && done.flushed == done.written;
    assert_named(rt, is_in_time, "late replies, and the flushed text", place);
}

/// A run over some lines, each in a read of its own, with a flush that fails or none (0).
fn run_line_by_line(
    rt: &impl Test,
    exchanges: &[Exchange],
    wanted: &[u64],
    failing: usize,
    error: ErrorKind,
) {
    let progress = Cell::new(NOTHING);
    let mut reader = WaitingReader {
        exchanges,
        progress: &progress,
        replies: 0,
        reads: 0,
    };
    let mut writer = CountingWriter {
        progress: &progress,
        flushes: Vec::new(rt.alloc()),
        failing,
        error,
    };
    let mut files = two_packets_as_k(rt.alloc()).expect(rt, "memory");
    let outcome = debug(rt.alloc(), &mut reader, &mut writer, &mut files);
    check(rt, outcome, &writer, wanted, (exchanges.len(), failing));
    // The read that finds the end is the last one, and after `quit` there is none.
    let is_quit = matches!(exchanges.last(), Some((b"quit\n", _, _)));
    let most = exchanges.len().saturating_add(usize::from(!is_quit));
    assert_named(rt, reader.reads <= most, "the reads", exchanges.len());
}

fn each_error(rt: &impl Test, lines: &[Exchange], wanted: &[u64], failing: usize) {
    for error in ERROR_KINDS {
        run_line_by_line(rt, lines, wanted, failing, error);
    }
}

/// With no flush that fails (0), and with each flush that fails.
fn each_flush(rt: &impl Test, exchanges: &[Exchange]) {
    let wanted = wanted_flushes(rt, exchanges, false);
    for failing in 0..=wanted.len() {
        each_error(rt, exchanges, wanted.as_slice(), failing);
    }
}

// Each number of lines.
#[test]
fn each_reply_is_flushed_before_the_next_read_or_nothing_more_is_read(rt: HostRuntime) {
    for count in 0..=EXCHANGES.len() {
        let exchanges = EXCHANGES.get(..count).unwrap_or(&EXCHANGES);
        each_flush(&rt, exchanges);
    }
}

/// Lines that have no reply.
static SILENT: [Exchange; 3] = [(b"\n", Short, 0), (b" \n", Short, 0), (b"quit\n", Short, 0)];

/// A script without replies is flushed before `Ok`.
#[test]
fn a_script_without_replies_is_flushed_too(rt: HostRuntime) {
    each_flush(&rt, &SILENT);
}

/// Commands that may take long, after others that have a reply, and after ones that have not.
static SCRIPT: [Exchange; 27] = [
    (b"load bpf 1,6 0 0 1\n", Short, 20),
    (b"mark\n", Short, 21),
    (b"load pcap k\n", Long, 16),
    (b"run\n", Long, 21),
    (b"\n", Short, 0),
    (b"mark\n", Short, 4),
    (b"mark\n", Short, 4),
    // at 1 0
    (b"resume 1 0\n", Long, 7),
    (b"mark\n", Short, 4),
    (b"step 5\n", Short, 21),
    (b"mark\n", Short, 4),
    (b"resume 1 1\n", Long, 7),
    (b"mark\n", Short, 4),
    (b"run 5\n", Long, 21),
    (b"mark\n", Short, 4),
    // error: S8 count is zero
    (b"step 0\n", Short, 24),
    // error: S7 at most 0 back
    (b"step -4095\n", Short, 25),
    (b"step -4096\n", Long, 25),
    // bpf passes:2 fails:0
    (b"step 4095\n", Short, 21),
    (b"step 4096\n", Long, 21),
    (b"step 0\n", Short, 24),
    (b"hello\n", Short, 26),
    (b"stops\n", Long, 9),
    (b"select 1\n", Short, 7),
    (b"select 2\n", Short, 7),
    (b"run 1\n", Long, 21),
    (b"quit\n", Short, 0),
];

fn lines_of(rt: &impl Test, exchanges: &[Exchange]) -> Vec<u8> {
    let mut lines = Vec::new(rt.alloc());
    for (line, _, _) in exchanges {
        lines.extend_from_slice(line).expect(rt, "memory");
    }
    lines
}

/// A run over the script in one read, with a flush that fails or none (0).
fn run_at_once(rt: &impl Test, script: &[u8], wanted: &[u64], failing: usize) {
    let progress = Cell::new(NOTHING);
    let mut reader = script;
    let mut writer = CountingWriter {
        progress: &progress,
        flushes: Vec::new(rt.alloc()),
        failing,
        error: ErrorKind::Other,
    };
    let mut files = two_packets_as_k(rt.alloc()).expect(rt, "memory");
    let outcome = debug(rt.alloc(), &mut reader, &mut writer, &mut files);
    check(rt, outcome, &writer, wanted, (SCRIPT.len(), failing));
}

/// The replies so far go out before a command that may take long.
#[test]
fn replies_are_flushed_before_a_command_that_may_take_long(rt: HostRuntime) {
    let script = lines_of(&rt, &SCRIPT);
    let wanted = wanted_flushes(&rt, &SCRIPT, true);
    for failing in 0..=wanted.len() {
        run_at_once(&rt, script.as_slice(), wanted.as_slice(), failing);
    }
}
