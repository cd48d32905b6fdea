//! Lines and traces are flushed before a read that may wait, and all that is reported is flushed at the end.
ghost use Rattle.cbpf_why.specs.Chosen.{AreSorted};

use crate::assertions::{Test, assert_named};
use crate::waiting::{CountingWriter, Exchange, Length, NOTHING, WaitingReader};
use crate::why::ranges::packets;
use crate::why::{ARP_REPORTS, Reported, report_on};
use cbpf_why::{ALL_PACKETS, PacketRange, Report, WhyFault};
use memory_tests::inputs::ARP;
use session_tests::fault_injection::ERROR_KINDS;
use session_tests::two_packets;
use std::cell::Cell;
use std::io::ErrorKind;

/// The bytes of the two packets from one place to another.
fn piece(from: usize, to: usize) -> &'static [u8] {
    two_packets::little_endian().get(from..to).unwrap_or(b"")
}

/// The capture in pieces, with how much is to be written before the next read: the header, the first packet in two, and
/// the second packet.
fn pieces(row: &Reported) -> [Exchange; 4] {
    let [_, first, both] = row.2;
    [
        (piece(0, 24), Length::Short, 0),
        (piece(24, 60), Length::Short, 0),
        (piece(60, 82), Length::Short, first as u64),
        (
            piece(82, 132),
            Length::Short,
            both.saturating_sub(first) as u64,
        ),
    ]
}

/// Asserts how many bytes are written at each flush up to the one that fails, if one does (0 for none). Before each
/// read all that was written was flushed, and after a flush that fails nothing is read or written.
fn flushes(
    rt: &impl Test,
    exchanges: &[Exchange],
    report: Report,
    ranges: &[PacketRange],
    wanted: &[u64],
    failing: usize,
    error: ErrorKind,
)
    requires { AreSorted ranges.now }
{
    let progress = Cell::new(NOTHING);
    let mut reader = WaitingReader {
        exchanges,
        progress: &progress,
        replies: 0,
        reads: 0,
    };
    let mut writer = CountingWriter {
        progress: &progress,
        flushes: Vec::new(rt.alloc()),
        failing,
        error,
    };
    let answer = report_on(rt, (ARP, None, report), ranges, &mut reader, &mut writer);
    let (is_answer, made) = if failing == 0 {
        (answer.is_ok(), wanted.len())
    } else {
        (answer == Err(WhyFault::Write), failing)
    };
    let are_made = is_answer && wanted.get(..made) == Some(writer.flushes.as_slice());
    assert_named(
        rt,
        are_made,
        "the answer and the flushes",
        (report, failing),
    );
    let done = progress.get();
    let is_in_time = done.late == 0 && done.flushed == done.written;
    assert_named(rt, is_in_time, "late text", (report, failing));
}

/// With no flush that fails, and with each.
fn each_flush(
    rt: &impl Test,
    exchanges: &[Exchange],
    report: Report,
    ranges: &[PacketRange],
    wanted: &[u64],
)
    requires { AreSorted ranges.now }
{
    for failing in 0..=wanted.len() {
        for error in ERROR_KINDS {
            flushes(rt, exchanges, report, ranges, wanted, failing, error);
        }
    }
}

/// The same over a capture that comes in pieces, and in one.
fn in_pieces_and_in_one(rt: &impl Test, row: &Reported) {
    let (report, text, [_, first, both]) = *row;
    let whole = [(two_packets::little_endian(), Length::Short, both as u64)];
    let (first, last) = (first as u64, text.len() as u64);
    if both == 0 {
        each_flush(rt, &pieces(row), report, &[ALL_PACKETS], &[last]);
        each_flush(rt, &whole, report, &[ALL_PACKETS], &[last]);
        return;
    }
    each_flush(
        rt,
        &pieces(row),
        report,
        &[ALL_PACKETS],
        &[0, first, last, last],
    );
    each_flush(rt, &whole, report, &[ALL_PACKETS], &[last, last]);
    // After the first packet nothing more is read.
    each_flush(rt, &pieces(row)[..3], report, &[packets(1, 1)], &[0, first]);
}

#[test]
fn each_flush_of_a_report(rt: HostRuntime) {
    for row in &ARP_REPORTS {
        in_pieces_and_in_one(&rt, row);
    }
}
