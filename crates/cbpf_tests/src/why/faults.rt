//! Reports over readers and allocators that fail, and over captures that are cut.

use crate::assertions::{Test, assert_at, assert_named};
use crate::why::{ARP_REPORTS, ARP_SUMMARY, Reported, report_in, report_on};
use cbpf_reply::write_capture;
use cbpf_why::{ALL_PACKETS, CaptureEnd, Report, WhyFault};
use memory_tests::inputs::ARP;
use pcap_classic::{Capture, CaptureReader, Ending};
use session_tests::fault_injection::{ERROR_KINDS, FaultyAllocator, FaultyReader};
use session_tests::files::{of_lengths, with_bytes};
use session_tests::two_packets;
use std::io::ErrorKind;

/// A file that is a capture.
fn capture(rt: &impl Test, file: &[u8]) -> Capture {
    let bytes = Vec::from_slice(rt.alloc(), file).expect(rt, "memory");
    Capture::new(rt.alloc(), bytes).ok().expect(rt, "a capture")
}

/// What is reported packet by packet of the packets that a beginning of the file has whole.
fn text_after(rt: &impl Test, row: &Reported, beginning: &[u8]) -> &'static [u8] {
    let (_, text, lengths) = *row;
    let count = capture(rt, beginning).count() as usize;
    let length = lengths.get(count).copied().unwrap_or(0);
    text.get(..length).unwrap_or(b"")
}

/// Asserts that where the read of a byte fails the packets were reported that had come whole, and nothing of all.
fn a_read_fails(rt: &impl Test, row: &Reported, place: usize, kind: ErrorKind) {
    let file = two_packets::little_endian();
    let call = (place as u64).saturating_add(1);
    let mut source = FaultyReader::new(file, 1, call);
    source.set_error(kind);
    let mut text = Vec::new(rt.alloc());
    let answer = report_on(
        rt,
        (ARP, None, row.0),
        &[ALL_PACKETS],
        &mut source,
        &mut text,
    );
    let wanted = text_after(rt, row, file.get(..place).unwrap_or(b""));
    let is_wanted = answer == Err(WhyFault::Read) && text.as_slice() == wanted;
    assert_named(rt, is_wanted, "the fault of the read", (row.0, place));
    assert_named(rt, source.calls() == call, "the reads", (row.0, place));
}

/// How a capture ends that is read to its end.
fn end_of(rt: &impl Test, file: &[u8]) -> CaptureEnd {
    let capture = capture(rt, file);
    CaptureEnd {
        count: capture.count(),
        ending: capture.ending(),
    }
}

/// Asserts that where none fails the text is whole, and nothing is read after the end.
fn no_read_fails(rt: &impl Test, row: &Reported, chunk: usize) {
    let chunk = chunk.max(1);
    let file = two_packets::little_endian();
    let mut source = FaultyReader::new(file, chunk, 0);
    let mut text = Vec::new(rt.alloc());
    let answer = report_on(
        rt,
        (ARP, None, row.0),
        &[ALL_PACKETS],
        &mut source,
        &mut text,
    );
    let is_wanted = answer == Ok(Some(end_of(rt, file))) && text.as_slice() == row.1;
    assert_named(rt, is_wanted, "the text", (row.0, chunk));
    let reads = file.len().div_ceil(chunk) as u64 + 1;
    assert_named(rt, source.calls() == reads, "the reads", (row.0, chunk));
}

/// Each read after the header, of 24 bytes.
fn each_read_fails(rt: &impl Test, row: &Reported) {
    for place in 24..=132 {
        a_read_fails(rt, row, place, ErrorKind::Other);
    }
}

#[test]
fn reads_that_fail(rt: HostRuntime) {
    for row in &ARP_REPORTS {
        for chunk in [1, 7, 131, 132, 1_000_000] {
            no_read_fails(&rt, row, chunk);
        }
        each_read_fails(&rt, row);
        for kind in ERROR_KINDS {
            a_read_fails(&rt, row, 100, kind);
        }
    }
}

/// The summaries of no packet, one and two.
static SUMMARIES: [&[u8]; 3] = [
    b"bpf passes:0 fails:0\n",
    b"pass 1 at l1:\tjeq #0x806, l2, l3, true, then l2:\tret #0xffffffff, first packet 1\nbpf passes:1 fails:0\n",
    ARP_SUMMARY,
];

/// What is reported of a file that has the first packets, or none, and may be cut after them: a summary, traces or lines.
fn text_of(rt: &impl Test, row: &Reported, file: &[u8]) -> Vec<u8> {
    let mut text = Vec::from_slice(rt.alloc(), text_after(rt, row, file)).expect(rt, "memory");
    if row.0 == Report::Summary {
        let capture = capture(rt, file);
        let summary = SUMMARIES.get(capture.count() as usize).copied();
        text.extend_from_slice(summary.unwrap_or(b""))
            .expect(rt, "memory");
        if capture.ending() != Ending::Whole {
            assert!(rt; write_capture(&mut text, &capture) == Ok(()));
        }
    }
    text
}

/// Asserts that a cut is no fault, and that a summary says where it is.
fn reported_as_far_as_it_goes(rt: &impl Test, file: &[u8], place: usize) {
    for row in ARP_REPORTS.iter().take(3) {
        let mut text = Vec::new(rt.alloc());
        let answer = report_on(rt, (ARP, None, row.0), &[ALL_PACKETS], file, &mut text);
        let is_text = text.as_slice() == text_of(rt, row, file).as_slice();
        let is_wanted = answer == Ok(Some(end_of(rt, file))) && is_text;
        assert_named(rt, is_wanted, "the text of a cut file", (row.0, place));
    }
}

fn each_beginning(rt: &impl Test, file: &[u8]) {
    for length in 24..=file.len() {
        reported_as_far_as_it_goes(rt, file.get(..length).unwrap_or(b""), length);
    }
}

#[test]
fn captures_that_are_cut(rt: HostRuntime) {
    let (little, big) = (two_packets::little_endian(), two_packets::big_endian());
    each_beginning(&rt, little);
    each_beginning(&rt, big);
    // With the other fraction of a second.
    reported_as_far_as_it_goes(
        &rt,
        &with_bytes(rt.alloc(), little, 0, [0x4d, 0x3c]).expect(&rt, "memory"),
        0,
    );
    reported_as_far_as_it_goes(
        &rt,
        &with_bytes(rt.alloc(), big, 2, [0xc3, 0xd4]).expect(&rt, "memory"),
        2,
    );
}

/// Places of the captured lengths, and other lengths there: of 4 GB, of more than there is, and of less.
static LENGTHS: [(usize, [u8; 2]); 5] = [
    (34, [0xff, 0xff]),
    (92, [0xff, 0xff]),
    (32, [93, 0]),
    (90, [35, 0]),
    (90, [33, 0]),
];

#[test]
fn records_of_other_lengths(rt: HostRuntime) {
    for (place, length) in &LENGTHS {
        let file = with_bytes(rt.alloc(), two_packets::little_endian(), *place, *length).expect(
            &rt, "memory",
        );
        reported_as_far_as_it_goes(&rt, &file, *place);
    }
}

/// What is written before a record that gets no room.
static WITHOUT_ROOM: [(Report, &[u8]); 5] = [
    (Report::Summary, b""),
    (
        Report::Traces,
        b"packet 1\n\
l0:\tldh [12]          \tA 0 (0x0) X 0 (0x0)\n\
fail at l0:\tldh [12], outside the packet: bytes 12 to 13, captured 5 of 5\n",
    ),
    (Report::Packets, b"1\tfail\tl0\toutside the packet\t-\t-\n"),
    (Report::Coverage, b""),
    (Report::Graph, b""),
];

#[test]
fn a_record_that_gets_no_room(rt: HostRuntime) {
    let file = of_lengths(rt.alloc(), &[5, 400_000]).expect(&rt, "memory");
    for (row, (report, wanted)) in WITHOUT_ROOM.iter().enumerate() {
        let refusing = FaultyAllocator::new(rt.alloc(), 2);
        let mut reader = CaptureReader::new(&refusing, file.as_slice())
            .ok()
            .expect(&rt, "a capture");
        let mut text = Vec::new(rt.alloc());
        let asked = (ARP, None, *report);
        let answer = report_in(
            &rt,
            rt.alloc(),
            asked,
            &[ALL_PACKETS],
            &mut reader,
            &mut text,
        );
        let is_wanted = answer == Err(WhyFault::Memory) && text.as_slice() == *wanted;
        assert_at(&rt, row, is_wanted && refusing.left() == 0);
    }
}
