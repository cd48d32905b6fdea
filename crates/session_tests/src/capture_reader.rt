//! Captures that are read record by record, beside the same bytes as a `Capture`.

mod faults;

use crate::assertions::{Test, assert_at, assert_named};
use crate::captures::{capture, generated};
use crate::fault_injection::{FaultyAllocator, FaultyReader};
use crate::files::{append_record, of_lengths, repeated, with_bytes};
use crate::inputs::{HEADER, RECORD};
use crate::two_packets;
use pcap_classic::{
    Capture, CaptureFault, CaptureReader, Captured, Ending, HeaderFault, OpenFault, Records,
};
use std::alloc::Allocator;
use std::io;
use std::io::Read;

/// The bytes of the room at first.
const ROOM: usize = 131_072;

/// Whether the record whose bytes were read already is this one; `None` where there is none.
fn reads_buffered<R: Read, A: Allocator>(
    reader: &mut CaptureReader<R, A>,
    wanted: &Captured<'_>,
) -> Option<bool> {
    match reader.next_buffered() {
        Some(record) => Some(record == *wanted),
        None => None,
    }
}

/// Whether the reader reads this record next. Each second one is taken by `next_buffered`, where that gives one.
pub(crate) fn reads<R: Read, A: Allocator>(
    reader: &mut CaptureReader<R, A>,
    wanted: &Captured<'_>,
) -> bool {
    let buffered = if wanted.number % 2 == 0 {
        reads_buffered(reader, wanted)
    } else {
        None
    };
    let is_next = match buffered {
        Some(is_next) => is_next,
        None => matches!(reader.next_record(), Ok(Some(record)) if record == *wanted),
    };
    is_next && reader.ending() == None
}

/// Whether it is at its end, which is this one.
pub(crate) fn ends<R: Read, A: Allocator>(
    reader: &mut CaptureReader<R, A>,
    wanted: Ending,
) -> bool {
    reader.next_buffered().is_none()
        && matches!(reader.next_record(), Ok(None))
        && reader.next_buffered().is_none()
        && reader.ending() == Some(wanted)
}

/// How many of these records it reads, one after the other.
fn count_read<R: Read, A: Allocator>(
    reader: &mut CaptureReader<R, A>,
    records: Records<'_>,
) -> u64 {
    let mut count = 0u64;
    for record in records {
        if !reads(reader, &record) {
            return count;
        }
        count = count.saturating_add(1);
    }
    count
}

/// Whether it reads what the capture holds, and nothing after that.
fn reads_all<R: Read, A: Allocator>(reader: &mut CaptureReader<R, A>, capture: &Capture) -> bool {
    reader.ending() == None
        && reader.nanos() == capture.nanos()
        && reader.link() == capture.link()
        && count_read(reader, capture.records(1, u64::MAX)) == capture.count()
        && ends(reader, capture.ending())
        && ends(reader, capture.ending())
}

/// Whether a reader that gives so many bytes a read is read as the bytes are.
fn is_read_as_a_whole(rt: &impl Test, bytes: &[u8], chunk: usize) -> bool {
    let all = Vec::from_slice(rt.alloc(), bytes).expect(rt, "memory");
    let reader = CaptureReader::new(rt.alloc(), FaultyReader::new(bytes, chunk.max(1), 0));
    match (Capture::from_bytes(rt.alloc(), all), reader) {
        (Ok(capture), Ok(mut reader)) => reads_all(&mut reader, &capture),
        (Err((fault, _bytes)), Err(OpenFault::Header(other))) => fault
            == CaptureFault::Header(other),
        _ => false,
    }
}

fn each_beginning(rt: &impl Test, file: &[u8], chunk: usize) {
    for length in 0..=file.len() {
        let is_wanted = is_read_as_a_whole(rt, &file[..length], chunk);
        assert_at(rt, length, is_wanted);
    }
}

/// The two packets, cut after each byte, are read record by record as they are read at once, one byte a read.
#[test]
fn each_beginning_of_two_packets(rt: HostRuntime) {
    each_beginning(&rt, two_packets::little_endian(), 1);
    each_beginning(&rt, two_packets::big_endian(), 1);
    each_beginning(&rt, two_packets::big_endian(), 1_000_000);
}

#[test]
fn each_beginning_with_the_other_fraction(rt: HostRuntime) {
    let nanos = with_bytes(rt.alloc(), two_packets::little_endian(), 0, [0x4d, 0x3c]).expect(
        &rt, "memory",
    );
    assert!(rt; capture(&rt, &nanos).nanos());
    each_beginning(&rt, &nanos, 7);
    let micros = with_bytes(rt.alloc(), two_packets::big_endian(), 2, [0xc3, 0xd4]).expect(
        &rt, "memory",
    );
    assert!(rt; !capture(&rt, &micros).nanos());
    each_beginning(&rt, &micros, 7);
}

#[test]
fn each_byte_of_the_header_changed(rt: HostRuntime) {
    for place in 0..24 {
        let bytes = with_bytes(
            rt.alloc(),
            two_packets::little_endian(),
            place,
            [0x55, 0x55],
        )
        .expect(&rt, "memory");
        assert_at(&rt, place, is_read_as_a_whole(&rt, &bytes, 5));
    }
}

/// What a reader answers to these bytes.
fn fault_of(rt: &impl Test, bytes: &[u8]) -> Option<HeaderFault> {
    match CaptureReader::new(rt.alloc(), FaultyReader::new(bytes, 3, 0)) {
        Err(OpenFault::Header(fault)) => Some(fault),
        _ => None,
    }
}

#[test]
fn each_fault_of_the_header(rt: HostRuntime) {
    let file = two_packets::little_endian();
    let of_another_version = with_bytes(rt.alloc(), file, 6, [3, 0]).expect(&rt, "memory");
    let of_another_magic = with_bytes(rt.alloc(), file, 0, [0, 0]).expect(&rt, "memory");
    assert!(rt; fault_of(&rt, file.get(0..23).unwrap_or(b"")) == Some(HeaderFault::FileHeaderCut));
    assert!(rt; fault_of(&rt, &of_another_magic) == Some(HeaderFault::UnknownMagic(0xb2a1)));
    assert!(rt; fault_of(&rt, &of_another_version) == Some(HeaderFault::UnknownVersion));
    assert!(rt; fault_of(&rt, file.get(0..24).unwrap_or(b"")) == None);
}

#[test]
fn records_of_many_lengths_in_pieces(rt: HostRuntime) {
    for big in [false, true] {
        let bytes = generated(&rt, big);
        for chunk in [1, 2, 15, 16, 17, 97, 113, 4_096, 1_000_000] {
            assert_at(&rt, chunk, is_read_as_a_whole(&rt, &bytes, chunk));
        }
    }
}

/// Asserts that a file of 100,000 records takes few reads, and the room at first.
fn read_in_few_calls(rt: &impl Test, file: &[u8]) {
    let counting = FaultyAllocator::new(rt.alloc(), 0);
    let mut source = FaultyReader::new(file, usize::MAX, 0);
    let whole = capture(rt, file);
    match CaptureReader::new(&counting, &mut source) {
        Ok(mut reader) => assert!(rt; reads_all(&mut reader, &whole)),
        Err(_) => assert!(rt; false),
    }
    // A record that is cut at the end of the room goes to its front, so a read is of a few bytes less.
    let most = file.len() / (ROOM - 100) + 4;
    assert!(rt; source.calls() <= most as u64);
    assert!(rt; counting.asked() == ROOM as u64 && counting.held() == 0);
}

#[test]
fn a_hundred_thousand_records(rt: HostRuntime) {
    let bytes = repeated(rt.alloc(), HEADER, RECORD, 100_000, b"").expect(&rt, "memory");
    read_in_few_calls(&rt, &bytes);
    assert!(rt; is_read_as_a_whole(&rt, &bytes, 1));
}

/// Lengths around that of the room, with the record's header.
static LONG: [u32; 8] = [131_056, 131_055, 131_057, 262_144, 0, 500_000, 1, 131_072];

#[test]
fn long_records(rt: HostRuntime) {
    let bytes = of_lengths(rt.alloc(), &LONG).expect(&rt, "memory");
    for chunk in [100, 4_096, 131_072, 10_000_000] {
        assert_at(&rt, chunk, is_read_as_a_whole(&rt, &bytes, chunk));
    }
}

#[test]
fn a_record_of_twenty_million_bytes(rt: HostRuntime) {
    let bytes = of_lengths(rt.alloc(), &[20_000_000, 3]).expect(&rt, "memory");
    assert!(rt; is_read_as_a_whole(&rt, &bytes, 65_536));
}

/// The bytes asked for while a capture of one record of this captured length is read, of which so many bytes come.
fn asked_for(rt: &impl Test, captured: u32, present: usize) -> u64 {
    let mut bytes = Vec::from_slice(rt.alloc(), HEADER).expect(rt, "memory");
    append_record(&mut bytes, captured, present).expect(rt, "memory");
    let counting = FaultyAllocator::new(rt.alloc(), 0);
    match CaptureReader::new(&counting, FaultyReader::new(&bytes, 10_000, 0)) {
        Ok(mut reader) => assert!(rt; reads_all(&mut reader, &capture(rt, &bytes))),
        Err(_) => assert!(rt; false),
    }
    assert!(rt; counting.held() == 0);
    counting.asked()
}

/// How many bytes a record claims, how many of them come, and how many are asked for: of each growth those of the whole
/// new room.
static ASKED: [(u32, usize, u64); 9] = [
    (u32::MAX, 0, 131_072),
    (u32::MAX, 131_055, 131_072),
    (u32::MAX, 131_056, 131_072 + 262_144),
    (u32::MAX, 262_127, 131_072 + 262_144),
    (u32::MAX, 262_128, 131_072 + 262_144 + 524_288),
    (u32::MAX, 300_000, 131_072 + 262_144 + 524_288),
    (1_000_000_000, 300_000, 131_072 + 262_144 + 524_288),
    (131_057, 131_057, 131_072 + 131_073),
    (10_000_000, 10_000_000, 127 * 131_072 + 10_000_016),
];

/// A record asks for room only as its bytes come: for twice those that came, and for no more than the record.
#[test]
fn room_for_long_records(rt: HostRuntime) {
    for (captured, present, wanted) in &ASKED {
        let is_wanted = asked_for(&rt, *captured, *present) == *wanted;
        assert_named(&rt, is_wanted, "the room", (*captured, *present));
    }
}

/// A source that has more bytes once its end was read.
#[derive(Drop)]
struct GrowingSource<'a> {
    bytes: &'a [u8],
    later: &'a [u8],
}

impl<'a> Read for GrowingSource<'a> {
    fn read(&mut self, buf: &mut [u8]) -> io::Result<usize> {
        if self.bytes.is_empty() {
            self.bytes = self.later;
            self.later = b"";
            return Ok(0);
        }
        self.bytes.read(buf)
    }
}

/// Whether the records of a beginning are read up to its end, and then those of the whole file.
fn goes_on(rt: &impl Test, file: &[u8], length: usize) -> bool {
    let (bytes, later) = file.split_at(length.min(file.len()));
    let (first, whole) = (capture(rt, bytes), capture(rt, file));
    let Ok(mut reader) = CaptureReader::new(rt.alloc(), GrowingSource { bytes, later }) else {
        return false;
    };
    let next = first.count().saturating_add(1);
    count_read(&mut reader, first.records(1, u64::MAX)) == first.count()
        && ends(&mut reader, first.ending())
        && count_read(&mut reader, whole.records(next, u64::MAX))
            == whole.count().saturating_sub(first.count())
        && ends(&mut reader, whole.ending())
}

/// A source that has grown after its end is read on.
#[test]
fn a_source_that_grows_after_its_end(rt: HostRuntime) {
    let file = two_packets::little_endian();
    for length in 24..=file.len() {
        assert_at(&rt, length, goes_on(&rt, file, length));
    }
}
