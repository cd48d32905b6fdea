//! Reads and growths that fail while a capture is read record by record.

use crate::assertions::{Test, assert_at_both, assert_named};
use crate::capture_reader::{ends, reads};
use crate::captures::capture;
use crate::fault_injection::{ERROR_KINDS, FaultyAllocator, FaultyReader};
use crate::files::of_lengths;
use crate::two_packets;
use pcap_classic::{Capture, CaptureReader, Captured, Ending, OpenFault, ReadFault};
use std::alloc::Allocator;
use std::io::{ErrorKind, Read};

/// Whether a call failed as the read that is to fail does.
fn is_failed(fault: &ReadFault, kind: ErrorKind) -> bool {
    matches!(fault, ReadFault::Read(e) if e.kind() == kind)
}

/// Whether the reader reads this record next, or first a fault of this kind and then the record. Counts faults.
fn reads_in_two<R: Read, A: Allocator>(
    reader: &mut CaptureReader<R, A>,
    wanted: &Captured<'_>,
    kind: ErrorKind,
    faults: &mut u32,
) -> bool {
    match reader.next_record() {
        Ok(Some(record)) => record == *wanted,
        Ok(None) => false,
        Err(fault) => {
            *faults = faults.saturating_add(1);
            is_failed(&fault, kind) && reader.ending() == None && reads(reader, wanted)
        }
    }
}

/// Whether it is at this end, or has a fault of this kind first. Counts faults.
fn ends_in_two<R: Read, A: Allocator>(
    reader: &mut CaptureReader<R, A>,
    wanted: Ending,
    kind: ErrorKind,
    faults: &mut u32,
) -> bool {
    match reader.next_record() {
        Ok(record) => record == None && reader.ending() == Some(wanted),
        Err(fault) => {
            *faults = faults.saturating_add(1);
            is_failed(&fault, kind) && ends(reader, wanted)
        }
    }
}

/// How often a call fails while a capture is read whole by a reader, of which one read fails by this kind of error.
fn faults_in<R: Read, A: Allocator>(
    rt: &impl Test,
    capture: &Capture,
    reader: &mut CaptureReader<R, A>,
    kind: ErrorKind,
) -> u32 {
    let mut faults = 0;
    for record in capture.records(1, u64::MAX) {
        assert!(rt; reads_in_two(reader, &record, kind, &mut faults));
    }
    assert!(rt; ends_in_two(reader, capture.ending(), kind, &mut faults));
    faults
}

/// The same from the file's header on.
fn faults_at(rt: &impl Test, file: &[u8], call: u64, kind: ErrorKind) -> u32 {
    let mut source = FaultyReader::new(file, 13, call);
    source.set_error(kind);
    match CaptureReader::new(rt.alloc(), source) {
        Ok(mut reader) => faults_in(rt, &capture(rt, file), &mut reader, kind),
        Err(OpenFault::Read(fault)) if call <= 2 && is_failed(&fault, kind) => 1,
        Err(_) => 2,
    }
}

/// After a read or a growth that fails the same record is read.
#[test]
fn one_read_fails(rt: HostRuntime) {
    let file = two_packets::big_endian();
    let cut = file.get(0..131).unwrap_or(b"");
    for kind in ERROR_KINDS {
        for call in 1..=12u32 {
            let faults = faults_at(&rt, file, u64::from(call), kind);
            assert_at_both(&rt, call, 132, faults == 1);
            let faults = faults_at(&rt, cut, u64::from(call), kind);
            assert_at_both(&rt, call, 131, faults == 1);
        }
        assert!(rt; faults_at(&rt, file, 13, kind) == 0);
    }
}

/// Whether the record comes at once, or after one call that is out of memory. Counts these.
fn reads_after_memory<R: Read, A: Allocator>(
    reader: &mut CaptureReader<R, A>,
    wanted: &Captured<'_>,
    faults: &mut u32,
) -> bool {
    match reader.next_record() {
        Ok(Some(record)) => record == *wanted,
        Ok(None) => false,
        Err(fault) => {
            *faults = faults.saturating_add(1);
            matches!(fault, ReadFault::Memory) && reads(reader, wanted)
        }
    }
}

/// Asserts that a reader reads a capture whole, after calls that are out of memory: how many these are.
fn refused_in<R: Read, A: Allocator>(
    rt: &impl Test,
    capture: &Capture,
    reader: &mut CaptureReader<R, A>,
) -> u32 {
    let mut faults = 0;
    for record in capture.records(1, u64::MAX) {
        assert!(rt; reads_after_memory(reader, &record, &mut faults));
    }
    assert!(rt; ends(reader, capture.ending()));
    faults
}

/// The same from the file's header on, where one growth is refused.
fn refused_at(rt: &impl Test, file: &[u8], nth: u64) -> u32 {
    let refusing = FaultyAllocator::new(rt.alloc(), nth);
    let faults = match CaptureReader::new(&refusing, FaultyReader::new(file, 50_000, 0)) {
        Ok(mut reader) => refused_in(rt, &capture(rt, file), &mut reader),
        Err(OpenFault::Read(ReadFault::Memory)) if nth == 1 => 1,
        Err(_) => 2,
    };
    assert_named(rt, (refusing.left() == 0) == (faults == 1), "left", nth);
    faults
}

/// After a read or a growth that fails the same record is read.
#[test]
fn each_growth_is_refused(rt: HostRuntime) {
    let bytes = of_lengths(rt.alloc(), &[5, 400_000, 7, 300_000, 600_000, 9]).expect(&rt, "memory");
    for nth in 1..=4u32 {
        assert_named(
            &rt,
            refused_at(&rt, &bytes, u64::from(nth)) == 1,
            "growth",
            nth,
        );
    }
    assert!(rt; refused_at(&rt, &bytes, 5) == 0);
}
