//! The index of a capture asks for room as records are found, holds the last of it, and gives all back.

use crate::assertions::assert_named;
use pcap_classic::Capture;
use session_tests::fault_injection::FaultyAllocator;
use session_tests::files::repeated;
use session_tests::inputs::{HEADER, RECORD};
use std::alloc::{Allocator, Global};
use std::process::Abort;

/// The number of records of a capture, and the bytes that its index asks for, and those that it holds. It has room for
/// the starts of four records, of 8 bytes each, and then for twice as many each time.
static INDEXES: [(u32, u64, u64); 10] = [
    (0, 0, 0),
    (1, 32, 32),
    (64, 32, 32),
    (65, 32, 32),
    (256, 32, 32),
    (257, 96, 64),
    (512, 96, 64),
    (513, 224, 128),
    (3000, 992, 512),
    (8192, 2016, 1024),
];

/// What an index asks for and holds, over the bytes of `alloc`, which `counting` counts.
fn index_of<A: Allocator + Copy>(
    rt: &impl Abort,
    alloc: A,
    counting: &FaultyAllocator<Global>,
    bytes: &[u8],
) -> (u64, u64) {
    let bytes = Vec::from_slice(alloc, bytes).expect(rt, "the bytes");
    let (asked, held) = (counting.asked(), counting.held());
    let capture = Capture::from_bytes(alloc, bytes)
        .ok()
        .expect(rt, "the capture");
    assert!(rt; capture.count() < 10000);
    (
        counting.asked().saturating_sub(asked),
        counting.held().saturating_sub(held),
    )
}

/// The index of a capture asks for four places of 8 bytes, and for twice as many each time that it has more than 64
/// records for each; it holds the last ones, and asks for nothing else beside the file.
#[test]
fn room_for_the_index_of_a_capture(rt: HostRuntime) {
    for (records, asked, held) in INDEXES.iter() {
        let counting = FaultyAllocator::new(rt.alloc(), 0);
        let bytes = repeated(rt.alloc(), HEADER, RECORD, *records, b"").expect(&rt, "memory");
        let found = index_of(&rt, &counting, &counting, &bytes);
        let is_wanted = found == (*asked, *held);
        assert_named(&rt, is_wanted, "the bytes of the index", *records);
        assert_named(&rt, counting.held() == 0, "held", *records);
    }
}
