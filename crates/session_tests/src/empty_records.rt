//! Captures whose records have no bytes, of which each 64th one's start is kept.

use crate::assertions::{Test, assert_at};
use crate::programs::{capture, program_of};
use crate::two_packets;
use cbpf_dbg::{ListTrail, MarkTrail, Meter, RunReply, Session, Trail};
use pcap_classic::Capture;

/// A file header, and so many record headers of captured length 0.
fn empty_records(rt: &impl Test, count: u32) -> Vec<u8> {
    let header = two_packets::little_endian().get(..24).unwrap_or(b"");
    let mut file = Vec::from_slice(rt.alloc(), header).expect(rt, "memory");
    for _ in 0..count {
        file.extend_from_slice(&[0; 16]).expect(rt, "memory");
    }
    file
}

/// Numbers of records, and how many starts are kept of them.
static MARKS: [(u32, usize); 4] = [(130, 3), (65, 2), (64, 1), (0, 0)];

/// Of 130 records of no bytes 3 starts are kept, of 65 two, of 64 one, and of none none.
#[test]
fn starts_that_are_kept(rt: HostRuntime) {
    for (count, marks) in &MARKS {
        let file = empty_records(&rt, *count);
        let capture = capture(&rt, &file);
        let is_kept = capture.count() == u64::from(*count) && capture.marks() == *marks;
        assert_at(&rt, *count as usize, is_kept);
    }
}

/// Whether a capture of 130 records has them where they are, and one after the other.
fn has_130(capture: &Capture) -> bool {
    if capture.count() != 130 {
        return false;
    }
    let (at_mark, last) = (capture.item(65), capture.item(130));
    at_mark.start == 1048
        && last.start == 2088
        && capture.following(&capture.item(64)) == Some(at_mark)
        && capture.following(&last) == None
}

/// Whether a walk from a kept start on has the records up to its end, or to the last.
fn walks_130(capture: &Capture) -> bool {
    if capture.count() != 130 {
        return false;
    }
    capture.records(65, 67).first() == Some(capture.item(65))
        && capture.records(65, 67).count() == 2
        && capture.records(65, u64::MAX).count() == 66
        && capture.records(131, u64::MAX).next() == None
}

/// The packets that passed and that failed, and the turns of a run to the end.
fn run<T: Trail>(s: &mut Session<T>) -> Option<(u64, u64, u128)> {
    let mut meter = Meter::new();
    match s.run(&mut meter, None) {
        Ok(RunReply::Finished(counts)) => Some((counts.passes, counts.fails, meter.spent())),
        _ => None,
    }
}

/// Runs `ret #1` over each record.
fn assert_run<T: Trail>(rt: &impl Test, trail: T, capture: Capture) {
    let mut s = Session::new(rt.alloc(), trail);
    s.load_program(program_of(rt, &[(6, 0, 0, 1)]));
    s.load_capture(capture);
    assert!(rt; run(&mut s) == Some((130, 0, 130)));
}

/// 130 records of no bytes, in a file of 2104 bytes: record 65 starts at 1048, and record 130 at 2088.
/// Record 65 follows record 64, and none follows record 130.
/// A run over 130 records of no bytes passes them all by 130 turns.
#[test]
fn a_capture_of_130_records(rt: HostRuntime) {
    let file = empty_records(&rt, 130);
    assert!(rt; file.len() == 2104);
    let first = capture(&rt, &file);
    assert!(rt; has_130(&first) && walks_130(&first));
    assert_run(&rt, MarkTrail::new(), first);
    let all = ListTrail::new(rt.alloc()).expect(&rt, "memory");
    assert_run(&rt, all, capture(&rt, &file));
}
