//! Reports of some packets.
ghost use Rattle.std.specs.Prelude.{◌≡◌};
ghost use Rattle.cbpf_why.specs.Chosen.{AreSorted};

use crate::assertions::{Test, assert_named};
use crate::why::report_on;
use crate::why::reports::seven_packets;
use cbpf_why::{ALL_PACKETS, CaptureEnd, PacketRange, Report};
use memory_tests::inputs::ARP;
use pcap_classic::Ending;
use session_tests::fault_injection::FaultyReader;
use session_tests::two_packets;

pub(crate) fn packets(first: u64, last: u64) -> PacketRange
    ensures { result ≡ record { first = first; last = last } }
{
    PacketRange { first, last }
}

/// Passes each packet, and returns the length that it had.
const WIRE: &[u8] = b"ld len\nret a\n";

/// Asserts the lines of some of the seven packets, how the capture ends where its end is read, and how many bytes are
/// read, each by a read of its own.
fn lines(rt: &impl Test, ranges: &[PacketRange], wanted: Option<CaptureEnd>, text: &[u8], read: u64)
    requires { AreSorted ranges.now }
{
    let mut source = FaultyReader::new(seven_packets(), 1, 0);
    let mut written = Vec::new(rt.alloc());
    let asked = (WIRE, None, Report::Packets);
    let answer = report_on(rt, asked, ranges, &mut source, &mut written);
    let is_wanted = answer == Ok(wanted) && written.as_slice() == text;
    assert_named(rt, is_wanted, "the answer and the lines", text.len());
    assert_named(rt, source.calls() == read, "the reads", text.len());
}

const FIRST_TWO: &[u8] = b"1\tpass\tl1\t60\t-\t-\n2\tpass\tl1\t60\t-\t-\n";

const FOURTH: &[u8] = b"4\tpass\tl1\t60\t-\t-\n";

const TWO_TO_FIVE: &[u8] = b"2\tpass\tl1\t60\t-\t-\n\
3\tpass\tl1\t60\t-\t-\n\
4\tpass\tl1\t60\t-\t-\n\
5\tpass\tl1\t60\t-\t-\n";

const LAST_TWO: &[u8] = b"6\tpass\tl1\t60\t-\t-\n7\tpass\tl1\t60\t-\t-\n";

// The records end at the bytes 44, 64, 81, 97, 116, 133 and 153. After the last one a read finds the end.
#[test]
fn ranges_of_packets(rt: HostRuntime) {
    lines(&rt, &[packets(1, 2)], None, FIRST_TWO, 64);
    lines(&rt, &[packets(4, 4)], None, FOURTH, 97);
    lines(&rt, &[packets(4, 4), packets(4, 4)], None, FOURTH, 97);
    lines(&rt, &[packets(2, 4), packets(3, 5)], None, TWO_TO_FIVE, 116);
    lines(&rt, &[packets(2, 5), packets(3, 4)], None, TWO_TO_FIVE, 116);
    lines(
        &rt,
        &[packets(2, 2), packets(3, 3), packets(4, 5)],
        None,
        TWO_TO_FIVE,
        116,
    );
    lines(&rt, &[packets(6, 7)], None, LAST_TWO, 153);
    lines(&rt, &[packets(6, 6), packets(7, 7)], None, LAST_TWO, 153);
    // No packet is in a range that ends before it begins.
    lines(&rt, &[packets(3, 2)], None, b"", 64);
    lines(&rt, &[packets(1, 0), packets(4, 4)], None, FOURTH, 97);
}

#[test]
fn ranges_beyond_the_end(rt: HostRuntime) {
    let seven = Some(CaptureEnd {
        count: 7,
        ending: Ending::Whole,
    });
    lines(&rt, &[packets(6, 8)], seven, LAST_TWO, 154);
    lines(&rt, &[packets(6, 7), packets(10, 12)], seven, LAST_TWO, 154);
    lines(
        &rt,
        &[packets(4, 4), packets(8, 8), packets(9, 9)],
        seven,
        FOURTH,
        154,
    );
    lines(&rt, &[packets(8, 8)], seven, b"", 154);
    lines(&rt, &[packets(9, u64::MAX)], seven, b"", 154);
    lines(&rt, &[packets(u64::MAX, u64::MAX)], seven, b"", 154);
}

/// The packets of a cut capture that are in a range. How it is cut is said, and answered, where its end was read.
fn summary(rt: &impl Test, ranges: &[PacketRange], wanted: Option<CaptureEnd>, text: &[u8])
    requires { AreSorted ranges.now }
{
    let cut = two_packets::big_endian().get(..131).unwrap_or(b"");
    let mut written = Vec::new(rt.alloc());
    let answer = report_on(rt, (ARP, None, Report::Summary), ranges, cut, &mut written);
    assert!(rt; answer == Ok(wanted) && written.as_slice() == text);
}

const FIRST: &[u8] =
    b"pass 1 at l1:\tjeq #0x806, l2, l3, true, then l2:\tret #0xffffffff, first packet 1\nbpf passes:1 fails:0\n";

#[test]
fn summaries_of_a_cut_capture(rt: HostRuntime) {
    let cut =
        b"pass 1 at l1:\tjeq #0x806, l2, l3, true, then l2:\tret #0xffffffff, first packet 1\nbpf passes:1 fails:0\n\
pcap: 1 packets, cut record data at 82\n";
    let end = Some(CaptureEnd {
        count: 1,
        ending: Ending::CutData(82),
    });
    summary(&rt, &[ALL_PACKETS], end, cut);
    summary(&rt, &[packets(1, 1)], None, FIRST);
    summary(&rt, &[packets(1, 2)], end, cut);
    let second = b"bpf passes:0 fails:0\npcap: 1 packets, cut record data at 82\n";
    summary(&rt, &[packets(2, 2)], end, second);
}

/// A range, a number of packets, and what is left of the range beyond them.
type Left = (PacketRange, u64, Option<PacketRange>);

const EMPTY: PacketRange = PacketRange { first: 3, last: 2 };

#[test]
fn what_is_left_of_a_range(rt: HostRuntime) {
    let rows: [Left; 8] = [
        (packets(2, 4), 0, Some(packets(2, 4))),
        (packets(2, 4), 1, Some(packets(2, 4))),
        (packets(2, 4), 2, Some(packets(3, 4))),
        (packets(2, 4), 3, Some(packets(4, 4))),
        (packets(2, 4), 4, None),
        (packets(1, u64::MAX), u64::MAX, None),
        (
            packets(0, u64::MAX),
            u64::MAX - 1,
            Some(packets(u64::MAX, u64::MAX)),
        ),
        (EMPTY, 0, None),
    ];
    for (range, count, left) in &rows {
        assert!(rt; range.beyond(*count) == *left);
    }
}
