//! Each report, with its whole text.

use crate::assertions::{Test, assert_at};
use crate::why::{Asked, report_on};
use cbpf_why::{ALL_PACKETS, Report};

/// Each way to end: loads outside the packet at `l0` and `l10`, a division by 0 at `l2`, an extension at `l5`, and
/// returns. Both ways of `l3` lead to `l4`, and nothing leads to `l9`.
const FILTER: &[u8] = b"ldb [0]\n\
jeq #1, zero, next\n\
zero: div x\n\
next: jeq #2, same, same\n\
same: jgt #3, other, rest\n\
other: ld mark\n\
tax\n\
ret a\n\
rest: jmp far\n\
ret #1\n\
far: ldh [2]\n\
jeq #0x806, pass, fail\n\
pass: ret #0x40000\n\
fail: ret #0\n";

/// Seven packets. Nothing is in the fourth, and the last is as the first.
const SEVEN: &[u8] = b"\xd4\xc3\xb2\xa1\x02\x00\x04\x00\x00\x00\x00\x00\x00\x00\x00\x00\
\xff\xff\x00\x00\x01\x00\x00\x00\
\x01\x00\x00\x00\x00\x00\x00\x00\x04\x00\x00\x00\x3c\x00\x00\x00\x02\x00\x08\x06\
\x02\x00\x00\x00\x00\x00\x00\x00\x04\x00\x00\x00\x3c\x00\x00\x00\x03\x00\x08\x00\
\x03\x00\x00\x00\x00\x00\x00\x00\x01\x00\x00\x00\x3c\x00\x00\x00\x01\
\x04\x00\x00\x00\x00\x00\x00\x00\x00\x00\x00\x00\x3c\x00\x00\x00\
\x05\x00\x00\x00\x00\x00\x00\x00\x03\x00\x00\x00\x3c\x00\x00\x00\x02\x00\x08\
\x06\x00\x00\x00\x00\x00\x00\x00\x01\x00\x00\x00\x3c\x00\x00\x00\x09\
\x07\x00\x00\x00\x00\x00\x00\x00\x04\x00\x00\x00\x3c\x00\x00\x00\x02\x00\x08\x06";

const SUMMARY: &[u8] = b"fail 1 at l0:\tldb [0], outside the packet, first packet 4\n\
fail 1 at l2:\tdiv x, division by 0, first packet 3\n\
unknown 1 at l5:\tld mark, mark has no value, first packet 6\n\
fail 1 at l10:\tldh [2], outside the packet, first packet 5\n\
pass 2 at l11:\tjeq #0x806, l12, l13, true, then l12:\tret #0x40000, first packet 1\n\
fail 1 at l11:\tjeq #0x806, l12, l13, false, then l13:\tret #0, first packet 2\n\
bpf passes:2 fails:4 unknown:1\n";

/// `mark` is 7.
const SUMMARY_MARKED: &[u8] = b"fail 1 at l0:\tldb [0], outside the packet, first packet 4\n\
fail 1 at l2:\tdiv x, division by 0, first packet 3\n\
pass 1 at l4:\tjgt #0x3, l5, l8, true, then l7:\tret a, first packet 6\n\
fail 1 at l10:\tldh [2], outside the packet, first packet 5\n\
pass 2 at l11:\tjeq #0x806, l12, l13, true, then l12:\tret #0x40000, first packet 1\n\
fail 1 at l11:\tjeq #0x806, l12, l13, false, then l13:\tret #0, first packet 2\n\
bpf passes:3 fails:4\n";

const TRACES: &[u8] = b"packet 1\n\
l0:\tldb [0]             \tA 0 (0x0) X 0 (0x0)\n\
l1:\tjeq #0x1, l2, l3    \tA 2 (0x2) X 0 (0x0)\tto l3\n\
l3:\tjeq #0x2, l4, l4    \tA 2 (0x2) X 0 (0x0)\tto l4\n\
l4:\tjgt #0x3, l5, l8    \tA 2 (0x2) X 0 (0x0)\tto l8\n\
l8:\tjmp l10             \tA 2 (0x2) X 0 (0x0)\tto l10\n\
l10:\tldh [2]             \tA 2 (0x2) X 0 (0x0)\n\
l11:\tjeq #0x806, l12, l13\tA 2054 (0x806) X 0 (0x0)\tto l12\n\
l12:\tret #0x40000        \tA 2054 (0x806) X 0 (0x0)\n\
pass at l11:\tjeq #0x806, l12, l13, true with A 2054 (0x806) X 0 (0x0), then l12:\tret #0x40000\n\
packet 2\n\
l0:\tldb [0]             \tA 0 (0x0) X 0 (0x0)\n\
l1:\tjeq #0x1, l2, l3    \tA 3 (0x3) X 0 (0x0)\tto l3\n\
l3:\tjeq #0x2, l4, l4    \tA 3 (0x3) X 0 (0x0)\tto l4\n\
l4:\tjgt #0x3, l5, l8    \tA 3 (0x3) X 0 (0x0)\tto l8\n\
l8:\tjmp l10             \tA 3 (0x3) X 0 (0x0)\tto l10\n\
l10:\tldh [2]             \tA 3 (0x3) X 0 (0x0)\n\
l11:\tjeq #0x806, l12, l13\tA 2048 (0x800) X 0 (0x0)\tto l13\n\
l13:\tret #0              \tA 2048 (0x800) X 0 (0x0)\n\
fail at l11:\tjeq #0x806, l12, l13, false with A 2048 (0x800) X 0 (0x0), then l13:\tret #0\n\
packet 3\n\
l0:\tldb [0]             \tA 0 (0x0) X 0 (0x0)\n\
l1:\tjeq #0x1, l2, l3    \tA 1 (0x1) X 0 (0x0)\tto l2\n\
l2:\tdiv x               \tA 1 (0x1) X 0 (0x0)\n\
fail at l2:\tdiv x, division by 0\n\
packet 4\n\
l0:\tldb [0]             \tA 0 (0x0) X 0 (0x0)\n\
fail at l0:\tldb [0], outside the packet: byte 0, captured 0 of 60\n\
packet 5\n\
l0:\tldb [0]             \tA 0 (0x0) X 0 (0x0)\n\
l1:\tjeq #0x1, l2, l3    \tA 2 (0x2) X 0 (0x0)\tto l3\n\
l3:\tjeq #0x2, l4, l4    \tA 2 (0x2) X 0 (0x0)\tto l4\n\
l4:\tjgt #0x3, l5, l8    \tA 2 (0x2) X 0 (0x0)\tto l8\n\
l8:\tjmp l10             \tA 2 (0x2) X 0 (0x0)\tto l10\n\
l10:\tldh [2]             \tA 2 (0x2) X 0 (0x0)\n\
fail at l10:\tldh [2], outside the packet: bytes 2 to 3, captured 3 of 60\n\
packet 6\n\
l0:\tldb [0]             \tA 0 (0x0) X 0 (0x0)\n\
l1:\tjeq #0x1, l2, l3    \tA 9 (0x9) X 0 (0x0)\tto l3\n\
l3:\tjeq #0x2, l4, l4    \tA 9 (0x9) X 0 (0x0)\tto l4\n\
l4:\tjgt #0x3, l5, l8    \tA 9 (0x9) X 0 (0x0)\tto l5\n\
l5:\tld mark             \tA 9 (0x9) X 0 (0x0)\n\
unknown at l5:\tld mark, mark has no value\n\
packet 7\n\
l0:\tldb [0]             \tA 0 (0x0) X 0 (0x0)\n\
l1:\tjeq #0x1, l2, l3    \tA 2 (0x2) X 0 (0x0)\tto l3\n\
l3:\tjeq #0x2, l4, l4    \tA 2 (0x2) X 0 (0x0)\tto l4\n\
l4:\tjgt #0x3, l5, l8    \tA 2 (0x2) X 0 (0x0)\tto l8\n\
l8:\tjmp l10             \tA 2 (0x2) X 0 (0x0)\tto l10\n\
l10:\tldh [2]             \tA 2 (0x2) X 0 (0x0)\n\
l11:\tjeq #0x806, l12, l13\tA 2054 (0x806) X 0 (0x0)\tto l12\n\
l12:\tret #0x40000        \tA 2054 (0x806) X 0 (0x0)\n\
pass at l11:\tjeq #0x806, l12, l13, true with A 2054 (0x806) X 0 (0x0), then l12:\tret #0x40000\n";

const LINES: &[u8] = b"1\tpass\tl12\t262144\tl11\ttrue\n\
2\tfail\tl13\t0\tl11\tfalse\n\
3\tfail\tl2\tdivision by 0\t-\t-\n\
4\tfail\tl0\toutside the packet\t-\t-\n\
5\tfail\tl10\toutside the packet\t-\t-\n\
6\tunknown\tl5\tmark has no value\t-\t-\n\
7\tpass\tl12\t262144\tl11\ttrue\n";

const COVERAGE: &[u8] = b"7\tl0:\tldb [0]\n\
6\tl1:\tjeq #0x1, l2, l3    \ttrue 1 false 5\n\
1\tl2:\tdiv x\n\
5\tl3:\tjeq #0x2, l4, l4    \ttrue 3 false 2\n\
5\tl4:\tjgt #0x3, l5, l8    \ttrue 1 false 4\n\
1\tl5:\tld mark\n\
0\tl6:\ttax\n\
0\tl7:\tret a\n\
4\tl8:\tjmp l10\n\
0\tl9:\tret #0x1\n\
4\tl10:\tldh [2]\n\
3\tl11:\tjeq #0x806, l12, l13\ttrue 2 false 1\n\
2\tl12:\tret #0x40000\n\
1\tl13:\tret #0\n";

const GRAPH: &[u8] = b"digraph filter {\n\
graph [fontname=monospace labelloc=t]\n\
node [shape=box fontname=monospace]\n\
edge [fontname=monospace]\n\
packets [shape=plaintext]\n\
packets -> l0 [label=\" 7 \"]\n\
l0 [label=<l0: ldb [0]<br align=\"left\"/>l1: jeq #0x1, l2, l3<br align=\"left\"/>>]\n\
l0 -> l2 [label=\" true 1 \"]\n\
l0 -> l3 [label=\" false 5 \"]\n\
l2 [label=<l2: div x<br align=\"left\"/>>]\n\
l2 -> l3 [label=\" 0 \" color=grey45 fontcolor=grey45 style=dashed]\n\
l3 [label=<l3: jeq #0x2, l4, l4<br align=\"left\"/>>]\n\
l3 -> l4 [label=\" true 3 \"]\n\
l3 -> l4 [label=\" false 2 \"]\n\
l4 [label=<l4: jgt #0x3, l5, l8<br align=\"left\"/>>]\n\
l4 -> l5 [label=\" true 1 \"]\n\
l4 -> l8 [label=\" false 4 \"]\n\
l5 [label=<l5: ld mark<br align=\"left\"/><font color=\"grey45\">l6: tax</font><br align=\"left\"/><font color=\"grey45\">l7: ret a</font><br align=\"left\"/>>]\n\
l8 [label=<l8: jmp l10<br align=\"left\"/>>]\n\
l8 -> l10 [label=\" 4 \"]\n\
l9 [label=<<font color=\"grey45\">l9: ret #0x1</font><br align=\"left\"/>> color=grey45 fontcolor=grey45 style=dashed]\n\
l10 [label=<l10: ldh [2]<br align=\"left\"/>l11: jeq #0x806, l12, l13<br align=\"left\"/>>]\n\
l10 -> l12 [label=\" true 2 \"]\n\
l10 -> l13 [label=\" false 1 \"]\n\
l12 [label=<l12: ret #0x40000<br align=\"left\"/>>]\n\
l13 [label=<l13: ret #0<br align=\"left\"/>>]\n\
fail0 [label=\"fail, outside the packet\" shape=oval style=filled fillcolor=lightsalmon]\n\
l0 -> fail0 [label=\" 1 \"]\n\
fail2 [label=\"fail, division by 0\" shape=oval style=filled fillcolor=lightsalmon]\n\
l2 -> fail2 [label=\" 1 \"]\n\
unknown5 [label=\"unknown, mark has no value\" shape=oval style=filled fillcolor=khaki]\n\
l5 -> unknown5 [label=\" 1 \"]\n\
fail10 [label=\"fail, outside the packet\" shape=oval style=filled fillcolor=lightsalmon]\n\
l10 -> fail10 [label=\" 1 \"]\n\
pass12 [label=\"pass\" shape=oval style=filled fillcolor=palegreen]\n\
l12 -> pass12 [label=\" 2 \"]\n\
fail13 [label=\"fail\" shape=oval style=filled fillcolor=lightsalmon]\n\
l13 -> fail13 [label=\" 1 \"]\n\
}\n";

/// A return at which packets pass and others fail, after `l2`, where one way goes on with the next instruction.
const RET_A: &[u8] = b"ldb [0]\njset #1, end, next\nnext: ldx 4*([0]&0xf)\nend: ret a\n";

/// Of one byte each: 6, 0, 5 and 9.
const FOUR: &[u8] = b"\xd4\xc3\xb2\xa1\x02\x00\x04\x00\x00\x00\x00\x00\x00\x00\x00\x00\
\xff\xff\x00\x00\x01\x00\x00\x00\
\x01\x00\x00\x00\x00\x00\x00\x00\x01\x00\x00\x00\x3c\x00\x00\x00\x06\
\x02\x00\x00\x00\x00\x00\x00\x00\x01\x00\x00\x00\x3c\x00\x00\x00\x00\
\x03\x00\x00\x00\x00\x00\x00\x00\x01\x00\x00\x00\x3c\x00\x00\x00\x05\
\x04\x00\x00\x00\x00\x00\x00\x00\x01\x00\x00\x00\x3c\x00\x00\x00\x09";

const RET_A_SUMMARY: &[u8] =
    b"pass 2 at l1:\tjset #0x1, l3, l2, true, then l3:\tret a, first packet 3\n\
pass 1 at l1:\tjset #0x1, l3, l2, false, then l3:\tret a, first packet 1\n\
fail 1 at l1:\tjset #0x1, l3, l2, false, then l3:\tret a, first packet 2\n\
bpf passes:3 fails:1\n";

const RET_A_TRACES: &[u8] = b"packet 1\n\
l0:\tldb [0]          \tA 0 (0x0) X 0 (0x0)\n\
l1:\tjset #0x1, l3, l2\tA 6 (0x6) X 0 (0x0)\tto l2\n\
l2:\tldxb 4*([0]&0xf) \tA 6 (0x6) X 0 (0x0)\n\
l3:\tret a            \tA 6 (0x6) X 24 (0x18)\n\
pass at l1:\tjset #0x1, l3, l2, false with A 6 (0x6) X 0 (0x0), then l3:\tret a\n\
packet 2\n\
l0:\tldb [0]          \tA 0 (0x0) X 0 (0x0)\n\
l1:\tjset #0x1, l3, l2\tA 0 (0x0) X 0 (0x0)\tto l2\n\
l2:\tldxb 4*([0]&0xf) \tA 0 (0x0) X 0 (0x0)\n\
l3:\tret a            \tA 0 (0x0) X 0 (0x0)\n\
fail at l1:\tjset #0x1, l3, l2, false with A 0 (0x0) X 0 (0x0), then l3:\tret a\n\
packet 3\n\
l0:\tldb [0]          \tA 0 (0x0) X 0 (0x0)\n\
l1:\tjset #0x1, l3, l2\tA 5 (0x5) X 0 (0x0)\tto l3\n\
l3:\tret a            \tA 5 (0x5) X 0 (0x0)\n\
pass at l1:\tjset #0x1, l3, l2, true with A 5 (0x5) X 0 (0x0), then l3:\tret a\n\
packet 4\n\
l0:\tldb [0]          \tA 0 (0x0) X 0 (0x0)\n\
l1:\tjset #0x1, l3, l2\tA 9 (0x9) X 0 (0x0)\tto l3\n\
l3:\tret a            \tA 9 (0x9) X 0 (0x0)\n\
pass at l1:\tjset #0x1, l3, l2, true with A 9 (0x9) X 0 (0x0), then l3:\tret a\n";

const RET_A_GRAPH: &[u8] = b"digraph filter {\n\
graph [fontname=monospace labelloc=t]\n\
node [shape=box fontname=monospace]\n\
edge [fontname=monospace]\n\
packets [shape=plaintext]\n\
packets -> l0 [label=\" 4 \"]\n\
l0 [label=<l0: ldb [0]<br align=\"left\"/>l1: jset #0x1, l3, l2<br align=\"left\"/>>]\n\
l0 -> l3 [label=\" true 2 \"]\n\
l0 -> l2 [label=\" false 2 \"]\n\
l2 [label=<l2: ldxb 4*([0]&amp;0xf)<br align=\"left\"/>>]\n\
l2 -> l3 [label=\" 2 \"]\n\
l3 [label=<l3: ret a<br align=\"left\"/>>]\n\
pass3 [label=\"pass\" shape=oval style=filled fillcolor=palegreen]\n\
l3 -> pass3 [label=\" 3 \"]\n\
fail3 [label=\"fail\" shape=oval style=filled fillcolor=lightsalmon]\n\
l3 -> fail3 [label=\" 1 \"]\n\
}\n";

/// No packet.
const NONE: &[u8] = b"\xd4\xc3\xb2\xa1\x02\x00\x04\x00\x00\x00\x00\x00\x00\x00\x00\x00\
\xff\xff\x00\x00\x01\x00\x00\x00";

const NONE_GRAPH: &[u8] = b"digraph filter {\n\
graph [fontname=monospace labelloc=t]\n\
node [shape=box fontname=monospace]\n\
edge [fontname=monospace]\n\
packets [shape=plaintext]\n\
packets -> l0 [label=\" 0 \" color=grey45 fontcolor=grey45 style=dashed]\n\
l0 [label=<<font color=\"grey45\">l0: ret #0</font><br align=\"left\"/>> color=grey45 fontcolor=grey45 style=dashed]\n\
}\n";

/// What is asked, the capture, and the text.
type Row = (Asked<'static>, &'static [u8], &'static [u8]);

static REPORTS: [Row; 6] = [
    ((FILTER, None, Report::Summary), SEVEN, SUMMARY),
    ((FILTER, Some(7), Report::Summary), SEVEN, SUMMARY_MARKED),
    ((FILTER, None, Report::Traces), SEVEN, TRACES),
    ((FILTER, None, Report::Packets), SEVEN, LINES),
    ((FILTER, None, Report::Coverage), SEVEN, COVERAGE),
    ((FILTER, None, Report::Graph), SEVEN, GRAPH),
];

static REPORTS_OF_SHORT_FILTERS: [Row; 8] = [
    ((RET_A, None, Report::Summary), FOUR, RET_A_SUMMARY),
    ((RET_A, None, Report::Traces), FOUR, RET_A_TRACES),
    ((RET_A, None, Report::Graph), FOUR, RET_A_GRAPH),
    (
        (b"1,6 0 0 0", None, Report::Summary),
        NONE,
        b"bpf passes:0 fails:0\n",
    ),
    ((b"1,6 0 0 0", None, Report::Traces), NONE, b""),
    ((b"1,6 0 0 0", None, Report::Packets), NONE, b""),
    (
        (b"1,6 0 0 0", None, Report::Coverage),
        NONE,
        b"0\tl0:\tret #0\n",
    ),
    ((b"1,6 0 0 0", None, Report::Graph), NONE, NONE_GRAPH),
];

// By a call, so that proofs do not carry the bytes.
pub(crate) fn seven_packets() -> &'static [u8] {
    SEVEN
}

fn are_whole(rt: &impl Test, rows: &[Row]) {
    for (row, (asked, file, text)) in rows.iter().enumerate() {
        let mut written = Vec::new(rt.alloc());
        let answer = report_on(rt, *asked, &[ALL_PACKETS], *file, &mut written);
        assert_at(rt, row, answer.is_ok() && written.as_slice() == *text);
    }
}

#[test]
fn whole_texts(rt: HostRuntime) {
    are_whole(&rt, &REPORTS);
    are_whole(&rt, &REPORTS_OF_SHORT_FILTERS);
}
