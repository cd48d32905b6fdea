//! Reports of a program of 4096 instructions on 5,000 packets, with memory at hand.

use crate::assertions::{Test, assert_named};
use crate::why::report_on;
use cbpf_code::{write_bytes, write_with_number};
use cbpf_why::{ALL_PACKETS, Report};
use session_tests::fault_injection::FaultyReader;
use session_tests::files::repeated;
use session_tests::inputs::{HEADER, RECORD};

/// A jump to the last instruction, over 4094 times `tax`, as `tcpdump -ddd` prints it.
fn longest(rt: &impl Test) -> Vec<u8> {
    repeated(
        rt.alloc(),
        b"4096\n5 0 0 4094\n",
        b"7 0 0 0\n",
        4094,
        b"6 0 0 1\n",
    )
    .expect(rt, "memory")
}

fn put(rt: &impl Test, text: &mut Vec<u8>, more: &[u8]) {
    assert!(rt; write_bytes(text, more) == Ok(()));
}

/// Puts a text around each number up to the last.
fn put_numbered(rt: &impl Test, text: &mut Vec<u8>, before: &[u8], last: u64, after: &[u8]) {
    for n in 1..=last {
        assert!(rt; write_with_number(text, before, n, after) == Ok(()));
    }
}

const TRACE: &[u8] = b"\n\
l0:\tjmp l4095\tA 0 (0x0) X 0 (0x0)\tto l4095\n\
l4095:\tret #0x1 \tA 0 (0x0) X 0 (0x0)\n\
pass at l4095:\tret #0x1\n";

/// The whole text of a report.
fn text_of(rt: &impl Test, report: Report) -> Vec<u8> {
    let mut text = Vec::new(rt.alloc());
    match report {
        Report::Summary => {
            put(
                rt,
                &mut text,
                b"pass 5000 at l4095:\tret #0x1, first packet 1\nbpf passes:5000 fails:0\n",
            );
        }
        Report::Traces => put_numbered(rt, &mut text, b"packet ", 5000, TRACE),
        Report::Packets => put_numbered(rt, &mut text, b"", 5000, b"\tpass\tl4095\t1\t-\t-\n"),
        Report::Coverage => {
            put(rt, &mut text, b"5000\tl0:\tjmp l4095\n");
            put_numbered(rt, &mut text, b"   0\tl", 4094, b":\ttax\n");
            put(rt, &mut text, b"5000\tl4095:\tret #0x1\n");
        }
        Report::Graph => {
            put(rt, &mut text, GRAPH_HEAD);
            put_numbered(
                rt,
                &mut text,
                b"<font color=\"grey45\">l",
                4094,
                b": tax</font><br align=\"left\"/>",
            );
            put(rt, &mut text, GRAPH_END);
        }
    }
    text
}

const GRAPH_HEAD: &[u8] = b"digraph filter {\n\
graph [fontname=monospace labelloc=t]\n\
node [shape=box fontname=monospace]\n\
edge [fontname=monospace]\n\
packets [shape=plaintext]\n\
packets -> l0 [label=\" 5000 \"]\n\
l0 [label=<l0: jmp l4095<br align=\"left\"/>>]\n\
l0 -> l4095 [label=\" 5000 \"]\n\
l1 [label=<";

const GRAPH_END: &[u8] = b"> color=grey45 fontcolor=grey45 style=dashed]\n\
l1 -> l4095 [label=\" 0 \" color=grey45 fontcolor=grey45 style=dashed]\n\
l4095 [label=<l4095: ret #0x1<br align=\"left\"/>>]\n\
pass4095 [label=\"pass\" shape=oval style=filled fillcolor=palegreen]\n\
l4095 -> pass4095 [label=\" 5000 \"]\n\
}\n";

#[test]
fn a_long_program_on_many_packets(rt: HostRuntime) {
    let filter = longest(&rt);
    let file = repeated(rt.alloc(), HEADER, RECORD, 5000, b"").expect(&rt, "memory");
    for report in [
        Report::Summary,
        Report::Traces,
        Report::Packets,
        Report::Coverage,
        Report::Graph,
    ] {
        let mut text = Vec::new(rt.alloc());
        let source = FaultyReader::new(&file, 1000, 0);
        let answer = report_on(
            &rt,
            (&filter, None, report),
            &[ALL_PACKETS],
            source,
            &mut text,
        );
        let wanted = text_of(&rt, report);
        let is_wanted = answer.is_ok() && text.as_slice() == wanted.as_slice();
        assert_named(&rt, is_wanted, "the text", report);
    }
}
