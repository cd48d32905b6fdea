//! The nodes of a graph for the packets that ended.

#![tactic(auto, using(cbpf_code::proofs::WrittenLemmas::three, cbpf_code::proofs::WrittenLemmas::steps))]

ghost use Rattle.std.specs.Prelude.{◌≡◌, ◌≤◌, ◌+◌, ◌++◌, length};
ghost use Rattle.cbpf_code.specs.Writing.{Wrote};
ghost use Rattle.cbpf_code.specs.declared.writing.TheConstants.{LINE_SIZE};
ghost use Rattle.cbpf_why.specs.Graph as spec;

use crate::block_nodes::{prepend_edge_label, prepend_node};
use crate::ended::{Ended, Verdict, prepend_reason_after, prepend_verdict};
use crate::graph::Facts;
use crate::groups::Group;
use cbpf_code::{Line, WriteFault};
use std::io::Write;

fn colour(verdict: Verdict) -> &'static [u8]
    ensures same { result.now ≡ spec.colour verdict }
    ensures short { length result.now ≤ 11 }
{
    match verdict {
        Verdict::Pass => b"palegreen",
        Verdict::Fail => b"lightsalmon",
        Verdict::Unknown => b"khaki",
    }
}

/// Puts the name of the node of packets that ended.
fn prepend_end_node(line: &mut Line, first: Ended)
    requires { length line.old + 17 ≤ LINE_SIZE }
    ensures text { line.new ≡ spec.end_node first ++ line.old }
    ensures grown { length line.new ≤ length line.old + 17 }
{
    line.prepend_u32(first.pc);
    prepend_verdict(line, first.verdict());
}

/// Writes the node of packets that ended at an instruction, of which this is the first, and the edge from their block.
fn write_end_edge<W: Write>(
    w: &mut W,
    block: u32,
    count: u64,
    first: Ended,
) -> Result<(), WriteFault>
    ensures { Wrote (W.contents w.old) (W.contents w.new) result (spec.end_edge block first count) }
{
    let mut line = Line::new();
    prepend_edge_label(&mut line, b"", count);
    prepend_end_node(&mut line, first);
    line.prepend(b" -> ");
    prepend_node(&mut line, u64::from(block));
    line.prepend(b"]\n");
    line.prepend(colour(first.verdict()));
    line.prepend(b"\" shape=oval style=filled fillcolor=");
    prepend_reason_after(&mut line, first.reason);
    prepend_verdict(&mut line, first.verdict());
    line.prepend(b" [label=\"");
    prepend_end_node(&mut line, first);
    line.write(w)
}

/// Writes the same of a group, where it has packets.
fn write_end<W: Write>(w: &mut W, block: u32, group: Group) -> Result<(), WriteFault>
    ensures { Wrote (W.contents w.old) (W.contents w.new) result (spec.group_end block group) }
{
    match group.first {
        Some(first) => write_end_edge(w, block, group.count, first.ended),
        None => Ok(()),
    }
}

/// Writes how packets ended at an instruction of this block.
pub(crate) fn write_ends_at<W: Write>(
    w: &mut W,
    block: u32,
    facts: &Facts,
) -> Result<(), WriteFault>
    ensures { Wrote (W.contents w.old) (W.contents w.new) result (spec.end_part block facts.now) }
{
    write_end(w, block, facts.passed)?;
    write_end(w, block, facts.failed)?;
    write_end(w, block, facts.unknown)
}
