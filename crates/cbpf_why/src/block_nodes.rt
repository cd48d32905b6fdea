//! The boxes of a graph, which are a program's basic blocks, and the edges between them.

#![tactic(auto, using(cbpf_code::proofs::WrittenLemmas::three, cbpf_code::proofs::WrittenLemmas::steps))]

ghost use Rattle.std.specs.Prelude.{◌≡◌, ◌<◌, ◌≤◌, ◌+◌, ◌++◌, ◌-◌, ◌==◌, if◌then◌else◌, [], codes, length, slice_get};
ghost use Rattle.cbpf_code.specs.Opcode.{op_of};
ghost use Rattle.cbpf_code.specs.Writing.{Wrote};
ghost use Rattle.cbpf_code.specs.declared.writing.TheConstants.{LINE_SIZE};
ghost use Rattle.cbpf_why.specs.Graph as spec;

use crate::graph::Facts;
use cbpf_code::{Insn, Line, Op, Program, WriteFault, op_of, prepend_line, write_bytes};
use cbpf_machine::Runs;
use std::alloc::Allocator;
use std::io::Write;

/// What stands for a byte in a label: `&` begins an entity, `<` and `>` a tag, and a tab is a space.
fn label_byte(b: &u8) -> &[u8]
    ensures { result.now ≡ spec.label_byte b.now }
{
    match *b {
        b'&' => b"&amp;",
        b'<' => b"&lt;",
        b'>' => b"&gt;",
        b'\t' => b" ",
        _ => std::slice::from_ref(b),
    }
}

/// Writes a text that stands in a label.
#[tactic(auto, using(cbpf_code::proofs::WrittenLemmas::loops))]
fn write_label<W: Write>(w: &mut W, text: &[u8]) -> Result<(), WriteFault>
    ensures { Wrote (W.contents w.old) (W.contents w.new) result (spec.label_text text.now) }
{
    for b in text {
        write_bytes(w, label_byte(b))?;
    }
    Ok(())
}

/// Writes a text that stands in a label, in grey.
fn write_grey<W: Write>(w: &mut W, text: &[u8]) -> Result<(), WriteFault>
    ensures { Wrote (W.contents w.old) (W.contents w.new) result (spec.grey_text text.now) }
{
    write_bytes(w, b"<font color=\"grey45\">")?;
    write_label(w, text)?;
    write_bytes(w, b"</font>")
}

/// Writes the text of an instruction that ran so often.
fn write_counted<W: Write>(w: &mut W, text: &[u8], count: u64) -> Result<(), WriteFault>
    ensures { Wrote (W.contents w.old) (W.contents w.new) result (spec.counted_text text.now count) }
{
    if count > 0 {
        return write_label(w, text);
    }
    write_grey(w, text)
}

/// Writes a line of a block, from the left, of an instruction that ran so often.
fn write_block_line<W: Write, P: Allocator>(
    w: &mut W,
    p: &Program<P>,
    i: u32,
    count: u64,
) -> Result<(), WriteFault>
    requires { i < length p.now }
    ensures { Wrote (W.contents w.old) (W.contents w.new) result (spec.block_line p.now i count) }
{
    let mut line = Line::new();
    prepend_line(&mut line, p, i);
    write_counted(w, line.as_bytes(), count)?;
    write_bytes(w, b"<br align=\"left\"/>")
}

/// Puts the name of the node of a block, by its first instruction.
pub(crate) fn prepend_node(line: &mut Line, block: u64)
    requires { length line.old + 21 ≤ LINE_SIZE }
    ensures text { line.new ≡ spec.node block ++ line.old }
    ensures grown { length line.new ≤ length line.old + 21 }
{
    line.prepend_u64(block);
    line.prepend(b"l");
}

/// Puts how what never ran is drawn.
fn prepend_grey(line: &mut Line, count: u64)
    requires { length line.old + 43 ≤ LINE_SIZE }
    ensures text { line.new ≡ spec.grey_where_none count ++ line.old }
    ensures grown { length line.new ≤ length line.old + 43 }
{
    if count == 0 {
        line.prepend(b" color=grey45 fontcolor=grey45 style=dashed");
    }
}

/// Puts how often an edge was taken, after a word.
#[tactic(auto, unfolding(crate::specs::Graph::edge_label))]
pub(crate) fn prepend_edge_label(line: &mut Line, word: &[u8], count: u64)
    requires word { length word.now ≤ 6 }
    requires room { length line.old + 83 ≤ LINE_SIZE }
    ensures text { line.new ≡ spec.edge_label word.now count ++ line.old }
    ensures grown { length line.new ≤ length line.old + 83 }
{
    line.prepend(b"]\n");
    prepend_grey(line, count);
    line.prepend(b" \"");
    line.prepend_u64(count);
    line.prepend(word);
    line.prepend(b" [label=\" ");
}

/// Writes the begin of a graph, with the edge of so many packets to the first block.
pub(crate) fn write_head<W: Write>(w: &mut W, count: u64) -> Result<(), WriteFault>
    ensures { Wrote (W.contents w.old) (W.contents w.new) result (spec.graph_head count) }
{
    let mut line = Line::new();
    prepend_edge_label(&mut line, b"", count);
    line.prepend(b"packets [shape=plaintext]\npackets -> l0");
    line.prepend(b"edge [fontname=monospace]\n");
    line.prepend(b"node [shape=box fontname=monospace]\n");
    line.prepend(b"graph [fontname=monospace labelloc=t]\n");
    line.prepend(b"digraph filter {\n");
    line.write(w)
}

/// Writes an edge, with how often it was taken after a word.
#[tactic(auto, unfolding(crate::specs::Graph::edge))]
fn write_edge<W: Write>(
    w: &mut W,
    from: u64,
    to: u64,
    word: &[u8],
    count: u64,
) -> Result<(), WriteFault>
    requires { length word.now ≤ 6 }
    ensures { Wrote (W.contents w.old) (W.contents w.new) result (spec.edge from to word.now count) }
{
    let mut line = Line::new();
    prepend_edge_label(&mut line, word, count);
    prepend_node(&mut line, to);
    line.prepend(b" -> ");
    prepend_node(&mut line, from);
    line.write(w)
}

/// Writes both edges from a conditional jump.
fn write_both_edges<W: Write>(
    w: &mut W,
    block: u64,
    i: u32,
    insn: Insn,
    runs: Runs,
) -> Result<(), WriteFault>
    ensures { Wrote (W.contents w.old) (W.contents w.new) result
        (spec.edges_text block (spec.both_edges i insn runs)) }
{
    let next = u64::from(i) + 1;
    write_edge(w, block, next + u64::from(insn.jt), b"true ", runs.taken)?;
    let others = runs.executed.saturating_sub(runs.taken);
    write_edge(w, block, next + u64::from(insn.jf), b"false ", others)
}

/// Writes the edges from the last instruction of a block.
fn write_edges<W: Write>(
    w: &mut W,
    block: u64,
    i: u32,
    insn: Insn,
    facts: &Facts,
) -> Result<(), WriteFault>
    ensures { Wrote (W.contents w.old) (W.contents w.new) result
        (spec.edges_text block (spec.edges_by i insn facts.now (op_of insn.code))) }
{
    let next = u64::from(i) + 1;
    let count = facts.runs.executed;
    match op_of(insn.code) {
        Some(Op::Ja) => write_edge(w, block, next + u64::from(insn.k), b"", count),
        Some(Op::Jump(_, _)) => write_both_edges(w, block, i, insn, facts.runs),
        Some(Op::RetK | Op::RetA) | None => Ok(()),
        Some(_) => {
            let left = count
                .saturating_sub(facts.passed.count)
                .saturating_sub(facts.failed.count)
                .saturating_sub(facts.unknown.count);
            write_edge(w, block, next, b"", left)
        }
    }
}

/// Writes the begin of a block.
fn write_opening<W: Write>(w: &mut W, block: u32) -> Result<(), WriteFault>
    ensures { Wrote (W.contents w.old) (W.contents w.new) result (spec.block_head block) }
{
    let mut line = Line::new();
    line.prepend(b" [label=<");
    prepend_node(&mut line, u64::from(block));
    line.write(w)
}

/// Writes the end of a block that ran so often.
fn write_closing<W: Write>(w: &mut W, count: u64) -> Result<(), WriteFault>
    ensures { Wrote (W.contents w.old) (W.contents w.new) result (spec.block_end count) }
{
    let mut line = Line::new();
    line.prepend(b"]\n");
    prepend_grey(&mut line, count);
    line.prepend(b">");
    line.write(w)
}

/// Writes the end of a block after its last instruction, and the edges from it.
fn write_edges_out<W: Write, P: Allocator>(
    w: &mut W,
    p: &Program<P>,
    block: u32,
    i: u32,
    facts: &Facts,
) -> Result<(), WriteFault>
    requires { i < length p.now }
    ensures { Wrote (W.contents w.old) (W.contents w.new) result (spec.end_and_edges block p.now i facts.now) }
{
    write_closing(w, facts.block_runs)?;
    write_edges(w, u64::from(block), i, p.at_index(i), facts)
}

/// Writes an instruction of a block, with what follows where it is the last one.
fn write_body<W: Write, P: Allocator>(
    w: &mut W,
    p: &Program<P>,
    block: u32,
    i: u32,
    is_last: bool,
    facts: &Facts,
) -> Result<(), WriteFault>
    requires { i < length p.now }
    ensures { Wrote (W.contents w.old) (W.contents w.new) result (spec.block_line p.now i facts.now.runs.executed
        ++ (if is_last then spec.end_and_edges block p.now i facts.now else [])) }
{
    write_block_line(w, p, i, facts.runs.executed)?;
    if is_last {
        write_edges_out(w, p, block, i, facts)
    } else {
        Ok(())
    }
}

/// Writes what the graph has of an instruction of a block.
pub(crate) fn write_block_part<W: Write, P: Allocator>(
    w: &mut W,
    p: &Program<P>,
    block: u32,
    i: u32,
    is_last: bool,
    facts: &Facts,
) -> Result<(), WriteFault>
    requires { i < length p.now }
    ensures { Wrote (W.contents w.old) (W.contents w.new) result
        ((if block == i then spec.block_head block else []) ++ (spec.block_line p.now i facts.now.runs.executed
        ++ (if is_last then spec.end_and_edges block p.now i facts.now else []))) }
{
    if block != i {
        return write_body(w, p, block, i, is_last, facts);
    }
    write_opening(w, i)?;
    write_body(w, p, block, i, is_last, facts)
}
