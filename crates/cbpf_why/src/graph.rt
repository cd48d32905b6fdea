//! A program as a graph in DOT, with how often its edges were taken.

ghost use Rattle.std.specs.Prelude.{◌≡◌, ◌<◌, ◌≤◌, ◌+◌, ℕ, List, length};
ghost use Rattle.cbpf_code.specs.Writing.{Wrote};
ghost use Rattle.cbpf_machine.specs.Machine.{Machine};
ghost use Rattle.cbpf_reply.specs.Packet.{texts_from};
ghost use Rattle.pcap_classic.specs.Records.{Record};
ghost use Rattle.cbpf_why.specs.CountedProgram.{HasAllCounts, IsCounted};
ghost use Rattle.cbpf_why.specs.Ends.{only_ended_of};
ghost use Rattle.cbpf_why.specs.Graph as spec;

use crate::block_nodes::{write_block_part, write_head};
use crate::end_nodes::write_ends_at;
use crate::ended::Verdict;
use crate::groups::{Group, Groups};
use cbpf_code::{Program, WriteFault, write_bytes};
use cbpf_machine::Runs;
use std::alloc::Allocator;
use std::io::Write;

/// What is known of a program that ran over packets.
#[derive(Drop)]
pub(crate) struct CountedProgram<'a, A: Allocator, P: Allocator> {
    pub(crate) program: &'a Program<P>,
    /// How many packets there were.
    pub(crate) packets: u64,
    /// How often each instruction ran.
    pub(crate) runs: &'a [Runs],
    /// Which instructions begin a basic block.
    pub(crate) begins: &'a [bool],
    pub(crate) groups: &'a Groups<A>,
}

/// What is known of an instruction.
#[derive(Clone, Copy)]
pub(crate) struct Facts {
    pub(crate) runs: Runs,
    /// How often its block ran.
    pub(crate) block_runs: u64,
    pub(crate) passed: Group,
    pub(crate) failed: Group,
    pub(crate) unknown: Group,
}

impl<A: Allocator + Copy, P: Allocator> CountedProgram<'_, A, P> {
    /// The block of an instruction, where that of the one before is known.
    fn block_at(&self, i: u32, before: u32) -> u32
        requires fits { HasAllCounts self.now }
        requires inside { i < length self.now.program.now }
        ensures within { before ≤ i → result ≤ i }
        ensures block { (m : Machine) (records : List Record) → IsCounted self.now m records
            → ((j : ℕ) → i ≡ j + 1 → before ≡ spec.block_of m.list j) → result ≡ spec.block_of m.list i }
    {
        if self.begins[i as usize] { i } else { before }
    }

    /// What is known of an instruction of this block.
    fn facts_at(&self, i: u32, block: u32) -> Facts
        requires fits { HasAllCounts self.now }
        requires inside { i < length self.now.program.now }
        requires block { block < length self.now.program.now }
        ensures { (m : Machine) (records : List Record) → IsCounted self.now m records
            → block ≡ spec.block_of m.list i → result ≡ spec.facts_at m records (only_ended_of m records) i }
    {
        Facts {
            runs: self.runs[i as usize],
            block_runs: self.runs[block as usize].executed,
            passed: self.groups.at(Verdict::Pass, 2 * i as usize),
            failed: self.groups.at(Verdict::Fail, 2 * i as usize),
            unknown: self.groups.at(Verdict::Unknown, 2 * i as usize),
        }
    }

    /// Whether an instruction is the last of its block.
    fn is_last(&self, i: u32) -> bool
        requires fits { HasAllCounts self.now }
        requires inside { i < length self.now.program.now }
        ensures { (m : Machine) (records : List Record) → IsCounted self.now m records → result ≡ spec.is_last m.list i }
    {
        let next = i as usize + 1;
        next == self.begins.len() || self.begins[next]
    }
}

/// Writes the blocks, and the edges between them.
fn write_blocks<W: Write, A: Allocator + Copy, P: Allocator>(
    w: &mut W,
    counted: &CountedProgram<'_, A, P>,
) -> Result<(), WriteFault>
    requires { HasAllCounts counted.now }
    ensures { (m : Machine) (records : List Record) → IsCounted counted.now m records
        → Wrote (W.contents w.old) (W.contents w.new) result
        (texts_from (λ i. spec.block_part m.list i (spec.facts_at m records (only_ended_of m records) i))
        0 (length m.list)) }
{
    let mut block = 0;
    for i in 0..counted.program.len() {
        block = counted.block_at(i, block);
        let facts = counted.facts_at(i, block);
        write_block_part(w, counted.program, block, i, counted.is_last(i), &facts)?;
    }
    Ok(())
}

/// Writes how packets ended.
fn write_ends<W: Write, A: Allocator + Copy, P: Allocator>(
    w: &mut W,
    counted: &CountedProgram<'_, A, P>,
) -> Result<(), WriteFault>
    requires { HasAllCounts counted.now }
    ensures { (m : Machine) (records : List Record) → IsCounted counted.now m records
        → Wrote (W.contents w.old) (W.contents w.new) result
        (texts_from (λ i. spec.end_part (spec.block_of m.list i) (spec.facts_at m records (only_ended_of m records) i))
        0 (length m.list)) }
{
    let mut block = 0;
    for i in 0..counted.program.len() {
        block = counted.block_at(i, block);
        write_ends_at(w, block, &counted.facts_at(i, block))?;
    }
    Ok(())
}

/// Writes the graph.
pub(crate) fn write_graph<W: Write, A: Allocator + Copy, P: Allocator>(
    w: &mut W,
    counted: &CountedProgram<'_, A, P>,
) -> Result<(), WriteFault>
    requires { HasAllCounts counted.now }
    ensures { (m : Machine) (records : List Record) → IsCounted counted.now m records
        → Wrote (W.contents w.old) (W.contents w.new) result (spec.graph_text m records (only_ended_of m records)) }
{
    write_head(w, counted.packets)?;
    write_blocks(w, counted)?;
    write_ends(w, counted)?;
    write_bytes(w, b"}\n")
}
