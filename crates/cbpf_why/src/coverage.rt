//! How often each instruction ran.

ghost use Rattle.std.specs.Prelude.{◌≡◌, ◌<◌, ◌≤◌, ◌+◌, ◌++◌, ℕ, List, length, decimal};
ghost use Rattle.cbpf_code.specs.Writing.{Wrote};
ghost use Rattle.cbpf_code.specs.declared.writing.TheConstants.{LINE_SIZE};
ghost use Rattle.cbpf_machine.specs.Choices.{runs_at};
ghost use Rattle.cbpf_reply.specs.Packet.{texts_from};
ghost use Rattle.cbpf_why.specs.Columns.{longest};
ghost use Rattle.cbpf_why.specs.Operations.{is_op_at};
ghost use Rattle.cbpf_why.specs.Operations as operations;
ghost use Rattle.cbpf_why.specs.Coverage as spec;

use crate::columns::{digits_of, longest, prepend_filled, prepend_right};
use cbpf_code::{Line, Op, Program, WriteFault, op_of, prepend_line};
use cbpf_machine::Runs;
use std::alloc::Allocator;
use std::io::Write;

/// Whether the instruction at index `i` is a conditional jump.
fn is_test<A: Allocator>(p: &Program<A>, i: u32) -> bool
    requires { i < length p.now }
    ensures { result ≡ is_op_at operations.is_test p.now i }
{
    matches!(op_of(p.at_index(i).code), Some(Op::Jump(_, _)))
}

/// Puts how often a comparison held and didn't, in at most 53 bytes.
fn prepend_both_ways(line: &mut Line, runs: Runs, wide: usize)
    requires few { wide ≤ 20 }
    requires room { length line.old + 53 ≤ LINE_SIZE }
    ensures text { line.new ≡ spec.both_ways wide runs.executed runs.taken ++ line.old }
    ensures grown { length line.new ≤ length line.old + 53 }
{
    prepend_right(line, runs.executed.saturating_sub(runs.taken), wide);
    line.prepend(b" false ");
    prepend_right(line, runs.taken, wide);
    line.prepend(b"\ttrue ");
}

/// Writes the line of the instruction at index `i`, by the lengths of the longest instruction and the greatest count.
fn write_coverage_line<W: Write, A: Allocator>(
    w: &mut W,
    p: &Program<A>,
    long: usize,
    wide: usize,
    i: u32,
    runs: Runs,
) -> Result<(), WriteFault>
    requires inside { i < length p.now }
    requires few { (long ≤ 77) × (wide ≤ 20) }
    ensures { Wrote (W.contents w.old) (W.contents w.new) result
        (spec.coverage_line p.now long wide i runs.executed runs.taken) }
{
    let mut line = Line::new();
    line.prepend(b"\n");
    if is_test(p, i) {
        prepend_both_ways(&mut line, runs, wide);
        prepend_filled(&mut line, p, i, long);
    } else {
        prepend_line(&mut line, p, i);
    }
    line.prepend(b"\t");
    prepend_right(&mut line, runs.executed, wide);
    line.write(w)
}

/// Writes the listing, each line after how often the instruction ran, and of a conditional jump with how often its
/// comparison held, and how often it didn't. No instruction ran more often than the first.
#[tactic(auto, using(crate::proofs::TextLemmas::texts))]
pub(crate) fn write_coverage<W: Write, A: Allocator>(
    w: &mut W,
    p: &Program<A>,
    runs: &[Runs],
) -> Result<(), WriteFault>
    requires { length runs.now ≡ length p.now }
    ensures { Wrote (W.contents w.old) (W.contents w.new) result (texts_from
        (λ i. spec.coverage_line p.now (longest p.now) (length (decimal (runs_at runs.now 0).executed)) i
        (runs_at runs.now i).executed (runs_at runs.now i).taken) 0 (length p.now)) }
{
    let _sound = p.len();
    let long = longest(p);
    let wide = digits_of(runs[0].executed);
    for i in 0..p.len() {
        write_coverage_line(w, p, long, wide, i, runs[i as usize])?;
    }
    Ok(())
}
