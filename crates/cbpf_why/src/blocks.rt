//! The basic blocks of a program.

ghost use Rattle.std.specs.Prelude.{◌≡◌, ◌<◌, ◌||◌, ◌==◌, ℕ, length, slice_index_or, false, IfOk};
ghost use Rattle.cbpf_code.specs.declared.checker.TheConstants.{MAX_INSTRUCTIONS};
ghost use Rattle.cbpf_why.specs.Graph as spec;

use cbpf_code::{Insn, Op, Program, op_of};
use std::alloc::{AllocError, Allocator};

/// Marks an instruction, if there is one.
fn mark(begins: &mut [bool], i: usize)
    ensures marked { (j : ℕ) → j < length begins.old
        → slice_index_or begins.new j false ≡ (slice_index_or begins.old j false || (i == j)) }
    ensures long { length begins.new ≡ length begins.old }
{
    if i < begins.len() {
        begins[i] = true;
    }
}

/// Marks the instructions at which one opens a block.
#[tactic(auto, using(crate::proofs::BlockLemmas::blocks))]
fn mark_opened(begins: &mut [bool], i: u32, insn: Insn)
    ensures marked { (j : ℕ) → j < length begins.old
        → slice_index_or begins.new j false ≡ (slice_index_or begins.old j false || spec.opens j (i, insn)) }
    ensures long { length begins.new ≡ length begins.old }
{
    let next = i as usize + 1;
    match op_of(insn.code) {
        Some(Op::Ja) => {
            mark(begins, next);
            mark(begins, next + insn.k as usize);
        }
        Some(Op::Jump(_, _)) => {
            mark(begins, next);
            mark(begins, next + usize::from(insn.jt));
            mark(begins, next + usize::from(insn.jf));
        }
        Some(Op::RetK | Op::RetA) => mark(begins, next),
        _ => {}
    }
}

/// Marks the instructions that begin a basic block, where none is marked.
fn mark_all<P: Allocator>(begins: &mut [bool], p: &Program<P>)
    requires long { length begins.old ≡ length p.now }
    requires none { (j : ℕ) → slice_index_or begins.old j false ≡ false }
    ensures long { length begins.new ≡ length p.now }
    ensures begins { (i : ℕ) → i < length p.now → slice_index_or begins.new i false ≡ spec.begins_block p.now i }
{
    mark(begins, 0);
    for i in 0..p.len() {
        mark_opened(begins, i, p.at_index(i));
    }
}

/// Which instructions begin a basic block.
pub(crate) fn block_begins<A: Allocator, P: Allocator>(
    alloc: A,
    p: &Program<P>,
) -> Result<Vec<bool, A>, AllocError>
    ensures long { IfOk result (λ begins. length begins.items ≡ length p.now) }
    ensures begins { IfOk result (λ begins. (i : ℕ) → i < length p.now
        → slice_index_or begins.items i false ≡ spec.begins_block p.now i) }
{
    let mut begins = Vec::new(alloc);
    begins.resize(p.len() as usize, false)?;
    mark_all(begins.as_mut_slice(), p);
    Ok(begins)
}
