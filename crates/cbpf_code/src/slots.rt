//! The slots of scratch memory along the paths of a program: the error C10.

ghost use Rattle.std.specs.Prelude.{◌≡◌, ◌<◌, ◌≤◌, ◌+◌, ◌↔◌, ◌⊎◌, ℕ, Some, length, slice_get, slice_index};
ghost use Rattle.std.specs.Prelude.{MatchOption, IsTrue};
ghost use Rattle.cbpf_code.specs.ControlFlow as flow;
ghost use Rattle.cbpf_code.specs.Faults.{FirstFault};
ghost use Rattle.cbpf_code.specs.Sound.{IsSound};
ghost use Rattle.cbpf_code.specs.CheckSteps.{IsWellFormed};
ghost use Rattle.cbpf_code.specs.SlotMasks.{AddsToMasks, InMask, LeavesUnwritten};
ghost use Rattle.cbpf_code.specs.declared.checker.TheConstants.{SLOTS};

use crate::checker::{CheckFault, MAX_INSTRUCTIONS};
use crate::insn::Insn;
use crate::opcode::{Op, op_of};

/// The first fault of a path: an instruction loads a slot which some path to it leaves unwritten. Without one the
/// list is sound.
///
/// Jumps only go forward, so one pass is enough: each instruction has a mask of the slots that some
/// path to it leaves unwritten. The mask is empty where no path leads to the instruction, and where each path writes all
/// slots.
pub(crate) fn path_fault(list: &[Insn]) -> Option<CheckFault>
    requires { IsWellFormed list.now }
    ensures { MatchOption result (IsSound list.now) (λ e. FirstFault list.now e) }
{
    let mut unwritten = [0u16; MAX_INSTRUCTIONS];
    unwritten[0] = u16::MAX;
    for i in 0..list.len() {
        let insn = list[i];
        match op_of(insn.code) {
            None => unreachable!(),
            Some(op) => {
                if loads_any(op, insn, unwritten[i]) {
                    return Some(CheckFault::UnwrittenSlot(i as u32));
                }
                let after = still_unwritten(unwritten[i], op, insn);
                propagate(&mut unwritten, i, op, insn, after);
            }
        }
    }
    None
}

/// Whether the instruction loads one of the slots of a mask.
fn loads_any(op: Op, insn: Insn, mask: u16) -> bool
    requires { IsTrue (flow.loads_slot op) → insn.k < SLOTS }
    ensures { IsTrue result ↔ IsTrue (flow.loads_slot op) × InMask mask insn.k }
{
    match op {
        Op::LdMem | Op::LdxMem => (mask >> insn.k) & 1 == 1,
        _ => false,
    }
}

/// The slots of a mask into which the instruction stores nothing.
fn still_unwritten(mask: u16, op: Op, insn: Insn) -> u16
    requires { IsTrue (flow.stores_slot op) → insn.k < SLOTS }
    ensures { LeavesUnwritten mask op insn result }
{
    match op {
        Op::St | Op::Stx => mask & !(1 << insn.k),
        _ => mask,
    }
}

/// Adds a mask to the masks of the instructions that may follow the one at `i`.
fn propagate(masks: &mut [u16], i: usize, op: Op, insn: Insn, mask: u16)
    requires few { i < MAX_INSTRUCTIONS }
    requires inside { (t : ℕ) → flow.IsAmong (flow.successors (Some op) insn i) t → t < length masks.old }
    ensures { AddsToMasks masks.old masks.new mask (λ t. flow.IsAmong (flow.successors (Some op) insn i) t) }
{
    match op {
        Op::RetK | Op::RetA => (),
        Op::Ja => add_to_mask(masks, i + 1 + insn.k as usize, mask),
        Op::Jump(_, _) => {
            add_to_mask(masks, i + 1 + usize::from(insn.jt), mask);
            add_to_mask(masks, i + 1 + usize::from(insn.jf), mask);
        }
        _ => add_to_mask(masks, i + 1, mask),
    }
}

fn add_to_mask(masks: &mut [u16], at: usize, mask: u16)
    requires { at < length masks.old }
    ensures { AddsToMasks masks.old masks.new mask (λ t. t ≡ at) }
{
    masks[at] |= mask;
}
