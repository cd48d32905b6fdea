//! Checks a list of instructions: the errors C, and which of them comes first.

ghost use Rattle.std.specs.Prelude.{◌≡◌, ◌<◌, ◌≤◌, ◌+◌, ◌-◌, ◌↔◌, ◌⊎◌, ℕ, Some, length, slice_get, slice_index};
ghost use Rattle.std.specs.Prelude.{MatchOption, IfNone, IsOk, IfOk, IfErr};
ghost use Rattle.std.specs.List.{All};
ghost use Rattle.cbpf_code.specs.Faults.{FirstFault};
ghost use Rattle.cbpf_code.specs.Faults as spec;
ghost use Rattle.cbpf_code.specs.Sound.{IsSound};
ghost use Rattle.cbpf_code.specs.Text.{with_number};
ghost use Rattle.cbpf_code.specs.WordForm.{InRange};
ghost use Rattle.cbpf_code.specs.CheckSteps.{IsAllowed, InsnHasFault};
ghost use Rattle.cbpf_code.specs.Messages.{check_message, message_text};
ghost use Rattle.cbpf_code.specs.declared.checker.CheckFault.{CheckFault};

use crate::extension::{FIRST_EXTENSION, ext_at};
use crate::insn::Insn;
use crate::message::Message;
use crate::opcode::{AluOp, Op, Src, op_of};
use crate::program::Program;
use crate::slots::path_fault;
use std::alloc::Allocator;
use std::error::Error;
use std::fmt;

/// How many instructions a program has at most: the kernel's `BPF_MAXINSNS`.
pub const MAX_INSTRUCTIONS: usize = 4096;

/// How many slots the scratch memory has: the kernel's `BPF_MEMWORDS`.
pub const SLOTS: usize = 16;

/// Why a list of instructions is no program; a number is the index of the instruction, from 0.
#[derive(Clone, Copy, Debug, PartialEq, Eq)]
pub enum CheckFault {
    /// C1: there is no instruction.
    NoInstruction,
    /// C2: there are more than 4096 instructions.
    TooMany,
    /// C3: no operation has the code.
    UnknownCode(u32),
    /// C4: a load or store of scratch memory names a slot above 15.
    NoSlot(u32),
    /// C5: a division or remainder by the number 0.
    ZeroDivisor(u32),
    /// C6: a shift by a number of 32 or more.
    WideShift(u32),
    /// C7: a target of a jump is after the last instruction.
    JumpOutside(u32),
    /// C8: an absolute load from 4294963200 or more where no extension has this number.
    UnknownExtension(u32),
    /// C9: the last instruction is no return.
    NoReturn,
    /// C10: a load of a slot into which some path to it stores nothing.
    UnwrittenSlot(u32),
}

impl CheckFault {
    /// What the program prints of it after `error: `.
    pub fn message(&self) -> Message
        ensures { message_text result ≡ check_message self.now }
    {
        match *self {
            CheckFault::NoInstruction => Message::Text("C1 no instruction"),
            CheckFault::TooMany => Message::Text("C2 more than 4096 instructions"),
            CheckFault::UnknownCode(i) => at_index("C3 at ", i, ": unknown code"),
            CheckFault::NoSlot(i) => at_index("C4 at ", i, ": no such scratch slot"),
            CheckFault::ZeroDivisor(i) => at_index("C5 at ", i, ": division by zero"),
            CheckFault::WideShift(i) => at_index("C6 at ", i, ": shift of 32 or more"),
            CheckFault::JumpOutside(i) => at_index("C7 at ", i, ": jump outside"),
            CheckFault::UnknownExtension(i) => at_index("C8 at ", i, ": unknown extension"),
            CheckFault::NoReturn => Message::Text("C9 last instruction is no return"),
            CheckFault::UnwrittenSlot(i) => {
                at_index("C10 at ", i, ": scratch slot read before it is written")
            }
        }
    }
}

fn at_index(before: &'static str, i: u32, after: &'static str) -> Message
    ensures { message_text result ≡ with_number before.now i after.now }
{
    Message::Number(before, u64::from(i), after)
}

impl fmt::Display for CheckFault {
    ghost use Rattle.std.specs.Prelude.{Some};
    ghost use Rattle.cbpf_code.specs.Messages.{check_message};

    ghost output = { λ fault. Some (check_message fault) };

    fn fmt<W: fmt::Write>(&self, f: &mut fmt::Formatter<W>) -> fmt::Result {
        write!(f, "{}", self.message())
    }
}

impl Error for CheckFault {}

/// Checks a list of instructions (bpf(4), "FILTER MACHINE"), and makes it a program.
///
/// Takes no memory, and time linear in the length of the list.
///
/// # Errors
///
/// The first fault of the list, and the list as it was. C1 and C2 come first, then by instruction
/// from 0 the one of C3 to C8 that it has, then C9, then C10 with the least index.
#[tactic(auto, using(crate::proofs::FaultLemmas::unique))]
pub fn check<A: Allocator>(list: Vec<Insn, A>) -> Result<Program<A>, (CheckFault, Vec<Insn, A>)>
    ensures accepts { IsOk result ↔ IsSound list.items }
    ensures same { IfOk result (λ p. p ≡ list.items) }

    ensures fault { IfErr result (λ e. FirstFault list.items e.0) }
    ensures only { IfErr result (λ e. (f : CheckFault) → FirstFault list.items f → f ≡ e.0) }
    ensures back { IfErr result (λ e. e.1 ≡ list) }
{
    match first_fault(&list) {
        None => Ok(Program { list }),
        Some(fault) => Err((fault, list)),
    }
}

fn first_fault(list: &[Insn]) -> Option<CheckFault>
    ensures fault { MatchOption result (IsSound list.now) (λ e. FirstFault list.now e) }
    ensures ranges { IfNone result (All InRange list.now) }
{
    if list.is_empty() {
        return Some(CheckFault::NoInstruction);
    }
    if list.len() > MAX_INSTRUCTIONS {
        return Some(CheckFault::TooMany);
    }
    let count = list.len() as u32;
    for i in 0..count {
        let insn = list[i as usize];
        match op_of(insn.code) {
            None => return Some(CheckFault::UnknownCode(i)),
            Some(op) => match insn_fault(op, insn, i, count) {
                Some(fault) => return Some(fault),
                None => (),
            },
        }
    }
    match op_of(list[list.len() - 1].code) {
        Some(Op::RetK | Op::RetA) => path_fault(list),
        _ => Some(CheckFault::NoReturn),
    }
}

/// The fault of its own that an instruction of a known operation has, at `i` of `count`.
fn insn_fault(op: Op, insn: Insn, i: u32, count: u32) -> Option<CheckFault>
    requires few { count ≤ MAX_INSTRUCTIONS }
    requires within { i < count }
    ensures fault { MatchOption result (IsAllowed op insn i count)
        (λ e. InsnHasFault op insn i count e × (spec.rank e ≡ 2) × (spec.index_of e ≡ i)) }
    ensures ranges { InRange insn }
{
    let ahead = count - i - 1; // how many instructions a jump can reach
    match op {
        Op::LdMem | Op::LdxMem | Op::St | Op::Stx => (insn.k >= SLOTS as u32).then_some(
            CheckFault::NoSlot(i),
        ),
        Op::Alu(AluOp::Div | AluOp::Mod, Src::K) => (insn.k == 0).then_some(CheckFault::ZeroDivisor(
            i,
        )),
        Op::Alu(AluOp::Lsh | AluOp::Rsh, Src::K) => (insn.k >= u32::BITS).then_some(
            CheckFault::WideShift(i),
        ),
        Op::Ja => {
            if insn.k < ahead {
                None
            } else {
                Some(CheckFault::JumpOutside(i))
            }
        }
        Op::Jump(_, _) => {
            if u32::from(insn.jt) < ahead && u32::from(insn.jf) < ahead {
                None
            } else {
                Some(CheckFault::JumpOutside(i))
            }
        }
        Op::LdAbs(_) => (insn.k >= FIRST_EXTENSION && ext_at(insn.k).is_none()).then_some(
            CheckFault::UnknownExtension(i),
        ),
        Op::Alu(AluOp::Add | AluOp::Sub | AluOp::Mul | AluOp::Or | AluOp::And | AluOp::Xor, _) =>
            None,
        Op::Alu(_, Src::X) => None,
        Op::LdImm | Op::LdInd(_) | Op::LdLen | Op::LdxImm | Op::LdxLen | Op::LdxMsh | Op::Neg =>
            None,
        Op::RetK | Op::RetA | Op::Tax | Op::Txa => None,
    }
}
