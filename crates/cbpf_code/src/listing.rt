//! Listings: the disassembly of a program, one line of assembler text an instruction.
//!
//! Mnemonics and operands are those of the kernel's Documentation/networking/filter where it has them; all
//! else, as the label before each instruction and jump targets as these labels, is this project's own.

ghost use Rattle.std.specs.Prelude.{◌≡◌, ◌<◌, ◌≤◌, ◌+◌, ◌++◌, length, Some};
ghost use Rattle.cbpf_code.specs.Text.{with_number};
ghost use Rattle.cbpf_code.specs.declared.writing.TheConstants.{LINE_SIZE};
ghost use Rattle.cbpf_code.specs.Writing.{Wrote};
ghost use Rattle.cbpf_code.specs.Opcode.{op_of};
ghost use Rattle.cbpf_code.specs.declared.opcode.Op.{Op};
ghost use Rattle.cbpf_code.specs.Listing as spec;
ghost use Rattle.cbpf_code.specs.Syntax as syntax;

use crate::extension::{ext_at, ext_name};
use crate::insn::Insn;
use crate::opcode::{AluOp, Cond, Op, Size, Src, op_of};
use crate::program::Program;
use crate::writing::{Line, WriteFault};
use std::alloc::Allocator;
use std::io::Write;

/// Puts a number between two texts.
#[inline(always)]
fn prepend_between(line: &mut Line, before: &[u8], n: u64, after: &[u8])
    requires short { (length before.now ≤ 8) × (length after.now ≤ 8) }
    requires room { length line.old + 36 ≤ LINE_SIZE }
    ensures text { line.new ≡ with_number before.now n after.now ++ line.old }
    ensures grown { length line.new ≤ length line.old + 36 }
{
    line.prepend(after);
    line.prepend_u64(n);
    line.prepend(before);
}

/// Puts both targets of the conditional jump at an index.
#[inline(always)]
fn prepend_targets(line: &mut Line, i: u32, insn: Insn)
    requires room { length line.old + 46 ≤ LINE_SIZE }
    ensures text { line.new ≡ spec.targets_text i insn ++ line.old }
    ensures grown { length line.new ≤ length line.old + 46 }
{
    let next = u64::from(i) + 1;
    line.prepend_u64(next + u64::from(insn.jf));
    line.prepend(b", l");
    line.prepend_u64(next + u64::from(insn.jt));
    line.prepend(b", l");
}

/// Puts what stands after the mnemonic of the instruction at an index, of this operation.
#[inline(always)]
#[tactic(auto, using(crate::proofs::NameLemmas::names))]
fn prepend_operand(line: &mut Line, i: u32, insn: Insn, op: Op)
    requires room { length line.old + 60 ≤ LINE_SIZE }
    ensures text { line.new ≡ spec.operand_text (syntax.operand_of op) i insn ++ line.old }
    ensures grown { length line.new ≤ length line.old + 60 }
{
    // Targets stand last, so they are put first.
    if let Op::Jump(_, _) = op {
        prepend_targets(line, i, insn);
    }
    match op {
        Op::Neg | Op::Tax | Op::Txa => {}
        Op::Alu(_, Src::X) | Op::Jump(_, Src::X) => line.prepend(b" x"),
        Op::RetA => line.prepend(b" a"),
        Op::LdLen | Op::LdxLen => line.prepend(b" len"),
        Op::LdImm | Op::LdxImm | Op::Alu(_, Src::K) | Op::Jump(_, Src::K) | Op::RetK => {
            if insn.k == 0 {
                line.prepend(b" #0");
            } else {
                line.prepend_hex(insn.k, 1);
                line.prepend(b" #0x");
            }
        }
        Op::LdAbs(_) => match ext_at(insn.k) {
            Some(e) => {
                line.prepend(ext_name(e).as_bytes());
                line.prepend(b" ");
            }
            None => prepend_between(line, b" [", u64::from(insn.k), b"]"),
        },
        Op::LdInd(_) => prepend_between(line, b" [x + ", u64::from(insn.k), b"]"),
        Op::LdMem | Op::LdxMem | Op::St | Op::Stx => {
            prepend_between(line, b" M[", u64::from(insn.k), b"]");
        }
        Op::LdxMsh => prepend_between(line, b" 4*([", u64::from(insn.k), b"]&0xf)"),
        Op::Ja => prepend_between(line, b" l", u64::from(i) + 1 + u64::from(insn.k), b""),
    }
}

/// Puts the line of an instruction of this operation at an index.
#[inline(always)]
pub(crate) fn prepend_operation(line: &mut Line, i: u32, insn: Insn, op: Op)
    requires room { length line.old + 77 ≤ LINE_SIZE }
    ensures text { line.new ≡ spec.operation_text i insn op ++ line.old }
    ensures grown { length line.new ≤ length line.old + 77 }
{
    prepend_operand(line, i, insn, op);
    line.prepend(mnemonic_of(op));
    line.prepend(b":\t");
    line.prepend_u32(i);
    line.prepend(b"l");
}

/// Puts the line of the instruction at index `i`, without a newline, of at most 77 bytes, before
/// a text: what [`write_line`] writes.
///
/// `i` must be less than the program's length, and the line must have room for 77 bytes.
#[inline(always)]
#[tactic(auto, using(crate::proofs::SoundLemmas::sound_known))]
pub fn prepend_line<A: Allocator>(line: &mut Line, p: &Program<A>, i: u32)
    requires within { i < length p.now }
    requires room { length line.old + 77 ≤ LINE_SIZE }
    ensures text { line.new ≡ spec.line_text p.now i ++ line.old }
    ensures grown { length line.new ≤ length line.old + 77 }
{
    let insn = p.at_index(i);
    match op_of(insn.code) {
        Some(op) => prepend_operation(line, i, insn, op),
        None => unreachable!(),
    }
}

/// Writes the line of the instruction at index `i`, without a newline: `l`, the index in
/// decimal, a colon, a tab, the mnemonic, and where the operation has an operand a space and
/// the operand. Fields that the operation doesn't use don't show.
///
/// `i` must be less than the program's length.
pub fn write_line<W: Write, A: Allocator>(
    w: &mut W,
    p: &Program<A>,
    i: u32,
) -> Result<(), WriteFault>
    requires { i < length p.now }
    ensures { Wrote (W.contents w.old) (W.contents w.new) result (spec.line_text p.now i) }
{
    let mut line = Line::new();
    prepend_line(&mut line, p, i);
    line.write(w)
}

/// Writes the lines of all instructions in order, each with a newline.
#[tactic(auto, using(crate::proofs::WrittenLemmas::loops))]
pub fn write_lines<W: Write, A: Allocator>(w: &mut W, p: &Program<A>) -> Result<(), WriteFault>
    ensures { Wrote (W.contents w.old) (W.contents w.new) result (spec.listing p.now) }
{
    for i in 0..p.len() {
        let mut line = Line::new();
        line.prepend(b"\n");
        prepend_line(&mut line, p, i);
        line.write(w)?;
    }
    Ok(())
}

/// The mnemonics of listings, which sources have too.
#[macro_export]
macro_rules! mnemonic {
    (Ld) => { b"ld" };
    (LdHalf) => { b"ldh" };
    (LdByte) => { b"ldb" };
    (Ldx) => { b"ldx" };
    (LdxMsh) => { b"ldxb" };
    (St) => { b"st" };
    (Stx) => { b"stx" };
    (Add) => { b"add" };
    (Sub) => { b"sub" };
    (Mul) => { b"mul" };
    (Div) => { b"div" };
    (Or) => { b"or" };
    (And) => { b"and" };
    (Lsh) => { b"lsh" };
    (Rsh) => { b"rsh" };
    (Mod) => { b"mod" };
    (Xor) => { b"xor" };
    (Neg) => { b"neg" };
    (Ja) => { b"jmp" };
    (Eq) => { b"jeq" };
    (Gt) => { b"jgt" };
    (Ge) => { b"jge" };
    (Bits) => { b"jset" };
    (Ret) => { b"ret" };
    (Tax) => { b"tax" };
    (Txa) => { b"txa" };
}

/// The mnemonic of an operation.
#[inline]
fn mnemonic_of(op: Op) -> &'static [u8]
    ensures same { result.now ≡ syntax.mnemonic_of op }
    ensures short { length result.now ≤ 4 }
{
    match op {
        Op::LdAbs(Size::Half) | Op::LdInd(Size::Half) => mnemonic!(LdHalf),
        Op::LdAbs(Size::Byte) | Op::LdInd(Size::Byte) => mnemonic!(LdByte),
        Op::LdImm | Op::LdAbs(_) | Op::LdInd(_) | Op::LdMem | Op::LdLen => mnemonic!(Ld),
        Op::LdxImm | Op::LdxMem | Op::LdxLen => mnemonic!(Ldx),
        Op::LdxMsh => mnemonic!(LdxMsh),
        Op::St => mnemonic!(St),
        Op::Stx => mnemonic!(Stx),
        Op::Alu(AluOp::Add, _) => mnemonic!(Add),
        Op::Alu(AluOp::Sub, _) => mnemonic!(Sub),
        Op::Alu(AluOp::Mul, _) => mnemonic!(Mul),
        Op::Alu(AluOp::Div, _) => mnemonic!(Div),
        Op::Alu(AluOp::Or, _) => mnemonic!(Or),
        Op::Alu(AluOp::And, _) => mnemonic!(And),
        Op::Alu(AluOp::Lsh, _) => mnemonic!(Lsh),
        Op::Alu(AluOp::Rsh, _) => mnemonic!(Rsh),
        Op::Alu(AluOp::Mod, _) => mnemonic!(Mod),
        Op::Alu(AluOp::Xor, _) => mnemonic!(Xor),
        Op::Neg => mnemonic!(Neg),
        Op::Ja => mnemonic!(Ja),
        Op::Jump(Cond::Eq, _) => mnemonic!(Eq),
        Op::Jump(Cond::Gt, _) => mnemonic!(Gt),
        Op::Jump(Cond::Ge, _) => mnemonic!(Ge),
        Op::Jump(Cond::Bits, _) => mnemonic!(Bits),
        Op::RetK | Op::RetA => mnemonic!(Ret),
        Op::Tax => mnemonic!(Tax),
        Op::Txa => mnemonic!(Txa),
    }
}
