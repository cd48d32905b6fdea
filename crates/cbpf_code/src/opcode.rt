//! The operations, and the table of their codes.

ghost use Rattle.std.specs.Prelude.{◌≡◌, ℕ, Some};
ghost use Rattle.cbpf_code.specs.Opcode as spec;

/// How many bytes of a packet a load reads: 4, 2 or 1.
#[derive(Clone, Copy, Debug, PartialEq, Eq)]
pub enum Size {
    Word,
    Half,
    Byte,
}

/// An operation of the arithmetic and logic unit on the accumulator and an operand.
#[derive(Clone, Copy, Debug, PartialEq, Eq)]
pub enum AluOp {
    Add,
    Sub,
    Mul,
    Div,
    Or,
    And,
    Lsh,
    Rsh,
    Mod,
    Xor,
}

/// Where an operand comes from: the instruction's number `k`, or the index register X.
#[derive(Clone, Copy, Debug, PartialEq, Eq)]
pub enum Src {
    K,
    X,
}

/// How a conditional jump compares the accumulator with its operand; `Bits` asks for a common bit.
#[derive(Clone, Copy, Debug, PartialEq, Eq)]
pub enum Cond {
    Eq,
    Gt,
    Ge,
    Bits,
}

/// An operation of classic BPF (Documentation/networking/filter, "BPF engine and instruction set").
///
/// `Ld` loads the accumulator and `Ldx` the index register: a number (`Imm`), bytes of the packet
/// at a fixed offset (`Abs`) or at one relative to the index register (`Ind`), a slot of the scratch
/// memory (`Mem`), the packet's length (`Len`), or the length of an IP header (`Msh`).
#[derive(Clone, Copy, Debug, PartialEq, Eq)]
pub enum Op {
    LdImm,
    LdAbs(Size),
    LdInd(Size),
    LdMem,
    LdLen,
    LdxImm,
    LdxMem,
    LdxLen,
    LdxMsh,
    St,
    Stx,
    Alu(AluOp, Src),
    Neg,
    Ja,
    Jump(Cond, Src),
    RetK,
    RetA,
    Tax,
    Txa,
}

/// The table of the 49 codes, handed row by row to one of the macros below.
macro_rules! codes {
    ($reading:ident, $value:expr) => {
        $reading! {
            $value;
            0x00 => Op::LdImm,
            0x20 => Op::LdAbs(Size::Word),
            0x28 => Op::LdAbs(Size::Half),
            0x30 => Op::LdAbs(Size::Byte),
            0x40 => Op::LdInd(Size::Word),
            0x48 => Op::LdInd(Size::Half),
            0x50 => Op::LdInd(Size::Byte),
            0x60 => Op::LdMem,
            0x80 => Op::LdLen,
            0x01 => Op::LdxImm,
            0x61 => Op::LdxMem,
            0x81 => Op::LdxLen,
            0xb1 => Op::LdxMsh,
            0x02 => Op::St,
            0x03 => Op::Stx,
            0x04 => Op::Alu(AluOp::Add, Src::K),
            0x0c => Op::Alu(AluOp::Add, Src::X),
            0x14 => Op::Alu(AluOp::Sub, Src::K),
            0x1c => Op::Alu(AluOp::Sub, Src::X),
            0x24 => Op::Alu(AluOp::Mul, Src::K),
            0x2c => Op::Alu(AluOp::Mul, Src::X),
            0x34 => Op::Alu(AluOp::Div, Src::K),
            0x3c => Op::Alu(AluOp::Div, Src::X),
            0x44 => Op::Alu(AluOp::Or, Src::K),
            0x4c => Op::Alu(AluOp::Or, Src::X),
            0x54 => Op::Alu(AluOp::And, Src::K),
            0x5c => Op::Alu(AluOp::And, Src::X),
            0x64 => Op::Alu(AluOp::Lsh, Src::K),
            0x6c => Op::Alu(AluOp::Lsh, Src::X),
            0x74 => Op::Alu(AluOp::Rsh, Src::K),
            0x7c => Op::Alu(AluOp::Rsh, Src::X),
            0x94 => Op::Alu(AluOp::Mod, Src::K),
            0x9c => Op::Alu(AluOp::Mod, Src::X),
            0xa4 => Op::Alu(AluOp::Xor, Src::K),
            0xac => Op::Alu(AluOp::Xor, Src::X),
            0x84 => Op::Neg,
            0x05 => Op::Ja,
            0x15 => Op::Jump(Cond::Eq, Src::K),
            0x1d => Op::Jump(Cond::Eq, Src::X),
            0x25 => Op::Jump(Cond::Gt, Src::K),
            0x2d => Op::Jump(Cond::Gt, Src::X),
            0x35 => Op::Jump(Cond::Ge, Src::K),
            0x3d => Op::Jump(Cond::Ge, Src::X),
            0x45 => Op::Jump(Cond::Bits, Src::K),
            0x4d => Op::Jump(Cond::Bits, Src::X),
            0x06 => Op::RetK,
            0x16 => Op::RetA,
            0x07 => Op::Tax,
            0x87 => Op::Txa,
        }
    };
}

macro_rules! op_of_code {
    ($value:expr; $($code:literal => $op:expr,)*) => {
        Some(match $value {
            $($code => $op,)*
            _ => return None,
        })
    };
}

// `tools/other_codes` makes its numbers, the codes that have no operation.
macro_rules! op_of_each_byte {
    ($value:expr; $($code:literal => $op:expr,)*) => {
        known_or_none! {
            $value;
            $($code => $op,)*;
            0x08 0x09 0x0a 0x0b 0x0d 0x0e 0x0f 0x10 0x11 0x12 0x13 0x17 0x18 0x19
            0x1a 0x1b 0x1e 0x1f 0x21 0x22 0x23 0x26 0x27 0x29 0x2a 0x2b 0x2e 0x2f
            0x31 0x32 0x33 0x36 0x37 0x38 0x39 0x3a 0x3b 0x3e 0x3f 0x41 0x42 0x43
            0x46 0x47 0x49 0x4a 0x4b 0x4e 0x4f 0x51 0x52 0x53 0x55 0x56 0x57 0x58
            0x59 0x5a 0x5b 0x5d 0x5e 0x5f 0x62 0x63 0x65 0x66 0x67 0x68 0x69 0x6a
            0x6b 0x6d 0x6e 0x6f 0x70 0x71 0x72 0x73 0x75 0x76 0x77 0x78 0x79 0x7a
            0x7b 0x7d 0x7e 0x7f 0x82 0x83 0x85 0x86 0x88 0x89 0x8a 0x8b 0x8c 0x8d
            0x8e 0x8f 0x90 0x91 0x92 0x93 0x95 0x96 0x97 0x98 0x99 0x9a 0x9b 0x9d
            0x9e 0x9f 0xa0 0xa1 0xa2 0xa3 0xa5 0xa6 0xa7 0xa8 0xa9 0xaa 0xab 0xad
            0xae 0xaf 0xb0 0xb2 0xb3 0xb4 0xb5 0xb6 0xb7 0xb8 0xb9 0xba 0xbb 0xbc
            0xbd 0xbe 0xbf 0xc0 0xc1 0xc2 0xc3 0xc4 0xc5 0xc6 0xc7 0xc8 0xc9 0xca
            0xcb 0xcc 0xcd 0xce 0xcf 0xd0 0xd1 0xd2 0xd3 0xd4 0xd5 0xd6 0xd7 0xd8
            0xd9 0xda 0xdb 0xdc 0xdd 0xde 0xdf 0xe0 0xe1 0xe2 0xe3 0xe4 0xe5 0xe6
            0xe7 0xe8 0xe9 0xea 0xeb 0xec 0xed 0xee 0xef 0xf0 0xf1 0xf2 0xf3 0xf4
            0xf5 0xf6 0xf7 0xf8 0xf9 0xfa 0xfb 0xfc 0xfd 0xfe
        }
    };
}

// 0xff, the last byte, is left to `_`: a `match` with all numbers of its type has to end so.
macro_rules! known_or_none {
    ($value:expr; $($code:literal => $op:expr,)*; $($unknown:literal)*) => {
        match $value {
            $($unknown => None,)*
            $($code => Some($op),)*
            _ => None,
        }
    };
}

macro_rules! code_of_op {
    ($value:expr; $($code:literal => $op:pat,)*) => {
        match $value {
            $($op => $code,)*
        }
    };
}

/// The operation of a code; `None` where no operation has the code.
#[inline(always)]
#[tactic(auto, unfolding(crate::specs::Opcode::op_of))]
pub fn op_of(code: u16) -> Option<Op>
    ensures { result ≡ spec.op_of code }
{
    codes!(op_of_code, code)
}

/// The operation of a code below 256; `None` where no operation has the code.
///
/// The compiler makes it a table of 256 entries, with no test before it: for loops that look up many codes.
#[inline(always)]
#[tactic(auto, unfolding(crate::specs::Opcode::op_of))]
pub fn op_of_byte(code: u8) -> Option<Op>
    ensures { result ≡ spec.op_of code }
{
    codes!(op_of_each_byte, code)
}

/// The code of an operation, the only one that `op_of` takes to it.
#[inline]
#[tactic(auto, using(crate::proofs::TableLemmas::tables))]
pub fn code_of(op: Op) -> u16
    ensures value { result ≡ spec.code_of op }
    ensures known { spec.op_of result ≡ Some op }
    ensures only { (code : ℕ) → spec.op_of code ≡ Some op → code ≡ result }
{
    code_in_table(op)
}

fn code_in_table(op: Op) -> u16
    ensures { result ≡ spec.code_of op }
{
    codes!(code_of_op, op)
}
