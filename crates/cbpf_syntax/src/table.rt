//! The mnemonics, each with its addressing modes and operations.

ghost use Rattle.std.specs.Prelude.{◌≡◌, map};
ghost use Rattle.std.specs.List.{filter};
ghost use Rattle.cbpf_syntax.specs.Table.{mnemonics};
ghost use Rattle.cbpf_syntax.specs.Initials.{begins_with};
ghost use Rattle.cbpf_syntax.specs.Views.{mnemonic_view};

use crate::mode::Mode;
use cbpf_code::{AluOp, Cond, Op, Size, Src, mnemonic};

/// Where an instruction's literal and targets go.
#[derive(Clone, Copy, PartialEq, Eq)]
pub enum Fields {
    /// k is the literal, which an extension's name stands for too, or 0 where there is none.
    Constant,
    /// k is the offset of the one target.
    Goto,
    /// k is the literal, jt the offset of the first target, jf that of the second or 0.
    Branch,
    /// k is the literal, jt is 0, jf the offset of the one target.
    Swapped,
}

/// A mode of a mnemonic, with its operation.
#[derive(Clone, Copy)]
pub struct TableEntry {
    pub mode: Mode,
    pub op: Op,
    pub fields: Fields,
}

/// A mnemonic with its modes.
#[derive(Clone, Copy)]
pub struct Mnemonic {
    pub word: &'static [u8],
    pub entries: &'static [TableEntry],
}

macro_rules! entries {
    ($(($mode:ident, $op:expr, $fields:ident)),+) => {
        &[$(TableEntry { mode: Mode::$mode, op: $op, fields: Fields::$fields }),+]
    };
}

macro_rules! load {
    ($word:ident, $size:ident) => {
        Mnemonic {
            word: mnemonic!($word),
            entries: entries!(
                (Absolute, Op::LdAbs(Size::$size), Constant),
                (Indexed, Op::LdInd(Size::$size), Constant),
                (Extension, Op::LdAbs(Size::$size), Constant)
            ),
        }
    };
}

macro_rules! one_target {
    ($word:literal, $cond:ident) => {
        Mnemonic {
            word: $word,
            entries: entries!(
                (ImmediateOne, Op::Jump(Cond::$cond, Src::K), Swapped),
                (XOne, Op::Jump(Cond::$cond, Src::X), Swapped)
            ),
        }
    };
}

// The longer forms stand first, so that a jump with two targets is found at its first form.
macro_rules! jump {
    ($cond:ident) => {
        Mnemonic {
            word: mnemonic!($cond),
            entries: entries!(
                (ImmediateTwo, Op::Jump(Cond::$cond, Src::K), Branch),
                (XTwo, Op::Jump(Cond::$cond, Src::X), Branch),
                (ImmediateOne, Op::Jump(Cond::$cond, Src::K), Branch),
                (XOne, Op::Jump(Cond::$cond, Src::X), Branch)
            ),
        }
    };
}

macro_rules! alu {
    ($op:ident) => {
        Mnemonic {
            word: mnemonic!($op),
            entries: entries!(
                (Immediate, Op::Alu(AluOp::$op, Src::K), Constant),
                (X, Op::Alu(AluOp::$op, Src::X), Constant)
            ),
        }
    };
}

// One mode.
macro_rules! only {
    ($op:ident, $mode:ident, $fields:ident) => {
        Mnemonic {
            word: mnemonic!($op),
            entries: entries!(($mode, Op::$op, $fields)),
        }
    };
}

static L_MNEMONICS: [Mnemonic; 8] = [
    Mnemonic {
        word: mnemonic!(Ld),
        entries: entries!(
            (Absolute, Op::LdAbs(Size::Word), Constant),
            (Indexed, Op::LdInd(Size::Word), Constant),
            (Extension, Op::LdAbs(Size::Word), Constant),
            (Memory, Op::LdMem, Constant),
            (Immediate, Op::LdImm, Constant),
            (Length, Op::LdLen, Constant)
        ),
    },
    load!(LdHalf, Half),
    load!(LdByte, Byte),
    Mnemonic {
        word: b"ldi",
        entries: entries!(
            (Immediate, Op::LdImm, Constant),
            (Number, Op::LdImm, Constant)
        ),
    },
    Mnemonic {
        word: mnemonic!(Ldx),
        entries: entries!(
            (Memory, Op::LdxMem, Constant),
            (Immediate, Op::LdxImm, Constant),
            (Header, Op::LdxMsh, Constant),
            (Length, Op::LdxLen, Constant)
        ),
    },
    Mnemonic {
        word: b"ldxi",
        entries: entries!(
            (Immediate, Op::LdxImm, Constant),
            (Number, Op::LdxImm, Constant)
        ),
    },
    only!(LdxMsh, Header, Constant),
    alu!(Lsh),
];

static S_MNEMONICS: [Mnemonic; 3] = [
    only!(St, Memory, Constant),
    only!(Stx, Memory, Constant),
    alu!(Sub),
];

static J_MNEMONICS: [Mnemonic; 10] = [
    only!(Ja, Label, Goto),
    Mnemonic {
        word: b"ja",
        entries: entries!((Label, Op::Ja, Goto)),
    },
    jump!(Eq),
    jump!(Gt),
    jump!(Ge),
    jump!(Bits),
    one_target!(b"jneq", Eq),
    one_target!(b"jne", Eq),
    one_target!(b"jlt", Ge),
    one_target!(b"jle", Gt),
];

static A_MNEMONICS: [Mnemonic; 2] = [alu!(Add), alu!(And)];

static M_MNEMONICS: [Mnemonic; 2] = [alu!(Mul), alu!(Mod)];

static D_MNEMONICS: [Mnemonic; 1] = [alu!(Div)];

static O_MNEMONICS: [Mnemonic; 1] = [alu!(Or)];

static X_MNEMONICS: [Mnemonic; 1] = [alu!(Xor)];

static R_MNEMONICS: [Mnemonic; 2] = [
    alu!(Rsh),
    Mnemonic {
        word: mnemonic!(Ret),
        entries: entries!((Immediate, Op::RetK, Constant), (A, Op::RetA, Constant)),
    },
];

static N_MNEMONICS: [Mnemonic; 1] = [only!(Neg, Bare, Constant)];

static T_MNEMONICS: [Mnemonic; 2] = [only!(Tax, Bare, Constant), only!(Txa, Bare, Constant)];

/// The mnemonics whose word begins with a byte.
#[inline]
#[tactic(auto, unfolding(crate::specs::Table::mnemonics))]
pub(crate) fn mnemonics_from(first: u8) -> &'static [Mnemonic]
    ensures { map mnemonic_view result.now ≡ filter (begins_with first) mnemonics }
{
    match first {
        b'l' => &L_MNEMONICS,
        b's' => &S_MNEMONICS,
        b'j' => &J_MNEMONICS,
        b'a' => &A_MNEMONICS,
        b'm' => &M_MNEMONICS,
        b'd' => &D_MNEMONICS,
        b'o' => &O_MNEMONICS,
        b'x' => &X_MNEMONICS,
        b'r' => &R_MNEMONICS,
        b'n' => &N_MNEMONICS,
        b't' => &T_MNEMONICS,
        _ => &[],
    }
}
