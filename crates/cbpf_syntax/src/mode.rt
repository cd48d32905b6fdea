//! The addressing modes, each with the forms of its operand.

ghost use Rattle.std.specs.Prelude.{◌≡◌, ◌<◌, map, length};
ghost use Rattle.cbpf_syntax.specs.Views.{class_of, mode_forms};

use crate::class::Class;
use crate::class::Class::{Exactly, Extension, Literal, Mark, Name, Negated, Word};

/// An addressing mode of a source. `Operand` of `cbpf_code` has only those that a listing uses, and
/// there an extension's name belongs to `Absolute`.
#[derive(Clone, Copy)]
pub enum Mode {
    /// `x`
    X,
    /// `[n]`
    Absolute,
    /// `[x + n]`
    Indexed,
    /// `M[n]`
    Memory,
    /// `#n`
    Immediate,
    /// `n`
    Number,
    /// `4*([n]&0xf)`
    Header,
    /// `L`
    Label,
    /// `#n, Lt, Lf`
    ImmediateTwo,
    /// `x, Lt, Lf`
    XTwo,
    /// `#n, Lt`
    ImmediateOne,
    /// `x, Lt`
    XOne,
    /// `a`
    A,
    /// An extension's name.
    Extension,
    /// `len`
    Length,
    /// No operand.
    Bare,
}

const X: &[u8] = b"x";

const A: &[u8] = b"a";

const LEN: &[u8] = b"len";

const MEMORY: &[u8] = b"M";

/// The reserved words of operands, other than the extensions' names.
pub static OPERAND_WORDS: [&[u8]; 4] = [LEN, X, A, MEMORY];

static X_FORMS: [&[Class]; 2] = [&[Word(X)], &[Mark(b'%'), Word(X)]];

static ABSOLUTE_FORMS: [&[Class]; 3] = [
    &[Mark(b'['), Literal, Mark(b']')],
    &[Mark(b'['), Mark(b'+'), Literal, Mark(b']')],
    &[Mark(b'['), Mark(b'-'), Negated, Mark(b']')],
];

static INDEXED_FORMS: [&[Class]; 6] = [
    &[Mark(b'['), Word(X), Mark(b'+'), Literal, Mark(b']')],
    &[
        Mark(b'['),
        Word(X),
        Mark(b'+'),
        Mark(b'+'),
        Literal,
        Mark(b']'),
    ],
    &[
        Mark(b'['),
        Word(X),
        Mark(b'+'),
        Mark(b'-'),
        Negated,
        Mark(b']'),
    ],
    &[
        Mark(b'['),
        Mark(b'%'),
        Word(X),
        Mark(b'+'),
        Literal,
        Mark(b']'),
    ],
    &[
        Mark(b'['),
        Mark(b'%'),
        Word(X),
        Mark(b'+'),
        Mark(b'+'),
        Literal,
        Mark(b']'),
    ],
    &[
        Mark(b'['),
        Mark(b'%'),
        Word(X),
        Mark(b'+'),
        Mark(b'-'),
        Negated,
        Mark(b']'),
    ],
];

static MEMORY_FORMS: [&[Class]; 3] = [
    &[Word(MEMORY), Mark(b'['), Literal, Mark(b']')],
    &[Word(MEMORY), Mark(b'['), Mark(b'+'), Literal, Mark(b']')],
    &[Word(MEMORY), Mark(b'['), Mark(b'-'), Negated, Mark(b']')],
];

static IMMEDIATE_FORMS: [&[Class]; 3] = [
    &[Mark(b'#'), Literal],
    &[Mark(b'#'), Mark(b'+'), Literal],
    &[Mark(b'#'), Mark(b'-'), Negated],
];

static NUMBER_FORMS: [&[Class]; 3] = [&[Literal], &[Mark(b'+'), Literal], &[Mark(b'-'), Negated]];

static HEADER_FORMS: [&[Class]; 3] = [
    &[
        Exactly(4),
        Mark(b'*'),
        Mark(b'('),
        Mark(b'['),
        Literal,
        Mark(b']'),
        Mark(b'&'),
        Exactly(15),
        Mark(b')'),
    ],
    &[
        Exactly(4),
        Mark(b'*'),
        Mark(b'('),
        Mark(b'['),
        Mark(b'+'),
        Literal,
        Mark(b']'),
        Mark(b'&'),
        Exactly(15),
        Mark(b')'),
    ],
    &[
        Exactly(4),
        Mark(b'*'),
        Mark(b'('),
        Mark(b'['),
        Mark(b'-'),
        Negated,
        Mark(b']'),
        Mark(b'&'),
        Exactly(15),
        Mark(b')'),
    ],
];

static LABEL_FORMS: [&[Class]; 1] = [&[Name]];

static IMMEDIATE_TWO_FORMS: [&[Class]; 3] = [
    &[Mark(b'#'), Literal, Mark(b','), Name, Mark(b','), Name],
    &[
        Mark(b'#'),
        Mark(b'+'),
        Literal,
        Mark(b','),
        Name,
        Mark(b','),
        Name,
    ],
    &[
        Mark(b'#'),
        Mark(b'-'),
        Negated,
        Mark(b','),
        Name,
        Mark(b','),
        Name,
    ],
];

static X_TWO_FORMS: [&[Class]; 2] = [
    &[Word(X), Mark(b','), Name, Mark(b','), Name],
    &[Mark(b'%'), Word(X), Mark(b','), Name, Mark(b','), Name],
];

static IMMEDIATE_ONE_FORMS: [&[Class]; 3] = [
    &[Mark(b'#'), Literal, Mark(b','), Name],
    &[Mark(b'#'), Mark(b'+'), Literal, Mark(b','), Name],
    &[Mark(b'#'), Mark(b'-'), Negated, Mark(b','), Name],
];

static X_ONE_FORMS: [&[Class]; 2] = [
    &[Word(X), Mark(b','), Name],
    &[Mark(b'%'), Word(X), Mark(b','), Name],
];

static A_FORMS: [&[Class]; 2] = [&[Word(A)], &[Mark(b'%'), Word(A)]];

static EXTENSION_FORMS: [&[Class]; 2] = [&[Extension], &[Mark(b'#'), Extension]];

static LENGTH_FORMS: [&[Class]; 2] = [&[Word(LEN)], &[Mark(b'#'), Word(LEN)]];

static BARE_FORMS: [&[Class]; 1] = [&[]];

/// The forms of a mode's operand, one for each choice of its options.
#[inline]
pub(crate) fn forms(mode: Mode) -> &'static [&'static [Class]]
    ensures forms { map (λ f. map class_of f.now) result.now ≡ mode_forms mode }
    ensures some { 0 < length result.now }
{
    match mode {
        Mode::X => &X_FORMS,
        Mode::Absolute => &ABSOLUTE_FORMS,
        Mode::Indexed => &INDEXED_FORMS,
        Mode::Memory => &MEMORY_FORMS,
        Mode::Immediate => &IMMEDIATE_FORMS,
        Mode::Number => &NUMBER_FORMS,
        Mode::Header => &HEADER_FORMS,
        Mode::Label => &LABEL_FORMS,
        Mode::ImmediateTwo => &IMMEDIATE_TWO_FORMS,
        Mode::XTwo => &X_TWO_FORMS,
        Mode::ImmediateOne => &IMMEDIATE_ONE_FORMS,
        Mode::XOne => &X_ONE_FORMS,
        Mode::A => &A_FORMS,
        Mode::Extension => &EXTENSION_FORMS,
        Mode::Length => &LENGTH_FORMS,
        Mode::Bare => &BARE_FORMS,
    }
}
