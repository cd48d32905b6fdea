//! Why a source text is refused.

ghost use Rattle.std.specs.Prelude.{◌≡◌, ℕ};
ghost use Rattle.cbpf_syntax.specs.Refusals.{ParseFault, reported_at};
ghost use Rattle.cbpf_text.specs.Messages.{kind_text};
ghost use Rattle.cbpf_text.specs.Refusals.{bad_piece_kind, grammar_kind};
ghost use Rattle.cbpf_text.specs.declared.placed.PlacedFault.TheVariants.{At};

use crate::placed::PlacedFault;
use cbpf_syntax::{BadPiece, SyntaxFault};
use std::error::Error;
use std::fmt;

/// What is wrong with a source text.
#[derive(Clone, Copy, Debug, PartialEq, Eq)]
pub enum AsmKind {
    /// A1: a byte, or a run of letters, digits and `_` that begins with a digit, that is no token.
    NoToken,
    /// A2: a `/*` comment that isn't closed.
    OpenComment,
    /// A3: a number above 4294967295, or above 2147483648 after a `-`.
    LargeNumber,
    /// A4: the tokens before this one begin a list of instructions, and with it they don't.
    Misplaced,
    /// A5: the text ends inside an instruction, or after a label.
    Unfinished,
    /// A6: a label that an earlier one has set already.
    LabelSetTwice,
    /// A7: a label of an operand that is set nowhere.
    LabelNotSet,
    /// A8: a target that isn't after its jump.
    NotAfter,
    /// A9: a target of a conditional jump with an offset above 255.
    TooFar,
    /// A10: more than 4096 instructions.
    TooMany,
    /// A11: no instruction at all.
    NoInstruction,
}

impl AsmKind {
    /// Its number and what is wrong.
    pub fn message(&self) -> &'static str
        ensures { result.now ≡ kind_text self.now }
    {
        match *self {
            AsmKind::NoToken => "A1 unknown byte",
            AsmKind::OpenComment => "A2 comment not closed",
            AsmKind::LargeNumber => "A3 number out of range",
            AsmKind::Misplaced => "A4 token can't stand here",
            AsmKind::Unfinished => "A5 text ends inside an instruction",
            AsmKind::LabelSetTwice => "A6 label set twice",
            AsmKind::LabelNotSet => "A7 label not defined",
            AsmKind::NotAfter => "A8 target is not after the jump",
            AsmKind::TooFar => "A9 conditional target further than 255",
            AsmKind::TooMany => "A10 more than 4096 instructions",
            AsmKind::NoInstruction => "A11 no instruction",
        }
    }
}

impl fmt::Display for AsmKind {
    ghost use Rattle.std.specs.Prelude.{Some};
    ghost use Rattle.cbpf_text.specs.Messages.{kind_text};

    ghost output = { λ kind. Some (kind_text kind) };

    fn fmt<W: fmt::Write>(&self, f: &mut fmt::Formatter<W>) -> fmt::Result {
        f.write_str(self.message())
    }
}

impl Error for AsmKind {}

/// What a bad piece of a text is reported as.
pub(crate) fn bad_piece_kind(bad: BadPiece) -> AsmKind
    ensures { result ≡ bad_piece_kind bad }
{
    match bad {
        BadPiece::NoToken => AsmKind::NoToken,
        BadPiece::OpenComment => AsmKind::OpenComment,
        BadPiece::LargeNumber => AsmKind::LargeNumber,
    }
}

/// What a refusal of the grammar is reported as.
pub(crate) fn syntax_fault(refused: SyntaxFault) -> PlacedFault
    ensures { (fault : ParseFault) (at : ℕ) → refused ≡ reported_at fault at → result ≡ At (grammar_kind fault) at }
{
    match refused {
        SyntaxFault::Misplaced(at) => PlacedFault::At(AsmKind::Misplaced, at),
        SyntaxFault::LargeNegative(at) => PlacedFault::At(AsmKind::LargeNumber, at),
        SyntaxFault::Unfinished(at) => PlacedFault::At(AsmKind::Unfinished, at),
    }
}

/// Why a source text has no instructions.
#[derive(Clone, Copy, Debug, PartialEq, Eq)]
pub enum AsmFault {
    /// The allocator refused.
    Memory,
    /// What is wrong, and the line of the piece or token that shows it, counted from 1; line 1 for
    /// A11.
    At(AsmKind, u64),
}

/// Shows what is wrong, after the line.
impl fmt::Display for AsmFault {
    ghost use Rattle.std.specs.Prelude.{Some};
    ghost use Rattle.cbpf_text.specs.Messages.{fault_text};

    ghost output = { λ fault. Some (fault_text fault) };

    fn fmt<W: fmt::Write>(&self, f: &mut fmt::Formatter<W>) -> fmt::Result {
        match *self {
            AsmFault::Memory => f.write_str("out of memory"),
            AsmFault::At(kind, line) => write!(f, "line {line}: {kind}"),
        }
    }
}

impl Error for AsmFault {}
