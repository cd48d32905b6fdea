//! A fault of a source text by its position, before its line is known.

ghost use Rattle.std.specs.Prelude.{◌≡◌};
ghost use Rattle.cbpf_text.specs.Refusals.{on_line};

use crate::fault::{AsmFault, AsmKind};
use cbpf_syntax::line_of;
use std::alloc::{AllocError, AllocFailed};
use std::error::Error;
use std::fmt;

/// Why a source text has no instructions, and where.
#[derive(Clone, Copy, Debug, PartialEq, Eq)]
pub enum PlacedFault {
    /// The allocator refused.
    Memory,
    /// What is wrong, and the position of the piece or token that shows it, in bytes from 0; 0 for A11.
    At(AsmKind, usize),
}

impl PlacedFault {
    /// The fault with the line of its position in the text.
    // A caller may bring another text, of which the position may lie after the end.
    pub fn on_line(&self, text: &[u8]) -> AsmFault
        ensures { result ≡ on_line text.now self.now }
    {
        match *self {
            PlacedFault::Memory => AsmFault::Memory,
            PlacedFault::At(kind, at) => AsmFault::At(kind, line_of(text, at.min(text.len()))),
        }
    }
}

/// Shows what is wrong, after the position.
impl fmt::Display for PlacedFault {
    ghost use Rattle.std.specs.Prelude.{Some};
    ghost use Rattle.cbpf_text.specs.Messages.{placed_text};

    ghost output = { λ fault. Some (placed_text fault) };

    fn fmt<W: fmt::Write>(&self, f: &mut fmt::Formatter<W>) -> fmt::Result {
        match *self {
            PlacedFault::Memory => f.write_str("out of memory"),
            PlacedFault::At(kind, at) => write!(f, "byte {at}: {kind}"),
        }
    }
}

impl Error for PlacedFault {}

impl<T: Drop> From<AllocFailed<T>> for PlacedFault {
    ghost use Rattle.std.specs.Prelude.{◌≡◌};
    ghost use Rattle.cbpf_text.specs.declared.placed.PlacedFault.TheVariants.{Memory};

    ghost from_gives = { λ _ e. e ≡ Memory };

    fn from(_: AllocFailed<T>) -> Self {
        PlacedFault::Memory
    }
}

impl From<AllocError> for PlacedFault {
    ghost use Rattle.std.specs.Prelude.{◌≡◌};
    ghost use Rattle.cbpf_text.specs.declared.placed.PlacedFault.TheVariants.{Memory};

    ghost from_gives = { λ _ e. e ≡ Memory };

    fn from(_: AllocError) -> Self {
        PlacedFault::Memory
    }
}
