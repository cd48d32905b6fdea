//! Tokens, and what is reported of a text with a bad piece.

use std::alloc::AllocFailed;

/// What a token is.
#[derive(Clone, Copy, Debug, PartialEq, Eq)]
pub enum Kind {
    /// A letter or `_`, then letters, digits and `_`. Letters are ASCII.
    Word,
    /// A number with its value: decimal, octal after `0`, hexadecimal after `0x`, binary after `0b`.
    Number(u32),
    /// One of the bytes `[ ] ( ) * & + - , : # %`.
    Mark(u8),
}

/// A token and its position: the bytes of the text from `start` up to `end`, counted from 0.
#[derive(Clone, Copy, Debug, PartialEq, Eq)]
pub struct Token {
    pub kind: Kind,
    pub start: usize,
    pub end: usize,
}

/// Why a piece of a text is no token, blank or comment.
#[derive(Clone, Copy, Debug, PartialEq, Eq)]
pub enum BadPiece {
    /// A1: a byte, or a run of letters, digits and `_` that begins with a digit, which is no token.
    NoToken,
    /// A2: a `/*` comment that isn't closed.
    OpenComment,
    /// A3: a number above 4294967295.
    LargeNumber,
}

/// Why a text has no tokens.
#[derive(Clone, Copy, Debug, PartialEq, Eq)]
pub enum LexFault {
    /// The allocator refused.
    Memory,
    /// The first bad piece, and the position of its first byte, counted from 0.
    At(BadPiece, usize),
}

impl<T: Drop> From<AllocFailed<T>> for LexFault {
    ghost use Rattle.std.specs.Prelude.{◌≡◌};
    ghost use Rattle.cbpf_syntax.specs.declared.token.LexFault.TheVariants.{Memory};

    ghost from_gives = { λ _ e. e ≡ Memory };

    fn from(_: AllocFailed<T>) -> Self {
        LexFault::Memory
    }
}
