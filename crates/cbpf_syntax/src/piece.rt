//! The piece at the front of a text: blanks, a comment, a token, or a bad piece.

ghost use Rattle.std.specs.Prelude.{true, false, IfSome, IfNone, ◌∷◌, ◌&&◌, ◌==◌, ◌≡◌, ◌≤◌, length};
ghost use Rattle.cbpf_syntax.specs.Pieces.{IsNext, is_line_blank, numeral_kind, close_after, slash_piece};
ghost use Rattle.cbpf_syntax.specs.Leads.{lead_of};
ghost use Rattle.cbpf_syntax.specs.Tokens.{is_good};
ghost use Rattle.cbpf_syntax.specs.declared.piece.PieceKind.TheVariants.{Bad};

use crate::bytes::{blanks_len, is_line_blank, line_len, name_len};
use crate::number::{LIMIT, number_value};
use crate::token::{BadPiece, Kind};

/// What a piece is.
#[derive(Clone, Copy)]
pub enum PieceKind {
    Blanks,
    Comment,
    /// A token.
    TokenOf(Kind),
    Bad(BadPiece),
}

/// A piece, with its size in bytes.
#[derive(Clone, Copy)]
pub struct Piece {
    pub kind: PieceKind,
    pub size: usize,
}

/// What the first byte of a piece says of it.
#[derive(Clone, Copy)]
pub enum Lead {
    Blank,
    LineComment,
    Letter,
    Digit,
    Slash,
    Single,
    Other,
}

// Each byte has a letter at its index: of a blank, a comment, a digit, a hash, a letter, a mark or a slash, and
// a dot for any other.
static LEADS: [u8; 256] = *b"\
    .........BB..B..................\
    B..H.MM.MMMMMM.SDDDDDDDDDDMC....\
    .LLLLLLLLLLLLLLLLLLLLLLLLLLM.M.L\
    .LLLLLLLLLLLLLLLLLLLLLLLLLL.....\
    ................................\
    ................................\
    ................................\
    ................................";

/// What a byte after these says of the piece that it begins.
// Only a `#` has to be looked at with the line before it.
#[inline(always)]
#[tactic(auto, using(crate::proofs::LeadTable::letter_lead, crate::proofs::LeadTable::other_letter))]
fn lead_of(before: &[u8], b: u8) -> Lead
    ensures { result ≡ lead_of (is_line_blank before.now) b }
{
    let lead = LEADS[b as usize];
    if lead == b'L' {
        Lead::Letter
    } else if lead == b'D' {
        Lead::Digit
    } else if lead == b'M' {
        Lead::Single
    } else if lead == b'B' {
        Lead::Blank
    } else if lead == b'C' {
        Lead::LineComment
    } else if lead == b'H' {
        if is_line_blank(before) {
            Lead::LineComment
        } else {
            Lead::Single
        }
    } else if lead == b'S' {
        Lead::Slash
    } else {
        Lead::Other
    }
}

/// Whether a byte closes a comment, after a `*` or not.
fn is_close(star: bool, b: u8) -> bool
    ensures { result ≡ (star && b == 47) }
{
    star && b == b'/'
}

/// How many bytes there are up to the first `*/` and with it.
fn close_len(body: &[u8]) -> Option<usize>
    ensures within { IfSome result (λ n. n ≤ length body.now) }
    ensures first { result ≡ close_after false body.now }
{
    let mut star = false;
    for (i, b) in body.iter().enumerate() {
        if is_close(star, *b) {
            return Some(i + 1);
        }
        star = *b == b'*';
    }
    None
}

/// The kind of a numeral, a run of name bytes that begins with a digit.
#[inline(always)]
fn numeral_kind(first: u8, rest: &[u8]) -> PieceKind
    ensures { result ≡ numeral_kind (first ∷ rest.now) }
{
    match number_value(first, rest) {
        None => PieceKind::Bad(BadPiece::NoToken),
        Some(n) => {
            if n < LIMIT {
                PieceKind::TokenOf(Kind::Number(n as u32))
            } else {
                PieceKind::Bad(BadPiece::LargeNumber)
            }
        }
    }
}

/// The piece that begins with a `/`.
fn slash_piece(rest: &[u8]) -> Piece
    ensures { result ≡ slash_piece rest.now }
{
    if rest.len() == 0 || rest[0] != b'*' {
        return Piece {
            kind: PieceKind::Bad(BadPiece::NoToken),
            size: 1,
        };
    }
    let body = &rest[1..];
    match close_len(body) {
        Some(n) => Piece {
            kind: PieceKind::Comment,
            size: 2 + n,
        },
        None => Piece {
            kind: PieceKind::Bad(BadPiece::OpenComment),
            size: 2 + body.len(),
        },
    }
}

/// The piece at the front of a text, which isn't empty, after the bytes before it.
#[inline(always)]
pub(crate) fn next_piece(before: &[u8], first: u8, rest: &[u8]) -> Piece
    ensures { IsNext (is_line_blank before.now) (first ∷ rest.now) result }
{
    match lead_of(before, first) {
        Lead::Blank => Piece {
            kind: PieceKind::Blanks,
            size: 1 + blanks_len(rest),
        },
        Lead::LineComment => Piece {
            kind: PieceKind::Comment,
            size: 1 + line_len(rest),
        },
        Lead::Letter => Piece {
            kind: PieceKind::TokenOf(Kind::Word),
            size: 1 + name_len(rest),
        },
        Lead::Digit => {
            let n = name_len(rest);
            Piece {
                kind: numeral_kind(first, &rest[..n]),
                size: 1 + n,
            }
        }
        Lead::Slash => slash_piece(rest),
        Lead::Single => Piece {
            kind: PieceKind::TokenOf(Kind::Mark(first)),
            size: 1,
        },
        Lead::Other => Piece {
            kind: PieceKind::Bad(BadPiece::NoToken),
            size: 1,
        },
    }
}

/// What is wrong with a bad piece.
pub(crate) fn bad_piece_of(kind: PieceKind) -> Option<BadPiece>
    ensures bad { IfSome result (λ fault. kind ≡ Bad fault) }
    ensures good { IfNone result (is_good kind ≡ true) }
{
    match kind {
        PieceKind::Bad(fault) => Some(fault),
        _ => None,
    }
}
