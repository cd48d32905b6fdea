//! The laws of `==`.

ghost use Rattle.std.specs.Prelude.{◌≡◌, Decides};

use crate::reader::SyntaxFault;
use crate::table::Fields;
use crate::token::{BadPiece, Kind, LexFault, Token};

/// Two values of a type are equal by `==` exactly where contracts see the same.
pub fn equal_where_same()
    ensures token { (a b : _) → Decides (⟦<Token as PartialEq>⟧.eq a b) (a ≡ b) }
    ensures kind { (a b : _) → Decides (⟦<Kind as PartialEq>⟧.eq a b) (a ≡ b) }
    ensures bad_piece { (a b : _) → Decides (⟦<BadPiece as PartialEq>⟧.eq a b) (a ≡ b) }
    ensures lex_fault { (a b : _) → Decides (⟦<LexFault as PartialEq>⟧.eq a b) (a ≡ b) }
    ensures syntax_fault { (a b : _) → Decides (⟦<SyntaxFault as PartialEq>⟧.eq a b) (a ≡ b) }
    ensures fields { (a b : _) → Decides (⟦<Fields as PartialEq>⟧.eq a b) (a ≡ b) }
{}
