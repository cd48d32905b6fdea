//! The laws of `==`.

ghost use Rattle.std.specs.Prelude.{◌≡◌, Decides};

use crate::checker::CheckFault;
use crate::extension::Ext;
use crate::form::Form;
use crate::insn::Insn;
use crate::opcode::{AluOp, Cond, Op, Size, Src};
use crate::words::WordFault;
use crate::writing::WriteFault;

/// Two values of a type are equal by `==` exactly where contracts see the same.
pub fn equal_where_same()
    ensures insn { (a b : _) → Decides (⟦<Insn as PartialEq>⟧.eq a b) (a ≡ b) }
    ensures op { (a b : _) → Decides (⟦<Op as PartialEq>⟧.eq a b) (a ≡ b) }
    ensures size { (a b : _) → Decides (⟦<Size as PartialEq>⟧.eq a b) (a ≡ b) }
    ensures alu_op { (a b : _) → Decides (⟦<AluOp as PartialEq>⟧.eq a b) (a ≡ b) }
    ensures src { (a b : _) → Decides (⟦<Src as PartialEq>⟧.eq a b) (a ≡ b) }
    ensures cond { (a b : _) → Decides (⟦<Cond as PartialEq>⟧.eq a b) (a ≡ b) }
    ensures ext { (a b : _) → Decides (⟦<Ext as PartialEq>⟧.eq a b) (a ≡ b) }
    ensures form { (a b : _) → Decides (⟦<Form as PartialEq>⟧.eq a b) (a ≡ b) }
    ensures check_fault { (a b : _) → Decides (⟦<CheckFault as PartialEq>⟧.eq a b) (a ≡ b) }
    ensures word_fault { (a b : _) → Decides (⟦<WordFault as PartialEq>⟧.eq a b) (a ≡ b) }
    ensures write_fault { (a b : _) → Decides (⟦<WriteFault as PartialEq>⟧.eq a b) (a ≡ b) }
{}
