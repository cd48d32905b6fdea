//! Checked programs.

ghost use Rattle.std.specs.Prelude.{◌≡◌, ◌<◌, ◌≤◌, ◌↔◌, ℕ, Some, length, slice_get, IsOk, IfOk, IfErr};
ghost use Rattle.std.specs.List.{All};
ghost use Rattle.cbpf_code.specs.Faults.{FirstFault};
ghost use Rattle.cbpf_code.specs.Sound.{IsSound};
ghost use Rattle.cbpf_code.specs.WordForm.{InRange};
ghost use Rattle.cbpf_code.specs.declared.checker.CheckFault.{CheckFault};

use crate::checker::{CheckFault, check};
use crate::insn::Insn;
use std::alloc::{Allocator, Global};
use std::marker::Model;

/// A checked program: 1 to `MAX_INSTRUCTIONS` instructions in which `check` finds no fault.
///
/// Only `check` makes one. Contracts see it as its list of instructions.
#[derive(Drop)]
pub struct Program<A: Allocator = Global> {
    pub(crate) list: Vec<Insn, A>,
}

impl<A: Allocator> Model for Program<A> {
    ghost use Rattle.std.specs.Prelude.{List};
    ghost use Rattle.cbpf_code.specs.declared.insn.Insn.{Insn};
    ghost use Rattle.std.specs.List.{All};
    ghost use Rattle.cbpf_code.specs.Sound.{IsSound};
    ghost use Rattle.cbpf_code.specs.WordForm.{InRange};

    ghost Value = { List Insn };

    ghost view = { λ p. p.list.items };

    ghost invariant = { λ p. IsSound p.list.items × All InRange p.list.items };
}

impl<A: Allocator> Program<A> {
    /// The program of a list of instructions, by `check`. A list that is refused is dropped.
    ///
    /// # Errors
    ///
    /// The first fault of the list, as `check` gives it.
    pub fn new(list: Vec<Insn, A>) -> Result<Program<A>, CheckFault>
        ensures accepts { IsOk result ↔ IsSound list.items }
        ensures same { IfOk result (λ p. p ≡ list.items) }
        ensures fault { IfErr result (λ e. FirstFault list.items e) }
        ensures only { IfErr result (λ e. (f : CheckFault) → FirstFault list.items f → f ≡ e) }
    {
        match check(list) {
            Ok(program) => Ok(program),
            Err((fault, _)) => Err(fault),
        }
    }

    /// How many instructions the program has: 1 to `MAX_INSTRUCTIONS`.
    #[inline]
    #[tactic(auto, using(crate::proofs::SoundLemmas::sound_few))]
    pub fn len(&self) -> u32
        ensures value { result ≡ length self.now }
        ensures sound { IsSound self.now }
    {
        self.list.len() as u32
    }

    /// The instruction at index `i`, from 0.
    #[inline(always)]
    #[tactic(auto, using(std::proofs::lemmas::Option::slice_get_read))]
    pub fn at_index(&self, i: u32) -> Insn
        requires { i < length self.now }
        ensures value { slice_get self.now i ≡ Some result }
        ensures sound { IsSound self.now }
    {
        self.list[i as usize]
    }

    /// All instructions in order.
    #[inline]
    pub fn as_slice(&self) -> &[Insn]
        ensures value { result.now ≡ self.now }
        ensures sound { IsSound self.now }
        ensures ranges { All InRange self.now }
    {
        self.list.as_slice()
    }
}
