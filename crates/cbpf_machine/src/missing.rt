//! The extension that an instruction asks for and that has no value.

ghost use Rattle.std.specs.Prelude.{◌≡◌, ℕ, List, Some, slice_get};
ghost use Rattle.cbpf_code.specs.declared.insn.Insn.{Insn};
ghost use Rattle.cbpf_code.specs.Faults.{loads_absolute};
ghost use Rattle.cbpf_machine.specs.Machine.{machine_of};
ghost use Rattle.cbpf_machine.specs.Registers.{Registers};
ghost use Rattle.cbpf_machine.specs.Turn as spec;

use crate::values::Values;
use cbpf_code::{Ext, Insn, Op, ext_at, op_of};

#[inline(always)]
fn is_absolute_load(op: Op) -> bool
    ensures { result ≡ loads_absolute op }
{
    matches!(op, Op::LdAbs(_))
}

/// The extension that an instruction asks for and that has no value, so that its turn is `Unknown`;
/// `None` where there is no such extension.
///
/// The answer is read from the instruction, for any packet and state, and no turn is made.
// It checks `k` first: few instructions name an extension.
#[inline(always)]
pub fn missing_extension(insn: Insn, values: &Values) -> Option<Ext>
    ensures { (list : List Insn) (bytes : List ℕ) (wire : ℕ) (s : Registers)
        → slice_get list s.pc ≡ Some insn
        → result ≡ spec.asked (spec.turn (machine_of list values.now) bytes wire s) }
{
    let e = ext_at(insn.k)?;
    if values.value_of(e).is_some() {
        return None;
    }
    let op = op_of(insn.code)?;
    if is_absolute_load(op) { Some(e) } else { None }
}
