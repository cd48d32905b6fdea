//! Lists of instructions by their numbers.

use crate::assertions::Test;
use cbpf_code::Insn;

/// Code, jt, jf and k of an instruction.
pub(crate) type Fields = (u16, u8, u8, u32);

pub(crate) fn list_of(rt: &impl Test, fields: &[Fields]) -> Vec<Insn> {
    let mut list = Vec::new(rt.alloc());
    for &(code, jt, jf, k) in fields {
        list.push(Insn { code, jt, jf, k }).expect(rt, "memory");
    }
    list
}
