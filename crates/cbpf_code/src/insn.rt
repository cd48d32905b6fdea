//! An instruction, as its four numbers.

/// One instruction of classic BPF, as `struct sock_filter` of the kernel's filter documentation and
/// `struct bpf_insn` of bpf(4).
#[derive(Clone, Copy, PartialEq, Eq, Debug)]
pub struct Insn {
    /// The operation code.
    pub code: u16,
    /// How many instructions a conditional jump skips where its condition holds.
    pub jt: u8,
    /// The same where it does not hold.
    pub jf: u8,
    /// The constant: a value, an offset, a slot or a jump's distance, by the operation.
    pub k: u32,
}
