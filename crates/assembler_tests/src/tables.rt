//! The tables of codes and of extensions, beside values from elsewhere.

use crate::assertions::{assert_at, assert_of};
use cbpf_code::{
    AluOp, Cond, Ext, Op, Size, Src, code_of, ext_at, ext_name, ext_named, ext_offset, op_of,
};
use std::process::Abort;

/// Each operation by its code.
static OPERATIONS: [(u16, Op); 49] = [
    (0x00, Op::LdImm),
    (0x20, Op::LdAbs(Size::Word)),
    (0x28, Op::LdAbs(Size::Half)),
    (0x30, Op::LdAbs(Size::Byte)),
    (0x40, Op::LdInd(Size::Word)),
    (0x48, Op::LdInd(Size::Half)),
    (0x50, Op::LdInd(Size::Byte)),
    (0x60, Op::LdMem),
    (0x80, Op::LdLen),
    (0x01, Op::LdxImm),
    (0x61, Op::LdxMem),
    (0x81, Op::LdxLen),
    (0xb1, Op::LdxMsh),
    (0x02, Op::St),
    (0x03, Op::Stx),
    (0x84, Op::Neg),
    (0x05, Op::Ja),
    (0x06, Op::RetK),
    (0x16, Op::RetA),
    (0x07, Op::Tax),
    (0x87, Op::Txa),
    (0x04, Op::Alu(AluOp::Add, Src::K)),
    (0x0c, Op::Alu(AluOp::Add, Src::X)),
    (0x14, Op::Alu(AluOp::Sub, Src::K)),
    (0x1c, Op::Alu(AluOp::Sub, Src::X)),
    (0x24, Op::Alu(AluOp::Mul, Src::K)),
    (0x2c, Op::Alu(AluOp::Mul, Src::X)),
    (0x34, Op::Alu(AluOp::Div, Src::K)),
    (0x3c, Op::Alu(AluOp::Div, Src::X)),
    (0x44, Op::Alu(AluOp::Or, Src::K)),
    (0x4c, Op::Alu(AluOp::Or, Src::X)),
    (0x54, Op::Alu(AluOp::And, Src::K)),
    (0x5c, Op::Alu(AluOp::And, Src::X)),
    (0x64, Op::Alu(AluOp::Lsh, Src::K)),
    (0x6c, Op::Alu(AluOp::Lsh, Src::X)),
    (0x74, Op::Alu(AluOp::Rsh, Src::K)),
    (0x7c, Op::Alu(AluOp::Rsh, Src::X)),
    (0x94, Op::Alu(AluOp::Mod, Src::K)),
    (0x9c, Op::Alu(AluOp::Mod, Src::X)),
    (0xa4, Op::Alu(AluOp::Xor, Src::K)),
    (0xac, Op::Alu(AluOp::Xor, Src::X)),
    (0x15, Op::Jump(Cond::Eq, Src::K)),
    (0x1d, Op::Jump(Cond::Eq, Src::X)),
    (0x25, Op::Jump(Cond::Gt, Src::K)),
    (0x2d, Op::Jump(Cond::Gt, Src::X)),
    (0x35, Op::Jump(Cond::Ge, Src::K)),
    (0x3d, Op::Jump(Cond::Ge, Src::X)),
    (0x45, Op::Jump(Cond::Bits, Src::K)),
    (0x4d, Op::Jump(Cond::Bits, Src::X)),
];

static EXTENSIONS: [(Ext, u32, &str); 15] = [
    (Ext::Proto, 0, "proto"),
    (Ext::PktType, 4, "type"),
    (Ext::IfIdx, 8, "ifidx"),
    (Ext::Nla, 12, "nla"),
    (Ext::NlaN, 16, "nlan"),
    (Ext::Mark, 20, "mark"),
    (Ext::Queue, 24, "queue"),
    (Ext::HaType, 28, "hatype"),
    (Ext::RxHash, 32, "rxhash"),
    (Ext::Cpu, 36, "cpu"),
    (Ext::VlanTci, 44, "vlan_tci"),
    (Ext::VlanAvail, 48, "vlan_avail"),
    (Ext::PayOff, 52, "poff"),
    (Ext::Rand, 56, "rand"),
    (Ext::VlanTpid, 60, "vlan_tpid"),
];

/// Whether the code is an operation's, which has the same code again.
fn is_known(rt: &impl Abort, code: u16) -> bool {
    let op = op_of(code);
    if let Some(op) = op {
        assert!(rt; code_of(op) == code);
    }
    op.is_some()
}

/// No codes are known but those of `OPERATIONS`, as many.
fn each_code(rt: &impl Abort) {
    let mut known = 0u32;
    for code in 0..=65535u16 {
        known = known.saturating_add(u32::from(is_known(rt, code)));
    }
    assert!(rt; known == 49);
}

fn each_operation(rt: &impl Abort) {
    for (code, op) in &OPERATIONS {
        assert_of(rt, "code", usize::from(*code), op_of(*code) == Some(*op));
    }
}

fn is_extension(ext: Ext, offset: u32, name: &str) -> bool {
    ext_offset(ext) == offset
        && ext_at(4294963200u32.saturating_add(offset)) == Some(ext)
        && ext_name(ext) == name
        && ext_named(name.as_bytes()) == Some(ext)
}

static NO_PLACES: [u32; 6] = [
    0, 4294963199, 4294963201, 4294963240, 4294963264, 4294967295,
];

static NO_NAMES: [&[u8]; 5] = [b"len", b"", b"Rand", b"ran", b"rand "];

fn no_extension(rt: &impl Abort) {
    for k in &NO_PLACES {
        assert_of(rt, "place", *k as usize, ext_at(*k).is_none());
    }
    for (row, name) in NO_NAMES.iter().enumerate() {
        assert_at(rt, row, ext_named(name).is_none());
    }
}

#[test]
fn codes_and_extensions(rt: HostRuntime) {
    each_code(&rt);
    each_operation(&rt);
    for (ext, offset, name) in &EXTENSIONS {
        assert_of(
            &rt,
            "offset",
            *offset as usize,
            is_extension(*ext, *offset, name),
        );
    }
    no_extension(&rt);
}
