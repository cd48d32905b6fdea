//! What faults, instructions and programs are shown as.

use crate::assertions::{Test, assert_of};
use cbpf_code::{CheckFault, Insn, Program, WordFault, WriteFault, read_words};
use cbpf_text::{AsmFault, AsmKind};
use std::fmt::Display;

/// Asserts that a value is shown as a text.
fn assert_shown<D: Display + Drop>(rt: &impl Test, value: D, text: &str) {
    let shown = format!(in rt.alloc(); "{value}");
    assert_of(
        rt,
        text,
        0,
        matches!(&shown, Ok(shown) if shown.as_str() == text),
    );
}

/// What a fault says is shown by `{}` without `error: `.
#[test]
fn faults_of_programs(rt: HostRuntime) {
    assert_shown(&rt, CheckFault::NoInstruction, "C1 no instruction");
    assert_shown(&rt, CheckFault::TooMany, "C2 more than 4096 instructions");
    assert_shown(&rt, CheckFault::UnknownCode(0), "C3 at 0: unknown code");
    assert_shown(&rt, CheckFault::NoSlot(1), "C4 at 1: no such scratch slot");
    assert_shown(
        &rt,
        CheckFault::ZeroDivisor(22),
        "C5 at 22: division by zero",
    );
    assert_shown(
        &rt,
        CheckFault::WideShift(3),
        "C6 at 3: shift of 32 or more",
    );
    assert_shown(&rt, CheckFault::JumpOutside(4), "C7 at 4: jump outside");
    assert_shown(
        &rt,
        CheckFault::UnknownExtension(5),
        "C8 at 5: unknown extension",
    );
    assert_shown(
        &rt,
        CheckFault::NoReturn,
        "C9 last instruction is no return",
    );
    assert_shown(
        &rt,
        CheckFault::UnwrittenSlot(4095),
        "C10 at 4095: scratch slot read before it is written",
    );
}

/// What a fault says is shown by `{}` without `error: `.
#[test]
fn faults_of_words_and_sources(rt: HostRuntime) {
    assert_shown(
        &rt,
        WordFault::NumberExpected(7),
        "N1 at byte 7: number expected",
    );
    assert_shown(
        &rt,
        WordFault::OutOfRange(2),
        "N2 at byte 2: number out of range",
    );
    assert_shown(
        &rt,
        WordFault::UnexpectedByte(1),
        "N3 at byte 1: unexpected byte",
    );
    let differs = WordFault::CountDiffers { said: 2, found: 1 };
    assert_shown(&rt, differs, "N4 count says 2, found 1");
    assert_shown(
        &rt,
        WordFault::CommaExpected(2),
        "N5 at byte 2: comma expected",
    );
    assert_shown(&rt, WordFault::Memory, "out of memory");
    assert_shown(&rt, WriteFault, "write fault");
    assert_shown(
        &rt,
        AsmFault::At(AsmKind::LabelNotSet, 2),
        "line 2: A7 label not defined",
    );
    assert_shown(&rt, AsmFault::Memory, "out of memory");
}

#[test]
fn instructions(rt: HostRuntime) {
    let load = Insn {
        code: 40,
        jt: 0,
        jf: 0,
        k: 12,
    };
    assert_shown(&rt, load, "l0:\tldh [12]");
    let jump = Insn {
        code: 21,
        jt: 0,
        jf: 3,
        k: 2048,
    };
    assert_shown(&rt, jump, "l0:\tjeq #0x800, l1, l4");
    let unknown = Insn {
        code: 65535,
        jt: 1,
        jf: 2,
        k: 3,
    };
    assert_shown(&rt, unknown, "65535 1 2 3");
}

#[test]
fn a_program(rt: HostRuntime) {
    let words = b"4,0 0 0 5,53 0 1 10,6 0 0 0,6 0 0 1,";
    let list = read_words(rt.alloc(), words).expect(&rt, "words");
    let program = Program::new(list).expect(&rt, "a program");
    assert_shown(
        &rt,
        program,
        "l0:\tld #0x5\nl1:\tjge #0xa, l2, l3\nl2:\tret #0\nl3:\tret #0x1\n",
    );
}

#[test]
fn a_refused_list(rt: HostRuntime) {
    let list = Vec::new(rt.alloc());
    let refused = Program::new(list).err();
    assert_of(
        &rt,
        "refused",
        0,
        refused == Some(CheckFault::NoInstruction),
    );
}
