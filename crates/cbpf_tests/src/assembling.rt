//! The assembler over readers, flushes and allocators that fail at one call.

use crate::assertions::{Test, assert_named};
use cbpf_text::{AsmFault, AsmKind};
use cbpf_tool::{Form, ToolFault, asm};
use memory_tests::inputs::{ARP, ARP_C, ARP_WORDS};
use session_tests::fault_injection::{
    ERROR_KINDS, Fault, FaultyAllocator, FaultyReader, FaultyWriter,
};
use std::io::ErrorKind;

/// What the source assembles to, in each form.
static ARP_TEXTS: [(Form, &[u8]); 2] = [(Form::Decimal, ARP_WORDS), (Form::C, ARP_C)];

/// One read after another fails.
fn each_read_fails(rt: &impl Test, form: Form, kind: ErrorKind) {
    for call in 1..ARP.len() as u64 + 2 {
        let mut reader = FaultyReader::new(ARP, 1, call);
        reader.set_error(kind);
        let mut writer = FaultyWriter::<256>::new(Fault::Fails, 0);
        let result = asm(rt.alloc(), &mut reader, &mut writer, form);
        let is_wanted = result == Err(ToolFault::Read)
            && reader.calls() == call
            && writer.written().is_empty();
        assert_named(rt, is_wanted, "the fault of the last read", call);
    }
}

fn the_flush_fails(rt: &impl Test, form: Form, text: &[u8], kind: ErrorKind) {
    let mut reader = ARP;
    let mut writer = FaultyWriter::<256>::new(Fault::Fails, 0);
    writer.set_flush_fails(true);
    writer.set_error(kind);
    let result = asm(rt.alloc(), &mut reader, &mut writer, form);
    let is_wanted = result == Err(ToolFault::Write)
        && writer.written() == text
        && writer.flushes() == 1;
    assert!(rt; is_wanted);
}

/// Nothing fails over a reader that gives pieces of this length.
fn assembles(rt: &impl Test, form: Form, text: &[u8], piece: usize, reader: &mut FaultyReader<'_>) {
    let mut writer = FaultyWriter::<256>::new(Fault::Fails, 0);
    let result = asm(rt.alloc(), reader, &mut writer, form);
    let is_wanted = result == Ok(()) && writer.written() == text && writer.flushes() == 1;
    assert_named(rt, is_wanted, "the text, flushed once", piece);
}

/// Nothing fails, and a read gives so many bytes at most.
fn none_fails(rt: &impl Test, form: Form, text: &[u8]) {
    for piece in 1..60usize {
        let mut reader = FaultyReader::new(ARP, piece, 0);
        assembles(rt, form, text, piece, &mut reader);
        // No read is made after the one that finds the end.
        let reads = ARP.len().div_ceil(piece) as u64 + 1;
        assert_named(rt, reader.calls() == reads, "the reads", piece);
    }
}

fn in_one_form(rt: &impl Test, form: Form, text: &[u8]) {
    for kind in ERROR_KINDS {
        each_read_fails(rt, form, kind);
        the_flush_fails(rt, form, text, kind);
    }
    none_fails(rt, form, text);
}

/// A read that fails at any place of a source leaves nothing written.
#[test]
fn each_read_or_flush_that_fails(rt: HostRuntime) {
    for (form, text) in &ARP_TEXTS {
        in_one_form(&rt, *form, text);
    }
}

/// A source, its refusal and its line where it has one, and the least number of growths.
type Source = (&'static [u8], Option<(AsmKind, u64)>, u64);

static SOURCES: [Source; 5] = [
    (ARP, None, 4),
    (b"ret #0\nret ret\n", Some((AsmKind::Misplaced, 2)), 1),
    (b"", Some((AsmKind::NoInstruction, 1)), 0),
    (b"jmp no\n", Some((AsmKind::LabelNotSet, 1)), 1),
    (b"ret #0 /*", Some((AsmKind::OpenComment, 1)), 1),
];

/// Whether the growth `nth` is refused: then nothing is written, and else this answer is given.
fn is_refused(
    rt: &impl Test,
    form: Form,
    source: &[u8],
    answer: (Result<(), ToolFault>, &[u8]),
    row: usize,
    nth: u64,
) -> bool {
    let alloc = FaultyAllocator::new(rt.alloc(), nth);
    let mut reader = source;
    let mut writer = FaultyWriter::<256>::new(Fault::Fails, 0);
    let result = asm(&alloc, &mut reader, &mut writer, form);
    let is_refused = alloc.left() == 0;
    let (wanted, text) = if is_refused {
        (Err(ToolFault::Memory), b"".as_slice())
    } else {
        answer
    };
    let is_wanted = result == wanted && writer.written() == text;
    assert_named(rt, is_wanted, "the answer and the text", (row, nth));
    is_refused
}

/// Each growth over a source is refused, one after another.
fn each_growth_is_refused(rt: &impl Test, form: Form, text: &[u8], source: Source, row: usize) {
    let (source, refusal, least) = source;
    let answer = match refusal {
        None => (Ok(()), text),
        Some((kind, line)) => (
            Err(ToolFault::Source(AsmFault::At(kind, line))),
            b"".as_slice(),
        ),
    };
    let mut growths = 0u64;
    for nth in 1..200u64 {
        if !is_refused(rt, form, source, answer, row, nth) {
            break;
        }
        growths = nth;
    }
    let are_enough = growths >= least && growths < 199;
    assert_named(rt, are_enough, "the number of growths", (row, growths));
}

fn each_source(rt: &impl Test, form: Form, text: &[u8]) {
    for (row, source) in SOURCES.iter().enumerate() {
        each_growth_is_refused(rt, form, text, *source, row);
    }
}

/// Each growth of `asm` is refused: it is out of memory, and nothing is written.
#[test]
fn each_refused_growth_leaves_nothing_written(rt: HostRuntime) {
    for (form, text) in &ARP_TEXTS {
        each_source(&rt, *form, text);
    }
}
