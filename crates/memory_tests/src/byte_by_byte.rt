//! Sources and scripts of 700,000 bytes and more, of which each read gives one.

use crate::assertions::Test;
use cbpf_tool::{Form, MemoryFiles, asm, debug};
use session_tests::fault_injection::FaultyReader;
use session_tests::files::repeated;

/// Whether the source assembles to these words.
fn assembles_to(rt: &impl Test, source: &[u8], words: &[u8]) {
    let mut reader = FaultyReader::new(source, 1, 0);
    let mut text = Vec::new(rt.alloc());
    assert!(rt; asm(rt.alloc(), &mut reader, &mut text, Form::Decimal) == Ok(()));
    assert!(rt; reader.calls() > 700_000 && text.as_slice() == words);
}

/// A source of 700,000 bytes and more assembles where each read gives one byte.
#[test]
fn a_source(rt: HostRuntime) {
    let comment = b" ; seventeen bytes\n";
    let source = repeated(rt.alloc(), b"ret #5", comment, 40_000, b"").expect(&rt, "memory");
    assembles_to(&rt, &source, b"1,6 0 0 5,\n");
}

/// Whether these are the replies to the script.
fn replies(rt: &impl Test, script: &[u8], wanted: &[u8]) {
    let mut reader = FaultyReader::new(script, 1, 0);
    let mut text = Vec::new(rt.alloc());
    let mut files = MemoryFiles::new(rt.alloc());
    assert!(rt; debug(rt.alloc(), &mut reader, &mut text, &mut files) == Ok(()));
    assert!(rt; reader.calls() > 700_000 && text.as_slice() == wanted);
}

/// A script's line of 700,000 bytes and more is read where each read gives one byte.
#[test]
fn a_line(rt: HostRuntime) {
    let line = repeated(rt.alloc(), b"load bpf ", b" \t", 350_000, b"1,6 0 0 1\n").expect(
        &rt, "memory",
    );
    replies(&rt, &line, b"bpf: 1 instructions\n");
}

/// 100,000 commands are answered where each read gives one byte.
#[test]
fn many_lines(rt: HostRuntime) {
    let lines = repeated(rt.alloc(), b"", b"hello\n\n", 100_000, b"mark\n").expect(&rt, "memory");
    let reply = b"error: Q1 unknown command\n";
    let last = b"error: S1 no program\n";
    let wanted = repeated(rt.alloc(), b"", reply, 100_000, last).expect(&rt, "memory");
    replies(&rt, &lines, &wanted);
}
