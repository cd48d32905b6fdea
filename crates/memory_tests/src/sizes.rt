//! Large inputs: thousands of records, instructions, tokens and breakpoints, with memory at hand.

use crate::assertions::{Test, assert_named};
use cbpf_dbg::{MarkTrail, Session, SessionFault, When};
use cbpf_text::{assemble, tokens, write_listing};
use cbpf_tool::{Form, MemoryFiles, asm, debug};
use pcap_classic::{Capture, Ending};
use session_tests::fault_injection::FaultyReader;
use session_tests::files::repeated;
use session_tests::inputs::{HEADER, RECORD, program_of};
use std::process::Abort;

fn records(rt: &impl Test) {
    let bytes = repeated(rt.alloc(), HEADER, RECORD, 3000, b"").expect(rt, "memory");
    let capture = Capture::from_bytes(rt.alloc(), bytes)
        .ok()
        .expect(rt, "the capture");
    assert!(rt; capture.count() == 3000);
    assert!(rt; capture.ending() == Ending::Whole && capture.item(2999).start == 50990);
}

fn source_tokens(rt: &impl Test) {
    let source = repeated(rt.alloc(), b"", b"add x\n", 4096, b"").expect(rt, "memory");
    let tokens = tokens(rt.alloc(), &source).expect(rt, "the tokens");
    assert!(rt; tokens.len() == 8192);
}

/// The listing of these words, which assembles to their program.
fn listing_of(rt: &impl Test, words: &[u8]) -> Vec<u8> {
    let program = program_of(rt.alloc(), words).expect(rt, "the program");
    let mut listing = Vec::new(rt.alloc());
    assert!(rt; write_listing(&mut listing, &program) == Ok(()));
    let list = assemble(rt.alloc(), &listing).expect(rt, "the list");
    assert!(rt; list.as_slice() == program.as_slice());
    listing
}

/// The listing goes back to the words, where each read gives one byte.
fn assembles_to(rt: &impl Test, listing: &[u8], words: &[u8]) {
    let mut reader = FaultyReader::new(listing, 1, 0);
    let mut text = Vec::new(rt.alloc());
    assert!(rt; asm(rt.alloc(), &mut reader, &mut text, Form::Decimal) == Ok(()));
    assert!(rt; text.as_slice() == words);
}

fn script_of(rt: &impl Test, words: &[u8]) -> Vec<u8> {
    let mut script = b"load bpf ".to_vec(rt.alloc()).expect(rt, "the command");
    script.extend_from_slice(words).expect(rt, "the script");
    script
}

/// The script loads 4096 instructions, where each read gives one byte.
fn loads(rt: &impl Test, script: &[u8]) {
    let mut reader = FaultyReader::new(script, 1, 0);
    let mut replies = Vec::new(rt.alloc());
    let mut files = MemoryFiles::new(rt.alloc());
    assert!(rt; debug(rt.alloc(), &mut reader, &mut replies, &mut files) == Ok(()));
    assert!(rt; replies.as_slice() == b"bpf: 4096 instructions\n".as_slice());
}

#[test]
fn thousands_of_records_instructions_and_tokens(rt: HostRuntime) {
    records(&rt);
    source_tokens(&rt);
    let words = repeated(rt.alloc(), b"4096,", b"7 0 0 0,", 4095, b"6 0 0 1,\n").expect(
        &rt, "memory",
    );
    let listing = listing_of(&rt, &words);
    assembles_to(&rt, &listing, &words);
    loads(&rt, &script_of(&rt, &words));
}

/// A session over 4096 instructions.
fn session_of_4096(rt: &impl Test) -> Session<MarkTrail> {
    let words = repeated(rt.alloc(), b"4096,", b"7 0 0 0,", 4095, b"6 0 0 1").expect(rt, "memory");
    let mut session = Session::new(rt.alloc(), MarkTrail::new());
    session.load_program(program_of(rt.alloc(), &words).expect(rt, "the program"));
    session
}

/// A breakpoint of one kind after another.
fn set(session: &mut Session<MarkTrail>, n: u64, i: u32) -> Result<(), SessionFault> {
    match i % 3 {
        0 => session.breakpoint(n),
        1 => session.breakpoint_when(n, When::A(i)),
        _ => session.breakpoint_when(n, When::X(i)),
    }
}

/// The last instruction first.
fn set_each(rt: &impl Abort, session: &mut Session<MarkTrail>) {
    for i in 0..4096u32 {
        let n = u64::from(4095 - i);
        assert_named(rt, set(session, n, i) == Ok(()), "a breakpoint", n);
    }
}

fn are_set(rt: &impl Abort, session: &Session<MarkTrail>) {
    for i in 0..4096u32 {
        let is_set = session.breakpoint_at(i as usize) == Some(4095 - i);
        assert_named(rt, is_set, "a breakpoint", i);
    }
}

#[test]
fn a_breakpoint_at_each_of_4096_instructions(rt: HostRuntime) {
    let mut session = session_of_4096(&rt);
    set_each(&rt, &mut session);
    assert!(rt; session.breakpoint_count() == 4096);
    are_set(&rt, &session);
}
