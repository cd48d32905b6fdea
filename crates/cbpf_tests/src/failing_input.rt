//! A reader that gives a few bytes a call, and fails at one call.

use crate::assertions::{Test, assert_named};
use cbpf_tool::{MemoryFiles, ToolFault, debug};
use memory_tests::inputs::{ARP_SCRIPT, ARP_SCRIPT_REPLIES};
use session_tests::fault_injection::{ERROR_KINDS, Fault, FaultyReader, FaultyWriter};
use std::alloc::Global;
use std::io::ErrorKind;

/// What the first line of `ARP_SCRIPT` writes.
const ARP_FIRST_REPLY: &[u8] = b"bpf: 4 instructions\n";

/// The debugger over no files.
fn run(
    alloc: Global,
    reader: &mut FaultyReader<'_>,
    writer: &mut FaultyWriter<256>,
) -> Result<(), ToolFault> {
    let mut files = MemoryFiles::new(alloc);
    debug(alloc, reader, writer, &mut files)
}

/// One read after another fails.
fn each_read_fails(rt: &impl Test, kind: ErrorKind) {
    for call in 1..=ARP_SCRIPT.len() {
        let mut reader = FaultyReader::new(ARP_SCRIPT, 1, call as u64);
        reader.set_error(kind);
        let mut writer = FaultyWriter::<256>::new(Fault::Fails, 0);
        let result = run(rt.alloc(), &mut reader, &mut writer);
        let is_wanted = result == Err(ToolFault::Read)
            && reader.calls() == call as u64
            && writer.written() == replies_before(call);
        assert_named(rt, is_wanted, "the fault and the replies before", call);
    }
}

/// The replies to the lines that end before this read.
fn replies_before(call: usize) -> &'static [u8] {
    // The first line takes 59 bytes, and the first two take 64.
    match call {
        0..=59 => b"",
        60..=64 => ARP_FIRST_REPLY,
        _ => ARP_SCRIPT_REPLIES,
    }
}

/// No read fails, and each gives so many bytes at most.
fn none_fails(rt: &impl Test) {
    for piece in 1..80usize {
        let mut reader = FaultyReader::new(ARP_SCRIPT, piece, 0);
        let mut writer = FaultyWriter::<256>::new(Fault::Fails, 0);
        let result = run(rt.alloc(), &mut reader, &mut writer);
        let is_whole = result == Ok(()) && writer.written() == ARP_SCRIPT_REPLIES;
        assert_named(rt, is_whole, "the replies", piece);
    }
}

/// The ARP filter is loaded from its words and dumped as four lines of C.
/// A read that fails at the first byte of the line `dump` leaves the reply to the line before it.
#[test]
fn each_read_that_fails_leaves_the_replies_to_the_whole_lines_before_it(rt: HostRuntime) {
    for kind in ERROR_KINDS {
        each_read_fails(&rt, kind);
    }
    none_fails(&rt);
}
