//! The calls that write, over writers that take one byte a call, and fail or take nothing at one call.

use crate::assertions::{Test, assert_named};
use crate::why::{ARP_REPORTS, report_on};
use cbpf_code::{WriteFault, write_bytes, write_c, write_words};
use cbpf_dbg::{MarkTrail, Meter, RunReply, Session};
use cbpf_text::write_listing;
use cbpf_tool::{Form, ToolFault, asm, debug};
use cbpf_why::{ALL_PACKETS, Report, WhyFault};
use memory_tests::inputs::{
    ARP, ARP_C, ARP_SCRIPT, ARP_SCRIPT_REPLIES, ARP_WORDS, two_packets_as_k,
};
use session_tests::fault_injection::{Fault, FaultyWriter};
use session_tests::inputs::{ICMP_WORDS, TWO_PACKETS, program_of, session_of};
use std::io::ErrorKind;
use std::process::Abort;

/// How a write goes wrong.
static FAULTS: [(Fault, ErrorKind); 4] = [
    (Fault::Fails, ErrorKind::Other),
    (Fault::Fails, ErrorKind::Interrupted),
    (Fault::Fails, ErrorKind::OutOfMemory),
    (Fault::TakesNothing, ErrorKind::Other),
];

const SESSION: &[u8] =
    b"load bpf 2,0 0 0 7,22 0 0 0\nload pcap k\nbreakpoint 1\nstops\nrun\nstep -1\nmark\ndisassemble\ndump\nquit\n";

const REPLIES: &[u8] = b"bpf: 2 instructions\n\
pcap: 2 packets\n\
breakpoint at: l1:\tret a\n\
1 2 l1 A 7 X 0 (breakpoint)\n\
2 2 l1 A 7 X 0 (breakpoint)\n\
stops: 2\n\
-- packet 1, step 2 --\n\
-- register dump --\n\
pc:       [1]\n\
code:     [22] jt[0] jf[0] k[0]\n\
curr:     l1:\tret a\n\
A:        [00000007][7]\n\
X:        [00000000][0]\n\
M[0,15]:  [00000000][0]\n\
-- packet dump --\n\
len: 42 wire: 42\n\
\x20   0: 00 00 00 00 00 00 00 00 00 00 00 00 08 06 00 00\n\
\x20  16: 00 00 00 00 00 00 00 00 00 00 00 00 00 00 00 00\n\
\x20  32: 00 00 00 00 00 00 00 00 00 00\n\
(breakpoint)\n\
-- packet 1, step 1 --\n\
-- register dump --\n\
pc:       [0]\n\
code:     [0] jt[0] jf[0] k[7]\n\
curr:     l0:\tld #0x7\n\
A:        [00000000][0]\n\
X:        [00000000][0]\n\
M[0,15]:  [00000000][0]\n\
-- packet dump --\n\
len: 42 wire: 42\n\
\x20   0: 00 00 00 00 00 00 00 00 00 00 00 00 08 06 00 00\n\
\x20  16: 00 00 00 00 00 00 00 00 00 00 00 00 00 00 00 00\n\
\x20  32: 00 00 00 00 00 00 00 00 00 00\n\
(step)\n\
1 1\n\
l0:\tld #0x7\n\
l1:\tret a\n\
/* { op, jt, jf, k }, */\n\
{ 0000,  0,  0, 0x00000007 },\n\
{ 0x16,  0,  0, 0000000000 },\n";

/// The dump of the first stop of the ICMP filter with a breakpoint at instruction 1.
const FIRST_STOP: &[u8] = b"-- packet 1, step 2 --\n\
-- register dump --\n\
pc:       [1]\n\
code:     [21] jt[0] jf[3] k[2048]\n\
curr:     l1:\tjeq #0x800, l2, l5\n\
A:        [00000806][2054]\n\
X:        [00000000][0]\n\
M[0,15]:  [00000000][0]\n\
-- packet dump --\n\
len: 42 wire: 42\n\
\x20   0: 00 00 00 00 00 00 00 00 00 00 00 00 08 06 00 00\n\
\x20  16: 00 00 00 00 00 00 00 00 00 00 00 00 00 00 00 00\n\
\x20  32: 00 00 00 00 00 00 00 00 00 00\n\
(breakpoint)\n";

/// More instructions than are written at once, which are 64.
const SEVENTY: &[u8] =
    b"70,7 0 0 0,7 0 0 0,7 0 0 0,7 0 0 0,7 0 0 0,7 0 0 0,7 0 0 0,7 0 0 0,7 0 0 0,7 0 0 0,7 0 0 0,\
7 0 0 0,7 0 0 0,7 0 0 0,7 0 0 0,7 0 0 0,7 0 0 0,7 0 0 0,7 0 0 0,7 0 0 0,7 0 0 0,7 0 0 0,7 0 0 0,7 0 0 0,7 0 0 0,7 0 0 0,\
7 0 0 0,7 0 0 0,7 0 0 0,7 0 0 0,7 0 0 0,7 0 0 0,7 0 0 0,7 0 0 0,7 0 0 0,7 0 0 0,7 0 0 0,7 0 0 0,7 0 0 0,7 0 0 0,7 0 0 0,\
7 0 0 0,7 0 0 0,7 0 0 0,7 0 0 0,7 0 0 0,7 0 0 0,7 0 0 0,7 0 0 0,7 0 0 0,7 0 0 0,7 0 0 0,7 0 0 0,7 0 0 0,7 0 0 0,7 0 0 0,\
7 0 0 0,7 0 0 0,7 0 0 0,7 0 0 0,7 0 0 0,7 0 0 0,7 0 0 0,7 0 0 0,7 0 0 0,7 0 0 0,7 0 0 0,7 0 0 0,7 0 0 0,6 0 0 1,\n";

/// What writes: bytes, a program in a form, which is the ICMP filter where none is named, a session its first
/// stop, the two jobs, and a report on the ARP filter.
#[derive(Clone, Copy, Debug)]
enum Call {
    Bytes,
    Words(&'static [u8]),
    C,
    Listing,
    Stop,
    Asm(Form),
    Debug(&'static [u8]),
    Why(Report),
}

static CALLS: [(Call, &[u8]); 10] = [
    (Call::Bytes, ARP),
    (
        Call::Words(ICMP_WORDS),
        b"6,40 0 0 12,21 0 3 2048,48 0 0 23,21 0 1 1,6 0 0 65535,6 0 0 0,\n",
    ),
    (Call::Words(SEVENTY), SEVENTY),
    (
        Call::C,
        b"{ 0x28,  0,  0, 0x0000000c },\n\
{ 0x15,  0,  3, 0x00000800 },\n\
{ 0x30,  0,  0, 0x00000017 },\n\
{ 0x15,  0,  1, 0x00000001 },\n\
{ 0x06,  0,  0, 0x0000ffff },\n\
{ 0x06,  0,  0, 0000000000 },\n",
    ),
    (
        Call::Listing,
        b"l0:\tldh [12]\n\
l1:\tjeq #0x800, l2, l5\n\
l2:\tldb [23]\n\
l3:\tjeq #0x1, l4, l5\n\
l4:\tret #0xffff\n\
l5:\tret #0\n",
    ),
    (Call::Stop, FIRST_STOP),
    (Call::Asm(Form::Decimal), ARP_WORDS),
    (Call::Asm(Form::C), ARP_C),
    (Call::Debug(ARP_SCRIPT), ARP_SCRIPT_REPLIES),
    (Call::Debug(SESSION), REPLIES),
];

fn write_program(
    rt: &impl Test,
    call: Call,
    words: &[u8],
    w: &mut FaultyWriter<2048>,
) -> Result<(), WriteFault> {
    let program = program_of(rt.alloc(), words).expect(rt, "the program");
    match call {
        Call::C => write_c(w, program.as_slice()),
        Call::Listing => write_listing(w, &program),
        _ => write_words(w, program.as_slice()),
    }
}

fn write_next_stop(
    rt: &impl Abort,
    session: &mut Session<MarkTrail>,
    w: &mut FaultyWriter<2048>,
) -> Result<(), WriteFault> {
    match session.run(&mut Meter::new(), None) {
        Ok(RunReply::Stopped(stop)) => session.write_stop(w, &stop),
        _ => panic!(rt; "no stop"),
    }
}

fn write_first_stop(rt: &impl Test, w: &mut FaultyWriter<2048>) -> Result<(), WriteFault> {
    let mut session = session_of(rt.alloc(), ICMP_WORDS).expect(rt, "the session");
    assert!(rt; session.breakpoint(1) == Ok(()));
    write_next_stop(rt, &mut session, w)
}

fn write_replies(
    rt: &impl Test,
    script: &[u8],
    w: &mut FaultyWriter<2048>,
) -> Result<(), ToolFault> {
    let mut files = two_packets_as_k(rt.alloc()).expect(rt, "memory");
    let mut reader = script;
    debug(rt.alloc(), &mut reader, w, &mut files)
}

fn write_report(
    rt: &impl Test,
    report: Report,
    w: &mut FaultyWriter<2048>,
) -> Result<(), ToolFault> {
    match report_on(rt, (ARP, None, report), &[ALL_PACKETS], TWO_PACKETS, w) {
        Ok(_) => Ok(()),
        Err(WhyFault::Write) => Err(ToolFault::Write),
        Err(_) => Err(ToolFault::Read),
    }
}

fn write(rt: &impl Test, call: Call, w: &mut FaultyWriter<2048>) -> Result<(), ToolFault> {
    let written = match call {
        Call::Bytes => write_bytes(w, ARP),
        Call::Words(words) => write_program(rt, call, words, w),
        Call::C | Call::Listing => write_program(rt, call, ICMP_WORDS, w),
        Call::Stop => write_first_stop(rt, w),
        Call::Asm(form) => {
            let mut source = ARP;
            return asm(rt.alloc(), &mut source, w, form);
        }
        Call::Debug(script) => return write_replies(rt, script, w),
        Call::Why(report) => return write_report(rt, report, w),
    };
    match written {
        Ok(()) => Ok(()),
        Err(_) => Err(ToolFault::Write),
    }
}

/// No write goes wrong.
fn none_goes_wrong(rt: &impl Test, call: Call, text: &[u8]) {
    let mut writer = FaultyWriter::new(Fault::Fails, 0);
    let answer = write(rt, call, &mut writer);
    let is_wanted = answer == Ok(())
        && writer.written() == text
        && writer.calls() == text.len() as u64;
    assert_named(rt, is_wanted, "the text and its writes", call);
}

/// A write goes wrong after these bytes.
fn goes_wrong(rt: &impl Test, call: Call, text: &[u8], writer: &mut FaultyWriter<2048>) {
    let i = text.len();
    let result = write(rt, call, writer);
    let is_wanted = result == Err(ToolFault::Write)
        && writer.written() == text
        && writer.calls() == i as u64 + 1;
    assert_named(rt, is_wanted, "the fault after the writes", (call, i));
}

/// One write after another goes wrong.
fn each_goes_wrong(rt: &impl Test, call: Call, text: &[u8], fault: Fault, kind: ErrorKind) {
    for i in 0..text.len() {
        let mut writer = FaultyWriter::new(fault, i as u64 + 1);
        writer.set_error(kind);
        goes_wrong(rt, call, &text[..i], &mut writer);
    }
}

fn each_fault(rt: &impl Test, call: Call, text: &[u8]) {
    for (fault, kind) in &FAULTS {
        each_goes_wrong(rt, call, text, *fault, *kind);
    }
}

// After the write that went wrong exactly the bytes before it were written, and no write is tried again.
#[test]
fn a_write_that_goes_wrong_is_the_last_one(rt: HostRuntime) {
    for (call, text) in CALLS.iter() {
        none_goes_wrong(&rt, *call, text);
        each_fault(&rt, *call, text);
    }
}

#[test]
fn a_write_of_a_report_that_fails_is_the_last_one(rt: HostRuntime) {
    for (report, text, _) in &ARP_REPORTS {
        let call = Call::Why(*report);
        none_goes_wrong(&rt, call, text);
        each_goes_wrong(&rt, call, text, Fault::Fails, ErrorKind::Other);
    }
}
