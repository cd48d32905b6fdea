//! Files of which a load fails.

use crate::assertions::{Test, assert_at};
use cbpf_tool::{DiskFiles, Files, LoadFault, MemoryFiles, debug};
use memory_tests::inputs::two_packets_as_k;
use session_tests::fault_injection::{Fault, FaultyWriter};

/// The replies to a script over these files.
fn assert_replies(rt: &impl Test, files: &mut MemoryFiles, script: &[u8], wanted: &[u8]) {
    let mut reader = script;
    let mut writer = FaultyWriter::<512>::new(Fault::Fails, 0);
    let result = debug(rt.alloc(), &mut reader, &mut writer, files);
    assert!(rt; result == Ok(()) && writer.written() == wanted);
}

/// The first of two loads fails where it was chosen, and the second does not: F2, the packets, and F1 for another
/// name.
#[test]
fn the_first_load_fails_alone(rt: HostRuntime) {
    let mut files = two_packets_as_k(rt.alloc()).expect(&rt, "memory");
    files.fail_at(1);
    let script = b"load pcap k\nload pcap k\nload pcap j\n".as_slice();
    let wanted = b"error: F2 file could not be read\npcap: 2 packets\n\
error: F1 no such file\n"
        .as_slice();
    assert_replies(&rt, &mut files, script, wanted);
}

// A name that is no text asks for no load, and neither is a wrong line one.
#[test]
fn the_chosen_load_fails_alone(rt: HostRuntime) {
    let mut files = two_packets_as_k(rt.alloc()).expect(&rt, "memory");
    files.fail_at(1);
    files.fail_at(3);
    let script = b"load pcap \xff\nload pcap\nload pcap k\nload pcap j\n\
load bpf 1,6 0 0 1\nselect 2\nload pcap k\nmark\nload pcap k\nmark\n"
        .as_slice();
    let wanted = b"error: Q2 wrong arguments\nerror: Q2 wrong arguments\npcap: 2 packets\n\
error: F1 no such file\nbpf: 1 instructions\nat 2 0\nerror: F2 file could not be read\n2 0\n\
pcap: 2 packets\n1 0\n"
        .as_slice();
    assert_replies(&rt, &mut files, script, wanted);
}

fn load_fails(rt: &impl Test, files: &mut impl Files, name: &str, nth: usize) {
    let fails = matches!(files.load(rt.alloc(), name), Err(LoadFault::Device));
    assert_at(rt, nth, fails);
}

fn loads(rt: &impl Test, files: &mut impl Files, name: &str) {
    assert!(rt; files.load(rt.alloc(), name).is_ok());
}

/// A load succeeds after forty others failed, of a file in memory and of a file of the system.
#[test]
fn a_load_after_forty_failures(rt: HostRuntime) {
    let mut files = two_packets_as_k(rt.alloc()).expect(&rt, "memory");
    for nth in 1..=40usize {
        files.fail_at(1);
        load_fails(&rt, &mut files, "k", nth);
        loads(&rt, &mut files, "k");
    }
    // A folder is no file that can be read.
    let mut files = DiskFiles::new(&rt);
    for nth in 1..=40usize {
        load_fails(&rt, &mut files, "/", nth);
        loads(&rt, &mut files, "/dev/null");
    }
}
