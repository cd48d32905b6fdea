//! Sources, scripts and files that several tests load.

use cbpf_tool::MemoryFiles;
use session_tests::inputs::TWO_PACKETS;
use std::alloc::{AllocError, Allocator};

/// A source of four instructions.
pub const ARP: &[u8] = b"ldh [12]\njne #0x806, drop\nret #-1\ndrop: ret #0\n";

/// What it assembles to, as words.
pub const ARP_WORDS: &[u8] = b"4,40 0 0 12,21 0 1 2054,6 0 0 4294967295,6 0 0 0,\n";

/// The same in the C form.
pub const ARP_C: &[u8] = b"{ 0x28,  0,  0, 0x0000000c },\n\
{ 0x15,  0,  1, 0x00000806 },\n\
{ 0x06,  0,  0, 0xffffffff },\n\
{ 0x06,  0,  0, 0000000000 },\n";

/// A script that loads this program and dumps it.
pub const ARP_SCRIPT: &[u8] =
    b"load bpf 4,40 0 0 12,21 0 1 2054,6 0 0 4294967295,6 0 0 0,\ndump\nquit\n";

/// Its replies, of 165 bytes.
pub const ARP_SCRIPT_REPLIES: &[u8] = b"bpf: 4 instructions\n\
/* { op, jt, jf, k }, */\n\
{ 0x28,  0,  0, 0x0000000c },\n\
{ 0x15,  0,  1, 0x00000806 },\n\
{ 0x06,  0,  0, 0xffffffff },\n\
{ 0x06,  0,  0, 0000000000 },\n";

/// Files in memory of which `k` is the capture of two packets.
pub fn two_packets_as_k<A: Allocator + Copy>(alloc: A) -> Result<MemoryFiles<A>, AllocError> {
    let mut files = MemoryFiles::new(alloc);
    match files.put("k", Vec::from_slice(alloc, TWO_PACKETS)?) {
        Ok(()) => Ok(files),
        Err(_) => Err(AllocError),
    }
}
