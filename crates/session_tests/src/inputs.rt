//! Programs, captures and sessions that several tests load.

use cbpf_code::{Program, check, read_words};
use cbpf_dbg::{MarkTrail, Session};
use pcap_classic::Capture;
use std::alloc::{AllocError, Allocator};

/// The word text of the ICMP filter.
pub const ICMP_WORDS: &[u8] = b"6,40 0 0 12,21 0 3 2048,48 0 0 23,21 0 1 1,6 0 0 65535,6 0 0 0";

/// Twenty times `tax`, and a return of 1.
pub const STRAIGHT: &[u8] = b"21,7 0 0 0,7 0 0 0,7 0 0 0,7 0 0 0,7 0 0 0,7 0 0 0,7 0 0 0,7 0 0 0,\
7 0 0 0,7 0 0 0,7 0 0 0,7 0 0 0,7 0 0 0,7 0 0 0,7 0 0 0,7 0 0 0,7 0 0 0,7 0 0 0,7 0 0 0,7 0 0 0,6 0 0 1";

/// A capture of two packets: an ARP request of 42 bytes and 34 bytes of IPv4.
pub const TWO_PACKETS: &[u8] =
    b"\xd4\xc3\xb2\xa1\x02\x00\x04\x00\x00\x00\x00\x00\x00\x00\x00\x00\xff\xff\x00\x00\x01\x00\x00\x00\
\x01\x00\x00\x00\x00\x00\x00\x00\x2a\x00\x00\x00\x2a\x00\x00\x00\x00\x00\x00\x00\x00\x00\x00\x00\x00\x00\x00\x00\x08\x06\
\x00\x00\x00\x00\x00\x00\x00\x00\x00\x00\x00\x00\x00\x00\x00\x00\x00\x00\x00\x00\x00\x00\x00\x00\x00\x00\x00\x00\
\x02\x00\x00\x00\x00\x00\x00\x00\x22\x00\x00\x00\x22\x00\x00\x00\x00\x00\x00\x00\x00\x00\x00\x00\x00\x00\x00\x00\x08\x00\
\x00\x00\x00\x00\x00\x00\x00\x00\x00\x01\x00\x00\x00\x00\x00\x00\x00\x00\x00\x00";

/// A file header.
pub const HEADER: &[u8] = b"\xd4\xc3\xb2\xa1\x02\x00\x04\x00\x00\x00\x00\x00\x00\x00\x00\x00\
\xff\xff\x00\x00\x01\x00\x00\x00";

/// A record of one byte of an original length of 60.
pub const RECORD: &[u8] = b"\x01\x00\x00\x00\x02\x00\x00\x00\x01\x00\x00\x00\x3c\x00\x00\x00\x07";

/// The program of this word text.
pub fn program_of<A: Allocator>(alloc: A, words: &[u8]) -> Result<Program<A>, AllocError> {
    let Ok(list) = read_words(alloc, words) else {
        return Err(AllocError);
    };
    match check(list) {
        Ok(program) => Ok(program),
        Err(_) => Err(AllocError),
    }
}

/// The capture of two packets.
pub fn two_packets<A: Allocator + Copy>(alloc: A) -> Result<Capture<A>, AllocError> {
    match Capture::from_bytes(alloc, Vec::from_slice(alloc, TWO_PACKETS)?) {
        Ok(capture) => Ok(capture),
        Err(_) => Err(AllocError),
    }
}

/// A session over this word text and both packets.
pub fn session_of<A: Allocator + Copy>(
    alloc: A,
    words: &[u8],
) -> Result<Session<MarkTrail, A>, AllocError> {
    let program = program_of(alloc, words)?;
    let capture = two_packets(alloc)?;
    let mut session = Session::new(alloc, MarkTrail::new());
    session.load_program(program);
    session.load_capture(capture);
    Ok(session)
}
