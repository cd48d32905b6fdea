//! Two captures of the same two packets: an ARP packet of 42 bytes, and an ICMP packet of 34.

use crate::inputs::TWO_PACKETS;

/// With nanoseconds.
const BIG_ENDIAN: [u8; 132] = [
    0xa1, 0xb2, 0x3c, 0x4d, 0, 2, 0, 4, 0, 0, 0, 0, 0, 0, 0, 0, 0, 0, 0xff, 0xff, 0, 0, 0, 1, //
    0, 0, 0, 1, 0, 0, 0, 0, 0, 0, 0, 42, 0, 0, 0, 42, //
    0, 0, 0, 0, 0, 0, 0, 0, 0, 0, 0, 0, 8, 6, 0, 0, 0, 0, 0, 0, 0, //
    0, 0, 0, 0, 0, 0, 0, 0, 0, 0, 0, 0, 0, 0, 0, 0, 0, 0, 0, 0, 0, //
    0, 0, 0, 2, 0, 0, 0, 0, 0, 0, 0, 34, 0, 0, 0, 34, //
    0, 0, 0, 0, 0, 0, 0, 0, 0, 0, 0, 0, 8, 0, 0, 0, 0, //
    0, 0, 0, 0, 0, 0, 1, 0, 0, 0, 0, 0, 0, 0, 0, 0, 0,
];

// By calls, so that proofs do not carry the bytes.
/// With microseconds.
pub fn little_endian() -> &'static [u8] {
    TWO_PACKETS
}

pub fn big_endian() -> &'static [u8] {
    &BIG_ENDIAN
}
