//! The programs and the captures that random calls load.

use crate::assertions::Test;
use crate::inputs::{HEADER, TWO_PACKETS};
use crate::programs::{Code, capture, program_of};
use crate::two_packets;
use cbpf_code::Program;
use pcap_classic::Capture;

/// The first instructions, so many times those of the middle, and the last ones.
type Written = (&'static [Code], u32, &'static [Code], &'static [Code]);

/// Of the long ones the packets of an original length above 33 execute the middle.
static PROGRAMS: [Written; 8] = [
    // `ret #1`.
    (&[(6, 0, 0, 1)], 0, &[], &[]),
    // `ldh [12]`, `jeq #2048, l2, l5`, `ldb [23]`, `jeq #1, l4, l5`, `ret #65535`, `ret #0`.
    (
        &[(40, 0, 0, 12), (21, 0, 3, 2048), (48, 0, 0, 23)],
        1,
        &[(21, 0, 1, 1), (6, 0, 0, 65535)],
        &[(6, 0, 0, 0)],
    ),
    // `ld mark`, `tax`, `ld vlan_tci`, `jeq x, l4, l5`, `ld rand`, `add x`, `ret a`.
    (
        &[(32, 0, 0, 4294963220), (7, 0, 0, 0), (32, 0, 0, 4294963244)],
        1,
        &[(29, 0, 1, 0), (32, 0, 0, 4294963256), (12, 0, 0, 0)],
        &[(22, 0, 0, 0)],
    ),
    // `ldb [0]`, `st M[15]`, `and #3`, `tax`, `stx M[0]`, `ldb [x + 1]`, `ldx M[15]`, `stx M[1]`, `sub x`, `ret a`.
    (
        &[(48, 0, 0, 0), (2, 0, 0, 15), (84, 0, 0, 3), (7, 0, 0, 0)],
        1,
        &[(3, 0, 0, 0), (80, 0, 0, 1), (97, 0, 0, 15), (3, 0, 0, 1)],
        &[(28, 0, 0, 0), (22, 0, 0, 0)],
    ),
    // `ld len`, `and #3`, `tax`, `ld #1000`, `div x`, `mod #7`, `ret a`.
    (
        &[(128, 0, 0, 0), (84, 0, 0, 3), (7, 0, 0, 0)],
        1,
        &[(0, 0, 0, 1000), (60, 0, 0, 0), (148, 0, 0, 7)],
        &[(22, 0, 0, 0)],
    ),
    // `ld len`, `jgt #33, l2, l64`, `ld cpu`, 61 times `add #1`, `ret a`: 65 instructions.
    (
        &[(128, 0, 0, 0), (37, 0, 62, 33), (32, 0, 0, 4294963236)],
        61,
        &[(4, 0, 0, 1)],
        &[(22, 0, 0, 0)],
    ),
    // `ld len`, `jgt #33, l2, l131`, 43 times `jset #1` over one, `add #3`, `st M[2]`, and `ret a`.
    (
        &[(128, 0, 0, 0), (37, 0, 129, 33)],
        43,
        &[(69, 1, 0, 1), (4, 0, 0, 3), (2, 0, 0, 2)],
        &[(22, 0, 0, 0)],
    ),
    // `ld len`, `jgt #33, l2, l199`, 197 times `add #5`, `ret a`: 200 instructions.
    (
        &[(128, 0, 0, 0), (37, 0, 197, 33)],
        197,
        &[(4, 0, 0, 5)],
        &[(22, 0, 0, 0)],
    ),
];

fn program_by(rt: &impl Test, (first, count, middle, last): &Written) -> Program {
    let mut all = Vec::from_slice(rt.alloc(), first).expect(rt, "memory");
    for _ in 0..*count {
        all.extend_from_slice(middle).expect(rt, "memory");
    }
    all.extend_from_slice(last).expect(rt, "memory");
    program_of(rt, &all)
}

/// Program `n`, from 0.
pub fn program_numbered(rt: &impl Test, n: u64) -> Program {
    program_by(rt, PROGRAMS.get(n as usize).expect(rt, "a program"))
}

/// 70 packets of 0 to 7 bytes, and of original lengths of 0 to 35.
fn seventy(rt: &impl Test) -> Capture {
    let mut file = Vec::from_slice(rt.alloc(), HEADER).expect(rt, "memory");
    for n in 0..70u8 {
        let (held, wire) = (n % 8, n % 36);
        let header = [1, 0, 0, 0, 0, 0, 0, 0, held, 0, 0, 0, wire, 0, 0, 0];
        file.extend_from_slice(&header).expect(rt, "memory");
        for at in 0..held {
            let byte = n.wrapping_mul(37).wrapping_add(at);
            file.push(byte).expect(rt, "memory");
        }
    }
    capture(rt, &file)
}

/// Capture `n`, from 0, of five.
pub fn capture_numbered(rt: &impl Test, n: u64) -> Capture {
    match n {
        0 => capture(rt, two_packets::little_endian()),
        1 => capture(rt, two_packets::big_endian()),
        2 => capture(rt, HEADER),
        3 => seventy(rt),
        // The second record lacks its last byte.
        _ => capture(rt, TWO_PACKETS.get(..131).unwrap_or(HEADER)),
    }
}
