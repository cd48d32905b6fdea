//! Texts with counts and places, for numbers of each length.

use crate::assertions::Test;
use cbpf_reply::{
    Counts, Place, write_finished, write_limit, write_place, write_total, write_went_to,
};
use std::process::Abort;

/// A number in decimal, by division.
fn digits_of(n: u128, room: &mut [u8; 39]) -> &[u8] {
    let mut left = n;
    for digit in room.iter_mut().rev() {
        *digit = b'0' + (left % 10) as u8;
        left /= 10;
    }
    for first in 0..38 {
        if room[first] != b'0' {
            return &room[first..];
        }
    }
    &room[38..]
}

/// What follows in a text after a piece and a number, if it begins with them.
fn after_number<'a>(text: &'a [u8], before: &[u8], n: u128) -> Option<&'a [u8]> {
    let mut room = [0; 39];
    text.strip_prefix(before)?
        .strip_prefix(digits_of(n, &mut room))
}

fn assert_total(rt: &impl Test, n: u128) {
    let mut text = Vec::new(rt.alloc());
    let wrote = write_total(&mut text, n).is_ok();
    let is_wanted = wrote && after_number(&text, b"stops: ", n) == Some(b"\n".as_slice());
    assert!(rt; is_wanted, "{n}");
}

/// The total of stops is written at each power of ten and of two, also above 2 to the 64.
#[test]
fn totals_of_each_length(rt: HostRuntime) {
    let mut power: u128 = 1;
    for _ in 0..39 {
        assert_total(&rt, power.wrapping_sub(1));
        assert_total(&rt, power);
        power = power.wrapping_mul(10);
    }
    for bit in 0..128u32 {
        assert_total(&rt, 1 << bit);
        assert_total(&rt, !(1 << bit));
    }
}

/// Whether a text is these numbers, each after a piece, and then the end of a line.
fn has_numbers(text: &[u8], numbers: &[(&[u8], u64)]) -> bool {
    let mut left = text;
    for (before, n) in numbers {
        match after_number(left, before, u128::from(*n)) {
            Some(rest) => left = rest,
            None => return false,
        }
    }
    left == b"\n".as_slice()
}

/// Asserts that calls wrote this text.
fn assert_written(rt: &impl Abort, wrote: bool, text: &[u8], numbers: &[(&[u8], u64)], at: u64) {
    assert!(rt; wrote && has_numbers(text, numbers), "{at}");
}

fn assert_places(rt: &impl Test, packet: u64, step: u32) {
    let place = Place { packet, step };
    let mut text = Vec::new(rt.alloc());
    let wrote = write_place(&mut text, place).is_ok() && write_went_to(&mut text, place).is_ok();
    let step = u64::from(step);
    let numbers: [(&[u8], u64); 4] = [
        (b"", packet),
        (b" ", step),
        (b"\nat ", packet),
        (b" ", step),
    ];
    assert_written(rt, wrote, &text, &numbers, packet);
}

fn assert_counts(rt: &impl Test, passes: u64, fails: u64, packet: u64) {
    let counts = Counts {
        passes,
        fails,
        unknown: 0,
    };
    let mut text = Vec::new(rt.alloc());
    let wrote = write_finished(&mut text, counts).is_ok()
        && write_limit(&mut text, counts, packet).is_ok();
    let numbers: [(&[u8], u64); 5] = [
        (b"bpf passes:", passes),
        (b" fails:", fails),
        (b"\nbpf passes:", passes),
        (b" fails:", fails),
        (b" next:", packet),
    ];
    assert_written(rt, wrote, &text, &numbers, passes);
}

fn assert_unknown(rt: &impl Test, unknown: u64) {
    let counts = Counts {
        passes: 1,
        fails: 2,
        unknown,
    };
    let mut text = Vec::new(rt.alloc());
    let wrote = write_finished(&mut text, counts).is_ok();
    let numbers: [(&[u8], u64); 1] = [(b"bpf passes:1 fails:2 unknown:", unknown)];
    assert_written(rt, wrote, &text, &numbers, unknown);
}

/// Places, counts and limits are written at each power of two up to the greatest number of 64 bits.
#[test]
fn places_and_counts_of_each_length(rt: HostRuntime) {
    for bit in 0..64u32 {
        let n = 1u64 << bit;
        assert_places(&rt, n, (n % 4294967295) as u32);
        assert_places(&rt, !n, !0 << (bit % 32));
        assert_counts(&rt, n, n - 1, !n);
        assert_unknown(&rt, n);
    }
}
