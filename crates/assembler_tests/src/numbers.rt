//! Numbers of each length, and many parts: beside digits that are worked out here.

ghost use Rattle.std.specs.Prelude.{◌≤◌};

use crate::assertions::Test;
use cbpf_code::{write_decimal, write_hex, write_parts};

/// The last 39 decimal digits of a number, by division.
fn decimal_digits(n: u128) -> [u8; 39] {
    let mut digits = [b'0'; 39];
    let mut left = n;
    for digit in digits.iter_mut().rev() {
        *digit = b'0' + (left % 10) as u8;
        left /= 10;
    }
    digits
}

/// Whether a text is that of a number, at least so long, by the digits that it and longer ones end in.
fn is_number(text: &[u8], digits: &[u8], least: usize) -> bool {
    let zeros = digits.iter().take_while(|digit| **digit == b'0').count();
    let needed = digits.len().saturating_sub(zeros).max(least);
    text.len() == needed && digits.ends_with(text)
}

fn assert_decimal(rt: &impl Test, n: u128) {
    let mut text = Vec::new(rt.alloc());
    let is_written = write_decimal(&mut text, n).is_ok();
    assert!(rt;
        is_written && is_number(&text, &decimal_digits(n), 1),
        "{n}"
    );
}

/// A number and those on both sides of it.
fn assert_decimals(rt: &impl Test, n: u128) {
    assert_decimal(rt, n.wrapping_sub(1));
    assert_decimal(rt, n);
    assert_decimal(rt, n.wrapping_add(1));
}

/// `write_decimal` writes each power of ten and of two, and the numbers beside them, up to the greatest of 128 bits.
#[test]
fn powers_of_ten_and_of_two(rt: HostRuntime) {
    let mut power: u128 = 1;
    for _ in 0..39 {
        assert_decimals(&rt, power);
        power = power.wrapping_mul(10);
    }
    for bit in 0..128u32 {
        assert_decimals(&rt, 1 << bit);
    }
}

/// The eight hexadecimal digits of a number, by division.
fn hex_digits(n: u32) -> [u8; 8] {
    let mut digits = [b'0'; 8];
    let mut left = n;
    for digit in digits.iter_mut().rev() {
        *digit = b"0123456789abcdef"[(left % 16) as usize];
        left /= 16;
    }
    digits
}

fn assert_hex(rt: &impl Test, n: u32, least: u32)
    requires { (1 ≤ least) × (least ≤ 8) }
{
    let mut text = Vec::new(rt.alloc());
    let is_written = write_hex(&mut text, n, least).is_ok();
    let is_wanted = is_written && is_number(&text, &hex_digits(n), least as usize);
    assert!(rt; is_wanted, "{n} {least}");
}

fn assert_hex_of_each_length(rt: &impl Test, n: u32) {
    for least in 1..=8u32 {
        assert_hex(rt, n, least);
    }
}

/// `write_hex` writes numbers of each length with each least number of digits, 1 to 8.
#[test]
fn hexadecimals_of_each_length(rt: HostRuntime) {
    for bit in 0..32u32 {
        let n = 1u32 << bit;
        assert_hex_of_each_length(&rt, n - 1);
        assert_hex_of_each_length(&rt, n);
        assert_hex_of_each_length(&rt, !n);
    }
    assert_hex_of_each_length(&rt, 0x89ab_cdef);
    assert_hex_of_each_length(&rt, 0x0123_4567);
}

/// From one part to 40, each another one.
static PARTS: [&[u8]; 40] = [
    b"0", b"", b"2,", b"3", b"4", b"five", b"6", b"7\n", b"8", b"", b"10", b"11", b"12", b"13",
    b"14", b"15", b"16", b"17", b"18", b"19", b"20", b"21", b"22", b"23", b"24", b"25", b"26",
    b"27", b"28", b"29", b"30", b"31", b"32", b"33", b"34", b"35", b"36", b"37", b"38", b"39",
];

static JOINED: &[u8] =
    b"02,34five67\n8101112131415161718192021222324252627282930313233343536373839";

/// `write_parts` writes 40 parts.
#[test]
fn forty_parts(rt: HostRuntime) {
    let mut text = Vec::new(rt.alloc());
    assert!(rt; write_parts(&mut text, &PARTS).is_ok());
    assert!(rt; text.as_slice() == JOINED);
}
