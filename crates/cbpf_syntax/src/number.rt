//! The values of numbers.

ghost use Rattle.std.specs.Prelude.{◌≡◌, ◌^◌, ◌≤◌, ◌∷◌};
ghost use Rattle.cbpf_syntax.specs.Numbers.{digit_value, number_value, digits_value, some_digits_value, IsCapped};

use cbpf_code::is_digit;

/// The least number that is too large. It stands for all larger ones too.
pub const LIMIT: u64 = 1 << 32;

/// The value of a hexadecimal digit, or 16.
#[tactic(auto, unfolding(crate::specs::Numbers::digit_value))]
fn digit_value(b: u8) -> u8
    ensures { result ≡ digit_value b }
{
    if is_digit(b) {
        b - b'0'
    } else if b >= b'a' && b <= b'f' {
        b - b'a' + 10
    } else if b >= b'A' && b <= b'F' {
        b - b'A' + 10
    } else {
        16
    }
}

/// What digits of the base spell after digits of the value `high`, at most `LIMIT`.
fn digits_value(base: u64, high: u64, bytes: &[u8]) -> Option<u64>
    requires least { 2 ≤ base }
    requires most { base ≤ 16 }
    requires capped { high ≤ 2 ^ 32 }
    ensures { IsCapped result (digits_value base high bytes.now) }
{
    let mut value = high;
    for b in bytes {
        let digit = digit_value(*b) as u64;
        if digit >= base {
            return None;
        }
        value = (value * base + digit).min(LIMIT);
    }
    Some(value)
}

/// The same of at least one digit.
fn some_digits_value(base: u64, bytes: &[u8]) -> Option<u64>
    requires least { 2 ≤ base }
    requires most { base ≤ 16 }
    ensures { IsCapped result (some_digits_value base bytes.now) }
{
    if bytes.is_empty() {
        return None;
    }
    digits_value(base, 0, bytes)
}

/// The number that a numeral spells, at most `LIMIT`.
pub(crate) fn number_value(first: u8, rest: &[u8]) -> Option<u64>
    ensures { IsCapped result (number_value (first ∷ rest.now)) }
{
    if first != b'0' {
        let digit = digit_value(first) as u64;
        return if digit < 10 {
            digits_value(10, digit, rest)
        } else {
            None
        };
    }
    if rest.is_empty() {
        return Some(0);
    }
    let digits = &rest[1..];
    if rest[0] == b'x' {
        some_digits_value(16, digits)
    } else if rest[0] == b'b' {
        some_digits_value(2, digits)
    } else {
        digits_value(8, 0, rest)
    }
}
