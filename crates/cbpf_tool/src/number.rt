//! Numbers in a line.

ghost use Rattle.std.specs.Prelude.{◌≡◌, ◌-◌, ◌^◌, ◌≤◌, pos, option_map};
ghost use Rattle.cbpf_tool.specs.Numbers as spec;

use cbpf_code::is_digit;

/// The decimal number that a word spells, of those up to `most`. Zeros may stand in front, as many as
/// there are.
#[tactic(auto, using(crate::proofs::NumberLemmas::numbers))]
pub(crate) fn number_up_to(word: &[u8], most: u64) -> Option<u64>
    ensures { result ≡ spec.number_up_to most word.now }
{
    if word.is_empty() {
        return None;
    }
    let mut value = 0u64;
    for b in word {
        if !is_digit(*b) {
            return None;
        }
        value = value.checked_mul(10)?.checked_add(u64::from(*b - b'0'))?;
    }
    if value <= most { Some(value) } else { None }
}

/// The same of 32 bits.
pub(crate) fn number_32(word: &[u8]) -> Option<u32>
    ensures { result ≡ spec.number_up_to (2 ^ 32 - 1) word.now }
{
    Some(number_up_to(word, u64::from(u32::MAX))? as u32)
}

/// The same up to 9223372036854775807.
fn number_63(word: &[u8]) -> Option<i64>
    ensures { result ≡ option_map pos (spec.number_up_to (2 ^ 63 - 1) word.now) }
{
    Some(number_up_to(word, i64::MAX as u64)? as i64)
}

/// The number that a word spells with or without a sign in front, of at most 9223372036854775807 and
/// at least the same below 0. So its negation is a number too.
pub(crate) fn signed_number(word: &[u8]) -> Option<i64>
    ensures { result ≡ spec.signed_number (2 ^ 63 - 1) word.now }
{
    match word {
        [b'+', digits @ ..] => number_63(digits),
        [b'-', digits @ ..] => Some(-number_63(digits)?),
        digits => number_63(digits),
    }
}

/// The least number above 32 bits, which stands for all greater ones too.
pub(crate) const LIMIT: u64 = 1 << 32;

/// What digits of a base spell, at most `LIMIT`.
fn digits_value(base: u32, digits: &[u8]) -> Option<u64>
    requires least { 2 ≤ base }
    requires most { base ≤ 16 }
    ensures { spec.IsCapped result (spec.digits_value base 0 digits.now) }
{
    let mut value = 0u64;
    for b in digits {
        let digit = char::from(*b).to_digit(base)?;
        value = (value * u64::from(base) + u64::from(digit)).min(LIMIT);
    }
    Some(value)
}

/// The same of at least one digit.
fn some_digits_value(base: u32, digits: &[u8]) -> Option<u64>
    requires least { 2 ≤ base }
    requires most { base ≤ 16 }
    ensures { spec.IsCapped result (spec.some_digits_value base digits.now) }
{
    if digits.is_empty() {
        return None;
    }
    digits_value(base, digits)
}

/// The number that a word spells, decimal or hexadecimal after `0x`, at most `LIMIT`.
pub(crate) fn numeral_value(word: &[u8]) -> Option<u64>
    ensures { spec.IsCapped result (spec.numeral_value word.now) }
{
    match word {
        [b'0', b'x', digits @ ..] => some_digits_value(16, digits),
        digits => some_digits_value(10, digits),
    }
}
