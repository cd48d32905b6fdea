//! Texts go to a writer by these calls alone.

ghost use Rattle.std.specs.Prelude.{◌≤◌, decimal, ◌≡◌, ◌+◌, ◌++◌, [], length};
ghost use Rattle.std.specs.List.{flat_map};
ghost use Rattle.cbpf_code.specs.Writing.{Wrote};
ghost use Rattle.cbpf_code.specs.Text.{hex, with_number};
ghost use Rattle.cbpf_code.specs.declared.writing.TheConstants.{LINE_SIZE};

use itoa::{Buffer, write_digits};
use std::error::Error;
use std::fmt;
use std::io::Write;
use std::marker::Model;

/// A writer failed, or took nothing of a text that was not empty. The bytes that it took are a
/// beginning of the text.
#[derive(Clone, Copy, PartialEq, Eq, Debug)]
pub struct WriteFault;

impl fmt::Display for WriteFault {
    ghost use Rattle.std.specs.Prelude.{Some};
    ghost use Rattle.cbpf_code.specs.Messages.{write_fault};

    ghost output = { λ _. Some write_fault };

    fn fmt<W: fmt::Write>(&self, f: &mut fmt::Formatter<W>) -> fmt::Result {
        f.write_str("write fault")
    }
}

impl Error for WriteFault {}

/// Writes what a first call of `write` left of a text.
#[cold]
#[inline(never)]
#[tactic(auto, using(crate::proofs::WrittenLemmas::steps))]
fn write_rest<W: Write>(w: &mut W, text: &[u8]) -> Result<(), WriteFault>
    ensures { Wrote (W.contents w.old) (W.contents w.new) result text.now }
{
    let mut at = 0;
    while at < text.len() {
        match w.write(&text[at..]) {
            Ok(0) => return Err(WriteFault),
            Ok(n) => at += n,
            Err(_) => return Err(WriteFault),
        }
    }
    Ok(())
}

/// Writes a text whole, by as many calls of `write` as the writer needs.
pub fn write_bytes<W: Write>(w: &mut W, text: &[u8]) -> Result<(), WriteFault>
    ensures { Wrote (W.contents w.old) (W.contents w.new) result text.now }
{
    if text.is_empty() {
        return Ok(());
    }
    // Nearly each text goes out by one call, and so without the loop.
    match w.write(text) {
        Ok(0) => Err(WriteFault),
        Ok(n) if n < text.len() => write_rest(w, &text[n..]),
        Ok(_) => Ok(()),
        Err(_) => Err(WriteFault),
    }
}

/// Writes the parts one after another.
#[tactic(auto, using(crate::proofs::WrittenLemmas::loops))]
pub fn write_parts<W: Write>(w: &mut W, parts: &[&[u8]]) -> Result<(), WriteFault>
    ensures { Wrote (W.contents w.old) (W.contents w.new) result (flat_map (λ p. p.now) parts.now) }
{
    for part in parts {
        write_bytes(w, part)?;
    }
    Ok(())
}

/// Writes a number in decimal, without leading zeros.
pub fn write_decimal<W: Write>(w: &mut W, n: u128) -> Result<(), WriteFault>
    ensures { Wrote (W.contents w.old) (W.contents w.new) result (decimal n) }
{
    let mut buffer = Buffer::new();
    write_bytes(w, buffer.format(n).as_bytes())
}

/// Writes a number in decimal, without leading zeros, between two texts.
pub fn write_with_number<W: Write>(
    w: &mut W,
    before: &[u8],
    n: u64,
    after: &[u8],
) -> Result<(), WriteFault>
    ensures { Wrote (W.contents w.old) (W.contents w.new) result (with_number before.now n after.now) }
{
    let mut number = Buffer::new();
    write_parts(w, &[before, number.format(n).as_bytes(), after])
}

/// Writes a number in lower case hexadecimal, in at least `least` digits, of which there are 1 to 8.
pub fn write_hex<W: Write>(w: &mut W, n: u32, least: u32) -> Result<(), WriteFault>
    requires { (1 ≤ least) × (least ≤ 8) }
    ensures { Wrote (W.contents w.old) (W.contents w.new) result (hex least n) }
{
    let mut line = Line::new();
    line.prepend_hex(n, least);
    line.write(w)
}

/// The most bytes of a `Line`.
pub const LINE_SIZE: usize = 256;

/// A text of at most 256 bytes. What is put stands before what was put so far, so that a line is
/// put from its last part to its first.
#[derive(Drop)]
pub struct Line {
    bytes: [u8; LINE_SIZE],
    at: usize,
}

impl Model for Line {
    ghost use Rattle.std.specs.Prelude.{ℕ, List, ◌≤◌, drop};
    ghost use Rattle.cbpf_code.specs.declared.writing.TheConstants.{LINE_SIZE};

    ghost Value = { List ℕ };

    ghost view = { λ l. drop l.at l.bytes };

    ghost invariant = { λ l. l.at ≤ LINE_SIZE };
}

impl Line {
    /// The empty text.
    #[inline(always)]
    pub fn new() -> Self
        ensures { result ≡ [] }
    {
        Line {
            bytes: [0; LINE_SIZE],
            at: LINE_SIZE,
        }
    }

    /// Puts a text.
    #[inline(always)]
    pub fn prepend(&mut self, text: &[u8])
        requires { length self.old + length text.now ≤ LINE_SIZE }
        ensures text { self.new ≡ text.now ++ self.old }
        ensures grown { length self.new ≡ length self.old + length text.now }
    {
        // Stored once, after the copy.
        let at = self.at - text.len();
        self.bytes[at..self.at].copy_from_slice(text);
        self.at = at;
    }

    /// Puts a number of 64 bits in decimal, which takes at most 20 digits.
    #[inline(always)]
    pub fn prepend_u64(&mut self, n: u64)
        requires { length self.old + 20 ≤ LINE_SIZE }
        ensures text { self.new ≡ decimal n ++ self.old }
        ensures grown { length self.new ≤ length self.old + 20 }
    {
        self.at = write_digits(n, &mut self.bytes, self.at);
    }

    /// Puts a number of 32 bits in decimal, which takes at most 10 digits.
    #[inline(always)]
    pub fn prepend_u32(&mut self, n: u32)
        requires { length self.old + 10 ≤ LINE_SIZE }
        ensures text { self.new ≡ decimal n ++ self.old }
        ensures grown { length self.new ≤ length self.old + 10 }
    {
        self.at = write_digits(n as u64, &mut self.bytes, self.at);
    }

    /// Puts a number in lower case hexadecimal, in at least `least` digits, of which there are at
    /// most 8.
    #[inline(always)]
    pub fn prepend_hex(&mut self, n: u32, least: u32)
        requires few { least ≤ 8 }
        requires room { length self.old + 8 ≤ LINE_SIZE }
        ensures text { self.new ≡ hex least n ++ self.old }
        ensures grown { length self.new ≤ length self.old + 8 }
    {
        let needed = n.max(1).ilog2() / 4 + 1; // four bits a digit
        self.prepend_byte((n % 256) as u8);
        self.prepend_byte((n / 256 % 256) as u8);
        self.prepend_byte((n / 65_536 % 256) as u8);
        self.prepend_byte((n / 16_777_216) as u8);
        self.at += 8 - needed.max(least) as usize;
    }

    /// Puts a byte as two hexadecimal digits, in lower case.
    #[inline(always)]
    #[tactic(auto, using(crate::proofs::HexLemmas::hex_texts))]
    pub fn prepend_byte(&mut self, n: u8)
        requires { length self.old + 2 ≤ LINE_SIZE }
        ensures text { self.new ≡ hex 2 n ++ self.old }
        ensures grown { length self.new ≡ length self.old + 2 }
    {
        let digits = b"0123456789abcdef";
        let n = usize::from(n);
        self.prepend(&[digits[n / 16], digits[n % 16]]);
    }

    /// The text.
    #[inline(always)]
    pub fn as_bytes(&self) -> &[u8]
        ensures { result.now ≡ self.now }
    {
        &self.bytes[self.at..]
    }

    /// Writes the text.
    #[inline(always)]
    pub fn write<W: Write>(&self, w: &mut W) -> Result<(), WriteFault>
        ensures { Wrote (W.contents w.old) (W.contents w.new) result self.now }
    {
        write_bytes(w, self.as_bytes())
    }
}
