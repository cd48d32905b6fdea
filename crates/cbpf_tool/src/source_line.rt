//! A line of a source as it is shown below the fault that names it.

ghost use Rattle.std.specs.Prelude.{◌≡◌, ◌≤◌, ◌+◌, ◌*◌, ◌-◌, ◌++◌, length};
ghost use Rattle.std.specs.List.{flat_map};
ghost use Rattle.cbpf_code.specs.declared.writing.TheConstants.{LINE_SIZE};
ghost use Rattle.cbpf_tool.specs.SourceLine as spec;

use crate::request::position_of;
use cbpf_code::Line;

/// The most bytes of a line that are shown.
const SHOWN: usize = 60;

/// The bytes that are shown before the one in question, where as many follow as are shown at most.
const BEFORE: usize = 20;

/// What stands after a text's first newline.
fn after_newline(text: &[u8]) -> &[u8]
    ensures { result.now ≡ spec.after_newline text.now }
{
    match position_of(text, b'\n') {
        Some(i) => &text[i + 1..],
        None => &[],
    }
}

/// What stands before a text's first newline.
fn before_newline(text: &[u8]) -> &[u8]
    ensures { result.now ≡ spec.before_newline text.now }
{
    match position_of(text, b'\n') {
        Some(i) => &text[..i],
        None => text,
    }
}

/// What stands in a text from this line on.
#[tactic(auto, using(crate::proofs::SourceLineLemmas::newlines))]
fn from_line(text: &[u8], number: u64) -> &[u8]
    ensures { result.now ≡ spec.after_newlines (number - 1) text.now }
{
    let mut rest = text;
    let mut left = number.saturating_sub(1);
    while left > 0 {
        rest = after_newline(rest);
        left -= 1;
    }
    rest
}

/// Puts a byte as it is shown, in at most 4 bytes.
fn prepend_shown(line: &mut Line, b: u8)
    requires room { length line.old + 4 ≤ LINE_SIZE }
    ensures text { line.new ≡ spec.shown_byte b ++ line.old }
    ensures grown { length line.new ≤ length line.old + 4 }
{
    if b == b'\t' || b == b'\r' {
        line.prepend(b" ");
    } else if 32 <= b && b < 127 {
        line.prepend(&[b]);
    } else {
        line.prepend_byte(b);
        line.prepend(b"\\x");
    }
}

/// Puts bytes as they are shown.
fn prepend_all_shown(line: &mut Line, bytes: &[u8])
    requires room { length line.old + 4 * length bytes.now ≤ LINE_SIZE }
    ensures text { line.new ≡ flat_map spec.shown_byte bytes.now ++ line.old }
    ensures grown { length line.new ≤ length line.old + 4 * length bytes.now }
{
    let mut i = bytes.len();
    while i > 0 {
        i -= 1;
        prepend_shown(line, bytes[i]);
    }
}

/// Puts dots where a line is cut.
fn prepend_dots(line: &mut Line, is_cut: bool)
    requires room { length line.old + 3 ≤ LINE_SIZE }
    ensures text { line.new ≡ spec.dots is_cut ++ line.old }
    ensures grown { length line.new ≤ length line.old + 3 }
{
    if is_cut {
        line.prepend(b"...");
    }
}

/// Where the part of a line begins that is shown.
fn shown_from(bytes: &[u8], place: usize) -> usize
    ensures from { result ≡ spec.shown_from bytes.now place }
    ensures within { result ≤ length bytes.now }
{
    place
        .saturating_sub(BEFORE)
        .min(bytes.len().saturating_sub(SHOWN))
}

/// The part of a line from this place on.
fn shown_part(bytes: &[u8], from: usize) -> Line
    requires within { from ≤ length bytes.now }
    ensures { result ≡ spec.shown_part bytes.now from }
{
    let rest = &bytes[from..];
    let mut line = Line::new();
    line.prepend(b"\n");
    prepend_dots(&mut line, rest.len() > SHOWN);
    prepend_all_shown(&mut line, &rest[..rest.len().min(SHOWN)]);
    prepend_dots(&mut line, from > 0);
    line.prepend(b"    ");
    line
}

/// How many bytes of the line of this number stand before a position of the text.
fn column(text: &[u8], number: u64, at: usize) -> usize
    ensures { result ≡ spec.column text.now number at }
{
    from_line(&text[..at.min(text.len())], number).len()
}

/// The line of this number, as it is shown: after four blanks, with its newline. Where it is long, it is cut before and
/// after this position of the text. An empty line is not shown.
pub(crate) fn shown_line(text: &[u8], number: u64, at: usize) -> Line
    ensures { result ≡ spec.shown_line (spec.line_at text.now number) (spec.column text.now number at) }
{
    let bytes = before_newline(from_line(text, number));
    if bytes.is_empty() {
        return Line::new();
    }
    shown_part(bytes, shown_from(bytes, column(text, number, at)))
}
