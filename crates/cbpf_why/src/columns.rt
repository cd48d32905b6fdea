//! Columns of reports.

ghost use Rattle.std.specs.Prelude.{◌≡◌, ◌<◌, ◌≤◌, ◌+◌, ◌++◌, [], decimal, length};
ghost use Rattle.cbpf_code.specs.Listing.{head};
ghost use Rattle.cbpf_code.specs.Text.{spaces};
ghost use Rattle.cbpf_code.specs.declared.writing.TheConstants.{LINE_SIZE};
ghost use Rattle.cbpf_why.specs.Columns as spec;

use cbpf_code::{Line, Program, prepend_line};
use std::alloc::Allocator;

/// Puts so many blanks, of which there are at most 77.
#[inline(always)]
fn prepend_blanks(line: &mut Line, n: usize)
    requires few { n ≤ 77 }
    requires room { length line.old + n ≤ LINE_SIZE }
    ensures text { line.new ≡ spaces n ++ line.old }
    ensures grown { length line.new ≡ length line.old + n }
{
    line.prepend(&[b' '; 77][..n]);
}

/// How long the label of the instruction at index `i` is, with the tab.
fn label_length(i: u32) -> usize
    ensures { result ≡ length (head i []) }
{
    let mut label = Line::new();
    label.prepend(b":\t");
    label.prepend_u32(i);
    label.prepend(b"l");
    label.as_bytes().len()
}

/// How long the instruction at index `i` is after its label.
fn length_at<A: Allocator>(p: &Program<A>, i: u32) -> usize
    requires { i < length p.now }
    ensures value { result ≡ spec.length_at p.now i }
    ensures few { result ≤ 77 }
{
    let mut line = Line::new();
    prepend_line(&mut line, p, i);
    line.as_bytes().len().saturating_sub(label_length(i))
}

/// The length of a program's longest instruction, which the lines of reports have room for.
#[tactic(auto, using(crate::proofs::ColumnLemmas::lengths), unfolding(crate::specs::Columns::longest))]
pub(crate) fn longest<A: Allocator>(p: &Program<A>) -> usize
    ensures { spec.IsLongest result p.now }
{
    let mut longest = 0;
    for i in 0..p.len() {
        longest = longest.max(length_at(p, i));
    }
    longest
}

/// Puts the line of the instruction at index `i`, filled up to a length, in at most 154 bytes.
pub(crate) fn prepend_filled<A: Allocator>(line: &mut Line, p: &Program<A>, i: u32, long: usize)
    requires inside { i < length p.now }
    requires few { long ≤ 77 }
    requires room { length line.old + 154 ≤ LINE_SIZE }
    ensures text { line.new ≡ spec.filled_line p.now long i ++ line.old }
    ensures grown { length line.new ≤ length line.old + 154 }
{
    prepend_blanks(line, long.saturating_sub(length_at(p, i)));
    prepend_line(line, p, i);
}

/// How many digits a number has.
pub(crate) fn digits_of(n: u64) -> usize
    ensures value { result ≡ length (decimal n) }
    ensures few { result ≤ 20 }
{
    let mut line = Line::new();
    line.prepend_u64(n);
    line.as_bytes().len()
}

/// Puts a number right in so many columns, of which there are at most 20.
pub(crate) fn prepend_right(line: &mut Line, n: u64, wide: usize)
    requires few { wide ≤ 20 }
    requires room { length line.old + 20 ≤ LINE_SIZE }
    ensures text { line.new ≡ spec.right_text wide n ++ line.old }
    ensures grown { length line.new ≤ length line.old + 20 }
{
    let before = line.as_bytes().len();
    line.prepend_u64(n);
    let digits = line.as_bytes().len() - before;
    prepend_blanks(line, wide.saturating_sub(digits));
}
