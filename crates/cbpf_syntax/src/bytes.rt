//! Classes of bytes, and the runs of them at the front of a text.

ghost use Rattle.std.specs.Prelude.{not, ◌==◌, ◌≡◌, ◌≤◌, length};
ghost use Rattle.std.specs.List.{prefix_len};
ghost use Rattle.cbpf_code.specs.WordTokens.{is_blank};
ghost use Rattle.cbpf_syntax.specs.Bytes.{is_name_byte};
ghost use Rattle.cbpf_syntax.specs.Pieces.{is_line_blank};

use cbpf_code::is_blank;

// A byte maps to itself if it may stand in a name, else to a dot.
static NAME_BYTES: [u8; 256] = *b"\
    ................................\
    ................0123456789......\
    .ABCDEFGHIJKLMNOPQRSTUVWXYZ...._\
    .abcdefghijklmnopqrstuvwxyz.....\
    ................................\
    ................................\
    ................................\
    ................................";

/// An ASCII letter, a digit or `_`.
#[inline(always)]
pub(crate) fn is_name_byte(b: u8) -> bool
    ensures { result ≡ is_name_byte b }
{
    NAME_BYTES[b as usize] != b'.'
}

/// How many bytes at the front may stand in a name.
pub(crate) fn name_len(text: &[u8]) -> usize
    ensures within { result ≤ length text.now }
    ensures run { result ≡ prefix_len is_name_byte text.now }
{
    text.iter().take_while(|b| is_name_byte(**b)).count()
}

/// How many blanks are at the front.
pub(crate) fn blanks_len(text: &[u8]) -> usize
    ensures within { result ≤ length text.now }
    ensures run { result ≡ prefix_len is_blank text.now }
{
    text.iter().take_while(|b| is_blank(**b)).count()
}

/// How many bytes are before the first newline.
pub(crate) fn line_len(text: &[u8]) -> usize
    ensures within { result ≤ length text.now }
    ensures run { result ≡ prefix_len (λ c. not (c == 10)) text.now }
{
    text.iter().take_while(|b| **b != b'\n').count()
}

/// Whether the last line has only blanks.
// It looks from the end: the last newline, or a byte after it that isn't blank, decides.
pub(crate) fn is_line_blank(bytes: &[u8]) -> bool
    ensures { result ≡ is_line_blank bytes.now }
{
    let mut n = bytes.len();
    while n > 0 {
        n -= 1;
        if bytes[n] == b'\n' {
            return true;
        }
        if !is_blank(bytes[n]) {
            return false;
        }
    }
    true
}
