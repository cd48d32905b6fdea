//! The lines below some faults, with what to do about them.

ghost use Rattle.std.specs.Prelude.{◌≡◌, [], option_map};
ghost use Rattle.cbpf_code.specs.Writing.{Wrote};
ghost use Rattle.cbpf_tool.specs.Hints as spec;

use crate::source_line::shown_line;
use cbpf_code::{Line, WriteFault, write_bytes, write_parts};
use cbpf_text::AsmFault;
use cbpf_why::FilterFault;
use pcap_classic::HeaderFault;
use std::fmt;
use std::io::Write;
use std::marker::Model;

/// What is said below a fault: a line, or nothing.
#[derive(Drop)]
pub struct Hint {
    line: Line,
}

impl Model for Hint {
    ghost use Rattle.std.specs.Prelude.{ℕ, List};

    ghost Value = { List ℕ };

    ghost view = { λ h. h.line };
}

impl fmt::Debug for Hint {
    fn fmt<W: fmt::Write>(&self, f: &mut fmt::Formatter<W>) -> fmt::Result {
        f.write_str("Hint")
    }
}

impl Hint {
    /// Nothing.
    fn none() -> Hint
        ensures { result ≡ [] }
    {
        Hint { line: Line::new() }
    }

    /// Writes the line.
    pub(crate) fn write<W: Write>(&self, w: &mut W) -> Result<(), WriteFault>
        ensures { Wrote (W.contents w.old) (W.contents w.new) result self.now }
    {
        self.line.write(w)
    }
}

/// The line of a fault of a source, which stands at this position.
pub(crate) fn source_hint(text: &[u8], fault: AsmFault, at: usize) -> Hint
    ensures { result ≡ spec.source_hint text.now fault at }
{
    match fault {
        AsmFault::Memory => Hint::none(),
        AsmFault::At(_, line) => Hint {
            line: shown_line(text, line, at),
        },
    }
}

/// Whether a text begins as a capture does.
fn is_capture(text: &[u8]) -> bool
    ensures { result ≡ spec.is_capture text.now }
{
    text.starts_with(b"\xa1\xb2\xc3\xd4")
        || text.starts_with(b"\xd4\xc3\xb2\xa1")
        || text.starts_with(b"\xa1\xb2\x3c\x4d")
        || text.starts_with(b"\x4d\x3c\xb2\xa1")
        || text.starts_with(b"\x0a\x0d\x0d\x0a")
        || text.starts_with(b"\x1f\x8b")
}

/// Below a filter that is a capture.
fn swapped_hint() -> Hint
    ensures { result ≡ spec.swapped_hint }
{
    let mut line = Line::new();
    line.prepend(b"    this is a capture, and FILTER stands before CAPTURE\n");
    Hint { line }
}

/// Below a filter that is refused.
pub(crate) fn filter_hint(text: &[u8], fault: FilterFault) -> Hint
    ensures { result ≡ spec.filter_hint text.now fault }
{
    match fault {
        FilterFault::Source(_, _) if is_capture(text) => swapped_hint(),
        FilterFault::Source(fault, at) => source_hint(text, fault, at),
        _ => Hint::none(),
    }
}

/// The name of a format by its first four bytes, and the command that converts or unpacks such a file.
fn format_of(magic: u32) -> Option<(&'static [u8], &'static [u8])>
    ensures { option_map (λ f. (f.0.now, f.1.now)) result ≡ spec.format_of magic }
{
    if magic == 0x0a0d_0d0a {
        Some((b"pcapng", b"tcpdump -w - -r"))
    } else if magic == 0x28b5_2ffd {
        Some((b"zstd", b"zstd -dc"))
    } else if magic == 0xfd37_7a58 {
        Some((b"xz", b"xz -dc"))
    } else if magic == 0x0422_4d18 {
        Some((b"lz4", b"lz4 -dc"))
    } else if magic / 65_536 == 0x1f8b {
        Some((b"gzip", b"gzip -dc"))
    } else if magic / 256 == 0x42_5a68 {
        Some((b"bzip2", b"bzip2 -dc"))
    } else {
        None
    }
}

/// Writes the line below a capture that is refused, where there is one.
pub(crate) fn write_capture_hint<W: Write>(w: &mut W, fault: HeaderFault) -> Result<(), WriteFault>
    ensures { Wrote (W.contents w.old) (W.contents w.new) result (spec.capture_hint fault) }
{
    let HeaderFault::UnknownMagic(magic) = fault else {
        return write_bytes(w, b"");
    };
    match format_of(magic) {
        Some((name, command)) => write_parts(
            w,
            &[
                b"    this is ",
                name,
                b": ",
                command,
                b" CAPTURE | cbpf why FILTER\n",
            ],
        ),
        None => write_bytes(w, b""),
    }
}
