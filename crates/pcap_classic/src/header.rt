//! The header of a capture file, or why there is none.

ghost use Rattle.std.specs.Prelude.{◌≡◌, ◌≤◌, length};
ghost use Rattle.pcap_classic.specs.Contents as spec;
ghost use Rattle.pcap_classic.specs.Messages.{capture_message, header_message};

use crate::captured::Endianness;
use std::error::Error;
use std::fmt;

/// The length of a file header in bytes.
pub(crate) const FILE_HEADER: usize = 24;

const MICROS: u32 = 0xa1b2_c3d4;

const NANOS: u32 = 0xa1b2_3c4d;

/// Why some bytes have no header of a capture: the first of these reasons that stands.
#[derive(Clone, Copy, Debug, PartialEq, Eq)]
pub enum HeaderFault {
    /// P1: there are fewer than 24 bytes, the length of a file header.
    FileHeaderCut,
    /// P2: the first four bytes, which this is as a number with the highest byte first, are neither 0xa1b2c3d4 nor
    /// 0xa1b23c4d, in either byte order.
    UnknownMagic(u32),
    /// P3: the version is not 2.4.
    UnknownVersion,
}

impl HeaderFault {
    /// What the program prints of it after `error: ` or `cbpf: `.
    pub fn message(&self) -> &'static str
        ensures { result.now ≡ header_message self.now }
    {
        match *self {
            HeaderFault::FileHeaderCut => "P1 file header is cut",
            HeaderFault::UnknownMagic(_) => "P2 unknown magic",
            HeaderFault::UnknownVersion => "P3 version is not 2.4",
        }
    }
}

impl fmt::Display for HeaderFault {
    ghost use Rattle.std.specs.Prelude.{Some};
    ghost use Rattle.pcap_classic.specs.Messages.{header_message};

    ghost output = { λ fault. Some (header_message fault) };

    fn fmt<W: fmt::Write>(&self, f: &mut fmt::Formatter<W>) -> fmt::Result {
        f.write_str(self.message())
    }
}

impl Error for HeaderFault {}

/// Why some bytes are no capture.
#[derive(Clone, Copy, Debug, PartialEq, Eq)]
pub enum CaptureFault {
    /// They have no header of one.
    Header(HeaderFault),
    /// Out of memory for the index of the records. The bytes are a capture.
    Memory,
}

impl CaptureFault {
    /// What the program prints of it after `error: `.
    pub fn message(&self) -> &'static str
        ensures { result.now ≡ capture_message self.now }
    {
        match self {
            CaptureFault::Header(fault) => fault.message(),
            CaptureFault::Memory => "out of memory",
        }
    }
}

impl fmt::Display for CaptureFault {
    ghost use Rattle.std.specs.Prelude.{Some};
    ghost use Rattle.pcap_classic.specs.Messages.{capture_message};

    ghost output = { λ fault. Some (capture_message fault) };

    fn fmt<W: fmt::Write>(&self, f: &mut fmt::Formatter<W>) -> fmt::Result {
        f.write_str(self.message())
    }
}

impl Error for CaptureFault {}

/// What the magic number of a file says.
#[derive(Clone, Copy)]
pub(crate) struct Magic {
    pub(crate) order: Endianness,
    /// Whether time stamps have fractions in nanoseconds, and not microseconds.
    pub(crate) nanos: bool,
}

#[derive(Clone, Copy)]
pub(crate) struct FileHeader {
    pub(crate) magic: Magic,
    pub(crate) link: u32,
}

fn magic_of(file: &[u8]) -> Option<Magic>
    requires { 4 ≤ length file.now }
    ensures { result ≡ spec.magic_of file.now }
{
    let big = Endianness::Big.read_u32(file, 0);
    let little = Endianness::Little.read_u32(file, 0);
    let (order, nanos) = if big == MICROS {
        (Endianness::Big, false)
    } else if big == NANOS {
        (Endianness::Big, true)
    } else if little == MICROS {
        (Endianness::Little, false)
    } else if little == NANOS {
        (Endianness::Little, true)
    } else {
        return None;
    };
    Some(Magic { order, nanos })
}

fn is_version_2_4(order: Endianness, file: &[u8]) -> bool
    requires { 8 ≤ length file.now }
    ensures { result ≡ spec.is_version_2_4 order file.now }
{
    order.read_u16(file, 4) == 2 && order.read_u16(file, 6) == 4
}

pub(crate) fn header_of(file: &[u8]) -> Result<FileHeader, HeaderFault>
    ensures { result ≡ spec.header_of file.now }
{
    if file.len() < FILE_HEADER {
        return Err(HeaderFault::FileHeaderCut);
    }
    let Some(magic) = magic_of(file) else {
        return Err(HeaderFault::UnknownMagic(Endianness::Big.read_u32(file, 0)));
    };
    if !is_version_2_4(magic.order, file) {
        return Err(HeaderFault::UnknownVersion);
    }
    let link = magic.order.read_u32(file, 20);
    Ok(FileHeader { magic, link })
}
