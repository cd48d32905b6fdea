//! How a capture ends.

ghost use Rattle.std.specs.Prelude.{◌≡◌};
ghost use Rattle.pcap_classic.specs.Index as spec;

use crate::captured::Extent;

/// How a capture ends after its last whole record.
#[derive(Clone, Copy, Debug, PartialEq, Eq)]
pub enum Ending {
    /// Nothing is left.
    Whole,
    /// 1 to 15 bytes are left, fewer than a record's header has. They begin at this byte offset of the
    /// file, counted from 0.
    CutHeader(usize),
    /// The header of a record is left, with fewer bytes after it than its captured length says. It
    /// begins at this byte offset of the file, counted from 0.
    CutData(usize),
}

/// How the file ends where no whole record stands at `offset`, but so much of one.
pub(crate) fn ending_by(extent: Extent, offset: usize) -> Ending
    ensures { result ≡ spec.ending_by extent offset }
{
    match extent {
        Extent::PartOfHeader => Ending::CutHeader(offset),
        Extent::PartOfData => Ending::CutData(offset),
        _ => Ending::Whole,
    }
}
