//! A record, borrowed from a capture.

ghost use Rattle.std.specs.Prelude.{◌≡◌, ◌≤◌, ◌+◌, ◌-◌, length, slice_get, Some};
ghost use Rattle.pcap_classic.specs.Index.{IsRecordStart};
ghost use Rattle.pcap_classic.specs.Lent.{record_of};
ghost use Rattle.pcap_classic.specs.FileNumbers.{number_at};
ghost use Rattle.pcap_classic.specs.Records as records;
ghost use Rattle.pcap_classic.specs.Contents as spec;
ghost use Rattle.pcap_classic.specs.declared.captured.TheConstants.{RECORD_HEADER};

use byteorder::{BigEndian, ByteOrder, LittleEndian};

/// A record of a capture.
#[derive(Clone, Copy, Debug, PartialEq, Eq)]
pub struct Captured<'a> {
    /// The number of the record, counted from 1.
    pub number: u64,
    /// The byte offset of the record's header in the file, counted from 0.
    pub start: usize,
    /// The time stamp's seconds, as they stand in the file.
    pub seconds: u32,
    /// The time stamp's microseconds or nanoseconds, as they stand in the file.
    pub fraction: u32,
    /// The length that the packet had, in bytes. It is mostly at least what was captured, but nobody checks the file,
    /// so it may also be less.
    pub wire: u32,
    /// The bytes that were captured.
    pub bytes: &'a [u8],
}

/// The record that the bytes begin with, and that stands at this offset of the file.
#[inline(always)]
pub(crate) fn front_record(
    order: Endianness,
    number: u64,
    start: usize,
    bytes: &[u8],
) -> Captured<'_>
    requires header { RECORD_HEADER ≤ length bytes.now }
    requires whole { records.record_length order bytes.now ≤ length bytes.now }
    ensures { record_of result ≡ records.record_at order number start bytes.entry.now }
{
    let length = record_length(order, bytes);
    Captured {
        number,
        start,
        seconds: order.read_u32(bytes, 0),
        fraction: order.read_u32(bytes, 4),
        wire: order.read_u32(bytes, 12),
        bytes: &bytes[RECORD_HEADER..length],
    }
}

/// Record `number` of a file, counted from 1, whose header stands at `start`.
#[inline(always)]
pub(crate) fn file_record(order: Endianness, file: &[u8], number: u64, start: usize) -> Captured<'_>
    requires from_one { 1 ≤ number }
    requires within { number ≤ length (spec.contents order file.now).records }
    requires there { IsRecordStart order file.now (number - 1) start }
    ensures record { slice_get (spec.contents order file.entry.now).records (number - 1) ≡ Some (record_of result) }
    ensures number { result.number ≡ number }
{
    front_record(order, number, start, &file[start..])
}

/// The length of a record's header in bytes.
pub(crate) const RECORD_HEADER: usize = 16;

/// How much of a record some bytes begin with.
#[derive(Clone, Copy)]
pub(crate) enum Extent {
    /// There are no bytes.
    Nothing,
    /// There are fewer bytes than a record's header has.
    PartOfHeader,
    /// There is a record's header with fewer bytes after it than its captured length says.
    PartOfData,
    /// A record of this length, with its header.
    WholeRecord(usize),
}

/// The length of a record in bytes, with its header, by its captured length.
#[inline(always)]
pub(crate) fn record_length(order: Endianness, bytes: &[u8]) -> usize
    requires { RECORD_HEADER ≤ length bytes.now }
    ensures { result ≡ records.record_length order bytes.now }
{
    RECORD_HEADER + order.read_u32(bytes, 8) as usize
}

#[inline(always)]
pub(crate) fn extent_of(order: Endianness, bytes: &[u8]) -> Extent
    ensures { result ≡ spec.extent_of order bytes.now }
{
    if bytes.is_empty() {
        return Extent::Nothing;
    }
    if bytes.len() < RECORD_HEADER {
        return Extent::PartOfHeader;
    }
    let length = record_length(order, bytes);
    if bytes.len() < length {
        Extent::PartOfData
    } else {
        Extent::WholeRecord(length)
    }
}

/// The order in which the bytes of a number stand.
#[derive(Clone, Copy)]
pub(crate) enum Endianness {
    /// The highest byte stands first.
    Big,
    /// The lowest byte stands first.
    Little,
}

impl Endianness {
    /// The number in the two bytes from an offset on.
    #[tactic(auto, unfolding(crate::specs::FileNumbers::number_at))]
    #[inline]
    pub(crate) fn read_u16(self, bytes: &[u8], offset: usize) -> u16
        requires { offset + 2 ≤ length bytes.now }
        ensures { result ≡ number_at self offset 2 bytes.now }
    {
        match self {
            Endianness::Big => BigEndian::read_u16(&bytes[offset..]),
            Endianness::Little => LittleEndian::read_u16(&bytes[offset..]),
        }
    }

    /// The number in the four bytes from an offset on.
    #[tactic(auto, unfolding(crate::specs::FileNumbers::number_at))]
    #[inline(always)]
    pub(crate) fn read_u32(self, bytes: &[u8], offset: usize) -> u32
        requires { offset + 4 ≤ length bytes.now }
        ensures { result ≡ number_at self offset 4 bytes.now }
    {
        match self {
            Endianness::Big => BigEndian::read_u32(&bytes[offset..]),
            Endianness::Little => LittleEndian::read_u32(&bytes[offset..]),
        }
    }
}
