//! A capture.

ghost use Rattle.std.specs.Prelude.{◌≡◌, ◌≤◌, ◌<◌, ◌+◌, ◌-◌, ◌/◌, ◌^◌, length, take, drop, slice_get, Some, Ok, IfOk, IfErr};
ghost use Rattle.std.specs.Prelude.{IfSome};
ghost use Rattle.std.specs.Option.{option_map};
ghost use Rattle.pcap_classic.specs.Lent.{record_of};
ghost use Rattle.pcap_classic.specs.Records.{StartsAt, AreNumbered};
ghost use Rattle.pcap_classic.specs.Savefile.{IsSavefile, IsRefusal};

use crate::captured::{Captured, RECORD_HEADER, file_record};
use crate::ending::Ending;
use crate::header::{CaptureFault, FILE_HEADER, FileHeader, header_of};
use crate::index::{Index, index_of, start_of};
use crate::records::Records;
use std::alloc::{Allocator, Global};
use std::marker::Model;

/// A capture: the records of a file in the classic format of pcap-savefile(5), in order.
///
/// It keeps the file's bytes, and the starts of every 64th record.
#[derive(Drop)]
pub struct Capture<A: Allocator = Global> {
    file: Vec<u8, A>,
    header: FileHeader,
    index: Index<A>,
}

impl<A: Allocator> Model for Capture<A> {
    ghost use Rattle.std.specs.Prelude.{◌≡◌, Ok};
    ghost use Rattle.pcap_classic.specs.Index.{IsIndex};
    ghost use Rattle.pcap_classic.specs.Savefile.{Savefile};
    ghost use Rattle.pcap_classic.specs.Contents.{savefile_with, header_of};

    ghost Value = { Savefile };

    ghost view = { λ c. savefile_with c.header c.file.items };

    ghost invariant = { λ c. (header_of c.file.items ≡ Ok c.header) ×
        IsIndex c.header.magic.order c.file.items c.index.count c.index.starts.items c.index.ending };
}

impl<A: Allocator> Capture<A> {
    /// The capture that a file's bytes hold. The bytes are kept, and no record is copied. The index of the records
    /// grows with those that are found. It takes 32 bytes for the first records, and at most 16 for each 64 of many; a
    /// capture without records takes none.
    ///
    /// # Errors
    ///
    /// The first fault of the header that stands, in the order of `HeaderFault`, or `Memory`, with the same bytes.
    pub fn from_bytes(alloc: A, bytes: Vec<u8, A>) -> Result<Capture<A>, (CaptureFault, Vec<u8, A>)>
        ensures capture { IfOk result (λ c. IsSavefile bytes.items c) }
        ensures refused { IfErr result (λ e. IsRefusal e.0 bytes.items) }
        ensures handed_back { IfErr result (λ e. e.1 ≡ bytes) }
    {
        let header = match header_of(bytes.as_slice()) {
            Ok(header) => header,
            Err(fault) => return Err((CaptureFault::Header(fault), bytes)),
        };
        match index_of(alloc, header.magic.order, bytes.as_slice()) {
            Ok(index) => Ok(Capture {
                file: bytes,
                header,
                index,
            }),
            Err(_) => Err((CaptureFault::Memory, bytes)),
        }
    }

    /// The same, where the bytes are dropped if they are refused, so that `?` takes the fault.
    ///
    /// # Errors
    ///
    /// Those of [`Capture::from_bytes`].
    pub fn new(alloc: A, bytes: Vec<u8, A>) -> Result<Capture<A>, CaptureFault>
        ensures capture { IfOk result (λ c. IsSavefile bytes.items c) }
        ensures refused { IfErr result (λ e. IsRefusal e bytes.items) }
    {
        Capture::from_bytes(alloc, bytes).map_err(|refused| refused.0)
    }

    /// The number of records.
    #[inline(always)]
    pub fn count(&self) -> u64
        ensures value { result ≡ length self.now.records }
        ensures bounded { result < 2 ^ 60 }
    {
        self.index.count
    }

    /// Whether the fractions of time stamps are nanoseconds, and not microseconds.
    #[inline]
    pub fn nanos(&self) -> bool
        ensures { result ≡ self.now.nanos }
    {
        self.header.magic.nanos
    }

    /// The link type, as it stands in the file.
    #[inline]
    pub fn link(&self) -> u32
        ensures { result ≡ self.now.link }
    {
        self.header.link
    }

    /// How the file ends after the last record.
    #[inline]
    pub fn ending(&self) -> Ending
        ensures { result ≡ self.now.ending }
    {
        self.index.ending
    }

    /// How many starts of records are kept: those of the records 1, 65, 129 and so on.
    #[inline]
    pub fn marks(&self) -> usize
        ensures { result ≡ (length self.now.records + 63) / 64 }
    {
        self.index.starts.len()
    }

    /// Where record `n`, counted from 1, starts in the file: the byte offset of its header, or any offset where there is
    /// no such record. It takes time for up to 63 records before it.
    #[inline]
    pub fn start_of(&self, n: u64) -> usize
        requires { 1 ≤ n }
        ensures { StartsAt self.now.records n result }
    {
        if n > self.index.count {
            return FILE_HEADER;
        }
        let order = self.header.magic.order;
        start_of(order, self.file.as_slice(), self.index.starts.as_slice(), n)
    }

    /// Record `n`, counted from 1. It takes time for up to 63 records before it.
    #[inline]
    pub fn item(&self, n: u64) -> Captured<'_>
        requires from_one { 1 ≤ n }
        requires within { n ≤ length self.now.records }
        ensures record { slice_get self.now.records (n - 1) ≡ Some (record_of result) }
        ensures number { result.number ≡ n }
    {
        self.item_at(n, self.start_of(n))
    }

    /// Record `n`, counted from 1, given where it starts, as [`Capture::start_of`] says. It goes over no other header.
    #[inline]
    pub fn item_at(&self, n: u64, start: usize) -> Captured<'_>
        requires from_one { 1 ≤ n }
        requires within { n ≤ length self.now.records }
        requires there { StartsAt self.now.records n start }
        ensures record { slice_get self.now.records (n - 1) ≡ Some (record_of result) }
        ensures number { result.number ≡ n }
    {
        file_record(self.header.magic.order, self.file.as_slice(), n, start)
    }

    /// All records, in order. Record `n`, counted from 1, has number `n`.
    #[inline]
    pub fn iter(&self) -> Records<'_>
        ensures all { result ≡ self.now.records }
        ensures numbered { AreNumbered 0 self.now.records }
    {
        self.records(1, self.index.count + 1)
    }

    /// The records from number `from` on, counted from 1, up to the one before number `end`, or to the last. It takes
    /// time for up to 63 records before the first.
    #[inline]
    pub fn records(&self, from: u64, end: u64) -> Records<'_>
        requires { 1 ≤ from }
        ensures { result ≡ drop (from - 1) (take (end - 1) self.now.records) }
    {
        self.records_at(from, self.start_of(from), end)
    }

    /// The same, given where record `from` starts, if there is one. It goes over no header.
    #[inline]
    pub fn records_at(&self, from: u64, start: usize, end: u64) -> Records<'_>
        requires from_one { 1 ≤ from }
        requires there { StartsAt self.now.records from start }
        ensures { result ≡ drop (from - 1) (take (end - 1) self.now.records) }
    {
        let end = end.min(self.index.count + 1);
        Records {
            order: self.header.magic.order,
            file: self.file.as_slice(),
            offset: start,
            number: from.min(end),
            end,
        }
    }

    /// The record after `item`, which is one of this capture, or `None` after the last.
    #[inline(always)]
    pub fn following(&self, item: &Captured<'_>) -> Option<Captured<'_>>
        requires { slice_get self.now.records (item.now.number - 1) ≡ Some (record_of item.now) }
        ensures record { option_map record_of result ≡ slice_get self.now.records item.now.number }
        ensures number { IfSome result (λ next. next.number ≡ item.now.number + 1) }
    {
        if item.number == self.index.count {
            return None;
        }
        let order = self.header.magic.order;
        let offset = item.start + RECORD_HEADER + item.bytes.len();
        Some(file_record(order, self.file.as_slice(), item.number + 1, offset))
    }
}

impl<'a, A: Allocator> IntoIterator for &'a Capture<A> {
    type Item = Captured<'a>;

    type IntoIter = Records<'a>;

    ghost use Rattle.std.specs.Prelude.{◌≡◌};
    ghost use Rattle.pcap_classic.specs.Records.{AreNumbered};

    ghost into_iter_gives = { λ capture all. (all ≡ capture.now.records) × AreNumbered 0 capture.now.records };

    #[inline]
    fn into_iter(self) -> Records<'a> {
        self.iter()
    }
}
