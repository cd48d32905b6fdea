//! A capture that is read record by record.

ghost use Rattle.std.specs.Prelude.{◌≡◌, ◌≢◌, ◌<◌, ◌≤◌, length, true, Ok, Some, None, IfSome, IfNone, IsSomeAnd, IfOk, OnOk, IfErr, IsErrOf};
ghost use Rattle.std.specs.Borrow.{sem};
ghost use Rattle.std.specs.Option.{MatchOption};
ghost use Rattle.std.specs.Io.BufRead.{Rests};
ghost use Rattle.std.specs.Io.KnownBytes.{Keeps, IsAtEnd, prepend_known};
ghost use Rattle.pcap_classic.specs.Records as records;
ghost use Rattle.pcap_classic.specs.Savefile.{IsSavefile};
ghost use Rattle.pcap_classic.specs.Contents as spec;
ghost use Rattle.pcap_classic.specs.Reading.{Proceeds, Gives, HasRecord, IsOpenFault};
ghost use Rattle.pcap_classic.specs.declared.captured.{Extent.TheVariants.WholeRecord, TheConstants.RECORD_HEADER};
ghost use Rattle.pcap_classic.specs.declared.reading.ReadFault.TheVariants.{Memory};
ghost use Rattle.pcap_classic.specs.declared.window.TheConstants.{ROOM};

use crate::captured::{
    Captured, Endianness, Extent, RECORD_HEADER, extent_of, front_record, record_length,
};
use crate::ending::{Ending, ending_by};
use crate::header::{FILE_HEADER, FileHeader, header_of};
use crate::reading::{OpenFault, ReadFault};
use crate::window::Window;
use std::alloc::{Allocator, Global};
use std::io::Read;
use std::marker::Model;

/// How many bytes a record needs at least, where fewer stand there; `None` where a whole record does.
#[inline(always)]
fn needed(order: Endianness, bytes: &[u8]) -> Option<usize>
    ensures none { IfNone result (spec.extent_of order bytes.now ≡ WholeRecord (records.record_length order bytes.now)) }
    ensures more { IfSome result (λ size. length bytes.now < size) }
    ensures whole { IfSome result (λ size. RECORD_HEADER ≤ length bytes.now
        → size ≡ records.record_length order bytes.now) }
{
    if bytes.len() < RECORD_HEADER {
        return Some(RECORD_HEADER);
    }
    let length = record_length(order, bytes);
    if bytes.len() < length {
        Some(length)
    } else {
        None
    }
}

/// Reads until so many bytes are there, or the reader is at its end.
fn fill<R: Read, A: Allocator>(
    window: &mut Window<A>,
    reader: &mut R,
    size: usize,
) -> Result<(), ReadFault>
    ensures kept { Keeps (prepend_known window.old.bytes (R.remaining reader.old))
        (prepend_known window.new.bytes (R.remaining reader.new)) }
    ensures place { window.new.offset ≡ window.old.offset }
    ensures end { OnOk result (length window.new.bytes < size → IsAtEnd (R.remaining reader.new)) }
{
    'reads: while window.as_slice().len() < size {
        if !window.read(reader, size)? {
            return Ok(());
        }
    }
    Ok(())
}

/// Reads until a whole record is in front, or the reader is at its end.
fn fill_record<R: Read, A: Allocator>(
    window: &mut Window<A>,
    reader: &mut R,
    order: Endianness,
) -> Result<(), ReadFault>
    ensures kept { Keeps (prepend_known window.old.bytes (R.remaining reader.old))
        (prepend_known window.new.bytes (R.remaining reader.new)) }
    ensures place { window.new.offset ≡ window.old.offset }
    ensures end { OnOk result (spec.extent_of order window.new.bytes ≢ WholeRecord (records.record_length order window.new.bytes)
        → IsAtEnd (R.remaining reader.new)) }
    ensures refused { IsErrOf result Memory → (ROOM ≤ length window.new.bytes)
        × (length window.new.bytes < records.record_length order window.new.bytes) }
{
    'reads: while let Some(size) = needed(order, window.as_slice()) {
        if !window.read(reader, size)? {
            return Ok(());
        }
    }
    Ok(())
}

/// A capture that is read record by record, from any reader, in the classic format of pcap-savefile(5).
///
/// It holds the record that it lent last, and what was read after it. It has room for 128 kB. A longer record gets more
/// room as its bytes come: for twice those that came, and for no more than the record. The length that a record claims
/// asks for no room.
///
/// A read asks for as many bytes as there is room for, so a file of many records takes few reads. It is made only where
/// bytes of the next record are missing, so a record of a pipe is lent as soon as it came.
#[derive(Drop)]
pub struct CaptureReader<R: Read, A: Allocator = Global> {
    reader: R,
    header: FileHeader,
    /// The bytes from the last record on, or after it.
    window: Window<A>,
    /// The length of the last record, where its bytes are still there, and else 0.
    last: usize,
    /// The number of records that were read.
    count: u64,
    ending: Option<Ending>,
}

impl<R: Read, A: Allocator> Model for CaptureReader<R, A> {
    ghost use Rattle.std.specs.Prelude.{◌+◌, ◌*◌, ◌≤◌, length, drop};
    ghost use Rattle.std.specs.Option.{option_map};
    ghost use Rattle.std.specs.Io.KnownBytes.{prepend_known};
    ghost use Rattle.pcap_classic.specs.Contents.{savefile_from};
    ghost use Rattle.pcap_classic.specs.Reading.{NoneLeftWhere, Reading};
    ghost use Rattle.pcap_classic.specs.declared.captured.TheConstants.{RECORD_HEADER};
    ghost use Rattle.pcap_classic.specs.declared.header.TheConstants.{FILE_HEADER};

    ghost Value = { Reading };

    ghost view = { λ r. record {
      count = r.count;
      ended = r.ending;
      left = option_map (savefile_from r.header (r.count + 1) (r.window.offset + r.last))
          (prepend_known (drop r.last r.window.bytes) (R.remaining r.reader));
    } };

    ghost invariant = { λ r. (r.last ≤ length r.window.bytes)
        × (RECORD_HEADER * r.count + FILE_HEADER ≤ r.window.offset + r.last)
        × NoneLeftWhere r.ending r.header.magic.order (drop r.last r.window.bytes) };
}

impl<R: Read, A: Allocator> CaptureReader<R, A> {
    ghost use Rattle.pcap_classic.specs.contracts.capture_reader.CaptureReader.{the_row};

    /// Reads the header of a capture. The allocator is asked for 128 kB.
    ///
    /// # Errors
    ///
    /// `Header` with the first of P1, P2 and P3 that stands, or `Read`. The bytes that were read are lost, at most 128 kB.
    pub fn new(alloc: A, reader: R) -> Result<CaptureReader<R, A>, OpenFault>
    where
        R: Drop,
        ensures capture { IfOk result (λ c. IfSome (R.remaining reader)
            (λ file. IsSomeAnd c.left (IsSavefile file))) }
        ensures refused { IfSome (R.remaining reader) (λ file. IfErr result (IsOpenFault file)) }
        ensures count { IfOk result (λ c. c.count ≡ 0) }
        ensures ended { IfOk result (λ c. c.ended ≡ None) }
    {
        let mut reader = reader;
        let Ok(mut window) = Window::new(alloc) else {
            return Err(OpenFault::Read(ReadFault::Memory));
        };
        if let Err(fault) = fill(&mut window, &mut reader, FILE_HEADER) {
            return Err(OpenFault::Read(fault));
        }
        let header = match header_of(window.as_slice()) {
            Ok(header) => header,
            Err(fault) => return Err(OpenFault::Header(fault)),
        };
        window.take(FILE_HEADER);
        Ok(CaptureReader {
            reader,
            header,
            window,
            last: 0,
            count: 0,
            ending: None,
        })
    }

    /// Whether the fractions of time stamps are nanoseconds, and not microseconds.
    #[inline]
    pub fn nanos(&self) -> bool
        ensures { IfSome self.now.left (λ c. result ≡ c.nanos) }
    {
        self.header.magic.nanos
    }

    /// The link type, as it stands in the file.
    #[inline]
    pub fn link(&self) -> u32
        ensures { IfSome self.now.left (λ c. result ≡ c.link) }
    {
        self.header.link
    }

    /// Whether the bytes of a whole next record were read, so that `next_record` lends it without a read.
    #[inline]
    pub fn has_next(&self) -> bool
        ensures { result ≡ true → IfSome self.now.left HasRecord }
    {
        needed(
            self.header.magic.order,
            &self.window.as_slice()[self.last..],
        )
        .is_none()
    }

    /// The next record, which is lent until the reader is used again; `None` after the last whole one.
    ///
    /// What the clause says of `new` holds of the reader once the record that was lent is given back.
    ///
    /// After `None` nothing has to be read again, and [`CaptureReader::ending`] says how the capture ends. A further call
    /// makes one more read, which waits where the source can still give bytes, as a terminal or a socket can. Where a
    /// source has grown meanwhile, as a file that is still written, the call goes on with the record that was cut or with
    /// the next one.
    ///
    /// # Errors
    ///
    /// A read failed, or a record longer than 128 kB, or one that is cut, found no memory. No byte is lost: the next call
    /// goes on with the same record. No read is tried again by itself, so `Interrupted` is the caller's.
    pub fn next_record(&mut self) -> Result<Option<Captured<'_>>, ReadFault>
        ensures* { sem 𝓛 (Rests (the_row R.row A.row R.Read A.Allocator) self.entry
            (λ new. Proceeds self.old.count result new × IfSome self.old.left (λ c. Gives c result new))) }
    {
        self.window.take(self.last);
        self.last = 0;
        self.ending = None;
        let order = self.header.magic.order;
        if let Err(fault) = fill_record(&mut self.window, &mut self.reader, order) {
            return Err(fault);
        }
        let extent = extent_of(order, self.window.as_slice());
        let start = self.window.offset();
        if let Extent::WholeRecord(size) = extent {
            self.last = size;
            self.count += 1;
            let bytes = self.window.as_slice();
            return Ok(Some(front_record(order, self.count, start, bytes)));
        }
        self.ending = Some(ending_by(extent, start));
        Ok(None)
    }

    /// The next record, lent as [`CaptureReader::next_record`] lends it, where its bytes were read already; else `None`.
    ///
    /// Nothing is read. After `None` the reader is as it was, and `next_record` reads on.
    #[inline(always)]
    pub fn next_buffered(&mut self) -> Option<Captured<'_>>
        ensures* { sem 𝓛 (Rests (the_row R.row A.row R.Read A.Allocator) self.entry
            (λ new. MatchOption result (new ≡ self.old) (λ item. Proceeds self.old.count (Ok (Some item)) new
            × IfSome self.old.left (λ c. Gives c (Ok (Some item)) new)))) }
    {
        let order = self.header.magic.order;
        let Extent::WholeRecord(size) = extent_of(order, &self.window.as_slice()[self.last..])
        else {
            return None;
        };
        self.window.take(self.last);
        let start = self.window.offset();
        self.last = size;
        self.count += 1;
        Some(front_record(order, self.count, start, self.window.as_slice()))
    }

    /// How many records were read. The numbers of the records that are left go on from there.
    #[inline]
    pub fn count(&self) -> u64
        ensures value { result ≡ self.now.count }
        ensures numbered { IfSome self.now.left (λ c. records.AreNumbered self.now.count c.records) }
    {
        self.count
    }

    /// How the capture ends, where the last call of `next_record` gave `None`; else `None`.
    #[inline]
    pub fn ending(&self) -> Option<Ending>
        ensures { result ≡ self.now.ended }
    {
        self.ending
    }
}
