//! The bytes that were read from a reader and not yet taken, and where they stand in its file.

ghost use Rattle.std.specs.Prelude.{◌≡◌, ◌<◌, ◌≤◌, ◌+◌, ◌-◌, ◌*◌, ◌^◌, min, [], length, take, drop, slice_range, true, false, vec_len};
ghost use Rattle.std.specs.Prelude.{IfOk, OnOk, OnErr, IsErrOf};
ghost use Rattle.std.specs.Io.KnownBytes.{Keeps, Consumes, IsAtEnd, prepend_known};
ghost use Rattle.pcap_classic.specs.declared.reading.ReadFault.TheVariants.{Memory};
ghost use Rattle.pcap_classic.specs.declared.window.TheConstants.{ROOM};

use crate::reading::ReadFault;
use std::alloc::{AllocError, Allocator};
use std::io::{self, Error, ErrorKind, Read};
use std::marker::Model;

/// How many bytes there is room for at first: 128 kB.
const ROOM: usize = 0x20000;

/// The bytes that were read and not yet taken, which contracts see as the list of them and the offset where they stand.
///
/// There is room for 128 kB at first. It grows only once it is full, to twice the bytes that it holds, or to those that are
/// needed if they are fewer. So there is never room for more than 128 kB, or twice the bytes that came.
#[derive(Drop)]
pub(crate) struct Window<A: Allocator> {
    /// They stand from `start` on, up to `end`.
    buf: Vec<u8, A>,
    start: usize,
    end: usize,
    /// The offset in the file of the first byte of `buf`.
    base: usize,
}

impl<A: Allocator> Model for Window<A> {
    ghost use Rattle.std.specs.Prelude.{◌≤◌, ◌<◌, ◌+◌, ◌*◌, ◌^◌, max, slice_range, vec_len};
    ghost use Rattle.pcap_classic.specs.Reading.{Unread};
    ghost use Rattle.pcap_classic.specs.declared.window.TheConstants.{ROOM};

    ghost Value = { Unread };

    ghost view = { λ w. record { offset = w.base + w.start; bytes = slice_range w.buf.items w.start w.end } };

    ghost invariant = { λ w. (w.start ≤ w.end) × (w.end ≤ vec_len w.buf) × (ROOM ≤ vec_len w.buf)
        × (vec_len w.buf ≤ max ROOM (2 * (w.base + w.end))) × (w.base + w.end < 2 ^ 64) };
}

/// Moves the bytes from `start` up to `end` to the front.
fn move_to_front<A: Allocator>(buf: &mut Vec<u8, A>, start: usize, end: usize)
    requires ordered { start ≤ end }
    requires within { end ≤ vec_len buf.old }
    ensures same { take (end - start) buf.new.items ≡ slice_range buf.old.items start end }
    ensures len { vec_len buf.new ≡ vec_len buf.old }
{
    if start > 0 {
        buf.copy_within(start..end, 0);
    }
}

/// Sees that there is room after the first `len` bytes, where `needed` are to be there.
fn make_room<A: Allocator>(
    buf: &mut Vec<u8, A>,
    len: usize,
    needed: usize,
) -> Result<(), AllocError>
    requires within { len ≤ vec_len buf.old }
    requires more { len < needed }
    requires room { ROOM ≤ vec_len buf.old }
    ensures same { take len buf.new.items ≡ take len buf.old.items }
    ensures stays { len < vec_len buf.old → vec_len buf.new ≡ vec_len buf.old }
    ensures grows { vec_len buf.old ≡ len → OnOk result (vec_len buf.new ≡ min needed (2 * len)) }
    ensures refused { OnErr result ((vec_len buf.old ≡ len) × (vec_len buf.new ≡ len)) }
{
    if len < buf.len() {
        return Ok(());
    }
    let more = (needed - len).min(len);
    buf.reserve_exact(more)?;
    buf.resize(len + more, 0)
}

/// Reads once, to the offset after the first `len` bytes; how many bytes came.
fn read_after<R: Read, A: Allocator>(
    reader: &mut R,
    buf: &mut Vec<u8, A>,
    len: usize,
) -> io::Result<usize>
    requires { len < vec_len buf.old }
    ensures same { take len buf.new.items ≡ take len buf.old.items }
    ensures kept { vec_len buf.new ≡ vec_len buf.old }
    ensures bound { IfOk result (λ n. len + n ≤ vec_len buf.new) }
    ensures bytes { IfOk result (λ n. Consumes (R.remaining reader.old) (R.remaining reader.new)
        (take n (drop len buf.new.items))) }
    ensures end { IfOk result (λ n. n ≡ 0 → IsAtEnd (R.remaining reader.new)) }
    ensures err { OnErr result (Keeps (R.remaining reader.old) (R.remaining reader.new)) }
{
    reader.read(&mut buf.as_mut_slice()[len..])
}

impl<A: Allocator> Window<A> {
    pub(crate) fn new(alloc: A) -> Result<Window<A>, AllocError>
        ensures { IfOk result (λ w. w ≡ record { offset = 0; bytes = [] }) }
    {
        let mut buf = Vec::with_capacity(alloc, ROOM)?;
        buf.resize(ROOM, 0)?;
        Ok(Window {
            buf,
            start: 0,
            end: 0,
            base: 0,
        })
    }

    #[inline(always)]
    pub(crate) fn as_slice(&self) -> &[u8]
        ensures { result.now ≡ self.now.bytes }
    {
        let (start, end) = (self.start, self.end);
        &self.buf.as_slice()[start..end]
    }

    /// The offset in the file of the first of these bytes.
    #[inline(always)]
    pub(crate) fn offset(&self) -> usize
        ensures value { result ≡ self.now.offset }
        ensures bound { result + length self.now.bytes < 2 ^ 64 }
    {
        self.base + self.start
    }

    /// Takes so many bytes.
    #[inline(always)]
    pub(crate) fn take(&mut self, count: usize)
        requires { count ≤ length self.old.bytes }
        ensures place { self.new.offset ≡ self.old.offset + count }
        ensures bytes { self.new.bytes ≡ drop count self.old.bytes }
    {
        self.start += count;
    }

    /// Reads once, where so many bytes are needed and fewer are there; false at the reader's end.
    ///
    /// It fails where the bytes could reach an offset that is no `usize`.
    pub(crate) fn read<R: Read>(&mut self, reader: &mut R, needed: usize) -> Result<bool, ReadFault>
        requires { length self.old.bytes < needed }
        ensures kept { Keeps (prepend_known self.old.bytes (R.remaining reader.old))
            (prepend_known self.new.bytes (R.remaining reader.new)) }
        ensures place { self.new.offset ≡ self.old.offset }
        ensures more { IfOk result (λ more. more ≡ true → length self.old.bytes < length self.new.bytes) }
        ensures end { IfOk result (λ more. more ≡ false → IsAtEnd (R.remaining reader.new)) }
        ensures stays { OnErr result (self.new ≡ self.old) }
        ensures refused { IsErrOf result Memory → ROOM ≤ length self.new.bytes }
    {
        let len = self.end - self.start;
        move_to_front(&mut self.buf, self.start, self.end);
        self.base += self.start;
        self.start = 0;
        self.end = len;
        if make_room(&mut self.buf, len, needed).is_err() {
            return Err(ReadFault::Memory);
        }
        if self.base.checked_add(self.buf.len()).is_none() {
            return Err(ReadFault::Read(Error::from(ErrorKind::FileTooLarge)));
        }
        match read_after(reader, &mut self.buf, len) {
            Ok(count) => {
                self.end += count;
                Ok(count > 0)
            }
            Err(e) => Err(ReadFault::Read(e)),
        }
    }
}
