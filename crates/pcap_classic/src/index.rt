//! The pass over the headers of all records, and the way from a kept start to a later one.

ghost use Rattle.std.specs.Prelude.{◌≡◌, ◌≢◌, ◌≤◌, ◌<◌, ◌+◌, ◌-◌, ◌↔◌, ℕ, List, length, drop, true, IfOk, OnOk, OnErr};
ghost use Rattle.pcap_classic.specs.Index.{IsIndex, AreKept, ArePassed, IsRecordStart};
ghost use Rattle.pcap_classic.specs.Contents as spec;
ghost use Rattle.pcap_classic.specs.declared.captured.{Endianness.Endianness, Extent.TheVariants.WholeRecord};
ghost use Rattle.pcap_classic.specs.declared.header.TheConstants.{FILE_HEADER};

use crate::captured::{Endianness, Extent, extent_of, record_length};
use crate::ending::{Ending, ending_by};
use crate::header::FILE_HEADER;
use std::alloc::{AllocError, Allocator};

/// How many records apart the kept starts are.
pub(crate) const STRIDE: u64 = 64;

/// What the pass over the headers of all records finds out.
#[derive(Drop)]
pub(crate) struct Index<A: Allocator> {
    /// The number of whole records.
    pub(crate) count: u64,
    /// The offsets of the records 1, 65, 129 and so on.
    pub(crate) starts: Vec<usize, A>,
    pub(crate) ending: Ending,
}

/// Keeps the start of the record after `count` others, where it is one to keep.
#[inline(always)]
fn keep_start<A: Allocator>(
    starts: &mut Vec<usize, A>,
    count: u64,
    offset: usize,
) -> Result<(), AllocError>
    ensures { OnOk result ((order : Endianness) → (file : List ℕ) → IsRecordStart order file count offset →
        AreKept order file starts.old.items count → AreKept order file starts.new.items (count + 1)) }
{
    if count % STRIDE == 0 {
        starts.push(offset)?;
    }
    Ok(())
}

/// The records before an offset.
#[derive(Drop)]
struct Passed<A: Allocator> {
    /// Their number.
    count: u64,
    /// The offsets of the records 1, 65, 129 and so on of them.
    starts: Vec<usize, A>,
    /// The offset after them.
    offset: usize,
}

/// Whether a whole record of this length is in front.
#[inline(always)]
fn is_record_of(order: Endianness, bytes: &[u8], size: usize) -> bool
    ensures { (result ≡ true) ↔ (spec.extent_of order bytes.now ≡ WholeRecord size) }
{
    match extent_of(order, bytes) {
        Extent::WholeRecord(found) => found == size,
        _ => false,
    }
}

/// Passes the records from the offset on that have this length.
// The processor takes the next one to have it too. So it goes on to the offset after that one before its header comes
// from memory, which takes longer than all the rest.
#[inline]
fn pass_repeats<A: Allocator>(
    order: Endianness,
    file: &[u8],
    size: usize,
    passed: &mut Passed<A>,
) -> Result<(), AllocError>
    requires { ArePassed order file.now passed.old.count passed.old.starts.items passed.old.offset }
    ensures passed { OnOk result (ArePassed order file.now passed.new.count passed.new.starts.items passed.new.offset) }
    ensures on { passed.old.offset ≤ passed.new.offset }
    ensures all { OnOk result (spec.extent_of order (drop passed.new.offset file.now) ≢ WholeRecord size) }
    ensures refused { OnErr result (0 < length (spec.contents order file.now).records) }
{
    'repeats: while is_record_of(order, &file[passed.offset..], size) {
        keep_start(&mut passed.starts, passed.count, passed.offset)?;
        passed.count += 1;
        passed.offset += size;
    }
    Ok(())
}

/// The index of a file with a whole header.
pub(crate) fn index_of<A: Allocator>(
    alloc: A,
    order: Endianness,
    file: &[u8],
) -> Result<Index<A>, AllocError>
    requires { FILE_HEADER ≤ length file.now }
    ensures index { IfOk result (λ index. IsIndex order file.now index.count index.starts.items index.ending) }
    ensures refused { OnErr result (0 < length (spec.contents order file.now).records) }
{
    let mut passed = Passed {
        count: 0,
        starts: Vec::new(alloc),
        offset: FILE_HEADER,
    };
    'lengths: while let Extent::WholeRecord(size) = extent_of(order, &file[passed.offset..]) {
        pass_repeats(order, file, size, &mut passed)?;
    }
    let ending = ending_by(extent_of(order, &file[passed.offset..]), passed.offset);
    Ok(Index {
        count: passed.count,
        starts: passed.starts,
        ending,
    })
}

/// The offset of record `to`, counted from 0, by that of record `from`.
pub(crate) fn start_from(order: Endianness, file: &[u8], from: u64, start: usize, to: u64) -> usize
    requires start { IsRecordStart order file.now from start }
    requires ahead { from ≤ to }
    requires within { to ≤ length (spec.contents order file.now).records }
    ensures { IsRecordStart order file.now to result }
{
    let mut offset = start;
    'records: for _i in from..to {
        offset += record_length(order, &file[offset..]);
    }
    offset
}

/// The offset of record `number`, counted from 1, by the kept start before it.
#[inline]
pub(crate) fn start_of(order: Endianness, file: &[u8], starts: &[usize], number: u64) -> usize
    requires from_one { 1 ≤ number }
    requires within { number ≤ length (spec.contents order file.now).records }
    requires kept { AreKept order file.now starts.now (length (spec.contents order file.now).records) }
    ensures { IsRecordStart order file.now (number - 1) result }
{
    let kept = (number - 1) / STRIDE;
    let start = starts[kept as usize];
    start_from(order, file, kept * STRIDE, start, number - 1)
}
