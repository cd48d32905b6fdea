//! The records of a capture, one after another.

ghost use Rattle.std.specs.Prelude.{◌≡◌, ◌<◌, ◌∷◌, length, slice_get, Some};
ghost use Rattle.std.specs.Option.{option_map};
ghost use Rattle.std.specs.Iterator.{YieldsFirstBy, item_count};
ghost use Rattle.pcap_classic.specs.Lent.{record_of};

use crate::captured::{Captured, Endianness, RECORD_HEADER, file_record};
use std::marker::Model;

/// Records of a capture that follow one another, in order. Contracts see it as the list of those that are left.
///
/// It takes no memory, and no record is copied.
#[derive(Drop)]
pub struct Records<'a> {
    pub(crate) order: Endianness,
    pub(crate) file: &'a [u8],
    /// The offset of the first record that is left.
    pub(crate) offset: usize,
    /// Its number, counted from 1.
    pub(crate) number: u64,
    /// The number after that of the last record.
    pub(crate) end: u64,
}

impl<'a> Model for Records<'a> {
    ghost use Rattle.std.specs.Prelude.{List, ◌-◌, take, drop};
    ghost use Rattle.pcap_classic.specs.Index.{AreRecordsFrom};
    ghost use Rattle.pcap_classic.specs.Records.{Record};
    ghost use Rattle.pcap_classic.specs.Contents.{contents};

    ghost Value = { List Record };

    ghost view = { λ w. drop (w.number - 1) (take (w.end - 1) (contents w.order w.file.now).records) };

    ghost invariant = { λ w. AreRecordsFrom w.order w.file.now w.offset w.number w.end };
}

impl<'a> Records<'a> {
    /// The first record that is left, which stays there, or `None` after the last.
    #[inline(always)]
    pub fn first(&self) -> Option<Captured<'a>>
        ensures { option_map record_of result ≡ slice_get self.now 0 }
    {
        if self.number == self.end {
            return None;
        }
        Some(self.front())
    }

    /// The same, where one is left.
    #[inline(always)]
    pub fn front(&self) -> Captured<'a>
        requires { 0 < length self.now }
        ensures { slice_get self.now 0 ≡ Some (record_of result) }
    {
        file_record(self.order, self.file, self.number, self.offset)
    }

    /// Goes on past its first record, which is this one.
    #[inline(always)]
    pub fn pass(&mut self, first: &Captured<'_>)
        requires { slice_get self.old 0 ≡ Some (record_of first.now) }
        ensures { self.old ≡ record_of first.now ∷ self.new }
    {
        self.number += 1;
        self.offset = first.start + RECORD_HEADER + first.bytes.len();
    }
}

impl<'a> Iterator for Records<'a> {
    type Item = Captured<'a>;

    ghost next_gives = { YieldsFirstBy record_of (λ left. left) };

    ghost remaining = { item_count (λ left. left) };

    #[inline(always)]
    fn next(&mut self) -> Option<Captured<'a>> {
        let record = self.first()?;
        self.pass(&record);
        Some(record)
    }
}
