//! Tests of the faulty allocator, reader and writer themselves.

use crate::assertions::{Test, assert_at};
use crate::fault_injection::{Fault, FaultyAllocator, FaultyReader, FaultyWriter};
use std::alloc::Global;
use std::io;
use std::io::{ErrorKind, Read, Write};
use std::process::Abort;
use std::test::*;

fn is_interrupted<T: Drop>(answer: io::Result<T>) -> bool {
    matches!(answer, Err(e) if e.kind() == ErrorKind::Interrupted)
}

/// Whether a read gives two bytes, and the next one fails.
fn fails_at_its_second_call(reader: &mut FaultyReader<'_>) -> bool {
    let mut buf = [0u8; 4];
    reader.set_error(ErrorKind::Interrupted);
    matches!(reader.read(&mut buf), Ok(2))
        && is_interrupted(reader.read(&mut buf))
        && reader.calls() == 2
}

#[test]
fn a_reader_fails_once_and_goes_on(rt: HostRuntime) {
    let mut reader = FaultyReader::new(b"abcde", 2, 2);
    assert!(rt; fails_at_its_second_call(&mut reader));
    let mut rest = Vec::new(rt.alloc());
    assert!(rt; reader.read_to_end(&mut rest).is_ok());
    assert!(rt; rest.as_slice() == b"cde".as_slice() && reader.calls() == 5);
}

fn writes_up_to_the_fault(writer: &mut FaultyWriter<4>) -> bool {
    writer.write_all(b"abcde").is_err()
        && writer.calls() == 3
        && writer.written() == b"ab".as_slice()
}

fn fills_the_room(writer: &mut FaultyWriter<4>) -> bool {
    writer.write_all(b"xy").is_ok()
        && writer.written() == b"abxy".as_slice()
        && matches!(writer.write(b"z"), Ok(0))
}

fn flushes_well_and_badly(writer: &mut FaultyWriter<4>) -> bool {
    let is_done = writer.flush().is_ok();
    writer.set_flush_fails(true);
    writer.set_error(ErrorKind::Interrupted);
    is_done && is_interrupted(writer.flush()) && writer.flushes() == 2
}

#[test]
fn a_writer_goes_wrong_once_and_goes_on(rt: HostRuntime) {
    for fault in [Fault::Fails, Fault::TakesNothing] {
        let mut writer = FaultyWriter::<4>::new(fault, 3);
        assert!(rt; writes_up_to_the_fault(&mut writer));
        assert!(rt; fills_the_room(&mut writer) && flushes_well_and_badly(&mut writer));
    }
}

/// Pushes the numbers below 100, and answers the one that was refused, or 100 for none.
fn refused_of_100(rt: &impl Abort, alloc: &FaultyAllocator<Global>, nth: u64) -> u32 {
    let mut list = Vec::new(alloc);
    let mut refused = 100;
    for number in 0..100 {
        if list.push(number).is_err() {
            assert_at(rt, nth as usize, refused == 100);
            refused = number;
        }
    }
    refused
}

fn refuse_one(rt: &impl Test, nth: u64, held: u32, left: u64) {
    let alloc = FaultyAllocator::new(rt.alloc(), nth);
    let is_new = alloc.left() == nth;
    let is_wanted = refused_of_100(rt, &alloc, nth) == held && alloc.left() == left;
    assert_at(rt, nth as usize, is_new && is_wanted);
}

// 100 pushes grow a vector to 4, 8, 16, 32, 64 and 128 places. A push that is refused is left out.
static REFUSALS: [(u64, u32, u64); 8] = [
    (0, 100, 0),
    (1, 0, 0),
    (2, 4, 0),
    (3, 8, 0),
    (4, 16, 0),
    (5, 32, 0),
    (6, 64, 0),
    (7, 100, 1),
];

#[test]
fn one_growth_is_refused_where_the_vector_is_full(rt: HostRuntime) {
    for (nth, held, left) in &REFUSALS {
        refuse_one(&rt, *nth, *held, *left);
    }
}
