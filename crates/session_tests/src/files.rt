//! Files that several tests make: captures of records by their lengths, and pieces repeated.

use crate::inputs::HEADER;
use std::alloc::{AllocError, Allocator};

/// One piece many times, between a first and a last.
pub fn repeated<A: Allocator>(
    alloc: A,
    first: &[u8],
    piece: &[u8],
    count: u32,
    last: &[u8],
) -> Result<Vec<u8, A>, AllocError> {
    let mut text = Vec::from_slice(alloc, first)?;
    for _ in 0..count {
        text.extend_from_slice(piece)?;
    }
    text.extend_from_slice(last)?;
    Ok(text)
}

/// Appends a record of this captured length, with so many bytes after its header.
pub fn append_record<A: Allocator>(
    bytes: &mut Vec<u8, A>,
    captured: u32,
    present: usize,
) -> Result<(), AllocError> {
    let length = bytes.len().saturating_add(16).saturating_add(present);
    bytes.extend_from_slice(&[7; 8])?;
    for _ in 0..2 {
        bytes.extend_from_slice(&captured.to_le_bytes())?;
    }
    bytes.resize(length, 9)
}

/// A capture of records of these captured lengths.
pub fn of_lengths<A: Allocator>(alloc: A, lengths: &[u32]) -> Result<Vec<u8, A>, AllocError> {
    let mut bytes = Vec::from_slice(alloc, HEADER)?;
    for length in lengths {
        append_record(&mut bytes, *length, *length as usize)?;
    }
    Ok(bytes)
}

/// A file with two other bytes at a place, as of the magic.
pub fn with_bytes<A: Allocator>(
    alloc: A,
    file: &[u8],
    place: usize,
    other: [u8; 2],
) -> Result<Vec<u8, A>, AllocError> {
    let mut bytes = Vec::from_slice(alloc, file)?;
    for (there, byte) in bytes.iter_mut().skip(place).zip(other) {
        *there = byte;
    }
    Ok(bytes)
}
