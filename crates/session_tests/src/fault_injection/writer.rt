//! A writer that fails, or takes nothing, at one call.

ghost use Rattle.std.specs.Prelude.{◌≤◌, Some, take};

use crate::fault_injection::calls::CallCounter;
use std::io;
use std::io::Write;

/// What a [`FaultyWriter`] does at the chosen call of `write`.
#[derive(Clone, Copy, Debug, PartialEq, Eq)]
pub enum Fault {
    /// It answers an error.
    Fails,
    /// It answers that it took 0 bytes.
    TakesNothing,
}

/// A writer into a room of `N` bytes that takes one byte a call, and whose one chosen call of `write`
/// goes wrong.
///
/// Once the room is full every call takes 0 bytes. It counts its flushes, and fails at each of them
/// where that was asked for.
#[derive(Drop)]
pub struct FaultyWriter<const N: usize> {
    room: [u8; N],
    len: usize,
    fault: Fault,
    error: io::ErrorKind,
    calls: CallCounter,
    flushes: u64,
    flush_fails: bool,
    ghost in_room: { len ≤ N },
}

impl<const N: usize> FaultyWriter<N> {
    /// The call of `write` with the number `faulty_call`, counted from 1, goes wrong by `fault`, and no
    /// other; 0 for none. Its errors are of the kind `Other`.
    pub fn new(fault: Fault, faulty_call: u64) -> FaultyWriter<N> {
        FaultyWriter {
            room: [0; N],
            len: 0,
            fault,
            error: io::ErrorKind::Other,
            calls: CallCounter::new(faulty_call),
            flushes: 0,
            flush_fails: false,
        }
    }

    /// Whether each `flush` from now on fails.
    pub fn set_flush_fails(&mut self, fails: bool) {
        self.flush_fails = fails;
    }

    /// The kind of its errors from now on.
    pub fn set_error(&mut self, kind: io::ErrorKind) {
        self.error = kind;
    }

    /// The bytes that it took, in the order in which they came.
    pub fn written(&self) -> &[u8] {
        &self.room[..self.len]
    }

    /// How often `write` was called, the faulty call included. The count stops at `u64::MAX`.
    pub fn calls(&self) -> u64 {
        self.calls.made
    }

    /// How often `flush` was called, failing calls included. The count stops at `u64::MAX`.
    pub fn flushes(&self) -> u64 {
        self.flushes
    }
}

impl<const N: usize> Write for FaultyWriter<N> {
    ghost contents = { λ w. Some (take w.len w.room) };

    fn write(&mut self, buf: &[u8]) -> io::Result<usize> {
        if self.calls.next_is_faulty() {
            return match self.fault {
                Fault::Fails => Err(io::Error::from(self.error)),
                Fault::TakesNothing => Ok(0),
            };
        }
        match buf.first() {
            Some(byte) if self.len < N => {
                self.room[self.len] = *byte;
                self.len += 1;
                Ok(1)
            }
            _ => Ok(0),
        }
    }

    fn flush(&mut self) -> io::Result<()> {
        self.flushes = self.flushes.saturating_add(1);
        if self.flush_fails {
            return Err(io::Error::from(self.error));
        }
        Ok(())
    }
}
