//! A reader that fails at one call.

ghost use Rattle.std.specs.Prelude.{◌<◌, Some};

use crate::fault_injection::calls::CallCounter;
use std::io;
use std::io::Read;

/// A reader over bytes in memory that gives a few bytes a call, and whose one chosen call of `read` fails.
///
/// A call that fails takes nothing away: the next one goes on with the byte that was due.
#[derive(Drop)]
pub struct FaultyReader<'a> {
    bytes: &'a [u8],
    chunk: usize,
    calls: CallCounter,
    error: io::ErrorKind,
    ghost gives_bytes: { 0 < chunk },
}

impl<'a> FaultyReader<'a> {
    /// Gives at most `chunk` bytes a call. The call of `read` with the number `failing_call`, counted
    /// from 1, fails with an error of the kind `Other`, and no other does; 0 for none.
    pub fn new(bytes: &'a [u8], chunk: usize, failing_call: u64) -> FaultyReader<'a>
        requires { 0 < chunk }
    {
        FaultyReader {
            bytes,
            chunk,
            calls: CallCounter::new(failing_call),
            error: io::ErrorKind::Other,
        }
    }

    /// The kind of error that the failing call answers from now on.
    pub fn set_error(&mut self, kind: io::ErrorKind) {
        self.error = kind;
    }

    /// How often `read` was called, the failing call included. The count stops at `u64::MAX`.
    pub fn calls(&self) -> u64 {
        self.calls.made
    }
}

impl<'a> Read for FaultyReader<'a> {
    ghost remaining = { λ r. Some r.bytes.now };

    fn read(&mut self, buf: &mut [u8]) -> io::Result<usize> {
        if self.calls.next_is_faulty() {
            return Err(io::Error::from(self.error));
        }
        let most = self.chunk.min(buf.len());
        self.bytes.read(&mut buf[..most])
    }
}
