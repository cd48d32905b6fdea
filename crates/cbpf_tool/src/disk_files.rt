//! Files of the file system.

ghost use Rattle.std.specs.Prelude.{◌≡◌, ◌≢◌, ℕ, List, IfErr, IfOk, MatchResult, OnOk};
ghost use Rattle.std.specs.Io.KnownBytes.{IsAtEnd};
ghost use Rattle.std.specs.IoError.{error_kind};
ghost use Rattle.cbpf_tool.specs.FileMap.{unknown_source};
ghost use Rattle.cbpf_tool.specs.Loads as spec;
ghost use Rattle.cbpf_reply.specs.declared.errors.LoadFault.TheVariants as fault;

use crate::files::Files;
use cbpf_reply::LoadFault;
use std::alloc::Allocator;
use std::fs::{self, OpenFile};
use std::io::{self, ErrorKind, Read};
use std::rt;

/// The files of the file system. What it holds is not known.
#[derive(Drop)]
pub struct DiskFiles<'a, R: rt::Files> {
    runtime: &'a R,
    failures: u64,
}

impl<'a, R: rt::Files> DiskFiles<'a, R> {
    /// The file system that `runtime` reaches, and no failures so far.
    pub fn new(runtime: &'a R) -> DiskFiles<'a, R>
        ensures { result.failures ≡ 0 }
    {
        DiskFiles {
            runtime,
            failures: 0,
        }
    }
}

/// How much room a file's bytes take, as far as the system says: a byte more than its size, so that the
/// read that finds the end needs no more room.
fn room_for<F: OpenFile>(file: &F) -> usize {
    match file.metadata() {
        Ok(metadata) => (metadata.len() as usize).saturating_add(1),
        Err(_) => 1,
    }
}

/// What a failure to open a file is reported as: absent only where there is none of the name.
fn opening_fault(kind: ErrorKind) -> LoadFault
    ensures { result ≡ spec.opening_fault kind }
{
    match kind {
        ErrorKind::NotFound => LoadFault::Absent,
        kind => reading_fault(kind),
    }
}

/// What a failure to read an open file is reported as.
fn reading_fault(kind: ErrorKind) -> LoadFault
    ensures { result ≡ spec.reading_fault kind }
{
    match kind {
        ErrorKind::OutOfMemory => LoadFault::Memory,
        _ => LoadFault::Device,
    }
}

/// What reading a file to its end gave: its bytes, or what the failure is reported as.
fn bytes_read<B: Allocator>(
    bytes: Vec<u8, B>,
    read: io::Result<usize>,
) -> Result<Vec<u8, B>, LoadFault>
    ensures { MatchResult read (λ _. result ≡ Ok bytes) (λ e. result ≡ Err (spec.reading_fault (error_kind e))) }
{
    match read {
        Ok(_) => Ok(bytes),
        Err(e) => Err(reading_fault(e.kind())),
    }
}

/// All bytes of a file that is open, with room for so many at first.
fn read_all<F: Read, B: Allocator>(
    file: &mut F,
    alloc: B,
    room: usize,
) -> Result<Vec<u8, B>, LoadFault>
    ensures bytes { IfOk result (λ v. (text : List ℕ) → F.remaining file.old ≡ Some text → v.items ≡ text) }
    ensures end { OnOk result (IsAtEnd (F.remaining file.new)) }
    ensures fault { IfErr result (λ e. e ≢ fault.Absent) }
{
    let Ok(mut bytes) = Vec::with_capacity(alloc, room) else {
        return Err(LoadFault::Memory);
    };
    let read = file.read_to_end(&mut bytes);
    bytes_read(bytes, read)
}

/// All bytes of a file, where opening it gave one; else what the failure to open it is reported as.
fn read_opened<F: Read + OpenFile + Drop, B: Allocator>(
    opened: io::Result<F>,
    alloc: B,
) -> Result<Vec<u8, B>, LoadFault>
    ensures opened { IfOk opened (λ file. IfOk result (λ v. (text : List ℕ) → F.remaining file ≡ Some text →
        v.items ≡ text)) }
    ensures there { OnOk opened (result ≢ Err fault.Absent) }
    ensures failed { IfErr opened (λ e. result ≡ Err (spec.opening_fault (error_kind e))) }
{
    match opened {
        Ok(file) => {
            let mut file = file;
            let room = room_for(&file);
            read_all(&mut file, alloc, room)
        }
        Err(e) => Err(opening_fault(e.kind())),
    }
}

impl<'a, R: rt::Files> Files for DiskFiles<'a, R> {
    ghost source = { λ d. unknown_source d.failures };

    /// `Absent` where opening says that there is no such file, `Memory` where there was none, and for any
    /// other reason `Device`, which counts one failure.
    fn load<B: Allocator>(&mut self, alloc: B, name: &str) -> Result<Vec<u8, B>, LoadFault>
        ensures loads { spec.Loads (λ v. v.items) (unknown_source self.old.failures)
            (unknown_source self.new.failures) name.now result }
        ensures counted { self.new.failures ≡ spec.counted result self.old.failures }
    {
        let result = read_opened(fs::open(self.runtime, name), alloc);
        if matches!(result, Err(LoadFault::Device)) {
            self.failures = self.failures.saturating_add(1);
        }
        result
    }
}
