//! A machine in memory that says what it holds, and the jobs over it.

ghost use Rattle.std.specs.Prelude.{◌≡◌, ◌++◌, ◌∷◌, [], List, ℕ, map, true, Some, MatchOption, None};
ghost use Rattle.std.specs.FinMap as finmap;
ghost use Rattle.cbpf_tool.specs.FileMap.{files_of, known_source};
ghost use Rattle.cbpf_tests.specs.Events.{event};

use crate::assertions::Test;
use crate::done::Done;
use cbpf_tool::{CreateFault, Failure, Files, Form, Host, LoadFault, ToolFault, asm_job};
use memory_tests::inputs::ARP;
use session_tests::fault_injection::FaultyAllocator;
use session_tests::inputs::TWO_PACKETS;
use std::alloc::Allocator;
use std::io::{self, ErrorKind};
use std::process::Abort;

/// A name and the file's bytes.
type File = (&'static str, &'static [u8]);

/// The bytes of the first file of this name.
fn bytes_of(files: &[File], name: &str) -> Option<&'static [u8]>
    ensures { MatchOption result (finmap.get (files_of (map (λ f. (f.0.now, f.1.now)) files.now)) name.now ≡ None)
        (λ bytes. finmap.get (files_of (map (λ f. (f.0.now, f.1.now)) files.now)) name.now ≡ Some bytes.now) }
{
    for file in files {
        if name == file.0 {
            return Some(file.1);
        }
    }
    None
}

/// Files that commands load.
#[derive(Drop)]
pub(crate) struct ListedFiles {
    files: &'static [File],
}

impl Files for ListedFiles {
    ghost source = { λ d. known_source (files_of (map (λ f. (f.0.now, f.1.now)) d.files.now)) 0 };

    fn load<A: Allocator>(&mut self, alloc: A, name: &str) -> Result<Vec<u8, A>, LoadFault> {
        let Some(bytes) = bytes_of(self.files, name) else {
            return Err(LoadFault::Absent);
        };
        match Vec::from_slice(alloc, bytes) {
            Ok(copy) => Ok(copy),
            Err(_) => Err(LoadFault::Memory),
        }
    }
}

fn copied<R: Test>(rt: &R, bytes: &[u8]) -> Vec<u8>
    ensures { result.items ≡ bytes.now }
{
    Vec::from_slice(rt.alloc(), bytes).expect(rt, "a copy")
}

/// Files, a standard input, and the log of what was done. Its outputs take memory of `alloc`, and `refusal` says why
/// there is none. As the log has to grow, it ends the test where it can't.
#[derive(Drop)]
pub(crate) struct MemoryHost<'a, R: Test, A: Allocator + Copy> {
    rt: &'a R,
    alloc: A,
    files: &'static [File],
    pub(crate) input: &'static [u8],
    has_output: bool,
    pub(crate) refusal: Option<CreateFault>,
    pub(crate) log: Vec<Done>,
}

/// Adds an event to a log.
fn add<R: Abort>(rt: &R, log: &mut Vec<Done>, done: Done)
    ensures { map event log.new.items ≡ map event log.old.items ++ event done ∷ [] }
{
    assert!(rt; log.push(done).is_ok());
}

impl<'a, R: Test, A: Allocator + Copy> Host for MemoryHost<'a, R, A> {
    ghost view = { λ h. record {
      is_known = true;
      files = files_of (map (λ f. (f.0.now, f.1.now)) h.files.now);
      input = h.input.now;
      has_output = h.has_output;
      events = map event h.log.items;
    } };

    type Source = &'static [u8];

    type Input = &'static [u8];

    type Sink = Vec<u8, A>;

    type Output = Vec<u8, A>;

    type Disk = ListedFiles;

    fn open(&mut self, name: &str) -> io::Result<&'static [u8]> {
        let copy = copied(self.rt, name.as_bytes());
        match bytes_of(self.files, name) {
            Some(bytes) => {
                add(self.rt, &mut self.log, Done::Opened(copy));
                Ok(bytes)
            }
            None => {
                add(self.rt, &mut self.log, Done::NotOpened(copy));
                Err(io::Error::from(ErrorKind::NotFound))
            }
        }
    }

    fn input(&mut self) -> &'static [u8] {
        let input = self.input;
        self.input = b"";
        input
    }

    fn create(&mut self, name: &str) -> Result<Vec<u8, A>, CreateFault> {
        let name = copied(self.rt, name.as_bytes());
        if let Some(CreateFault::NotCreated) = self.refusal {
            add(self.rt, &mut self.log, Done::NotCreated(name));
            return Err(CreateFault::NotCreated);
        }
        add(self.rt, &mut self.log, Done::Created(name));
        match self.refusal {
            Some(_) => Err(CreateFault::Memory),
            None => Ok(Vec::new(self.alloc)),
        }
    }

    fn close(&mut self, name: &str, sink: Vec<u8, A>) {
        let name = copied(self.rt, name.as_bytes());
        let text = copied(self.rt, sink.as_slice());
        add(self.rt, &mut self.log, Done::Wrote(name, text));
    }

    fn output(&mut self) -> Result<Vec<u8, A>, CreateFault> {
        self.has_output = false;
        match self.refusal {
            Some(fault) => Err(fault),
            None => Ok(Vec::new(self.alloc)),
        }
    }

    fn print(&mut self, output: Vec<u8, A>) {
        let text = copied(self.rt, output.as_slice());
        add(self.rt, &mut self.log, Done::Printed(text));
    }

    fn disk(&mut self) -> ListedFiles {
        ListedFiles { files: self.files }
    }
}

/// A source whose name is `-`, and a capture.
static FILES: [File; 2] = [("-", ARP), ("k", TWO_PACKETS)];

pub(crate) fn machine<R: Test, A: Allocator + Copy>(rt: &R, alloc: A) -> MemoryHost<'_, R, A> {
    MemoryHost {
        rt,
        alloc,
        files: &FILES,
        input: b"ret #0\n",
        has_output: true,
        refusal: None,
        log: Vec::new(rt.alloc()),
    }
}

/// An entry of a log: what was done, a name and a text.
pub(crate) type Entry = (&'static str, &'static [u8], &'static [u8]);

fn entry_of(done: &Done) -> (&str, &[u8], &[u8]) {
    match done {
        Done::Opened(name) => ("opened", name.as_slice(), b""),
        Done::NotOpened(name) => ("not opened", name.as_slice(), b""),
        Done::Created(name) => ("created", name.as_slice(), b""),
        Done::NotCreated(name) => ("not created", name.as_slice(), b""),
        Done::Wrote(name, text) => ("wrote", name.as_slice(), text.as_slice()),
        Done::Printed(text) => ("printed", b"", text.as_slice()),
    }
}

pub(crate) fn has_entries(log: &[Done], wanted: &[Entry]) -> bool {
    for (i, entry) in wanted.iter().enumerate() {
        match log.get(i) {
            Some(done) if entry_of(done) == *entry => {}
            _ => return false,
        }
    }
    log.len() == wanted.len()
}

/// Assembles the standard input with this refusal of an output, which fails.
fn assert_fault<A: Allocator + Copy, B: Allocator + Copy>(
    rt: &impl Test,
    job: A,
    output: B,
    refusal: Option<CreateFault>,
    wanted: ToolFault,
) {
    let mut host = machine(rt, output);
    host.refusal = refusal;
    let outcome = asm_job(job, &mut host, Form::Decimal, None);
    let is_wanted = matches!(&outcome, Err(Failure::Tool(fault)) if *fault == wanted);
    assert!(rt; is_wanted);
}

/// On a machine in memory, a fault of memory or of writing is no success.
#[test]
fn a_fault_of_memory_or_of_writing_is_no_success(rt: HostRuntime) {
    let alloc = rt.alloc();
    let job = FaultyAllocator::new(alloc, 1);
    assert_fault(&rt, &job, alloc, None, ToolFault::Memory);
    let output = FaultyAllocator::new(alloc, 1);
    assert_fault(&rt, alloc, &output, None, ToolFault::Write);
    let refusal = Some(CreateFault::Memory);
    assert_fault(&rt, alloc, alloc, refusal, ToolFault::Memory);
}
