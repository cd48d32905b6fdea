//! `cbpf`: shows why packets pass or fail a classic BPF filter; assembles and debugs filters.
#![tactic(auto)]

ghost use Rattle.std.specs.Io.{ReadsAtMost};
ghost use Rattle.std.specs.Io.KnownBytes.{ReadConsumes};
ghost use Rattle.cbpf_tool.specs.Hosted.{unknown};
ghost use Rattle.cbpf.specs.declared.Source.TheVariants as source;

use cbpf_tool::{CreateFault, DiskFiles, Exit, Host, run_words, write_exit};
use std::alloc::Allocator;
use std::io::{self, BufWriter, ErrorKind, Printer, Read, Write};
use std::process::ExitCode;
use std::rt::{Env, Files};
use std::{env, fs};

/// Reads, and reads again where a signal interrupted the read.
fn read_again<R: Read>(reader: &mut R, buf: &mut [u8]) -> io::Result<usize>
    ensures bound { ReadsAtMost result buf.new }
    ensures bytes { ReadConsumes (R.remaining reader.old) (R.remaining reader.new) result buf.new }
{
    // Counted, so that it is proved to end.
    'reads: for _ in 0..u64::MAX {
        match reader.read(buf) {
            Err(e) if e.kind() == ErrorKind::Interrupted => {}
            done => return done,
        }
    }
    Err(io::Error::from(ErrorKind::Interrupted))
}

/// A file or the standard input, as one type: so the compiler makes one copy of each loop over what they read.
#[derive(Drop)]
enum Source<F, I> {
    File(F),
    Input(I),
}

impl<F: Read, I: Read> Read for Source<F, I> {
    ghost remaining = { λ s. elim s [ source.File file ↦ F.remaining file | source.Input input ↦ I.remaining input ] };

    fn read(&mut self, buf: &mut [u8]) -> io::Result<usize> {
        match self {
            Source::File(file) => read_again(file, buf),
            Source::Input(input) => read_again(input, buf),
        }
    }
}

/// The machine that `rt` reaches. What it holds is not known.
#[derive(Drop)]
struct RealHost<'a, R> {
    rt: &'a R,
}

impl<'a, R: Input + Print + Files + AllocGlobal> Host for RealHost<'a, R> {
    ghost view = { λ _. unknown };

    type Source = Source<R::File, R::Reader>;

    type Input = Source<R::File, R::Reader>;

    type Sink = BufWriter<R::File>;

    type Output = BufWriter<Printer<'a, R>>;

    type Disk = DiskFiles<'a, R>;

    fn open(&mut self, name: &str) -> io::Result<Source<R::File, R::Reader>> {
        Ok(Source::File(fs::open(self.rt, name)?))
    }

    fn input(&mut self) -> Source<R::File, R::Reader> {
        Source::Input(self.rt.reader())
    }

    fn create(&mut self, name: &str) -> Result<BufWriter<R::File>, CreateFault> {
        match fs::create(self.rt, name) {
            Ok(file) => match BufWriter::new(self.rt.alloc(), file) {
                Ok(sink) => Ok(sink),
                Err(_) => Err(CreateFault::Memory),
            },
            Err(_) => Err(CreateFault::NotCreated),
        }
    }

    fn close(&mut self, _name: &str, _sink: BufWriter<R::File>) {}

    fn output(&mut self) -> Result<BufWriter<Printer<'a, R>>, CreateFault> {
        match BufWriter::new(self.rt.alloc(), io::writer(self.rt)) {
            Ok(output) => Ok(output),
            Err(_) => Err(CreateFault::Memory),
        }
    }

    fn print(&mut self, _output: BufWriter<Printer<'a, R>>) {}

    fn disk(&mut self) -> DiskFiles<'a, R> {
        DiskFiles::new(self.rt)
    }
}

/// The words of the command line.
fn words<R: Env + AllocGlobal>(rt: &R) -> io::Result<Vec<String>> {
    let mut words = Vec::new(rt.alloc());
    for word in env::args(rt)? {
        words.push(word)?;
    }
    Ok(words)
}

/// Writes what is to be said to the standard error, through a buffer where there is memory.
fn say<E: Print, A: Allocator>(errors: &E, alloc: A, exit: &Exit) {
    match BufWriter::new(alloc, io::writer(errors)) {
        Ok(mut w) => {
            let _ = write_exit(&mut w, exit);
            let _ = w.flush();
        }
        Err(_) => {
            let _ = write_exit(&mut io::writer(errors), exit);
        }
    }
}

/// How the program ends where its words can't be had.
fn without_words(fault: io::Error) -> Exit {
    if fault.kind() == ErrorKind::OutOfMemory {
        Exit::out_of_memory()
    } else {
        Exit::NotUtf8
    }
}

fn main(rt: HostRuntime) -> ExitCode {
    let exit = match words(&rt) {
        Ok(words) => run_words(rt.alloc(), &mut RealHost { rt: &rt }, words),
        Err(fault) => without_words(fault),
    };
    say(&rt.stderr(), rt.alloc(), &exit);
    exit.status()
}
