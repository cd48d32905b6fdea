//! What a job needs of the machine on which it runs.

ghost use Rattle.std.specs.Prelude.{◌≡◌, ℕ, IsTrue, List, [], ◌∷◌, Some, IfOk};
ghost use Rattle.cbpf_tool.specs.FileMap.{known_source};
ghost use Rattle.cbpf_tool.specs.Hosted.{Hosted, IsReady, and_then, without_input, without_output};
ghost use Rattle.cbpf_tool.specs.Hosted.{wrote, printed, Opens, Creates};

use crate::files::Files;
use std::error::Error;
use std::fmt;
use std::io::{self, Read, Write};

/// Why there is no output to a file.
#[derive(Clone, Copy, PartialEq, Eq, Debug)]
pub enum CreateFault {
    /// The file could not be created.
    NotCreated,
    /// Out of memory for its buffer.
    Memory,
}

impl fmt::Display for CreateFault {
    ghost use Rattle.std.specs.Prelude.{Some};
    ghost use Rattle.cbpf_tool.specs.Messages.{create_message};

    ghost output = { λ fault. Some (create_message fault) };

    fn fmt<W: fmt::Write>(&self, f: &mut fmt::Formatter<W>) -> fmt::Result {
        match self {
            CreateFault::NotCreated => f.write_str("cannot open"),
            CreateFault::Memory => f.write_str("out of memory"),
        }
    }
}

impl Error for CreateFault {}

/// Files by name, standard streams, and what was done with them. Where the machine says what it holds, each `open`,
/// `create`, `close` and `print` is an event after the earlier ones, also where a file can't be opened or created. The
/// other calls are no events.
pub trait Host {
    ghost view: { Self → Hosted };

    type Source: Read + Drop;

    type Input: Read + Drop;

    type Sink: Write + Drop;

    type Output: Write + Drop;

    type Disk: Files + Drop;

    /// The file of this name, to be read.
    fn open(&mut self, name: &str) -> io::Result<Self::Source>
        ensures { IsTrue (view self.old).is_known →
            Opens Self.Source.remaining (view self.old) (view self.new) name.now result };

    /// The standard input, of which nothing is left for another call.
    fn input(&mut self) -> Self::Input
        ensures { IsTrue (view self.old).is_known →
            (view self.new ≡ without_input (view self.old)) × (Self.Input.remaining result ≡ Some (view self.old).input) };

    /// A file of this name, which is empty and to be written.
    fn create(&mut self, name: &str) -> Result<Self::Sink, CreateFault>
        ensures { IsTrue (view self.old).is_known →
            Creates Self.Sink.contents (view self.old) (view self.new) name.now result };

    /// Leaves what was written in the file.
    fn close(&mut self, name: &str, sink: Self::Sink)
        ensures { IsTrue (view self.old).is_known → (text : List ℕ) → Self.Sink.contents sink ≡ Some text →
            view self.new ≡ and_then (view self.old) (wrote name.now text ∷ []) };

    /// The standard output, or out of memory for its buffer. The first call gives one of which nothing is written; of
    /// another nothing is known.
    fn output(&mut self) -> Result<Self::Output, CreateFault>
        ensures left { IsTrue (view self.old).is_known → view self.new ≡ without_output (view self.old) }
        ensures empty { IsReady (view self.old) → IfOk result (λ w. Self.Output.contents w ≡ Some []) };

    /// Leaves what was written in the standard output.
    fn print(&mut self, output: Self::Output)
        ensures { IsTrue (view self.old).is_known → (text : List ℕ) → Self.Output.contents output ≡ Some text →
            view self.new ≡ and_then (view self.old) (printed text ∷ []) };

    /// The files that commands load.
    fn disk(&mut self) -> Self::Disk
        ensures { IsTrue (view self.old).is_known →
            (view self.new ≡ view self.old) × (Self.Disk.source result ≡ known_source (view self.old).files 0) };
}
