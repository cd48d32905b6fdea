//! Where the debugger's files come from.

ghost use Rattle.cbpf_tool.specs.FileMap.{FileSource};
ghost use Rattle.cbpf_tool.specs.Loads.{Loads};

use cbpf_reply::LoadFault;
use std::alloc::Allocator;

/// A source of files by name. A load leaves the files as they are. Where the source says what it
/// holds, a load gives the bytes of the name, and answers `Absent` only where there is no such name.
/// The count of failures never falls, and rises at `Device` up to its greatest value. A source that
/// `counts_exactly` counts one failure at each `Device` and none at anything else.
pub trait Files {
    /// The files, the count of failures, and whether the source says what it holds.
    ghost source: { Self → FileSource };

    /// The bytes of the file of this name.
    fn load<A: Allocator>(&mut self, alloc: A, name: &str) -> Result<Vec<u8, A>, LoadFault>
        ensures { Loads (λ v. v.items) (source self.old) (source self.new) name.now result };
}
