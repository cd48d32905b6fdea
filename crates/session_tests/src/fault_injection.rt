//! Faults on purpose: an allocator that refuses one allocation and counts bytes, a reader with one failing
//! read, and a writer with one failing or empty write.

mod allocator;
mod calls;
mod reader;
#[cfg(test)]
mod tests;
mod writer;

pub use allocator::FaultyAllocator;
pub use reader::FaultyReader;
pub use writer::{Fault, FaultyWriter};

/// The kinds of error by which a read, a write or a flush fails. `OutOfMemory` is here the reader's or the
/// writer's, and not the allocator's.
pub const ERROR_KINDS: [std::io::ErrorKind; 3] = [
    std::io::ErrorKind::Other,
    std::io::ErrorKind::Interrupted,
    std::io::ErrorKind::OutOfMemory,
];
