//! Why a capture can't be read further.

use crate::header::HeaderFault;
use std::error::Error;
use std::{fmt, io};

/// Why a reader's next bytes can't be taken.
#[derive(Debug, Drop)]
pub enum ReadFault {
    /// A read failed, also by `Interrupted`; or its bytes could end beyond byte 18446744073709551615, by `FileTooLarge`.
    Read(io::Error),
    /// Out of memory: for the first 128 kB, for a record that is longer, or for one that is cut in its data.
    Memory,
}

impl fmt::Display for ReadFault {
    ghost use Rattle.std.specs.Prelude.{Some};
    ghost use Rattle.pcap_classic.specs.Messages.{read_message};

    ghost output = { λ fault. Some (read_message fault) };

    fn fmt<W: fmt::Write>(&self, f: &mut fmt::Formatter<W>) -> fmt::Result {
        match self {
            ReadFault::Read(_) => f.write_str("read fault"),
            ReadFault::Memory => f.write_str("out of memory"),
        }
    }
}

impl Error for ReadFault {}

/// Why a capture can't be read from a reader's first bytes.
#[derive(Debug, Drop)]
pub enum OpenFault {
    /// They are no header of a capture: P1, P2 or P3.
    Header(HeaderFault),
    /// There was a fault before the header was read.
    Read(ReadFault),
}

impl fmt::Display for OpenFault {
    ghost use Rattle.std.specs.Prelude.{Some};
    ghost use Rattle.pcap_classic.specs.Messages.{open_message};

    ghost output = { λ fault. Some (open_message fault) };

    fn fmt<W: fmt::Write>(&self, f: &mut fmt::Formatter<W>) -> fmt::Result {
        match self {
            OpenFault::Header(fault) => write!(f, "{fault}"),
            OpenFault::Read(fault) => write!(f, "{fault}"),
        }
    }
}

impl Error for OpenFault {}
