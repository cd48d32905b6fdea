//! Packets, and loads from them.

ghost use Rattle.std.specs.Prelude.{◌≡◌};
ghost use Rattle.cbpf_machine.specs.PacketNumber.{packet_number};
ghost use Rattle.cbpf_machine.specs.Turn.{width};

use byteorder::{BigEndian, ByteOrder};
use cbpf_code::Size;

/// A packet as a capture has it.
#[derive(Clone, Copy, Debug, PartialEq, Eq)]
pub struct Packet<'a> {
    /// The captured bytes.
    pub bytes: &'a [u8],
    /// The original length in bytes, which may be more than was captured.
    pub wire: u32,
}

/// The number at an offset of the captured bytes, in network byte order; `None` where it isn't inside.
#[inline(always)]
pub(crate) fn packet_number(bytes: &[u8], at: u32, size: Size) -> Option<u32>
    ensures { result ≡ packet_number bytes.now at (width size) }
{
    let at = at as usize;
    // Not by `?`, with which a run takes twice as many machine instructions.
    match size {
        Size::Word if at + 4 <= bytes.len() => Some(BigEndian::read_u32(&bytes[at..])),
        Size::Half if at + 2 <= bytes.len() => Some(u32::from(BigEndian::read_u16(&bytes[at..]))),
        Size::Byte if at < bytes.len() => Some(u32::from(bytes[at])),
        _ => None,
    }
}
