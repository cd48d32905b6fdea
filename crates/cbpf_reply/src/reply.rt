//! What a session answers.

use cbpf_code::Ext;
use cbpf_machine::State;

/// A place in a capture.
///
/// At step `s` of 1 or more the current state is entry `s` of the packet's trace, whose instruction
/// has not been executed yet. At step 0 the packet has not begun, and there is no current state.
///
/// Places are ordered by the packet, then by the step.
#[derive(Clone, Copy, Debug, PartialEq, Eq, PartialOrd, Ord)]
pub struct Place {
    /// The number of the packet, counted from 1.
    pub packet: u64,
    /// How many entries of the packet's trace were reached, with the current one.
    pub step: u32,
}

/// Why a session stopped.
#[derive(Clone, Copy, Debug, PartialEq, Eq)]
pub enum Why {
    /// The instruction carries a breakpoint, whose condition holds.
    Break,
    /// A step was made.
    Step,
    /// The instruction asks for an extension that has no value.
    Unknown(Ext),
}

/// A stop, before an instruction is executed.
#[derive(Clone, Copy, Debug, PartialEq, Eq)]
pub struct Stop {
    pub place: Place,
    /// The registers before the instruction.
    pub state: State,
    pub why: Why,
}

/// How many packets ended in which way.
#[derive(Clone, Copy, Debug, PartialEq, Eq)]
pub struct Counts {
    /// The program returned a number other than 0.
    pub passes: u64,
    /// The program returned 0, loaded from outside the packet or divided by 0.
    pub fails: u64,
    /// The program asked for an extension that has no value.
    pub unknown: u64,
}

/// The answer of a command that can come to a stop.
#[derive(Clone, Copy, Debug, PartialEq, Eq)]
pub enum RunReply {
    /// It stopped before an instruction.
    Stopped(Stop),
    /// The limit of packets was reached; the counts go from the packet from which the session counts to the last one
    /// before the limit.
    Limit(Counts),
    /// The last packet is finished; the counts go from the packet from which the session counts to the capture's last.
    Finished(Counts),
}

/// Why a command was refused. The session is then as it was, but for `Memory` of a run to the end, which leaves it at the
/// last stop found.
#[derive(Clone, Copy, Debug, PartialEq, Eq)]
pub enum SessionFault {
    /// S1: no program is loaded.
    NoProgram,
    /// S2: no capture is loaded.
    NoCapture,
    /// S3: the capture has no packets.
    NoPackets,
    /// S4: the program has no such instruction.
    NoInstruction,
    /// S5: the capture has no such packet.
    NoPacket,
    /// S6: the packet has no such step; this is how many it has.
    NoStep(u32),
    /// S7: a step back beyond the packet's first entry; this is the most that fits.
    TooFarBack(u32),
    /// S8: a count of 0.
    ZeroCount,
    /// S9: the extension takes no value.
    TakesNoValue,
    /// Out of memory.
    Memory,
}
