//! Sessions of a debugger for classic BPF: what its commands do with a program over the packets of a capture.
//!
//! Commands that `bpf_dbg` has (Linux Documentation/networking/filter, "BPF engine and instruction set") do what they do
//! there, but for the differences that docs/KERNEL_TOOLS.md lists; the others are this project's own.
#![tactic(auto)]

mod commands;
mod cursor;
mod law;
mod loaded;
mod resume;
mod run;
mod run_to_end;
mod session;
mod step;
mod stops;
mod watching;

pub use cbpf_code::{Ext, Program, WriteFault};
pub use cbpf_machine::{
    ListTrail, MOST_TURNS_BACK, MarkTrail, Meter, Packet, State, Trail, Values,
};
pub use cbpf_reply::{Counts, Place, RunReply, SessionFault, Stop, When, Why};
pub use law::rising_places;
pub use pcap_classic::Capture;
pub use session::Session;
pub use stops::Stops;
