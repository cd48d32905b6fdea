//! The filter machine of classic BPF: one turn, one packet, and trails of the states that a packet
//! has passed.
//!
//! The instructions of Linux Documentation/networking/filter ("BPF engine and instruction set") and
//! bpf(4) ("FILTER MACHINE") do what these say. All else is this project's own: so a shift by 32 or
//! more gives 0, and an absolute load from an extension's number gives the value that the extension was
//! given, or ends the packet's run as `Unknown` where it has none.
#![tactic(auto)]

mod arithmetic;
mod equality;
mod execute;
mod follow;
mod list_trail;
mod load;
mod mark_trail;
mod meter;
mod missing;
mod outcome;
mod packet_end;
mod pause;
mod reach;
mod running;
mod state;
mod tally;
mod task;
mod trail;
mod values;
mod whole_packet;

pub use equality::equal_where_same;
pub use execute::turn;
pub use follow::{Choice, Followed, follow_on, follow_packet};
pub use list_trail::ListTrail;
pub use load::Packet;
pub use mark_trail::MarkTrail;
pub use meter::Meter;
pub use missing::missing_extension;
pub use outcome::{End, Outcome, Turn};
pub use packet_end::{Decided, PacketEnd, decided_end, end_of_packet};
pub use pause::{Before, Never, Pause, Watched, When};
pub use state::{Core, State};
pub use tally::{Runs, Tally};
pub use task::Task;
pub use trail::{MOST_TURNS_BACK, Trail};
pub use values::Values;
pub use whole_packet::{outcome_of, run_packet};
