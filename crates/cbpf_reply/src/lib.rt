//! What a debugger's session answers, and the texts that the debugger prints, a file for each notion. The listing and the
//! texts of errors C and N are those of `cbpf_code`, and the texts of errors P those of `pcap_classic`.
//!
//! What `bpf_dbg` prints in the kernel's Documentation/networking/filter has the same parts here; the
//! layout of the dump of a stop, and all other texts, are this project's own.
#![tactic(auto)]

mod breakpoints;
mod c_dump;
mod counts;
mod dump;
mod equality;
mod errors;
mod law;
mod loads;
mod packet;
mod record;
mod reply;
mod scratch;
mod stops;
mod values;

pub use breakpoints::{write_breakpoint, write_list_end, write_list_head, write_listed};
pub use c_dump::write_c_dump;
pub use cbpf_machine::When;
pub use counts::{write_finished, write_limit, write_place, write_went_to};
pub use dump::write_stop;
pub use equality::equal_where_same;
pub use errors::{CommandFault, LoadFault, write_error, write_message};
pub use law::{place_order, row_length};
pub use loads::{write_capture, write_cut, write_program};
pub use record::{packet_of, task_of};
pub use reply::{Counts, Place, RunReply, SessionFault, Stop, Why};
pub use stops::{write_stop_line, write_total};
pub use values::write_value;
