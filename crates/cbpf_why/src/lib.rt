//! Which packets of a capture pass a program, and why the others don't, for captures of any size.
#![tactic(auto)]

mod block_nodes;
mod blocks;
mod chosen;
mod columns;
mod coverage;
mod end_nodes;
mod ended;
mod equality;
mod filter;
mod gathered;
mod graph;
mod groups;
mod law;
mod packets;
mod question;
mod report;
mod reporting;
mod taking;
mod traces;

pub use chosen::{ALL_PACKETS, PacketRange};
pub use ended::{Ended, Verdict};
pub use equality::equal_where_same;
pub use filter::{FilterFault, program_of};
pub use law::{laws_of_graphs, laws_of_groups, one_filter, totals_of_outcomes};
pub use question::Question;
pub use report::Report;
pub use reporting::{CaptureEnd, WhyFault, why};
