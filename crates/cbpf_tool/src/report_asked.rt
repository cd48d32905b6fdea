//! What is asked of a capture.

ghost use Rattle.cbpf_why.specs.Chosen.{AreSorted, sorted_is_a_fact};

use cbpf_dbg::Values;
use cbpf_why::{PacketRange, Report};

/// Which report is asked for, with which values of extensions, and on which packets.
#[derive(Debug, Drop)]
pub struct ReportAsked {
    pub report: Report,
    pub values: Values,
    /// Which packets are looked at, sorted; none, where the list is empty.
    pub packets: Vec<PacketRange>,
    ghost sorted: { AreSorted packets.items } by { sorted_is_a_fact packets.items },
}
