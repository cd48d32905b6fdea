//! What is asked of a capture.

ghost use Rattle.cbpf_why.specs.Chosen.{AreSorted, sorted_is_a_fact};

use crate::chosen::PacketRange;
use crate::report::Report;
use cbpf_code::Program;
use cbpf_machine::Values;
use std::alloc::Allocator;

/// A program with values for extensions, and what is to be reported of it.
#[derive(Drop)]
pub struct Question<'a, P: Allocator> {
    pub program: &'a Program<P>,
    pub values: &'a Values,
    pub report: Report,
    /// Which packets are looked at, sorted; none, where the list is empty.
    pub packets: &'a [PacketRange],
    ghost sorted: { AreSorted packets.now } by { sorted_is_a_fact packets.now },
}
