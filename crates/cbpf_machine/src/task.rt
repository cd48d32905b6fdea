//! A program and a packet to run it on.

use crate::load::Packet;
use crate::values::Values;
use cbpf_code::Program;
use std::alloc::{Allocator, Global};

/// A program, a packet to run it on, and the values for extensions.
#[derive(Drop)]
pub struct Task<'a, A: Allocator = Global> {
    /// The program.
    pub program: &'a Program<A>,
    /// The packet.
    pub packet: Packet<'a>,
    /// The values for extensions.
    pub values: &'a Values,
}
