//! The assembler: source text in, instructions out; and the listing of a program, which it takes
//! back.
//!
//! Labels are those of the kernel's Documentation/networking/filter, and so are mnemonics, addressing modes and
//! extensions, but for those that their tables call this project's own; comments, number spellings and refusals are
//! this project's own.
#![tactic(auto)]

mod assembler;
mod draft;
mod encode;
mod equality;
mod fault;
mod labels;
mod law;
mod name;
mod operand;
mod placed;
mod round_trip;
mod source;

pub use assembler::{assemble, assemble_placed};
pub use cbpf_code::write_line;
pub use cbpf_syntax::{Kind, Token};
pub use equality::equal_where_same;
pub use fault::{AsmFault, AsmKind};
pub use law::{listing_assembles, one_assembly};
pub use placed::PlacedFault;
pub use round_trip::write_listing;
pub use source::tokens;
