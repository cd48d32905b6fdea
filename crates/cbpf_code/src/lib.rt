//! Classic BPF: instructions, the code table, the extensions and the checker, and the texts in which
//! a program is read, written and listed.
#![tactic(auto)]

mod c_form;
mod checker;
mod equality;
mod extension;
mod form;
mod insn;
mod law;
mod listing;
mod message;
mod opcode;
mod program;
mod scan;
mod shown;
mod slots;
mod word_form;
mod words;
mod writing;

pub use c_form::write_c;
pub use checker::{CheckFault, MAX_INSTRUCTIONS, SLOTS, check};
pub use equality::equal_where_same;
pub use extension::{Ext, FIRST_EXTENSION, ext_at, ext_name, ext_named, ext_offset};
pub use form::Form;
pub use insn::Insn;
pub use law::each_has_answer;
pub use listing::{prepend_line, write_line, write_lines};
pub use message::Message;
pub use opcode::{AluOp, Cond, Op, Size, Src, code_of, op_of, op_of_byte};
pub use program::Program;
pub use scan::{is_blank, is_digit, laws_of_tokens};
pub use word_form::write_words;
pub use words::{WordFault, read_words};
pub use writing::{
    LINE_SIZE, Line, WriteFault, write_bytes, write_decimal, write_hex, write_parts,
    write_with_number,
};
