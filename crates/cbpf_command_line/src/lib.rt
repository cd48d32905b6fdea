//! The command line of `cbpf`: which job its words ask for.
#![tactic(auto)]

mod commands;
mod equality;
mod job;
mod parse;
mod request;
mod why;

pub use cbpf_code::Form;
pub use equality::equal_where_same;
pub use job::{Job, LineFault};
pub use parse::command_line;
pub use request::{Detail, RequestWords, WhyWords};
pub use why::{refused_word, request_line};
