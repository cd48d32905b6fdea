//! The jobs of `cbpf`: the debugger over a script of commands, the assembler over a source, why packets of a capture
//! pass a filter or fail it, and what a command line asks for.
#![tactic(auto)]

mod arguments;
mod asm_on_host;
mod assembler;
mod command;
mod dbg_on_host;
mod debugger;
mod disk_files;
mod equality;
mod exit;
mod failure;
mod fault;
mod files;
mod flushing;
mod hints;
mod host;
mod law;
mod lent;
mod line_reader;
mod line_words;
mod loads;
mod memory_files;
mod number;
mod remarks;
mod reply_to;
mod report_asked;
mod request;
mod run_job;
mod source_line;
mod why_failure;
mod why_on_host;

pub use asm_on_host::asm_job;
pub use assembler::asm;
pub use cbpf_command_line::{Form, Job, LineFault, command_line};
pub use cbpf_reply::LoadFault;
pub use dbg_on_host::dbg_job;
pub use debugger::debug;
pub use disk_files::DiskFiles;
pub use equality::equal_where_same;
pub use exit::{Exit, run_words, write_exit};
pub use failure::Failure;
pub use fault::ToolFault;
pub use files::Files;
pub use hints::Hint;
pub use host::{CreateFault, Host};
pub use law::{one_output, same_totals};
pub use memory_files::MemoryFiles;
pub use remarks::{Remarks, write_remarks};
pub use report_asked::ReportAsked;
pub use request::{Request, WhyJob, read_request};
pub use run_job::{request_status, run_request};
pub use why_failure::WhyFailure;
pub use why_on_host::why_job;

/// The most bytes of one read. The readers of a source and of a script clear a buffer of this size when they start.
pub(crate) const READ_SIZE: usize = 2048;
