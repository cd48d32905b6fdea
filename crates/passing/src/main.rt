//! Prints the numbers of the packets of a capture that pass a filter: `passing FILTER CAPTURE`.
#![tactic(auto)]

mod numbers;

use cbpf_why::{FilterFault, program_of};
use numbers::passing;
use pcap_classic::{Capture, CaptureFault};
use std::alloc::AllocError;
use std::process::ExitCode;
use std::rt::{Env, Files};
use std::{env, fs, io};
use thiserror::Error;

/// Why there are no numbers.
#[derive(Debug, Drop, Error)]
enum Fault {
    #[error("usage: passing FILTER CAPTURE")]
    Usage,
    #[error("{0}")]
    Io(#[from] io::Error),
    #[error("{0}")]
    Filter(#[from] FilterFault),
    #[error("{0}")]
    Capture(#[from] CaptureFault),
    #[error("out of memory")]
    Memory(#[from] AllocError),
}

fn print_numbers<R: Env + Files + Print + AllocGlobal>(rt: &R) -> Result<(), Fault> {
    let alloc = rt.alloc();
    let mut words = env::args(rt)?.skip(1);
    let (Some(filter), Some(file)) = (words.next(), words.next()) else {
        return Err(Fault::Usage);
    };
    let mut text = fs::read(rt, filter.as_str())?;
    let program = program_of(alloc, text.as_mut_slice())?;
    let capture = Capture::new(alloc, fs::read(rt, file.as_str())?)?;
    for number in passing(alloc, &program, &capture)?.iter() {
        println!(rt; "{number}")?;
    }
    Ok(())
}

fn main(rt: HostRuntime) -> ExitCode {
    match print_numbers(&rt) {
        Ok(()) => ExitCode::SUCCESS,
        Err(fault) => {
            let _ = eprintln!(rt; "{fault}");
            ExitCode::FAILURE
        }
    }
}
