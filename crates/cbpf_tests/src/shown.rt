//! What faults are shown as.

use crate::assertions::{Test, assert_named};
use cbpf_reply::{CommandFault, SessionFault};
use cbpf_tool::{CreateFault, Failure, LineFault, LoadFault, ToolFault, WhyFailure};
use cbpf_why::WhyFault;
use pcap_classic::{CaptureFault, HeaderFault, OpenFault, ReadFault};
use std::fmt::Display;
use std::io::{Error, ErrorKind};

/// Asserts that a value is shown as a text.
fn assert_shown<D: Display + Drop>(rt: &impl Test, value: D, text: &str) {
    let shown = format!(in rt.alloc(); "{value}");
    assert_named(
        rt,
        matches!(&shown, Ok(shown) if shown.as_str() == text),
        text,
        0,
    );
}

/// What a fault says is shown by `{}` without `error: `.
#[test]
fn faults_of_sessions(rt: HostRuntime) {
    assert_shown(&rt, SessionFault::NoProgram, "S1 no program");
    assert_shown(&rt, SessionFault::NoCapture, "S2 no capture");
    assert_shown(&rt, SessionFault::NoPackets, "S3 capture has no packets");
    assert_shown(&rt, SessionFault::NoInstruction, "S4 no such instruction");
    assert_shown(&rt, SessionFault::NoPacket, "S5 no such packet");
    assert_shown(&rt, SessionFault::NoStep(4), "S6 packet has 4 steps");
    assert_shown(&rt, SessionFault::TooFarBack(3), "S7 at most 3 back");
    assert_shown(&rt, SessionFault::ZeroCount, "S8 count is zero");
    assert_shown(
        &rt,
        SessionFault::TakesNoValue,
        "S9 no value for this extension",
    );
    assert_shown(&rt, SessionFault::Memory, "out of memory");
}

#[test]
fn faults_of_lines_and_files(rt: HostRuntime) {
    assert_shown(&rt, CommandFault::UnknownCommand, "Q1 unknown command");
    assert_shown(&rt, CommandFault::WrongArguments, "Q2 wrong arguments");
    assert_shown(&rt, LoadFault::Absent, "F1 no such file");
    assert_shown(&rt, LoadFault::Device, "F2 file could not be read");
    assert_shown(&rt, LoadFault::Memory, "out of memory");
}

/// What a fault says is shown by `{}` without `error: `.
#[test]
fn faults_of_captures(rt: HostRuntime) {
    let magic = CaptureFault::Header(HeaderFault::UnknownMagic(0));
    assert_shown(&rt, magic, "P2 unknown magic");
    assert_shown(&rt, CaptureFault::Memory, "out of memory");
    assert_shown(&rt, HeaderFault::UnknownVersion, "P3 version is not 2.4");
    let cut = OpenFault::Header(HeaderFault::FileHeaderCut);
    assert_shown(&rt, cut, "P1 file header is cut");
    let failed = ReadFault::Read(Error::from(ErrorKind::Interrupted));
    assert_shown(&rt, OpenFault::Read(failed), "read fault");
    assert_shown(&rt, ReadFault::Memory, "out of memory");
}

#[test]
fn faults_of_jobs(rt: HostRuntime) {
    assert_shown(&rt, WhyFault::Read, "read fault");
    assert_shown(&rt, WhyFault::Write, "write fault");
    assert_shown(&rt, WhyFault::Memory, "out of memory");
    assert_shown(&rt, ToolFault::Read, "read fault");
    assert_shown(&rt, ToolFault::Write, "write fault");
    assert_shown(&rt, ToolFault::Memory, "out of memory");
    assert_shown(
        &rt,
        WhyFailure::Input(HeaderFault::UnknownMagic(0)),
        "P2 unknown magic",
    );
    assert_shown(&rt, Failure::Tool(ToolFault::Write), "write fault");
    assert_shown(&rt, CreateFault::NotCreated, "cannot open");
    assert_shown(&rt, CreateFault::Memory, "out of memory");
    assert_shown(&rt, LineFault::Memory, "out of memory");
}
