//! Calls of a session, and what it answers.

use super::loads::{capture_numbered, program_numbered};
use crate::assertions::Test;
use cbpf_code::Ext;
use cbpf_dbg::{Meter, Place, RunReply, Session, SessionFault, Trail, When};

/// A call of a session.
#[derive(Clone, Copy, Debug)]
pub enum Call {
    /// Loads the program of this number.
    Program(u64),
    /// Loads the capture of this number.
    Capture(u64),
    /// `breakpoint` for `When::Always`, and else `breakpoint_when`.
    Break(u64, When),
    Delete(u64),
    Reset,
    Run(Option<u64>),
    Step(i64),
    Select(u64),
    Resume(Place),
    SetValue(Ext, u32),
}

/// What a call answers.
#[derive(Clone, Copy, Debug, PartialEq, Eq)]
pub enum Reply {
    Done,
    Answered(Result<(), SessionFault>),
    Deleted(Result<bool, SessionFault>),
    Ran(Result<RunReply, SessionFault>),
}

/// Makes a call that changes breakpoints or values.
fn make_change<T: Trail>(s: &mut Session<T>, call: Call) -> Reply {
    match call {
        Call::Break(n, When::Always) => Reply::Answered(s.breakpoint(n)),
        Call::Break(n, when) => Reply::Answered(s.breakpoint_when(n, when)),
        Call::Delete(n) => Reply::Deleted(s.delete(n)),
        Call::SetValue(e, v) => Reply::Answered(s.set_value(e, v)),
        _ => {
            s.reset_breakpoints();
            Reply::Done
        }
    }
}

/// Makes a call of a session.
pub fn make_call<T: Trail>(
    rt: &impl Test,
    s: &mut Session<T>,
    meter: &mut Meter,
    call: Call,
) -> Reply {
    assert!(rt; meter.spent() == 0);
    match call {
        Call::Program(n) => {
            s.load_program(program_numbered(rt, n));
            Reply::Done
        }
        Call::Capture(n) => {
            s.load_capture(capture_numbered(rt, n));
            Reply::Done
        }
        Call::Run(limit) => Reply::Ran(s.run(meter, limit)),
        Call::Step(n) => Reply::Ran(s.step(meter, n)),
        Call::Select(n) => Reply::Answered(s.select(n)),
        Call::Resume(place) => Reply::Answered(s.resume(meter, place)),
        _ => make_change(s, call),
    }
}
