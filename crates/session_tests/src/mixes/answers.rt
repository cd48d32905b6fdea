//! What the definitions answer to a call, what they leave, and how many turns they allow.

use super::calls::{Call, Reply};
use super::loads::{capture_numbered, program_numbered};
use super::model::Model;
use crate::assertions::Test;
use cbpf_code::Ext;
use cbpf_dbg::{Place, RunReply, SessionFault, Stop, When, Why};

/// The extensions that take no value.
static WITHOUT_VALUE: [Ext; 4] = [Ext::Nla, Ext::NlaN, Ext::PayOff, Ext::Rand];

/// The length of the program.
fn length(m: &Model) -> Result<u64, SessionFault> {
    match &m.program {
        Some(p) => Ok(u64::from(p.len())),
        None => Err(SessionFault::NoProgram),
    }
}

/// The number of packets, where there are a program and a capture.
fn packets(m: &Model) -> Result<u64, SessionFault> {
    length(m)?;
    match &m.capture {
        Some(capture) => Ok(capture.count()),
        None => Err(SessionFault::NoCapture),
    }
}

/// The number of packets, which is not 0.
fn some_packets(m: &Model) -> Result<u64, SessionFault> {
    match packets(m)? {
        0 => Err(SessionFault::NoPackets),
        count => Ok(count),
    }
}

/// Refuses a number that no instruction has.
fn instruction(m: &Model, n: u64) -> Result<(), SessionFault> {
    if n < length(m)? {
        Ok(())
    } else {
        Err(SessionFault::NoInstruction)
    }
}

/// Refuses a number that no packet has.
fn packet(m: &Model, n: u64) -> Result<(), SessionFault> {
    let count = some_packets(m)?;
    if 1 <= n && n <= count {
        Ok(())
    } else {
        Err(SessionFault::NoPacket)
    }
}

/// What `mark` answers.
pub fn mark(m: &Model) -> Result<Place, SessionFault> {
    packets(m)?;
    Ok(m.place)
}

/// Counts up to the last packet, and goes back to the start.
fn finish(m: &mut Model, packets: u64) -> RunReply {
    let counts = m.counts(packets.saturating_add(1));
    m.go_before(1);
    RunReply::Finished(counts)
}

/// The packet before which a run with this limit ends, if there is one.
fn limit_of(m: &Model, packets: u64, limit: Option<u64>) -> Option<u64> {
    let next = m.place.packet.checked_add(limit?)?;
    if next <= packets { Some(next) } else { None }
}

/// What `stops` answers.
pub fn stops(rt: &impl Test, m: &Model) -> Result<Vec<Stop>, SessionFault> {
    packets(m)?;
    Ok(m.hits_ahead(rt))
}

fn run(rt: &impl Test, m: &mut Model, limit: Option<u64>) -> Result<RunReply, SessionFault> {
    let packets = packets(m)?;
    if limit == Some(0) {
        return Err(SessionFault::ZeroCount);
    }
    let end = limit_of(m, packets, limit);
    match m.hits_ahead(rt).first() {
        Some(stop) if stop.place.packet < end.unwrap_or(u64::MAX) => {
            m.place = stop.place;
            return Ok(RunReply::Stopped(*stop));
        }
        _ => {}
    }
    let Some(next) = end else {
        return Ok(finish(m, packets));
    };
    m.place = Place {
        packet: next,
        step: 0,
    };
    Ok(RunReply::Limit(m.counts(next)))
}

fn step_on(m: &mut Model, n: u64, packets: u64) -> RunReply {
    let Some(entry) = m.entry_ahead(n) else {
        return finish(m, packets);
    };
    m.place = entry.place;
    RunReply::Stopped(entry.stop(Why::Step))
}

fn step_back(rt: &impl Test, m: &mut Model, n: u64) -> Result<RunReply, SessionFault> {
    let most = m.place.step.saturating_sub(1);
    let back = u32::try_from(n).unwrap_or(u32::MAX);
    if most < back {
        return Err(SessionFault::TooFarBack(most));
    }
    m.place.step = m.place.step.saturating_sub(back);
    let entry = m.entry_at(m.place).expect(rt, "an entry");
    Ok(RunReply::Stopped(entry.stop(Why::Step)))
}

fn step(rt: &impl Test, m: &mut Model, n: i64) -> Result<RunReply, SessionFault> {
    let packets = some_packets(m)?;
    match n {
        0 => Err(SessionFault::ZeroCount),
        _ if n > 0 => Ok(step_on(m, n.unsigned_abs(), packets)),
        _ => step_back(rt, m, n.unsigned_abs()),
    }
}

fn select(m: &mut Model, n: u64) -> Result<(), SessionFault> {
    packet(m, n)?;
    m.go_before(n);
    Ok(())
}

fn resume(m: &mut Model, place: Place) -> Result<(), SessionFault> {
    packet(m, place.packet)?;
    let steps = m.steps_of(place.packet);
    if steps < place.step {
        return Err(SessionFault::NoStep(steps));
    }
    m.place = place;
    m.origin = place.packet;
    Ok(())
}

fn set_breakpoint(rt: &impl Test, m: &mut Model, n: u64, when: When) -> Result<(), SessionFault> {
    instruction(m, n)?;
    for breakpoint in m.breakpoints.iter_mut() {
        if u64::from(breakpoint.0) == n {
            breakpoint.1 = when;
            return Ok(());
        }
    }
    let n = u32::try_from(n).ok().expect(rt, "an instruction");
    m.breakpoints.push((n, when)).expect(rt, "memory");
    Ok(())
}

fn delete(m: &mut Model, n: u64) -> Result<bool, SessionFault> {
    instruction(m, n)?;
    let before = m.breakpoints.len();
    m.breakpoints.retain(|(at, _)| u64::from(*at) != n);
    Ok(m.breakpoints.len() < before)
}

fn set_value(rt: &impl Test, m: &mut Model, e: Ext, v: u32) -> Result<(), SessionFault> {
    for without in &WITHOUT_VALUE {
        if *without == e {
            return Err(SessionFault::TakesNoValue);
        }
    }
    m.values.push((e, v)).expect(rt, "memory");
    m.join(rt);
    m.go_before(m.place.packet);
    Ok(())
}

fn load_program(rt: &impl Test, m: &mut Model, n: u64) -> Reply {
    m.program = Some(program_numbered(rt, n));
    m.breakpoints.clear();
    m.join(rt);
    m.go_before(1);
    Reply::Done
}

fn load_capture(rt: &impl Test, m: &mut Model, n: u64) -> Reply {
    m.capture = Some(capture_numbered(rt, n));
    m.join(rt);
    m.go_before(1);
    Reply::Done
}

/// What a call answers; the model is then as the call leaves it.
pub fn answer(rt: &impl Test, m: &mut Model, call: Call) -> Reply {
    match call {
        Call::Program(n) => load_program(rt, m, n),
        Call::Capture(n) => load_capture(rt, m, n),
        Call::Break(n, when) => Reply::Answered(set_breakpoint(rt, m, n, when)),
        Call::Delete(n) => Reply::Deleted(delete(m, n)),
        Call::Reset => {
            m.breakpoints.clear();
            Reply::Done
        }
        Call::Run(limit) => Reply::Ran(run(rt, m, limit)),
        Call::Step(n) => Reply::Ran(step(rt, m, n)),
        Call::Select(n) => Reply::Answered(select(m, n)),
        Call::Resume(place) => Reply::Answered(resume(m, place)),
        Call::SetValue(e, v) => Reply::Answered(set_value(rt, m, e, v)),
    }
}

/// How many turns a trail makes on the way back to a step: those from the last state that it keeps.
fn turns_back(step: u32, keeps_all: bool) -> u128 {
    if keeps_all {
        0
    } else {
        u128::from(step.saturating_sub(1) % 64)
    }
}

/// How many turns it takes to resume a step: twice those of the entries before it.
fn turns_there(step: u32) -> u128 {
    let before = u128::from(step.saturating_sub(1));
    before.saturating_mul(2)
}

/// How many turns a run or a step from a place makes that leaves the model so.
fn turns_of_reply(m: &Model, from: Place, reply: RunReply, keeps_all: bool) -> u128 {
    match reply {
        RunReply::Finished(_) => m.entries_between(from, None),
        RunReply::Limit(_) => m.entries_between(from, Some(m.place)),
        RunReply::Stopped(stop) if from < stop.place => m.entries_between(from, Some(stop.place)),
        RunReply::Stopped(stop) => turns_back(stop.place.step, keeps_all),
    }
}

/// How many turns a call from a place makes that leaves the model so.
pub fn turns(m: &Model, from: Place, call: Call, reply: Reply, keeps_all: bool) -> u128 {
    match (call, reply) {
        (_, Reply::Ran(Ok(reply))) => turns_of_reply(m, from, reply, keeps_all),
        (_, Reply::Answered(Err(SessionFault::NoStep(steps)))) => u128::from(steps),
        (Call::Resume(place), Reply::Answered(Ok(()))) => turns_there(place.step),
        _ => 0,
    }
}
