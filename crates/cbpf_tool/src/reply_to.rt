//! A command of the session is done, and its reply written.

#![tactic(auto, using(crate::proofs::SessionReplyLemmas::replies))]

ghost use Rattle.cbpf_code.specs.Writing.{Wrote};
ghost use Rattle.cbpf_reply.specs.Breakpoints.{set_in, listed_text, list_text, breakpoints_text};
ghost use Rattle.cbpf_tool.specs.Progress.{Replies, Writes};
ghost use Rattle.std.specs.Prelude.{◌≡◌, ◌+◌, ◌<◌, ◌^◌, length, IfOk};
ghost use Rattle.std.specs.List.{flat_map};
ghost use Rattle.cbpf_dbg.specs.Shown.{Shows};
ghost use Rattle.cbpf_tool.specs.RunText.{run_text};
ghost use Rattle.cbpf_reply.specs.Stops.{stop_line, stops_text};
ghost use Rattle.cbpf_tool.specs.SessionReplies as spec;
ghost use Rattle.cbpf_tool.specs.declared.command.SessionCommand.TheVariants as command;

use crate::command::SessionCommand;
use cbpf_code::{Ext, WriteFault};
use cbpf_dbg::{MarkTrail, Meter, Place, RunReply, Session, Stops, When};
use cbpf_reply::{
    SessionFault, write_breakpoint, write_c_dump, write_error, write_finished, write_limit,
    write_list_end, write_list_head, write_listed, write_place, write_stop_line, write_total,
    write_value, write_went_to,
};
use cbpf_text::write_listing;
use std::alloc::Allocator;
use std::io::Write;

/// Does a command of the session, and writes its reply.
// Inlined: a call costs `mark` 6 % more.
#[inline(always)]
pub(crate) fn reply_to<A: Allocator + Copy, W: Write>(
    w: &mut W,
    session: &mut ScriptSession<A>,
    command: SessionCommand,
) -> Result<(), WriteFault>
    ensures { Replies session.old session.new command (λ t. Wrote (W.contents w.old) (W.contents w.new) result t) }
{
    match command {
        SessionCommand::Run(limit) => run(w, session, limit),
        SessionCommand::Disassemble => disassemble(w, session),
        SessionCommand::Dump => dump(w, session),
        SessionCommand::Breakpoint(n, when) => set_breakpoint(w, session, n, when),
        SessionCommand::Breakpoints => write_breakpoints(w, session),
        SessionCommand::ResetBreakpoints => reset_breakpoints(w, session),
        SessionCommand::Delete(n) => delete(w, session, n),
        SessionCommand::Step(n) => step(w, session, n),
        SessionCommand::Select(n) => select(w, session, n),
        SessionCommand::Mark => mark(w, session),
        SessionCommand::Resume(place) => resume(w, session, place),
        SessionCommand::Stops => stops(w, session),
        SessionCommand::Value(e, n) => set_value(w, session, e, n),
    }
}

/// `run`
fn run<A: Allocator, W: Write>(
    w: &mut W,
    session: &mut ScriptSession<A>,
    limit: Option<u64>,
) -> Result<(), WriteFault>
    ensures { Writes (spec.reply_to (command.Run limit) session.old) session.new
        (λ t. Wrote (W.contents w.old) (W.contents w.new) result t) }
{
    let mut meter = Meter::new();
    match session.run(&mut meter, limit) {
        Ok(reply) => write_run(w, session, reply),
        Err(fault) => write_error(w, fault.message()),
    }
}

/// `step`
fn step<A: Allocator, W: Write>(
    w: &mut W,
    session: &mut ScriptSession<A>,
    n: i64,
) -> Result<(), WriteFault>
    ensures { Writes (spec.reply_to (command.Step n) session.old) session.new
        (λ t. Wrote (W.contents w.old) (W.contents w.new) result t) }
{
    let mut meter = Meter::new();
    match session.step(&mut meter, n) {
        Ok(reply) => write_run(w, session, reply),
        Err(fault) => write_error(w, fault.message()),
    }
}

/// `select`
fn select<A: Allocator, W: Write>(
    w: &mut W,
    session: &mut ScriptSession<A>,
    n: u64,
) -> Result<(), WriteFault>
    ensures { Writes (spec.reply_to (command.Select n) session.old) session.new
        (λ t. Wrote (W.contents w.old) (W.contents w.new) result t) }
{
    match session.select(n) {
        Ok(()) => write_went_to(w, Place { packet: n, step: 0 }),
        Err(fault) => write_error(w, fault.message()),
    }
}

/// `resume`
fn resume<A: Allocator, W: Write>(
    w: &mut W,
    session: &mut ScriptSession<A>,
    place: Place,
) -> Result<(), WriteFault>
    ensures { Writes (spec.reply_to (command.Resume place) session.old) session.new
        (λ t. Wrote (W.contents w.old) (W.contents w.new) result t) }
{
    let mut meter = Meter::new();
    match session.resume(&mut meter, place) {
        Ok(()) => write_went_to(w, place),
        Err(fault) => write_error(w, fault.message()),
    }
}

/// Where the breakpoint at instruction `n` was set, and when it stops.
fn write_set<A: Allocator, W: Write>(
    w: &mut W,
    session: &ScriptSession<A>,
    n: u64,
    when: When,
) -> Result<(), WriteFault>
    requires { spec.HasInstruction session.now.program n }
    ensures { Wrote (W.contents w.old) (W.contents w.new) result (set_in session.now.program n when) }
{
    match session.program() {
        Some(program) => {
            let _few = program.len();
            write_breakpoint(w, program, n as u32, when)
        }
        None => unreachable!(),
    }
}

/// `breakpoint n`, also with a condition
fn set_breakpoint<A: Allocator + Copy, W: Write>(
    w: &mut W,
    session: &mut ScriptSession<A>,
    n: u64,
    when: When,
) -> Result<(), WriteFault>
    ensures { Replies session.old session.new (command.Breakpoint n when)
        (λ t. Wrote (W.contents w.old) (W.contents w.new) result t) }
{
    match session.breakpoint_when(n, when) {
        Ok(()) => write_set(w, session, n, when),
        Err(fault) => write_error(w, fault.message()),
    }
}

/// `breakpoint reset`
fn reset_breakpoints<A: Allocator, W: Write>(
    w: &mut W,
    session: &mut ScriptSession<A>,
) -> Result<(), WriteFault>
    ensures { Writes (spec.reply_to command.ResetBreakpoints session.old) session.new
        (λ t. Wrote (W.contents w.old) (W.contents w.new) result t) }
{
    session.reset_breakpoints();
    write_breakpoints(w, session)
}

/// `delete`
fn delete<A: Allocator, W: Write>(
    w: &mut W,
    session: &mut ScriptSession<A>,
    n: u64,
) -> Result<(), WriteFault>
    ensures { Writes (spec.reply_to (command.Delete n) session.old) session.new
        (λ t. Wrote (W.contents w.old) (W.contents w.new) result t) }
{
    match session.delete(n) {
        Ok(_) => write_breakpoints(w, session),
        Err(fault) => write_error(w, fault.message()),
    }
}

/// `value`
fn set_value<A: Allocator, W: Write>(
    w: &mut W,
    session: &mut ScriptSession<A>,
    e: Ext,
    n: u32,
) -> Result<(), WriteFault>
    ensures { Writes (spec.reply_to (command.Value e n) session.old) session.new
        (λ t. Wrote (W.contents w.old) (W.contents w.new) result t) }
{
    match session.set_value(e, n) {
        Ok(()) => write_value(w, e, n),
        Err(fault) => write_error(w, fault.message()),
    }
}

/// `mark`
fn mark<A: Allocator, W: Write>(w: &mut W, session: &ScriptSession<A>) -> Result<(), WriteFault>
    ensures { Writes (spec.reply_to command.Mark session.now) session.now
        (λ t. Wrote (W.contents w.old) (W.contents w.new) result t) }
{
    match session.mark() {
        Ok(place) => write_place(w, place),
        Err(fault) => write_error(w, fault.message()),
    }
}

/// `stops`
fn stops<A: Allocator, W: Write>(w: &mut W, session: &ScriptSession<A>) -> Result<(), WriteFault>
    ensures { Writes (spec.reply_to command.Stops session.now) session.now
        (λ t. Wrote (W.contents w.old) (W.contents w.new) result t) }
{
    match session.stops() {
        Ok(stops) => write_stops(w, stops),
        Err(fault) => write_error(w, fault.message()),
    }
}

/// `disassemble`
#[tactic(auto, using(crate::proofs::SessionReplyLemmas::replies))]
fn disassemble<A: Allocator, W: Write>(
    w: &mut W,
    session: &ScriptSession<A>,
) -> Result<(), WriteFault>
    ensures { Writes (spec.reply_to command.Disassemble session.now) session.now
        (λ t. Wrote (W.contents w.old) (W.contents w.new) result t) }
{
    match session.program() {
        Some(program) => write_listing(w, program),
        None => write_error(w, SessionFault::NoProgram.message()),
    }
}

/// `dump`
#[tactic(auto, using(crate::proofs::SessionReplyLemmas::replies), unfolding(cbpf_reply::specs::CDump::c_dump_text))]
fn dump<A: Allocator, W: Write>(w: &mut W, session: &ScriptSession<A>) -> Result<(), WriteFault>
    ensures { Writes (spec.reply_to command.Dump session.now) session.now
        (λ t. Wrote (W.contents w.old) (W.contents w.new) result t) }
{
    match session.program() {
        Some(program) => write_c_dump(w, program.as_slice()),
        None => write_error(w, SessionFault::NoProgram.message()),
    }
}

/// The session of a script.
pub(crate) type ScriptSession<A> = Session<MarkTrail, A>;

/// Writes a `RunReply` of this session: the dump of its stop, or the counts.
///
/// A stop is one of this session's, of the program and the capture that are loaded.
#[tactic(auto, unfolding(crate::specs::RunText::run_text))]
fn write_run<W: Write, A: Allocator>(
    w: &mut W,
    session: &ScriptSession<A>,
    reply: RunReply,
) -> Result<(), WriteFault>
    requires { Shows session.now reply }
    ensures { Wrote (W.contents w.old) (W.contents w.new) result (run_text reply session.now) }
{
    match reply {
        RunReply::Stopped(stop) => session.write_stop(w, &stop),
        RunReply::Limit(counts) => write_limit(w, counts, session.place().packet),
        RunReply::Finished(counts) => write_finished(w, counts),
    }
}

/// The breakpoints of a session.
fn write_all_listed<W: Write, A: Allocator>(
    w: &mut W,
    session: &ScriptSession<A>,
) -> Result<(), WriteFault>
    ensures { Wrote (W.contents w.old) (W.contents w.new) result (flat_map listed_text session.now.breakpoints) }
{
    for i in 0..session.breakpoint_count() {
        match (session.breakpoint_at(i), session.breakpoint_when_at(i)) {
            (Some(n), Some(when)) => write_listed(w, n, when)?,
            _ => unreachable!(),
        }
    }
    Ok(())
}

#[tactic(auto, using(cbpf_code::proofs::WrittenLemmas::pairs))]
fn write_list<W: Write, A: Allocator>(
    w: &mut W,
    session: &ScriptSession<A>,
) -> Result<(), WriteFault>
    ensures { Wrote (W.contents w.old) (W.contents w.new) result (list_text session.now.breakpoints) }
{
    write_all_listed(w, session)?;
    write_list_end(w)
}

/// Writes the breakpoints of a session, in order of setting.
#[tactic(auto, using(cbpf_code::proofs::WrittenLemmas::pairs), unfolding(cbpf_reply::specs::Breakpoints::breakpoints_text))]
fn write_breakpoints<W: Write, A: Allocator>(
    w: &mut W,
    session: &ScriptSession<A>,
) -> Result<(), WriteFault>
    ensures { Wrote (W.contents w.old) (W.contents w.new) result (breakpoints_text session.now.breakpoints) }
{
    write_list_head(w)?;
    write_list(w, session)
}

/// Writes a line for each stop, and returns how many there were.
fn write_stop_lines<W: Write, A: Allocator>(
    w: &mut W,
    stops: Stops<'_, A>,
) -> Result<u128, WriteFault>
    requires { length stops < 2 ^ 128 }
    ensures lines { Wrote (W.contents w.old) (W.contents w.new) result (flat_map stop_line stops.entry) }
    ensures count { IfOk result (λ n. n ≡ length stops.entry) }
{
    let mut count: u128 = 0;
    for stop in stops {
        write_stop_line(w, &stop)?;
        count += 1;
    }
    Ok(count)
}

/// Writes a line for each stop, and how many there are.
#[tactic(auto, using(cbpf_code::proofs::WrittenLemmas::pairs), unfolding(cbpf_reply::specs::Stops::stops_text))]
fn write_stops<W: Write, A: Allocator>(w: &mut W, stops: Stops<'_, A>) -> Result<(), WriteFault>
    requires { length stops < 2 ^ 128 }
    ensures { Wrote (W.contents w.old) (W.contents w.new) result (stops_text stops.entry) }
{
    let count = write_stop_lines(w, stops)?;
    write_total(w, count)
}
