//! The trace of a packet.

ghost use Rattle.std.specs.Prelude.{◌≡◌, ◌<◌, ◌≤◌, ◌+◌, ◌++◌, length, IfOk, IfSome, Some, None, option_map, if◌then◌else◌};
ghost use Rattle.std.specs.List.{flat_map};
ghost use Rattle.cbpf_code.specs.Writing.{Wrote};
ghost use Rattle.cbpf_code.specs.declared.writing.TheConstants.{LINE_SIZE};
ghost use Rattle.cbpf_machine.specs.Machine.{machine_of};
ghost use Rattle.cbpf_machine.specs.Registers.{zero_state};
ghost use Rattle.cbpf_machine.specs.Trace.{last_or, next_of, trace};
ghost use Rattle.cbpf_machine.specs.Turn as turns;
ghost use Rattle.cbpf_machine.specs.Choices.{is_test_at, last_test};
ghost use Rattle.pcap_classic.specs.Lent.{record_of};
ghost use Rattle.cbpf_why.specs.Columns.{IsLongest};
ghost use Rattle.cbpf_why.specs.Ends as ends;
ghost use Rattle.cbpf_why.specs.Operations.{is_op_at};
ghost use Rattle.cbpf_why.specs.Operations as operations;
ghost use Rattle.cbpf_why.specs.Traces as spec;

use crate::columns::prepend_filled;
use crate::ended::{Ended, deciding, prepend_reason_after, prepend_test, prepend_verdict};
use cbpf_code::{Line, Op, Program, Size, WriteFault, op_of, prepend_line, write_with_number};
use cbpf_machine::{Choice, End, Meter, State, Turn, Values, turn};
use cbpf_reply::packet_of;
use pcap_classic::Captured;
use std::alloc::Allocator;
use std::io::Write;

/// Puts a register, whose name has one byte, in decimal and in hexadecimal, in at most 25 bytes.
fn prepend_register(line: &mut Line, name: &[u8], value: u32)
    requires name { length name.now ≤ 1 }
    requires room { length line.old + 25 ≤ LINE_SIZE }
    ensures text { line.new ≡ spec.register_text name.now value ++ line.old }
    ensures grown { length line.new ≤ length line.old + 25 }
{
    line.prepend(b")");
    line.prepend_hex(value, 1);
    line.prepend(b" (0x");
    line.prepend_u32(value);
    line.prepend(b" ");
    line.prepend(name);
}

/// Puts A and X, in at most 51 bytes.
fn prepend_registers(line: &mut Line, a: u32, x: u32)
    requires room { length line.old + 51 ≤ LINE_SIZE }
    ensures text { line.new ≡ spec.registers_text a x ++ line.old }
    ensures grown { length line.new ≤ length line.old + 51 }
{
    prepend_register(line, b"X", x);
    line.prepend(b" ");
    prepend_register(line, b"A", a);
}

/// Whether the instruction at index `i` is a jump.
fn is_jump<A: Allocator>(p: &Program<A>, i: u32) -> bool
    requires { i < length p.now }
    ensures { result ≡ is_op_at operations.is_jump p.now i }
{
    matches!(op_of(p.at_index(i).code), Some(Op::Ja | Op::Jump(_, _)))
}

/// Writes an executed instruction, by the state before it and the one that its turn goes on with.
fn write_step<W: Write, A: Allocator>(
    w: &mut W,
    p: &Program<A>,
    long: usize,
    s: &State,
    next: &Option<State>,
) -> Result<(), WriteFault>
    requires inside { s.now.pc < length p.now }
    requires few { long ≤ 77 }
    ensures { Wrote (W.contents w.old) (W.contents w.new) result (spec.step_line p.now long s.now next.now) }
{
    let mut line = Line::new();
    line.prepend(b"\n");
    if let Some(next) = next {
        if is_jump(p, s.pc()) {
            line.prepend_u32(next.pc());
            line.prepend(b"\tto l");
        }
    }
    prepend_registers(&mut line, s.a(), s.x());
    line.prepend(b"\t");
    prepend_filled(&mut line, p, s.pc(), long);
    line.write(w)
}

/// The state that a turn goes on with.
fn next_state(turn: &Turn) -> Option<State>
    ensures { result ≡ next_of turn.now }
{
    match *turn {
        Turn::Next(next) => Some(next),
        _ => None,
    }
}

/// How a turn ends a packet. One that goes on ends none.
fn end_by(turn: &Turn) -> End
    ensures { result ≡ ends.end_by turn.now }
{
    match *turn {
        Turn::Next(_) => End::Outside,
        Turn::Returned(value) => End::Returned(value),
        Turn::Outside => End::Outside,
        Turn::ZeroDivisor => End::ZeroDivisor,
        Turn::Unknown(ext) => End::Unknown(ext),
    }
}

/// The last conditional jump after the instruction at a state, where this was the last one before.
fn test_after<A: Allocator>(
    p: &Program<A>,
    s: &State,
    before: Option<(Choice, State)>,
) -> Option<(Choice, State)>
    requires { s.now.pc < length p.now }
    ensures { result ≡ (if is_test_at p.now s.now then Some (spec.test_of p.now s.now) else before) }
{
    match Choice::at(p, s) {
        Some(choice) => Some((choice, *s)),
        None => before,
    }
}

/// How a packet ended, with X before its last instruction, and its last conditional jump with the state before it.
#[derive(Drop)]
struct Traced {
    ended: Ended,
    x: u32,
    test: Option<(Choice, State)>,
}

/// Writes each instruction that a packet executes, filled up to a length.
fn write_steps<W: Write, A: Allocator>(
    w: &mut W,
    p: &Program<A>,
    long: usize,
    values: &Values,
    item: &Captured<'_>,
) -> Result<Traced, WriteFault>
    requires few { long ≤ 77 }
    ensures wrote { Wrote (W.contents w.old) (W.contents w.new) result
        (flat_map (spec.step_text long (machine_of p.now values.now) (record_of item.now))
        (trace (machine_of p.now values.now) item.now.bytes.now item.now.wire)) }
    ensures ended { IfOk result (λ traced. traced.ended ≡ ends.ended (machine_of p.now values.now) (record_of item.now)) }
    ensures x { IfOk result (λ traced. traced.x
        ≡ (last_or zero_state (trace (machine_of p.now values.now) item.now.bytes.now item.now.wire)).x) }
    ensures test { IfOk result (λ traced. traced.test ≡ option_map (spec.test_of p.now)
        (last_test p.now (trace (machine_of p.now values.now) item.now.bytes.now item.now.wire))) }
{
    let packet = packet_of(item);
    let _sound = p.len();
    let mut meter = Meter::new();
    let mut s = State::zero();
    let mut test = None;
    'turns: loop {
        test = test_after(p, &s, test);
        let made = turn(&mut meter, p, packet, values, &s);
        let next = next_state(&made);
        write_step(w, p, long, &s, &next)?;
        match next {
            Some(next) => s = next,
            None => {
                let ended = Ended {
                    packet: item.number,
                    pc: s.pc(),
                    reason: end_by(&made),
                };
                return Ok(Traced {
                    ended,
                    x: s.x(),
                    test,
                });
            }
        }
    }
}

/// How many bytes a load of this size takes.
fn width(size: Size) -> u32
    ensures { result ≡ turns.width size }
{
    match size {
        Size::Word => 4,
        Size::Half => 2,
        Size::Byte => 1,
    }
}

/// The bytes of a packet that the instruction at index `i` loads, with this X before it: the offset of the first one, and
/// how many there are.
fn loaded_bytes<A: Allocator>(p: &Program<A>, i: u32, x: u32) -> Option<(u32, u32)>
    requires { i < length p.now }
    ensures value { result ≡ spec.loaded_at p.now i x }
    ensures some { IfSome result (λ b. 0 < b.1) }
{
    let insn = p.at_index(i);
    match op_of(insn.code) {
        Some(Op::LdAbs(size)) => Some((insn.k, width(size))),
        Some(Op::LdInd(size)) => Some((x.wrapping_add(insn.k), width(size))),
        Some(Op::LdxMsh) => Some((insn.k, 1)),
        _ => None,
    }
}

/// Puts some bytes of a packet, by the offset of the first one and how many there are, in at most 50 bytes.
fn prepend_bytes(line: &mut Line, at: u32, count: u32)
    requires some { 0 < count }
    requires room { length line.old + 50 ≤ LINE_SIZE }
    ensures text { line.new ≡ spec.bytes_text at count ++ line.old }
    ensures grown { length line.new ≤ length line.old + 50 }
{
    if count == 1 {
        line.prepend_u32(at);
        line.prepend(b"byte ");
    } else {
        line.prepend_u64(u64::from(at) + u64::from(count) - 1);
        line.prepend(b" to ");
        line.prepend_u32(at);
        line.prepend(b"bytes ");
    }
}

/// Puts which bytes a load wanted, and how many were captured of how many, in at most 97 bytes.
fn prepend_wanted(line: &mut Line, item: &Captured<'_>, loaded: Option<(u32, u32)>)
    requires some { IfSome loaded (λ b. 0 < b.1) }
    requires room { length line.old + 97 ≤ LINE_SIZE }
    ensures text { line.new ≡ spec.wanted_text (record_of item.now) loaded ++ line.old }
    ensures grown { length line.new ≤ length line.old + 97 }
{
    if let Some((at, count)) = loaded {
        line.prepend_u32(item.wire);
        line.prepend(b" of ");
        line.prepend_u64(item.bytes.len() as u64);
        line.prepend(b", captured ");
        prepend_bytes(line, at, count);
        line.prepend(b": ");
    }
}

/// Puts why a packet ended where no conditional jump decided, in at most 199 bytes.
fn prepend_alone<A: Allocator>(
    line: &mut Line,
    p: &Program<A>,
    item: &Captured<'_>,
    ended: Ended,
    x: u32,
)
    requires inside { ended.pc < length p.now }
    requires room { length line.old + 199 ≤ LINE_SIZE }
    ensures text { line.new ≡ spec.end_place p.now (record_of item.now) ended x None ++ line.old }
    ensures grown { length line.new ≤ length line.old + 199 }
{
    if let End::Outside = ended.reason {
        prepend_wanted(line, item, loaded_bytes(p, ended.pc, x));
    }
    prepend_reason_after(line, ended.reason);
    prepend_line(line, p, ended.pc);
}

/// Writes how a packet ended, and the conditional jump that decided, if one did.
fn write_end<W: Write, A: Allocator>(
    w: &mut W,
    p: &Program<A>,
    item: &Captured<'_>,
    traced: &Traced,
) -> Result<(), WriteFault>
    requires ended { traced.now.ended.pc < length p.now }
    requires test { IfSome traced.now.test (λ t. t.0.pc < length p.now) }
    ensures { Wrote (W.contents w.old) (W.contents w.new) result
        (spec.end_line p.now (record_of item.now) traced.now.ended traced.now.x traced.now.test) }
{
    let ended = traced.ended;
    let mut line = Line::new();
    line.prepend(b"\n");
    match deciding(ended.reason, traced.test) {
        Some((choice, s)) => {
            prepend_line(&mut line, p, ended.pc);
            line.prepend(b", then ");
            prepend_registers(&mut line, s.a(), s.x());
            line.prepend(b" with ");
            prepend_test(&mut line, p, choice);
        }
        None => prepend_alone(&mut line, p, item, ended, traced.x),
    }
    line.prepend(b" at ");
    prepend_verdict(&mut line, ended.verdict());
    line.write(w)
}

/// Writes the trace of a packet, by the length of the program's longest instruction.
// Kept out of line, as its registers would else be saved for each packet that is counted.
#[inline(never)]
pub(crate) fn write_trace<W: Write, A: Allocator>(
    w: &mut W,
    p: &Program<A>,
    long: usize,
    values: &Values,
    item: &Captured<'_>,
) -> Result<(), WriteFault>
    requires { IsLongest long p.now }
    ensures { Wrote (W.contents w.old) (W.contents w.new) result
        (spec.trace_text (machine_of p.now values.now) (record_of item.now)) }
{
    write_with_number(w, b"packet ", item.number, b"\n")?;
    let traced = write_steps(w, p, long, values, item)?;
    let _sound = p.len();
    write_end(w, p, item, &traced)
}
