//! The dump of a stop.

ghost use Rattle.std.specs.Prelude.{◌≡◌, ◌<◌, ◌≤◌, ◌+◌, ◌++◌, length};
ghost use Rattle.cbpf_code.specs.Writing.{Wrote};
ghost use Rattle.cbpf_code.specs.declared.writing.TheConstants.{LINE_SIZE};
ghost use Rattle.cbpf_reply.specs.Dump as spec;
ghost use Rattle.cbpf_reply.specs.Scratch.{scratch_lines};

use crate::packet::write_packet;
use crate::reply::{Place, Stop, Why};
use crate::scratch::write_slots_at;
use cbpf_code::{Line, Program, WriteFault, ext_name, prepend_line};
use std::alloc::Allocator;
use std::io::Write;

/// The place, and the instruction there.
fn write_instruction<W: Write, A: Allocator>(
    w: &mut W,
    p: &Program<A>,
    place: Place,
    pc: u32,
) -> Result<(), WriteFault>
    requires { pc < length p.now }
    ensures { Wrote (W.contents w.old) (W.contents w.new) result
        (spec.instruction_dump p.now place.packet place.step pc) }
{
    let insn = p.at_index(pc);
    let mut line = Line::new();
    line.prepend(b"\n");
    prepend_line(&mut line, p, pc);
    line.prepend(b"]\ncurr:     ");
    line.prepend_u32(insn.k);
    line.prepend(b"] k[");
    line.prepend_u32(u32::from(insn.jf));
    line.prepend(b"] jf[");
    line.prepend_u32(u32::from(insn.jt));
    line.prepend(b"] jt[");
    line.prepend_u32(u32::from(insn.code));
    line.prepend(b"]\ncode:     [");
    line.prepend_u32(pc);
    line.prepend(b" --\n-- register dump --\npc:       [");
    line.prepend_u32(place.step);
    line.prepend(b", step ");
    line.prepend_u64(place.packet);
    line.prepend(b"-- packet ");
    line.write(w)
}

/// The lines of A and X, and a line for each longest run of neighbouring slots of equal value.
#[tactic(auto, using(crate::proofs::RowLemmas::rows))]
fn write_registers<W: Write>(w: &mut W, a: u32, x: u32, slots: &[u32]) -> Result<(), WriteFault>
    ensures { Wrote (W.contents w.old) (W.contents w.new) result
        (spec.register_lines a x ++ scratch_lines slots.now) }
{
    let mut line = Line::new();
    line.prepend(b"]\n");
    line.prepend_u32(x);
    line.prepend(b"][");
    line.prepend_hex(x, 8);
    line.prepend(b"]\nX:        [");
    line.prepend_u32(a);
    line.prepend(b"][");
    line.prepend_hex(a, 8);
    line.prepend(b"A:        [");
    line.write(w)?;
    for i in 0..slots.len() {
        write_slots_at(w, slots, i)?;
    }
    Ok(())
}

/// Puts why it stopped.
#[inline(always)]
#[tactic(auto, using(cbpf_code::proofs::NameLemmas::names))]
pub(crate) fn prepend_why(line: &mut Line, why: Why)
    requires room { length line.old + 23 ≤ LINE_SIZE }
    ensures text { line.new ≡ spec.why_line why ++ line.old }
    ensures grown { length line.new ≤ length line.old + 23 }
{
    match why {
        Why::Break => line.prepend(b"(breakpoint)\n"),
        Why::Step => line.prepend(b"(step)\n"),
        Why::Unknown(e) => {
            line.prepend(b")\n");
            line.prepend(ext_name(e).as_bytes());
            line.prepend(b"(extension ");
        }
    }
}

/// Writes the dump of a stop in a program: its place and instruction, the registers and the scratch
/// memory before it, the packet, of these captured bytes and this original length, and why it stopped.
///
/// The stop's pc must be less than the program's length.
pub fn write_stop<W: Write, A: Allocator>(
    w: &mut W,
    p: &Program<A>,
    stop: &Stop,
    bytes: &[u8],
    wire: u32,
) -> Result<(), WriteFault>
    requires { stop.now.state.pc < length p.now }
    ensures { Wrote (W.contents w.old) (W.contents w.new) result
        (spec.dump_text p.now (spec.shown_in bytes.now wire stop.now)) }
{
    write_instruction(w, p, stop.place, stop.state.pc())?;
    let state = &stop.state;
    write_registers(w, state.a(), state.x(), &state.slots())?;
    write_packet(w, bytes, wire, stop.why)
}
