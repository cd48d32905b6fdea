//! The texts of breakpoints.

ghost use Rattle.std.specs.Prelude.{◌<◌, length};
ghost use Rattle.cbpf_code.specs.Writing.{Wrote};
ghost use Rattle.cbpf_reply.specs.Breakpoints as spec;

use cbpf_code::{Line, Program, WriteFault, prepend_line, write_bytes};
use cbpf_machine::When;
use std::alloc::Allocator;
use std::io::Write;

/// Writes where a breakpoint was set: the line of its instruction, and its condition. `n` is less than
/// the program's length.
pub fn write_breakpoint<W: Write, A: Allocator>(
    w: &mut W,
    program: &Program<A>,
    n: u32,
    when: When,
) -> Result<(), WriteFault>
    requires { n < length program.now }
    ensures { Wrote (W.contents w.old) (W.contents w.new) result (spec.set_text program.now n when) }
{
    let mut line = Line::new();
    line.prepend(b"\n");
    match when {
        When::Always => {}
        When::A(v) => {
            line.prepend_u32(v);
            line.prepend(b" when a = ");
        }
        When::X(v) => {
            line.prepend_u32(v);
            line.prepend(b" when x = ");
        }
    }
    prepend_line(&mut line, program, n);
    line.prepend(b"breakpoint at: ");
    line.write(w)
}

/// Writes a breakpoint as the list of them has it, without the line's end.
pub fn write_listed<W: Write>(w: &mut W, n: u32, when: When) -> Result<(), WriteFault>
    ensures { Wrote (W.contents w.old) (W.contents w.new) result (spec.listed_text (n, when)) }
{
    let mut line = Line::new();
    match when {
        When::Always => {}
        When::A(v) => {
            line.prepend(b")");
            line.prepend_u32(v);
            line.prepend(b"(a=");
        }
        When::X(v) => {
            line.prepend(b")");
            line.prepend_u32(v);
            line.prepend(b"(x=");
        }
    }
    line.prepend_u32(n);
    line.prepend(b" ");
    line.write(w)
}

/// Writes the beginning of the list of breakpoints.
#[tactic(auto, unfolding(crate::specs::Breakpoints::list_head))]
pub fn write_list_head<W: Write>(w: &mut W) -> Result<(), WriteFault>
    ensures { Wrote (W.contents w.old) (W.contents w.new) result spec.list_head }
{
    write_bytes(w, b"breakpoints:")
}

/// Writes the end of the list of breakpoints.
pub fn write_list_end<W: Write>(w: &mut W) -> Result<(), WriteFault>
    ensures { Wrote (W.contents w.old) (W.contents w.new) result spec.list_end }
{
    write_bytes(w, b"\n")
}
