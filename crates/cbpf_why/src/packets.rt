//! A line for each packet.

ghost use Rattle.std.specs.Prelude.{◌≡◌, ◌≤◌, ◌+◌, ◌++◌, length};
ghost use Rattle.cbpf_code.specs.Writing.{Wrote};
ghost use Rattle.cbpf_code.specs.declared.writing.TheConstants.{LINE_SIZE};
ghost use Rattle.cbpf_why.specs.Packets as spec;

use crate::ended::{EndedBy, prepend_reason, prepend_truth, prepend_verdict};
use cbpf_code::{Line, WriteFault};
use cbpf_machine::Choice;
use std::io::Write;

/// Puts the conditional jump that decided, and whether its comparison held, in two columns of at most 18 bytes.
fn prepend_choice(line: &mut Line, by: Option<Choice>)
    requires { length line.old + 18 ≤ LINE_SIZE }
    ensures text { line.new ≡ spec.choice_columns by ++ line.old }
    ensures grown { length line.new ≤ length line.old + 18 }
{
    match by {
        Some(choice) => {
            prepend_truth(line, choice.taken);
            line.prepend(b"\t");
            line.prepend_u32(choice.pc);
            line.prepend(b"\tl");
        }
        None => line.prepend(b"\t-\t-"),
    }
}

/// Writes a packet's line.
#[tactic(auto, unfolding(crate::specs::Packets::packet_line))]
pub(crate) fn write_packet_line<W: Write>(w: &mut W, decided: EndedBy) -> Result<(), WriteFault>
    ensures { Wrote (W.contents w.old) (W.contents w.new) result (spec.packet_line decided) }
{
    let EndedBy { ended, by } = decided;
    let mut line = Line::new();
    line.prepend(b"\n");
    prepend_choice(&mut line, by);
    prepend_reason(&mut line, ended.reason);
    line.prepend(b"\t");
    line.prepend_u32(ended.pc);
    line.prepend(b"\tl");
    prepend_verdict(&mut line, ended.verdict());
    line.prepend(b"\t");
    line.prepend_u64(ended.packet);
    line.write(w)
}
