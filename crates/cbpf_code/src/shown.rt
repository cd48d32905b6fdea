//! Instructions and programs as they are shown: the text of the listing.

ghost use Rattle.std.specs.Str.{IsUtf8};
ghost use Rattle.std.specs.Fmt.{WritesOnOk};

use crate::insn::Insn;
use crate::listing::{prepend_line, prepend_operation};
use crate::opcode::op_of;
use crate::program::Program;
use crate::writing::Line;
use std::alloc::Allocator;
use std::fmt;

/// Writes the text of a line.
fn show_line<W: fmt::Write>(line: &Line, f: &mut fmt::Formatter<W>) -> fmt::Result
    requires { IsUtf8 line.now }
    ensures { WritesOnOk W.write_str_gives f.old result line.now f.new }
{
    match str::from_utf8(line.as_bytes()) {
        Ok(text) => f.write_str(text),
        Err(_) => unreachable!(),
    }
}

/// Shows the line of the listing that the instruction has as the first of a program: `l0`, a colon, a tab, and so on. An
/// instruction whose code no operation has is shown as its four numbers, with a blank between two of them.
impl fmt::Display for Insn {
    ghost use Rattle.std.specs.Prelude.{Some};
    ghost use Rattle.cbpf_code.specs.Listing.{shown_text};

    ghost output = { λ insn. Some (shown_text insn) };

    fn fmt<W: fmt::Write>(&self, f: &mut fmt::Formatter<W>) -> fmt::Result {
        match op_of(self.code) {
            Some(op) => {
                let mut line = Line::new();
                prepend_operation(&mut line, 0, *self, op);
                show_line(&line, f)
            }
            None => write!(f, "{} {} {} {}", self.code, self.jt, self.jf, self.k),
        }
    }
}

/// Shows the listing, each line with a newline.
impl<A: Allocator> fmt::Display for Program<A> {
    ghost use Rattle.std.specs.Prelude.{Some};
    ghost use Rattle.cbpf_code.specs.Listing.{listing};

    ghost output = { λ p. Some (listing p) };

    fn fmt<W: fmt::Write>(&self, f: &mut fmt::Formatter<W>) -> fmt::Result {
        for i in 0..self.len() {
            let mut line = Line::new();
            line.prepend(b"\n");
            prepend_line(&mut line, self, i);
            show_line(&line, f)?;
        }
        Ok(())
    }
}
