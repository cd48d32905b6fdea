//! The listing of a program, which the assembler takes back.

ghost use Rattle.std.specs.Prelude.{map};
ghost use Rattle.cbpf_code.specs.Writing.{Wrote};
ghost use Rattle.cbpf_code.specs.Plain.{plain};
ghost use Rattle.cbpf_code.specs.Listing.{listing};
ghost use Rattle.cbpf_text.specs.Assembled.{Assembles};

use cbpf_code::{Program, WriteFault, write_lines};
use std::alloc::Allocator;
use std::io::Write;

/// Writes the listing of a program: for each instruction in order `l`, its index, a colon, a
/// tab, its assembler text and a newline. Targets of jumps are these labels.
///
/// [`assemble`](crate::assemble) gives the instructions back, each with the fields that its
/// operation doesn't use set to 0.
pub fn write_listing<W: Write, A: Allocator>(w: &mut W, p: &Program<A>) -> Result<(), WriteFault>
    ensures written { Wrote (W.contents w.old) (W.contents w.new) result (listing p.now) }
    ensures assembles { Assembles (listing p.now) (map plain p.now) }
{
    // What this call says of the list is what the law of listings asks.
    let _list = p.as_slice();
    write_lines(w, p)
}
