//! Takes the lines of a reader one after another, in chunks.

ghost use Rattle.std.specs.Prelude.{◌≡◌, ◌-◌, ◌^◌, ◌<◌, ◌≤◌, ℕ, List, Some, Ok, [], take, length};
ghost use Rattle.std.specs.Prelude.{slice_index, true, false, OnOk, IfOk, IfErr, MatchOption, MatchResult};
ghost use Rattle.std.specs.Io.KnownBytes.{Keeps, Consumes, IsAtEnd};
ghost use Rattle.cbpf_tool.specs.Lines.{has_newline};
ghost use Rattle.cbpf_tool.specs.LineReader.{pending_in, steps_left, unread, Fills, TakesPart, TakesLine};
ghost use Rattle.cbpf_tool.specs.declared.TheConstants.{READ_SIZE};
ghost use Rattle.cbpf_tool.specs.declared.fault.ToolFault.TheVariants as fault;
ghost use Rattle.cbpf_tool.specs.declared.line_reader.LineEnd.TheVariants as end;

use crate::READ_SIZE;
use crate::fault::ToolFault;
use std::alloc::Allocator;
use std::io::Read;

/// What a line ends at.
#[derive(Clone, Copy)]
pub enum LineEnd {
    /// Its newline.
    Newline,
    /// The end of the input.
    Input,
}

/// The place of the first newline.
#[tactic(auto, using(crate::proofs::LineLemmas::plains))]
fn newline_in(bytes: &[u8]) -> Option<usize>
    ensures { MatchOption result (has_newline bytes.now ≡ false)
        (λ i. (i < length bytes.now) × (has_newline (take i bytes.now) ≡ false) × (slice_index bytes.now i ≡ 10)) }
{
    for (i, b) in bytes.iter().enumerate() {
        if *b == b'\n' {
            return Some(i);
        }
    }
    None
}

/// Where the last line ends that has its newline.
fn whole_lines_end(bytes: &[u8]) -> usize {
    for i in (0..bytes.len()).rev() {
        if bytes[i] == b'\n' {
            return i + 1;
        }
    }
    0
}

/// The lines of an input. It makes at most 18446744073709551615 reads in all.
#[derive(Drop)]
pub struct LineReader {
    chunk: [u8; READ_SIZE],
    start: usize,
    end: usize,
    /// Where the last line of the chunk ends that has its newline.
    whole: usize,
    reads: u64,
    ghost ordered: { start ≤ end },
    ghost within: { end ≤ length chunk },
    ghost bounded: { end ≤ READ_SIZE },
}

impl LineReader {
    pub(crate) fn new() -> LineReader
        ensures empty { pending_in result.chunk result.start result.end ≡ [] }
        ensures reads { result.reads ≡ 2 ^ 64 - 1 }
    {
        LineReader {
            chunk: [0; READ_SIZE],
            start: 0,
            end: 0,
            whole: 0,
            reads: u64::MAX,
        }
    }

    /// Whether the next line is taken without a read.
    pub(crate) fn has_line(&self) -> bool {
        self.start < self.whole
    }

    /// Reads the next bytes, once all that were read are taken; false at the end of the input.
    fn refill<R: Read>(&mut self, reader: &mut R) -> Result<bool, ToolFault>
        requires { self.old.start ≡ self.old.end }
        ensures fewer { OnOk result (self.new.reads < self.old.reads) }
        ensures some { IfOk result (λ more. more ≡ true → self.new.start < self.new.end) }
        ensures bytes { MatchResult result
            (λ more. Consumes (R.remaining reader.old) (R.remaining reader.new)
            (pending_in self.new.chunk self.new.start self.new.end)
            × (more ≡ false → (pending_in self.new.chunk self.new.start self.new.end ≡ [])
            × IsAtEnd (R.remaining reader.new)))
            (λ e. Keeps (R.remaining reader.old) (R.remaining reader.new)
            × (pending_in self.new.chunk self.new.start self.new.end ≡ [])) }
        ensures fault { IfErr result (λ e. e ≡ fault.Read) }
    {
        if self.reads == 0 {
            return Err(ToolFault::Read);
        }
        self.reads -= 1;
        self.start = 0;
        self.end = 0;
        match reader.read(&mut self.chunk) {
            Err(_) => Err(ToolFault::Read),
            Ok(count) => {
                self.end = count;
                self.whole = whole_lines_end(&self.chunk[..count]);
                Ok(count > 0)
            }
        }
    }

    /// Sees that there are bytes to take; false at the end of the input.
    fn fill<R: Read>(&mut self, reader: &mut R) -> Result<bool, ToolFault>
        ensures fewer { OnOk result (steps_left self.new.reads self.new.start self.new.end
            ≤ steps_left self.old.reads self.old.start self.old.end) }
        ensures some { IfOk result (λ more. more ≡ true → self.new.start < self.new.end) }
        ensures bytes { (bytes : List ℕ)
            → unread (pending_in self.old.chunk self.old.start self.old.end) (R.remaining reader.old) ≡ Some bytes →
            Fills bytes (pending_in self.new.chunk self.new.start self.new.end) (R.remaining reader.new) result }
        ensures fault { IfErr result (λ e. e ≡ fault.Read) }
    {
        if self.start < self.end {
            return Ok(true);
        }
        self.refill(reader)
    }

    /// Takes what was read up to the line's end; true where its newline was found.
    // As a call it makes a tenth more machine instructions for a short line.
    #[inline(always)]
    fn take_part<A: Allocator>(&mut self, line: &mut Vec<u8, A>) -> Result<bool, ToolFault>
        requires { self.old.start < self.old.end }
        ensures taken { TakesPart (pending_in self.old.chunk self.old.start self.old.end)
            (pending_in self.new.chunk self.new.start self.new.end)
            line.old.items line.new.items result }
        ensures fewer { OnOk result (self.new.end - self.new.start < self.old.end - self.old.start) }
        ensures reads { self.new.reads ≡ self.old.reads }
    {
        let pending = &self.chunk[self.start..self.end];
        match newline_in(pending) {
            Some(len) => {
                if line.extend_from_slice(&pending[..len]).is_err() {
                    return Err(ToolFault::Memory);
                }
                self.start += len + 1;
                Ok(true)
            }
            None => {
                if line.extend_from_slice(pending).is_err() {
                    return Err(ToolFault::Memory);
                }
                self.start = self.end;
                Ok(false)
            }
        }
    }

    /// Takes the next line, without its newline; one that ends with the input is what was left there, if anything.
    // As a call it makes 70 machine instructions more a line.
    #[inline(always)]
    pub(crate) fn next_line<R: Read, A: Allocator>(
        &mut self,
        reader: &mut R,
        line: &mut Vec<u8, A>,
    ) -> Result<Option<LineEnd>, ToolFault>
        ensures line { (bytes : List ℕ)
            → unread (pending_in self.old.chunk self.old.start self.old.end) (R.remaining reader.old) ≡ Some bytes →
            TakesLine bytes (pending_in self.new.chunk self.new.start self.new.end) (R.remaining reader.new)
            line.new.items result }
        ensures fewer { OnOk result (steps_left self.new.reads self.new.start self.new.end
            ≤ steps_left self.old.reads self.old.start self.old.end) }
        ensures onward { result ≡ Ok (Some end.Newline) → steps_left self.new.reads self.new.start self.new.end
            < steps_left self.old.reads self.old.start self.old.end }
    {
        line.clear();
        'parts: loop {
            match self.fill(reader) {
                Err(fault) => return Err(fault),
                Ok(false) if line.is_empty() => return Ok(None),
                Ok(false) => return Ok(Some(LineEnd::Input)),
                Ok(true) => {}
            }
            match self.take_part(line) {
                Err(fault) => return Err(fault),
                Ok(true) => return Ok(Some(LineEnd::Newline)),
                Ok(false) => {}
            }
        }
    }
}
