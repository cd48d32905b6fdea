//! How a packet ends.

ghost use Rattle.std.specs.Prelude.{◌≡◌, ◌<◌, ◌≤◌, ◌+◌, ◌++◌, length};
ghost use Rattle.cbpf_code.specs.declared.writing.TheConstants.{LINE_SIZE};
ghost use Rattle.cbpf_why.specs.Ends as spec;
ghost use Rattle.cbpf_why.specs.Groups as groups;

use cbpf_code::{Line, Program, ext_name, prepend_line};
use cbpf_machine::{Choice, End, Outcome, PacketEnd};
use std::alloc::Allocator;

/// What a packet's end means for the packet.
#[derive(Clone, Copy, Debug, PartialEq, Eq)]
pub enum Verdict {
    /// The program returned a number other than 0.
    Pass,
    /// The program returned 0, loaded from outside the packet or divided by 0.
    Fail,
    /// The program asked for an extension that has no value.
    Unknown,
}

/// A packet that ended.
#[derive(Clone, Copy, Debug, PartialEq, Eq)]
pub struct Ended {
    /// The number of the packet, counted from 1.
    pub packet: u64,
    /// The number of its last instruction, counted from 0.
    pub pc: u32,
    /// Why it ended there.
    pub reason: End,
}

impl Ended {
    /// The packet of this number, by how a run of the program on it ended.
    pub(crate) fn of(packet: u64, end: &PacketEnd) -> Ended
        ensures { result ≡ record { packet = packet; pc = end.now.last.pc; reason = end.now.reason } }
    {
        Ended {
            packet,
            pc: end.last.pc(),
            reason: end.reason,
        }
    }

    /// What it means for the packet.
    pub fn verdict(self) -> Verdict
        ensures { result ≡ spec.verdict_of self.reason }
    {
        match Outcome::from(self.reason) {
            Outcome::Pass(_) => Verdict::Pass,
            Outcome::Fail => Verdict::Fail,
            Outcome::Unknown(_) => Verdict::Unknown,
        }
    }
}

/// A packet that ended, and the conditional jump that decided it, if one did.
#[derive(Clone, Copy, Debug, PartialEq, Eq)]
pub(crate) struct EndedBy {
    /// How it ended.
    pub(crate) ended: Ended,
    /// The last conditional jump before its return.
    pub(crate) by: Option<Choice>,
}

/// The last conditional jump of a packet that ended for this reason, where it decided: where the packet returned.
#[inline(always)]
pub(crate) fn deciding<T: Copy>(reason: End, last: Option<T>) -> Option<T>
    ensures { result ≡ spec.deciding reason last }
{
    match reason {
        End::Returned(_) => last,
        End::Outside => None,
        End::ZeroDivisor => None,
        End::Unknown(_) => None,
    }
}

impl EndedBy {
    /// A packet that ended, by its last conditional jump.
    #[inline(always)]
    pub(crate) fn of(ended: Ended, choice: Option<Choice>) -> EndedBy
        ensures { result ≡ record { ended = ended; by = spec.deciding ended.reason choice } }
    {
        EndedBy {
            ended,
            by: deciding(ended.reason, choice),
        }
    }

    /// The row of its group.
    #[inline(always)]
    pub(crate) fn row(&self) -> usize
        ensures { result ≡ groups.row self.now }
    {
        match self.by {
            Some(choice) => {
                let later = if choice.taken { 0 } else { 1 };
                2 * choice.pc as usize + later
            }
            None => 2 * self.ended.pc as usize,
        }
    }
}

/// Puts the word for a verdict, of at most 7 bytes.
pub(crate) fn prepend_verdict(line: &mut Line, verdict: Verdict)
    requires { length line.old + 7 ≤ LINE_SIZE }
    ensures text { line.new ≡ spec.verdict_text verdict ++ line.old }
    ensures grown { length line.new ≤ length line.old + 7 }
{
    line.prepend(match verdict {
        Verdict::Pass => b"pass",
        Verdict::Fail => b"fail",
        Verdict::Unknown => b"unknown",
    });
}

/// Puts the value that was returned, or why none was, in at most 23 bytes.
#[tactic(auto, using(cbpf_code::proofs::NameLemmas::names))]
pub(crate) fn prepend_reason(line: &mut Line, end: End)
    requires { length line.old + 23 ≤ LINE_SIZE }
    ensures text { line.new ≡ spec.reason_text end ++ line.old }
    ensures grown { length line.new ≤ length line.old + 23 }
{
    match end {
        End::Returned(value) => line.prepend_u32(value),
        End::Outside => line.prepend(b"outside the packet"),
        End::ZeroDivisor => line.prepend(b"division by 0"),
        End::Unknown(e) => {
            line.prepend(b" has no value");
            line.prepend(ext_name(e).as_bytes());
        }
    }
}

/// Puts why no value was returned, where that is so, in at most 25 bytes.
pub(crate) fn prepend_reason_after(line: &mut Line, end: End)
    requires { length line.old + 25 ≤ LINE_SIZE }
    ensures text { line.new ≡ spec.reason_after end ++ line.old }
    ensures grown { length line.new ≤ length line.old + 25 }
{
    if let End::Returned(_) = end {
        return;
    }
    prepend_reason(line, end);
    line.prepend(b", ");
}

/// Puts whether a comparison held, in at most 5 bytes.
pub(crate) fn prepend_truth(line: &mut Line, taken: bool)
    requires { length line.old + 5 ≤ LINE_SIZE }
    ensures text { line.new ≡ spec.truth_text taken ++ line.old }
    ensures grown { length line.new ≤ length line.old + 5 }
{
    line.prepend(if taken { b"true" } else { b"false" });
}

/// Puts a conditional jump, and whether its comparison held, in at most 84 bytes.
pub(crate) fn prepend_test<A: Allocator>(line: &mut Line, p: &Program<A>, choice: Choice)
    requires inside { choice.pc < length p.now }
    requires room { length line.old + 84 ≤ LINE_SIZE }
    ensures text { line.new ≡ spec.test_text p.now choice ++ line.old }
    ensures grown { length line.new ≤ length line.old + 84 }
{
    prepend_truth(line, choice.taken);
    line.prepend(b", ");
    prepend_line(line, p, choice.pc);
}
