//! How packets ended, counted.

ghost use Rattle.std.specs.Prelude.{◌≡◌, ◌<◌, ◌≤◌, ◌+◌, ◌*◌, ◌^◌, ◌++◌, [], ◌∷◌, List, ℕ, length, IfSome, slice_get, replicate, IfOk, Some, None};
ghost use Rattle.cbpf_code.specs.Writing.{Wrote};
ghost use Rattle.cbpf_code.specs.declared.writing.TheConstants.{LINE_SIZE};
ghost use Rattle.cbpf_why.specs.declared.ended.EndedBy.{EndedBy as AnEndedBy};
ghost use Rattle.cbpf_why.specs.declared.ended.Verdict.{Verdict as AVerdict};
ghost use Rattle.cbpf_why.specs.Ends.{verdict_of};
ghost use Rattle.cbpf_why.specs.Groups as spec;

use crate::ended::{EndedBy, Verdict, prepend_reason_after, prepend_test, prepend_verdict};
use cbpf_code::{Line, Program, WriteFault, prepend_line};
use cbpf_reply::Counts;
use std::alloc::{AllocError, Allocator};
use std::io::Write;
use std::marker::Model;

/// Packets in the same row with the same verdict.
#[derive(Clone, Copy, Debug, PartialEq, Eq)]
pub(crate) struct Group {
    /// How many there are.
    pub(crate) count: u64,
    /// The first of them.
    pub(crate) first: Option<EndedBy>,
}

impl Group {
    /// Adds a packet.
    #[inline(always)]
    fn add(&mut self, ended: EndedBy)
        requires { self.old.count + 1 < 2 ^ 64 }
        ensures { self.new ≡ spec.with_one self.old ended }
    {
        self.count += 1;
        if self.first.is_none() {
            self.first = Some(ended);
        }
    }
}

/// No packet.
const EMPTY: Group = Group {
    count: 0,
    first: None,
};

/// Adds a packet to the group in its row.
#[inline(always)]
fn add<A: Allocator>(groups: &mut Vec<Group, A>, ended: EndedBy)
    requires inside { spec.row ended < length groups.old.items }
    requires few { (ends : List AnEndedBy) × (v : AVerdict) × spec.AreGroups ends v groups.old.items × (length ends + 1 < 2 ^ 64) }
    ensures groups { (ends : List AnEndedBy) → spec.AreGroups ends (verdict_of ended.ended.reason) groups.old.items
        → spec.AreGroups (ends ++ ended ∷ []) (verdict_of ended.ended.reason) groups.new.items }
    ensures long { length groups.new.items ≡ length groups.old.items }
{
    groups[ended.row()].add(ended);
}

/// How packets ended, by the verdict and the row.
#[derive(Drop)]
pub(crate) struct Groups<A: Allocator> {
    passed: Vec<Group, A>,
    failed: Vec<Group, A>,
    unknown: Vec<Group, A>,
    totals: Counts,
}

fn empty_groups<A: Allocator>(alloc: A, length: u32) -> Result<Vec<Group, A>, AllocError>
    ensures { IfOk result (λ groups. groups.items ≡ replicate (2 * length) (record { count = 0; first = None })) }
{
    let mut groups = Vec::new(alloc);
    groups.resize(2 * length as usize, EMPTY)?;
    Ok(groups)
}

impl<A: Allocator> Model for Groups<A> {
    ghost use Rattle.cbpf_why.specs.Groups.{AllKept};

    ghost Value = { AllKept };

    ghost view = { λ g. record {
      passed = g.passed.items;
      failed = g.failed.items;
      unknown = g.unknown.items;
      totals = g.totals;
    } };
}

impl<A: Allocator + Copy> Groups<A> {
    /// No packet, for a program of so many instructions.
    pub(crate) fn new(alloc: A, length: u32) -> Result<Groups<A>, AllocError>
        ensures { IfOk result (λ g. spec.KeepsAll g length []) }
    {
        Ok(Groups {
            passed: empty_groups(alloc, length)?,
            failed: empty_groups(alloc, length)?,
            unknown: empty_groups(alloc, length)?,
            totals: Counts {
                passes: 0,
                fails: 0,
                unknown: 0,
            },
        })
    }

    /// Adds a packet.
    #[inline(always)]
    pub(crate) fn add(&mut self, ended: EndedBy)
        requires { (n : ℕ) × (ends : List AnEndedBy) × spec.KeepsAll self.old n ends × (length ends + 1 < 2 ^ 64) × spec.HasRow n ended }
        ensures { (n : ℕ) (ends : List AnEndedBy) → spec.KeepsAll self.old n ends → spec.HasRow n ended
            → spec.KeepsAll self.new n (ends ++ ended ∷ []) }
    {
        match ended.ended.verdict() {
            Verdict::Pass => {
                self.totals.passes += 1;
                add(&mut self.passed, ended);
            }
            Verdict::Fail => {
                self.totals.fails += 1;
                add(&mut self.failed, ended);
            }
            Verdict::Unknown => {
                self.totals.unknown += 1;
                add(&mut self.unknown, ended);
            }
        }
    }

    /// The packets in a row with a verdict.
    pub(crate) fn at(&self, verdict: Verdict, i: usize) -> Group
        requires { i < length (spec.by_verdict self.now verdict) }
        ensures { slice_get (spec.by_verdict self.now verdict) i ≡ Some result }
    {
        match verdict {
            Verdict::Pass => self.passed[i],
            Verdict::Fail => self.failed[i],
            Verdict::Unknown => self.unknown[i],
        }
    }

    /// How many packets passed and failed, and how many asked for an extension without a value.
    pub(crate) fn totals(&self) -> Counts
        ensures { result ≡ self.now.totals }
    {
        self.totals
    }
}

/// Puts where a packet ended, after the conditional jump that decided, in at most 168 bytes.
fn prepend_place<P: Allocator>(line: &mut Line, p: &Program<P>, decided: EndedBy)
    requires inside { spec.HasRow (length p.now) decided }
    requires room { length line.old + 168 ≤ LINE_SIZE }
    ensures text { line.new ≡ spec.end_place_text p.now decided.ended decided.by ++ line.old }
    ensures grown { length line.new ≤ length line.old + 168 }
{
    match decided.by {
        Some(choice) => {
            prepend_line(line, p, decided.ended.pc);
            line.prepend(b", then ");
            prepend_test(line, p, choice);
        }
        None => {
            prepend_reason_after(line, decided.ended.reason);
            prepend_line(line, p, decided.ended.pc);
        }
    }
}

/// Writes the line of a group, by how many packets it has and the first of them.
fn write_group_line<W: Write, P: Allocator>(
    w: &mut W,
    p: &Program<P>,
    count: u64,
    first: EndedBy,
) -> Result<(), WriteFault>
    requires { spec.HasRow (length p.now) first }
    ensures { Wrote (W.contents w.old) (W.contents w.new) result (spec.group_line p.now count first) }
{
    let mut line = Line::new();
    line.prepend(b"\n");
    line.prepend_u64(first.ended.packet);
    line.prepend(b", first packet ");
    prepend_place(&mut line, p, first);
    line.prepend(b" at ");
    line.prepend_u64(count);
    line.prepend(b" ");
    prepend_verdict(&mut line, first.ended.verdict());
    line.write(w)
}

/// Writes the line of a group, where it has packets.
#[tactic(auto, using(cbpf_code::proofs::WrittenLemmas::three, cbpf_code::proofs::WrittenLemmas::steps))]
fn write_group<W: Write, P: Allocator>(
    w: &mut W,
    p: &Program<P>,
    group: Group,
) -> Result<(), WriteFault>
    requires { IfSome group.first (spec.HasRow (length p.now)) }
    ensures { Wrote (W.contents w.old) (W.contents w.new) result (spec.group_text p.now group) }
{
    match group.first {
        Some(first) => write_group_line(w, p, group.count, first),
        None => Ok(()),
    }
}

/// Writes the lines of three groups.
#[tactic(auto, using(cbpf_code::proofs::WrittenLemmas::three, cbpf_code::proofs::WrittenLemmas::steps))]
fn write_three<W: Write, P: Allocator>(
    w: &mut W,
    p: &Program<P>,
    passed: Group,
    failed: Group,
    unknown: Group,
) -> Result<(), WriteFault>
    requires passed { IfSome passed.first (spec.HasRow (length p.now)) }
    requires failed { IfSome failed.first (spec.HasRow (length p.now)) }
    requires unknown { IfSome unknown.first (spec.HasRow (length p.now)) }
    ensures { Wrote (W.contents w.old) (W.contents w.new) result
        (spec.group_text p.now passed ++ (spec.group_text p.now failed ++ spec.group_text p.now unknown)) }
{
    write_group(w, p, passed)?;
    write_group(w, p, failed)?;
    write_group(w, p, unknown)
}

/// Writes a line for each group in a row, those that passed before those that failed.
fn write_groups_at<W: Write, A: Allocator + Copy, P: Allocator>(
    w: &mut W,
    p: &Program<P>,
    groups: &Groups<A>,
    i: usize,
) -> Result<(), WriteFault>
    requires inside { i < 2 * length p.now }
    requires kept { (ends : List AnEndedBy) × spec.KeepsAll groups.now (length p.now) ends }
    ensures { (ends : List AnEndedBy) → spec.KeepsAll groups.now (length p.now) ends
        → Wrote (W.contents w.old) (W.contents w.new) result (spec.groups_at p.now ends i) }
{
    let passed = groups.at(Verdict::Pass, i);
    let failed = groups.at(Verdict::Fail, i);
    let unknown = groups.at(Verdict::Unknown, i);
    write_three(w, p, passed, failed, unknown)
}

/// Writes a line for each group, in the order of rows.
#[tactic(auto, using(crate::proofs::TextLemmas::texts), unfolding(crate::specs::Groups::groups_text))]
pub(crate) fn write_groups<W: Write, A: Allocator + Copy, P: Allocator>(
    w: &mut W,
    p: &Program<P>,
    groups: &Groups<A>,
) -> Result<(), WriteFault>
    requires { (ends : List AnEndedBy) × spec.KeepsAll groups.now (length p.now) ends }
    ensures { (ends : List AnEndedBy) → spec.KeepsAll groups.now (length p.now) ends
        → Wrote (W.contents w.old) (W.contents w.new) result (spec.groups_text p.now ends) }
{
    for i in 0..2 * p.len() as usize {
        write_groups_at(w, p, groups, i)?;
    }
    Ok(())
}
