//! What is counted of packets.

ghost use Rattle.std.specs.Prelude.{◌≡◌, ◌<◌, ◌+◌, ◌^◌, ◌++◌, [], ◌∷◌, List, length, true, IfOk};
ghost use Rattle.cbpf_machine.specs.Machine.{Machine};
ghost use Rattle.pcap_classic.specs.Lent.{record_of};
ghost use Rattle.pcap_classic.specs.Records.{Record};
ghost use Rattle.cbpf_why.specs.Columns.{IsLongest};
ghost use Rattle.cbpf_why.specs.Ends.{decided, ended};
ghost use Rattle.cbpf_why.specs.Groups.{HasRow, KeepsAll};
ghost use Rattle.cbpf_why.specs.Question.{machine_in};
ghost use Rattle.cbpf_why.specs.Taking as spec;
ghost use Rattle.cbpf_why.specs.declared.report.Report.TheVariants.{Summary};

use crate::columns::longest;
use crate::ended::{Ended, EndedBy};
use crate::groups::Groups;
use crate::question::Question;
use cbpf_code::Program;
use cbpf_machine::{Meter, Tally, decided_end};
use cbpf_reply::task_of;
use pcap_classic::Captured;
use std::alloc::{AllocError, Allocator};

/// What is counted of packets, and where the columns of their traces stand.
#[derive(Drop)]
pub(crate) struct Gathered<A: Allocator> {
    pub(crate) groups: Groups<A>,
    pub(crate) tally: Tally<A>,
    /// The length of the program's longest instruction.
    pub(crate) longest: usize,
}

impl<A: Allocator + Copy> Gathered<A> {
    pub(crate) fn new<P: Allocator>(alloc: A, p: &Program<P>) -> Result<Gathered<A>, AllocError>
        ensures groups { IfOk result (λ c. KeepsAll c.groups (length p.now) []) }
        ensures tally { IfOk result (λ c. (m : Machine) → m.list ≡ p.now → spec.Tallies c.tally m []) }
        ensures longest { IfOk result (λ c. IsLongest c.longest p.now) }
    {
        Ok(Gathered {
            groups: Groups::new(alloc, p.len())?,
            tally: Tally::new(alloc, p)?,
            longest: longest(p),
        })
    }
}

/// How a packet ends, and which conditional jump decided that.
// `COPY` gives the loop over records a copy of the loop over instructions, which is inlined there.
#[inline(always)]
pub(crate) fn end_of<P: Allocator, const COPY: u32>(
    question: &Question<'_, P>,
    item: &Captured<'_>,
) -> EndedBy
    ensures decided { result ≡ decided (machine_in question.now) (record_of item.now) }
    ensures inside { HasRow (length question.now.program.now) result }
{
    let _sound = question.program.len();
    let task = task_of(question.program, question.values, item);
    let decided = decided_end::<P, COPY>(&mut Meter::new(), &task);
    EndedBy::of(Ended::of(item.number, &decided.end), decided.choice)
}

/// How a packet ends, with its instructions counted.
fn count_packet<P: Allocator, A: Allocator>(
    question: &Question<'_, P>,
    tally: &mut Tally<A>,
    item: &Captured<'_>,
) -> Ended
    requires long { length tally.old.runs ≡ length question.now.program.now }
    requires few { tally.old.packets + 1 < 2 ^ 64 }
    ensures ended { result ≡ ended (machine_in question.now) (record_of item.now) }
    ensures inside { result.pc < length question.now.program.now }
    ensures tallies { (records : List Record) → spec.Tallies tally.old (machine_in question.now) records
        → spec.Tallies tally.new (machine_in question.now) (records ++ record_of item.now ∷ []) }
{
    let _sound = question.program.len();
    let task = task_of(question.program, question.values, item);
    let end = tally.count_packet(&mut Meter::new(), &task);
    Ended::of(item.number, &end)
}

/// Counts a packet by how it ends.
#[inline(always)]
pub(crate) fn add_ended<P: Allocator, A: Allocator + Copy, const COPY: u32>(
    question: &Question<'_, P>,
    counted: &mut Gathered<A>,
    item: &Captured<'_>,
)
    requires summary { question.now.report ≡ Summary }
    requires took { (records : List Record) × spec.HasGathered question.now counted.old records × (length records + 1 < 2 ^ 64) }
    ensures { (records : List Record) → spec.HasGathered question.now counted.old records
        → spec.HasGathered question.now counted.new (records ++ record_of item.now ∷ []) }
{
    counted.groups.add(end_of::<P, COPY>(question, item));
}

/// Counts a packet by how it ends, and its instructions.
pub(crate) fn add_counted<P: Allocator, A: Allocator + Copy>(
    question: &Question<'_, P>,
    counted: &mut Gathered<A>,
    item: &Captured<'_>,
)
    requires counts { (spec.counts_groups question.now.report ≡ true) × (spec.counts_runs question.now.report ≡ true) }
    requires took { (records : List Record) × spec.HasGathered question.now counted.old records × (length records + 1 < 2 ^ 64) }
    ensures { (records : List Record) → spec.HasGathered question.now counted.old records
        → spec.HasGathered question.now counted.new (records ++ record_of item.now ∷ []) }
{
    let ended = count_packet(question, &mut counted.tally, item);
    counted.groups.add(EndedBy { ended, by: None });
}
