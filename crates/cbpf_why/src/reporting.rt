//! What is reported of a program on a capture.

ghost use Rattle.std.specs.Prelude.{◌≡◌, ◌++◌, [], List, length, None, Ok, Err, IfSome, IsErrOf, MatchResult, if◌then◌else◌};
ghost use Rattle.std.specs.Option.{option_map, option_map_or};
ghost use Rattle.cbpf_code.specs.Writing.{Wrote};
ghost use Rattle.cbpf_reply.specs.Counts.{finished_text};
ghost use Rattle.pcap_classic.specs.Records.{AreNumbered, Record};
ghost use Rattle.cbpf_why.specs.Coverage.{coverage_text};
ghost use Rattle.cbpf_why.specs.Ends.{only_ended_of};
ghost use Rattle.cbpf_why.specs.Graph.{graph_text};
ghost use Rattle.cbpf_why.specs.Groups.{KeepsAll, all_totals, groups_text};
ghost use Rattle.cbpf_why.specs.Taking as spec;
ghost use Rattle.cbpf_why.specs.Question.{machine_in};
ghost use Rattle.cbpf_why.specs.Reports as reports;
ghost use Rattle.cbpf_why.specs.declared.ended.EndedBy.{EndedBy as AnEndedBy};
ghost use Rattle.cbpf_why.specs.declared.reporting.WhyFault.TheVariants as fault;
ghost use Rattle.cbpf_why.specs.declared.report.Report.TheVariants.{Graph};

use crate::blocks::block_begins;
use crate::coverage::write_coverage;
use crate::gathered::Gathered;
use crate::graph::{CountedProgram, write_graph};
use crate::groups::{Groups, write_groups};
use crate::question::Question;
use crate::report::Report;
use crate::taking::take_packets;
use cbpf_code::{Program, WriteFault};
use cbpf_reply::{write_cut, write_finished};
use pcap_classic::{CaptureReader, Ending};
use std::alloc::Allocator;
use std::error::Error;
use std::fmt;
use std::io::{Read, Write};

/// Why a report ended before its end.
#[derive(Clone, Copy, Debug, PartialEq, Eq)]
pub enum WhyFault {
    /// A read of the capture failed.
    Read,
    /// A write or a flush failed.
    Write,
    /// Out of memory.
    Memory,
}

impl fmt::Display for WhyFault {
    ghost use Rattle.std.specs.Prelude.{Some};
    ghost use Rattle.cbpf_why.specs.Messages.{why_message};

    ghost output = { λ fault. Some (why_message fault) };

    fn fmt<W: fmt::Write>(&self, f: &mut fmt::Formatter<W>) -> fmt::Result {
        match self {
            WhyFault::Read => f.write_str("read fault"),
            WhyFault::Write => fmt::Display::fmt(&WriteFault, f),
            WhyFault::Memory => f.write_str("out of memory"),
        }
    }
}

impl Error for WhyFault {}

/// How a capture ends.
#[derive(Clone, Copy, Debug, PartialEq, Eq)]
pub struct CaptureEnd {
    /// How many packets it has.
    pub count: u64,
    /// Where it is cut, if it is.
    pub ending: Ending,
}

/// Writes how packets ended, how many passed and failed, and where the capture is cut.
#[tactic(auto, using(cbpf_code::proofs::WrittenLemmas::three, cbpf_code::proofs::WrittenLemmas::steps))]
fn write_summary<P: Allocator, A: Allocator + Copy, W: Write>(
    w: &mut W,
    p: &Program<P>,
    groups: &Groups<A>,
    end: Option<CaptureEnd>,
) -> Result<(), WriteFault>
    requires { (ends : List AnEndedBy) × KeepsAll groups.now (length p.now) ends }
    ensures { (ends : List AnEndedBy) → KeepsAll groups.now (length p.now) ends
        → Wrote (W.contents w.old) (W.contents w.new) result
        (groups_text p.now ends
        ++ (finished_text (all_totals ends) ++ option_map_or reports.cut_line end [])) }
{
    write_groups(w, p, groups)?;
    write_finished(w, groups.totals())?;
    match end {
        Some(end) => write_cut(w, end.count, end.ending),
        None => Ok(()),
    }
}

/// Writes the graph of a program, of which this is counted.
#[tactic(auto, using(cbpf_code::proofs::WrittenLemmas::three, cbpf_code::proofs::WrittenLemmas::steps))]
fn write_counted_graph<P: Allocator, A: Allocator + Copy, W: Write>(
    alloc: A,
    w: &mut W,
    question: &Question<'_, P>,
    counted: &Gathered<A>,
) -> Result<(), WhyFault>
    requires { (records : List Record)
        × KeepsAll counted.now.groups (length question.now.program.now) (only_ended_of (machine_in question.now) records)
        × spec.Tallies counted.now.tally (machine_in question.now) records }
    ensures { (records : List Record)
        → KeepsAll counted.now.groups (length question.now.program.now) (only_ended_of (machine_in question.now) records)
        → spec.Tallies counted.now.tally (machine_in question.now) records
        → spec.Closed (W.contents w.old) (W.contents w.new) result
        (graph_text (machine_in question.now) records (only_ended_of (machine_in question.now) records)) }
{
    let Ok(begins) = block_begins(alloc, question.program) else {
        return Err(WhyFault::Memory);
    };
    let counted = CountedProgram {
        program: question.program,
        packets: counted.tally.packets(),
        runs: counted.tally.runs(),
        begins: &begins,
        groups: &counted.groups,
    };
    match write_graph(w, &counted) {
        Ok(()) => Ok(()),
        Err(_) => Err(WhyFault::Write),
    }
}

/// Writes the listing with how often each instruction ran.
fn write_counted_coverage<P: Allocator, A: Allocator + Copy, W: Write>(
    w: &mut W,
    question: &Question<'_, P>,
    counted: &Gathered<A>,
) -> Result<(), WriteFault>
    requires { (records : List Record) × spec.Tallies counted.now.tally (machine_in question.now) records }
    ensures { (records : List Record) → spec.Tallies counted.now.tally (machine_in question.now) records
        → Wrote (W.contents w.old) (W.contents w.new) result (coverage_text (machine_in question.now) records) }
{
    write_coverage(w, question.program, counted.tally.runs())
}

/// A fault of a write as that of the report.
fn written(done: Result<(), WriteFault>) -> Result<(), WhyFault>
    ensures { MatchResult done (λ x. result ≡ Ok x) (λ e. result ≡ Err fault.Write) }
{
    match done {
        Ok(()) => Ok(()),
        Err(_) => Err(WhyFault::Write),
    }
}

/// Writes what is reported of all packets together, and how the capture ends where its end was read.
fn write_closing<P: Allocator, A: Allocator + Copy, W: Write>(
    alloc: A,
    w: &mut W,
    question: &Question<'_, P>,
    counted: &Gathered<A>,
    end: Option<CaptureEnd>,
) -> Result<(), WhyFault>
    requires { (records : List Record) × spec.HasGathered question.now counted.now records }
    ensures wrote { (records : List Record) → spec.HasGathered question.now counted.now records
        → spec.Closed (W.contents w.old) (W.contents w.new) result
        (reports.closing_text question.now.report (machine_in question.now) records end) }
    ensures room { IsErrOf result fault.Memory → question.now.report ≡ Graph }
{
    let p = question.program;
    match question.report {
        Report::Traces => Ok(()),
        Report::Packets => Ok(()),
        Report::Summary => written(write_summary(w, p, &counted.groups, end)),
        Report::Coverage => written(write_counted_coverage(w, question, counted)),
        Report::Graph => write_counted_graph(alloc, w, question, counted),
    }
}

/// How the capture ends, where its end was read.
fn end_read<R: Read, A: Allocator>(
    reader: &CaptureReader<R, A>,
    is_over: bool,
) -> Option<CaptureEnd>
    ensures end { result ≡ (if is_over
        then option_map (reports.end_after reader.now.count) reader.now.ended else None) }
    ensures numbered { IfSome reader.now.left (λ c. AreNumbered reader.now.count c.records) }
{
    let count = reader.count();
    if !is_over {
        return None;
    }
    let ending = reader.ending()?;
    Some(CaptureEnd { count, ending })
}

/// Writes what is to be reported of a program on a capture, of which no record was read yet. The answer is how the
/// capture ends, where its end was read.
///
/// Of a packet whose number stands in no range nothing is reported. No packet is read after the greatest last number of
/// the ranges. So the capture's end is read where a range ends beyond it, as [`ALL_PACKETS`](crate::ALL_PACKETS) does.
/// [`PacketRange::beyond`] says which numbers of a range the capture lacks. What is reported packet by packet is flushed
/// before a read that may wait. The reader is left after the packets that were read, so the caller can read on.
///
/// The totals count the outcomes of the packets, as [`crate::totals_of_outcomes`] says. The debugger's `run` counts the
/// same, as `same_totals` of cbpf_tool says.
///
/// # Errors
///
/// `Read` or `Memory` where no further record could be read: what was to be written of the packets before was written,
/// but nothing of all together. `Memory` also where there is no room for the counts, or for the blocks of a graph.
/// `Write` where a write or a flush failed: a beginning of the text was written.
pub fn why<P: Allocator, A: Allocator + Copy, R: Read, B: Allocator, W: Write>(
    alloc: A,
    question: &Question<'_, P>,
    reader: &mut CaptureReader<R, B>,
    w: &mut W,
) -> Result<Option<CaptureEnd>, WhyFault>
    requires count { reader.old.count ≡ 0 }
    ensures reported { IfSome reader.old.left (λ c. reports.Reported question.now.report question.now.packets.now
        (machine_in question.now) c reader.new.count (W.contents w.old) (W.contents w.new) result) }
    ensures within { reports.ReadsWithin question.now.packets.now reader.new.count }
    ensures left { IfSome reader.old.left (λ c. reports.IsLeft c reader.new) }
{
    let Ok(mut counted) = Gathered::new(alloc, question.program) else {
        return Err(WhyFault::Memory);
    };
    let is_over = take_packets(question, &mut counted, reader, w)?;
    let end = end_read(reader, is_over);
    write_closing(alloc, w, question, &counted, end)?;
    if w.flush().is_err() {
        return Err(WhyFault::Write);
    }
    Ok(end)
}
