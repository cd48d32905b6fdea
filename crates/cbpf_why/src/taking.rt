//! The packets that are looked at, one after another.

ghost use Rattle.std.specs.Prelude.{◌≡◌, ◌<◌, ◌≤◌, ◌+◌, ◌^◌, ◌++◌, [], ◌∷◌, List, length, true, Ok, IfErr, OnOk, not, MatchResult};
ghost use Rattle.std.specs.Io.KnownBytes.{Keeps as KeepsBytes};
ghost use Rattle.cbpf_code.specs.Writing.{Wrote};
ghost use Rattle.pcap_classic.specs.Lent.{record_of};
ghost use Rattle.pcap_classic.specs.Records.{Record};
ghost use Rattle.cbpf_why.specs.Ends.{decided};
ghost use Rattle.cbpf_why.specs.Taking as spec;
ghost use Rattle.cbpf_why.specs.Question.{machine_in};
ghost use Rattle.cbpf_why.specs.Packets.{packet_line};
ghost use Rattle.cbpf_why.specs.Reports as reports;
ghost use Rattle.cbpf_why.specs.declared.reporting.WhyFault.TheVariants as fault;
ghost use Rattle.cbpf_why.specs.declared.report.Report.TheVariants.{Summary};

use crate::chosen::PacketRange;
use crate::gathered::{Gathered, add_counted, add_ended, end_of};
use crate::packets::write_packet_line;
use crate::question::Question;
use crate::report::Report;
use crate::reporting::WhyFault;
use crate::traces::write_trace;
use cbpf_code::WriteFault;
use pcap_classic::{CaptureReader, Captured, ReadFault};
use std::alloc::Allocator;
use std::io::{Read, Write};

/// Whether something is written of each packet as it comes.
fn writes_each(report: Report) -> bool
    ensures { result ≡ not (spec.counts_groups report) }
{
    matches!(report, Report::Traces | Report::Packets)
}

/// Writes the line of a packet.
// Kept out of line, as its registers would else be saved for each packet that is counted.
#[inline(never)]
fn write_packet<P: Allocator, W: Write>(
    question: &Question<'_, P>,
    w: &mut W,
    item: &Captured<'_>,
) -> Result<(), WriteFault>
    ensures { Wrote (W.contents w.old) (W.contents w.new) result
        (packet_line (decided (machine_in question.now) (record_of item.now))) }
{
    write_packet_line(w, end_of::<P, 4>(question, item))
}

/// Counts a packet, or writes what is to be reported of it.
fn take_packet<P: Allocator, A: Allocator + Copy, W: Write>(
    question: &Question<'_, P>,
    counted: &mut Gathered<A>,
    w: &mut W,
    item: &Captured<'_>,
) -> Result<(), WriteFault>
    requires { (records : List Record) × spec.HasGathered question.now counted.old records × (length records + 1 < 2 ^ 64) }
    ensures wrote { Wrote (W.contents w.old) (W.contents w.new) result
        (reports.packet_text question.now.report (machine_in question.now) (record_of item.now)) }
    ensures took { (records : List Record) → spec.HasGathered question.now counted.old records
        → OnOk result (spec.HasGathered question.now counted.new (records ++ record_of item.now ∷ [])) }
{
    match question.report {
        Report::Traces => write_trace(w, question.program, counted.longest, question.values, item),
        Report::Packets => write_packet(question, w, item),
        Report::Summary => {
            add_ended::<P, A, 4>(question, counted, item);
            Ok(())
        }
        Report::Coverage => {
            add_counted(question, counted, item);
            Ok(())
        }
        Report::Graph => {
            add_counted(question, counted, item);
            Ok(())
        }
    }
}

/// Flushes what was written of packets before a read that may wait.
fn flush_if_due<R: Read, B: Allocator, W: Write>(
    report: Report,
    reader: &CaptureReader<R, B>,
    w: &mut W,
) -> Result<(), WhyFault>
    ensures kept { KeepsBytes (W.contents w.old) (W.contents w.new) }
    ensures counted { spec.counts_groups report ≡ true → result ≡ Ok tt }
    ensures fault { IfErr result (λ e. e ≡ fault.Write) }
{
    if writes_each(report) && !reader.has_next() && w.flush().is_err() {
        return Err(WhyFault::Write);
    }
    Ok(())
}

/// Reads a record, and takes it where its number isn't below the first one that is looked at: false at the end.
fn take_next<P: Allocator, A: Allocator + Copy, R: Read, B: Allocator, W: Write>(
    question: &Question<'_, P>,
    counted: &mut Gathered<A>,
    reader: &mut CaptureReader<R, B>,
    w: &mut W,
    first: u64,
) -> Result<bool, WhyFault>
    requires { (records : List Record) × spec.HasGathered question.now counted.old records × (length records + 1 < 2 ^ 64) }
    ensures { (records : List Record) → spec.HasGathered question.now counted.old records →
        MatchResult result
        (λ has_more. spec.Stepped question.now first records reader.old reader.new counted.new
        (W.contents w.old) (W.contents w.new) has_more)
        (λ fault. spec.StepFault question.now first reader.old reader.new (W.contents w.old) (W.contents w.new) fault) }
{
    if flush_if_due(question.report, reader, w).is_err() {
        return Err(WhyFault::Write);
    }
    match reader.next_record() {
        Ok(Some(item)) => {
            if item.number < first {
                return Ok(true);
            }
            match take_packet(question, counted, w, &item) {
                Ok(()) => Ok(true),
                Err(_) => Err(WhyFault::Write),
            }
        }
        Ok(None) => Ok(false),
        Err(ReadFault::Read(_)) => Err(WhyFault::Read),
        Err(ReadFault::Memory) => Err(WhyFault::Memory),
    }
}

/// Counts the packets that were read already, up to the range's last number.
// Kept out of line: the loop over records stands alone.
#[inline(never)]
fn count_buffered<P: Allocator, A: Allocator + Copy, R: Read, B: Allocator>(
    question: &Question<'_, P>,
    counted: &mut Gathered<A>,
    reader: &mut CaptureReader<R, B>,
    range: PacketRange,
)
    requires summary { question.now.report ≡ Summary }
    requires begun { range.first ≤ reader.old.count + 1 }
    requires few { reader.old.count < 2 ^ 60 }
    requires within { reader.old.count ≤ range.last }
    requires took { (records : List Record) × spec.HasGathered question.now counted.old records
        × (length records ≤ reader.old.count) }
    ensures few { reader.new.count < 2 ^ 60 }
    ensures since { reader.old.count ≤ reader.new.count }
    ensures within { reader.new.count ≤ range.last }
    ensures going { spec.KeepsGoing question.now range.first reader.old reader.new counted.old counted.new }
{
    'records: while reader.count() < range.last {
        let Some(item) = reader.next_buffered() else {
            return;
        };
        add_ended::<P, A, 5>(question, counted, &item);
    }
}

/// Takes the packets that need no read and of which nothing is written, up to the range's last number.
#[inline(always)]
fn take_ready<P: Allocator, A: Allocator + Copy, R: Read, B: Allocator>(
    question: &Question<'_, P>,
    counted: &mut Gathered<A>,
    reader: &mut CaptureReader<R, B>,
    range: PacketRange,
)
    requires few { reader.old.count < 2 ^ 60 }
    requires within { reader.old.count ≤ range.last }
    requires took { (records : List Record) × spec.HasGathered question.now counted.old records
        × (length records ≤ reader.old.count) }
    ensures few { reader.new.count < 2 ^ 60 }
    ensures since { reader.old.count ≤ reader.new.count }
    ensures within { reader.new.count ≤ range.last }
    ensures going { spec.KeepsGoing question.now range.first reader.old reader.new counted.old counted.new }
{
    if matches!(question.report, Report::Summary) && range.first <= reader.count() + 1 {
        count_buffered(question, counted, reader, range);
    }
}

/// Takes the packets of a range. Fewer were read after it than the range's last number only at the capture's end.
fn take_range<P: Allocator, A: Allocator + Copy, R: Read, B: Allocator, W: Write>(
    question: &Question<'_, P>,
    counted: &mut Gathered<A>,
    reader: &mut CaptureReader<R, B>,
    w: &mut W,
    range: PacketRange,
) -> Result<(), WhyFault>
    requires few { reader.old.count < 2 ^ 60 }
    requires took { (records : List Record) × spec.HasGathered question.now counted.old records
        × (length records ≤ reader.old.count) }
    ensures { (records : List Record) → spec.HasGathered question.now counted.old records → length records ≤ reader.old.count →
        MatchResult result
        (λ _. spec.Ranged question.now range records reader.old reader.new counted.new (W.contents w.old) (W.contents w.new))
        (λ fault. spec.RangeFault question.now range reader.old reader.new (W.contents w.old) (W.contents w.new) fault) }
{
    'records: while reader.count() < range.last {
        take_ready(question, counted, reader, range);
        if reader.count() == range.last {
            return Ok(());
        }
        match take_next(question, counted, reader, w, range.first) {
            Ok(has_more) => {
                if !has_more {
                    return Ok(());
                }
            }
            Err(fault) => return Err(fault),
        }
    }
    Ok(())
}

/// Takes the packets that are looked at: whether the capture's end was read.
pub(crate) fn take_packets<P: Allocator, A: Allocator + Copy, R: Read, B: Allocator, W: Write>(
    question: &Question<'_, P>,
    counted: &mut Gathered<A>,
    reader: &mut CaptureReader<R, B>,
    w: &mut W,
) -> Result<bool, WhyFault>
    requires count { reader.old.count ≡ 0 }
    requires took { spec.HasGathered question.now counted.old [] }
    ensures { MatchResult result
        (λ is_over. spec.Went question.now reader.old reader.new counted.new (W.contents w.old) (W.contents w.new)
        × spec.Ends question.now.packets.now reader.old.left reader.new is_over)
        (λ fault. spec.Broke question.now reader.old.left reader.new (W.contents w.old) (W.contents w.new) fault) }
{
    for range in question.packets {
        take_range(question, counted, reader, w, *range)?;
        if reader.count() < range.last {
            return Ok(true);
        }
    }
    Ok(false)
}
