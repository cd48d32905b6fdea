//! What is said of a report on standard error.

ghost use Rattle.std.specs.Prelude.{◌≡◌, ◌+◌, ◌≤◌, ◌++◌, length, string_bytes};
ghost use Rattle.std.specs.List.{flat_map};
ghost use Rattle.std.specs.Option.{option_map};
ghost use Rattle.cbpf_code.specs.Writing.{Wrote};
ghost use Rattle.cbpf_code.specs.declared.writing.TheConstants.{LINE_SIZE};
ghost use Rattle.cbpf_tool.specs.Remarks as spec;

use crate::report_asked::ReportAsked;
use cbpf_code::{Line, WriteFault, write_bytes, write_parts, write_with_number};
use cbpf_reply::write_cut;
use cbpf_why::{CaptureEnd, PacketRange, Report};
use pcap_classic::Ending;
use std::io::Write;

/// The link type of Ethernet.
const ETHERNET: u32 = 1;

/// A file has its link type in the lower 16 bits of a number. The other bits say whether its packets end with a check sequence.
const LINK_TYPES: u32 = 65_536;

/// The last number of a range that goes to the end of the capture.
pub(crate) const TO_END: u64 = u64::MAX;

/// What a capture of so many packets lacks of a range. One to the end of the capture asks for its first packet, if it is
/// one, and for those after it that are there.
fn lacking(range: PacketRange, count: u64) -> Option<PacketRange>
    ensures { result ≡ spec.lacking count range }
{
    if range.last == TO_END && range.first <= count {
        None
    } else {
        range.beyond(count)
    }
}

/// What is to be said of a report that is whole.
#[derive(Debug, Drop)]
pub struct Remarks {
    /// The name of the capture's file; without one it is the standard input.
    pub capture: Option<String>,
    /// The link type of the capture, as it stands in the file.
    pub link: u32,
    /// Which report it is, and of which packets.
    pub asked: ReportAsked,
    /// How the capture ends, where its end was read.
    pub end: Option<CaptureEnd>,
}

impl Remarks {
    /// Whether the capture lacks a packet that was asked for.
    pub fn lacks_packets(&self) -> bool
        ensures { result ≡ spec.lacks_packets self.now }
    {
        match self.end {
            Some(end) => lacks_any(self.asked.packets.as_slice(), end.count),
            None => false,
        }
    }

    /// Whether the report itself says how the capture ends.
    fn report_says_ending(&self) -> bool
        ensures { result ≡ spec.report_says_ending self.now }
    {
        matches!(self.asked.report, Report::Summary)
    }
}

/// Whether a capture of so many packets lacks one of some ranges.
fn lacks_any(ranges: &[PacketRange], count: u64) -> bool
    ensures { result ≡ spec.lacks_any ranges.now count }
{
    for range in ranges {
        if lacking(*range, count).is_some() {
            return true;
        }
    }
    false
}

/// Writes what a line begins with.
fn write_start<W: Write>(w: &mut W, capture: &Option<String>) -> Result<(), WriteFault>
    ensures { Wrote (W.contents w.old) (W.contents w.new) result
        (spec.line_start (option_map (λ n. string_bytes n) capture.now)) }
{
    match capture {
        Some(name) => write_parts(w, &[b"cbpf: ", name.as_str().as_bytes(), b": "]),
        None => write_bytes(w, b"cbpf: "),
    }
}

/// Writes a link type that is not Ethernet's.
#[tactic(auto, unfolding(crate::specs::Remarks::link_text))]
fn write_link<W: Write>(w: &mut W, link: u32) -> Result<(), WriteFault>
    ensures { Wrote (W.contents w.old) (W.contents w.new) result (spec.link_text link) }
{
    write_with_number(w, b"link type ", u64::from(link), b", not Ethernet\n")
}

/// Writes a line for this link type.
#[tactic(auto, using(cbpf_code::proofs::WrittenLemmas::three, cbpf_code::proofs::WrittenLemmas::steps))]
fn write_other_link<W: Write>(
    w: &mut W,
    capture: &Option<String>,
    link: u32,
) -> Result<(), WriteFault>
    ensures { Wrote (W.contents w.old) (W.contents w.new) result
        (spec.other_link_line (option_map (λ n. string_bytes n) capture.now) link) }
{
    write_start(w, capture)?;
    write_link(w, link)
}

/// Writes a line for a link type that is not Ethernet's.
#[tactic(auto, using(cbpf_code::proofs::WrittenLemmas::steps))]
fn write_link_line<W: Write>(
    w: &mut W,
    capture: &Option<String>,
    link: u32,
) -> Result<(), WriteFault>
    ensures { Wrote (W.contents w.old) (W.contents w.new) result
        (spec.link_line (option_map (λ n. string_bytes n) capture.now) link) }
{
    let link = link % LINK_TYPES;
    if link == ETHERNET {
        Ok(())
    } else {
        write_other_link(w, capture, link)
    }
}

/// Puts the last number of a range, where it doesn't stand for the end.
fn prepend_last(line: &mut Line, last: u64)
    requires { length line.old + 20 ≤ LINE_SIZE }
    ensures text { line.new ≡ spec.last_text last ++ line.old }
    ensures grown { length line.new ≤ length line.old + 20 }
{
    if last != TO_END {
        line.prepend_u64(last);
    }
}

/// Writes which packets are lacking.
fn write_lacking<W: Write>(w: &mut W, range: PacketRange) -> Result<(), WriteFault>
    ensures { Wrote (W.contents w.old) (W.contents w.new) result (spec.lacking_text range) }
{
    let mut line = Line::new();
    line.prepend(b"\n");
    if range.first == range.last {
        line.prepend_u64(range.last);
        line.prepend(b"no packet ");
    } else {
        prepend_last(&mut line, range.last);
        line.prepend(b"-");
        line.prepend_u64(range.first);
        line.prepend(b"no packets ");
    }
    line.write(w)
}

/// Writes a line for what a capture lacks of a range, where that is anything.
#[tactic(auto, using(cbpf_code::proofs::WrittenLemmas::three, cbpf_code::proofs::WrittenLemmas::steps))]
fn write_lacking_line<W: Write>(
    w: &mut W,
    capture: &Option<String>,
    lacking: Option<PacketRange>,
) -> Result<(), WriteFault>
    ensures { Wrote (W.contents w.old) (W.contents w.new) result
        (spec.lacking_line (option_map (λ n. string_bytes n) capture.now) lacking) }
{
    let Some(lacking) = lacking else {
        return Ok(());
    };
    write_start(w, capture)?;
    write_lacking(w, lacking)
}

/// Writes a line for how a capture of so many packets ends, where it is cut.
#[tactic(auto, using(cbpf_code::proofs::WrittenLemmas::three, cbpf_code::proofs::WrittenLemmas::steps))]
fn write_ending_line<W: Write>(
    w: &mut W,
    capture: &Option<String>,
    count: u64,
    ending: Ending,
) -> Result<(), WriteFault>
    ensures { Wrote (W.contents w.old) (W.contents w.new) result
        (spec.ending_line (option_map (λ n. string_bytes n) capture.now) count ending) }
{
    if ending == Ending::Whole {
        return Ok(());
    }
    write_start(w, capture)?;
    write_cut(w, count, ending)
}

/// Writes a line for each range of which a capture of so many packets lacks some.
#[tactic(auto, using(cbpf_code::proofs::WrittenLemmas::loops))]
fn write_lacking_lines<W: Write>(
    w: &mut W,
    capture: &Option<String>,
    ranges: &[PacketRange],
    count: u64,
) -> Result<(), WriteFault>
    ensures { Wrote (W.contents w.old) (W.contents w.new) result
        (flat_map (λ range. spec.lacking_line (option_map (λ n. string_bytes n) capture.now) (spec.lacking count range))
        ranges.now) }
{
    for range in ranges {
        write_lacking_line(w, capture, lacking(*range, count))?;
    }
    Ok(())
}

/// Writes what the end of a capture shows: what it lacks, and where it is cut.
#[tactic(auto, using(cbpf_code::proofs::WrittenLemmas::three, cbpf_code::proofs::WrittenLemmas::steps))]
fn write_end_lines<W: Write>(
    w: &mut W,
    remarks: &Remarks,
    end: CaptureEnd,
) -> Result<(), WriteFault>
    ensures { Wrote (W.contents w.old) (W.contents w.new) result (spec.end_lines remarks.now end) }
{
    write_lacking_lines(
        w,
        &remarks.capture,
        remarks.asked.packets.as_slice(),
        end.count,
    )?;
    if remarks.report_says_ending() {
        return Ok(());
    }
    write_ending_line(w, &remarks.capture, end.count, end.ending)
}

/// Writes what is to be said of a report: a line for a link type that is not Ethernet's, and, where the capture's end was
/// read, a line for each range of packets of which the capture lacks something, in the ranges' order, and a line that says
/// where the capture is cut, if it is and the report doesn't say so. Each line begins with `cbpf: `. The name of the
/// capture's file follows, where the capture has one.
///
/// # Errors
///
/// The writer failed: a beginning of the lines was written.
#[tactic(auto, using(cbpf_code::proofs::WrittenLemmas::three, cbpf_code::proofs::WrittenLemmas::steps), unfolding(crate::specs::Remarks::remarks_text))]
pub fn write_remarks<W: Write>(w: &mut W, remarks: &Remarks) -> Result<(), WriteFault>
    ensures { Wrote (W.contents w.old) (W.contents w.new) result (spec.remarks_text remarks.now) }
{
    write_link_line(w, &remarks.capture, remarks.link)?;
    match remarks.end {
        Some(end) => write_end_lines(w, remarks, end),
        None => Ok(()),
    }
}
