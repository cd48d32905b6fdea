//! What a command line asks for, with `why`.

ghost use Rattle.std.specs.Prelude.{◌≡◌, ◌==◌, ◌<◌, [], length, position, map, filter_map, option_map};
ghost use Rattle.std.specs.Prelude.{false, Some, None, Err, IfSome, IfOk, IfErr, OnOk, MatchResult, IsPermutation, string_bytes};
ghost use Rattle.cbpf_command_line.specs.CommandLine.{text_of, IsFaultOf, faults_in};
ghost use Rattle.cbpf_command_line.specs.RequestLine.{names_why, requested_for, why_meaning, word_faults};
ghost use Rattle.cbpf_why.specs.Chosen.{AreSorted};
ghost use Rattle.cbpf_tool.specs.Numbers.{numeral_value};
ghost use Rattle.cbpf_tool.specs.Requests as spec;
ghost use Rattle.cbpf_tool.specs.declared.request.NamesFault.TheVariants as names;

use crate::number::{LIMIT, number_up_to, numeral_value};
use crate::remarks::TO_END;
use crate::report_asked::ReportAsked;
use cbpf_code::{Ext, ext_named};
use cbpf_command_line::{
    Detail, Job, LineFault, RequestWords, WhyWords, refused_word, request_line,
};
use cbpf_dbg::Values;
use cbpf_why::{ALL_PACKETS, PacketRange, Report};
use std::alloc::{AllocError, Global};

/// `why`: a report of a filter on a capture.
#[derive(Debug, Drop)]
pub struct WhyJob {
    /// The name of the filter's file.
    pub filter: String,
    /// The name of the capture's file; without one it is the standard input.
    pub capture: Option<String>,
    pub asked: ReportAsked,
}

/// What a command line asks for.
#[derive(Debug, Drop)]
pub enum Request {
    Job(Job),
    Why(WhyJob),
}

/// Where the first byte of a kind stands.
pub(crate) fn position_of(word: &[u8], sign: u8) -> Option<usize>
    ensures first { result ≡ position (λ b. b == sign) word.now }
    ensures inside { IfSome result (λ i. i < length word.now) }
{
    word.iter().position(|b| *b == sign)
}

/// What stands before and after the first byte of a kind.
#[tactic(auto, using(crate::proofs::RequestLemmas::rest))]
fn split_once(word: &[u8], sign: u8) -> Option<(&[u8], &[u8])>
    ensures { option_map (λ ends. (ends.0.now, ends.1.now)) result ≡ spec.split_once sign word.now }
{
    let at = position_of(word, sign)?;
    Some((&word[..at], &word[at + 1..]))
}

/// A number that isn't 0.
fn number_of_packet(word: &[u8]) -> Option<u64>
    ensures { result ≡ spec.number_of_packet word.now }
{
    match number_up_to(word, u64::MAX) {
        Some(0) | None => None,
        Some(number) => Some(number),
    }
}

/// The packets from one number to another, where there are any.
fn range_between(first: u64, last: u64) -> Option<PacketRange>
    ensures { result ≡ spec.range_between first last }
{
    if first <= last {
        Some(PacketRange { first, last })
    } else {
        None
    }
}

/// The last number of a range, which is that of the capture's end where it is missing.
fn last_number(word: &[u8]) -> Option<u64>
    ensures { result ≡ spec.last_number word.now }
{
    if word.is_empty() {
        Some(TO_END)
    } else {
        number_of_packet(word)
    }
}

/// The packets that a word names: a number, or a first and a last one with `-` between, of which the last may be missing.
fn packet_range(word: &[u8]) -> Option<PacketRange>
    ensures { result ≡ spec.packet_range word.now }
{
    match split_once(word, b'-') {
        None => {
            let number = number_of_packet(word)?;
            Some(PacketRange {
                first: number,
                last: number,
            })
        }
        Some((first, last)) => range_between(number_of_packet(first)?, last_number(last)?),
    }
}

/// Why a word gives no value.
#[derive(Clone, Copy)]
enum ValueFault {
    UnknownExtension,
    /// The extension is one that takes no value.
    TakesNoValue,
    NumberExpected,
    NumberOutOfRange,
}

/// The text of a fault.
fn value_reason(fault: ValueFault) -> &'static str
    ensures { result.now ≡ spec.value_reason fault }
{
    match fault {
        ValueFault::UnknownExtension => "unknown extension",
        ValueFault::TakesNoValue => "this extension takes no value",
        ValueFault::NumberExpected => "number expected",
        ValueFault::NumberOutOfRange => "number out of range",
    }
}

/// A name and a number of a word `NAME=N`. Without a `=` there is no number.
fn name_and_number(word: &[u8]) -> (&[u8], &[u8])
    ensures { (result.0.now, result.1.now) ≡ spec.name_and_number word.now }
{
    match split_once(word, b'=') {
        Some(parts) => parts,
        None => (word, &[]),
    }
}

/// The number of 32 bits that a word spells, decimal or hexadecimal.
fn value_number(word: &[u8]) -> Result<u32, ValueFault>
    ensures { result ≡ spec.number_by (numeral_value word.now) }
{
    match numeral_value(word) {
        None => Err(ValueFault::NumberExpected),
        Some(LIMIT) => Err(ValueFault::NumberOutOfRange),
        Some(number) => Ok(number as u32),
    }
}

/// Sets the value of an extension.
fn set_number(values: &mut Values, e: Ext, number: &[u8]) -> Result<(), ValueFault>
    ensures { spec.Sets values.old values.new result (spec.value_for e (spec.number_by (numeral_value number.now))) }
{
    if values.set(e, value_number(number)?) {
        Ok(())
    } else {
        Err(ValueFault::TakesNoValue)
    }
}

/// Sets the value that a word gives, where it gives one.
fn set_value(values: &mut Values, word: &[u8]) -> Result<(), ValueFault>
    ensures { spec.Sets values.old values.new result (spec.value_in word.now) }
{
    let (name, number) = name_and_number(word);
    match ext_named(name) {
        Some(e) => set_number(values, e, number),
        None => Err(ValueFault::UnknownExtension),
    }
}

/// The values that words give, or the first word that gives none, and why.
#[tactic(auto, using(crate::proofs::RequestLemmas::named))]
fn values_of(words: &[String]) -> Result<Values, (&str, ValueFault)>
    ensures { MatchResult result
        (λ values. (spec.no_value (map text_of words.now) ≡ None) × (values ≡ spec.values_by (map text_of words.now)))
        (λ refused. (spec.no_value (map text_of words.now) ≡ Some refused.0.now)
        × (spec.value_in refused.0.now ≡ Err refused.1)) }
{
    let mut values = Values::new();
    for word in words {
        if let Err(fault) = set_value(&mut values, word.as_str().as_bytes()) {
            return Err((word.as_str(), fault));
        }
    }
    Ok(values)
}

/// Why words don't name packets.
#[derive(Clone, Copy)]
enum NamesFault<'a> {
    /// This is the first word that names none.
    Refused(&'a str),
    /// The allocator refused.
    Memory,
}

/// The packets that words name, in the words' order.
#[tactic(auto, using(crate::proofs::RequestLemmas::named))]
fn ranges_named(alloc: Global, words: &[String]) -> Result<Vec<PacketRange>, NamesFault<'_>>
    ensures { MatchResult result
        (λ ranges. (spec.no_packets (map text_of words.now) ≡ None)
        × (ranges.items ≡ filter_map spec.packet_range (map text_of words.now)))
        (spec.IsNamesFault (map text_of words.now)) }
{
    let mut ranges = Vec::new(alloc);
    for word in words {
        let Some(range) = packet_range(word.as_str().as_bytes()) else {
            return Err(NamesFault::Refused(word.as_str()));
        };
        if ranges.push(range).is_err() {
            return Err(NamesFault::Memory);
        }
    }
    Ok(ranges)
}

/// Puts all packets into a list of ranges that is empty.
fn put_all<'a>(ranges: &mut Vec<PacketRange>) -> Result<(), NamesFault<'a>>
    ensures all { OnOk result (ranges.new.items ≡ spec.or_all ranges.old.items) }
    ensures fault { IfErr result (λ e. e ≡ names.Memory) }
{
    if ranges.is_empty() && ranges.push(ALL_PACKETS).is_err() {
        return Err(NamesFault::Memory);
    }
    Ok(())
}

/// The packets that words name, sorted; all, where there are no words.
fn ranges_of(alloc: Global, words: &[String]) -> Result<Vec<PacketRange>, NamesFault<'_>>
    ensures { MatchResult result
        (λ ranges. (spec.no_packets (map text_of words.now) ≡ None)
        × IsPermutation (spec.or_all (filter_map spec.packet_range (map text_of words.now))) ranges.items
        × AreSorted ranges.items)
        (spec.IsNamesFault (map text_of words.now)) }
{
    let mut ranges = ranges_named(alloc, words)?;
    put_all(&mut ranges)?;
    match ranges.sort() {
        Ok(()) => Ok(ranges),
        Err(_) => Err(NamesFault::Memory),
    }
}

/// What is wrong with a word that was given for an argument.
fn refusal_text(
    alloc: Global,
    word: &str,
    argument: &str,
    reason: &str,
) -> Result<String, AllocError>
    ensures { IfOk result (λ text. text_of text ≡ spec.refusal_text word.now argument.now reason.now) }
{
    format!(in alloc; "invalid value '{word}' for '{argument}': {reason}")
}

/// The refusal of a word that gives no value.
fn value_refusal(alloc: Global, word: &str, fault: ValueFault) -> Result<String, AllocError>
    ensures { IfOk result (λ text. text_of text ≡ spec.value_refusal word.now fault) }
{
    refusal_text(alloc, word, "-v <EXT=N>", value_reason(fault))
}

/// The refusal of a word that names no packets.
fn packets_refusal(alloc: Global, word: &str) -> Result<String, AllocError>
    ensures { IfOk result (λ text. text_of text ≡ spec.packets_refusal word.now) }
{
    refusal_text(
        alloc,
        word,
        "[PACKET]...",
        "N, N-M or N- expected, counted from 1",
    )
}

/// A refusal as the fault of a command line, whose text clap makes of it.
fn refused(alloc: Global, text: Result<String, AllocError>) -> LineFault
    ensures { IsFaultOf word_faults result }
{
    match text {
        Ok(text) => refused_word(alloc, text.as_str()),
        Err(_) => LineFault::Memory,
    }
}

/// The name of the capture's file, where it is not the standard input.
fn file_of(capture: Option<String>) -> Option<String>
    ensures { option_map (λ n. string_bytes n) result ≡ spec.file_name (option_map (λ n. string_bytes n) capture) }
{
    let name = capture?;
    if name.as_str() == "-" {
        None
    } else {
        Some(name)
    }
}

/// The report that is asked for.
fn report_of(detail: Option<Detail>, has_packets: bool) -> Report
    ensures { result ≡ spec.report_by detail has_packets }
{
    match detail {
        Some(Detail::Packets) => Report::Packets,
        Some(Detail::Listing) => Report::Coverage,
        Some(Detail::Graph) => Report::Graph,
        None if has_packets => Report::Traces,
        None => Report::Summary,
    }
}

/// The values that are asked for.
fn values_asked(alloc: Global, words: &[String]) -> Result<Values, LineFault>
    ensures { MatchResult result
        (λ values. (spec.no_value (map text_of words.now) ≡ None) × (values ≡ spec.values_by (map text_of words.now)))
        (IsFaultOf (spec.refused_by (spec.no_value (map text_of words.now)))) }
{
    match values_of(words) {
        Ok(values) => Ok(values),
        Err((word, fault)) => Err(refused(alloc, value_refusal(alloc, word, fault))),
    }
}

/// The packets that are asked for.
fn ranges_asked(alloc: Global, words: &[String]) -> Result<Vec<PacketRange>, LineFault>
    ensures { MatchResult result
        (λ ranges. (spec.no_packets (map text_of words.now) ≡ None)
        × IsPermutation (spec.or_all (filter_map spec.packet_range (map text_of words.now))) ranges.items
        × AreSorted ranges.items)
        (IsFaultOf (spec.refused_by (spec.no_packets (map text_of words.now)))) }
{
    match ranges_of(alloc, words) {
        Ok(ranges) => Ok(ranges),
        Err(NamesFault::Refused(word)) => Err(refused(alloc, packets_refusal(alloc, word))),
        Err(NamesFault::Memory) => Err(LineFault::Memory),
    }
}

/// The job that the words of `why` ask for.
fn why_of(alloc: Global, words: WhyWords) -> Result<WhyJob, LineFault>
    ensures { MatchResult result
        (λ job. (spec.why_faults (why_meaning words) ≡ []) × spec.IsWhyJob (why_meaning words) job)
        (IsFaultOf (spec.why_faults (why_meaning words))) }
{
    let values = values_asked(alloc, &words.values)?;
    let packets = ranges_asked(alloc, &words.packets)?;
    let report = report_of(words.detail, !words.packets.is_empty());
    Ok(WhyJob {
        filter: words.filter,
        capture: file_of(words.capture),
        asked: ReportAsked {
            report,
            values,
            packets,
        },
    })
}

/// What the words of a command line ask for, of which the first is the program's own name. Words that don't name `why`
/// ask for the same job as by [`command_line`](crate::command_line), or have a fault of one of the kinds that they have
/// there. Its text may differ, as the help lists `why`.
///
/// # Errors
///
/// As of [`command_line`](crate::command_line); `Refused` also where two of `-l`, `-g` and `-p` are given, a word gives
/// no value, or it names no packets.
#[tactic(auto, using(crate::proofs::RequestLemmas::lines))]
pub fn read_request(alloc: Global, words: Vec<String>) -> Result<Request, LineFault>
    ensures request { IfOk result (spec.IsRequest (requested_for (map text_of words.items))) }
    ensures taken { OnOk result (spec.line_faults (map text_of words.items) ≡ []) }
    ensures refused { IfErr result (IsFaultOf (spec.line_faults (map text_of words.items))) }
    ensures before { names_why (map text_of words.items) ≡ false → MatchResult result
        (spec.IsJobRequest (map text_of words.items)) (IsFaultOf (faults_in (map text_of words.items))) }
{
    match request_line(alloc, words)? {
        RequestWords::Job(job) => Ok(Request::Job(job)),
        RequestWords::Why(words) => Ok(Request::Why(why_of(alloc, words)?)),
    }
}
