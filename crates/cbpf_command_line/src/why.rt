//! The command line of `why`.

ghost use Rattle.std.specs.Prelude.{◌≡◌, false, List, [], ◌∷◌, map, fold, slice_get, unwrap_or, codes, is_err};
ghost use Rattle.std.specs.Prelude.{if◌then◌else◌, IfOk, IfErr};
ghost use Rattle.clap.specs.Words.{app_of, with_rule, rule_of, rows_of, found_of, first_of, subcommand_rows_of};
ghost use Rattle.clap.specs.declared.builder.command.Command.TheViews.{out-Command as fields_of};
ghost use Rattle.clap.specs.Kinds.{HasKind};
ghost use Rattle.clap.specs.declared.error.kind.ErrorKind.TheVariants as kind;
ghost use Rattle.cbpf_command_line.specs.CommandLine.{text_of, IsFaultOf, IsRefusalKind, flag_rule};
ghost use Rattle.cbpf_command_line.specs.RequestLine as spec;

use crate::job::{Job, LineFault};
use crate::parse::{bare, command, file_name, given_name, is_set, job_of, line_fault, parse_fault};
use crate::request::{Detail, RequestWords, WhyWords};
use clap::error::ErrorKind;
use clap::{Arg, ArgAction, ArgMatches, Command};
use std::alloc::{AllocError, Global};

const WHY_ABOUT: &str = "Says which packets of a capture pass a filter, and why the others fail";

const WHY_EXAMPLES: &str =
    "FILTER is assembler source, or the output of tcpdump -ddd or cbpf asm. CAPTURE
is a pcap file, which is read once, so a pipe will do. A missing CAPTURE is read
from standard input. PACKET is a number, counted from 1 as tcpdump -# and
Wireshark do, a range as 5-8, or 5- for all packets from 5 on.

Without options and packets it prints which test decided on how many packets,
where and why the others ended, and the first of each. With packets it prints
the trace of each: what it executed, with A and X before each instruction.

EXT is proto, type, ifidx, mark, queue, hatype, rxhash, cpu, vlan_tci,
vlan_avail or vlan_tpid, and N a number as 2048 or 0x800. One value stands for
all packets, also where the kernel would give each its own. Without a value a
packet that asks for an extension is unknown.

Examples:
  How packets end in a filter:
    $ cbpf why filter.asm trace.pcap
  Why packet 40 ends so, in a filter of tcpdump (in bash):
    $ cbpf why <(tcpdump -r trace.pcap -ddd 'tcp port 80') trace.pcap 40
  The numbers of the packets that pass:
    $ cbpf why -p filter.asm trace.pcap | awk '$2 == \"pass\" { print $1 }'
  A graph of a filter with counts, by Graphviz:
    $ cbpf why -g filter.asm trace.pcap | dot -Tsvg > filter.svg";

const FILTER: &str = "Assembler source, or the output of tcpdump -ddd";

const CAPTURE: &str = "The capture [default: standard input]";

const PACKET: &str = "The packets to look at [default: all]";

/// A flag that has one letter.
fn flag<'a>(alloc: Global, letter: &'a str, short: char, help: &'a str) -> Arg<'a>
    ensures rule { rule_of result ≡ flag_rule letter.entry.now short }
    ensures local { result.global ≡ false }
{
    Arg::new(alloc, letter)
        .short(short)
        .action(ArgAction::SetTrue)
        .help(help)
}

/// The flags of which one says what is reported.
fn with_flags<'a>(alloc: Global, command: Command<'a>) -> Result<Command<'a>, AllocError>
    ensures app { (fields_of command.entry).has_globals ≡ false → IfOk result (λ c.
        app_of c ≡ fold with_rule (app_of command.entry) spec.detail_rules) }
    ensures local { (fields_of command.entry).has_globals ≡ false → IfOk result (λ c.
        (fields_of c).has_globals ≡ false) }
{
    command
        .arg(flag(
            alloc,
            "l",
            'l',
            "Print the listing with how often each instruction ran",
        ))?
        .arg(flag(
            alloc,
            "g",
            'g',
            "Print the same as a graph for Graphviz (DOT)",
        ))?
        .arg(flag(alloc, "p", 'p', "Print a line for each packet"))
}

/// The values of extensions.
fn value_option<'a>(alloc: Global) -> Arg<'a>
    ensures rule { rule_of result ≡ spec.value_rule }
    ensures local { result.global ≡ false }
{
    Arg::new(alloc, "value")
        .short('v')
        .value_name("EXT=N")
        .action(ArgAction::Append)
        .help("Let loads of the extension EXT give N, for all packets")
}

/// The packets, of which there may be none.
fn packet_names<'a>(alloc: Global) -> Arg<'a>
    ensures rule { rule_of result ≡ spec.packet_rule }
    ensures local { result.global ≡ false }
{
    Arg::new(alloc, "packet")
        .value_name("PACKET")
        .num_args(..)
        .help(PACKET)
}

/// The name of the filter's file, which may not be left out.
fn filter_file<'a>(alloc: Global) -> Arg<'a>
    ensures rule { rule_of result ≡ spec.filter_rule }
    ensures local { result.global ≡ false }
{
    file_name(alloc, "filter", "FILTER", FILTER).required(true)
}

/// The values, the files and the packets.
fn with_words<'a>(alloc: Global, command: Command<'a>) -> Result<Command<'a>, AllocError>
    ensures app { (fields_of command.entry).has_globals ≡ false → IfOk result (λ c.
        app_of c ≡ fold with_rule (app_of command.entry) spec.word_rules) }
    ensures local { (fields_of command.entry).has_globals ≡ false → IfOk result (λ c.
        (fields_of c).has_globals ≡ false) }
{
    command
        .arg(value_option(alloc))?
        .arg(filter_file(alloc))?
        .arg(file_name(alloc, "capture", "CAPTURE", CAPTURE))?
        .arg(packet_names(alloc))
}

fn why_command<'a>(alloc: Global) -> Result<Command<'a>, AllocError>
    ensures app { IfOk result (λ c. app_of c ≡ spec.why_app) }
    ensures local { IfOk result (λ c. (fields_of c).has_globals ≡ false) }
{
    let command = bare(alloc, "why", WHY_ABOUT, WHY_EXAMPLES);
    with_words(alloc, with_flags(alloc, command)?)
}

/// The program's command with `why`.
fn wide_command<'a>(alloc: Global) -> Result<Command<'a>, AllocError>
    ensures { IfOk result (λ c. app_of c ≡ spec.cbpf_app) }
{
    command(alloc)?.subcommand(why_command(alloc)?)
}

/// Which report the flags ask for, or which two of them can't stand together.
fn detail(matches: &ArgMatches<'_>) -> Result<Option<Detail>, &'static str>
    ensures one { IfOk result (λ d. d ≡ slice_get (spec.details_in (rows_of (found_of matches.now))) 0) }
    ensures conflict { spec.conflict_in (rows_of (found_of matches.now))
        ≡ (if is_err result then kind.ArgumentConflict ∷ [] else []) }
{
    match (
        is_set(matches, "l"),
        is_set(matches, "g"),
        is_set(matches, "p"),
    ) {
        (false, false, false) => Ok(None),
        (true, false, false) => Ok(Some(Detail::Listing)),
        (false, true, false) => Ok(Some(Detail::Graph)),
        (false, false, true) => Ok(Some(Detail::Packets)),
        (true, true, _) => Err("the argument '-l' cannot be used with '-g'"),
        (true, false, true) => Err("the argument '-l' cannot be used with '-p'"),
        (false, true, true) => Err("the argument '-g' cannot be used with '-p'"),
    }
}

/// The same texts, in memory of their own.
#[tactic(auto, using(std::proofs::lemmas::List::map_more, std::proofs::lemmas::Grind::common_steps))]
fn owned(alloc: Global, texts: &[&str]) -> Result<Vec<String>, AllocError>
    ensures { IfOk result (λ own. map text_of own.items ≡ map (λ s. s.now) texts.now) }
{
    let mut own = Vec::new(alloc);
    for text in texts {
        own.push(String::from_str(alloc, text)?)?;
    }
    Ok(own)
}

/// All texts that were given for an argument, in memory of their own.
#[tactic(auto, using(crate::proofs::Parses::all_texts))]
fn given_texts(alloc: Global, matches: &ArgMatches<'_>, id: &str) -> Result<Vec<String>, AllocError>
    ensures { IfOk result (λ own. map text_of own.items ≡ spec.texts_in id.now (rows_of (found_of matches.now))) }
{
    owned(alloc, matches.get_raw(id).unwrap_or(&[]))
}

/// The name of the filter's file. A command line without one is refused.
fn filter_name(alloc: Global, matches: &ArgMatches<'_>) -> Result<String, AllocError>
    ensures { IfOk result (λ name. text_of name
        ≡ unwrap_or (first_of (codes "filter") (rows_of (found_of matches.now))) []) }
{
    match given_name(alloc, matches, "filter")? {
        Some(name) => Ok(name),
        None => Ok(String::new(alloc)),
    }
}

/// The words of `why`, with the report that is asked for.
fn why_words(
    alloc: Global,
    matches: &ArgMatches<'_>,
    detail: Option<Detail>,
) -> Result<WhyWords, AllocError>
    ensures { IfOk result (λ w. spec.why_meaning w
        ≡ record (spec.why_asked (rows_of (found_of matches.now))) { detail = detail }) }
{
    Ok(WhyWords {
        detail,
        values: given_texts(alloc, matches, "value")?,
        filter: filter_name(alloc, matches)?,
        capture: given_name(alloc, matches, "capture")?,
        packets: given_texts(alloc, matches, "packet")?,
    })
}

/// A refusal of the command line of `why`, with the usage of `why`.
fn refusal(alloc: Global, kind: ErrorKind, text: &str) -> LineFault
    requires { IsRefusalKind kind }
    ensures { IsFaultOf (kind ∷ []) result }
{
    let Ok(command) = why_command(alloc) else {
        return LineFault::Memory;
    };
    let Ok(mut command) = command.bin_name("cbpf why") else {
        return LineFault::Memory;
    };
    match command.error(kind, text) {
        Ok(error) => line_fault(alloc, &error),
        Err(_) => LineFault::Memory,
    }
}

fn why_asked(alloc: Global, matches: &ArgMatches<'_>) -> Result<WhyWords, LineFault>
    ensures words { IfOk result (λ w. spec.why_meaning w ≡ spec.why_asked (rows_of (found_of matches.now))) }
    ensures taken { IfOk result (λ _. spec.conflict_in (rows_of (found_of matches.now)) ≡ []) }
    ensures refused { IfErr result (IsFaultOf (spec.conflict_in (rows_of (found_of matches.now)))) }
{
    match detail(matches) {
        Ok(detail) => match why_words(alloc, matches, detail) {
            Ok(words) => Ok(words),
            Err(_) => Err(LineFault::Memory),
        },
        Err(text) => Err(refusal(alloc, ErrorKind::ArgumentConflict, text)),
    }
}

fn request_asked(alloc: Global, matches: &ArgMatches<'_>) -> Result<RequestWords, LineFault>
    ensures request { IfOk result (λ r. spec.request_meaning r ≡ spec.requested_by (subcommand_rows_of matches.now)) }
    ensures taken { IfOk result (λ _. spec.conflict_by (subcommand_rows_of matches.now) ≡ []) }
    ensures refused { IfErr result (IsFaultOf (spec.conflict_by (subcommand_rows_of matches.now))) }
{
    match matches.subcommand() {
        Some(("why", inner)) => match why_asked(alloc, inner) {
            Ok(words) => Ok(RequestWords::Why(words)),
            Err(fault) => Err(fault),
        },
        _ => match job_of(alloc, matches) {
            Ok(job) => Ok(RequestWords::Job(job)),
            Err(_) => Err(LineFault::Memory),
        },
    }
}

fn request_of(alloc: Global, words: &[String]) -> Result<RequestWords, LineFault>
    ensures request { IfOk result (λ r. spec.request_meaning r ≡ spec.requested_for (map text_of words.now)) }
    ensures taken { IfOk result (λ _. spec.request_faults (map text_of words.now) ≡ []) }
    ensures refused { IfErr result (IsFaultOf (spec.request_faults (map text_of words.now))) }
{
    // A script that is piped to the program comes without words: it need not wait for the parser to be built.
    if words.len() <= 1 {
        return Ok(RequestWords::Job(Job::Dbg {
            input: None,
            output: None,
        }));
    }
    let Ok(command) = wide_command(alloc) else {
        return Err(LineFault::Memory);
    };
    match command.try_get_matches_from(words) {
        Ok(matches) => request_asked(alloc, &matches),
        Err(error) => Err(parse_fault(alloc, words, error)),
    }
}

/// What the words of a command line ask for, of which the first is the program's own name. Words that don't name `why`
/// ask for the same job as by [`command_line`](crate::command_line), or have a fault of one of the kinds that they have
/// there. Its text may differ, as the help lists `why`.
///
/// # Errors
///
/// As of [`command_line`](crate::command_line); `Refused` also where two of `-l`, `-g` and `-p` are given.
pub fn request_line(alloc: Global, words: Vec<String>) -> Result<RequestWords, LineFault>
    ensures request { IfOk result (λ r. spec.request_meaning r ≡ spec.requested_for (map text_of words.items)) }
    ensures taken { IfOk result (λ _. spec.request_faults (map text_of words.items) ≡ []) }
    ensures refused { IfErr result (IsFaultOf (spec.request_faults (map text_of words.items))) }
    ensures before { spec.AnswersAsWithoutWhy (map text_of words.items) result }
{
    request_of(alloc, &words)
}

/// The refusal of a word that `why` was given, with this text: `Refused`, or `Memory` where the allocator refused.
pub fn refused_word(alloc: Global, text: &str) -> LineFault
    ensures { IsFaultOf spec.word_faults result }
{
    refusal(alloc, ErrorKind::ValueValidation, text)
}
