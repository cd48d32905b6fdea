//! Reads a command line.

ghost use Rattle.std.specs.Prelude.{◌≡◌, false, List, [], map, option_map, IfOk, IfErr};
ghost use Rattle.clap.specs.Words.{app_of, new_app, rule_of, first_of, subcommand_rows_of, rows_of, found_of};
ghost use Rattle.clap.specs.declared.builder.command.Command.TheViews.{out-Command as fields_of};
ghost use Rattle.clap.specs.Kinds.{HasKind};
ghost use Rattle.clap.specs.Values.{kind_of};
ghost use Rattle.cbpf_command_line.specs.CommandLine as spec;

use crate::each_command;
use crate::job::{Job, LineFault};
use cbpf_code::Form;
use clap::error::ErrorKind;
use clap::{Arg, ArgAction, ArgMatches, Command, Error};
use std::alloc::{AllocError, Global};

const VERSION: &str = "3.0.0-dev";

const ABOUT: &str =
    "Shows why packets pass or fail a classic BPF filter; assembles and debugs filters

Without a command, cbpf runs dbg, which reads commands from standard input.
cbpf-shell is the debugger with a prompt.";

const EXAMPLES: &str = "Examples:
  Say how the packets of a capture end in a filter of assembler source:
    $ cbpf why filter.asm trace.pcap
  The same for the output of tcpdump -ddd, for the capture's link type:
    $ tcpdump -r trace.pcap -ddd arp > filter.words
    $ cbpf why filter.words trace.pcap
  Assemble a filter:
    $ cbpf asm filter.asm
  Run the debugger's commands in a file:
    $ cbpf dbg session.dbg

The cause and cure of each error stand in share/doc/cbpf/REFERENCE.md, below
the place where cbpf is installed. The manual page lists errors and statuses.";

const ASM_ABOUT: &str = "Assembles a filter's source, and writes its instructions";

const ASM_EXAMPLES: &str = "Examples:
  Write the line that cbpf why and `load bpf` of cbpf dbg read:
    $ cbpf asm filter.asm
  Write the members of an array of struct sock_filter in C:
    $ cbpf asm -c filter.asm > filter.h";

const DBG_ABOUT: &str = "Runs a debugger's commands from standard input; cbpf-shell has a prompt";

macro_rules! help {
    (; $($name:literal => $read:ident($($command:expr)?), $help:literal;)*) => {
        concat!(
            "Commands, one a line, without short forms; numbers are decimal:",
            $($help,)*
            "

A run stops at breakpoints, and before a load of an extension without a value.
EXT is proto, type, ifidx, mark, queue, hatype, rxhash, cpu, vlan_tci,
vlan_avail or vlan_tpid. A refused command is answered by a line `error: ..`
and changes nothing; the commands after it run.

OUTPUT is emptied before the first command runs: swapped names, the name of a
capture there, or one file as both destroy that file.

Examples:
  Type commands at the terminal:
    $ cbpf dbg
  Run the commands in a file:
    $ cbpf dbg session.dbg
  Write the replies to a file:
    $ cbpf dbg session.dbg replies.txt"
        )
    };
}

const DBG_EXAMPLES: &str = each_command!(help);

const SOURCE: &str = "Assembler source [default: standard input]";

const COMMANDS: &str = "The commands [default: standard input]";

const REPLIES: &str = "Where the replies go, emptied first [default: standard output]";

/// The flag `-c`.
fn form_flag<'a>(alloc: Global) -> Arg<'a>
    ensures rule { rule_of result ≡ spec.form_rule }
    ensures local { result.global ≡ false }
{
    Arg::new(alloc, "c")
        .short('c')
        .action(ArgAction::SetTrue)
        .help("Write one line of C for each instruction")
}

/// The name of a file, which may be left out.
pub(crate) fn file_name<'a>(alloc: Global, id: &'a str, name: &'a str, help: &'a str) -> Arg<'a>
    ensures rule { rule_of result ≡ spec.file_rule id.entry.now }
    ensures local { result.global ≡ false }
{
    Arg::new(alloc, id).value_name(name).help(help)
}

/// A command without arguments.
pub(crate) fn bare<'a>(
    alloc: Global,
    name: &'a str,
    about: &'a str,
    examples: &'a str,
) -> Command<'a>
    ensures app { app_of result ≡ new_app name.entry.now }
    ensures local { (fields_of result).has_globals ≡ false }
{
    Command::new(alloc, name).about(about).after_help(examples)
}

fn asm_command<'a>(alloc: Global) -> Result<Command<'a>, AllocError>
    ensures app { IfOk result (λ c. app_of c ≡ spec.asm_app) }
    ensures local { IfOk result (λ c. (fields_of c).has_globals ≡ false) }
{
    bare(alloc, "asm", ASM_ABOUT, ASM_EXAMPLES)
        .arg(form_flag(alloc))?
        .arg(file_name(alloc, "file", "FILE", SOURCE))
}

fn dbg_command<'a>(alloc: Global) -> Result<Command<'a>, AllocError>
    ensures app { IfOk result (λ c. app_of c ≡ spec.dbg_app) }
    ensures local { IfOk result (λ c. (fields_of c).has_globals ≡ false) }
{
    bare(alloc, "dbg", DBG_ABOUT, DBG_EXAMPLES)
        .arg(file_name(alloc, "input", "INPUT", COMMANDS))?
        .arg(file_name(alloc, "output", "OUTPUT", REPLIES))
}

/// The program's command without subcommands.
fn bare_command<'a>(alloc: Global) -> Command<'a>
    ensures { app_of result ≡ spec.bare_app }
{
    bare(alloc, "cbpf", ABOUT, EXAMPLES).version(VERSION)
}

pub(crate) fn command<'a>(alloc: Global) -> Result<Command<'a>, AllocError>
    ensures { IfOk result (λ c. app_of c ≡ spec.app_without_why) }
{
    bare_command(alloc)
        .subcommand(asm_command(alloc)?)?
        .subcommand(dbg_command(alloc)?)
}

/// What was given for an argument.
#[tactic(auto, using(crate::proofs::Parses::first_text))]
pub(crate) fn given_text<'a>(matches: &ArgMatches<'a>, id: &str) -> Option<&'a str>
    ensures { option_map (λ s. s.now) result ≡ first_of id.now (rows_of (found_of matches.now)) }
{
    matches.get_str(id)
}

/// Whether a flag is set.
pub(crate) fn is_set(matches: &ArgMatches<'_>, letter: &str) -> bool
    ensures { result ≡ spec.is_set letter.now (rows_of (found_of matches.now)) }
{
    matches!(given_text(matches, letter), Some("true"))
}

/// The form by its flag.
fn form_of(matches: &ArgMatches<'_>) -> Form
    ensures { result ≡ spec.form_in (rows_of (found_of matches.now)) }
{
    if is_set(matches, "c") {
        Form::C
    } else {
        Form::Decimal
    }
}

/// The name that was given for an argument, in memory of its own.
pub(crate) fn given_name(
    alloc: Global,
    matches: &ArgMatches<'_>,
    id: &str,
) -> Result<Option<String>, AllocError>
    ensures { IfOk result (λ name. option_map (λ s. s.bytes.items) name
        ≡ first_of id.now (rows_of (found_of matches.now))) }
{
    match given_text(matches, id) {
        Some(name) => Ok(Some(String::from_str(alloc, name)?)),
        None => Ok(None),
    }
}

fn asm_asked(alloc: Global, matches: &ArgMatches<'_>) -> Result<Job, AllocError>
    ensures { IfOk result (λ j. spec.meaning j ≡ spec.asm_asked (rows_of (found_of matches.now))) }
{
    Ok(Job::Asm {
        form: form_of(matches),
        file: given_name(alloc, matches, "file")?,
    })
}

fn dbg_asked(alloc: Global, matches: &ArgMatches<'_>) -> Result<Job, AllocError>
    ensures { IfOk result (λ j. spec.meaning j ≡ spec.dbg_asked (rows_of (found_of matches.now))) }
{
    Ok(Job::Dbg {
        input: given_name(alloc, matches, "input")?,
        output: given_name(alloc, matches, "output")?,
    })
}

pub(crate) fn job_of(alloc: Global, matches: &ArgMatches<'_>) -> Result<Job, AllocError>
    ensures { IfOk result (λ j. spec.meaning j ≡ spec.asked_by (subcommand_rows_of matches.now)) }
{
    match matches.subcommand() {
        None => Ok(Job::Dbg {
            input: None,
            output: None,
        }),
        Some(("asm", inner)) => asm_asked(alloc, inner),
        Some((_, inner)) => dbg_asked(alloc, inner),
    }
}

pub(crate) fn line_fault(alloc: Global, error: &Error) -> LineFault
    ensures { (kinds : List ErrorKind) → HasKind kinds error.now → spec.IsFaultOf kinds result }
{
    if error.kind() == ErrorKind::OutOfMemory {
        return LineFault::Memory;
    }
    match format!(in alloc; "{error}") {
        Err(_) => LineFault::Memory,
        Ok(text) => {
            if error.kind() == ErrorKind::DisplayHelp || error.kind() == ErrorKind::DisplayVersion {
                LineFault::Help(text)
            } else {
                LineFault::Refused(text)
            }
        }
    }
}

/// Whether a word looks like the name of a file, as the name of no subcommand does.
fn is_file_name(word: &str) -> bool {
    word.contains('.') || word.contains('/')
}

/// The error of a file's name in the place of a subcommand, which names the one that runs a file.
fn script_tip(alloc: Global, kind: ErrorKind, name: &str) -> Result<Error, AllocError>
    ensures { IfOk result (λ e. kind_of e ≡ kind) }
{
    let text = format!(in alloc;
        "unrecognized subcommand '{name}'\n\n  tip: to run a debugger's script, use 'cbpf dbg {name}'"
    )?;
    command(alloc)?.error(kind, &text)
}

/// The error of a parse, with a tip where the name of a file stands in the place of a subcommand.
fn with_tip(alloc: Global, words: &[String], error: Error) -> Result<Error, AllocError>
    ensures { IfOk result (λ e. kind_of e ≡ kind_of error) }
{
    let kind = error.kind();
    match words.get(1) {
        Some(name) if kind == ErrorKind::InvalidSubcommand && is_file_name(name) => {
            script_tip(alloc, kind, name)
        }
        _ => Ok(error),
    }
}

/// What is wrong with words, of which the parse gave an error.
pub(crate) fn parse_fault(alloc: Global, words: &[String], error: Error) -> LineFault
    ensures { (kinds : List ErrorKind) → HasKind kinds error → spec.IsFaultOf kinds result }
{
    match with_tip(alloc, words, error) {
        Ok(error) => line_fault(alloc, &error),
        Err(_) => LineFault::Memory,
    }
}

fn job_asked(alloc: Global, words: &[String]) -> Result<Job, LineFault>
    ensures job { IfOk result (λ j. spec.meaning j ≡ spec.asked_for (map spec.text_of words.now)) }
    ensures taken { IfOk result (λ _. spec.faults_in (map spec.text_of words.now) ≡ []) }
    ensures refused { IfErr result (spec.IsFaultOf (spec.faults_in (map spec.text_of words.now))) }
{
    // A script that is piped to the program comes without words: it need not wait for the parser to be built.
    if words.len() <= 1 {
        return Ok(Job::Dbg {
            input: None,
            output: None,
        });
    }
    let Ok(command) = command(alloc) else {
        return Err(LineFault::Memory);
    };
    let matches = match command.try_get_matches_from(words) {
        Ok(matches) => matches,
        Err(error) => return Err(parse_fault(alloc, words, error)),
    };
    match job_of(alloc, &matches) {
        Ok(job) => Ok(job),
        Err(_) => Err(LineFault::Memory),
    }
}

/// The job that the words of a command line ask for, of which the first is the program's own name.
///
/// # Errors
///
/// `Help` where the words ask for help or the version, with its text; `Refused` where they are no command line of the
/// program's, with what is wrong; `Memory` where the allocator refused.
pub fn command_line(alloc: Global, words: Vec<String>) -> Result<Job, LineFault>
    ensures job { IfOk result (λ j. spec.meaning j ≡ spec.asked_for (map spec.text_of words.items)) }
    ensures taken { IfOk result (λ _. spec.faults_in (map spec.text_of words.items) ≡ []) }
    ensures refused { IfErr result (spec.IsFaultOf (spec.faults_in (map spec.text_of words.items))) }
{
    job_asked(alloc, &words)
}
