//! Commands, and how lines spell them.

ghost use Rattle.std.specs.Prelude.{◌≡◌, [], ◌∷◌};
ghost use Rattle.cbpf_tool.specs.Commands as spec;
ghost use Rattle.cbpf_tool.specs.LineWords.{words_of, after_words, trimmed};

use crate::arguments::{Arguments, arguments_in};
use crate::command::Command::Session;
use crate::lent::{FileName, Text};
use crate::line_words::{next_word, trimmed};
use crate::number::{number_32, number_up_to, signed_number};
use cbpf_code::{Ext, ext_named};
use cbpf_command_line::each_command;
use cbpf_dbg::{Place, When};
use cbpf_reply::CommandFault;
use std::str::from_utf8;

/// A command of the debugger.
#[derive(Drop)]
pub enum Command<'a> {
    /// `load bpf <word text>`: the word text is the rest of the line, without the blanks around it.
    LoadWords(Text<'a>),
    /// `load pcap <name>`: the name is the rest of the line, without the blanks around it.
    LoadCapture(FileName<'a>),
    /// A command that the session answers.
    Session(SessionCommand),
    /// `quit`
    Quit,
}

/// A command whose reply the session's view gives.
#[derive(Clone, Copy)]
pub enum SessionCommand {
    /// `run [n]`: up to a hit, or until n packets are finished. An n of 0 is no wrong argument.
    Run(Option<u64>),
    /// `disassemble`
    Disassemble,
    /// `dump`
    Dump,
    /// `breakpoint n [a|x v]`: at instruction n, from 0, and where the register is v.
    Breakpoint(u64, When),
    /// `breakpoint`: the list of breakpoints.
    Breakpoints,
    /// `breakpoint reset`
    ResetBreakpoints,
    /// `delete n`: the breakpoint at instruction n.
    Delete(u64),
    /// `step [n | +n | -n]`: on by n instructions, or back where n is below 0; one without a number.
    /// The least number of the type never stands here.
    Step(i64),
    /// `select n`: before packet n, from 1.
    Select(u64),
    /// `mark`: the place.
    Mark,
    /// `resume p s`: to a place that `mark` printed.
    Resume(Place),
    /// `stops`: the hits ahead.
    Stops,
    /// `value e n`: the value n for an extension.
    Value(Ext, u32),
}

/// A command that has no arguments, if there are none.
fn alone<'a>(text: &[u8], command: Command<'a>) -> Option<Command<'a>>
    ensures { result ≡ spec.alone command.entry (words_of text.now) }
{
    match arguments_in(text) {
        Arguments::Zero => Some(command),
        _ => None,
    }
}

/// The one argument, a number.
fn sole_number(text: &[u8]) -> Option<u64>
    ensures { result ≡ spec.sole_number (words_of text.now) }
{
    match arguments_in(text) {
        Arguments::One(word) => number_up_to(word, u64::MAX),
        _ => None,
    }
}

fn run_by(text: &[u8]) -> Option<Command<'_>>
    ensures { result ≡ spec.run_by (words_of text.now) }
{
    match arguments_in(text) {
        Arguments::Zero => Some(Session(SessionCommand::Run(None))),
        Arguments::One(word) => Some(Session(SessionCommand::Run(Some(number_up_to(
            word,
            u64::MAX,
        )?)))),
        _ => None,
    }
}

/// `reset`, or the instruction of a breakpoint.
fn reset_or_breakpoint(word: &[u8]) -> Option<Command<'_>>
    ensures { result ≡ spec.breakpoint_by (word.now ∷ []) }
{
    match word {
        b"reset" => Some(Session(SessionCommand::ResetBreakpoints)),
        _ => Some(Session(SessionCommand::Breakpoint(number_up_to(word, u64::MAX)?, When::Always))),
    }
}

fn breakpoint_by(text: &[u8]) -> Option<Command<'_>>
    ensures { result ≡ spec.breakpoint_by (words_of text.now) }
{
    match arguments_in(text) {
        Arguments::Zero => Some(Session(SessionCommand::Breakpoints)),
        Arguments::One(word) => reset_or_breakpoint(word),
        Arguments::Three(n, register, v) => Some(Session(SessionCommand::Breakpoint(
            number_up_to(n, u64::MAX)?,
            condition(register, number_32(v)?)?,
        ))),
        _ => None,
    }
}

/// That the register of this name is `v`.
fn condition(register: &[u8], v: u32) -> Option<When>
    ensures { result ≡ spec.condition register.now v }
{
    match register {
        b"a" => Some(When::A(v)),
        b"x" => Some(When::X(v)),
        _ => None,
    }
}

fn delete_by(text: &[u8]) -> Option<Command<'_>>
    ensures { result ≡ spec.delete_by (words_of text.now) }
{
    Some(Session(SessionCommand::Delete(sole_number(text)?)))
}

fn step_by(text: &[u8]) -> Option<Command<'_>>
    ensures { result ≡ spec.step_by (words_of text.now) }
{
    match arguments_in(text) {
        Arguments::Zero => Some(Session(SessionCommand::Step(1))),
        Arguments::One(word) => Some(Session(SessionCommand::Step(signed_number(word)?))),
        _ => None,
    }
}

fn select_by(text: &[u8]) -> Option<Command<'_>>
    ensures { result ≡ spec.select_by (words_of text.now) }
{
    Some(Session(SessionCommand::Select(sole_number(text)?)))
}

fn resume_by(text: &[u8]) -> Option<Command<'_>>
    ensures { result ≡ spec.resume_by (words_of text.now) }
{
    match arguments_in(text) {
        Arguments::Two(packet, step) => Some(Session(SessionCommand::Resume(Place {
            packet: number_up_to(packet, u64::MAX)?,
            step: number_32(step)?,
        }))),
        _ => None,
    }
}

fn value_by(text: &[u8]) -> Option<Command<'_>>
    ensures { result ≡ spec.value_by (words_of text.now) }
{
    match arguments_in(text) {
        Arguments::Two(name, n) => Some(Session(SessionCommand::Value(
            ext_named(name)?,
            number_32(n)?,
        ))),
        _ => None,
    }
}

fn load_words_by(text: &[u8]) -> Option<Command<'_>>
    ensures { result ≡ spec.load_words_by text.now }
{
    if text.is_empty() {
        return None;
    }
    Some(Command::LoadWords(Text::of(text)))
}

fn load_capture_by(text: &[u8]) -> Option<Command<'_>>
    ensures { result ≡ spec.load_capture_by text.now }
{
    if text.is_empty() {
        return None;
    }
    match from_utf8(text) {
        Ok(name) => Some(Command::LoadCapture(FileName::of(name))),
        Err(_) => None,
    }
}

fn load_by(text: &[u8]) -> Option<Command<'_>>
    ensures { result ≡ spec.load_by (words_of text.now) (trimmed (after_words 1 text.now)) }
{
    let (kind, rest) = next_word(text)?;
    match kind {
        b"bpf" => load_words_by(trimmed(rest)),
        b"pcap" => load_capture_by(trimmed(rest)),
        _ => None,
    }
}

/// What the rest of a line spells, or that it is wrong.
fn or_wrong(command: Option<Command<'_>>) -> Result<Option<Command<'_>>, CommandFault>
    ensures { result ≡ spec.or_wrong command.entry }
{
    match command {
        Some(command) => Ok(Some(command)),
        None => Err(CommandFault::WrongArguments),
    }
}

macro_rules! read_by_name {
    ($name:ident, $text:ident; $($word:literal => $read:ident($($command:expr)?), $help:literal;)*) => {
        match $name {
            $($word => or_wrong($read($text $(, $command)?)),)*
            _ => Err(CommandFault::UnknownCommand),
        }
    };
}

/// The command of this name with what stands after it. Each command's name is ASCII, so a word that isn't UTF-8 is none.
#[tactic(auto, using(crate::proofs::CommandLemmas::unknown))]
fn command_by<'a>(name: &[u8], text: &'a [u8]) -> Result<Option<Command<'a>>, CommandFault>
    ensures { result ≡ spec.by_name name.now (words_of text.now) (trimmed (after_words 1 text.now)) }
{
    match from_utf8(name) {
        Ok(name) => command_named(name, text),
        Err(_) => Err(CommandFault::UnknownCommand),
    }
}

/// The command of a name that is UTF-8. It is compared as `str`: bytes are compared one by one, in many more steps of the proof.
fn command_named<'a>(name: &str, text: &'a [u8]) -> Result<Option<Command<'a>>, CommandFault>
    ensures { result ≡ spec.by_name name.now (words_of text.now) (trimmed (after_words 1 text.now)) }
{
    each_command!(read_by_name name, text)
}

/// The command that a line spells; `None` for a line without words. Words are separated by blanks,
/// which are spaces, tabs, carriage returns and newlines.
pub fn command_of(line: &[u8]) -> Result<Option<Command<'_>>, CommandFault>
    ensures { result ≡ spec.command_of line.now }
{
    let Some((name, rest)) = next_word(line) else {
        return Ok(None);
    };
    command_by(name, rest)
}
