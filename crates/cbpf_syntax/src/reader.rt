//! What stands next in a text: labels and instructions, one after another.

ghost use Rattle.std.specs.Prelude.{◌≡◌, ◌≤◌, ◌<◌, ◌+◌, ℕ, List, [], ◌++◌, true, false, length, map, take, Some};
ghost use Rattle.std.specs.Prelude.{None, IfOk, IfErr, IfSome, IfNone, OnOk, OnErr, ◌≢◌};
ghost use Rattle.cbpf_syntax.specs.declared.token.LexFault.TheVariants.{Memory};
ghost use Rattle.cbpf_syntax.specs.declared.token.Token.{Token};
ghost use Rattle.cbpf_syntax.specs.Tokens.{Lexes, LexesTo, IsLexFault};
ghost use Rattle.cbpf_syntax.specs.Lexemes.{AreLexemes, AreLexemesTo};
ghost use Rattle.cbpf_syntax.specs.Lexemes as lexemes;
ghost use Rattle.cbpf_syntax.specs.Refusals.{ParseFault, ItemsStuckAt, IsFirstRefusalAtPosition, reported_at};
ghost use Rattle.cbpf_syntax.specs.Ahead.{HasTaken, IsStepOf, step_len, left, StartsWithWord};
ghost use Rattle.cbpf_syntax.specs.Ahead.{IsFirstLarge, ReadsOn, MayRemain};
ghost use Rattle.cbpf_syntax.specs.Views.{lexeme_of};

use crate::item::{Row, instruction, starts_with_label};
use crate::lexeme::{Lexeme, read_token};
use crate::lexer::Lexer;
use crate::range::large_negative;
use crate::token::LexFault;
use std::alloc::Allocator;
use std::marker::Model;

/// How many tokens are read at a time.
const CHUNK: usize = 128;

/// What stands at the front of tokens.
#[derive(Clone, Copy)]
pub enum Step {
    /// A word that isn't reserved, and a colon.
    Label,
    /// An instruction, without labels.
    Instruction(Row),
    /// So many tokens begin an item, which is an instruction with its labels, but are no item
    /// themselves. There is no next token, or it can't follow them.
    Stuck(usize),
}

/// Why tokens are refused, with the position in the text of the token that shows it, counted from 0.
#[derive(Clone, Copy, Debug, PartialEq, Eq)]
pub enum SyntaxFault {
    /// A4: the tokens before this one begin a list of items, and with it they don't.
    Misplaced(usize),
    /// A3: a number above 2147483648 after a `-`.
    LargeNegative(usize),
    /// A5: the tokens end inside an item. The position is the last one's.
    Unfinished(usize),
}

/// How many tokens a step is.
fn step_len(step: Option<Step>) -> usize
    ensures { result ≡ step_len step }
{
    match step {
        None => 0,
        Some(Step::Label) => 2,
        Some(Step::Instruction(row)) => 1 + row.operand.len(),
        Some(Step::Stuck(n)) => n,
    }
}

/// The step at the front, or `None` where there is no token.
fn step_at(tokens: &[Lexeme<'_>]) -> Option<Step>
    ensures step { IsStepOf (map lexeme_of tokens.now) result }
    ensures within { step_len result ≤ length tokens.now }
    ensures word { 0 < step_len result → StartsWithWord (map lexeme_of tokens.now) }
    ensures none { IfNone result (length tokens.now ≡ 0) }
    ensures some { IfSome result (λ _. 0 < length tokens.now) }
{
    if tokens.is_empty() {
        return None;
    }
    if starts_with_label(tokens) {
        return Some(Step::Label);
    }
    match instruction(tokens) {
        Ok(row) => Some(Step::Instruction(row)),
        Err(n) => Some(Step::Stuck(n)),
    }
}

/// The position of the first number after a `-` that is too large: the known one, or one of the tokens.
fn first_large(known: Option<usize>, tokens: &[Lexeme<'_>]) -> Option<usize>
    ensures known { IfSome known (λ at. result ≡ Some at) }
    ensures new { IfNone known (IsFirstLarge (map lexeme_of tokens.now) result) }
{
    match known {
        Some(at) => Some(at),
        None => match large_negative(tokens) {
            Some(i) => Some(tokens[i].at),
            None => None,
        },
    }
}

/// Reads some more tokens of a text, and says whether it has no more.
fn read_more<'a, A: Allocator>(
    text: &'a [u8],
    lexer: &mut Lexer<'a>,
    ahead: &mut Vec<Lexeme<'a>, A>,
) -> Result<bool, LexFault>
    requires text { lexer.old.text ≡ text.now }
    requires within { lexer.old.at ≤ length text.now }
    ensures same { lexer.new.text ≡ text.now }
    ensures within { lexer.new.at ≤ length text.now }
    ensures read { OnOk result (
        ReadsOn text.now lexer.old.at lexer.new.at (map lexeme_of ahead.old.items) (map lexeme_of ahead.new.items)) }
    ensures left { OnOk result (lexer.old.at + length ahead.new.items ≤ lexer.new.at + length ahead.old.items) }
    ensures more { IfOk result (λ ended. ended ≡ false → lexer.old.at < lexer.new.at) }
    ensures end { IfOk result (λ ended. ended ≡ true → lexer.new.at ≡ length text.now) }
    ensures fault { IfErr result (IsLexFault text.now) }
    ensures still { OnErr result (lexer.new.at ≡ lexer.old.at) }
    ensures kept { take (length ahead.old.items) ahead.new.items ≡ ahead.old.items }
{
    // A copy, written back where it stops.
    let mut here = lexer.copied();
    for i in 0..CHUNK {
        match here.next_token()? {
            None => {
                *lexer = here;
                return Ok(true);
            }
            Some(token) => ahead.push(read_token(text, token))?,
        }
    }
    *lexer = here;
    Ok(false)
}

/// Goes to the end of a text.
fn read_on(lexer: &mut Lexer<'_>) -> Result<(), LexFault>
    requires within { lexer.old.at ≤ length lexer.old.text }
    ensures same { lexer.new.text ≡ lexer.old.text }
    ensures within { lexer.new.at ≤ length lexer.new.text }
    ensures lexed { OnOk result ((tokens : List Token) → LexesTo lexer.old.text lexer.old.at tokens →
        (all : List Token) × Lexes lexer.old.text all) }
    ensures fault { IfErr result (IsLexFault lexer.old.text) }
    ensures no_memory { IfErr result (λ fault. fault ≢ Memory) }
{
    while let Some(_token) = lexer.next_token()? {}
    Ok(())
}

/// The tokens of a text, of which some are read ahead.
#[derive(Drop)]
pub struct Reader<'a, A: Allocator> {
    text: &'a [u8],
    lexer: Lexer<'a>,
    ahead: Vec<Lexeme<'a>, A>,
    /// How many of these were taken.
    at: usize,
    /// Whether the text has no more tokens.
    ended: bool,
    /// The position of the last token that was taken.
    last: usize,
    /// The position of the first number after a `-` that is too large, of the tokens that were taken.
    large: Option<usize>,
}

impl<'a, A: Allocator> Model for Reader<'a, A> {
    ghost use Rattle.std.specs.Prelude.{◌≡◌, ◌≤◌, length, drop, List};
    ghost use Rattle.cbpf_syntax.specs.Lexemes as lexemes;
    ghost use Rattle.cbpf_syntax.specs.Ahead.{Ahead, HasTaken};

    ghost Value = { Ahead };

    ghost view = { λ r. record {
      text = r.text.now;
      to = r.lexer.at;
      tokens = drop r.at r.ahead.items;
      ended = r.ended;
      last = r.last;
      large = r.large;
    } };

    // Some tokens were taken, and these and those ahead are the text's up to where it was read.
    ghost invariant = { λ r. (r.at ≤ length r.ahead.items) × (r.lexer.text ≡ r.text.now) ×
        (r.lexer.at ≤ length r.text.now) × ((taken : List lexemes.Lexeme) × HasTaken taken (record {
          text = r.text.now;
          to = r.lexer.at;
          tokens = drop r.at r.ahead.items;
          ended = r.ended;
          last = r.last;
          large = r.large;
        })) };
}

impl<'a, A: Allocator> Reader<'a, A> {
    /// A text of which no token was taken.
    #[tactic(auto, using(crate::proofs::Taking::ahead_none))]
    pub fn new(alloc: A, text: &'a [u8]) -> Self
        ensures text { result.text ≡ text.now }
        ensures reading { HasTaken [] result }
    {
        Reader {
            text,
            lexer: Lexer::new(text),
            ahead: Vec::new(alloc),
            at: 0,
            ended: false,
            last: 0,
            large: None,
        }
    }

    /// The tokens that were read and not taken.
    pub fn ahead(&self) -> &[Lexeme<'a>]
        ensures { result.now ≡ self.now.tokens }
    {
        &self.ahead[self.at..]
    }

    /// Reads some more tokens.
    fn fill(&mut self) -> Result<(), LexFault>
        ensures text { OnOk result (self.new.text ≡ self.old.text) }
        ensures reading { OnOk result ((taken : List lexemes.Lexeme) →
            HasTaken taken self.old → HasTaken taken self.new) }
        ensures left { OnOk result (left self.new ≤ left self.old) }
        ensures more { OnOk result (self.new.ended ≡ false → self.old.to < self.new.to) }
        ensures farther { OnOk result (self.old.to ≤ self.new.to) }
        ensures within { OnOk result (self.new.to ≤ length self.new.text) }
        ensures end { OnOk result (self.new.ended ≡ true → self.new.to ≡ length self.new.text) }
        ensures fault { IfErr result (IsLexFault self.old.text) }
        ensures same { OnErr result (self.new ≡ self.old) }
    {
        let rest = self.ahead.len() - self.at;
        self.ahead.copy_within(self.at.., 0);
        self.ahead.truncate(rest);
        self.at = 0;
        match read_more(self.text, &mut self.lexer, &mut self.ahead) {
            Ok(ended) => {
                self.ended = ended;
                Ok(())
            }
            Err(fault) => {
                self.ahead.truncate(rest);
                Err(fault)
            }
        }
    }

    /// What stands next, or `None` at the text's end.
    ///
    /// # Errors
    ///
    /// `At`: the first bad piece of the text, and its position. `Memory`: the allocator refused,
    /// whatever the text is. The reader stays where it is, and another call tries again.
    pub fn step(&mut self) -> Result<Option<Step>, LexFault>
        ensures text { OnOk result (self.new.text ≡ self.old.text) }
        ensures reading { OnOk result ((taken : List lexemes.Lexeme) →
            HasTaken taken self.old → HasTaken taken self.new) }
        ensures left { OnOk result (left self.new ≤ left self.old) }
        ensures step { IfOk result (λ step. (ts : List lexemes.Lexeme) → MayRemain self.new ts → IsStepOf ts step) }
        ensures within { IfOk result (λ step. step_len step ≤ length self.new.tokens) }
        ensures none { IfOk result (λ step. IfNone step (length self.new.tokens ≡ 0)) }
        ensures some { IfOk result (λ step. IfSome step (λ _. 0 < length self.new.tokens)) }
        ensures end { IfOk result (λ step. step_len step ≡ length self.new.tokens → self.new.ended ≡ true) }
        ensures word { IfOk result (λ step. 0 < step_len step → StartsWithWord (map lexeme_of self.new.tokens)) }
        ensures fault { IfErr result (IsLexFault self.old.text) }
        ensures same_text { OnErr result (self.new.text ≡ self.old.text) }
        ensures reads_on { OnErr result ((taken : List lexemes.Lexeme) →
            HasTaken taken self.old → HasTaken taken self.new) }
        ensures not_ended { OnErr result (self.new.ended ≡ false) }
    {
        loop {
            let step = step_at(self.ahead());
            if self.ended || step_len(step) < self.ahead().len() {
                return Ok(step);
            }
            self.fill()?;
        }
    }

    /// Goes past tokens. The first is a word, so that no number among them stands after a `-` that
    /// was taken before.
    pub fn take(&mut self, n: usize)
        requires some { 0 < n }
        requires within { n ≤ length self.old.tokens }
        requires word { StartsWithWord (map lexeme_of self.old.tokens) }
        ensures text { self.new.text ≡ self.old.text }
        ensures reading { (taken : List lexemes.Lexeme) → HasTaken taken self.old →
            HasTaken (taken ++ map lexeme_of (take n self.old.tokens)) self.new }
        ensures left { left self.new + n ≡ left self.old }
    {
        let taken = &self.ahead()[..n];
        let large = first_large(self.large, taken);
        self.last = taken[n - 1].at;
        self.large = large;
        self.at += n;
    }

    /// The position of the first number after a `-` that is too large, of the tokens that were taken.
    pub fn large(&self) -> Option<usize>
        ensures { result ≡ self.now.large }
    {
        self.large
    }

    /// The first refusal, where the tokens taken and the first `n` ahead begin items. With the next one they don't, or
    /// there is none and they are no items. Where `n` isn't 0, the first of the `n` tokens is a word, so that no number among
    /// them stands after a `-` that was taken before.
    pub fn fault(&self, n: usize) -> SyntaxFault
        requires within { n ≤ length self.now.tokens }
        requires end { n ≡ length self.now.tokens → self.now.ended ≡ true }
        requires word { 0 < n → StartsWithWord (map lexeme_of self.now.tokens) }
        ensures { (taken ts : List lexemes.Lexeme) → HasTaken taken self.now → MayRemain self.now ts →
            ItemsStuckAt (taken ++ ts) (length taken + n) →
            (refusal : ParseFault) × (at : ℕ) × (result ≡ reported_at refusal at) ×
            IsFirstRefusalAtPosition (taken ++ ts) refusal at }
    {
        let ahead = self.ahead();
        if let Some(at) = first_large(self.large, &ahead[..n]) {
            return SyntaxFault::LargeNegative(at);
        }
        if n < ahead.len() {
            SyntaxFault::Misplaced(ahead[n].at)
        } else if n > 0 {
            SyntaxFault::Unfinished(ahead[n - 1].at)
        } else {
            SyntaxFault::Unfinished(self.last)
        }
    }

    /// Reads the text to its end, from where its tokens were read, and keeps nothing of it.
    pub fn finish(&self) -> Result<(), LexFault>
        ensures lexed { OnOk result ((taken : List lexemes.Lexeme) → HasTaken taken self.now →
            (ts : List lexemes.Lexeme) × MayRemain self.now ts × AreLexemes self.now.text (taken ++ ts)) }
        ensures fault { IfErr result (IsLexFault self.now.text) }
        ensures no_memory { IfErr result (λ fault. fault ≢ Memory) }
    {
        let mut rest = self.lexer.copied();
        read_on(&mut rest)
    }
}
