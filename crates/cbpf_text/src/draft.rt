//! The items of a source text, as far as their instructions depend on them.

ghost use Rattle.std.specs.Prelude.{◌≡◌, ◌≤◌, ◌<◌, ◌+◌, ◌++◌, ◌∷◌, [], true, List, length, map, None, IfOk, IfErr};
ghost use Rattle.std.specs.Prelude.{OnOk};
ghost use Rattle.indexmap.specs.IndexMap.{get};
ghost use Rattle.cbpf_syntax.specs.Lexemes as lexemes;
ghost use Rattle.cbpf_syntax.specs.Lexemes.{AreLexemes};
ghost use Rattle.cbpf_syntax.specs.Items as items;
ghost use Rattle.cbpf_syntax.specs.Items.{Items};
ghost use Rattle.cbpf_syntax.specs.Refusals.{IsAccepted, ItemsStuckAt};
ghost use Rattle.cbpf_syntax.specs.Ahead.{HasTaken, StartsWithWord};
ghost use Rattle.cbpf_syntax.specs.Views.{lexeme_of, row_of};
ghost use Rattle.cbpf_text.specs.Drafts.{IsStatement, IsDraft, AreTargets, AreSet, same_name};
ghost use Rattle.cbpf_text.specs.Refusals.{IsPlacedFault};

use crate::fault::{AsmKind, syntax_fault};
use crate::labels::Labels;
use crate::name::{Name, name_of};
use crate::operand::value_at;
use crate::placed::PlacedFault;
use crate::source::lex_fault;
use cbpf_code::{MAX_INSTRUCTIONS, code_of};
use cbpf_syntax::{Class, Fields, Lexeme, Reader, Row, Step};
use std::alloc::{AllocFailed, Allocator};

/// A label in an operand.
#[derive(Clone, Copy)]
pub struct Target<'a> {
    pub name: Name<'a>,
    /// The position of its first byte in the text.
    pub at: usize,
}

/// An instruction whose targets have no offsets yet.
#[derive(Clone, Copy)]
pub struct Statement<'a> {
    pub literal: u32,
    pub code: u16,
    pub fields: Fields,
    /// The number of targets, which is at most 2. `first` and `second` mean nothing beyond it.
    pub targets: u8,
    pub first: Target<'a>,
    pub second: Target<'a>,
}

/// The instructions and labels of a text.
#[derive(Drop)]
pub struct Draft<'a, A: Allocator> {
    pub statements: Vec<Statement<'a>, A>,
    pub labels: Labels<'a, A>,
    /// The position of the mnemonic after `MAX_INSTRUCTIONS` others. From there on nothing is kept.
    pub excess: Option<usize>,
}

/// No target.
const NOWHERE: Target<'static> = Target {
    name: Name { bytes: &[] },
    at: 0,
};

/// Puts a target before those of the statement.
fn put_target<'a>(statement: &mut Statement<'a>, label: &Lexeme<'a>)
    ensures code { statement.new.code ≡ statement.old.code }
    ensures fields { statement.new.fields ≡ statement.old.fields }
    ensures literal { statement.new.literal ≡ statement.old.literal }
    ensures targets { (ls : List lexemes.Lexeme) →
        AreTargets statement.old.targets statement.old.first statement.old.second ls →
        AreTargets statement.new.targets statement.new.first statement.new.second (lexeme_of label.now ∷ ls) }
{
    statement.targets = if statement.targets == 0 { 1 } else { 2 };
    statement.second = statement.first;
    statement.first = Target {
        name: name_of(label.symbol),
        at: label.at,
    };
}

/// The statement of an instruction.
fn make_statement<'a>(row: Row, body: &[Lexeme<'a>]) -> Statement<'a>
    ensures { (labels : List lexemes.Lexeme) →
        IsStatement result (record { labels = labels; row = row_of row; body = map lexeme_of body.now }) }
{
    let operand = row.operand;
    let mut statement = Statement {
        literal: 0,
        code: code_of(row.op),
        fields: row.fields,
        targets: 0,
        first: NOWHERE,
        second: NOWHERE,
    };
    // From the end, as the first literal counts.
    let mut i = operand.len().min(body.len().saturating_sub(1));
    while i > 0 {
        let token = &body[i];
        i -= 1;
        match operand[i] {
            // Most tokens are marks.
            Class::Mark(_) => {}
            Class::Name => put_target(&mut statement, token),
            class => statement.literal = value_at(class, token.symbol).unwrap_or(statement.literal),
        }
    }
    statement
}

/// One more label.
fn add_label<'a, A: Allocator>(
    draft: &mut Draft<'a, A>,
    word: Lexeme<'a>,
) -> Result<(), AllocFailed<(Name<'a>, u32)>>
    requires { length draft.old.statements.items ≤ MAX_INSTRUCTIONS }
    ensures size { length draft.new.statements.items ≤ MAX_INSTRUCTIONS }
    ensures label { OnOk result ((is : List items.Item) (words : List lexemes.Lexeme) →
        IsDraft draft.old.excess draft.old.statements.items draft.old.labels.repeat
        (λ k. get same_name draft.old.labels.table k) is words →
        IsDraft draft.new.excess draft.new.statements.items draft.new.labels.repeat
        (λ k. get same_name draft.new.labels.table k) is (words ++ lexeme_of word.entry ∷ [])) }
{
    if draft.excess.is_some() {
        return Ok(());
    }
    draft.labels.add(word, draft.statements.len() as u32)
}

/// One more instruction.
fn add_instruction<'a, A: Allocator>(
    draft: &mut Draft<'a, A>,
    row: Row,
    body: &[Lexeme<'a>],
) -> Result<(), AllocFailed<Statement<'a>>>
    requires size { length draft.old.statements.items ≤ MAX_INSTRUCTIONS }
    requires some { 0 < length body.now }
    ensures size { length draft.new.statements.items ≤ MAX_INSTRUCTIONS }
    ensures item { OnOk result ((is : List items.Item) (words : List lexemes.Lexeme) →
        IsDraft draft.old.excess draft.old.statements.items draft.old.labels.repeat
        (λ k. get same_name draft.old.labels.table k) is words →
        IsDraft draft.new.excess draft.new.statements.items draft.new.labels.repeat
        (λ k. get same_name draft.new.labels.table k)
        (is ++ record { labels = words; row = row_of row; body = map lexeme_of body.now } ∷ []) []) }
{
    if draft.excess.is_some() {
        return Ok(());
    }
    if draft.statements.len() == MAX_INSTRUCTIONS {
        draft.excess = Some(body[0].at);
        return Ok(());
    }
    draft.statements.push(make_statement(row, body))?;
    Ok(())
}

/// The fault of a text whose tokens go on so far and no farther: its first bad piece, if one comes
/// later, and else the tokens' fault.
fn fault_here<A: Allocator>(reader: &mut Reader<'_, A>, n: usize) -> PlacedFault
    requires within { n ≤ length reader.old.tokens }
    requires end { n ≡ length reader.old.tokens → reader.old.ended ≡ true }
    requires word { 0 < n → StartsWithWord (map lexeme_of reader.old.tokens) }
    ensures { (taken : List lexemes.Lexeme) → HasTaken taken reader.old →
        ((ts : List lexemes.Lexeme) → AreLexemes reader.old.text (taken ++ ts) →
        ItemsStuckAt (taken ++ ts) (length taken + n)) →
        IsPlacedFault reader.old.text result }
{
    let refused = reader.fault(n);
    match reader.finish() {
        Ok(()) => syntax_fault(refused),
        Err(fault) => lex_fault(fault),
    }
}

/// Reads the items of a text to its end, and puts what is kept of them into an empty draft.
// It takes references, so that no exit drops anything: that keeps its proof short.
fn read_items<'a, A: Allocator + Copy>(
    reader: &mut Reader<'a, A>,
    draft: &mut Draft<'a, A>,
) -> Result<(), PlacedFault>
    requires reading { HasTaken [] reader.old }
    requires statements { draft.old.statements.items ≡ [] }
    requires excess { draft.old.excess ≡ None }
    requires labels { AreSet [] draft.old.labels.repeat (λ k. get same_name draft.old.labels.table k) }
    ensures items { OnOk result ((ts : List lexemes.Lexeme) × (is : List items.Item) × AreLexemes reader.old.text ts ×
        Items ts is × IsAccepted ts ×
        IsDraft draft.new.excess draft.new.statements.items draft.new.labels.repeat
        (λ k. get same_name draft.new.labels.table k) is []) }
    ensures size { OnOk result (length draft.new.statements.items ≤ MAX_INSTRUCTIONS) }
    ensures refused { IfErr result (IsPlacedFault reader.old.text) }
{
    let mut waits = false;
    loop {
        let next = match reader.step() {
            Ok(next) => next,
            Err(fault) => return Err(lex_fault(fault)),
        };
        match next {
            Some(Step::Label) => {
                add_label(draft, reader.ahead()[0])?;
                reader.take(2);
                waits = true;
            }
            Some(Step::Instruction(row)) => {
                let n = 1 + row.operand.len();
                add_instruction(draft, row, &reader.ahead()[..n])?;
                reader.take(n);
                waits = false;
            }
            Some(Step::Stuck(n)) => return Err(fault_here(reader, n)),
            None if waits => return Err(fault_here(reader, 0)),
            None => {
                return match reader.large() {
                    Some(at) => Err(PlacedFault::At(AsmKind::LargeNumber, at)),
                    None => Ok(()),
                };
            }
        }
    }
}

/// The items of a text, of which only what their instructions depend on is kept.
pub(crate) fn read<'a, A: Allocator + Copy>(
    alloc: A,
    text: &'a [u8],
) -> Result<Draft<'a, A>, PlacedFault>
    ensures items { IfOk result
        (λ draft. (ts : List lexemes.Lexeme) × (is : List items.Item) × AreLexemes text.now ts ×
        Items ts is × IsAccepted ts ×
        IsDraft draft.excess draft.statements.items draft.labels.repeat
        (λ k. get same_name draft.labels.table k) is []) }
    ensures size { IfOk result (λ draft. length draft.statements.items ≤ MAX_INSTRUCTIONS) }
    ensures refused { IfErr result (IsPlacedFault text.now) }
{
    let mut reader = Reader::new(alloc, text);
    let mut draft = Draft {
        statements: Vec::with_capacity(alloc, MAX_INSTRUCTIONS.min(text.len() / 8))?,
        labels: Labels::new(alloc, text),
        excess: None,
    };
    match read_items(&mut reader, &mut draft) {
        Ok(()) => Ok(draft),
        Err(fault) => Err(fault),
    }
}
