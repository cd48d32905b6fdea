//! Source text to instructions.

ghost use Rattle.std.specs.Prelude.{◌≡◌, ◌≤◌, List, [], None, length, IfOk, IfErr, All};
ghost use Rattle.cbpf_code.specs.declared.checker.TheConstants.{MAX_INSTRUCTIONS};
ghost use Rattle.indexmap.specs.IndexMap.{get};
ghost use Rattle.cbpf_syntax.specs.Items as items;
ghost use Rattle.cbpf_text.specs.Assembled.{Assembles, insns_from};
ghost use Rattle.cbpf_text.specs.Labels.{labels_from};
ghost use Rattle.cbpf_text.specs.Drafts.{IsDraft, same_name};
ghost use Rattle.cbpf_text.specs.Refusals.{AnswersFault, items_fault, IsRefused, IsPlacedFault};
ghost use Rattle.cbpf_syntax.specs.Items.{HasForm};

use crate::draft::{Draft, read};
use crate::encode::encode_all;
use crate::fault::{AsmFault, AsmKind};
use crate::placed::PlacedFault;
use cbpf_code::Insn;
use std::alloc::Allocator;

/// The instructions of the draft of a text.
fn encode_draft<A: Allocator + Copy>(
    alloc: A,
    draft: &Draft<'_, A>,
) -> Result<Vec<Insn, A>, PlacedFault>
    requires { length draft.now.statements.items ≤ MAX_INSTRUCTIONS }
    ensures encoded { (is : List items.Item) →
        IsDraft draft.now.excess draft.now.statements.items draft.now.labels.repeat
        (λ k. get same_name draft.now.labels.table k) is [] →
        All HasForm is →
        IfOk result (λ v. (items_fault is ≡ None) × (v.items ≡ insns_from (labels_from 0 is) 0 is)) }
    ensures refused { (is : List items.Item) →
        IsDraft draft.now.excess draft.now.statements.items draft.now.labels.repeat
        (λ k. get same_name draft.now.labels.table k) is [] →
        All HasForm is → IfErr result (AnswersFault (items_fault is)) }
{
    if let Some(at) = draft.excess {
        return Err(PlacedFault::At(AsmKind::TooMany, at));
    }
    if draft.statements.is_empty() {
        return Err(PlacedFault::At(AsmKind::NoInstruction, 0));
    }
    if let Some(at) = draft.labels.repeat {
        return Err(PlacedFault::At(AsmKind::LabelSetTwice, at));
    }
    encode_all(alloc, &draft.labels.table, &draft.statements)
}

/// The instructions of a source text, as of [`assemble`].
///
/// # Errors
///
/// As of [`assemble`], with the position in place of the line.
pub fn assemble_placed<A: Allocator + Copy>(
    alloc: A,
    text: &[u8],
) -> Result<Vec<Insn, A>, PlacedFault>
    ensures assembled { IfOk result (λ v. Assembles text.now v.items) }
    ensures refused { IfErr result (IsPlacedFault text.now) }
{
    let draft = read(alloc, text)?;
    encode_draft(alloc, &draft)
}

/// The instructions of a source text, in order. They are not checked as a program.
///
/// An instruction is a mnemonic and its operand in one of its addressing modes
/// (Documentation/networking/filter), after any number of labels. A label, a word and a
/// colon, names the instruction after it. A jump's offset is the number of instructions
/// between the jump and its target.
///
/// # Errors
///
/// `At`: what is wrong, and on which line. First come bytes, comments and numbers that are no
/// tokens, over the whole text; then tokens that form no instructions, and numbers too large after a
/// `-`; then the count of instructions; then labels that are set twice; then targets, one by one. Of
/// each of these groups it is the first in the text. `Memory`: the allocator refused, whatever the
/// text is.
pub fn assemble<A: Allocator + Copy>(alloc: A, text: &[u8]) -> Result<Vec<Insn, A>, AsmFault>
    ensures assembled { IfOk result (λ v. Assembles text.now v.items) }
    ensures refused { IfErr result (IsRefused text.now) }
{
    match assemble_placed(alloc, text) {
        Ok(list) => Ok(list),
        Err(fault) => Err(fault.on_line(text)),
    }
}
