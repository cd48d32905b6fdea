//! The instructions of items.

ghost use Rattle.std.specs.Prelude.{◌≡◌, ◌≤◌, ℕ, true, List, length, Some, None, IfOk, IfErr, All};
ghost use Rattle.cbpf_code.specs.declared.checker.TheConstants.{MAX_INSTRUCTIONS};
ghost use Rattle.indexmap.specs.IndexMap.{get};
ghost use Rattle.cbpf_syntax.specs.Items as items;
ghost use Rattle.cbpf_syntax.specs.Lexemes as lexemes;
ghost use Rattle.cbpf_text.specs.declared.encode.TheConstants.{FARTHEST};
ghost use Rattle.cbpf_text.specs.Assembled.{offset_of, insn_of, insns_from};
ghost use Rattle.cbpf_text.specs.Refusals.{AnswersFault, use_fault, uses_fault, uses_of, uses_from};
ghost use Rattle.cbpf_text.specs.Drafts.{same_name, Resolves, IsStatement, AreStatements, KeepsLabel, IsAnswer};
ghost use Rattle.cbpf_syntax.specs.Items.{HasForm};

use crate::draft::{Statement, Target};
use crate::fault::AsmKind;
use crate::labels::LabelTable;
use crate::placed::PlacedFault;
use cbpf_code::Insn;
use cbpf_syntax::Fields;
use std::alloc::Allocator;

/// The most instructions that a conditional jump goes over.
const FARTHEST: u32 = 255;

/// What is wrong with a target, and the position of its label in the text.
type TargetFault = (AsmKind, usize);

/// The number of instructions between the one at the index and the target, or why the target is refused. A
/// conditional jump is short.
fn offset<A: Allocator>(
    labels: &LabelTable<'_, A>,
    index: u32,
    short: bool,
    target: &Target<'_>,
) -> Result<u32, TargetFault>
    ensures answer { (ls : List (lexemes.Lexeme × ℕ)) → Resolves ls (λ k. get same_name labels.now k) →
        (label : lexemes.Lexeme) → KeepsLabel target.now label →
        IsAnswer (use_fault ls (record { index = index; target = label; conditional = short }))
        (offset_of ls index (Some label)) result }
    ensures near { IfOk result (λ n. short ≡ true → n ≤ FARTHEST) }
{
    let Some(item) = labels.get(&target.name) else {
        return Err((AsmKind::LabelNotSet, target.at));
    };
    if *item <= index {
        return Err((AsmKind::NotAfter, target.at));
    }
    let between = *item - index - 1;
    if short && between > FARTHEST {
        return Err((AsmKind::TooFar, target.at));
    }
    Ok(between)
}

/// The instruction of a statement at the index, or its first target that is refused.
fn encode<A: Allocator>(
    labels: &LabelTable<'_, A>,
    index: u32,
    statement: &Statement<'_>,
) -> Result<Insn, TargetFault>
    ensures { (ls : List (lexemes.Lexeme × ℕ)) (item : items.Item) → IsStatement statement.now item → HasForm item →
        Resolves ls (λ k. get same_name labels.now k) →
        IsAnswer (uses_fault ls (uses_of index item)) (insn_of ls index item) result }
{
    let code = statement.code;
    let k = statement.literal;
    let first = &statement.first;
    match statement.fields {
        Fields::Constant => Ok(Insn {
            code,
            jt: 0,
            jf: 0,
            k,
        }),
        Fields::Goto => Ok(Insn {
            code,
            jt: 0,
            jf: 0,
            k: offset(labels, index, false, first)?,
        }),
        Fields::Branch => Ok(Insn {
            code,
            jt: offset(labels, index, true, first)? as u8,
            jf: if statement.targets == 2 {
                offset(labels, index, true, &statement.second)? as u8
            } else {
                0
            },
            k,
        }),
        Fields::Swapped => Ok(Insn {
            code,
            jt: 0,
            jf: offset(labels, index, true, first)? as u8,
            k,
        }),
    }
}

/// The instructions of all statements of a text, or the first target that is refused.
pub(crate) fn encode_all<A: Allocator + Copy>(
    alloc: A,
    labels: &LabelTable<'_, A>,
    statements: &[Statement<'_>],
) -> Result<Vec<Insn, A>, PlacedFault>
    requires { length statements.now ≤ MAX_INSTRUCTIONS }
    ensures encoded { (ls : List (lexemes.Lexeme × ℕ)) (is : List items.Item) → AreStatements statements.now is →
        All HasForm is → Resolves ls (λ k. get same_name labels.now k) →
        IfOk result (λ v. (uses_fault ls (uses_from 0 is) ≡ None) × (v.items ≡ insns_from ls 0 is)) }
    ensures refused { (ls : List (lexemes.Lexeme × ℕ)) (is : List items.Item) → AreStatements statements.now is →
        All HasForm is → Resolves ls (λ k. get same_name labels.now k) →
        IfErr result (AnswersFault (uses_fault ls (uses_from 0 is))) }
{
    let mut insns = Vec::with_capacity(alloc, statements.len())?;
    for i in 0..statements.len() {
        match encode(labels, i as u32, &statements[i]) {
            Ok(insn) => insns.push(insn)?,
            Err((kind, at)) => return Err(PlacedFault::At(kind, at)),
        }
    }
    Ok(insns)
}
