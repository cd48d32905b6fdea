//! The form of an instruction that its tokens go along farthest.

ghost use Rattle.std.specs.Prelude.{◌≡◌, ◌<◌, ◌++◌, ◌∷◌, [], true, false, List, length, map, Contains, IsTrue, ◌↔◌};
ghost use Rattle.std.specs.List.{common_prefix_len};
ghost use Rattle.cbpf_syntax.specs.declared.choice.Match.{Match};
ghost use Rattle.cbpf_syntax.specs.Lexemes as lexemes;
ghost use Rattle.cbpf_syntax.specs.Table as tables;
ghost use Rattle.cbpf_syntax.specs.Table.{entry_rows, rows_of, mnemonics};
ghost use Rattle.cbpf_syntax.specs.Choice.{IsBest, is_comma_at};
ghost use Rattle.cbpf_syntax.specs.Fits.{fits};
ghost use Rattle.cbpf_syntax.specs.Views.{class_of, symbol_of, lexeme_of, row_of, entry_of, mnemonic_view};

use crate::class::Class;
use crate::item::Row;
use crate::lexeme::Lexeme;
use crate::mode::forms;
use crate::reserved::fits;
use crate::table::{Mnemonic, TableEntry};

/// A row, and how many tokens fit its operand.
#[derive(Clone, Copy)]
pub struct Match {
    pub row: Row,
    pub len: usize,
}

/// Whether the tokens fit the whole operand.
#[inline(always)]
pub(crate) fn is_whole(found: &Match) -> bool
    ensures { IsTrue result ↔ (length found.now.row.operand.now ≡ found.now.len) }
{
    found.len == found.row.operand.len()
}

/// How many tokens at the front fit a form.
#[inline(always)]
fn common_len(form: &[Class], tokens: &[Lexeme<'_>]) -> usize
    ensures { result ≡ common_prefix_len (λ c t. fits (class_of c) (symbol_of t.symbol)) form.now tokens.now }
{
    let mut n = 0;
    while n < form.len() && n < tokens.len() && fits(form[n], tokens[n].symbol) {
        n += 1;
    }
    n
}

/// The row, by how many tokens fit its operand.
#[inline(always)]
#[tactic(auto, using(crate::proofs::Elements::common_mapped, crate::proofs::Best::one_row))]
fn match_row(row: Row, tokens: &[Lexeme<'_>]) -> Match
    ensures { IsBest (row_of row ∷ []) (map lexeme_of tokens.now) result }
{
    Match {
        row,
        len: common_len(row.operand, tokens),
    }
}

/// The new one where more tokens fit it, or as many and it is whole.
#[inline(always)]
fn better(best: Match, new: Match) -> Match
    ensures { (rs ss : List tables.Row) (ts : List lexemes.Lexeme) → IsBest rs ts best → IsBest ss ts new →
        IsBest (rs ++ ss) ts result }
{
    if new.len > best.len || (new.len == best.len && is_whole(&new)) {
        new
    } else {
        best
    }
}

/// The row of an addressing mode's form.
#[inline(always)]
fn make_row(mnemonic: &Mnemonic, entry: &TableEntry, form: &'static [Class]) -> Row
    ensures { row_of result ≡ record {
      mnemonic = mnemonic.now.word.now;
      operand = map class_of form.now;
      op = entry.now.op;
      fields = entry.now.fields;
    } }
{
    Row {
        mnemonic: mnemonic.word,
        operand: form,
        op: entry.op,
        fields: entry.fields,
    }
}

/// The best one of a row and the forms of an addressing mode.
#[inline(always)]
fn better_mode(best: Match, mnemonic: &Mnemonic, entry: &TableEntry, tokens: &[Lexeme<'_>]) -> Match
    ensures { (rs : List tables.Row) → IsBest rs (map lexeme_of tokens.now) best →
        IsBest (rs ++ entry_rows mnemonic.now.word.now (entry_of entry.now)) (map lexeme_of tokens.now) result }
{
    let mut best = best;
    for form in forms(entry.mode) {
        best = better(best, match_row(make_row(mnemonic, entry, form), tokens));
    }
    best
}

/// The first form of a mnemonic.
#[inline(always)]
fn first_form(mnemonic: &Mnemonic, entry: &TableEntry, tokens: &[Lexeme<'_>]) -> Match
    ensures { (r : tables.Row) × Contains (entry_rows mnemonic.now.word.now (entry_of entry.now)) r ×
        IsBest (r ∷ []) (map lexeme_of tokens.now) result }
{
    match_row(make_row(mnemonic, entry, forms(entry.mode)[0]), tokens)
}

/// Whether the token at an index is a comma.
#[inline(always)]
#[tactic(auto, using(crate::proofs::Final::comma_at, crate::proofs::Final::none_after))]
fn is_comma_at(tokens: &[Lexeme<'_>], i: usize) -> bool
    ensures { result ≡ is_comma_at (map lexeme_of tokens.now) i }
{
    i < tokens.len() && fits(Class::Mark(b','), tokens[i].symbol)
}

/// Whether no other row of the table has as many tokens that fit: all of this row fits, and a
/// longer one would go on with a comma.
#[inline(always)]
fn is_final(best: &Match, tokens: &[Lexeme<'_>]) -> bool
    ensures whole { result ≡ true → length best.now.row.operand.now ≡ best.now.len }
    ensures end { result ≡ true → is_comma_at (map lexeme_of tokens.now) best.now.len ≡ false }
{
    is_whole(best) && !is_comma_at(tokens, best.len)
}

/// The best form of a mnemonic.
pub(crate) fn best_row(mnemonic: &Mnemonic, tokens: &[Lexeme<'_>]) -> Match
    requires some { 0 < length mnemonic.now.entries.now }
    requires known { Contains mnemonics (mnemonic_view mnemonic.now) }
    ensures { IsBest (rows_of (mnemonic_view mnemonic.now)) (map lexeme_of tokens.now) result }
{
    let entries = mnemonic.entries;
    let mut best = first_form(mnemonic, &entries[0], tokens);
    for entry in entries {
        if is_final(&best, tokens) {
            return best;
        }
        best = better_mode(best, mnemonic, entry, tokens);
    }
    best
}
