//! The instruction at the front of tokens.

ghost use Rattle.std.specs.Prelude.{◌≡◌, false, map};
ghost use Rattle.cbpf_syntax.specs.Steps.{IsFoundInstruction, starts_with_label};
ghost use Rattle.cbpf_syntax.specs.Views.{lexeme_of};

use crate::choice::{best_row, is_whole};
use crate::class::Class;
use crate::lexeme::{Lexeme, Symbol};
use crate::reserved::{fits, is_reserved, mnemonic_named};
use crate::table::Fields;
use cbpf_code::Op;

/// One form of an instruction.
#[derive(Clone, Copy)]
pub struct Row {
    pub mnemonic: &'static [u8],
    /// The classes of the tokens after the mnemonic.
    pub operand: &'static [Class],
    pub op: Op,
    pub fields: Fields,
}

/// Whether a label and a colon stand at the front.
pub(crate) fn starts_with_label(tokens: &[Lexeme<'_>]) -> bool
    ensures { result ≡ starts_with_label (map lexeme_of tokens.now) }
{
    tokens.len() > 1
        && fits(Class::Mark(b':'), tokens[1].symbol)
        && fits(Class::Name, tokens[0].symbol)
}

/// The row of the instruction at the front, or how many tokens fit one.
pub(crate) fn instruction(tokens: &[Lexeme<'_>]) -> Result<Row, usize>
    requires { starts_with_label (map lexeme_of tokens.now) ≡ false }
    ensures { IsFoundInstruction (map lexeme_of tokens.now) result }
{
    let Some(first) = tokens.first() else {
        return Err(0);
    };
    let Symbol::Word(word) = first.symbol else {
        return Err(0);
    };
    let Some(mnemonic) = mnemonic_named(word) else {
        return Err(if is_reserved(word) { 0 } else { 1 });
    };
    let best = best_row(mnemonic, &tokens[1..]);
    if is_whole(&best) {
        Ok(best.row)
    } else {
        Err(1 + best.len)
    }
}
