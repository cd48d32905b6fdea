//! Reserved words, and which tokens belong to which class.

ghost use Rattle.std.specs.Prelude.{◌≡◌, true, false, IfSome, IfNone, Contains, bytes_eq};
ghost use Rattle.cbpf_syntax.specs.Table.{mnemonics, operand_words};
ghost use Rattle.cbpf_syntax.specs.Fits.{fits, is_one_of, is_reserved, extension_names, mnemonic_words};
ghost use Rattle.cbpf_syntax.specs.Views.{class_of, symbol_of, mnemonic_view};

use crate::class::Class;
use crate::lexeme::Symbol;
use crate::mode::OPERAND_WORDS;
use crate::table::{Mnemonic, mnemonics_from};
use cbpf_code::ext_named;

/// The mnemonic of this word.
#[inline(always)]
#[tactic(auto, using(crate::proofs::Mnemonics::no_word))]
pub(crate) fn mnemonic_named(word: &[u8]) -> Option<&'static Mnemonic>
    ensures found { IfSome result (λ m. Contains mnemonics (mnemonic_view m.now)) }
    ensures word { IfSome result (λ m. bytes_eq word.now m.now.word.now ≡ true) }
    ensures none { IfNone result (is_one_of mnemonic_words word.now ≡ false) }
{
    if word.is_empty() {
        return None;
    }
    for mnemonic in mnemonics_from(word[0]) {
        if word == mnemonic.word {
            return Some(mnemonic);
        }
    }
    None
}

#[tactic(auto, using(crate::proofs::Mnemonics::mnemonic_test))]
fn is_mnemonic(word: &[u8]) -> bool
    ensures { result ≡ is_one_of mnemonic_words word.now }
{
    mnemonic_named(word).is_some()
}

#[tactic(auto, using(crate::proofs::Mnemonics::extension_test))]
fn is_extension(word: &[u8]) -> bool
    ensures { result ≡ is_one_of extension_names word.now }
{
    ext_named(word).is_some()
}

fn is_operand_word(word: &[u8]) -> bool
    ensures { result ≡ is_one_of operand_words word.now }
{
    OPERAND_WORDS.iter().any(|v| word == *v)
}

/// Whether a word ends with a digit, as no reserved word does.
#[tactic(auto, using(crate::proofs::Mnemonics::digit_free))]
fn ends_with_digit(word: &[u8]) -> bool
    ensures { result ≡ true → is_reserved word.now ≡ false }
{
    if word.is_empty() {
        return false;
    }
    word[word.len() - 1] <= b'9'
}

/// Whether a word stands in one of the lists of reserved words.
fn is_listed(word: &[u8]) -> bool
    ensures { result ≡ is_reserved word.now }
{
    is_mnemonic(word) || is_extension(word) || is_operand_word(word)
}

/// Whether a word is a mnemonic, an extension's name or one of `OPERAND_WORDS`, and so no label.
// Labels often end with a number, and then there is no need to look them up.
#[inline(always)]
pub(crate) fn is_reserved(word: &[u8]) -> bool
    ensures { result ≡ is_reserved word.now }
{
    !ends_with_digit(word) && is_listed(word)
}

/// Whether the symbol is of the class.
#[inline(always)]
pub(crate) fn fits(class: Class, symbol: Symbol<'_>) -> bool
    ensures { result ≡ fits (class_of class) (symbol_of symbol.entry) }
{
    match (class, symbol) {
        (Class::Word(v), Symbol::Word(w)) => w == v,
        (Class::Mark(a), Symbol::Mark(b)) => b == a,
        (Class::Literal, Symbol::Number(_)) => true,
        (Class::Negated, Symbol::Number(_)) => true,
        (Class::Exactly(m), Symbol::Number(n)) => n == m,
        (Class::Extension, Symbol::Word(w)) => is_extension(w),
        (Class::Name, Symbol::Word(w)) => !is_reserved(w),
        _ => false,
    }
}
