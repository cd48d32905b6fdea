//! The literals of instructions.

ghost use Rattle.std.specs.Prelude.{◌≡◌};
ghost use Rattle.cbpf_syntax.specs.Views.{class_of, symbol_of};
ghost use Rattle.cbpf_text.specs.Operands.{value_at};

use cbpf_code::{FIRST_EXTENSION, ext_named, ext_offset};
use cbpf_syntax::{Class, Symbol};

/// The value of a token at its class, where it has one.
pub(crate) fn value_at(class: Class, symbol: Symbol<'_>) -> Option<u32>
    ensures { result ≡ value_at (class_of class) (symbol_of symbol.entry) }
{
    match (class, symbol) {
        (Class::Literal, Symbol::Number(n)) => Some(n),
        (Class::Negated, Symbol::Number(n)) => Some(n.wrapping_neg()),
        (Class::Extension, Symbol::Word(name)) => Some(
            FIRST_EXTENSION + ext_offset(ext_named(name)?),
        ),
        _ => None,
    }
}
