//! The names of labels.

ghost use Rattle.std.specs.Prelude.{◌≡◌};
ghost use Rattle.cbpf_syntax.specs.Views.{symbol_of};
ghost use Rattle.cbpf_text.specs.Labels.{word_bytes};

use cbpf_syntax::Symbol;
use std::hash::{Hash, Hasher};

/// A label's name, which is hashed as a whole and not byte by byte.
#[derive(Clone, Copy, PartialEq, Eq)]
pub struct Name<'a> {
    pub bytes: &'a [u8],
}

impl<'a> Hash for Name<'a> {
    ghost use Rattle.std.specs.Prelude.{[], ◌∷◌};
    ghost use Rattle.std.proofs.Common.{ap};
    ghost use Rattle.std.proofs.lemmas.Slice.Eq.{bytes_eq-Decides};

    ghost hash_input = { λ n. n.bytes.now ∷ [] };

    ghost respects_eq = { λ x y e. ap (λ w. w ∷ []) ((bytes_eq-Decides x.bytes.now y.bytes.now).0 e) };

    fn hash<H: Hasher>(&self, state: &mut H) {
        state.write(self.bytes);
    }
}

/// The bytes of a word, none of another token.
pub(crate) fn name_of<'a>(symbol: Symbol<'a>) -> Name<'a>
    ensures { result.bytes.now ≡ word_bytes (symbol_of symbol.entry) }
{
    match symbol {
        Symbol::Word(bytes) => Name { bytes },
        _ => Name { bytes: &[] },
    }
}
