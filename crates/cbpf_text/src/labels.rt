//! The label table: for each label the index of the instruction that it names.

ghost use Rattle.std.specs.Prelude.{[], ◌∷◌, ◌++◌, ℕ, List, OnOk};
ghost use Rattle.indexmap.specs.IndexMap.{get};
ghost use Rattle.cbpf_syntax.specs.Lexemes as lexemes;
ghost use Rattle.cbpf_syntax.specs.Views.{lexeme_of};
ghost use Rattle.cbpf_text.specs.Drafts.{AreSet, same_name};

use crate::name::{Name, name_of};
use cbpf_syntax::Lexeme;
use indexmap::IndexMap;
use std::alloc::{AllocFailed, Allocator};
use std::hash::{BuildHasher, DefaultHasher, FoldHasher, Hasher};

/// Hashers of a fixed kind, which begin with a digest of the whole source. Which names collide depends on
/// all of its text, so no list of names collides in every source.
#[derive(Clone, Copy)]
pub struct LabelHasher {
    initial: FoldHasher,
}

impl BuildHasher for LabelHasher {
    type Hasher = FoldHasher;

    ghost build_hasher = { λ s. s.initial };

    fn build_hasher(&self) -> FoldHasher {
        self.initial
    }
}

/// The hasher of a source's labels.
fn make_hasher(text: &[u8]) -> LabelHasher {
    let mut digest = DefaultHasher::new();
    digest.write(text);
    let mut initial = FoldHasher::default();
    initial.write_u64(digest.finish());
    LabelHasher { initial }
}

/// For each label's name the index of the item that sets it.
pub type LabelTable<'a, A> = IndexMap<Name<'a>, u32, LabelHasher, A>;

/// The labels that items set.
#[derive(Drop)]
pub struct Labels<'a, A: Allocator> {
    pub table: LabelTable<'a, A>,
    /// The position of the first label that is set a second time. From there on none is kept.
    pub repeat: Option<usize>,
}

impl<'a, A: Allocator> Labels<'a, A> {
    /// No labels, of this source.
    pub(crate) fn new(alloc: A, text: &[u8]) -> Self
    where
        A: Copy,
        ensures { AreSet [] result.repeat (λ k. get same_name result.table k) }
    {
        Labels {
            table: IndexMap::with_hasher(alloc, make_hasher(text)),
            repeat: None,
        }
    }

    /// One more label, which the item at the index sets.
    pub(crate) fn add(
        &mut self,
        label: Lexeme<'a>,
        index: u32,
    ) -> Result<(), AllocFailed<(Name<'a>, u32)>>
        ensures { OnOk result ((ls : List (lexemes.Lexeme × ℕ)) →
            AreSet ls self.old.repeat (λ k. get same_name self.old.table k) →
            AreSet (ls ++ (lexeme_of label.entry, index) ∷ [])
            self.new.repeat (λ k. get same_name self.new.table k)) }
    {
        if self.repeat.is_some() {
            return Ok(());
        }
        if self.table.insert(name_of(label.symbol), index)?.is_some() {
            self.repeat = Some(label.at);
        }
        Ok(())
    }
}
