//! Laws of the definitions, which hold whatever a program does.

ghost use Rattle.cbpf_syntax.specs.Laws.{OneItemList, OneFirstRefusal, EachParsed};

/// A token list is at most one list of items.
#[tactic(auto, using(crate::proofs::Apart::one_item_list))]
pub fn one_item_list()
    ensures { OneItemList }
{}

/// A token list has one first refusal, or it is items and has none.
pub fn one_refusal()
    ensures fault { OneFirstRefusal }
    ensures answered { EachParsed }
{}
