//! Laws of the definitions, which hold whatever a program does.

ghost use Rattle.cbpf_syntax.specs.CutLaws.{OneCut, OneList, OneFault, NeverLexedAndBad, EachLexed};

/// A text is cut into pieces in one way.
#[tactic(auto, using(crate::proofs::Outcomes::one_cut))]
pub fn one_cut()
    ensures { OneCut }
{}

/// A text has one list of tokens or one first bad piece, and never both.
pub fn one_outcome()
    ensures list { OneList }
    ensures fault { OneFault }
    ensures never_both { NeverLexedAndBad }
    ensures answered { EachLexed }
{}
