//! Laws of the definitions, which hold whatever a program does.

ghost use Rattle.std.specs.Prelude.{◌≡◌};
ghost use Rattle.cbpf_text.specs.Laws.{OneAssembly, OnePlace, OneTextRefusal, NeverBoth, EachAnswered};
ghost use Rattle.cbpf_text.specs.Laws.{ListingAssembles, ListingAnswers};
ghost use Rattle.cbpf_text.specs.declared.encode.TheConstants.{FARTHEST};

/// A text assembles to one list of instructions, or it is refused for one reason at one position,
/// and never both. Out of memory is no such reason. A conditional jump goes over 255 instructions at most.
pub fn one_assembly()
    ensures list { OneAssembly }
    ensures place { OnePlace }
    ensures refusal { OneTextRefusal }
    ensures never_both { NeverBoth }
    ensures answered { EachAnswered }
    ensures farthest { FARTHEST ≡ 255 }
{}

/// The listing of a checked program assembles to its instructions, each with the fields that
/// its operation doesn't use set to 0. What [`assemble`](crate::assemble) answers to it is this
/// list, or `Memory`.
pub fn listing_assembles()
    ensures list { ListingAssembles }
    ensures answer { ListingAnswers }
{}
