//! Laws of the definitions, which hold whatever a program does.

ghost use Rattle.cbpf_why.specs.Laws.{VerdictIsOutcome, TotalsCountOutcomes};
ghost use Rattle.cbpf_why.specs.Laws.{EachAnswered, NeverBoth, OneProgram, OneReason};
ghost use Rattle.cbpf_why.specs.Laws.{BlocksSum, EdgesLead};
ghost use Rattle.cbpf_why.specs.Laws.{EachInOneGroup, GroupsEndAlike, GroupsSumToTotals};

/// The verdict on a packet is the kind of the outcome that a run of the program on the packet has. So the totals of a
/// report count the outcomes of its packets.
pub fn totals_of_outcomes()
    ensures verdict { VerdictIsOutcome }
    ensures totals { TotalsCountOutcomes }
{}

/// The text of a filter is one program, or it is refused for one reason, and never both. Out of memory is no such reason.
pub fn one_filter()
    ensures program { OneProgram }
    ensures reason { OneReason }
    ensures never_both { NeverBoth }
    ensures answered { EachAnswered }
{}

/// Each packet of a checked program is in exactly one group, and the counts of a verdict's groups sum to its total. All
/// packets of a group ended at the same instruction for the same reason, by the same way of the same conditional jump
/// where one decided. So the line of a group, which names its first packet, is true of each. The law leaves out the value
/// that was returned, which may differ by a `ret a`.
pub fn laws_of_groups()
    ensures once { EachInOneGroup }
    ensures sums { GroupsSumToTotals }
    ensures alike { GroupsEndAlike }
{}

/// In the graph of a checked program each block's runs are the sum of the counts of the edges from it and of the packets
/// that ended in it. Each edge leads to a node, which is that of the block that begins there.
pub fn laws_of_graphs()
    ensures sums { BlocksSum }
    ensures leads { EdgesLead }
{}
