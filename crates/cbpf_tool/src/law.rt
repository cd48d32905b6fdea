//! Laws of the definitions, which hold whatever a program does.

ghost use Rattle.cbpf_tool.specs.Laws.{OneOwnOutput, HasOwnOutput, OwnIsOutput, NoOther};
ghost use Rattle.cbpf_tool.specs.Totals.{RunsCountEntries, SameTotals};

/// A script has exactly one output where no growth is refused and no file fails, whatever it says and
/// whatever the files hold; it is one of its outputs, by which no failure is counted. An output in
/// which neither `error: out of memory` nor F2 stands is that one.
pub fn one_output()
    ensures output { OneOwnOutput }
    ensures some_output { HasOwnOutput }
    ensures is_output { OwnIsOutput }
    ensures no_other { NoOther }
{}

/// The totals that `cbpf why` reports of all packets of a capture are the counts that `run` answers in the debugger, for
/// the same program, capture and values, where it goes from the first packet to the last. How often it reports that an
/// instruction ran is how many entries of the debugger's traces stand at that instruction.
pub fn same_totals()
    ensures totals { SameTotals }
    ensures runs { RunsCountEntries }
{}
