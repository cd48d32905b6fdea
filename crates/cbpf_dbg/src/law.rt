//! Laws of the definitions, which hold whatever a program does.

ghost use Rattle.cbpf_dbg.specs.Laws.{EntriesRise, StopsRise, RestRises};

/// The entries of all packets come in order, each once, and so do the stops, and the stops after a place.
pub fn rising_places()
    ensures entries { EntriesRise }
    ensures hits { StopsRise }
    ensures rest { RestRises }
{}
