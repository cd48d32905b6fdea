//! Laws of the definitions, which hold whatever a program does.

ghost use Rattle.std.specs.Prelude.{◌≡◌};
ghost use Rattle.pcap_classic.specs.Savefile.{OneCapture, OneRefusal, OnlyMemory, HasAnswer};
ghost use Rattle.pcap_classic.specs.declared.{captured.TheConstants.RECORD_HEADER, header.TheConstants.FILE_HEADER};

/// A file holds at most one capture, and has at most one fault. One that holds a capture has no fault but `Memory`. Each
/// file holds a capture, or has a fault. The headers are as long as pcap-savefile(5) says.
pub fn one_capture()
    ensures capture { OneCapture }
    ensures refusal { OneRefusal }
    ensures memory { OnlyMemory }
    ensures answer { HasAnswer }
    ensures headers { (FILE_HEADER ≡ 24) × (RECORD_HEADER ≡ 16) }
{}
