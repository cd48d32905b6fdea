//! Laws of the definitions, which hold whatever a program does.

ghost use Rattle.std.specs.Prelude.{◌≡◌};
ghost use Rattle.cbpf_code.specs.Laws.{EachTextIsRead, EachListIsChecked};
ghost use Rattle.cbpf_code.specs.declared.checker.TheConstants.{MAX_INSTRUCTIONS, SLOTS};
ghost use Rattle.cbpf_code.specs.declared.extension.TheConstants.{FIRST_EXTENSION};
ghost use Rattle.cbpf_code.specs.declared.writing.TheConstants.{LINE_SIZE};

/// Each word text spells a list of instructions, or is refused for another reason than out of memory.
/// Each list of instructions has no fault, or has a first one. The limits are the kernel's, but that of a line.
pub fn each_has_answer()
    ensures text { EachTextIsRead }
    ensures list { EachListIsChecked }
    ensures limits { (MAX_INSTRUCTIONS ≡ 4096) × (SLOTS ≡ 16) × (FIRST_EXTENSION ≡ 4294963200)
        × (LINE_SIZE ≡ 256) }
{}
