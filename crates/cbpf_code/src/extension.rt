//! The extensions: their names, and the offsets of loads that stand for them.

ghost use Rattle.std.specs.Prelude.{◌≡◌, ◌+◌, ℕ, Some};
ghost use Rattle.cbpf_code.specs.Extension as spec;
ghost use Rattle.cbpf_code.specs.declared.extension.TheConstants.{FIRST_EXTENSION};

/// An extension of Linux: what an absolute load from an offset that no packet has asks for instead
/// (Documentation/networking/filter, "BPF engine and instruction set", the table of extensions).
#[derive(Clone, Copy, Debug, PartialEq, Eq)]
pub enum Ext {
    Proto,
    PktType,
    IfIdx,
    Nla,
    NlaN,
    Mark,
    Queue,
    HaType,
    RxHash,
    Cpu,
    VlanTci,
    VlanAvail,
    PayOff,
    Rand,
    VlanTpid,
}

/// The number of the first extension; SKF_AD_OFF as an unsigned number.
pub const FIRST_EXTENSION: u32 = 0xfffff000;

/// The table of the 15 extensions: number, extension and name, handed row by row to one of the four
/// macros below.
macro_rules! extensions {
    ($reading:ident, $value:expr) => {
        $reading! {
            $value;
            0xfffff000 => Ext::Proto, "proto";
            0xfffff004 => Ext::PktType, "type";
            0xfffff008 => Ext::IfIdx, "ifidx";
            0xfffff00c => Ext::Nla, "nla";
            0xfffff010 => Ext::NlaN, "nlan";
            0xfffff014 => Ext::Mark, "mark";
            0xfffff018 => Ext::Queue, "queue";
            0xfffff01c => Ext::HaType, "hatype";
            0xfffff020 => Ext::RxHash, "rxhash";
            0xfffff024 => Ext::Cpu, "cpu";
            0xfffff02c => Ext::VlanTci, "vlan_tci";
            0xfffff030 => Ext::VlanAvail, "vlan_avail";
            0xfffff034 => Ext::PayOff, "poff";
            0xfffff038 => Ext::Rand, "rand";
            0xfffff03c => Ext::VlanTpid, "vlan_tpid";
        }
    };
}

macro_rules! ext_of_number {
    ($value:expr; $($number:literal => $ext:expr, $name:literal;)*) => {
        Some(match $value {
            $($number => $ext,)*
            _ => return None,
        })
    };
}

macro_rules! offset_of_ext {
    ($value:expr; $($number:literal => $ext:pat, $name:literal;)*) => {
        match $value {
            $($ext => $number - FIRST_EXTENSION,)*
        }
    };
}

macro_rules! name_of_ext {
    ($value:expr; $($number:literal => $ext:pat, $name:literal;)*) => {
        match $value {
            $($ext => $name,)*
        }
    };
}

macro_rules! each_ext {
    ($value:expr; $($number:literal => $ext:expr, $name:literal;)*) => {
        [$($ext,)*]
    };
}

/// All extensions, in the order of their numbers.
static EXTENSIONS: [Ext; 15] = extensions!(each_ext, ());

/// The extension that an absolute load from offset `k` asks for; `None` where no extension has this number.
#[inline(always)]
#[tactic(auto, unfolding(crate::specs::Extension::ext_at))]
pub fn ext_at(k: u32) -> Option<Ext>
    ensures { result ≡ spec.ext_at k }
{
    extensions!(ext_of_number, k)
}

/// How far the extension's number is above that of the first one; 0 to 60.
#[tactic(auto, using(crate::proofs::TableLemmas::tables), unfolding(crate::specs::Extension::ext_at))]
pub fn ext_offset(e: Ext) -> u32
    ensures value { result ≡ spec.ext_offset e }
    ensures known { spec.ext_at (FIRST_EXTENSION + result) ≡ Some e }
    ensures only { (k : ℕ) → spec.ext_at k ≡ Some e → k ≡ FIRST_EXTENSION + result }
{
    extensions!(offset_of_ext, e)
}

/// The name of the extension in assembler text.
#[tactic(auto, unfolding(crate::specs::Extension::ext_named))]
pub fn ext_name(e: Ext) -> &'static str
    ensures value { result.now ≡ spec.ext_name e }
    ensures known { spec.ext_named result.now ≡ Some e }
{
    extensions!(name_of_ext, e)
}

/// The extension of this name; `None` where no extension has it.
pub fn ext_named(name: &[u8]) -> Option<Ext>
    ensures { result ≡ spec.ext_named name.now }
{
    for e in &EXTENSIONS {
        if name == ext_name(*e).as_bytes() {
            return Some(*e);
        }
    }
    None
}
