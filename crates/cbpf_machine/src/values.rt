//! Values for extensions.

ghost use Rattle.std.specs.Prelude.{◌≡◌, ◌≢◌, ◌<◌, Some, None, true, false};
ghost use Rattle.cbpf_code.specs.declared.extension.Ext.{Ext as AnExt};
ghost use Rattle.cbpf_machine.specs.Values as spec;

use cbpf_code::{Ext, ext_offset};
use std::marker::Model;

/// One for each offset below 64 that 4 divides.
const VALUE_COUNT: usize = 16;

/// Values for extensions: a load of an extension that has one loads it into A, and the packet goes on.
#[derive(Clone, Copy, Debug, PartialEq, Eq)]
pub struct Values {
    values: [Option<u32>; VALUE_COUNT],
}

impl Model for Values {
    ghost use Rattle.cbpf_machine.specs.Values.{Values};

    ghost Value = { Values };

    ghost view = { λ v. v.values };

    ghost inverse = { λ list. record { values = list } };
}

/// Where the value of an extension is kept.
#[inline(always)]
fn value_index(e: Ext) -> usize
    ensures value { result ≡ spec.value_index e }
    ensures within { result < VALUE_COUNT }
{
    ext_offset(e) as usize / 4
}

/// Whether the extension takes a value.
fn takes_value(e: Ext) -> bool
    ensures { result ≡ spec.takes_value e }
{
    !matches!(e, Ext::Nla | Ext::NlaN | Ext::PayOff | Ext::Rand)
}

impl Values {
    /// No extension has a value.
    pub fn new() -> Values
        ensures value { result ≡ spec.no_values }
        ensures none { (e : AnExt) → spec.value_of result e ≡ None }
    {
        Values {
            values: [None; VALUE_COUNT],
        }
    }

    /// The value of an extension, where it has one.
    #[inline(always)]
    pub fn value_of(&self, e: Ext) -> Option<u32>
        ensures { result ≡ spec.value_of self.now e }
    {
        self.values[value_index(e)]
    }

    /// Gives an extension a value. `Nla`, `NlaN` and `PayOff` are found by a search in the packet, and
    /// `Rand` is random: these take none, so the answer is false, and nothing changes.
    pub fn set(&mut self, e: Ext, n: u32) -> bool
        ensures answer { result ≡ spec.takes_value e }
        ensures value { self.new ≡ spec.with_value self.old e n }

        // So it is a table by extension: the one extension has the value, and the others have theirs.
        ensures here { result ≡ true → spec.value_of self.new e ≡ Some n }
        ensures others { (d : AnExt) → d ≢ e → spec.value_of self.new d ≡ spec.value_of self.old d }
        ensures refused { result ≡ false → self.new ≡ self.old }
    {
        if !takes_value(e) {
            return false;
        }
        self.values[value_index(e)] = Some(n);
        true
    }
}
