//! The watches of a run: the entries that are hits.

ghost use Rattle.std.specs.Prelude.{◌≡◌, ◌<◌, ◌≤◌, ◌⊎◌, ℕ, List, None, OnErr, OnOk, length, nat_eq, true};
ghost use Rattle.indexmap.specs.IndexMap.{spare};
ghost use Rattle.std.specs.Map.{lookup};
ghost use Rattle.cbpf_machine.specs.Follow.{HasRoom, IsSameAt, is_met, room_in};
ghost use Rattle.cbpf_machine.specs.Machine.{machine_of};
ghost use Rattle.cbpf_machine.specs.Registers.{Registers};
ghost use Rattle.cbpf_machine.specs.Turn.{turn};
ghost use Rattle.cbpf_dbg.specs.Breakpoints.{Breakpoints as SomeBreakpoints};
ghost use Rattle.cbpf_dbg.specs.Joined.{is_hit_by};
ghost use Rattle.cbpf_dbg.specs.Session.{NeedsNoValue, IsSameBut, KeepsRoom, Watches};

use crate::loaded::Breakpoints;
use cbpf_code::Program;
use cbpf_machine::{Values, Watched, When, missing_extension};
use std::alloc::{AllocError, Allocator};

/// Whether no instruction asks for an extension that has no value.
pub(crate) fn needs_no_value<A: Allocator>(p: &Program<A>, values: &Values) -> bool
    ensures { result ≡ true → NeedsNoValue (machine_of p.now values.now) }
{
    'scan: for i in 0..p.len() {
        if missing_extension(p.at_index(i), values).is_some() {
            return false;
        }
    }
    true
}

/// Which entries at this instruction are hits, if any.
fn watch_of<A: Allocator>(
    p: &Program<A>,
    values: &Values,
    breakpoints: &Breakpoints<A>,
    i: u32,
) -> Option<When>
    requires { i < length p.now }
    ensures holds { (bytes : List ℕ) (wire : ℕ) (s : Registers) → s.pc ≡ i
        → is_met result s ≡ is_hit_by breakpoints.now.entries s (turn (machine_of p.now values.now) bytes wire s) }
    ensures room { (room : ℕ) → KeepsRoom breakpoints.now.entries room → HasRoom result i room }
{
    if missing_extension(p.at_index(i), values).is_some() {
        return Some(When::Always);
    }
    breakpoints.get(&i).copied()
}

/// Makes room for a breakpoint and its condition. One that is set already has it.
pub(crate) fn make_room<A: Allocator>(
    watched: &mut Watched<A>,
    p: &Program<A>,
    breakpoints: &mut Breakpoints<A>,
    i: u32,
) -> Result<(), AllocError>
    requires inside { i < length p.now }
    requires room { KeepsRoom breakpoints.old.entries (room_in watched.old) }
    ensures same { (j : ℕ) → IsSameAt j watched.old watched.new }
    ensures entries { breakpoints.new.entries ≡ breakpoints.old.entries }
    ensures more { room_in watched.old ≤ room_in watched.new }
    ensures here { OnOk result (i < room_in watched.new) }
    ensures table { OnOk result ((lookup (nat_eq i) breakpoints.old.entries ≡ None) → 0 < spare breakpoints.new) }
    ensures refused { OnErr result ((lookup (nat_eq i) breakpoints.old.entries ≡ None)
        × ((room_in watched.old < length p.now) ⊎ (spare breakpoints.old ≡ 0))) }
{
    if breakpoints.contains_key(&i) {
        return Ok(());
    }
    watched.make_room(p.len() as usize)?;
    breakpoints.reserve(1)
}

/// Watches the entries that are hits.
pub(crate) fn watch<A: Allocator>(
    watched: &mut Watched<A>,
    p: &Program<A>,
    values: &Values,
    breakpoints: &Breakpoints<A>,
)
    requires { KeepsRoom breakpoints.now.entries (room_in watched.old) }
    ensures watches { Watches watched.new (machine_of p.now values.now) breakpoints.now.entries }
    ensures room { room_in watched.new ≡ room_in watched.old }
{
    'scan: for i in 0..p.len() {
        watched.set(
            i as usize,
            p.at_index(i),
            watch_of(p, values, breakpoints, i),
        );
    }
}

/// The same, where the breakpoints changed at one instruction.
pub(crate) fn watch_at<A: Allocator>(
    watched: &mut Watched<A>,
    p: &Program<A>,
    values: &Values,
    breakpoints: &Breakpoints<A>,
    i: u32,
)
    requires inside { i < length p.now }
    requires room { KeepsRoom breakpoints.now.entries (room_in watched.old) }
    ensures watches { (before : SomeBreakpoints) → Watches watched.old (machine_of p.now values.now) before
        → IsSameBut i before breakpoints.now.entries
        → Watches watched.new (machine_of p.now values.now) breakpoints.now.entries }
    ensures room { room_in watched.new ≡ room_in watched.old }
{
    let _few = p.len();
    watched.set(
        i as usize,
        p.at_index(i),
        watch_of(p, values, breakpoints, i),
    );
}
