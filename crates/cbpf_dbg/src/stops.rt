//! The list of stops.

ghost use Rattle.std.specs.Prelude.{◌≡◌, ◌+◌, length};
ghost use Rattle.std.specs.Iterator.{YieldsFirst, item_count};
ghost use Rattle.cbpf_dbg.specs.Joined.{stops_after};
ghost use Rattle.cbpf_dbg.specs.Loaded.{machine_in, records_in, breakpoints_in};
ghost use Rattle.cbpf_dbg.specs.Going.{CanGoOn};
ghost use Rattle.cbpf_dbg.specs.declared.cursor.Walk.{Walk};

use crate::cursor::{Walk, stop_at};
use crate::loaded::Loaded;
use crate::run::{NoTrail, go_on_in_packet, run_records};
use cbpf_machine::Meter;
use cbpf_reply::{Stop, Why};
use std::alloc::{Allocator, Global};
use std::marker::Model;

/// The stops after a session's place, in order. Contracts see it as the list of those that are left.
///
/// It takes no memory, and leaves the session as it is.
#[derive(Drop)]
pub struct Stops<'a, A: Allocator = Global> {
    pub(crate) loaded: Loaded<'a, A>,
    /// To the capture's end.
    pub(crate) walk: Walk<'a>,
    pub(crate) meter: Meter,
}

impl<'a, A: Allocator> Model for Stops<'a, A> {
    ghost use Rattle.std.specs.Prelude.{List, ◌≡◌, ◌+◌, length};
    ghost use Rattle.cbpf_reply.specs.declared.reply.Stop.{Stop};
    ghost use Rattle.cbpf_dbg.specs.Joined.{stops_after};
    ghost use Rattle.cbpf_dbg.specs.Loaded.{machine_in, records_in, breakpoints_in};
    ghost use Rattle.cbpf_dbg.specs.Going.{CanGoOn};

    ghost Value = { List Stop };

    ghost view = { λ s. stops_after (machine_in s.loaded) (records_in s.loaded) (breakpoints_in s.loaded)
        s.walk.cursor.place };

    ghost invariant = { λ s. CanGoOn s.loaded s.walk s.meter
        × (s.walk.end ≡ length (records_in s.loaded) + 1) };
}

/// Goes on to the next hit, or to the end.
fn next_stop<A: Allocator>(
    meter: &mut Meter,
    loaded: &Loaded<'_, A>,
    walk: &mut Walk<'_>,
) -> Option<Stop>
    requires can { CanGoOn loaded.now walk.old meter.old }
    requires all { walk.old.end ≡ length (records_in loaded.now) + 1 }
    ensures can { CanGoOn loaded.now walk.new meter.new }
    ensures all { walk.new.end ≡ walk.old.end }
    ensures next { YieldsFirst
        (λ (v : Walk). stops_after (machine_in loaded.now) (records_in loaded.now) (breakpoints_in loaded.now) v.cursor.place)
        walk.old result walk.new }
{
    if !go_on_in_packet(meter, loaded, loaded.watched, walk, &mut NoTrail) {
        if !run_records(meter, loaded, loaded.watched, walk, &mut NoTrail) {
            return None;
        }
    }
    Some(stop_at(loaded.program, loaded.values, &walk.cursor, Why::Break))
}

impl<'a, A: Allocator> Iterator for Stops<'a, A> {
    type Item = Stop;

    ghost next_gives = { YieldsFirst (λ left. left) };

    ghost remaining = { item_count (λ left. left) };

    fn next(&mut self) -> Option<Stop> {
        next_stop(&mut self.meter, &self.loaded, &mut self.walk)
    }
}
