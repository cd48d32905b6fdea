//! What a session's commands work on.

ghost use Rattle.std.specs.Prelude.{◌≡◌, ◌<◌, ◌^◌, [], length, true};
ghost use Rattle.cbpf_code.specs.Sound.{IsSound};
ghost use Rattle.cbpf_machine.specs.Machine.{machine_of};
ghost use Rattle.cbpf_dbg.specs.Session.{NeedsNoValue, Watches};

use cbpf_code::Program;
use cbpf_machine::{Values, Watched};
use cbpf_reply::When;
use indexmap::IndexMap;
use pcap_classic::Capture;
use std::alloc::Allocator;
use std::hash::{BuildHasherDefault, FoldHasher};

/// Instruction numbers with their conditions, in order of setting.
pub(crate) type Breakpoints<A> = IndexMap<u32, When, BuildHasherDefault<FoldHasher>, A>;

/// A program and a capture, with the values for extensions and the breakpoints.
#[derive(Drop)]
pub(crate) struct Loaded<'a, A: Allocator> {
    pub(crate) program: &'a Program<A>,
    pub(crate) values: &'a Values,
    pub(crate) capture: &'a Capture<A>,
    pub(crate) breakpoints: &'a Breakpoints<A>,
    /// The entries that are hits.
    pub(crate) watched: &'a Watched<A>,
    /// Whether no instruction asks for an extension that has no value.
    pub(crate) needs_no_value: bool,
    ghost sound: { IsSound program.now },
    ghost few: { length capture.now.records < 2 ^ 60 },
    ghost watches: { Watches watched.now (machine_of program.now values.now) breakpoints.now.entries },
    ghost needs: { needs_no_value ≡ true → NeedsNoValue (machine_of program.now values.now) },
}

impl<A: Allocator> Loaded<'_, A> {
    /// Whether it is known that no entry can be a hit.
    pub(crate) fn cannot_stop(&self) -> bool
        ensures { result ≡ true → (self.now.breakpoints.now.entries ≡ [])
            × NeedsNoValue (machine_of self.now.program.now self.now.values.now) }
    {
        self.needs_no_value && self.breakpoints.is_empty()
    }
}
