//! Files in memory.

ghost use Rattle.std.specs.Prelude.{◌≡◌, ◌≤◌, ◌⊎◌, ◌↔◌, ◌-◌, Some, None, OnOk, OnErr, IfErr, MatchResult, Err};
ghost use Rattle.std.specs.FinMap as finmap;
ghost use Rattle.cbpf_tool.specs.InMemory.{source_of};
ghost use Rattle.cbpf_tool.specs.Loads.{Loads, counted};
ghost use Rattle.cbpf_reply.specs.declared.errors.LoadFault.TheVariants as fault;

use crate::files::Files;
use cbpf_reply::LoadFault;
use std::alloc::{Allocator, Global};
use std::collections::VecDeque;
use std::marker::Model;

/// Files in memory, of which one load may be chosen to fail.
#[derive(Drop)]
pub struct MemoryFiles<A: Allocator = Global> {
    /// What was put, the newest first.
    log: VecDeque<(Vec<u8, A>, Vec<u8, A>), A>,
    failures: u64,
    /// The number of the load that is to fail, counted from 1 from now on; 0 for none.
    failing: u64,
}

impl<A: Allocator> Model for MemoryFiles<A> {
    ghost use Rattle.std.specs.Prelude.{map};
    ghost use Rattle.cbpf_tool.specs.FileMap.{files_of};
    ghost use Rattle.cbpf_tool.specs.InMemory.{InMemory, in_memory_code};

    ghost Value = { InMemory };

    ghost coded = { in_memory_code };

    ghost view = { λ m. record { files = files_of (map (λ e. (e.0.items, e.1.items)) m.log.items); failures = m.failures; failing = m.failing } };
}

impl<A: Allocator + Clone> MemoryFiles<A> {
    /// No files, no failures so far, and no load that is to fail.
    pub fn new(alloc: A) -> MemoryFiles<A>
        ensures { result ≡ record { files = finmap.empty; failures = 0; failing = 0 } }
    {
        MemoryFiles {
            log: VecDeque::new(alloc),
            failures: 0,
            failing: 0,
        }
    }

    /// Chooses the `n`-th load from now on, counted from 1: it answers `Device` and counts one failure,
    /// and no other load does. It replaces the choice of an earlier call.
    pub fn fail_at(&mut self, n: u64)
        requires { 1 ≤ n }
        ensures { self.new ≡ record self.old { failing = n } }
    {
        self.failing = n;
    }

    /// Gives the name these bytes, whatever it had before.
    ///
    /// # Errors
    ///
    /// The bytes, where it is out of memory; the files are then as before.
    pub fn put(&mut self, name: &str, bytes: Vec<u8, A>) -> Result<(), Vec<u8, A>>
        ensures ok { OnOk result (self.new ≡ record self.old { files = finmap.insert self.old.files name.now bytes.items }) }
        ensures err { OnErr result (self.new ≡ self.old) }
        ensures back { IfErr result (λ v. v ≡ bytes) }
    {
        let Ok(alloc) = self.log.allocator().clone() else {
            return Err(bytes);
        };
        let Ok(name) = Vec::from_slice(alloc, name.as_bytes()) else {
            return Err(bytes);
        };
        match self.log.push_front((name, bytes)) {
            Ok(()) => Ok(()),
            Err(failed) => Err(failed.value.1),
        }
    }

    /// A copy of the bytes of this name.
    fn copied<B: Allocator>(&self, alloc: B, name: &str) -> Result<Vec<u8, B>, LoadFault>
        ensures gives { MatchResult result (λ v. finmap.get self.now.files name.now ≡ Some v.items)
            (λ e. e ≡ fault.Absent → finmap.get self.now.files name.now ≡ None) }
        ensures reads { IfErr result (λ e. (e ≡ fault.Absent) ⊎ (e ≡ fault.Memory)) }
    {
        for entry in &self.log {
            if name.as_bytes() == entry.0.as_slice() {
                return match Vec::from_slice(alloc, entry.1.as_slice()) {
                    Ok(bytes) => Ok(bytes),
                    Err(_) => Err(LoadFault::Memory),
                };
            }
        }
        Err(LoadFault::Absent)
    }
}

impl<A: Allocator + Clone> Files for MemoryFiles<A> {
    ghost source = { λ m. source_of m };

    /// Answers `Device` at the load that `fail_at` chose and at no other, and counts that one failure.
    fn load<B: Allocator>(&mut self, alloc: B, name: &str) -> Result<Vec<u8, B>, LoadFault>
        ensures loads { Loads (λ v. v.items) (source_of self.old) (source_of self.new) name.now result }
        ensures same { self.new ≡ record self.old { failures = counted result self.old.failures; failing = self.old.failing - 1 } }
        ensures reads { (result ≡ Err fault.Device) ↔ (self.old.failing ≡ 1) }
    {
        let is_chosen = self.failing == 1;
        self.failing = self.failing.saturating_sub(1);
        if is_chosen {
            self.failures = self.failures.saturating_add(1);
            return Err(LoadFault::Device);
        }
        self.copied(alloc, name)
    }
}
