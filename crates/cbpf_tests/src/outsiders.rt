//! A source of files of an outsider, whose count of failures rises by two.

use cbpf_reply::LoadFault;
use cbpf_tool::{Files, debug};
use std::alloc::Allocator;

/// No file can be read, and each load counts two failures.
#[derive(Drop)]
struct Unreadable {
    failures: u64,
}

impl Files for Unreadable {
    ghost use Rattle.std.specs.Prelude.{false};
    ghost use Rattle.std.specs.FinMap as map;

    ghost source = { λ d. record {
      held = record { by_name = map.empty; counts_exactly = false };
      failures = d.failures;
      is_known = false;
    } };

    fn load<A: Allocator>(&mut self, _alloc: A, _name: &str) -> Result<Vec<u8, A>, LoadFault> {
        self.failures = self.failures.saturating_add(2);
        Err(LoadFault::Device)
    }
}

#[test]
fn a_source_may_count_two_failures_at_once(rt: HostRuntime) {
    let mut reader = b"load pcap a\nload pcap b\n".as_slice();
    let mut replies = Vec::new(rt.alloc());
    let mut files = Unreadable { failures: 0 };
    let done = debug(rt.alloc(), &mut reader, &mut replies, &mut files);
    let wanted = b"error: F2 file could not be read\nerror: F2 file could not be read\n".as_slice();
    assert!(rt; done.is_ok() && replies.as_slice() == wanted && files.failures == 4);
}
