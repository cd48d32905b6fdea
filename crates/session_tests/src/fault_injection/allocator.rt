//! An allocator that refuses one allocation.

use crate::fault_injection::calls::CallCounter;
use std::alloc::{AllocError, Allocator};
use std::cell::Cell;

/// The allocations so far, and the bytes of them all and of what was given back.
#[derive(Clone, Copy)]
struct Ledger {
    calls: CallCounter,
    asked: u64,
    given_back: u64,
}

/// An allocator over another one that refuses one chosen allocation, passes every other call on, and counts
/// the bytes asked for and the bytes given back.
///
/// A test that a function can run out of memory runs it over `&FaultyAllocator` with the first
/// allocation refused, then the second, and so on, until a run meets no refusal: each place that
/// allocates has then been refused once. A `&FaultyAllocator` is an allocator, `Copy` and `Clone`, so
/// it goes into calls that make several collections, and [`left`](FaultyAllocator::left) says
/// afterwards whether the refusal was met. A growth of a collection is one allocation: it asks for the whole
/// new room, and then gives the old one back. A refused allocation counts as asked for too.
#[derive(Drop)]
pub struct FaultyAllocator<B: Allocator> {
    inner: B,
    ledger: Cell<Ledger>,
}

impl<B: Allocator> FaultyAllocator<B> {
    /// Refuses the allocation with the number `nth`, counted from 1 from now on, and no other; 0 for
    /// none. Counts bytes from 0.
    pub fn new(inner: B, nth: u64) -> FaultyAllocator<B> {
        let calls = CallCounter::new(nth);
        let ledger = Ledger {
            calls,
            asked: 0,
            given_back: 0,
        };
        FaultyAllocator {
            inner,
            ledger: Cell::new(ledger),
        }
    }

    /// How many allocations are still to come up to the refused one, which is counted; 0 once it was
    /// refused, and where none is to be.
    pub fn left(&self) -> u64 {
        self.ledger.get().calls.left()
    }

    /// The bytes asked for so far.
    pub fn asked(&self) -> u64 {
        self.ledger.get().asked
    }

    /// The bytes asked for that were not given back.
    pub fn held(&self) -> u64 {
        let ledger = self.ledger.get();
        ledger.asked.wrapping_sub(ledger.given_back)
    }
}

/// Counts an allocation, and says whether it is the one to refuse.
fn is_refused(ledger: &Cell<Ledger>, size: usize) -> bool {
    let mut entry = ledger.get();
    entry.asked = entry.asked.wrapping_add(size as u64);
    let is_refused = entry.calls.next_is_faulty();
    ledger.set(entry);
    is_refused
}

fn give_back(ledger: &Cell<Ledger>, size: usize) {
    let mut entry = ledger.get();
    entry.given_back = entry.given_back.wrapping_add(size as u64);
    ledger.set(entry);
}

unsafe impl<B: Allocator> Allocator for FaultyAllocator<B> {
    ghost dealloc_token = { λ heap ty ptr. B.dealloc_token heap.inner ty ptr };

    fn allocate(&self, size: usize, align: usize) -> Result<*mut u8, AllocError> {
        if is_refused(&self.ledger, size) {
            return Err(AllocError);
        }
        self.inner.allocate(size, align)
    }

    unsafe fn deallocate(&self, ptr: *mut u8, size: usize, align: usize) {
        give_back(&self.ledger, size);
        self.inner.deallocate(ptr, size, align);
    }
}
