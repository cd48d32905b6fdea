//! Assertions of tables and loops, whose failures show where they failed.

use std::fmt::Debug;
use std::process::Abort;

/// The runtime of a test, which can end it, and gives memory.
pub trait Test: Abort + AllocGlobal {}

impl<R: Abort + AllocGlobal> Test for R {}

/// Of a row, a record or a place.
pub fn assert_at(rt: &impl Abort, at: usize, holds: bool) {
    assert!(rt; holds, "at {at}");
}

/// Of a row by its first two numbers.
pub fn assert_at_both(rt: &impl Abort, a: u32, b: u32, holds: bool) {
    assert!(rt; holds, "at {a} and {b}");
}

/// Names what was to hold, and the place, such as a row and a growth.
pub fn assert_named<P: Debug + Drop>(rt: &impl Abort, holds: bool, what: &str, place: P) {
    assert!(rt; holds, "{what} at {place:?}");
}
