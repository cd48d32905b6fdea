//! An assertion of a table, whose failure shows the row.

use std::process::Abort;

/// The runtime of a test, which can end it, and gives memory.
pub trait Test: Abort + AllocGlobal {}

impl<R: Abort + AllocGlobal> Test for R {}

pub fn assert_at(rt: &impl Abort, row: usize, holds: bool) {
    assert_of(rt, "row", row, holds);
}

/// Of a number that isn't a row's, or a row of one of several tables.
pub fn assert_of(rt: &impl Abort, what: &str, n: usize, holds: bool) {
    assert!(rt; holds, "{what} {n}");
}
