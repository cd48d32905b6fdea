//! The count of calls by which a faulty one is found.

/// Counts calls, and knows which of them is to go wrong.
#[derive(Clone, Copy)]
pub(crate) struct CallCounter {
    pub(crate) made: u64,
    /// Counted from 1; 0 for none.
    pub(crate) faulty: u64,
}

impl CallCounter {
    pub(crate) fn new(faulty: u64) -> CallCounter {
        CallCounter { made: 0, faulty }
    }

    /// Counts a call, and says whether it is the one to go wrong.
    pub(crate) fn next_is_faulty(&mut self) -> bool {
        let is_faulty = self.faulty.checked_sub(1) == Some(self.made);
        self.made = self.made.saturating_add(1);
        is_faulty
    }

    /// How many calls are still to come up to the faulty one, which is counted; 0 once it was made.
    pub(crate) fn left(self) -> u64 {
        self.faulty.saturating_sub(self.made)
    }
}
