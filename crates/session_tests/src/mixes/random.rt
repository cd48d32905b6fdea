//! Numbers from a fixed generator, so that each run of the tests makes the same calls.

/// A linear congruential generator by Knuth's constants for 64 bits.
#[derive(Drop)]
pub struct Random {
    state: u64,
}

impl Random {
    pub fn new(seed: u64) -> Random {
        Random { state: seed }
    }

    /// A number below `end`, or 0 where `end` is 0.
    pub fn below(&mut self, end: u64) -> u64 {
        self.state = self
            .state
            .wrapping_mul(6364136223846793005)
            .wrapping_add(1442695040888963407);
        let n = self.state >> 32;
        if end == 0 { 0 } else { n % end }
    }

    /// One of a list, which is `None` only where the list has none.
    pub fn one_of<T: Copy>(&mut self, list: &[T]) -> Option<T> {
        let at = self.below(list.len() as u64);
        list.get(at as usize).copied()
    }
}
