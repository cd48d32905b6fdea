//! The count of turns.

ghost use Rattle.std.specs.Prelude.{◌≡◌, ◌+◌, ◌<◌, ◌^◌};

use std::marker::Model;

/// How many turns were made.
///
/// A meter is neither `Copy` nor `Clone`, and only the turns that this crate makes raise it, each by 1.
#[derive(Debug, Drop)]
pub struct Meter {
    turns: u128,
}

impl Model for Meter {
    ghost use Rattle.std.specs.Prelude.{ℕ};

    ghost Value = { ℕ };

    ghost view = { λ m. m.turns };
}

impl Meter {
    /// A meter that has counted no turn.
    pub fn new() -> Meter
        ensures { result ≡ 0 }
    {
        Meter { turns: 0 }
    }

    /// How many turns it has counted.
    pub fn spent(&self) -> u128
        ensures { result ≡ self.now }
    {
        self.turns
    }

    #[inline(always)]
    pub(crate) fn tick(&mut self)
        requires { self.old + 1 < 2 ^ 128 }
        ensures { self.new ≡ self.old + 1 }
    {
        self.turns += 1;
    }

    /// Counts turns that were made one after the other.
    #[inline(always)]
    pub(crate) fn add(&mut self, turns: u32)
        requires { self.old + turns < 2 ^ 128 }
        ensures { self.new ≡ self.old + turns }
    {
        self.turns += u128::from(turns);
    }
}
