//! How many names among the offers are passed over that are not UTF-8.

ghost use Rattle.std.specs.Prelude.{◌≡◌};
ghost use Rattle.plant_log.specs.Skipping.{is_skipping_told, skipped_after};

use crate::standing::HOUR;
use folders::has_passed;

/// How many names were passed over at the last look, and when that was told last, in milliseconds.
#[derive(Clone, Copy)]
pub(crate) struct Skipped {
    names: usize,
    at: u64,
}

impl Skipped {
    /// None were, yet.
    pub(crate) fn new() -> Skipped
        ensures { result ≡ record { names = 0; at = 0 } }
    {
        Skipped { names: 0, at: 0 }
    }

    /// Whether it is told at a moment that so many are passed over: there are more than before, or there are some and an hour has passed.
    fn is_told_now(self, names: usize, now: u64) -> bool
        ensures { result ≡ is_skipping_told self names now }
    {
        names > self.names || (names > 0 && has_passed(self.at, HOUR, now))
    }

    /// The same; so many are from now on.
    pub(crate) fn is_told(&mut self, names: usize, now: u64) -> bool
        ensures told { result ≡ is_skipping_told self.old names now }
        ensures after { self.new ≡ skipped_after self.old names now }
    {
        let is_told = self.is_told_now(names, now);
        self.names = names;
        if is_told {
            self.at = now;
        }
        is_told
    }
}
