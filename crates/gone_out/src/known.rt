//! The numbers that a station has a saved row of.

ghost use Rattle.std.specs.Prelude.{◌≡◌, ℕ, true, IfOk, ◌||◌, ◌==◌};
ghost use Rattle.gone_out.specs.Numbers.{has, IsEmpty};

use crate::numbers::Numbers;
use ballots::Number;
use std::alloc::{AllocError, Global};

/// The numbers that a station has a saved row of.
#[derive(Drop)]
pub struct Known {
    /// Those that have a row.
    pub rows: Numbers,
    /// Those of them whose row has a vote.
    pub votes: Numbers,
}

impl Known {
    /// None.
    pub fn new(alloc: Global) -> Result<Known, AllocError>
        ensures rows { IfOk result (λ k. IsEmpty k.rows) }
        ensures votes { IfOk result (λ k. IsEmpty k.votes) }
    {
        Ok(Known {
            rows: Numbers::new(alloc)?,
            votes: Numbers::new(alloc)?,
        })
    }

    /// A number has a row, which has a vote or has none.
    pub fn add(&mut self, number: Number, has_vote: bool)
        ensures same { has self.new.rows number ≡ true }
        ensures rows { (n : ℕ) → ¬ (n ≡ number) → has self.new.rows n ≡ has self.old.rows n }
        ensures vote { has self.new.votes number ≡ (has self.old.votes number || has_vote) }
        ensures votes { (n : ℕ) → ¬ (n ≡ number) → has self.new.votes n ≡ has self.old.votes n }
    {
        self.rows.insert(number);
        if has_vote {
            self.votes.insert(number);
        }
    }
}
