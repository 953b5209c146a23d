//! What comes next.

ghost use Rattle.std.specs.Prelude.{◌≡◌, ◌≤◌, length};
ghost use Rattle.healing.specs.Lists.{Rise};

use arrayvec::ArrayVec;
use ballots::Number;
use recalls::MOST_RECALLED;
use std::marker::Model;

/// 1 to 64 numbers that are recalled together, each above the one before it. Clauses see the list.
#[derive(Drop)]
pub struct Batch {
    pub(crate) numbers: ArrayVec<u32, MOST_RECALLED>,
}

impl Model for Batch {
    ghost use Rattle.std.specs.Prelude.{ℕ, List, length, ◌≤◌};
    ghost use Rattle.healing.specs.Lists.{Rise};

    ghost Value = { List ℕ };

    ghost view = { λ b. b.numbers.items };

    ghost invariant = { λ b. (1 ≤ length b.numbers.items) × (length b.numbers.items ≤ 64) × Rise 0 b.numbers.items };
}

impl Batch {
    /// The numbers, rising.
    pub fn numbers(&self) -> &[u32]
        ensures value { result.now ≡ self.now }
        ensures some { 1 ≤ length result.now }
        ensures few { length result.now ≤ 64 }
        ensures rise { Rise 0 result.now }
    {
        self.numbers.as_slice()
    }
}

/// What a plant does next about the numbers that it lacks.
#[derive(Drop)]
pub enum Want {
    /// It asks all members, itself among them, for their votes of these numbers again.
    Recall { numbers: Batch },
    /// It searches this number. Where the station takes no search of it now, `NumberNews::Closed` is told of it, and it waits again.
    Seek { number: Number },
}
