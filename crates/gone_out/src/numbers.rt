//! A set of circuit numbers, one bit for each: 125,000 bytes, however many are in it.

ghost use Rattle.std.specs.Prelude.{◌≡◌, ℕ, true, not, IfOk, ◌==◌};
ghost use Rattle.gone_out.specs.Numbers.{has, how_many, IsEmpty};

use crate::bits::{has_bit, set_bit};
use ballots::Number;
use std::alloc::{AllocError, Global};
use std::marker::Model;

/// How many words of 64 bits have room for 0 to 999,999.
const WORDS: usize = 15_625;

/// A set of circuit numbers. It takes 125,000 bytes at once, and no more later. Clauses see a flag for each number.
#[derive(Drop)]
pub struct Numbers {
    words: Vec<u64>,
    count: u32,
}

impl Model for Numbers {
    ghost use Rattle.std.specs.Prelude.{◌≡◌, Bool, List, length};
    ghost use Rattle.gone_out.specs.Numbers.{flags_of, how_many};

    ghost Value = { List Bool };

    ghost view = { λ s. flags_of s.words.items };

    ghost invariant = { λ s. (length s.words.items ≡ 15625) × (s.count ≡ how_many (flags_of s.words.items)) };
}

impl Numbers {
    /// None.
    pub fn new(alloc: Global) -> Result<Numbers, AllocError>
        ensures { IfOk result IsEmpty }
    {
        let words = vec![in alloc; 0u64; WORDS]?;
        Ok(Numbers { words, count: 0 })
    }

    /// Adds a number; whether it was new.
    pub fn insert(&mut self, number: Number) -> bool
        ensures new { result ≡ not (has self.old number) }
        ensures same { has self.new number ≡ true }
        ensures others { (n : ℕ) → ¬ (n ≡ number) → has self.new n ≡ has self.old n }
    {
        let is_new = set_bit(&mut self.words, number.get() as usize);
        if is_new {
            self.count += 1;
        }
        is_new
    }

    /// Whether a number is among them.
    pub fn contains(&self, number: Number) -> bool
        ensures { result ≡ has self.now number }
    {
        has_bit(self.words.as_slice(), number.get() as usize)
    }

    /// How many they are.
    pub fn len(&self) -> u32
        ensures { result ≡ how_many self.now }
    {
        self.count
    }

    /// Whether there are none.
    pub fn is_empty(&self) -> bool
        ensures { result ≡ (how_many self.now == 0) }
    {
        self.count == 0
    }
}
