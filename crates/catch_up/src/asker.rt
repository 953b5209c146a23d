//! What one member asked to be told again.

ghost use Rattle.std.specs.Prelude.{◌≡◌};
ghost use Rattle.catch_up.specs.Asked.{IsTaken, asks, counts, has_place, is_ready, nobody};

use crate::values::{Values, is_among, take_first};
use arrayvec::ArrayVec;
use ballots::Number;
use roll_call::is_second_on;
use std::marker::Model;

/// How many bytes a member is told in a second before it waits for the next.
const MOST_BYTES: u64 = 1_000_000;

/// A member that may ask: the numbers that wait to be told to it, the first asked first, and how much it was told of late.
#[derive(Drop)]
pub(crate) struct RecallAsker {
    waiting: Values,
    /// When the present second began, in milliseconds.
    since: Option<u64>,
    /// How many bytes it was told in that second.
    told: u64,
}

impl Model for RecallAsker {
    ghost use Rattle.std.specs.Prelude.{◌≤◌, length};
    ghost use Rattle.catch_up.specs.Values.{AreNumbers};
    ghost use Rattle.catch_up.specs.Asked.{AskerValue};

    ghost Value = { AskerValue };

    ghost view = { λ s. record { waiting = s.waiting.items; since = s.since; told = s.told } };

    ghost invariant = { λ s. AreNumbers s.waiting.items × (length s.waiting.items ≤ 64) };
}

impl RecallAsker {
    /// It asked for nothing yet, and was told nothing.
    pub(crate) fn new() -> RecallAsker
        ensures { result ≡ nobody }
    {
        RecallAsker {
            waiting: ArrayVec::new(),
            since: None,
            told: 0,
        }
    }

    /// It asks for a number: it waits, unless 64 others wait. Whether it waits.
    pub(crate) fn ask(&mut self, number: Number) -> bool
        ensures found { result ≡ has_place number self.old }
        ensures asks { self.new ≡ asks number self.old }
    {
        if is_among(self.waiting.as_slice(), number.get()) {
            return true;
        }
        if self.waiting.is_full() {
            return false;
        }
        self.waiting.push(number.get());
        true
    }

    /// Whether a number waits that may be told now.
    pub(crate) fn is_ready(&self, now: u64) -> bool
        ensures { result ≡ is_ready now self.now }
    {
        !self.waiting.is_empty() && !(is_second_on(self.since, now) && self.told >= MOST_BYTES)
    }

    /// Takes the number that waits longest.
    pub(crate) fn take(&mut self) -> Option<Number>
        ensures { IsTaken self.old self.new result }
    {
        take_first(&mut self.waiting)
    }

    /// It was told a vote of so many bytes, at a moment in milliseconds.
    pub(crate) fn count(&mut self, bytes: usize, now: u64)
        ensures { self.new ≡ counts bytes now self.old }
    {
        if !is_second_on(self.since, now) {
            self.since = Some(now);
            self.told = 0;
        }
        self.told = self.told.saturating_add(bytes as u64);
    }
}
