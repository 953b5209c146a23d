//! What one member asks, and how often it was answered of late.

ghost use Rattle.std.specs.Prelude.{◌≡◌, true};
ghost use Rattle.roll_call.specs.Answers.{IsTaken, answered, asks, has_place, is_ready, nobody};

use crate::ask::Ask;
use crate::second::is_second_on;
use arrayvec::ArrayVec;
use rolls::Page;
use std::marker::Model;

/// How many asks of one member wait.
const MOST_WAITING: usize = 4;

/// How often a member is answered in a second before it waits for the next.
const MOST_ANSWERS: u8 = 8;

/// A member that may ask: what waits to be answered, the first asked first, and how often it was answered of late.
#[derive(Drop)]
pub(crate) struct Asker {
    waiting: ArrayVec<Ask, MOST_WAITING>,
    /// When the present second began, in milliseconds.
    since: Option<u64>,
    /// How often it was answered in that second.
    told: u8,
}

impl Model for Asker {
    ghost use Rattle.std.specs.Prelude.{◌≤◌, length};
    ghost use Rattle.roll_call.specs.Answers.{AskerValue};

    ghost Value = { AskerValue };

    ghost view = { λ s. record { waiting = s.waiting.items; since = s.since; told = s.told } };

    ghost invariant = { λ s. (length s.waiting.items ≤ 4) × (s.told ≤ 8) };
}

impl Asker {
    /// It asked for nothing yet, and was told nothing.
    pub(crate) fn new() -> Asker
        ensures { result ≡ nobody }
    {
        Asker {
            waiting: ArrayVec::new(),
            since: None,
            told: 0,
        }
    }

    /// It asks: the ask waits, unless four others wait. Whether it waits.
    pub(crate) fn ask(&mut self, asked: u32, page: Option<Page>) -> bool
        ensures found { result ≡ has_place self.old }
        ensures asks { self.new ≡ asks (record { asked = asked; page = page }) self.old }
    {
        if self.waiting.is_full() {
            return false;
        }
        self.waiting.push(Ask { asked, page });
        true
    }

    /// Whether an ask waits that may be answered now.
    pub(crate) fn is_ready(&self, now: u64) -> bool
        ensures { result ≡ is_ready now self.now }
    {
        !self.waiting.is_empty() && !(is_second_on(self.since, now) && self.told >= MOST_ANSWERS)
    }

    /// It is answered once more.
    fn count(&mut self, now: u64)
        requires { is_ready now self.old ≡ true }
        ensures { self.new ≡ answered now self.old }
    {
        if is_second_on(self.since, now) {
            self.told += 1;
        } else {
            self.since = Some(now);
            self.told = 1;
        }
    }

    /// Takes the ask that waits longest, to be answered now.
    pub(crate) fn take(&mut self, now: u64) -> Option<Ask>
        requires { is_ready now self.old ≡ true }
        ensures { IsTaken now self.old self.new result }
    {
        self.count(now);
        self.waiting.pop_at(0)
    }
}
