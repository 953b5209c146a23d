//! Numbers that were found missing here and are asked for, and when they are told.

ghost use Rattle.std.specs.Prelude.{◌≡◌, ◌≤◌, true, not, is_some, [], IfSome};
ghost use Rattle.protocol.specs.Limits.{last_number};
ghost use Rattle.gone_out.specs.Numbers.{has};
ghost use Rattle.plant_log.specs.Telling.{TellsIf};
ghost use Rattle.catch_up_log.specs.Words.{missed_text};
ghost use Rattle.catch_up_log.specs.Missed.{AddsTo, IsWith, TellsMissed, TellsNumbers, TellsRanges, TellsWaiting, missed_after, no_missed};

use crate::line::CatchUpLine;
use crate::ranges::text_of;
use crate::writing::tell_line;
use ballots::Number;
use gone_out::Numbers;
use plant_log::{is_time, tell_no_memory};
use std::alloc::Global;
use std::io::Write;

/// How many numbers are told by a line for each at most.
const MOST_LINES: u32 = 8;

/// The numbers that were found missing here, are asked for, and wait to be told.
#[derive(Drop)]
pub struct Missed {
    /// Those that wait; made when the first comes, and dropped once they are told.
    waiting: Option<Numbers>,
    /// When some were told last, in milliseconds.
    told: Option<u64>,
}

/// The set that has this number alone.
fn set_of(alloc: Global, number: Number) -> Option<Numbers>
    ensures { IfSome result (λ s. IsWith [] number s) }
{
    let mut numbers = Numbers::new(alloc).ok()?;
    numbers.insert(number);
    Some(numbers)
}

/// Tells a number, where it is among these.
fn tell_if<E: Write>(alloc: Global, numbers: &Numbers, number: u32, err: &mut E)
    requires low { 1 ≤ number }
    requires high { number ≤ last_number }
    ensures { TellsIf (has numbers.now number ≡ true) (missed_text number) (E.contents err.old) (E.contents err.new) }
{
    if let Some(one) = Number::new(number)
        && numbers.contains(one)
    {
        tell_line(alloc, &CatchUpLine::Missed(number), err);
    }
}

/// Tells each of these numbers by a line of its own, rising.
fn tell_each<E: Write>(alloc: Global, numbers: &Numbers, err: &mut E)
    ensures { TellsNumbers numbers.now (E.contents err.old) (E.contents err.new) }
{
    for number in 1..Number::LAST + 1 {
        tell_if(alloc, numbers, number, err);
    }
}

/// Tells these numbers by one line.
fn tell_ranges<E: Write>(alloc: Global, numbers: &Numbers, err: &mut E)
    ensures { TellsRanges numbers.now (E.contents err.old) (E.contents err.new) }
{
    match text_of(alloc, numbers, "") {
        Ok(text) => tell_line(alloc, &CatchUpLine::MissedRanges(text.as_str()), err),
        Err(_) => tell_no_memory(err),
    }
}

/// Tells these numbers: 8 at most by a line for each, and more by one.
fn tell_all<E: Write>(alloc: Global, numbers: &Numbers, err: &mut E)
    ensures { TellsMissed numbers.now (E.contents err.old) (E.contents err.new) }
{
    if numbers.len() <= MOST_LINES {
        tell_each(alloc, numbers, err);
    } else {
        tell_ranges(alloc, numbers, err);
    }
}

impl Missed {
    /// None waits, and none was told yet.
    pub fn new() -> Missed
        ensures { result ≡ no_missed }
    {
        Missed {
            waiting: None,
            told: None,
        }
    }

    /// A number was found missing here, and is asked for: it waits to be told. The first that waits takes 125,000 bytes, and the others none;
    /// where there is no memory for it, it is not told.
    pub fn add(&mut self, alloc: Global, number: Number)
        ensures waits { AddsTo self.old.waiting number self.new.waiting }
        ensures told { self.new.told ≡ self.old.told }
    {
        if let Some(numbers) = &mut self.waiting {
            numbers.insert(number);
            return;
        }
        self.waiting = set_of(alloc, number);
    }

    /// Whether none waits.
    pub fn is_empty(&self) -> bool
        ensures { result ≡ not (is_some self.now.waiting) }
    {
        self.waiting.is_none()
    }

    /// Tells those that wait, at a moment in milliseconds, if some do and none was told in the last second; none of them waits from then on.
    /// 8 at most are told by a line for each, and more by one that names 20 of their ranges at most, and then `, ..`.
    pub fn tell<E: Write>(&mut self, alloc: Global, now: u64, err: &mut E)
        ensures tells { TellsWaiting self.old now (E.contents err.old) (E.contents err.new) }
        ensures after { self.new ≡ missed_after self.old now }
    {
        if !is_time(self.told, now) {
            return;
        }
        if let Some(numbers) = self.waiting.take() {
            tell_all(alloc, &numbers, err);
            self.told = Some(now);
        }
    }
}
