//! Walks over the numbers of a range: where it ends, and which of them are in a set.

ghost use Rattle.std.specs.Prelude.{◌≡◌, ◌≤◌, ◌<◌, ◌+◌, ◌↔◌, ℕ, true, false, None, IfOk, not, ◌==◌, ◌||◌};
ghost use Rattle.protocol.specs.Limits.{last_number};
ghost use Rattle.gone_out.specs.Numbers.{has};
ghost use Rattle.by_hand.specs.Hands.{EndsAt};
ghost use Rattle.by_hand.specs.Scans.{AreMissing, IsOpenFrom};

use ballots::Number;
use gone_out::Numbers;
use std::alloc::{AllocError, Global};

/// Whether a number is in a set.
fn holds(numbers: &Numbers, place: u32) -> bool
    requires low { 1 ≤ place }
    requires high { place ≤ last_number }
    ensures { result ≡ has numbers.now place }
{
    match Number::new(place) {
        Some(number) => numbers.contains(number),
        None => false,
    }
}

/// The greatest number of a set that is above one; this one, where none is.
fn greatest_from(numbers: &Numbers, first: Number) -> Number
    ensures { EndsAt numbers.now first None result }
{
    let mut last = Number::LAST;
    while last > first.get() && !holds(numbers, last) {
        last -= 1;
    }
    match Number::new(last) {
        Some(number) => number,
        None => first,
    }
}

/// Where a range ends that was asked for.
pub(crate) fn end_of(numbers: &Numbers, first: Number, last: Option<Number>) -> Number
    ensures { EndsAt numbers.now first last result }
{
    match last {
        Some(last) => last,
        None => greatest_from(numbers, first),
    }
}

/// Adds a number to a set, unless another has it.
fn add_missing(others: &mut Numbers, numbers: &Numbers, place: u32)
    requires low { 1 ≤ place }
    requires high { place ≤ last_number }
    ensures here { has others.new place ≡ (has others.old place || not (has numbers.now place)) }
    ensures others { (n : ℕ) → ¬ (n ≡ place) → has others.new n ≡ has others.old n }
{
    if let Some(number) = Number::new(place)
        && !numbers.contains(number)
    {
        others.insert(number);
    }
}

/// The numbers from the first to the last that are not in a set.
pub(crate) fn missing(
    alloc: Global,
    numbers: &Numbers,
    first: Number,
    last: Number,
) -> Result<Numbers, AllocError>
    ensures { IfOk result (AreMissing numbers.now first (last + 1)) }
{
    let mut others = Numbers::new(alloc)?;
    for place in first.get()..last.get() + 1 {
        add_missing(&mut others, numbers, place);
    }
    Ok(others)
}

/// The first number from one on that has no answer; the one behind the last, where each has one.
pub(crate) fn first_open(answered: &Numbers, start: u32, last: Number) -> u32
    requires low { 1 ≤ start }
    requires high { start ≤ last_number + 1 }
    ensures { IsOpenFrom answered.now start last result }
{
    let mut place = start;
    while place <= last.get() && holds(answered, place) {
        place += 1;
    }
    place
}
