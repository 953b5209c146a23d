//! What is kept in mind of a range that an editor asks for.

ghost use Rattle.std.specs.Prelude.{◌≡◌, ◌||◌, IfOk, IfSome, None, false, is_some, option_copied};
ghost use Rattle.tape_frames.specs.Entries.{lent_entry};
ghost use Rattle.plant_care.specs.Asking.{is_search_due, is_tape, knows_circuit, AsksFor, IsRange, IsSearched};

use crate::ask::RangeAsk;
use crate::care::Care;
use ballots::Number;
use by_hand::Hand;
use catch_up::CatchUp;
use catch_up_log::tell_answered;
use driver::{Declined, Log, TakenStep};
use folders::{Span, Stamp};
use gone_out::Numbers;
use station::StepRefusal;
use std::alloc::{AllocError, Global};
use std::io::Write;
use tape_frames::EntryRef;

/// Whether an entry is a tape.
pub(crate) fn is_tape(entry: &EntryRef<'_>) -> bool
    ensures { result ≡ is_tape (lent_entry entry.now) }
{
    !matches!(entry, EntryRef::Void)
}

/// The numbers from one to another.
fn numbers_of(alloc: Global, first: Number, last: Number) -> Result<Numbers, AllocError> {
    let mut numbers = Numbers::new(alloc)?;
    for value in first.get()..last.get() + 1 {
        if let Some(number) = Number::new(value) {
            numbers.insert(number);
        }
    }
    Ok(numbers)
}

/// The numbers from one on of which the circuit may have something, as far as the plant knows.
fn known_from(alloc: Global, first: Number, catch_up: &CatchUp) -> Result<Numbers, AllocError> {
    let mut numbers = Numbers::new(alloc)?;
    for value in first.get()..Number::LAST + 1 {
        if let Some(number) = Number::new(value)
            && catch_up.knows(number)
        {
            numbers.insert(number);
        }
    }
    Ok(numbers)
}

/// A range that is to be searched: each of its numbers, where it has a last one, or else those of which the circuit may have something.
#[tactic(auto, using(crate::proofs::Spans::range_of))]
fn hand_of(alloc: Global, span: &Span, catch_up: &CatchUp) -> Result<Hand, AllocError>
    ensures { IfOk result (IsRange span.now) }
{
    let Span { first, last } = *span;
    let numbers = match last {
        Some(last) => numbers_of(alloc, first, last)?,
        None => known_from(alloc, first, catch_up)?,
    };
    Hand::new(alloc, first, last, &numbers)
}

/// Whether there may be a search to begin of a range that is asked for.
pub(crate) fn is_search_due(asked: &Option<RangeAsk>) -> bool
    ensures { result ≡ is_search_due asked.now }
{
    match asked {
        Some(ask) => ask.is_stirred,
        None => false,
    }
}

/// A look came to pass: there may be a search to begin of the range that is asked for.
pub(crate) fn look_by_hand(asked: &mut Option<RangeAsk>) {
    if let Some(ask) = asked {
        ask.is_stirred = true;
    }
}

/// The next search of the range that is asked for, at a moment, if there is one.
pub(crate) fn next_by_hand(asked: &mut Option<RangeAsk>, now: u64) -> Option<Number>
    ensures next { IfSome result (IsSearched asked.old asked.new) }
    ensures none { result ≡ None → is_search_due asked.new ≡ false }
{
    match asked {
        Some(ask) => ask.next(now),
        None => None,
    }
}

/// A step about a number was taken: what came of it is an answer, where the number is of the range that is asked for.
pub(crate) fn hear_by_hand(asked: &mut Option<RangeAsk>, number: Number, step: &TakenStep) {
    let Some(ask) = asked else {
        return;
    };
    match &step.answer.release {
        Some(release) => ask.answered(number, is_tape(&release.entry.lend())),
        None => ask.hear(number, &step.answer.note, step.moment),
    }
}

/// The station did not take a search: what was released under its number since the start, a tape or not, is the answer, if anything was,
/// and else it is searched later.
pub(crate) fn decline_by_hand(
    asked: &mut Option<RangeAsk>,
    declined: &Declined,
    released: Option<bool>,
) {
    let Some(ask) = asked else {
        return;
    };
    let number = declined.number;
    match released {
        Some(is_tape) if declined.refusal == StepRefusal::AlreadyReleased => {
            ask.answered(number, is_tape);
        }
        _ => ask.put_off(number, declined.moment),
    }
}

impl Care {
    /// Whether a range is asked for.
    pub fn is_asking(&self) -> bool
        ensures { result ≡ is_some self.now.ask }
    {
        self.ask.is_some()
    }

    /// Whether it is known as well as it will be what the circuit has: a majority told its votes, or nobody is asked for them.
    fn knows_circuit(&self) -> bool
        ensures { result ≡ knows_circuit self.now }
    {
        self.catch_up.is_told() || (self.waiting.is_none() && !self.catch_up.asks())
    }

    /// Whether a range can be asked for: it has a last number, or it is known what the circuit has.
    pub fn may_ask_for(&self, span: &Span) -> bool
        ensures { result ≡ (is_some span.now.last || knows_circuit self.now) }
    {
        span.last.is_some() || self.knows_circuit()
    }

    /// A range is asked for by a file, at a moment: each of its numbers is to be searched, or where it has no last one, each of which the
    /// circuit may have something. Where there is no memory for that, it is asked for later.
    pub fn begin_ask(&mut self, span: Span, stamp: Stamp, now: u64)
        ensures { AsksFor span stamp self.old self.new }
    {
        if let Ok(hand) = hand_of(self.alloc, &span, &self.catch_up) {
            self.ask = Some(RangeAsk {
                span,
                stamp,
                hand,
                from: now,
                is_stirred: true,
            });
        }
    }

    /// The range that is asked for.
    pub fn asked(&self) -> Option<&RangeAsk>
        ensures { option_copied result ≡ self.now.ask }
    {
        self.ask.as_ref()
    }

    /// No range is asked for any more; the one that was.
    pub fn end_ask(&mut self) -> Option<RangeAsk>
        ensures ask { result ≡ self.old.ask }
        ensures rest { self.new ≡ record self.old { ask = None } }
    {
        self.ask.take()
    }

    /// Tells how many of the numbers of a range that was asked for have each answer, unless faults alone are told.
    pub fn tell_answers<E: Write>(&self, ask: &RangeAsk, log: &mut Log<'_, E>) {
        if self.is_quiet {
            return;
        }
        if let Ok(name) = ask.name(self.alloc) {
            tell_answered(self.alloc, name.as_str(), ask.counts(), log.err);
        }
    }
}
