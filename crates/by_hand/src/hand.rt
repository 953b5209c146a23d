//! A range of numbers that an editor asked for.

ghost use Rattle.std.specs.Prelude.{◌≡◌, ◌≤◌, ◌+◌, ◌↔◌, IsTrue, true, false, None, IfOk, IfSome, string_bytes, if◌then◌else◌};
ghost use Rattle.protocol.specs.Limits.{last_number};
ghost use Rattle.by_hand.specs.declared.answer.SearchEnd.TheVariants.{Tape, Void, Nothing};
ghost use Rattle.by_hand.specs.Answers.{answer_after};
ghost use Rattle.by_hand.specs.Lists.{is_among};
ghost use Rattle.by_hand.specs.Hands.{answer_of, covers, waits, put_off, IsBegun, IsDone, IsFirstWaiting, IsNext, IsNoted, IsSettled, IsTold, IsTurnOf, NoneWaits};
ghost use Rattle.by_hand.specs.Texts.{IsTextOf};

use crate::answer::SearchEnd;
use crate::flying::{Flying, is_among, without};
use crate::lines::text_of;
use crate::scan::{end_of, first_open, missing};
use arrayvec::ArrayVec;
use ballots::Number;
use gone_out::Numbers;
use std::alloc::{AllocError, Global};
use std::marker::Model;

/// A range of numbers that an editor asked for, and what came of them so far. Those that the circuit has something of are searched, each
/// until it has an answer, 8 at a time; of the others there is nothing. It takes 375,000 bytes at once, and no more later.
#[derive(Drop)]
pub struct Hand {
    first: Number,
    last: Number,
    /// The numbers that have an answer.
    answered: Numbers,
    /// Those of them that are tapes.
    tapes: Numbers,
    /// Those of them that are withdrawn.
    voids: Numbers,
    /// The numbers whose searches are under way.
    flying: Flying,
    /// From which number on the next is looked for.
    next: u32,
    /// The first number that has no answer; the one behind the last, where each has one.
    low: u32,
    /// Whether it is known that no number waits.
    is_idle: bool,
}

impl Model for Hand {
    ghost use Rattle.by_hand.specs.Hands.{HandValue, IsHand};

    ghost Value = { HandValue };

    ghost view = { λ h. record { first = h.first; last = h.last; answered = h.answered; tapes = h.tapes; voids = h.voids; flying = h.flying.items; next = h.next } };

    ghost invariant = { λ h. IsHand (record { first = h.first; last = h.last; answered = h.answered; tapes = h.tapes; voids = h.voids; flying = h.flying.items; next = h.next }) h.low h.is_idle };
}

impl Hand {
    /// The range from a number to the last, of a circuit that has something of these numbers: as a rule those that a majority of its
    /// members told, and the own ones. With no last number it goes to the greatest of these, or where none is greater, has the first alone.
    pub fn new(
        alloc: Global,
        first: Number,
        last: Option<Number>,
        has: &Numbers,
    ) -> Result<Hand, AllocError>
        ensures { IfOk result (IsBegun first last has.now) }
    {
        let last = end_of(has, first, last);
        let answered = missing(alloc, has, first, last)?;
        let low = first_open(&answered, first.get(), last);
        Ok(Hand {
            first,
            last,
            answered,
            tapes: Numbers::new(alloc)?,
            voids: Numbers::new(alloc)?,
            flying: ArrayVec::new(),
            next: first.get(),
            low,
            is_idle: false,
        })
    }

    /// The first number of the range.
    pub fn first(&self) -> Number
        ensures { result ≡ self.now.first }
    {
        self.first
    }

    /// The last number of the range. Where it is below the first, the range has no numbers.
    pub fn last(&self) -> Number
        ensures { result ≡ self.now.last }
    {
        self.last
    }

    /// Whether a number is one of the range.
    pub fn covers(&self, number: Number) -> bool
        ensures { result ≡ covers self.now number }
    {
        self.first.get() <= number.get() && number.get() <= self.last.get()
    }

    /// Whether a search of a number is under way.
    pub fn is_under_way(&self, number: Number) -> bool
        ensures { result ≡ is_among self.now.flying number }
    {
        is_among(self.flying.as_slice(), number.get())
    }

    /// What came of a number so far.
    pub fn answer(&self, number: Number) -> SearchEnd
        ensures { result ≡ answer_of self.now number }
    {
        if self.tapes.contains(number) {
            SearchEnd::Tape
        } else if self.voids.contains(number) {
            SearchEnd::Void
        } else {
            SearchEnd::Nothing
        }
    }

    /// Whether a number waits for a search.
    fn waits(&self, number: Number) -> bool
        ensures { result ≡ waits self.now number }
    {
        self.covers(number) && !self.answered.contains(number) && !self.is_under_way(number)
    }

    /// The first number from one on that waits.
    fn waiting_from(&self, start: u32) -> Option<Number>
        requires { 1 ≤ start }
        ensures { IsFirstWaiting self.now start result }
    {
        let mut place = start;
        while place <= self.last.get() {
            let number = Number::new(place)?;
            if self.waits(number) {
                return Some(number);
            }
            place += 1;
        }
        None
    }

    /// The number whose turn it is, if one waits.
    fn turn(&self) -> Option<Number>
        ensures some { IfSome result (IsTurnOf self.now) }
        ensures none { result ≡ None → NoneWaits self.now }
    {
        match self.waiting_from(self.next) {
            Some(number) => Some(number),
            None => self.waiting_from(self.low),
        }
    }

    /// The number that is searched next, if there is one: the first of those that wait behind the one before, or else the first of all that
    /// wait; none while 8 are under way.
    pub fn next(&mut self) -> Option<Number>
        ensures { IsNext self.old self.new result }
    {
        if self.is_idle || self.flying.is_full() {
            return None;
        }
        let found = self.turn();
        match found {
            Some(number) => {
                self.flying.push(number.get());
                self.next = number.get() + 1;
            }
            None => self.is_idle = true,
        }
        found
    }

    /// A search of a number was not begun, or came to no end: the number waits again, behind the others. One out of the range changes
    /// nothing.
    pub fn put_off(&mut self, number: Number)
        ensures { self.new ≡ put_off self.old number }
    {
        if self.covers(number) {
            self.flying = without(&self.flying, number.get());
            self.is_idle = false;
        }
    }

    /// What came of a number is kept. What was found of it before stands.
    fn note(&mut self, number: Number, answer: SearchEnd)
        ensures { IsNoted self.old self.new number answer }
    {
        if self.answer(number) != SearchEnd::Nothing {
            return;
        }
        match answer {
            SearchEnd::Tape => {
                self.tapes.insert(number);
            }
            SearchEnd::Void => {
                self.voids.insert(number);
            }
            SearchEnd::Nothing => {}
        }
    }

    /// A number has an answer, and is searched no longer.
    fn settle(&mut self, number: Number)
        ensures { IsSettled self.old self.new number }
    {
        self.answered.insert(number);
        self.flying = without(&self.flying, number.get());
        self.is_idle = false;
        if number.get() == self.low {
            self.low = first_open(&self.answered, self.low, self.last);
        }
    }

    /// A number has this answer.
    fn tell(&mut self, number: Number, answer: SearchEnd)
        ensures { IsTold self.old self.new number answer }
    {
        if self.covers(number) {
            self.note(number, answer);
            self.settle(number);
        }
    }

    /// A number is a tape, or it is withdrawn. One out of the range changes nothing, and what was found of a number before stands.
    pub fn found(&mut self, number: Number, is_tape: bool)
        ensures { IsTold self.old self.new number (if is_tape then Tape else Void) }
    {
        let answer = if is_tape {
            SearchEnd::Tape
        } else {
            SearchEnd::Void
        };
        self.tell(number, answer);
    }

    /// A search of a number found nothing. One out of the range changes nothing, and what was found of a number before stands.
    pub fn found_nothing(&mut self, number: Number)
        ensures { IsTold self.old self.new number Nothing }
    {
        self.tell(number, SearchEnd::Nothing);
    }

    /// Whether each number of the range has an answer.
    pub fn is_done(&self) -> bool
        ensures { IsTrue result ↔ IsDone self.now }
    {
        self.low > self.last.get()
    }

    /// The text beside the file: in rising order a line for each row of numbers of which the same came, as `41 tape`, `42-44 void` or
    /// `45 nothing`. A number that has no answer yet has `nothing` there.
    pub fn text(&self, alloc: Global) -> Result<String, AllocError>
        ensures { IfOk result (λ t. IsTextOf self.now (string_bytes t)) }
    {
        text_of(alloc, self)
    }
}
