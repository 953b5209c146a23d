//! A range of numbers that an editor asks for by a file: each is searched, and the file goes to those that are done, with what came of each.

ghost use Rattle.std.specs.Prelude.{◌≡◌, ◌↔◌, IsTrue, IfSome, IfOk, None, Some, false, string_bytes};
ghost use Rattle.by_hand.specs.Hands.{IsDone, IsNext};
ghost use Rattle.folders.specs.Doings.{moved_file, MayDo};
ghost use Rattle.folders.specs.Spans.{span_name};
ghost use Rattle.folders.specs.declared.leaving.Place.TheVariants.{Done};

use ballots::Number;
use by_hand::{Hand, SearchEnd};
use catch_up_log::Answered;
use folders::{FolderFault, Folders, Leaving, Place, Span, Stamp, span_name};
use node_core::Note;
use std::alloc::{AllocError, Global};

/// How long no search is begun after one that came to no end, in milliseconds.
const PAUSE: u64 = 1000;

/// A range that is asked for.
#[derive(Drop)]
pub struct RangeAsk {
    pub(crate) span: Span,
    /// Its file, as it was found.
    pub(crate) stamp: Stamp,
    /// What came of it so far.
    pub(crate) hand: Hand,
    /// From which moment on the next search may be begun.
    pub(crate) from: u64,
    /// Whether there may be a search to begin.
    pub(crate) is_stirred: bool,
}

/// So many answers, and one more of this kind.
fn with_answer(counts: Answered, answer: SearchEnd) -> Answered {
    let Answered {
        tapes,
        voids,
        nothing,
    } = counts;
    match answer {
        SearchEnd::Tape => Answered {
            tapes: tapes.saturating_add(1),
            voids,
            nothing,
        },
        SearchEnd::Void => Answered {
            tapes,
            voids: voids.saturating_add(1),
            nothing,
        },
        SearchEnd::Nothing => Answered {
            tapes,
            voids,
            nothing: nothing.saturating_add(1),
        },
    }
}

/// How many numbers of a range have each answer, from one to another.
fn counts_of(hand: &Hand, first: Number, last: Number) -> Answered {
    let mut counts = Answered {
        tapes: 0,
        voids: 0,
        nothing: 0,
    };
    for value in first.get()..last.get() + 1 {
        if let Some(number) = Number::new(value) {
            counts = with_answer(counts, hand.answer(number));
        }
    }
    counts
}

impl RangeAsk {
    /// Its next search, at a moment, if there is one; else there may be one at the next look.
    pub(crate) fn next(&mut self, now: u64) -> Option<Number>
        ensures next { IfSome result (λ number. IsNext self.old.hand self.new.hand (Some number)) }
        ensures none { result ≡ None → self.new.is_stirred ≡ false }
    {
        self.is_stirred = false;
        if now < self.from {
            return None;
        }
        let number = self.hand.next()?;
        self.is_stirred = true;
        Some(number)
    }

    /// A search came to no end, at a moment: it is begun again later.
    pub(crate) fn put_off(&mut self, number: Number, now: u64) {
        self.hand.put_off(number);
        self.from = now.saturating_add(PAUSE);
    }

    /// A tape was released under a number, or it is withdrawn.
    pub(crate) fn answered(&mut self, number: Number, is_tape: bool) {
        self.hand.found(number, is_tape);
        self.is_stirred = true;
    }

    /// What a step about a number did that released nothing.
    pub(crate) fn hear(&mut self, number: Number, note: &Note, now: u64) {
        match note {
            Note::Nothing { .. } => {
                self.hand.found_nothing(number);
                self.is_stirred = true;
            }
            Note::GaveUp { .. } => self.put_off(number, now),
            _ => {}
        }
    }

    /// Whether each of its numbers has an answer.
    pub fn is_done(&self) -> bool
        ensures { IsTrue result ↔ IsDone self.now.hand }
    {
        self.hand.is_done()
    }

    /// The name of its file.
    ///
    /// # Errors
    ///
    /// Out of memory.
    pub fn name(&self, alloc: Global) -> Result<String, AllocError>
        ensures { IfOk result (λ n. string_bytes n ≡ span_name self.now.span) }
    {
        span_name(alloc, &self.span)
    }

    /// How many of its numbers have each answer.
    pub(crate) fn counts(&self) -> Answered {
        counts_of(&self.hand, self.hand.first(), self.hand.last())
    }

    /// Moves its file to those that are done, with what came of its numbers beside it.
    ///
    /// # Errors
    ///
    /// Why it can't be moved.
    pub fn set_aside<F: Folders>(&self, alloc: Global, folders: &mut F) -> Result<(), FolderFault>
        ensures { MayDo (F.doings folders.old) (F.doings folders.new) (moved_file (span_name self.now.span) Done) }
    {
        let name = span_name(alloc, &self.span)?;
        let text = self.hand.text(alloc)?;
        let leaving = Leaving {
            name: name.as_str(),
            stamp: self.stamp,
            to: Place::Done,
        };
        folders.set_aside(alloc, leaving, Some(text.as_str()))
    }
}
