//! The looks at the offers: each goes on over as many turns as it takes, and the next comes after a rest.

ghost use Rattle.std.specs.Prelude.{◌≡◌, false, true, IsSome, IfSome, IfOk, None};
ghost use Rattle.looks.specs.Looking.{Finds, GoesOn, at_start, found_by, goes_on, is_due, rest_after, rests_after, takes_turn, turned};

use crate::gathering::{EndedLook, LookFindings};
use folders::Listing;
use std::alloc::{AllocError, Global};
use std::mem;

/// How many names are looked at in one turn at most.
pub const MOST_NAMES: usize = 512;

/// A look that took less is a short one, in milliseconds.
const SHORT: u64 = 2;

/// How long it is rested after a short look, after another one of one turn, and after one of several, in milliseconds.
const SHORT_REST: u64 = 100;

const REST: u64 = 250;

const LONG_REST: u64 = 500;

/// Where the looks stand. Moments are in milliseconds.
#[derive(Drop)]
pub(crate) enum LookStage {
    /// None goes on, and from this moment on the next is begun.
    Rests {
        until: u64,
    },
    /// One goes on.
    GoesOn {
        /// What it found so far.
        found: LookFindings,
        /// Whether the last deed was a part of it.
        was_part: bool,
    },
}

/// The looks at the offers. Moments are in milliseconds.
#[derive(Drop)]
pub struct Looking {
    alloc: Global,
    stage: LookStage,
}

/// How long it is rested after a look of several turns or of one, that took so many milliseconds. A look of several turns is followed by
/// half a second, so that whatever two looks found half a second apart they saw half a second apart.
fn rest_after(several: bool, took: u64) -> u64
    ensures { result ≡ rest_after several took }
{
    if several {
        LONG_REST
    } else if took < SHORT {
        SHORT_REST
    } else {
        REST
    }
}

impl Looking {
    /// None was begun yet, and the first is at once.
    pub fn new(alloc: Global) -> Looking
        ensures { result.stage ≡ at_start }
    {
        Looking {
            alloc,
            stage: LookStage::Rests { until: 0 },
        }
    }

    /// Whether a look goes on.
    pub fn goes_on(&self) -> bool
        ensures { result ≡ goes_on self.now.stage }
    {
        matches!(self.stage, LookStage::GoesOn { .. })
    }

    /// Whether it is time to begin a look at this moment, or to go on with one.
    pub fn is_due(&self, now: u64) -> bool
        ensures { result ≡ is_due self.now.stage now }
    {
        match &self.stage {
            LookStage::Rests { until } => *until <= now,
            LookStage::GoesOn { .. } => true,
        }
    }

    /// Whether the next deed is a part of a look: while one goes on, each second deed is.
    pub fn takes_turn(&mut self) -> bool
        ensures turn { result ≡ takes_turn self.old.stage }
        ensures stage { self.new.stage ≡ turned self.old.stage }
    {
        match &mut self.stage {
            LookStage::Rests { .. } => false,
            LookStage::GoesOn { was_part, .. } => {
                *was_part = !*was_part;
                *was_part
            }
        }
    }

    /// What was found so far, and whether the last deed was a part of the look; none goes on from then on.
    fn so_far(&mut self) -> (LookFindings, bool)
        ensures { result ≡ found_by self.old.stage }
    {
        let rests = LookStage::Rests { until: 0 };
        match mem::replace(&mut self.stage, rests) {
            LookStage::Rests { .. } => (LookFindings::new(self.alloc), false),
            LookStage::GoesOn { found, was_part } => (found, was_part),
        }
    }

    /// Takes in what was found in a turn, at a moment; all that the look found, where it has come to its end.
    pub fn push(&mut self, listing: Listing, now: u64) -> Option<Result<EndedLook, AllocError>>
        ensures goes_on { listing.is_end ≡ false → GoesOn listing self.old.stage self.new.stage }
        ensures nothing { listing.is_end ≡ false → result ≡ None }
        ensures ends { listing.is_end ≡ true → self.new.stage ≡ rests_after self.old.stage listing.took now }
        ensures told { listing.is_end ≡ true → IsSome result }
        ensures finds { IfSome result (λ answer. IfOk answer (Finds listing self.old.stage)) }
    {
        let (is_end, took) = (listing.is_end, listing.took);
        let several = self.goes_on();
        let (mut found, was_part) = self.so_far();
        found.push(listing);
        if is_end {
            let until = now.saturating_add(rest_after(several, took));
            self.stage = LookStage::Rests { until };
            Some(found.finish())
        } else {
            self.stage = LookStage::GoesOn { found, was_part };
            None
        }
    }

    /// The look has failed at a moment.
    pub fn fail(&mut self, now: u64)
        ensures { self.new.stage ≡ rests_after self.old.stage 2 now }
    {
        let until = now.saturating_add(rest_after(self.goes_on(), SHORT));
        self.stage = LookStage::Rests { until };
    }
}
