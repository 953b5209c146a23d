//! Which of the things that befall numbers are told in the usual log.

ghost use Rattle.std.specs.Prelude.{◌≡◌, []};
ghost use Rattle.std.specs.Ordering.{nat_cmp};
ghost use Rattle.std.specs.BTreeMap.{get};
ghost use Rattle.plant_log.specs.Keeping.{Forgets, HasRoom};
ghost use Rattle.plant_log.specs.Stories.{known, Hears, HearsOf};

use crate::event::LogEvent;
use crate::room::keep;
use crate::story::{BallotTurn, StoryNote};
use std::alloc::Global;
use std::collections::BTreeMap;

/// What is kept in mind of the numbers that are under way: of 65,536 at most.
#[derive(Drop)]
pub(crate) struct Stories {
    kept: BTreeMap<u32, StoryNote>,
}

impl Stories {
    /// Of none is anything.
    pub(crate) fn new(alloc: Global) -> Stories
        ensures { result.kept.entries ≡ [] }
    {
        Stories {
            kept: BTreeMap::new(alloc),
        }
    }

    /// What is kept in mind of a number.
    fn story(&self, number: u32) -> StoryNote
        ensures { result ≡ known (get nat_cmp self.now.kept number) }
    {
        match self.kept.get(&number) {
            Some(story) => *story,
            None => StoryNote::first(),
        }
    }

    /// Whether this is told of the ballots of a number, at a moment in milliseconds. Where nothing more can be kept in mind, it is.
    fn hear(&mut self, number: u32, turn: BallotTurn, now: u64) -> bool
        ensures { HearsOf number turn now result self.old.kept self.new.kept }
    {
        let heard = self.story(number).hear(turn, now);
        if keep(&mut self.kept, number, heard.story) {
            heard.is_told
        } else {
            true
        }
    }

    /// What was kept in mind of a number is forgotten.
    fn forget(&mut self, number: u32)
        ensures { Forgets number self.old.kept self.new.kept }
    {
        self.kept.remove(&number);
    }

    /// Whether something is told in the usual log, at a moment in milliseconds.
    pub(crate) fn are_told(&mut self, event: LogEvent, now: u64) -> bool
        ensures hears { Hears event now result self.old.kept self.new.kept }
        ensures bound { HasRoom self.old.kept self.new.kept }
    {
        match event {
            LogEvent::Began { number, .. } => self.hear(number, BallotTurn::Begins, now),
            LogEvent::GaveUp { number, .. } | LogEvent::Nothing { number, .. } => {
                self.hear(number, BallotTurn::Ends, now)
            }
            LogEvent::Released { number } => {
                self.forget(number);
                true
            }
            LogEvent::Sent { .. } | LogEvent::Done { .. } => false,
            LogEvent::Lost { .. } | LogEvent::Replaced { .. } => true,
        }
    }
}
