//! Recalls and rolls that are passed over, and when that is told.

ghost use Rattle.std.specs.Prelude.{◌≡◌, true};
ghost use Rattle.plant_log.specs.Telling.{TellsIf};
ghost use Rattle.catch_up_log.specs.Passing.{counted, is_unheard_told, no_unheards, unheards_after};
ghost use Rattle.catch_up_log.specs.Words.{unheard_text};

use crate::line::CatchUpLine;
use crate::writing::tell_line;
use plant_log::is_time;
use std::alloc::Global;
use std::io::Write;

/// What members say to each other beside their packets.
#[derive(Clone, Copy, PartialEq, Eq)]
pub enum Spoken {
    /// A recall: it asks for a vote.
    Recall,
    /// A datagram of the roll calls: it asks which numbers have a vote, or tells it.
    Roll,
}

/// The recalls, or the rolls, that were passed over since one was told, and when that was.
#[derive(Drop)]
pub struct Unheards {
    /// Which of both they are.
    spoken: Spoken,
    /// How many were passed over since.
    count: u64,
    /// When one was told last, in milliseconds.
    told: Option<u64>,
}

impl Unheards {
    /// None yet.
    pub fn new(spoken: Spoken) -> Unheards
        ensures { result ≡ no_unheards spoken }
    {
        Unheards {
            spoken,
            count: 0,
            told: None,
        }
    }

    /// One was passed over at a moment in milliseconds, for this cause, in the words of the log (`bad-count`). It is told once a second at
    /// most, with how many there were since the last that was told.
    pub fn tell<E: Write>(&mut self, alloc: Global, cause: &str, now: u64, err: &mut E)
        ensures tells { TellsIf (is_unheard_told self.old now ≡ true) (unheard_text self.old.spoken cause.now (counted self.old)) (E.contents err.old) (E.contents err.new) }
        ensures after { self.new ≡ unheards_after self.old now }
    {
        let is_told = is_time(self.told, now);
        self.count = self.count.saturating_add(1);
        if is_told {
            let (spoken, count) = (self.spoken, self.count);
            tell_line(
                alloc,
                &CatchUpLine::Unheard {
                    spoken,
                    cause,
                    count,
                },
                err,
            );
            self.count = 0;
            self.told = Some(now);
        }
    }
}
