//! What was told of the ballots of a number, and what of them is told.

ghost use Rattle.std.specs.Prelude.{◌≡◌};
ghost use Rattle.plant_log.specs.Stories.{first_story, heard, is_due, is_second, one_more};

use crate::standing::HOUR;
use folders::has_passed;

/// How many ballots of a number were begun.
#[derive(Clone, Copy)]
pub(crate) enum Begun {
    Never,
    Once,
    Often,
}

/// What is kept in mind of a number that is under way.
#[derive(Clone, Copy)]
pub(crate) struct StoryNote {
    begun: Begun,
    /// When it was told last that its ballots came to nothing, in milliseconds.
    ended: Option<u64>,
}

/// What befalls the ballots of a number.
#[derive(Clone, Copy)]
pub(crate) enum BallotTurn {
    /// One is begun.
    Begins,
    /// They come to nothing.
    Ends,
}

/// Whether something is told, and what is kept in mind of the number from then on.
#[derive(Clone, Copy)]
pub(crate) struct StoryChange {
    pub(crate) is_told: bool,
    pub(crate) story: StoryNote,
}

/// Whether a ballot is told where so many were begun before it: the second is.
fn is_second(begun: Begun) -> bool
    ensures { result ≡ is_second begun }
{
    matches!(begun, Begun::Once)
}

/// One ballot more was begun.
fn one_more(begun: Begun) -> Begun
    ensures { result ≡ one_more begun }
{
    match begun {
        Begun::Never => Begun::Once,
        Begun::Once | Begun::Often => Begun::Often,
    }
}

/// Whether it is told at a moment that ballots came to nothing, where it was told last then: it was not, or an hour has passed.
fn is_due(told: Option<u64>, now: u64) -> bool
    ensures { result ≡ is_due told now }
{
    match told {
        Some(told) => has_passed(told, HOUR, now),
        None => true,
    }
}

impl StoryNote {
    /// Nothing was told yet.
    pub(crate) fn first() -> StoryNote
        ensures { result ≡ first_story }
    {
        StoryNote {
            begun: Begun::Never,
            ended: None,
        }
    }

    /// What is told of this, at a moment in milliseconds.
    pub(crate) fn hear(self, turn: BallotTurn, now: u64) -> StoryChange
        ensures { result ≡ heard self turn now }
    {
        let StoryNote { begun, ended } = self;
        match turn {
            BallotTurn::Begins => StoryChange {
                is_told: is_second(begun),
                story: StoryNote {
                    begun: one_more(begun),
                    ended,
                },
            },
            BallotTurn::Ends => {
                let is_told = is_due(ended, now);
                let ended = if is_told { Some(now) } else { ended };
                StoryChange {
                    is_told,
                    story: StoryNote { begun, ended },
                }
            }
        }
    }
}
