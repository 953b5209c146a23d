//! What a turn hands out, and why there is none.

ghost use Rattle.std.specs.Prelude.{◌≡◌};
ghost use Rattle.node_core.specs.Turns.{HandsNothing, IsOrderly, sent};
ghost use Rattle.node_core.specs.declared.turn.CoreRefusal.TheVariants.{OutOfMemory};

use ballots::{Ballot, Row};
use packets::{Mail, Outgoing};
use std::alloc::AllocError;
use tape_frames::Entry;

/// What a turn did.
#[derive(Clone, Copy, PartialEq, Eq)]
pub enum Note {
    /// It began a ballot, and asks the others for their promises.
    Began { ballot: Ballot },
    /// There was no entry to propose: the proposal is closed.
    Nothing { ballot: Ballot },
    /// It voted for an entry and proposes it.
    Proposed { ballot: Ballot },
    /// Nothing was due.
    Idle,
    /// The proposal, whose last ballot this was, is closed.
    GaveUp { ballot: Ballot },
    /// It promised.
    Promised { ballot: Ballot },
    /// It has promised this ballot already.
    Silent,
    /// It has promised this higher ballot.
    Nacked { promised: Ballot },
    /// Its vote at this ballot stands.
    VotedAgain { ballot: Ballot },
    /// It voted.
    Voted { ballot: Ballot },
    /// No proposal is at the packet's ballot, or it no longer gathers promises.
    Stale,
    /// Its own row has passed the ballot.
    Overtaken { ballot: Ballot },
    /// The sender's promise is counted already.
    Repeated,
    /// The promise is counted.
    Counted { ballot: Ballot },
    /// The Nack is kept.
    Denied { promised: Ballot },
    /// The number's entry was released already.
    Settled,
    /// The vote was heard.
    Heard { ballot: Ballot },
    /// The row's vote, which is at this ballot, was told again.
    Recalled { ballot: Ballot },
    /// The row has no vote to tell again.
    Blank,
}

/// What a turn hands out.
#[derive(Drop)]
pub struct Turn {
    /// The number's row after it, where it changes: it has to be saved before anything is handed out.
    pub row: Option<Row>,
    /// What goes out, beside the entry of the row.
    pub mail: Option<Mail>,
    /// The entry that is released.
    pub release: Option<Entry>,
    /// What the turn did.
    pub note: Note,
}

impl Turn {
    /// The packets that go out, in order, where the turn was taken at the row `before`. Their entries are lent.
    pub fn out<'a>(&'a self, before: &'a Row) -> Outgoing<'a>
        ensures { result ≡ sent before.now self.now }
    {
        let row = self.row.as_ref().unwrap_or(before);
        Outgoing::new(self.mail, row.vote())
    }

    /// A turn that saves, sends and releases nothing.
    pub(crate) fn quiet(note: Note) -> Turn
        ensures nothing { HandsNothing result }
        ensures note { result.note ≡ note }
        ensures orderly { IsOrderly result }
    {
        Turn {
            row: None,
            mail: None,
            release: None,
            note,
        }
    }
}

/// Why there is no turn.
#[derive(Clone, Copy, PartialEq, Eq)]
pub enum CoreRefusal {
    /// Memory was refused before, and the core was not cleared since.
    Failed,
    /// The number's entry was released already.
    AlreadyReleased,
    /// A proposal of the number is open.
    AlreadyOpen,
    /// There is no round above the saved promise.
    RoundsSpent,
    /// Memory was refused: the core has failed.
    OutOfMemory,
}

impl From<AllocError> for CoreRefusal {
    ghost from_gives = { λ _ refusal. refusal ≡ OutOfMemory };

    fn from(_refused: AllocError) -> CoreRefusal {
        CoreRefusal::OutOfMemory
    }
}
