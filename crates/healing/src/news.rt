//! What happens to a number.

ghost use Rattle.std.specs.Prelude.{◌≡◌};
ghost use Rattle.healing.specs.Cases.{voter_of, known_from, quiet_from};

use ballots::Member;

/// How long a number has to be known until it is lacked, in milliseconds.
const KNOWN_FOR: u64 = 5_000;

/// How long nothing may have come of a number that is lacked, in milliseconds.
const QUIET_FOR: u64 = 2_000;

/// What is told of a number.
#[derive(Clone, Copy, PartialEq, Eq)]
pub enum NumberNews {
    /// A row of it was saved here, or found at the start; whether the row has a vote.
    Saved { votes: bool },
    /// A datagram about it came that tells no vote.
    Came,
    /// Another member told its vote of it.
    Voted { member: Member },
    /// A page came in which this member tells that it has a vote of it.
    Held { member: Member },
    /// A ballot of it was opened here for a file among the offers.
    Opened,
    /// Its ballot or its search here ended without an answer.
    Closed,
    /// Its ballot or its search here found nothing.
    Nothing,
}

impl NumberNews {
    /// The member that is told to have a vote, if one is: the own one, where a row is saved that has one.
    pub(crate) fn voter(&self, own: Member) -> Option<Member>
        ensures { result ≡ voter_of own self.now }
    {
        match self {
            NumberNews::Voted { member } | NumberNews::Held { member } => Some(*member),
            NumberNews::Saved { votes: true } => Some(own),
            NumberNews::Saved { votes: false }
            | NumberNews::Came
            | NumberNews::Opened
            | NumberNews::Closed
            | NumberNews::Nothing => None,
        }
    }

    /// From which moment on the number is known for long enough, if this makes it known.
    pub(crate) fn known_from(&self, now: u64) -> Option<u64>
        ensures { result ≡ known_from self.now now }
    {
        match self {
            NumberNews::Saved { .. } | NumberNews::Opened => Some(now.saturating_add(KNOWN_FOR)),
            NumberNews::Held { .. } => Some(now),
            NumberNews::Came
            | NumberNews::Voted { .. }
            | NumberNews::Closed
            | NumberNews::Nothing => None,
        }
    }

    /// From which moment on nothing came for long enough, if something of the number came now.
    pub(crate) fn quiet_from(&self, now: u64) -> Option<u64>
        ensures { result ≡ quiet_from self.now now }
    {
        match self {
            NumberNews::Saved { .. }
            | NumberNews::Came
            | NumberNews::Voted { .. }
            | NumberNews::Opened => { Some(now.saturating_add(QUIET_FOR)) }
            NumberNews::Held { .. } | NumberNews::Closed | NumberNews::Nothing => None,
        }
    }
}
