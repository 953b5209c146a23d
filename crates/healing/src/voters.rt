//! The members that are known to have a vote of a number.

ghost use Rattle.std.specs.Prelude.{◌≡◌};
ghost use Rattle.healing.specs.Voters.{none, is_none, is_voter, with_voter, is_within};

use ballots::Member;

/// Members that have a vote of a number: a bit for each, that of member 1 the second lowest.
#[derive(Clone, Copy, PartialEq, Eq)]
pub struct Voters {
    bits: u16,
}

impl Voters {
    /// None.
    pub(crate) fn new() -> Voters
        ensures { result ≡ none }
    {
        Voters { bits: 0 }
    }

    /// Whether there are none.
    pub fn is_empty(self) -> bool
        ensures { result ≡ is_none self }
    {
        self.bits == 0
    }

    /// Whether a member is among them.
    pub fn has(self, member: Member) -> bool
        ensures { result ≡ is_voter self member }
    {
        (self.bits >> member.get()) & 1 == 1
    }

    /// These and one more, if it is not among them.
    pub(crate) fn with(self, member: Member) -> Voters
        ensures { result ≡ with_voter member self }
    {
        Voters {
            bits: self.bits | 1 << member.get(),
        }
    }

    /// Whether each is among others.
    pub(crate) fn are_within(self, others: Voters) -> bool
        ensures { result ≡ is_within self others }
    {
        self.bits | others.bits == others.bits
    }
}
