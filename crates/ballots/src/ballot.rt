//! Ballots, in order of round and then owner.

ghost use Rattle.std.specs.Prelude.{◌≡◌, ◌≤◌, Some, IsSome, IfSome, ◌↔◌, IsTrue};
ghost use Rattle.protocol.specs.Ballots.{IsBallot, is_below, is_same, next};
ghost use Rattle.ballots.specs.Texts.{ballot_text};

use crate::laws::range_of_member;
use crate::member::Member;
use std::fmt;
use std::marker::Model;

/// A round, 1 to 4,294,967,295, and the member that it belongs to, written `round.owner`.
/// Lamport, Paxos Made Simple: proposals carry ordered numbers, and no two proposers share one.
#[derive(Clone, Copy, PartialEq, Eq)]
pub struct Ballot {
    round: u32,
    owner: Member,
}

impl Model for Ballot {
    ghost use Rattle.protocol.specs.Ballots.{Ballot as BallotValue, IsBallot};

    ghost Value = { BallotValue };

    ghost view = { λ b. record { round = b.round; owner = b.owner } };

    ghost invariant = { λ b. IsBallot (record { round = b.round; owner = b.owner }) };

    ghost inverse = { λ r. record { round = r.round; owner = r.owner } };
}

impl Ballot {
    /// The ballot of this round and owner; `None` where the round is 0.
    pub fn new(round: u32, owner: Member) -> Option<Ballot>
        ensures some { IsSome result ↔ (1 ≤ round) }
        ensures value { IfSome result (λ b. b ≡ record { round = round; owner = owner }) }
    {
        range_of_member(owner);
        if round == 0 {
            None
        } else {
            Some(Ballot { round, owner })
        }
    }

    /// The owner's ballot of the round after that of the ballot that was seen, or of round 1 where none was;
    /// `None` where the rounds are spent. The owner may have one above what was seen in its own round, and does not take it.
    pub fn next(seen: Option<Ballot>, owner: Member) -> Option<Ballot>
        ensures { result ≡ next seen owner }
    {
        match seen {
            None => Ballot::new(1, owner),
            Some(seen) => match seen.round().checked_add(1) {
                Some(round) => Ballot::new(round, owner),
                None => None,
            },
        }
    }

    /// Its round.
    pub fn round(self) -> u32
        ensures round { result ≡ self.round }
        ensures range { IsBallot self }
    {
        self.round
    }

    /// The member that it belongs to.
    pub fn owner(self) -> Member
        ensures owner { result ≡ self.owner }
        ensures range { IsBallot self }
    {
        self.owner
    }

    /// Whether this ballot comes before the other.
    pub fn is_below(self, other: Ballot) -> bool
        ensures { result ≡ is_below self other }
    {
        self.round < other.round
            || (self.round == other.round && self.owner.get() < other.owner.get())
    }

    /// Whether the two are one ballot.
    pub fn is_same(self, other: Ballot) -> bool
        ensures test { result ≡ is_same self other }
        ensures equal { IsTrue result ↔ (self ≡ other) }
    {
        self.round == other.round && self.owner.get() == other.owner.get()
    }
}

impl fmt::Display for Ballot {
    ghost output = { λ b. Some (ballot_text b) };

    fn fmt<W: fmt::Write>(&self, f: &mut fmt::Formatter<W>) -> fmt::Result {
        write!(f, "{}.{}", self.round, self.owner.get())
    }
}
