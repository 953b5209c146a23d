//! What an acceptor saves for one number.

ghost use Rattle.std.specs.Prelude.{◌≡◌, IfOk, IsOk, IsSome, IfSome, IsTrue, ◌↔◌, None, option_copied};
ghost use Rattle.protocol.specs.Rows.{blank, may_stand};
ghost use Rattle.protocol.specs.Fitting.{VoteFits};
ghost use Rattle.tape_frames.specs.Entries.{version_of};

use crate::ballot::Ballot;
use crate::vote::Vote;
use std::alloc::{AllocError, Global};
use std::marker::Model;
use tape_frames::Version;

/// The highest promise and the highest vote of an acceptor for one number.
/// A vote stands only beside a promise that isn't below it.
#[derive(Drop)]
pub struct Row {
    promised: Option<Ballot>,
    vote: Option<Vote>,
}

impl Model for Row {
    ghost use Rattle.std.specs.Prelude.{IsTrue};
    ghost use Rattle.protocol.specs.Rows.{Row as RowValue, may_stand};

    ghost Value = { RowValue };

    ghost view = { λ r. record { promised = r.promised; vote = r.vote } };

    ghost invariant = { λ r. IsTrue (may_stand r.promised r.vote) };
}

impl Row {
    /// The row of an acceptor that was asked nothing.
    pub fn blank() -> Row
        ensures { result ≡ blank }
    {
        Row {
            promised: None,
            vote: None,
        }
    }

    /// The row with these parts; `None` where a vote would stand without a promise, or above it.
    /// The parts are given up then.
    pub fn new(promised: Option<Ballot>, vote: Option<Vote>) -> Option<Row>
        ensures some { IsSome result ↔ IsTrue (may_stand promised vote) }
        ensures value { IfSome result (λ r. r ≡ record { promised = promised; vote = vote }) }
    {
        let stands = match (&promised, &vote) {
            (_, None) => true,
            (None, Some(_)) => false,
            (Some(p), Some(v)) => !p.is_below(v.ballot()),
        };
        if stands {
            Some(Row { promised, vote })
        } else {
            None
        }
    }

    /// The highest promise, if any.
    pub fn promised(&self) -> Option<Ballot>
        ensures value { result ≡ self.now.promised }
        ensures stands { IsTrue (may_stand self.now.promised self.now.vote) }
    {
        self.promised
    }

    /// The highest vote, if any.
    pub fn vote(&self) -> Option<&Vote>
        ensures value { option_copied result ≡ self.now.vote }
        ensures stands { IsTrue (may_stand self.now.promised self.now.vote) }
    {
        self.vote.as_ref()
    }

    /// Whether the version has a row for it: there is no vote, or the version has one for the vote's entry.
    pub fn fits(&self, version: Version) -> bool
        ensures { IsTrue result ↔ VoteFits (version_of version) self.now.vote }
    {
        match &self.vote {
            None => true,
            Some(vote) => vote.lend().fits(version),
        }
    }

    /// The two parts, given up.
    pub fn into_parts(self) -> (Option<Ballot>, Option<Vote>)
        ensures promised { result.0 ≡ self.promised }
        ensures vote { result.1 ≡ self.vote }
        ensures stands { IsTrue (may_stand self.promised self.vote) }
    {
        (self.promised, self.vote)
    }

    /// An equal row with frames of its own; it takes no memory where there is no vote.
    pub fn copy(&self, alloc: Global) -> Result<Row, AllocError>
        ensures same { IfOk result (λ r. r ≡ self.now) }
        ensures no_memory { self.now.vote ≡ None → IsOk result }
    {
        let vote = match &self.vote {
            None => None,
            Some(v) => Some(v.copy(alloc)?),
        };
        Ok(Row {
            promised: self.promised,
            vote,
        })
    }
}
