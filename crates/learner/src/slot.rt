//! The slot of a member: the vote that was heard of it.

ghost use Rattle.std.specs.Prelude.{◌≡◌, Some, None, IfOk, is_some, option_map, option_copied};
ghost use Rattle.protocol.specs.Rows.{Vote as VoteValue};
ghost use Rattle.protocol.specs.Learner.{votes_at};
ghost use Rattle.learner.specs.Slots.{is_newer};
ghost use Rattle.tape_frames.specs.Entries.{owned_entry};

use ballots::{Ballot, Vote};
use std::alloc::{AllocError, Global};
use std::marker::Model;
use tape_frames::Entry;

/// The vote that was heard of a member, if any. The vote stands in a box, so that an empty slot is small.
/// Clauses see the vote.
#[derive(Drop)]
pub(crate) struct Slot {
    vote: Option<Box<Vote>>,
}

impl Model for Slot {
    ghost use Rattle.std.specs.Prelude.{Option};
    ghost use Rattle.protocol.specs.Rows.{Vote as VoteValue};
    ghost use Rattle.learner.specs.Slots.{unboxed};

    ghost Value = { Option VoteValue };

    ghost view = { λ s. unboxed s.vote };
}

impl Default for Slot {
    ghost is_default = { λ slot. slot ≡ None };

    /// Nothing was heard.
    fn default() -> Slot {
        Slot { vote: None }
    }
}

impl Slot {
    /// The vote was heard.
    pub fn voted(alloc: Global, vote: Vote) -> Result<Slot, AllocError>
        ensures { IfOk result (λ slot. slot ≡ Some vote) }
    {
        let vote = Box::new(alloc, vote)?;
        Ok(Slot { vote: Some(vote) })
    }

    /// The vote, if one was heard.
    pub fn vote(&self) -> Option<&Vote>
        ensures { option_copied result ≡ self.now }
    {
        match &self.vote {
            None => None,
            Some(vote) => Some(vote.as_ref()),
        }
    }

    /// Whether a vote was heard.
    pub fn has_vote(&self) -> bool
        ensures { result ≡ is_some self.now }
    {
        self.vote.is_some()
    }

    /// Whether a vote at the ballot takes the slot: the vote in it, if any, is at a ballot below.
    pub fn gives_way_to(&self, ballot: Ballot) -> bool
        ensures { result ≡ is_newer ballot self.now }
    {
        match self.vote() {
            None => true,
            Some(vote) => vote.ballot().is_below(ballot),
        }
    }

    /// Whether there is a vote in the slot, and its ballot is this one.
    pub fn is_at(&self, ballot: Ballot) -> bool
        ensures { result ≡ votes_at ballot self.now }
    {
        match self.vote() {
            None => false,
            Some(vote) => vote.ballot().is_same(ballot),
        }
    }

    /// Gives up the entry of the vote, if one was heard. It takes no memory.
    pub fn give_up(&mut self) -> Option<Entry>
        ensures { option_map owned_entry result ≡ option_map (λ (v : VoteValue). v.entry) self.old }
    {
        match self.vote.take() {
            None => None,
            Some(vote) => {
                let (_, entry) = Box::into_inner(vote).into_parts();
                Some(entry)
            }
        }
    }
}
