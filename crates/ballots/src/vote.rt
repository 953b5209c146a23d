//! An entry that was voted for, and at which ballot.

ghost use Rattle.std.specs.Prelude.{◌≡◌, IfOk, IsOk};
ghost use Rattle.protocol.specs.Ballots.{IsBallot};
ghost use Rattle.protocol.specs.Entries.{Void};
ghost use Rattle.protocol.specs.Versions.{fits};
ghost use Rattle.tape_frames.specs.Entries.{owned_entry, lent_entry, version_of};

use crate::ballot::Ballot;
use std::alloc::{AllocError, Global};
use std::marker::Model;
use tape_frames::{Entry, EntryRef, Version};

/// A vote of an acceptor. Clauses see the pair of ballot and entry.
#[derive(Drop)]
pub struct Vote {
    ballot: Ballot,
    entry: Entry,
}

impl Model for Vote {
    ghost use Rattle.protocol.specs.Rows.{Vote as VoteValue};
    ghost use Rattle.tape_frames.specs.Entries.{owned_entry};

    ghost Value = { VoteValue };

    ghost view = { λ v. record { ballot = v.ballot; entry = owned_entry v.entry } };
}

/// A vote whose entry is lent.
#[derive(Drop)]
pub struct VoteRef<'a> {
    ballot: Ballot,
    entry: EntryRef<'a>,
}

impl<'a> Model for VoteRef<'a> {
    ghost use Rattle.protocol.specs.Rows.{Vote as VoteValue};
    ghost use Rattle.tape_frames.specs.Entries.{lent_entry};

    ghost Value = { VoteValue };

    ghost view = { λ v. record { ballot = v.ballot; entry = lent_entry v.entry } };
}

impl Vote {
    /// A vote for the entry at the ballot.
    pub fn new(ballot: Ballot, entry: Entry) -> Vote
        ensures { result ≡ record { ballot = ballot; entry = owned_entry entry } }
    {
        Vote { ballot, entry }
    }

    /// The ballot at which it was cast.
    pub fn ballot(&self) -> Ballot
        ensures { result ≡ self.now.ballot }
    {
        self.lend().ballot()
    }

    /// The entry that was voted for, lent.
    pub fn entry(&self) -> EntryRef<'_>
        ensures { lent_entry result ≡ self.now.entry }
    {
        self.lend().entry()
    }

    /// The two parts, given up.
    pub fn into_parts(self) -> (Ballot, Entry)
        ensures ballot { result.0 ≡ self.ballot }
        ensures entry { owned_entry result.1 ≡ self.entry }
    {
        (self.ballot, self.entry)
    }

    /// The same vote, its entry lent.
    pub fn lend(&self) -> VoteRef<'_>
        ensures { result ≡ self.now }
    {
        VoteRef::new(self.ballot, self.entry.lend())
    }

    /// An equal vote with frames of its own; it takes no memory where it is for a withdrawal.
    pub fn copy(&self, alloc: Global) -> Result<Vote, AllocError>
        ensures same { IfOk result (λ v. v ≡ self.now) }
        ensures no_memory { self.now.entry ≡ Void → IsOk result }
    {
        self.lend().copy(alloc)
    }
}

impl<'a> VoteRef<'a> {
    /// A vote for the lent entry at the ballot.
    pub fn new(ballot: Ballot, entry: EntryRef<'a>) -> VoteRef<'a>
        ensures { result ≡ record { ballot = ballot; entry = lent_entry entry.entry } }
    {
        VoteRef { ballot, entry }
    }

    /// The ballot at which it was cast.
    pub fn ballot(&self) -> Ballot
        ensures { result ≡ self.now.ballot }
    {
        self.ballot
    }

    /// The entry that was voted for, lent once more.
    pub fn entry(&self) -> EntryRef<'a>
        ensures { lent_entry result ≡ self.now.entry }
    {
        self.entry.lend()
    }

    /// Whether the version has a spelling and a row for the entry that was voted for.
    pub fn fits(&self, version: Version) -> bool
        ensures { result ≡ fits (version_of version) self.now.entry }
    {
        self.entry.fits(version)
    }

    /// The same vote, lent once more.
    pub fn lend(&self) -> VoteRef<'a>
        ensures { result ≡ self.now }
    {
        VoteRef {
            ballot: self.ballot,
            entry: self.entry.lend(),
        }
    }

    /// An equal vote with frames of its own; it takes no memory where it is for a withdrawal.
    pub fn copy(&self, alloc: Global) -> Result<Vote, AllocError>
        ensures same { IfOk result (λ v. v ≡ self.now) }
        ensures no_memory { self.now.entry ≡ Void → IsOk result }
    {
        let entry = self.entry.copy(alloc)?;
        Ok(Vote {
            ballot: self.ballot,
            entry,
        })
    }
}
