//! What a packet says: a body of one of five kinds.

ghost use Rattle.std.specs.Prelude.{◌≡◌, ◌↔◌, IfOk, IsOk, IsTrue, false};
ghost use Rattle.tape_frames.specs.Entries.{version_of};
ghost use Rattle.protocol.specs.Fitting.{BodyFits};
ghost use Rattle.protocol.specs.Packets.{Promise};
ghost use Rattle.packets.specs.Bodies.{said, told, has_tape};
ghost use Rattle.packets.specs.Rules.{kind_of, may_send, may_say};

use ballots::{Ballot, Member, Vote, VoteRef};
use std::alloc::{AllocError, Global};
use tape_frames::{Entry, EntryRef, Version};

/// The kind of a packet.
#[derive(Clone, Copy, PartialEq, Eq)]
pub enum PacketKind {
    /// A request to promise.
    Prepare,
    /// A promise.
    Promise,
    /// A request to vote.
    Accept,
    /// The news of a vote.
    Accepted,
    /// A refusal.
    Nack,
}

/// What a packet says, its entries lent.
#[derive(Drop)]
pub enum BodyRef<'a> {
    /// A request to promise.
    Prepare,
    /// The promise, with the highest vote below the ballot, if any.
    Promise { report: Option<VoteRef<'a>> },
    /// A request to vote for the entry.
    Accept { entry: EntryRef<'a> },
    /// The news of a vote for the entry.
    Accepted { entry: EntryRef<'a> },
    /// A refusal, with the higher promise that stands in the way.
    Nack { promised: Ballot },
}

/// What a packet says, with frames of its own.
#[derive(Drop)]
pub enum Body {
    /// A request to promise.
    Prepare,
    /// The promise, with the highest vote below the ballot, if any.
    Promise { report: Option<Vote> },
    /// A request to vote for the entry.
    Accept { entry: Entry },
    /// The news of a vote for the entry.
    Accepted { entry: Entry },
    /// A refusal, with the higher promise that stands in the way.
    Nack { promised: Ballot },
}

/// Whether the ballot's owner is the member that a packet of this kind asks for: its sender for a request, its addressee for a
/// Promise or a Nack, any for an Accepted.
pub fn may_send(kind: PacketKind, owner: Member, from: Member, to: Member) -> bool
    ensures { result ≡ may_send kind owner from to }
{
    match kind {
        PacketKind::Prepare | PacketKind::Accept => owner.get() == from.get(),
        PacketKind::Promise | PacketKind::Nack => owner.get() == to.get(),
        PacketKind::Accepted => true,
    }
}

/// The promise with a copy of this report; it takes no memory where no tape is reported.
fn copy_promise(alloc: Global, report: &Option<VoteRef<'_>>) -> Result<Body, AllocError>
    ensures same { IfOk result (λ b. told b ≡ Promise report.now) }
    ensures no_memory { has_tape (Promise report.now) ≡ false → IsOk result }
{
    match report {
        None => Ok(Body::Promise { report: None }),
        Some(vote) => Ok(Body::Promise {
            report: Some(vote.copy(alloc)?),
        }),
    }
}

impl<'a> BodyRef<'a> {
    /// The kind of packet that says this.
    pub fn kind(&self) -> PacketKind
        ensures { result ≡ kind_of (said self.now) }
    {
        match self {
            BodyRef::Prepare => PacketKind::Prepare,
            BodyRef::Promise { .. } => PacketKind::Promise,
            BodyRef::Accept { .. } => PacketKind::Accept,
            BodyRef::Accepted { .. } => PacketKind::Accepted,
            BodyRef::Nack { .. } => PacketKind::Nack,
        }
    }

    /// Whether a reported vote is below the ballot, and a refusing promise above it.
    pub(crate) fn may_say(&self, ballot: Ballot) -> bool
        ensures { result ≡ may_say (said self.now) ballot }
    {
        match self {
            BodyRef::Promise { report: Some(vote) } => vote.ballot().is_below(ballot),
            BodyRef::Nack { promised } => ballot.is_below(*promised),
            _ => true,
        }
    }

    /// Whether the version has a spelling for the entry in it, if there is one.
    pub(crate) fn fits(&self, version: Version) -> bool
        ensures { IsTrue result ↔ BodyFits (version_of version) (said self.now) }
    {
        match self {
            BodyRef::Promise { report: Some(vote) } => vote.fits(version),
            BodyRef::Accept { entry } | BodyRef::Accepted { entry } => entry.fits(version),
            _ => true,
        }
    }

    /// The same, lent once more.
    pub fn lend(&self) -> BodyRef<'a>
        ensures { said result ≡ said self.now }
    {
        match self {
            BodyRef::Prepare => BodyRef::Prepare,
            BodyRef::Promise { report: None } => BodyRef::Promise { report: None },
            BodyRef::Promise { report: Some(vote) } => BodyRef::Promise {
                report: Some(vote.lend()),
            },
            BodyRef::Accept { entry } => BodyRef::Accept {
                entry: entry.lend(),
            },
            BodyRef::Accepted { entry } => BodyRef::Accepted {
                entry: entry.lend(),
            },
            BodyRef::Nack { promised } => BodyRef::Nack {
                promised: *promised,
            },
        }
    }

    /// The same with frames of its own; it takes no memory where there is no tape.
    pub fn copy(&self, alloc: Global) -> Result<Body, AllocError>
        ensures same { IfOk result (λ b. told b ≡ said self.now) }
        ensures no_memory { has_tape (said self.now) ≡ false → IsOk result }
    {
        let body = match self {
            BodyRef::Prepare => Body::Prepare,
            BodyRef::Promise { report } => copy_promise(alloc, report)?,
            BodyRef::Accept { entry } => Body::Accept {
                entry: entry.copy(alloc)?,
            },
            BodyRef::Accepted { entry } => Body::Accepted {
                entry: entry.copy(alloc)?,
            },
            BodyRef::Nack { promised } => Body::Nack {
                promised: *promised,
            },
        };
        Ok(body)
    }
}

impl Body {
    /// The same, its entries lent.
    pub fn lend(&self) -> BodyRef<'_>
        ensures { said result ≡ told self.now }
    {
        match self {
            Body::Prepare => BodyRef::Prepare,
            Body::Promise { report: None } => BodyRef::Promise { report: None },
            Body::Promise { report: Some(vote) } => BodyRef::Promise {
                report: Some(vote.lend()),
            },
            Body::Accept { entry } => BodyRef::Accept {
                entry: entry.lend(),
            },
            Body::Accepted { entry } => BodyRef::Accepted {
                entry: entry.lend(),
            },
            Body::Nack { promised } => BodyRef::Nack {
                promised: *promised,
            },
        }
    }
}
