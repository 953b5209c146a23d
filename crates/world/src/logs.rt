//! What a world keeps of its members' offers and releases.

ghost use Rattle.std.specs.Prelude.{◌≡◌, Ok, Err, MatchResult};
ghost use Rattle.tape_frames.specs.Entries.{owned_entry};

use crate::slugs::Slugs;
use line_check::{SetFault, Slug};
use std::marker::Model;
use tape_frames::Entry;

/// What a member was offered for a number, where the offer was done, or the member's store or want of
/// memory in the member ended it. Clauses see the protocol's offer.
#[derive(Drop)]
pub struct OfferLog {
    member: u8,
    number: u32,
    entry: Entry,
}

impl Model for OfferLog {
    ghost use Rattle.protocol.specs.Circuit.{Offer};
    ghost use Rattle.tape_frames.specs.Entries.{owned_entry};

    ghost Value = { Offer };

    ghost view = { λ o. record { member = o.member; number = o.number; entry = owned_entry o.entry } };
}

impl OfferLog {
    pub(crate) fn new(member: u8, number: u32, entry: Entry) -> OfferLog
        ensures { result ≡ record { member = member; number = number; entry = owned_entry entry } }
    {
        OfferLog {
            member,
            number,
            entry,
        }
    }

    /// The member that was offered it.
    pub fn member(&self) -> u8
        ensures { result ≡ self.now.member }
    {
        self.member
    }

    /// The number that it was offered for.
    pub fn number(&self) -> u32
        ensures { result ≡ self.now.number }
    {
        self.number
    }

    /// The tape, or that the number is withdrawn.
    pub fn entry(&self) -> &Entry
        ensures { owned_entry result.now ≡ self.now.entry }
    {
        &self.entry
    }
}

/// What a member released for a number, and what the member's code table and widths made of it.
/// Clauses see the protocol's release.
#[derive(Drop)]
pub struct ReleaseLog {
    member: u8,
    number: u32,
    entry: Entry,
    set: Result<Slugs, SetFault>,
}

impl Model for ReleaseLog {
    ghost use Rattle.std.specs.Prelude.{List};
    ghost use Rattle.protocol.specs.Circuit.{Release};
    ghost use Rattle.tape_frames.specs.Entries.{owned_entry};
    ghost use Rattle.line_check.specs.declared.slug.Slug.{Slug as SlugValue};
    ghost use Rattle.line_check.specs.declared.fault.SetFault.{SetFault as FaultValue};

    ghost Value = { Release (List SlugValue) FaultValue };

    ghost view = { λ r. record { member = r.member; number = r.number; entry = owned_entry r.entry; set = r.set } };
}

impl ReleaseLog {
    ghost use Rattle.station.specs.Readiness.{slugs_of};

    pub(crate) fn new(
        member: u8,
        number: u32,
        entry: Entry,
        set: Result<Vec<Slug>, SetFault>,
    ) -> ReleaseLog
        ensures { result ≡ record { member = member; number = number; entry = owned_entry entry; set = slugs_of set } }
    {
        let set = match set {
            Ok(slugs) => Ok(Slugs::new(slugs)),
            Err(fault) => Err(fault),
        };
        ReleaseLog {
            member,
            number,
            entry,
            set,
        }
    }

    /// The member that released it.
    pub fn member(&self) -> u8
        ensures { result ≡ self.now.member }
    {
        self.member
    }

    /// The number that it was released for.
    pub fn number(&self) -> u32
        ensures { result ≡ self.now.number }
    {
        self.number
    }

    /// The tape, or that the number is withdrawn.
    pub fn entry(&self) -> &Entry
        ensures { owned_entry result.now ≡ self.now.entry }
    {
        &self.entry
    }

    /// The slugs of a tape, in order, or why the member cannot set it; a withdrawal has none.
    pub fn set(&self) -> Result<&[Slug], SetFault>
        ensures { MatchResult result (λ slugs. self.now.set ≡ Ok slugs.now) (λ fault. self.now.set ≡ Err fault) }
    {
        match &self.set {
            Ok(slugs) => Ok(slugs.as_slice()),
            Err(fault) => Err(*fault),
        }
    }
}
