//! Packets, owned and lent.

ghost use Rattle.std.specs.Prelude.{◌≡◌, ◌↔◌, ◌==◌, IsSome, IfSome, IfOk, IsOk, IsTrue, false};
ghost use Rattle.tape_frames.specs.Entries.{version_of};
ghost use Rattle.protocol.specs.Fitting.{BodyFits};
ghost use Rattle.packets.specs.Bodies.{said, has_tape};
ghost use Rattle.packets.specs.Rules.{packet_with, keeps_rules};

use crate::body::{Body, BodyRef, may_send};
use ballots::{Ballot, Member, Number};
use std::alloc::{AllocError, Global};
use std::marker::Model;
use tape_frames::Version;

/// Who says something to whom, and on which circuit: that is any number.
#[derive(Clone, Copy)]
pub struct Route {
    pub circuit: u16,
    pub from: Member,
    pub to: Member,
}

/// A packet whose entry is lent. Clauses see the protocol's packet.
///
/// Its sender and its addressee are two members. The ballot of a Prepare or an Accept is its sender's,
/// and that of a Promise or a Nack its addressee's. A reported vote is below the ballot, and the promise
/// of a Nack above it.
#[derive(Drop)]
pub struct PacketRef<'a> {
    route: Route,
    number: Number,
    ballot: Ballot,
    body: BodyRef<'a>,
}

impl<'a> Model for PacketRef<'a> {
    ghost use Rattle.std.specs.Prelude.{IsTrue};
    ghost use Rattle.protocol.specs.Packets.{Packet as PacketValue};
    ghost use Rattle.packets.specs.Bodies.{said};
    ghost use Rattle.packets.specs.Rules.{packet_with, keeps_rules};

    ghost Value = { PacketValue };

    ghost view = { λ p. packet_with p.route p.number p.ballot (said p.body) };

    ghost invariant = { λ p. IsTrue (keeps_rules (packet_with p.route p.number p.ballot (said p.body))) };
}

/// A packet with frames of its own. It keeps the same rules.
#[derive(Drop)]
pub struct Packet {
    route: Route,
    number: Number,
    ballot: Ballot,
    body: Body,
}

impl Model for Packet {
    ghost use Rattle.std.specs.Prelude.{IsTrue};
    ghost use Rattle.protocol.specs.Packets.{Packet as PacketValue};
    ghost use Rattle.packets.specs.Bodies.{told};
    ghost use Rattle.packets.specs.Rules.{packet_with, keeps_rules};

    ghost Value = { PacketValue };

    ghost view = { λ p. packet_with p.route p.number p.ballot (told p.body) };

    ghost invariant = { λ p. IsTrue (keeps_rules (packet_with p.route p.number p.ballot (told p.body))) };
}

/// Whether they are one member.
fn is_one_member(from: Member, to: Member) -> bool
    ensures { result ≡ (from == to) }
{
    from.get() == to.get()
}

impl<'a> PacketRef<'a> {
    /// The packet of these fields; `None` where they break a rule.
    pub fn new(
        route: Route,
        number: Number,
        ballot: Ballot,
        body: BodyRef<'a>,
    ) -> Option<PacketRef<'a>>
        ensures some { IsSome result ↔ IsTrue (keeps_rules (packet_with route number ballot (said body.entry))) }
        ensures value { IfSome result (λ p. p ≡ packet_with route number ballot (said body.entry)) }
    {
        if is_one_member(route.from, route.to) {
            return None;
        }
        if !may_send(body.kind(), ballot.owner(), route.from, route.to) || !body.may_say(ballot) {
            return None;
        }
        Some(PacketRef {
            route,
            number,
            ballot,
            body,
        })
    }

    /// The circuit that it belongs to.
    pub fn circuit(&self) -> u16
        ensures { result ≡ self.now.circuit }
    {
        self.route.circuit
    }

    /// The member that sends it.
    pub fn from(&self) -> Member
        ensures { result ≡ self.now.from }
    {
        self.route.from
    }

    /// The member that it is sent to.
    pub fn to(&self) -> Member
        ensures { result ≡ self.now.to }
    {
        self.route.to
    }

    /// The number that it is about.
    pub fn number(&self) -> Number
        ensures { result ≡ self.now.number }
    {
        self.number
    }

    /// Its ballot.
    pub fn ballot(&self) -> Ballot
        ensures { result ≡ self.now.ballot }
    {
        self.ballot
    }

    /// What it says.
    pub fn body(&self) -> &BodyRef<'a>
        ensures body { said result.now ≡ self.now.body }
        ensures rules { IsTrue (keeps_rules self.now) }
    {
        &self.body
    }

    /// Whether the version has a spelling for it: it has one for the entry that the packet carries, if it carries any.
    pub fn fits(&self, version: Version) -> bool
        ensures { IsTrue result ↔ BodyFits (version_of version) self.now.body }
    {
        self.body.fits(version)
    }

    /// The same packet, lent once more.
    pub fn lend(&self) -> PacketRef<'a>
        ensures { result ≡ self.now }
    {
        let body = self.body.lend();
        PacketRef {
            route: self.route,
            number: self.number,
            ballot: self.ballot,
            body,
        }
    }

    /// An equal packet with frames of its own; it takes no memory where there is no tape.
    pub fn copy(&self, alloc: Global) -> Result<Packet, AllocError>
        ensures same { IfOk result (λ p. p ≡ self.now) }
        ensures no_memory { has_tape self.now.body ≡ false → IsOk result }
    {
        let body = self.body.copy(alloc)?;
        Ok(Packet {
            route: self.route,
            number: self.number,
            ballot: self.ballot,
            body,
        })
    }
}

impl Packet {
    /// The same packet, its entry lent.
    pub fn lend(&self) -> PacketRef<'_>
        ensures { result ≡ self.now }
    {
        PacketRef {
            route: self.route,
            number: self.number,
            ballot: self.ballot,
            body: self.body.lend(),
        }
    }
}
