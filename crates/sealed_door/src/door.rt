//! The door.

ghost use Rattle.std.specs.Prelude.{◌≡◌, [], IfOk, IfSome, IfNone};
ghost use Rattle.seals.specs.Opening.{IsPart};
ghost use Rattle.wire.specs.Doors.{BringsAlike, BringsOnly};
ghost use Rattle.seals.specs.Parts.{IsSealedAs};
ghost use Rattle.sealed_door.specs.Admitting.{AdmitsAlone, AdmitsPart, AdmitsSealed, BringsSealed, IsNamed, KeepsDoor, reason_of, sends_sealed};

use crate::naming::is_from_to;
use crate::sending::send_parts;
use ballots::Member;
use pace::Incoming;
use seals::{Gathering, Keys, Label, MOST_DATAGRAM, Piece, SealFault, open};
use std::alloc::{AllocError, Global};
use std::net::SocketAddr;
use wire::{Address, Brought, Door, Reason, Socket, comes_from, has_mark, place_of};

/// Whose station it is, the keys of the circuit, where its stations listen, in order of members from 1, and the packets of which some
/// parts are there.
#[derive(Drop)]
pub struct SealedDoor {
    own: Member,
    keys: Keys,
    stations: Vec<Address>,
    gathering: Gathering,
    // The room for a datagram that goes out.
    room: Vec<u8>,
}

/// The packet that a piece is by itself, where it was sealed so.
fn alone(alloc: Global, keys: &Keys, piece: &Piece<'_>) -> Result<Option<Vec<u8>>, AllocError>
    ensures sealed { IfOk result (λ o. IfSome o (λ packet. IsSealedAs keys.now piece.now.place piece.now.label packet.items)) }
    ensures only { IfOk result (λ o. IfNone o (¬ IsSealedAs keys.now piece.now.place piece.now.label piece.now.part.now)) }
{
    match keys.at(piece.place) {
        Some(key) if piece.label.is_of(key, piece.part) => Ok(Some(Vec::from_slice(
            alloc, piece.part,
        )?)),
        _ => Ok(None),
    }
}

/// What is the matter with what is not opened.
fn reason_of(fault: SealFault) -> Reason
    ensures { result ≡ reason_of fault }
{
    match fault {
        SealFault::BadTag => Reason::OtherKey,
        _ => Reason::NoPart,
    }
}

/// A packet of this member for another, where it names both.
fn named(packet: Vec<u8>, from: Member, to: Member) -> Brought
    ensures { IsNamed from to packet.items result }
{
    if is_from_to(&packet, from, to) {
        return Brought::Packet(Incoming {
            sender: from,
            bytes: packet,
        });
    }
    Brought::Refused(Reason::NoPart)
}

impl SealedDoor {
    /// The door of this member's station.
    pub fn new(
        alloc: Global,
        own: Member,
        keys: Keys,
        stations: Vec<Address>,
    ) -> Result<SealedDoor, AllocError>
        ensures own { IfOk result (λ d. d.own ≡ own) }
        ensures keys { IfOk result (λ d. d.keys ≡ keys) }
        ensures stations { IfOk result (λ d. d.stations ≡ stations) }
        ensures gathering { IfOk result (λ d. d.gathering ≡ []) }
    {
        let room = Vec::with_capacity(alloc, MOST_DATAGRAM)?;
        Ok(SealedDoor {
            own,
            keys,
            stations,
            gathering: Gathering::new(alloc),
            room,
        })
    }

    /// What a piece brings whose packet has this part alone.
    fn admit_alone(&self, alloc: Global, piece: &Piece<'_>) -> Brought
        ensures { AdmitsAlone self.now.keys self.now.own piece.now result }
    {
        match alone(alloc, &self.keys, piece) {
            Ok(Some(packet)) => named(packet, piece.label.from(), self.own),
            Ok(None) => Brought::Refused(Reason::NoPart),
            Err(_) => Brought::Lost,
        }
    }

    /// What a piece brings whose packet has several parts.
    fn admit_part(&mut self, alloc: Global, piece: &Piece<'_>) -> Brought
        requires { IsPart piece.now.label piece.now.index piece.now.part.now }
        ensures admits { AdmitsPart self.old.keys self.old.own piece.now self.old.gathering self.new.gathering result }
        ensures keeps { KeepsDoor self.old self.new }
    {
        match self.gathering.push(alloc, &self.keys, piece) {
            Ok(Some(packet)) => named(packet, piece.label.from(), self.own),
            Ok(None) => Brought::Part,
            Err(_) => Brought::Lost,
        }
    }
}

impl Door for SealedDoor {
    ghost brings = { BringsSealed };

    ghost sends = { sends_sealed };

    fn stations(&self) -> &Vec<Address>
        ensures { result.now ≡ self.now.stations }
    {
        &self.stations
    }

    fn admit(&mut self, alloc: Global, sender: SocketAddr, bytes: &[u8]) -> Brought
        ensures admits { AdmitsSealed self.old self.new sender bytes.now result }
        ensures brings { BringsOnly (BringsSealed self.new sender bytes.now) result }
        ensures alike { BringsAlike (BringsSealed self.old) (BringsSealed self.new) }
        ensures keeps { KeepsDoor self.old self.new }
    {
        if place_of(&self.stations, sender).is_none() {
            return Brought::Refused(Reason::Stranger);
        }
        if !has_mark(bytes, b'S') {
            return Brought::Refused(Reason::NotSealed);
        }
        let piece = match open(&self.keys, self.own, bytes) {
            Ok(piece) => piece,
            Err(fault) => return Brought::Refused(reason_of(fault)),
        };
        if !comes_from(&self.stations, piece.label.from(), sender) {
            return Brought::Refused(Reason::Elsewhere);
        }
        if piece.label.count() == 1 {
            return self.admit_alone(alloc, &piece);
        }
        self.admit_part(alloc, &piece)
    }

    fn send<S: Socket>(&mut self, socket: &S, to: Member, bytes: &[u8]) -> bool
        ensures sends { sends_sealed self.old (S.given socket.now) to bytes.now result }
        ensures alike { BringsAlike (BringsSealed self.old) (BringsSealed self.new) }
        ensures keeps { KeepsDoor self.old self.new }
    {
        let Some(address) = self.stations.get(usize::from(to.get()) - 1) else {
            return false;
        };
        let Some(label) = Label::new(&self.keys.first, self.own, to, bytes) else {
            return false;
        };
        let sealing = (&self.keys.first, &label, bytes);
        send_parts(socket, address, sealing, &mut self.room)
    }
}
