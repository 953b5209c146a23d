//! The door of a station on the machine that the program runs on: plain, or sealed.

ghost use Rattle.std.specs.Prelude.{IfOk};
ghost use Rattle.commands.specs.Wires.{BringsAt, IsHostDoor, sends_at};

use ballots::Member;
use sealed_door::SealedDoor;
use seals::Keys;
use std::alloc::{AllocError, Global};
use std::net::SocketAddr;
use wire::{Address, Brought, Door, PlainDoor, Socket};

/// The door of a station without a key, or of one with keys.
#[derive(Drop)]
pub enum HostDoor {
    Plain(PlainDoor),
    Sealed(SealedDoor),
}

/// The door of the member of this address, of these stations, in order of members from 1: sealed under these keys where there are such, and
/// else plain.
pub(crate) fn door_of(
    own: &Address,
    stations: Vec<Address>,
    keys: Option<Keys>,
) -> Result<HostDoor, AllocError>
    ensures { IfOk result (λ door. IsHostDoor door own.now stations.items keys) }
{
    let alloc = *stations.allocator();
    match keys {
        None => Ok(HostDoor::Plain(PlainDoor::new(own.member, stations))),
        Some(keys) => Ok(HostDoor::Sealed(SealedDoor::new(alloc, own.member, keys, stations)?)),
    }
}

impl Door for HostDoor {
    ghost brings = { BringsAt };

    ghost sends = { sends_at };

    fn stations(&self) -> &Vec<Address> {
        match self {
            HostDoor::Plain(door) => door.stations(),
            HostDoor::Sealed(door) => door.stations(),
        }
    }

    fn admit(&mut self, alloc: Global, sender: SocketAddr, bytes: &[u8]) -> Brought {
        match self {
            HostDoor::Plain(door) => door.admit(alloc, sender, bytes),
            HostDoor::Sealed(door) => door.admit(alloc, sender, bytes),
        }
    }

    fn send<S: Socket>(&mut self, socket: &S, to: Member, bytes: &[u8]) -> bool {
        match self {
            HostDoor::Plain(door) => door.send(socket, to, bytes),
            HostDoor::Sealed(door) => door.send(socket, to, bytes),
        }
    }
}
