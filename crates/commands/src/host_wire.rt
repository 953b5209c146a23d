//! The wire of the machine that the program runs on.

ghost use Rattle.std.specs.Prelude.{IfOk};
ghost use Rattle.commands.specs.Wires.{IsHostWire, host_passed};

use crate::host_door::{HostDoor, door_of};
use ballots::Member;
use seals::Keys;
use std::io;
use std::net::UdpSocket;
use wire::{Address, Arrival, GuardedWire, Strangers, Wire};

/// A UDP socket of this machine, behind the door of a station without a key, or of one with keys.
#[derive(Drop)]
pub struct HostWire<'a> {
    wire: GuardedWire<'a, HostRuntime, HostDoor, UdpSocket>,
}

impl<'a> HostWire<'a> {
    /// A socket at the own address, that sends to these stations, in order of members from 1, and takes what comes of them alone: sealed
    /// under these keys where there are such, and else as it is.
    pub(crate) fn bind(
        rt: &'a HostRuntime,
        own: &Address,
        stations: Vec<Address>,
        keys: Option<Keys>,
    ) -> io::Result<HostWire<'a>>
        ensures { IfOk result (λ wire. IsHostWire wire own.now stations.items keys) }
    {
        let door = door_of(own, stations, keys)?;
        let wire = GuardedWire::behind(rt, rt, own, door)?;
        Ok(HostWire { wire })
    }
}

impl<'a> Wire for HostWire<'a> {
    ghost passed = { host_passed };

    fn fetch(&mut self) -> bool {
        self.wire.fetch()
    }

    fn receive(&mut self) -> Arrival {
        self.wire.receive()
    }

    fn send(&mut self, to: Member, bytes: &[u8]) -> bool {
        self.wire.send(to, bytes)
    }

    fn now(&mut self) -> u64 {
        self.wire.now()
    }

    fn strangers(&mut self, now: u64) -> Option<Strangers> {
        self.wire.strangers(now)
    }

    fn lost(&mut self, now: u64) -> Option<u64> {
        self.wire.lost(now)
    }
}
