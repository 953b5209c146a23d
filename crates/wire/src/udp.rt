//! Datagrams over UDP as they are, from and to the stations of a circuit alone.

ghost use Rattle.std.specs.Prelude.{IfOk};
ghost use Rattle.wire.specs.Guarded.{IsFreshBehind};
ghost use Rattle.wire.specs.Plain.{plain_door};

use crate::address::Address;
use crate::guarded::GuardedWire;
use crate::plain::PlainDoor;
use std::io;
use std::net::{Net, UdpSocket};
use std::rt::Clock;

/// A UDP socket of a station without a key.
pub type UdpWire<'a, C> = GuardedWire<'a, C, PlainDoor, UdpSocket>;

impl<'a, C: Clock> GuardedWire<'a, C, PlainDoor, UdpSocket> {
    /// A socket at the own address, that sends to these stations, in order of members from 1, and takes datagrams of the others alone.
    /// The clock starts now. Where there is no memory for what waits, it fails as the socket does.
    pub fn bind<R: Net>(
        net: &R,
        clock: &'a C,
        own: &Address,
        stations: Vec<Address>,
    ) -> io::Result<UdpWire<'a, C>>
        ensures { IfOk result (IsFreshBehind (plain_door own.now.member stations)) }
    {
        let door = PlainDoor::new(own.member, stations);
        GuardedWire::behind(net, clock, own, door)
    }
}
