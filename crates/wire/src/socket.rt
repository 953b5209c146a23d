//! A socket of datagrams, and that of the host.

ghost use Rattle.std.specs.Prelude.{◌≤◌, IfOk, length, take};
ghost use Rattle.wire.specs.Addresses.{IsAt};

use crate::address::Address;
use std::io;
use std::net::{IpAddr, Ipv4Addr, SocketAddr, UdpSocket};

/// A socket of datagrams.
pub trait Socket: Drop {
    ghost use Rattle.std.specs.Prelude.{ℕ, List, Bool};
    ghost use Rattle.std.specs.declared.net.socket_addr.SocketAddr.{SocketAddr};
    ghost use Rattle.wire.specs.declared.address.Address.{Address};

    // A datagram with these bytes came to it, of this sender.
    ghost came: { Self → SocketAddr → List ℕ → Type 0 };

    // It was given a datagram with these bytes for this address, and answered whether it took it.
    ghost given: { Self → Address → List ℕ → Bool → Type 0 };

    /// Waits for a datagram as long as it does for one, and takes it into the room, cut where it is longer: how long it is there, and its
    /// sender.
    fn receive_from(&self, room: &mut [u8]) -> io::Result<(usize, SocketAddr)>
        ensures { IfOk result (λ r. (r.0 ≤ length room.new) × came self.now r.1 (take r.0 room.new)) };

    /// Sends a datagram to a station, and answers whether it took it.
    fn send(&self, to: &Address, bytes: &[u8]) -> bool
        ensures { given self.now to.now bytes.now result };

    /// Has it wait for a datagram that does not lie there, as long as it does for one, or not at all.
    fn set_waits(&self, waits: bool) -> io::Result<()>;
}

/// The socket address of a station.
pub(crate) fn socket_address(address: &Address) -> SocketAddr
    ensures { IsAt address.now result }
{
    let [a, b, c, d] = address.ip;
    SocketAddr::new(IpAddr::V4(Ipv4Addr::new(a, b, c, d)), address.port)
}

/// A socket of the host, of which nothing is known.
impl Socket for UdpSocket {
    ghost came = { λ _ _ _. Unit {0} };

    ghost given = { λ _ _ _ _. Unit {0} };

    fn receive_from(&self, room: &mut [u8]) -> io::Result<(usize, SocketAddr)> {
        self.recv_from(room)
    }

    fn send(&self, to: &Address, bytes: &[u8]) -> bool {
        match self.send_to(bytes, socket_address(to)) {
            Ok(count) => count == bytes.len(),
            Err(_) => false,
        }
    }

    fn set_waits(&self, waits: bool) -> io::Result<()> {
        self.set_nonblocking(!waits)
    }
}
