//! Where a station listens, and whether a datagram comes from there.

ghost use Rattle.std.specs.Prelude.{◌↔◌, IsTrue, MatchOption};
ghost use Rattle.std.specs.List.{All};
ghost use Rattle.wire.specs.Addresses.{ComesFrom, IsAt, IsFirstAt};

use ballots::Member;
use std::net::{IpAddr, SocketAddr};

/// The address of a member's station.
#[derive(Clone, Copy, PartialEq, Eq)]
pub struct Address {
    pub member: Member,
    /// The four parts of its IP address.
    pub ip: [u8; 4],
    /// Its UDP port, 1 to 65,535.
    pub port: u16,
}

/// Whether a datagram of this sender comes from this address: its IP address, and its port.
fn is_at(address: &Address, sender: SocketAddr) -> bool
    ensures { IsTrue result ↔ IsAt address.now sender }
{
    match sender.ip() {
        IpAddr::V4(ip) => ip.octets() == address.ip && sender.port() == address.port,
        IpAddr::V6(_) => false,
    }
}

/// The place of the first of these addresses from which it comes; `None` where it comes from none.
pub fn place_of(stations: &[Address], sender: SocketAddr) -> Option<usize>
    ensures { MatchOption result (All (λ a. ¬ IsAt a sender) stations.now) (λ place. IsFirstAt stations.now sender place) }
{
    for (place, address) in stations.iter().enumerate() {
        if is_at(address, sender) {
            return Some(place);
        }
    }
    None
}

/// Whether a datagram of this sender comes from where this member listens.
pub fn comes_from(stations: &[Address], member: Member, sender: SocketAddr) -> bool
    ensures { IsTrue result ↔ ComesFrom stations.now member sender }
{
    match stations.get(usize::from(member.get()) - 1) {
        Some(address) => is_at(address, sender),
        None => false,
    }
}
