//! What is decided about each datagram that comes: whether it brings the station a packet.

ghost use Rattle.wire.specs.Doors.{BringsAlike, BringsOnly};

use crate::address::Address;
use crate::reason::Reason;
use crate::socket::Socket;
use ballots::Member;
use pace::Incoming;
use std::alloc::Global;
use std::net::SocketAddr;

/// What a datagram brings.
#[derive(Drop)]
pub enum Brought {
    /// A packet, of this member.
    Packet(Incoming),
    /// A part of a packet, of which others are missing.
    Part,
    /// Nothing: there is no memory for it.
    Lost,
    /// Nothing, for this reason.
    Refused(Reason),
}

/// Which datagrams bring a station packets, and as which datagrams its own packets go out.
pub trait Door: Drop {
    ghost use Rattle.std.specs.Prelude.{ℕ, List, Bool};
    ghost use Rattle.std.specs.declared.net.socket_addr.SocketAddr.{SocketAddr};
    ghost use Rattle.pace.specs.declared.share.Incoming.{Incoming};
    ghost use Rattle.wire.specs.declared.address.Address.{Address};

    // A datagram of this sender, with these bytes, brings this packet.
    ghost brings: { Self → SocketAddr → List ℕ → Incoming → Type 0 };

    // A packet of these bytes is sent to this member, by what the socket is given, and it is answered whether the network took all of it.
    ghost sends: { Self → (Address → List ℕ → Bool → Type 0) → ℕ → List ℕ → Bool → Type 0 };

    /// Where the stations of the circuit listen, in order of members from 1.
    fn stations(&self) -> &Vec<Address>;

    /// What a datagram of this sender brings.
    fn admit(&mut self, alloc: Global, sender: SocketAddr, bytes: &[u8]) -> Brought
        ensures brings { BringsOnly (brings self.new sender bytes.now) result }
        ensures alike { BringsAlike (brings self.old) (brings self.new) };

    /// Sends a packet to a member, and answers whether the network took all of it.
    fn send<S: Socket>(&mut self, socket: &S, to: Member, bytes: &[u8]) -> bool
        ensures sends { sends self.old (S.given socket.now) to bytes.now result }
        ensures alike { BringsAlike (brings self.old) (brings self.new) };
}
