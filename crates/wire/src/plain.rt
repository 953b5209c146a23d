//! The door of a station without a key: the papers' datagrams, as they come.

ghost use Rattle.std.specs.Prelude.{◌≡◌, IfOk, IfErr, option_copied};
ghost use Rattle.wire.specs.Addresses.{address_of};
ghost use Rattle.wire.specs.Plain.{AdmitsPlain, brings_plain, IsAgainst, IsFrom, IsPacketOf, has_mark, names_another, plain_door, reason_against, SendsPlain, sends_plain};

use crate::address::{Address, place_of};
use crate::door::{Brought, Door};
use crate::reason::Reason;
use crate::socket::Socket;
use ballots::Member;
use pace::Incoming;
use std::alloc::Global;
use std::net::SocketAddr;

/// Whose station it is, and where all listen, in order of members from 1.
#[derive(Drop)]
pub struct PlainDoor {
    own: Member,
    stations: Vec<Address>,
}

/// Whether a datagram begins with a mark: T, and this letter.
pub fn has_mark(bytes: &[u8], letter: u8) -> bool
    ensures { result ≡ has_mark letter bytes.now }
{
    bytes.len() > 1 && bytes[0] == b'T' && bytes[1] == letter
}

/// Whether a datagram names another sender than this member, in its seventh byte: a packet, a recall or a roll call.
fn names_another(bytes: &[u8], member: Member) -> bool
    ensures { result ≡ names_another member bytes.now }
{
    let names = has_mark(bytes, b'N') || has_mark(bytes, b'R');
    names && bytes.len() > 6 && bytes[6] != member.get()
}

/// What stands against a datagram from where this member listens, if anything does.
fn reason_against(own: Member, member: Member, bytes: &[u8]) -> Option<Reason>
    ensures { result ≡ reason_against own member bytes.now }
{
    if member.get() == own.get() {
        return Some(Reason::OwnAddress);
    }
    if has_mark(bytes, b'S') {
        return Some(Reason::Sealed);
    }
    if names_another(bytes, member) {
        return Some(Reason::OtherSender);
    }
    None
}

/// The packet of these bytes, of this member, where there is memory for it.
fn packet_of(alloc: Global, sender: Member, bytes: &[u8]) -> Brought
    ensures { IsPacketOf sender bytes.now result }
{
    match Vec::from_slice(alloc, bytes) {
        Ok(bytes) => Brought::Packet(Incoming { sender, bytes }),
        Err(_) => Brought::Lost,
    }
}

/// The address of a member, of those of all members in order from 1.
fn address_of(stations: &[Address], member: Member) -> Option<&Address>
    ensures { option_copied result ≡ address_of stations.now member }
{
    stations.get(usize::from(member.get()) - 1)
}

impl PlainDoor {
    /// The door of this member's station.
    pub fn new(own: Member, stations: Vec<Address>) -> PlainDoor
        ensures { result ≡ plain_door own stations }
    {
        PlainDoor { own, stations }
    }

    /// The member whose datagram it is, or what stands against it.
    fn judge(&self, sender: SocketAddr, bytes: &[u8]) -> Result<Member, Reason>
        ensures from { IfOk result (λ member. IsFrom self.now.own self.now.stations.items sender member bytes.now) }
        ensures against { IfErr result (λ reason. IsAgainst self.now.own self.now.stations.items sender bytes.now reason) }
    {
        let Some(place) = place_of(&self.stations, sender) else {
            return Err(Reason::Stranger);
        };
        let member = self.stations[place].member;
        match reason_against(self.own, member, bytes) {
            Some(reason) => Err(reason),
            None => Ok(member),
        }
    }
}

impl Door for PlainDoor {
    ghost brings = { λ door. brings_plain door.own door.stations.items };

    ghost sends = { λ door. sends_plain door.stations.items };

    fn stations(&self) -> &Vec<Address>
        ensures { result.now ≡ self.now.stations }
    {
        &self.stations
    }

    fn admit(&mut self, alloc: Global, sender: SocketAddr, bytes: &[u8]) -> Brought
        ensures admits { AdmitsPlain self.old.own self.old.stations.items sender bytes.now result }
        ensures door { self.new ≡ self.old }
    {
        match self.judge(sender, bytes) {
            Ok(member) => packet_of(alloc, member, bytes),
            Err(reason) => Brought::Refused(reason),
        }
    }

    fn send<S: Socket>(&mut self, socket: &S, to: Member, bytes: &[u8]) -> bool
        ensures { SendsPlain self.old self.new (S.given socket.now) to bytes.now result }
    {
        match address_of(&self.stations, to) {
            Some(address) => socket.send(address, bytes),
            None => false,
        }
    }
}
