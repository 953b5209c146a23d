//! The header of a packet, its first 17 bytes.

ghost use Rattle.std.specs.Prelude.{◌≡◌, ◌≤◌, ◌+◌, ◌==◌, length, OnOk, IfOk, true, false};
ghost use Rattle.tape_frames.specs.Entries.{version_of};
ghost use Rattle.packets.specs.Grammar.{number_of_version};
ghost use Rattle.packets.specs.Reading.{kind_of_byte, kind_at, u16_at, u32_at, member_at, members_at, ballot_at, header_at};
ghost use Rattle.packets.specs.Rules.{may_send};

use crate::body::{PacketKind, may_send};
use crate::fault::PacketFault;
use crate::packet::Route;
use ballots::{Ballot, Member, Number};
use tape_frames::Version;

/// The length of a header.
pub(crate) const HEADER_LEN: usize = 17;

/// What a header says.
#[derive(Clone, Copy)]
pub(crate) struct Header {
    pub kind: PacketKind,
    pub route: Route,
    pub number: Number,
    pub ballot: Ballot,
}

fn kind_of_byte(byte: u8) -> Option<PacketKind>
    ensures { result ≡ kind_of_byte byte }
{
    match byte {
        1 => Some(PacketKind::Prepare),
        2 => Some(PacketKind::Promise),
        3 => Some(PacketKind::Accept),
        4 => Some(PacketKind::Accepted),
        5 => Some(PacketKind::Nack),
        _ => None,
    }
}

/// The number of a version.
pub(crate) fn version_byte(version: Version) -> u8
    ensures { result ≡ number_of_version (version_of version) }
{
    match version {
        Version::One => 1,
        Version::Two => 2,
    }
}

#[tactic(auto, unfolding(crate::specs::Reading::kind_at))]
fn kind_of(bytes: &[u8], version: Version) -> Result<PacketKind, PacketFault>
    ensures exact { result ≡ kind_at (version_of version) bytes.now }
    ensures long { OnOk result (17 ≤ length bytes.now) }
{
    if bytes.len() < HEADER_LEN {
        return Err(PacketFault::Short);
    }
    if !(bytes[0] == b'T' && bytes[1] == b'N') {
        return Err(PacketFault::BadMark);
    }
    if bytes[2] != version_byte(version) {
        return Err(PacketFault::BadVersion);
    }
    match kind_of_byte(bytes[3]) {
        Some(kind) => Ok(kind),
        None => Err(PacketFault::BadKind),
    }
}

/// The number of two bytes at this place.
pub(crate) fn u16_of(bytes: &[u8], at: usize) -> u16
    requires { at + 2 ≤ length bytes.now }
    ensures { result ≡ u16_at bytes.now at }
{
    let (_, rest) = bytes.split_at(at);
    u16::from_be_bytes([rest[0], rest[1]])
}

fn u32_of(bytes: &[u8], at: usize) -> u32
    requires { at + 4 ≤ length bytes.now }
    ensures { result ≡ u32_at bytes.now at }
{
    let (_, rest) = bytes.split_at(at);
    u32::from_be_bytes([rest[0], rest[1], rest[2], rest[3]])
}

#[tactic(auto, unfolding(crate::specs::Reading::member_at))]
fn member_of(bytes: &[u8], at: usize) -> Result<Member, PacketFault>
    requires { at + 1 ≤ length bytes.now }
    ensures { result ≡ member_at bytes.now at }
{
    match Member::new(bytes[at]) {
        Some(member) => Ok(member),
        None => Err(PacketFault::BadMember),
    }
}

#[tactic(auto, unfolding(crate::specs::Reading::members_at))]
fn members_of(bytes: &[u8]) -> Result<(Member, Member), PacketFault>
    requires { 17 ≤ length bytes.now }
    ensures exact { result ≡ members_at bytes.now }
    ensures differ { IfOk result (λ m. (m.0 == m.1) ≡ false) }
{
    let from = member_of(bytes, 6)?;
    let to = member_of(bytes, 7)?;
    if from.get() == to.get() {
        return Err(PacketFault::BadMember);
    }
    Ok((from, to))
}

/// The round and the owner at this place, where they are a ballot.
#[tactic(auto, unfolding(crate::specs::Reading::ballot_at))]
pub(crate) fn ballot_of(bytes: &[u8], at: usize) -> Option<Ballot>
    requires { at + 5 ≤ length bytes.now }
    ensures { result ≡ ballot_at bytes.now at }
{
    let round = u32_of(bytes, at);
    let owner = Member::new(bytes[at + 4])?;
    Ballot::new(round, owner)
}

/// The header that the bytes begin with in this version, or their first fault.
#[tactic(auto, unfolding(crate::specs::Reading::header_at, crate::specs::Reading::kind_at, crate::specs::Reading::number_at))]
pub(crate) fn header_of(bytes: &[u8], version: Version) -> Result<Header, PacketFault>
    ensures exact { result ≡ header_at (version_of version) bytes.now }
    ensures long { OnOk result (17 ≤ length bytes.now) }
    ensures differ { IfOk result (λ h. (h.route.from == h.route.to) ≡ false) }
    ensures sender { IfOk result (λ h. may_send h.kind h.ballot.owner h.route.from h.route.to ≡ true) }
{
    let kind = kind_of(bytes, version)?;
    let (from, to) = members_of(bytes)?;
    let Some(number) = Number::new(u32_of(bytes, 8)) else {
        return Err(PacketFault::BadNumber);
    };
    let Some(ballot) = ballot_of(bytes, 12) else {
        return Err(PacketFault::BadBallot);
    };
    if !may_send(kind, ballot.owner(), from, to) {
        return Err(PacketFault::BadSender);
    }
    Ok(Header {
        kind,
        route: Route {
            circuit: u16_of(bytes, 4),
            from,
            to,
        },
        number,
        ballot,
    })
}
