//! The head of a datagram, read, and why a datagram is not opened.

ghost use Rattle.std.specs.Prelude.{◌≡◌, ◌≤◌, ◌<◌, ◌+◌, length, OnOk};
ghost use Rattle.seals.specs.Reading.{id_at, member_at, ends_at, has_part, head_at};

use crate::bytes::{TAG_LEN, first_bytes};
use crate::label::{Label, MOST_PACKET, ROOM, count_of};
use ballots::Member;

/// The length of a head.
pub(crate) const HEAD_LEN: usize = 24;

/// The first fault of a datagram, in the order in which they stand here.
#[derive(Clone, Copy, PartialEq, Eq)]
pub enum SealFault {
    /// It has less than a head, a byte and a tag.
    Short,
    /// It does not begin with `TS`.
    BadMark,
    /// The version is not 1.
    BadVersion,
    /// The sender or the addressee is no member, or they are one member.
    BadMember,
    /// It is for another member.
    NotForMe,
    /// The packet has no bytes or more than the longest, or it has no such part, or the part has another length.
    BadLength,
    /// The tag is none under a key of this station: it was sent under another key, or by a station of another configuration, or was
    /// changed on its way.
    BadTag,
}

/// A label, and which of its datagrams this is.
#[derive(Clone, Copy, PartialEq, Eq)]
pub(crate) struct Head {
    pub(crate) label: Label,
    pub(crate) index: u8,
}

/// The member at this place.
#[tactic(auto, unfolding(crate::specs::Reading::member_at))]
fn member_at(bytes: &[u8], at: usize) -> Result<Member, SealFault>
    requires { at < length bytes.now }
    ensures { result ≡ member_at bytes.now at }
{
    match Member::new(bytes[at]) {
        Some(member) => Ok(member),
        None => Err(SealFault::BadMember),
    }
}

/// The sender and the addressee, which is this station.
#[tactic(auto, unfolding(crate::specs::Reading::ends_at))]
fn ends_at(own: Member, bytes: &[u8]) -> Result<(Member, Member), SealFault>
    requires { 41 ≤ length bytes.now }
    ensures { result ≡ ends_at own bytes.now }
{
    let from = member_at(bytes, 3)?;
    let to = member_at(bytes, 4)?;
    if from.get() == to.get() {
        return Err(SealFault::BadMember);
    }
    if to.get() != own.get() {
        return Err(SealFault::NotForMe);
    }
    Ok((from, to))
}

/// The id.
fn id_at(bytes: &[u8]) -> [u8; TAG_LEN]
    requires { 41 ≤ length bytes.now }
    ensures { result ≡ id_at bytes.now }
{
    let (_, rest) = bytes.split_at(8);
    first_bytes(rest)
}

/// Whether a datagram of so many bytes has the part of this index of a packet of this length.
fn has_part(length: u16, index: u8, datagram: usize) -> bool
    ensures { result ≡ has_part length index datagram }
{
    if !(1 <= length && length as usize <= MOST_PACKET) {
        return false;
    }
    if index >= count_of(length) {
        return false;
    }
    let rest = length as usize - ROOM * index as usize;
    datagram == HEAD_LEN + rest.min(ROOM) + TAG_LEN
}

/// The head of a datagram for this station, or its first fault.
#[tactic(auto, unfolding(crate::specs::Reading::head_at))]
pub(crate) fn head_at(own: Member, bytes: &[u8]) -> Result<Head, SealFault>
    ensures exact { result ≡ head_at own bytes.now }
    ensures long { OnOk result (41 ≤ length bytes.now) }
{
    if bytes.len() < HEAD_LEN + 1 + TAG_LEN {
        return Err(SealFault::Short);
    }
    if !(bytes[0] == b'T' && bytes[1] == b'S') {
        return Err(SealFault::BadMark);
    }
    if bytes[2] != 1 {
        return Err(SealFault::BadVersion);
    }
    let (from, to) = ends_at(own, bytes)?;
    let length = bytes[6] as u16 * 256 + bytes[7] as u16;
    if !has_part(length, bytes[5], bytes.len()) {
        return Err(SealFault::BadLength);
    }
    let label = Label {
        from,
        to,
        length,
        id: id_at(bytes),
    };
    Ok(Head {
        label,
        index: bytes[5],
    })
}
