//! What stands in the head of each datagram of a packet, and the datagrams that a packet goes as.

ghost use Rattle.std.specs.Prelude.{◌≡◌, ◌≤◌, ◌<◌, ◌↔◌, ◌++◌, IsSome, IfSome, IsTrue, OnOk, length};
ghost use Rattle.seals.specs.Sealing.{most_packet, label_of, count_of, part_of, head_of, sealed};

use crate::bytes::{TAG_LEN, tag_of, tag_of_parts};
use ballots::Member;
use hmac::Key;
use std::alloc::AllocError;

/// The most bytes of a packet.
pub const MOST_PACKET: usize = 12_313;

/// The most bytes of a packet in one datagram.
pub(crate) const ROOM: usize = 1192;

/// The most datagrams of a packet.
pub const MOST_PARTS: usize = 11;

/// The most bytes of a datagram: what every path of IP version 6 carries in one piece, without the heads of IP and UDP.
pub const MOST_DATAGRAM: usize = 1232;

/// The label of a packet: who sends it, to whom, how long it is, and its id, which is its tag.
#[derive(Clone, Copy, PartialEq, Eq)]
pub struct Label {
    pub(crate) from: Member,
    pub(crate) to: Member,
    pub(crate) length: u16,
    pub(crate) id: [u8; TAG_LEN],
}

/// How many datagrams so many bytes take.
pub(crate) fn count_of(length: u16) -> u8
    requires { length ≤ most_packet }
    ensures { result ≡ count_of length }
{
    ((length as usize + (ROOM - 1)) / ROOM) as u8
}

/// The part of this index.
fn part_of(packet: &[u8], index: u8) -> &[u8]
    requires { index < count_of (length packet.now) }
    ensures { result.now ≡ part_of packet.now index }
{
    let start = ROOM * index as usize;
    let (_, rest) = packet.split_at(start);
    let (part, _) = rest.split_at(ROOM.min(rest.len()));
    part
}

impl Label {
    /// The label of a packet of these members; `None` where it has no bytes, or more than the longest.
    pub fn new(key: &Key, from: Member, to: Member, packet: &[u8]) -> Option<Label>
        ensures some { IsSome result ↔ ((1 ≤ length packet.now) × (length packet.now ≤ most_packet)) }
        ensures value { IfSome result (λ l. l ≡ label_of key.now from to packet.now) }
    {
        if packet.is_empty() || packet.len() > MOST_PACKET {
            return None;
        }
        let ends = [b'T', b'W', from.get(), to.get()];
        let id = tag_of_parts(key, &ends, packet);
        Some(Label {
            from,
            to,
            length: packet.len() as u16,
            id,
        })
    }

    /// Who sends it.
    pub fn from(&self) -> Member
        ensures { result ≡ self.now.from }
    {
        self.from
    }

    /// To whom.
    pub fn to(&self) -> Member
        ensures { result ≡ self.now.to }
    {
        self.to
    }

    /// How many bytes the packet has.
    pub fn len(&self) -> u16
        ensures { result ≡ self.now.length }
    {
        self.length
    }

    /// Whether the two are one label.
    pub fn is_same(&self, other: &Label) -> bool
        ensures { IsTrue result ↔ (self.now ≡ other.now) }
    {
        self.from.get() == other.from.get()
            && self.to.get() == other.to.get()
            && self.length == other.length
            && self.id.as_slice() == other.id.as_slice()
    }

    /// Whether it is the label of this packet.
    pub fn is_of(&self, key: &Key, packet: &[u8]) -> bool
        ensures { IsTrue result ↔ (self.now ≡ label_of key.now self.now.from self.now.to packet.now) }
    {
        let ends = [b'T', b'W', self.from.get(), self.to.get()];
        let id = tag_of_parts(key, &ends, packet);
        self.length as usize == packet.len() && self.id.as_slice() == id.as_slice()
    }

    /// How many datagrams it goes as.
    pub fn count(&self) -> u8
        requires { self.now.length ≤ most_packet }
        ensures { result ≡ count_of self.now.length }
    {
        count_of(self.length)
    }

    /// The head of the datagram of this index.
    fn head(&self, index: u8) -> [u8; 8]
        ensures { result ++ self.now.id ≡ head_of self.now index }
    {
        let [high, low] = [(self.length / 256) as u8, (self.length % 256) as u8];
        [
            b'T',
            b'S',
            1,
            self.from.get(),
            self.to.get(),
            index,
            high,
            low,
        ]
    }

    /// Writes the datagram of this index of the packet over what stands in `out`.
    pub fn seal(
        &self,
        key: &Key,
        index: u8,
        packet: &[u8],
        out: &mut Vec<u8>,
    ) -> Result<(), AllocError>
        requires length { length packet.now ≡ self.now.length }
        requires index { index < count_of self.now.length }
        ensures ok { OnOk result (out.new.items ≡ sealed key.now self.now index packet.now) }
    {
        out.clear();
        out.extend_from_slice(&self.head(index))?;
        out.extend_from_slice(&self.id)?;
        out.extend_from_slice(part_of(packet, index))?;
        let tag = tag_of(key, out);
        out.extend_from_slice(&tag)
    }
}
