//! What the head of a datagram says.

ghost use Rattle.std.specs.Prelude.{◌≡◌};
ghost use Rattle.driver.specs.Said.{said_in, version_in};

use ballots::{Member, Number};
use packets::{PacketKind, decode};
use tape_frames::Version;

/// Who sent a datagram, and about what.
#[derive(Clone, Copy, PartialEq, Eq)]
pub struct Said {
    /// The member that sent it.
    pub sender: Member,
    /// The number that it is about.
    pub number: Number,
    /// The member whose ballot it is about.
    pub owner: Member,
    pub kind: PacketKind,
    /// The version in which it is spelled.
    pub version: Version,
}

/// The version in which bytes say that they are spelled.
fn version_in(bytes: &[u8]) -> Version
    ensures { result ≡ version_in bytes.now }
{
    if bytes.len() > 2 && bytes[2] == 2 {
        Version::Two
    } else {
        Version::One
    }
}

/// What the bytes of a datagram say, in the layout that they are of; `None` where they spell no packet.
pub(crate) fn said_in(bytes: &[u8]) -> Option<Said>
    ensures { result ≡ said_in bytes.now }
{
    let packet = decode(bytes, Version::Two).ok()?;
    Some(Said {
        sender: packet.from(),
        number: packet.number(),
        owner: packet.ballot().owner(),
        kind: packet.body().kind(),
        version: version_in(bytes),
    })
}
