//! Who a packet says that it is from and for.

ghost use Rattle.std.specs.Prelude.{◌≡◌, ◌↔◌, IsTrue};
ghost use Rattle.sealed_door.specs.Admitting.{IsFromTo};

use ballots::Member;

/// Whether a packet names these as its sender and its addressee.
pub(crate) fn is_from_to(packet: &[u8], from: Member, to: Member) -> bool
    ensures { IsTrue result ↔ IsFromTo packet.now from to }
{
    packet.len() > 7 && packet[6] == from.get() && packet[7] == to.get()
}
