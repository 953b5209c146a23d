//! What tells the datagrams of the two wires apart. The function does nothing: its contract is the law.

ghost use Rattle.whole_packets.specs.Marks.{SealedIsNoPacket};

/// No bytes are a packet of the plain wire, in either version, and a sealed datagram.
pub fn sealed_is_no_packet()
    ensures { SealedIsNoPacket }
{}
