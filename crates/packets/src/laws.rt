//! Laws over packets and their grammar. The functions do nothing: their contracts are the laws. A call in them brings in what it tells.

ghost use Rattle.std.specs.Prelude.{[], ◌∷◌, ◌++◌, ◌≤◌, IsTrue};
ghost use Rattle.protocol.specs.Limits.{most_members};
ghost use Rattle.protocol.specs.Entries.{Void, Taped};
ghost use Rattle.protocol.specs.Versions.{Two};
ghost use Rattle.packets.specs.Grammar.{Spells};
ghost use Rattle.packets.specs.Rules.{keeps_rules};
ghost use Rattle.packets.specs.Laws.{HasOneSpelling, MembersCanSpeak, OnlyWhatFits, SaysItsVersion, OnePacket, NoFront, LengthsAreBounded, ReadsItAgain, FindsWhatIsSpelled, ReadAsSaid, ReadWhatFits, TwoReadsBoth, Packings, worked_packet, worked_front, worked_tape, worked_packing};

use crate::packet::PacketRef;
use crate::seat::Seat;
use tape_frames::laws::{packed, packing, unpacking};

/// What is known of packings.
pub(crate) fn packings()
    ensures { Packings }
{
    packing();
    unpacking();
    packed();
}

/// The member at a seat is one of its circuit's, which are 15 at most.
pub fn range_of_seat(seat: Seat)
    ensures low { 1 ≤ seat.me }
    ensures high { seat.me ≤ seat.members }
    ensures few { seat.members ≤ most_members }
{
    // Its range is known once it is read.
    let _me = seat.me();
}

/// A packet keeps the rules of packets.
pub(crate) fn keeps_rules(packet: &PacketRef<'_>)
    ensures { IsTrue (keeps_rules packet.now) }
{
    // They are known once it is read.
    let _body = packet.body();
}

/// Each packet has exactly one spelling in each version that its entries fit, and none in one that they don't.
pub fn one_spelling()
    ensures fits { HasOneSpelling }
    ensures only { OnlyWhatFits }
{
    packings();
}

/// What spells a packet in a version says so in its third byte.
pub fn says()
    ensures { SaysItsVersion }
{}

/// No bytes spell two packets, and none spell one in both versions.
pub fn one_packet()
    ensures { OnePacket }
{
    packings();
}

/// No spelling of either version is the front of another's.
pub fn no_front()
    ensures { NoFront }
{
    packings();
}

/// A packet's spelling has 17 bytes or more, at most 4,121 in version 1, and 12,313 in version 2.
pub fn lengths()
    ensures { LengthsAreBounded }
{
    packings();
}

/// Reading from the front, which says what the first fault is, finds what the grammar says.
pub fn reading()
    ensures again { ReadsItAgain }
    ensures found { FindsWhatIsSpelled }
{
    packings();
}

/// What is read in a version says that it is of it, and its entries fit it; a station of version 2 reads what is of either.
pub fn reading_by_version()
    ensures said { ReadAsSaid }
    ensures fits { ReadWhatFits }
    ensures both { TwoReadsBoth }
{}

/// The news of a vote in version 2: for seven frames, which are six bytes behind their number, and for a withdrawal.
pub fn worked_spellings()
    ensures tape { Spells Two (worked_front ++ 0 ∷ 7 ∷ worked_packing) (worked_packet (Taped worked_tape)) }
    ensures void { Spells Two (worked_front ++ 0 ∷ 0 ∷ []) (worked_packet Void) }
{}

/// The members of a circuit that reads by the grammar can spell what they may say.
pub fn members_can_speak<G, F>()
    ensures { MembersCanSpeak G F }
{
    one_spelling();
    reading();
    reading_by_version();
}
