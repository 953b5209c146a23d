//! Reading a packet from bytes, with no memory.

ghost use Rattle.std.specs.Prelude.{◌≡◌, ◌≤◌, IfOk, OnErr, length, true};
ghost use Rattle.tape_frames.specs.Frames.{most_frames};
ghost use Rattle.tape_frames.specs.Packing.{packed_len};
ghost use Rattle.tape_frames.specs.Entries.{lent_entry, version_of};
ghost use Rattle.protocol.specs.Ballots.{is_below};
ghost use Rattle.protocol.specs.Fitting.{BodyFits};
ghost use Rattle.protocol.specs.Packets.{Packet as PacketValue};
ghost use Rattle.packets.specs.Bodies.{said};
ghost use Rattle.packets.specs.Grammar.{SpellsAt};
ghost use Rattle.packets.specs.Rules.{kind_of, may_say};
ghost use Rattle.packets.specs.Reading.{frames_at, packed_entry, packed_at, entry_at, whole_entry_at, vote_at, promise_at, nack_at, body_at, packet_in, packet_at, Seen};
ghost use Rattle.packets.specs.declared.body.PacketKind.TheVariants as kinds;

use crate::body::{BodyRef, PacketKind};
use crate::fault::PacketFault;
use crate::header::{HEADER_LEN, ballot_of, header_of, u16_of};
use crate::laws::packings;
use crate::packet::PacketRef;
use ballots::{Ballot, VoteRef};
use tape_frames::{EntryRef, MAX_FRAMES, MAX_FRAMES_ONE, PackedRef, TapeRef, Version, packed_len};

#[tactic(auto, unfolding(crate::specs::Reading::frames_at))]
fn frames_of(bytes: &[u8]) -> Result<(TapeRef<'_>, &[u8]), PacketFault>
    ensures { Seen (λ x. (x.0, x.1.now)) result (frames_at bytes.now) }
{
    if bytes.len() < 2 {
        return Err(PacketFault::Short);
    }
    let count = u16_of(bytes, 0) as usize;
    if !(1 <= count && count <= MAX_FRAMES_ONE) {
        return Err(PacketFault::BadFrames);
    }
    let (_, rest) = bytes.split_at(2);
    if rest.len() < count {
        return Err(PacketFault::Short);
    }
    let (frames, rest) = rest.split_at(count);
    match TapeRef::from_bytes(frames) {
        Ok(tape) => Ok((tape, rest)),
        Err(_) => Err(PacketFault::BadFrames),
    }
}

#[tactic(auto, unfolding(crate::specs::Reading::packed_entry))]
fn packed_entry_of(count: u16, bytes: &[u8]) -> Result<EntryRef<'_>, PacketFault>
    requires few { count ≤ most_frames }
    requires whole { length bytes.now ≡ packed_len count }
    ensures { Seen lent_entry result (packed_entry count bytes.now) }
{
    if count == 0 {
        return Ok(EntryRef::Void);
    }
    match PackedRef::new(count, bytes) {
        Some(tape) => Ok(EntryRef::Packed(tape)),
        None => Err(PacketFault::BadPad),
    }
}

#[tactic(auto, unfolding(crate::specs::Reading::packed_at))]
fn packed_of(bytes: &[u8]) -> Result<(EntryRef<'_>, &[u8]), PacketFault>
    ensures { Seen (λ x. (lent_entry x.0, x.1.now)) result (packed_at bytes.now) }
{
    if bytes.len() < 2 {
        return Err(PacketFault::Short);
    }
    let count = u16_of(bytes, 0);
    if usize::from(count) > MAX_FRAMES {
        return Err(PacketFault::BadFrames);
    }
    let (_, rest) = bytes.split_at(2);
    let len = packed_len(count);
    if rest.len() < len {
        return Err(PacketFault::Short);
    }
    let (packed, rest) = rest.split_at(len);
    let entry = packed_entry_of(count, packed)?;
    Ok((entry, rest))
}

#[tactic(auto, unfolding(crate::specs::Reading::entry_at))]
fn entry_of(bytes: &[u8], version: Version) -> Result<(EntryRef<'_>, &[u8]), PacketFault>
    ensures { Seen (λ x. (lent_entry x.0, x.1.now)) result (entry_at (version_of version) bytes.now) }
{
    match version {
        Version::One => {
            let (tape, rest) = frames_of(bytes)?;
            Ok((EntryRef::Plain(tape), rest))
        }
        Version::Two => packed_of(bytes),
    }
}

#[tactic(auto, unfolding(crate::specs::Reading::vote_at))]
fn vote_of(
    ballot: Ballot,
    bytes: &[u8],
    version: Version,
) -> Result<(VoteRef<'_>, &[u8]), PacketFault>
    ensures exact { Seen (λ x. (x.0, x.1.now)) result (vote_at (version_of version) ballot bytes.now) }
    ensures below { IfOk result (λ x. is_below x.0.ballot ballot ≡ true) }
{
    if bytes.len() < 7 {
        return Err(PacketFault::Short);
    }
    let Some(reported) = ballot_of(bytes, 0) else {
        return Err(PacketFault::BadReport);
    };
    if !reported.is_below(ballot) {
        return Err(PacketFault::BadReport);
    }
    let (_, rest) = bytes.split_at(5);
    let (entry, rest) = entry_of(rest, version)?;
    Ok((VoteRef::new(reported, entry), rest))
}

#[tactic(auto, unfolding(crate::specs::Reading::promise_at))]
fn promise_of(ballot: Ballot, bytes: &[u8], version: Version) -> Result<BodyRef<'_>, PacketFault>
    ensures exact { Seen said result (promise_at (version_of version) ballot bytes.now) }
    ensures rules { IfOk result (λ b. (kind_of (said b) ≡ kinds.Promise) × (may_say (said b) ballot ≡ true)) }
{
    match bytes {
        [] => Err(PacketFault::Short),
        [0] => Ok(BodyRef::Promise { report: None }),
        [0, ..] => Err(PacketFault::Long),
        [1, rest @ ..] => {
            let (vote, rest) = vote_of(ballot, rest, version)?;
            if !rest.is_empty() {
                return Err(PacketFault::Long);
            }
            Ok(BodyRef::Promise { report: Some(vote) })
        }
        [_, ..] => Err(PacketFault::BadReport),
    }
}

#[tactic(auto, unfolding(crate::specs::Reading::nack_at))]
fn nack_of(ballot: Ballot, bytes: &[u8]) -> Result<BodyRef<'_>, PacketFault>
    ensures exact { Seen said result (nack_at ballot bytes.now) }
    ensures rules { IfOk result (λ b. (kind_of (said b) ≡ kinds.Nack) × (may_say (said b) ballot ≡ true)) }
{
    if bytes.len() < 5 {
        return Err(PacketFault::Short);
    }
    let Some(promised) = ballot_of(bytes, 0) else {
        return Err(PacketFault::BadReport);
    };
    if !ballot.is_below(promised) {
        return Err(PacketFault::BadReport);
    }
    if bytes.len() > 5 {
        return Err(PacketFault::Long);
    }
    Ok(BodyRef::Nack { promised })
}

#[tactic(auto, unfolding(crate::specs::Reading::whole_entry_at))]
fn whole_entry_of(bytes: &[u8], version: Version) -> Result<EntryRef<'_>, PacketFault>
    ensures { Seen lent_entry result (whole_entry_at (version_of version) bytes.now) }
{
    let (entry, rest) = entry_of(bytes, version)?;
    if !rest.is_empty() {
        return Err(PacketFault::Long);
    }
    Ok(entry)
}

#[tactic(auto, unfolding(crate::specs::Reading::body_at))]
fn body_of(
    kind: PacketKind,
    ballot: Ballot,
    bytes: &[u8],
    version: Version,
) -> Result<BodyRef<'_>, PacketFault>
    ensures exact { Seen said result (body_at (version_of version) kind ballot bytes.now) }
    ensures rules { IfOk result (λ b. (kind_of (said b) ≡ kind) × (may_say (said b) ballot ≡ true)) }
{
    match kind {
        PacketKind::Prepare => {
            if !bytes.is_empty() {
                return Err(PacketFault::Long);
            }
            Ok(BodyRef::Prepare)
        }
        PacketKind::Promise => promise_of(ballot, bytes, version),
        PacketKind::Accept => {
            let entry = whole_entry_of(bytes, version)?;
            Ok(BodyRef::Accept { entry })
        }
        PacketKind::Accepted => {
            let entry = whole_entry_of(bytes, version)?;
            Ok(BodyRef::Accepted { entry })
        }
        PacketKind::Nack => nack_of(ballot, bytes),
    }
}

#[tactic(auto, unfolding(crate::specs::Reading::packet_in))]
fn packet_of(bytes: &[u8], version: Version) -> Result<PacketRef<'_>, PacketFault>
    ensures { result ≡ packet_in (version_of version) bytes.now }
{
    let header = header_of(bytes, version)?;
    let (_, rest) = bytes.split_at(HEADER_LEN);
    let body = body_of(header.kind, header.ballot, rest, version)?;
    match PacketRef::new(header.route, header.number, header.ballot, body) {
        Some(packet) => Ok(packet),
        None => unreachable!(),
    }
}

/// The version in which a station of this version reads the bytes: a station of version 2 goes by what they say.
fn read_version(bytes: &[u8], version: Version) -> Version
    ensures { packet_in (version_of result) bytes.now ≡ packet_at (version_of version) bytes.now }
{
    match version {
        Version::Two if bytes.len() > 2 && bytes[2] == 2 => Version::Two,
        _ => Version::One,
    }
}

/// The packet that the bytes spell to a station of this version, its entry lent from them, or their first fault.
/// At version 1 it reads version 1 alone, at version 2 either. It takes no memory.
pub fn decode(bytes: &[u8], version: Version) -> Result<PacketRef<'_>, PacketFault>
    // What is answered is spelled by the bytes, in a version that is read.
    ensures found { IfOk result (λ p. SpellsAt (version_of version) bytes.now p) }
    // What the bytes spell in one is answered.
    ensures only { (p : PacketValue) → SpellsAt (version_of version) bytes.now p → result ≡ Ok p }
    // A fault comes only where they spell nothing.
    ensures nothing { OnErr result ((p : PacketValue) → SpellsAt (version_of version) bytes.now p → ⊥) }
    // It is the first that is met where a packet is read from its front.
    ensures exact { result ≡ packet_at (version_of version) bytes.now }
    // The entry that is answered fits the version.
    ensures fits { IfOk result (λ p. BodyFits (version_of version) p.body) }
{
    packings();
    packet_of(bytes, read_version(bytes, version))
}
