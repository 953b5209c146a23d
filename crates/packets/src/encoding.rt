//! Writing a packet as bytes.

ghost use Rattle.std.specs.Prelude.{◌≡◌, ◌++◌, ◌∷◌, ◌≤◌, ◌+◌, List, ℕ, length, take, drop, IfOk, IfSome, OnOk, Ok};
ghost use Rattle.tape_frames.specs.Frames.{most_frames};
ghost use Rattle.tape_frames.specs.Entries.{IsEntry, lent_entry, version_of};
ghost use Rattle.protocol.specs.Ballots.{IsBallot};
ghost use Rattle.protocol.specs.Fitting.{BodyFits};
ghost use Rattle.protocol.specs.Packets.{Promise};
ghost use Rattle.protocol.specs.Versions.{Two};
ghost use Rattle.packets.specs.Bodies.{said};
ghost use Rattle.packets.specs.Grammar.{Spells, SpellsAlike, IsBody, IsHeader};
ghost use Rattle.packets.specs.Laws.{shortest, longest};
ghost use Rattle.packets.specs.Reading.{packet_in, packet_at};
ghost use Rattle.packets.specs.Spelling.{kind_byte, ballot_bytes, header_of, entry_bytes, report_bytes, body_bytes, spelling};

use crate::body::{BodyRef, PacketKind};
use crate::header::{HEADER_LEN, version_byte};
use crate::laws::{keeps_rules, packings};
use crate::packet::PacketRef;
use ballots::{Ballot, Member, VoteRef};
use std::alloc::{AllocError, Global};
use tape_frames::{EntryRef, Version, packed_len};

fn kind_byte(kind: PacketKind) -> u8
    ensures { result ≡ kind_byte kind }
{
    match kind {
        PacketKind::Prepare => 1,
        PacketKind::Promise => 2,
        PacketKind::Accept => 3,
        PacketKind::Accepted => 4,
        PacketKind::Nack => 5,
    }
}

fn put_ballot(out: &mut Vec<u8>, ballot: Ballot) -> Result<(), AllocError>
    ensures ok { OnOk result (out.new.items ≡ out.old.items ++ ballot_bytes ballot) }
    ensures range { IsBallot ballot }
{
    out.extend_from_slice(&ballot.round().to_be_bytes())?;
    out.push(ballot.owner().get())?;
    Ok(())
}

#[tactic(auto, using(crate::proofs::Entries::few_frames))]
fn put_entry(out: &mut Vec<u8>, entry: &EntryRef<'_>, version: Version) -> Result<(), AllocError>
    ensures ok { OnOk result (out.new.items ≡ out.old.items ++ entry_bytes (version_of version) (lent_entry entry.now)) }
    ensures range { IsEntry (lent_entry entry.now) }
{
    let count = entry.len() as u16;
    out.extend_from_slice(&count.to_be_bytes())?;
    match version {
        Version::One => entry.put_plain(out),
        Version::Two => entry.put_packed(out),
    }
}

fn put_report(
    out: &mut Vec<u8>,
    report: &Option<VoteRef<'_>>,
    version: Version,
) -> Result<(), AllocError>
    ensures ok { OnOk result (out.new.items ≡ out.old.items ++ report_bytes (version_of version) report.now) }
    ensures range { OnOk result (IsBody (Promise report.now)) }
{
    match report {
        None => out.push(0)?,
        Some(vote) => {
            out.push(1)?;
            put_ballot(out, vote.ballot())?;
            put_entry(out, &vote.entry(), version)?;
        }
    }
    Ok(())
}

fn put_body(out: &mut Vec<u8>, body: &BodyRef<'_>, version: Version) -> Result<(), AllocError>
    ensures ok { OnOk result (out.new.items ≡ out.old.items ++ body_bytes (version_of version) (said body.now)) }
    ensures range { OnOk result (IsBody (said body.now)) }
{
    match body {
        BodyRef::Prepare => Ok(()),
        BodyRef::Promise { report } => put_report(out, report, version),
        BodyRef::Accept { entry } => put_entry(out, entry, version),
        BodyRef::Accepted { entry } => put_entry(out, entry, version),
        BodyRef::Nack { promised } => put_ballot(out, *promised),
    }
}

/// Puts the header of a packet.
fn put_header(out: &mut Vec<u8>, packet: &PacketRef<'_>, version: Version) -> Result<(), AllocError>
    ensures ok { OnOk result (out.new.items ≡ out.old.items ++ header_of (version_of version) packet.now) }
    ensures range { OnOk result (IsHeader packet.now) }
{
    let (version, kind) = (version_byte(version), kind_byte(packet.body().kind()));
    out.extend_from_slice(&[b'T', b'N', version, kind])?;
    out.extend_from_slice(&packet.circuit().to_be_bytes())?;
    out.extend_from_slice(&[packet.from().get(), packet.to().get()])?;
    out.extend_from_slice(&packet.number().get().to_be_bytes())?;
    put_ballot(out, packet.ballot())?;
    Ok(())
}

/// How many bytes an entry takes: its length, and its frames.
#[tactic(auto, using(crate::proofs::Entries::few_frames, crate::proofs::Entries::packing_length))]
fn entry_len(entry: &EntryRef<'_>, version: Version) -> usize
    ensures value { result ≡ length (entry_bytes (version_of version) (lent_entry entry.now)) }
    ensures range { result ≤ 2 + most_frames }
{
    let frames = entry.len();
    match version {
        Version::One => 2 + frames,
        Version::Two => 2 + packed_len(frames as u16),
    }
}

/// How many bytes the body takes.
fn body_len(body: &BodyRef<'_>, version: Version) -> usize
    ensures value { result ≡ length (body_bytes (version_of version) (said body.now)) }
    ensures range { result ≤ 8 + most_frames }
{
    match body {
        BodyRef::Prepare => 0,
        BodyRef::Promise { report: None } => 1,
        BodyRef::Promise { report: Some(vote) } => 6 + entry_len(&vote.entry(), version),
        BodyRef::Accept { entry } => entry_len(entry, version),
        BodyRef::Accepted { entry } => entry_len(entry, version),
        BodyRef::Nack { .. } => 5,
    }
}

/// The one spelling of a packet in a version that has one for its entry, if it carries any: 17 bytes or more,
/// at most 4,121 in version 1, and 12,313 in version 2. Its memory is asked for once.
pub fn encode(
    alloc: Global,
    packet: &PacketRef<'_>,
    version: Version,
) -> Result<Vec<u8>, AllocError>
    requires { BodyFits (version_of version) packet.now.body }
    ensures spelled { IfOk result (λ v. Spells (version_of version) v.items packet.now) }
    // No other bytes spell the packet in this version.
    ensures only { IfOk result (λ v. (other : List ℕ) → Spells (version_of version) other packet.now → other ≡ v.items) }
    // They are read again as the packet, by a station of this version and by one of version 2.
    ensures again { IfOk result (λ v. packet_in (version_of version) v.items ≡ Ok packet.now) }
    ensures own { IfOk result (λ v. packet_at (version_of version) v.items ≡ Ok packet.now) }
    ensures two { IfOk result (λ v. packet_at Two v.items ≡ Ok packet.now) }
    ensures exact { IfOk result (λ v. v.items ≡ spelling (version_of version) packet.now) }
    ensures at_least { IfOk result (λ v. shortest ≤ length v.items) }
    // A receiver's buffer of one byte more takes it whole, and a datagram that fills the buffer is no packet.
    ensures at_most { IfOk result (λ v. length v.items ≤ longest (version_of version)) }
{
    packings();
    let body = packet.body();
    let mut out = Vec::with_capacity(alloc, HEADER_LEN + body_len(body, version))?;
    put_header(&mut out, packet, version)?;
    put_body(&mut out, body, version)?;
    Ok(out)
}

/// A copy of a packet's spelling that goes to another member: its addressee is the header's eighth byte.
fn readdressed(alloc: Global, spelled: &[u8], to: Member) -> Result<Vec<u8>, AllocError>
    requires { 8 ≤ length spelled.now }
    ensures { IfOk result (λ v. v.items ≡ take 7 spelled.now ++ to ∷ drop 8 spelled.now) }
{
    let mut out = Vec::with_capacity(alloc, spelled.len())?;
    out.extend_from_slice(&spelled[..7])?;
    out.push(to.get())?;
    out.extend_from_slice(&spelled[8..])?;
    Ok(out)
}

/// The spelling of a packet, beside that of one which says the same to another member, where there is such: then it is a copy of its bytes
/// with another addressee. So what goes to many members is packed once.
pub fn encode_beside(
    alloc: Global,
    alike: Option<&[u8]>,
    packet: &PacketRef<'_>,
    version: Version,
) -> Result<Vec<u8>, AllocError>
    requires fits { BodyFits (version_of version) packet.now.body }
    requires alike { IfSome alike (λ bytes. SpellsAlike (version_of version) bytes.now packet.now) }
    ensures spelled { IfOk result (λ v. Spells (version_of version) v.items packet.now) }
    ensures again { IfOk result (λ v. packet_in (version_of version) v.items ≡ Ok packet.now) }
{
    packings();
    match alike {
        None => encode(alloc, packet, version),
        Some(spelled) => {
            keeps_rules(packet);
            readdressed(alloc, spelled, packet.to())
        }
    }
}
