//! What a station remembers, in the version in which it speaks, and which packets it takes in.

ghost use Rattle.std.specs.Prelude.{◌≡◌, ◌≤◌, List, [], OnOk, IfOk, IfErr, false};
ghost use Rattle.protocol.specs.Versions.{fits};
ghost use Rattle.protocol.specs.Marks.{Mark};
ghost use Rattle.protocol.specs.Refusals.{names_stranger, is_of_stranger};
ghost use Rattle.protocol.specs.Fitting.{BodyFits, EventFits};
ghost use Rattle.rows_saved.specs.Saved.{RowFits};
ghost use Rattle.tape_frames.specs.Entries.{version_of, lent_entry};
ghost use Rattle.packets.specs.Bodies.{said};
ghost use Rattle.packets.specs.Reading.{packet_at};
ghost use Rattle.node_core.specs.Calls.{IsForMember, MayCome, TookTurn, RefusesEvent, MayWantMemory};
ghost use Rattle.node_core.specs.Standing.{StandsFor, OfItsMarks, IsSameSeat, seat_of};
ghost use Rattle.node_core.specs.Turns.{event_value};
ghost use Rattle.station.specs.Refusing.{ChecksDatagram, ChecksPacket};
ghost use Rattle.station.specs.Speaking.{Forgets, IsOrderly, SpeaksFromNow, TurnSpeaks, is_lower};

use ballots::Row;
use node_core::laws::member_of_core;
use node_core::{CoreRefusal, Event, NodeCore, Turn};
use packets::{BodyRef, PacketRef, decode};
use refusals::StepRefusal;
use std::marker::Model;
use tape_frames::{EntryRef, Version};

/// A core, and the version in which its station speaks. All that the core took in fits that version, so that what comes
/// of it can be saved and sent.
#[derive(Drop)]
pub(crate) struct Speaker {
    core: NodeCore,
    wire: Version,
}

impl Model for Speaker {
    ghost use Rattle.tape_frames.specs.Entries.{version_of};
    ghost use Rattle.station.specs.Speaking.{Speaking, Speaks};

    ghost Value = { Speaking };

    ghost view = { λ s. record { core = s.core; wire = version_of s.wire } };

    ghost invariant = { λ s. Speaks s.core (version_of s.wire) };
}

/// Whether the first version is below the second.
fn is_lower(version: Version, other: Version) -> bool
    ensures { result ≡ is_lower (version_of version) (version_of other) }
{
    match (version, other) {
        (Version::One, Version::Two) => true,
        (Version::One, Version::One) => false,
        (Version::Two, _) => false,
    }
}

/// Whether the owner of a ballot in the body is above the member count.
fn names_stranger(members: u8, body: &BodyRef<'_>) -> bool
    ensures { result ≡ names_stranger members (said body.now) }
{
    match body {
        BodyRef::Promise { report: Some(vote) } => vote.ballot().owner().get() > members,
        BodyRef::Nack { promised } => promised.owner().get() > members,
        _ => false,
    }
}

/// Whether the sender, or the owner of any ballot in the packet, is above the member count.
fn is_of_stranger(members: u8, packet: &PacketRef<'_>) -> bool
    ensures test { result ≡ is_of_stranger members packet.now }
    ensures sender { result ≡ false → packet.now.from ≤ members }
{
    packet.from().get() > members
        || packet.ballot().owner().get() > members
        || names_stranger(members, packet.body())
}

/// Refuses a packet of another circuit, for another member or of a stranger.
fn check_packet(core: &NodeCore, packet: &PacketRef<'_>) -> Result<(), StepRefusal>
    ensures checks { ChecksPacket (seat_of core.now) packet.now result }
    // One that is let in may come to the core.
    ensures let_in { OnOk result (IsForMember core.now.me core.now.members packet.now) }
{
    if packet.circuit() != core.circuit() {
        return Err(StepRefusal::WrongCircuit);
    }
    if packet.to().get() != core.me().get() {
        return Err(StepRefusal::NotForMe);
    }
    if is_of_stranger(core.members(), packet) {
        return Err(StepRefusal::Stranger);
    }
    Ok(())
}

impl Speaker {
    /// A core that took nothing in, in this version.
    #[tactic(auto, using(crate::proofs::Remembering::nothing_speaks))]
    pub fn new(core: NodeCore, wire: Version) -> Speaker
        requires { StandsFor core [] }
        ensures core { result.core ≡ core }
        ensures wire { result.wire ≡ version_of wire }
    {
        Speaker { core, wire }
    }

    /// The core.
    pub fn core(&self) -> &NodeCore
        ensures { result.now ≡ self.now.core }
    {
        &self.core
    }

    /// Whether the version has a spelling and a row for the entry.
    pub fn has_spelling(&self, entry: &EntryRef<'_>) -> bool
        ensures { result ≡ fits self.now.wire (lent_entry entry.now) }
    {
        entry.fits(self.wire)
    }

    /// The packet that the bytes spell: at version 1 in version 1 alone, at version 2 in either. What is answered fits, and may come to the core.
    ///
    /// Refused, in this order: `BadDatagram`, `WrongCircuit`, `NotForMe`, `Stranger`.
    pub fn read<'a>(&self, bytes: &'a [u8]) -> Result<PacketRef<'a>, StepRefusal>
        ensures checks { ChecksDatagram (seat_of self.now.core) (packet_at self.now.wire bytes.now) result }
        ensures fits { IfOk result (λ p. BodyFits self.now.wire p.body) }
        ensures let_in { IfOk result (IsForMember self.now.core.me self.now.core.members) }
    {
        match decode(bytes, self.wire) {
            Ok(packet) => {
                check_packet(&self.core, &packet)?;
                Ok(packet)
            }
            Err(fault) => Err(StepRefusal::BadDatagram(fault)),
        }
    }

    /// Forgets all that was taken in, as at a start.
    #[tactic(auto, using(crate::proofs::Remembering::nothing_speaks))]
    pub fn clear(&mut self)
        ensures { Forgets self.old self.new }
    {
        self.core.clear();
    }

    /// Speaks this version from now on. Where it is below the one before, all that was taken in is forgotten: some of it
    /// may not fit.
    pub fn follow(&mut self, version: Version)
        ensures { SpeaksFromNow (version_of version) self.old self.new }
    {
        if is_lower(version, self.wire) {
            self.core.clear();
        }
        self.wire = version;
    }

    /// Takes the turn of the event, where `row` is the saved row of its number; both fit the version, and so does the turn.
    ///
    /// It is refused as [`NodeCore::handle`] refuses it. Where memory is refused, all that was taken in is forgotten.
    pub fn handle(&mut self, event: Event<'_>, row: &Row) -> Result<Turn, CoreRefusal>
        requires arrived { MayCome self.old.core.me self.old.core.members event }
        requires event { EventFits self.old.wire (event_value event) }
        requires row { RowFits self.old.wire row.now }
        // What it took in are some marks.
        ensures stands { (marks : List Mark) × StandsFor self.old.core marks }
        ensures ok { IfOk result (λ x. OfItsMarks self.old.core (λ marks. TookTurn self.old.core event.entry marks row.now x self.new.core)) }
        ensures fits { IfOk result (λ x. TurnSpeaks self.old.wire row.now x) }
        ensures orderly { IfOk result (IsOrderly row.now) }
        ensures refused { IfErr result (λ e. RefusesEvent event.entry e self.old.core row.now self.new.core) }
        ensures memory { IfErr result (λ e. MayWantMemory e self.old.core event.entry row.now) }
        ensures seat { IsSameSeat self.old.core self.new.core }
        ensures wire { self.new.wire ≡ self.old.wire }
    {
        // A turn makes no entry up, where the core's member is one of its circuit.
        protocol_laws::laws::turns_fit();
        member_of_core(&self.core);
        let answer = self.core.handle(event, row);
        if matches!(answer, Err(CoreRefusal::OutOfMemory)) {
            self.core.clear();
        }
        answer
    }
}
