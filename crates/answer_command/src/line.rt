//! One line in, one line out.

ghost use Rattle.std.specs.Prelude.{◌≡◌, ◌==◌, IsSome, IfOk, OnOk, IsTrue, false, Ok};
ghost use Rattle.hex.specs.Hex.{encode_lower};
ghost use Rattle.protocol.specs.Fitting.{BodyFits};
ghost use Rattle.protocol.specs.Packets.{Prepare, Accept, Accepted};
ghost use Rattle.protocol.specs.Rows.{raised};
ghost use Rattle.protocol.specs.Acceptor.{Prepares, Accepts, is_above};
ghost use Rattle.tape_frames.specs.Entries.{version_of, lent_entry};
ghost use Rattle.packets.specs.Bodies.{said};
ghost use Rattle.packets.specs.Rules.{keeps_rules};
ghost use Rattle.packets.specs.Spelling.{spelling};
ghost use Rattle.rows_saved.specs.Saved.{WithRow, RowFits};
ghost use Rattle.rows_saved.specs.Memory.{saved};
ghost use Rattle.answer_command.specs.Asked.{asked_in, asked_of_packet};
ghost use Rattle.answer_command.specs.Replies.{refused_text, voted_entry};
ghost use Rattle.answer_command.specs.Seats.{asked_at, back_to, back_at, Asks, Reads, Answers};

use acceptor::{AcceptAnswer, PrepareAnswer, accept, prepare};
use ballots::{Ballot, Member, Number, Row};
use hex::FromHexError;
use packets::{BodyRef, PacketRef, Route, decode, encode};
use refusals::Refusal;
use rows_saved::MemoryRows;
use std::alloc::{AllocError, Global};
use tape_frames::{EntryRef, Version};

/// Where the acceptor that answers sits.
#[derive(Clone, Copy)]
pub struct AcceptorSeat {
    pub circuit: u16,
    pub me: Member,
    /// The version that it reads and replies in; at version 2 it reads version 1 too.
    pub wire: Version,
}

/// A packet that came to a seat.
#[derive(Clone, Copy)]
struct HeardPacket<'a> {
    seat: AcceptorSeat,
    packet: &'a PacketRef<'a>,
}

fn refused(alloc: Global, refusal: Refusal) -> Result<Vec<u8>, AllocError>
    ensures { IfOk result (λ t. t.items ≡ refused_text refusal) }
{
    let mut text = Vec::new(alloc);
    text.extend_from_slice(b"refused ")?;
    text.extend_from_slice(refusal.word().as_bytes())?;
    Ok(text)
}

fn hex_of(alloc: Global, packet: &PacketRef<'_>, wire: Version) -> Result<Vec<u8>, AllocError>
    requires { BodyFits (version_of wire) packet.now.body }
    ensures { IfOk result (λ t. t.items ≡ encode_lower (spelling (version_of wire) packet.now)) }
{
    let bytes = encode(alloc, packet, wire)?;
    let text = hex::encode(alloc, bytes.as_slice())?;
    Ok(text.into_bytes())
}

/// The packet that goes back to the sender.
fn send_back(
    alloc: Global,
    heard: &HeardPacket<'_>,
    body: BodyRef<'_>,
) -> Result<Vec<u8>, AllocError>
    requires rules { IsTrue (keeps_rules (back_to heard.now.seat heard.now.packet.now (said body))) }
    requires fits { BodyFits (version_of heard.now.seat.wire) (said body) }
    ensures { IfOk result (λ t. t.items ≡ back_at heard.now.seat heard.now.packet.now (said body.entry)) }
{
    let (seat, packet) = (heard.seat, heard.packet);
    let route = Route {
        circuit: seat.circuit,
        from: seat.me,
        to: packet.from(),
    };
    match PacketRef::new(route, packet.number(), packet.ballot(), body) {
        Some(reply) => hex_of(alloc, &reply, seat.wire),
        None => unreachable!(),
    }
}

/// Raises the promise of a number's row, whose vote stays where it is.
fn raise(rows: &mut MemoryRows, number: Number, ballot: Ballot) -> Result<(), AllocError>
    requires { is_above (saved rows.old number).promised ballot ≡ false }
    ensures row { OnOk result (WithRow (saved rows.old) number (raised (saved rows.old number) ballot) (saved rows.new)) }
    ensures version { rows.new.version ≡ rows.old.version }
{
    let row = rows.take(number);
    let (_, vote) = row.into_parts();
    match Row::new(Some(ballot), vote) {
        Some(row) => rows.save(number, row),
        None => unreachable!(),
    }
}

/// Answers a prepare request.
#[tactic(auto, using(crate::proofs::History::stays_on_ok))]
fn answer_prepare(
    alloc: Global,
    heard: &HeardPacket<'_>,
    rows: &mut MemoryRows,
) -> Result<Vec<u8>, AllocError>
    requires { Asks heard.now.seat rows.old heard.now.packet.now Prepare }
    ensures { Answers heard.now.seat (Ok (asked_in heard.now.packet.now (Prepares heard.now.packet.now.ballot))) rows.old rows.new result }
{
    let packet = heard.packet;
    // The packet's rules are known once its body is read.
    let _rules = packet.body();
    let number = packet.number();
    let ballot = packet.ballot();
    let blank = Row::blank();
    let row = rows.row(number).unwrap_or(&blank);
    match prepare(row, ballot) {
        PrepareAnswer::Nack { promised } => send_back(alloc, heard, BodyRef::Nack { promised }),
        PrepareAnswer::Silent => Vec::from_slice(alloc, b"silent"),
        PrepareAnswer::Promise { report } => {
            let report = match report {
                None => None,
                Some(vote) => Some(vote.lend()),
            };
            let text = send_back(alloc, heard, BodyRef::Promise { report })?;
            raise(rows, number, ballot)?;
            Ok(text)
        }
    }
}

/// Answers an accept request.
#[tactic(auto, using(crate::proofs::History::stays_on_ok))]
fn answer_accept(
    alloc: Global,
    heard: &HeardPacket<'_>,
    rows: &mut MemoryRows,
    entry: &EntryRef<'_>,
) -> Result<Vec<u8>, AllocError>
    requires { Asks heard.now.seat rows.old heard.now.packet.now (Accept (lent_entry entry.now)) }
    ensures { Answers heard.now.seat (Ok (asked_in heard.now.packet.now (Accepts heard.now.packet.now.ballot (lent_entry entry.now)))) rows.old rows.new result }
{
    let packet = heard.packet;
    // The packet's rules are known once its body is read.
    let _rules = packet.body();
    let number = packet.number();
    let ballot = packet.ballot();
    let blank = Row::blank();
    let row = rows.row(number).unwrap_or(&blank);
    match accept(alloc, row, ballot, entry.lend())? {
        AcceptAnswer::Nack { promised } => send_back(alloc, heard, BodyRef::Nack { promised }),
        AcceptAnswer::Again => send_vote(alloc, heard, row),
        AcceptAnswer::Voted { row } => {
            let text = send_vote(alloc, heard, &row)?;
            rows.save(number, row)?;
            Ok(text)
        }
    }
}

/// Tells the sender of the row's vote.
fn send_vote(alloc: Global, heard: &HeardPacket<'_>, row: &Row) -> Result<Vec<u8>, AllocError>
    requires differ { (heard.now.seat.me == heard.now.packet.now.from) ≡ false }
    requires some { IsSome row.now.vote }
    requires fits { RowFits (version_of heard.now.seat.wire) row.now }
    ensures { IfOk result (λ t. t.items ≡ back_at heard.now.seat heard.now.packet.now (Accepted (voted_entry row.now.vote))) }
{
    match row.vote() {
        Some(vote) => {
            let entry = vote.entry();
            send_back(alloc, heard, BodyRef::Accepted { entry })
        }
        None => unreachable!(),
    }
}

fn answer_packet(
    alloc: Global,
    heard: &HeardPacket<'_>,
    rows: &mut MemoryRows,
) -> Result<Vec<u8>, AllocError>
    requires { Reads heard.now.seat rows.old heard.now.packet.now.body }
    ensures { Answers heard.now.seat (asked_of_packet heard.now.seat.circuit heard.now.seat.me (Ok heard.now.packet.now)) rows.old rows.new result }
{
    let (seat, packet) = (heard.seat, heard.packet);
    if packet.circuit() != seat.circuit {
        return refused(alloc, Refusal::WrongCircuit);
    }
    if packet.to().get() != seat.me.get() {
        return refused(alloc, Refusal::NotForMe);
    }
    match packet.body() {
        BodyRef::Prepare => answer_prepare(alloc, heard, rows),
        BodyRef::Accept { entry } => answer_accept(alloc, heard, rows, entry),
        _ => refused(alloc, Refusal::NotARequest),
    }
}

/// The text of a line that is not blank, and the rows after it.
pub(crate) fn answer_line(
    alloc: Global,
    seat: AcceptorSeat,
    rows: &mut MemoryRows,
    line: &[u8],
) -> Result<Vec<u8>, AllocError>
    requires { rows.old.version ≡ version_of seat.wire }
    ensures { Answers seat (asked_at seat line.now) rows.old rows.new result }
{
    let bytes = match hex::decode(alloc, line) {
        Ok(bytes) => bytes,
        Err(FromHexError::OutOfMemory) => return Err(AllocError),
        Err(_) => return refused(alloc, Refusal::NotHex),
    };
    match decode(&bytes, seat.wire) {
        Ok(packet) => {
            let heard = HeardPacket {
                seat,
                packet: &packet,
            };
            answer_packet(alloc, &heard, rows)
        }
        Err(fault) => refused(alloc, Refusal::Packet(fault)),
    }
}
