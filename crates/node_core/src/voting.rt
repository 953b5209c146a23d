//! The acceptor's part of a turn, which is all of it where the number was released.

ghost use Rattle.std.specs.Prelude.{◌≡◌, List, None, IfOk};
ghost use Rattle.protocol.specs.Marks.{Mark};
ghost use Rattle.protocol.specs.Turn.{accept_turn};
ghost use Rattle.tape_frames.specs.Entries.{lent_entry};
ghost use Rattle.packets.specs.Mails.{MayGo, IsFew};
ghost use Rattle.node_core.specs.Calls.{MayCome};
ghost use Rattle.node_core.specs.Turns.{IsSending, IsOrderly, Stirs};
ghost use Rattle.node_core.specs.Handling.{IsPrepareTo, AnswersPrepare, IsAcceptTo, IsVoting, IsTelling, TakenReleased};

use crate::event::Event;
use crate::rows::raise;
use crate::sitting::Sitting;
use crate::turn::{CoreRefusal, Note, Turn};
use acceptor::{AcceptAnswer, PrepareAnswer};
use ballots::{Member, Number, Row, VoteRef};
use packets::{BodyRef, Letter, Mail, PacketRef, Seat};
use std::alloc::{AllocError, Global};
use tape_frames::EntryRef;

/// The answer to an Accept: what goes out, and whether it votes. The vote, which is that of the row after, is still to be heard.
#[derive(Drop)]
pub(crate) struct Voting {
    pub turn: Turn,
    pub votes: bool,
}

/// The answer to a recall: what goes out, and the vote that the station tells itself, if it does. That vote is still to be heard.
#[derive(Drop)]
pub(crate) struct RecallAnswer<'a> {
    pub turn: Turn,
    pub own: Option<VoteRef<'a>>,
}

/// A turn that sends this letter about the packet's ballot, and saves and releases nothing.
fn send(seat: Seat, packet: &PacketRef<'_>, letter: Letter, note: Note) -> Turn
    requires { MayGo seat packet.now.number packet.now.ballot letter }
    ensures turn { IsSending result None note (record { seat = seat; number = packet.now.number; ballot = packet.now.ballot; letter = letter }) }
    ensures few { IsFew result.mail }
{
    let mail = Mail::new(seat, packet.number(), packet.ballot(), letter);
    Turn {
        row: None,
        mail: Some(mail),
        release: None,
        note,
    }
}

/// Answers a Prepare.
pub(crate) fn prepare(
    sitting: Sitting,
    packet: &PacketRef<'_>,
    row: &Row,
) -> Result<Turn, AllocError>
    requires { IsPrepareTo sitting.seat packet.now }
    ensures { AnswersPrepare sitting.seat packet.now row.now result }
{
    let seat = sitting.seat;
    let ballot = packet.ballot();
    match acceptor::prepare(row, ballot) {
        PrepareAnswer::Nack { promised } => {
            let to = packet.from();
            let letter = Letter::Nack { to, promised };
            Ok(send(seat, packet, letter, Note::Nacked { promised }))
        }
        PrepareAnswer::Silent => Ok(Turn::quiet(Note::Silent)),
        PrepareAnswer::Promise { report: _report } => {
            let after = raise(sitting.alloc, row, ballot)?;
            let to = packet.from();
            let letter = Letter::Promise { to };
            let turn = send(seat, packet, letter, Note::Promised { ballot });
            Ok(Turn { row: after, ..turn })
        }
    }
}

/// Answers an Accept.
pub(crate) fn accept(
    sitting: Sitting,
    packet: &PacketRef<'_>,
    entry: EntryRef<'_>,
    row: &Row,
) -> Result<Voting, AllocError>
    requires { IsAcceptTo sitting.seat packet.now (lent_entry entry) }
    ensures voting { IfOk result (λ v. IsVoting sitting.seat row.now packet.now (lent_entry entry.entry) v.turn v.votes) }
    ensures orderly { IfOk result (λ v. IsOrderly v.turn) }
    ensures stirs { (marks : List Mark) → Stirs (accept_turn sitting.seat marks row.now packet.now (lent_entry entry.entry)) }
{
    let seat = sitting.seat;
    let ballot = packet.ballot();
    match acceptor::accept(sitting.alloc, row, ballot, entry)? {
        AcceptAnswer::Nack { promised } => {
            let to = packet.from();
            let note = Note::Nacked { promised };
            let turn = send(seat, packet, Letter::Nack { to, promised }, note);
            Ok(Voting { turn, votes: false })
        }
        AcceptAnswer::Again => {
            let note = Note::VotedAgain { ballot };
            let turn = send(seat, packet, Letter::Vote, note);
            Ok(Voting { turn, votes: true })
        }
        AcceptAnswer::Voted { row: after } => {
            let note = Note::Voted { ballot };
            let turn = send(seat, packet, Letter::Vote, note);
            let row = Some(after);
            Ok(Voting {
                turn: Turn { row, ..turn },
                votes: true,
            })
        }
    }
}

/// Tells the row's vote again, to another member or to the station itself. A row that has no vote has nothing to tell, whatever it has promised.
pub(crate) fn tell_again<'a>(
    seat: Seat,
    number: Number,
    to: Member,
    row: &'a Row,
) -> RecallAnswer<'a>
    ensures telling { IsTelling seat number to row.now result.turn result.own }
    ensures orderly { IsOrderly result.turn }
{
    let Some(vote) = row.vote() else {
        let turn = Turn::quiet(Note::Blank);
        return RecallAnswer { turn, own: None };
    };
    let ballot = vote.ballot();
    let note = Note::Recalled { ballot };
    if to.get() == seat.me().get() {
        let turn = Turn::quiet(note);
        return RecallAnswer {
            turn,
            own: Some(vote.lend()),
        };
    }
    let mail = Mail::new(seat, number, ballot, Letter::VoteTo { to });
    RecallAnswer {
        turn: Turn {
            row: None,
            mail: Some(mail),
            release: None,
            note,
        },
        own: None,
    }
}

/// Takes an event of a number that was released since the start, where `row` is its saved row. The station still answers as an acceptor, and takes
/// nothing in. An offer or a search is refused.
pub(crate) fn settled(
    alloc: Global,
    seat: Seat,
    event: &Event<'_>,
    row: &Row,
) -> Result<Turn, CoreRefusal>
    requires { MayCome seat.me seat.members event.now }
    ensures { TakenReleased seat event.now row.now result }
{
    match event {
        Event::Offer { .. } => Err(CoreRefusal::AlreadyReleased),
        Event::Seek { .. } => Err(CoreRefusal::AlreadyReleased),
        Event::Due { .. } => Ok(Turn::quiet(Note::Idle)),
        Event::Arrived { packet, now } => {
            let sitting = Sitting {
                alloc,
                seat,
                now: *now,
            };
            match packet.body().lend() {
                BodyRef::Prepare => Ok(prepare(sitting, packet, row)?),
                BodyRef::Promise { .. } => Ok(Turn::quiet(Note::Stale)),
                BodyRef::Accept { entry } => {
                    let Voting { turn, .. } = accept(sitting, packet, entry, row)?;
                    Ok(turn)
                }
                BodyRef::Accepted { .. } => Ok(Turn::quiet(Note::Settled)),
                BodyRef::Nack { .. } => Ok(Turn::quiet(Note::Stale)),
            }
        }
        Event::Recall { number, to } => {
            let RecallAnswer { turn, .. } = tell_again(seat, *number, *to, row);
            Ok(turn)
        }
    }
}
