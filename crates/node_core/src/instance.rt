//! What is in hand of one number: its proposal, if one is open, and the votes that were heard.

ghost use Rattle.std.specs.Prelude.{◌≡◌, ◌≤◌, List, ◌∷◌, None, IfOk, IfErr, IsSome, MatchBool, false, option_map};
ghost use Rattle.protocol.specs.Ballots.{next};
ghost use Rattle.tape_frames.specs.Entries.{owned_entry, lent_entry};
ghost use Rattle.protocol.specs.Marks.{Mark};
ghost use Rattle.protocol.specs.Proposals.{open_ballot};
ghost use Rattle.node_core.specs.Standing.{InstanceStands, IsFresh, fresh, IsInstanceOf};
ghost use Rattle.node_core.specs.Calls.{RefusesToStart, IsRefused};
ghost use Rattle.node_core.specs.Handling.{MayPropose, MayTake, MayTakePromise, MayTakeAccept, MayTakeEvent, HandlesPromise, HandlesDue, HandlesAccept, HandlesAccepted, HandlesPacket, HandlesRecall, AnswersNack, IsPicked, TellsDue, Hears, VotesFor, Proposes, Closes, Begins, BeginsFirst, Starts, HandlesEvent};
ghost use Rattle.node_core.specs.Turns.{note_value, is_quiet};

use crate::event::Event;
use crate::rows::{copied, is_promised, raise, vote};
use crate::sitting::Sitting;
use crate::turn::{CoreRefusal, Note, Turn};
use crate::voting::{self, RecallAnswer, Voting};
use ballots::{Ballot, Member, Number, Row, VoteRef};
use learner::Heard;
use packets::{BodyRef, Letter, Mail, PacketRef, Seat};
use proposer::{Beginning, Counted, DueAnswer, Proposal};
use std::alloc::{AllocError, Global};
use tape_frames::{Entry, EntryRef};

/// One number's open proposal and heard votes. The number was not released.
#[derive(Drop)]
pub(crate) struct Instance {
    pub number: Number,
    pub proposal: Option<Proposal>,
    pub heard: Heard,
}

/// The entry that the proposal picks, with frames of its own, if there is one.
fn picked(alloc: Global, proposal: &Proposal) -> Result<Option<Entry>, AllocError>
    ensures { IfOk result (λ entry. IsPicked proposal.now entry) }
{
    match proposal.pick() {
        None => Ok(None),
        Some(entry) => Ok(Some(entry.copy(alloc)?)),
    }
}

impl Instance {
    /// Nothing is in hand of the number yet.
    pub fn new(alloc: Global, number: Number, seat: Seat) -> Instance
        ensures instance { result ≡ fresh seat.members number }
        ensures of { IsInstanceOf seat result }
    {
        Instance {
            number,
            proposal: None,
            heard: Heard::new(alloc, seat.members()),
        }
    }

    /// Whether nothing is in hand.
    pub fn is_empty(&self) -> bool
        ensures { MatchBool result (IsFresh self.now) (IsFresh self.now → ⊥) }
    {
        self.proposal.is_none() && self.heard.is_empty()
    }

    /// The ballot of the open proposal.
    pub fn open_ballot(&self) -> Option<Ballot>
        ensures { (marks : List Mark) → InstanceStands self.now marks → result ≡ open_ballot self.now.number marks }
    {
        match &self.proposal {
            None => None,
            Some(proposal) => Some(proposal.ballot()),
        }
    }

    /// Whether the open proposal is due at this moment.
    pub fn is_due(&self, now: u64) -> bool
        ensures { TellsDue self.now now result }
    {
        match &self.proposal {
            None => false,
            Some(proposal) => proposal.due_moment() <= now,
        }
    }

    /// Hears a member's vote, and answers the entry that is then released, if any: that of the least member at whose ballot a
    /// majority's votes stand. It is given up, and with it all that was heard.
    fn hear(
        &mut self,
        member: Member,
        ballot: Ballot,
        entry: EntryRef<'_>,
    ) -> Result<Option<Entry>, AllocError>
        requires { member ≤ self.old.heard.members }
        ensures { Hears member ballot (lent_entry entry.entry) result self.old self.new }
    {
        // A vote that is heard changes nothing of the proposal.
        proposer::laws::other_marks_pass();
        let Some(chosen) = self.heard.hear(member, ballot, entry)? else {
            return Ok(None);
        };
        Ok(self.heard.release_at(chosen))
    }

    /// Votes for the entry at the ballot at which it was just proposed.
    fn vote_for(
        &mut self,
        seat: Seat,
        ballot: Ballot,
        entry: Entry,
        row: &Row,
    ) -> Result<Turn, AllocError>
        requires of { IsInstanceOf seat self.old }
        requires owner { ballot.owner ≡ seat.me }
        ensures { VotesFor seat ballot (owned_entry entry) row.now result self.old self.new }
    {
        let release = self.hear(seat.me(), ballot, entry.lend())?;
        Ok(Turn {
            row: vote(row, ballot, entry),
            mail: Some(Mail::new(seat, self.number, ballot, Letter::Proposal)),
            release,
            note: Note::Proposed { ballot },
        })
    }

    /// Phase 2 (Lamport): proposes the entry that the proposal picks, or closes it where there is none.
    fn propose(&mut self, sitting: Sitting, ballot: Ballot, row: &Row) -> Result<Turn, AllocError>
        requires { MayPropose sitting.seat ballot self.old }
        ensures { Proposes sitting.seat ballot sitting.now row.now result self.old self.new }
    {
        learner::laws::other_marks_pass();
        let Some(proposal) = &mut self.proposal else {
            unreachable!();
        };
        match picked(sitting.alloc, proposal)? {
            None => {
                let row = raise(sitting.alloc, row, ballot)?;
                Ok(self.close(row, Note::Nothing { ballot }))
            }
            Some(entry) => {
                proposal.proposed(sitting.now);
                self.vote_for(sitting.seat, ballot, entry, row)
            }
        }
    }

    /// Closes the proposal.
    fn close(&mut self, row: Option<Row>, note: Note) -> Turn
        requires { is_quiet (note_value note) ≡ false }
        ensures { Closes row note result self.old self.new }
    {
        learner::laws::other_marks_pass();
        self.proposal = None;
        Turn {
            row,
            mail: None,
            release: None,
            note,
        }
    }

    /// Phase 1 (Lamport) of the ballot that the proposal has begun: asks the others for their promises.
    /// A member of one proposes at once.
    fn begun(&mut self, sitting: Sitting, ballot: Ballot, row: &Row) -> Result<Turn, AllocError>
        requires { MayPropose sitting.seat ballot self.old }
        ensures { Begins sitting.seat ballot sitting.now row.now result self.old self.new }
    {
        let seat = sitting.seat;
        if seat.members() == 1 {
            return self.propose(sitting, ballot, row);
        }
        Ok(Turn {
            row: raise(sitting.alloc, row, ballot)?,
            mail: Some(Mail::new(seat, self.number, ballot, Letter::Prepare)),
            release: None,
            note: Note::Began { ballot },
        })
    }

    /// Takes a Promise: with those of a majority it proposes.
    fn promise(
        &mut self,
        sitting: Sitting,
        packet: &PacketRef<'_>,
        report: Option<VoteRef<'_>>,
        row: &Row,
    ) -> Result<Turn, AllocError>
        requires { MayTakePromise sitting.seat packet.now self.old }
        ensures { HandlesPromise sitting.seat packet.now report.entry sitting.now row.now result self.old self.new }
    {
        learner::laws::other_marks_pass();
        let ballot = packet.ballot();
        match &mut self.proposal {
            None => Ok(Turn::quiet(Note::Stale)),
            Some(proposal) => {
                if !is_promised(row, ballot) {
                    if proposal.gathers_at(ballot) {
                        return Ok(Turn::quiet(Note::Overtaken { ballot }));
                    }
                    return Ok(Turn::quiet(Note::Stale));
                }
                match proposal.promise(packet.from(), ballot, report)? {
                    Counted::Stale => Ok(Turn::quiet(Note::Stale)),
                    Counted::Repeated => Ok(Turn::quiet(Note::Repeated)),
                    Counted::More => Ok(Turn::quiet(Note::Counted { ballot })),
                    Counted::Quorum => self.propose(sitting, ballot, row),
                }
            }
        }
    }

    /// Takes a Nack.
    fn nack(&mut self, packet: &PacketRef<'_>, promised: Ballot) -> Turn
        requires { packet.now.number ≡ self.old.number }
        ensures { AnswersNack packet.now promised result self.old self.new }
    {
        learner::laws::other_marks_pass();
        match &mut self.proposal {
            None => Turn::quiet(Note::Stale),
            Some(proposal) => {
                if proposal.nack(packet.ballot(), promised) {
                    Turn::quiet(Note::Denied { promised })
                } else {
                    Turn::quiet(Note::Stale)
                }
            }
        }
    }

    /// Sees to the proposal where its due moment has come: it begins anew, or gives up.
    fn due(&mut self, sitting: Sitting, row: &Row) -> Result<Turn, AllocError>
        requires { IsInstanceOf sitting.seat self.old }
        ensures { HandlesDue sitting.seat sitting.now row.now result self.old self.new }
    {
        learner::laws::other_marks_pass();
        let now = sitting.now;
        match &mut self.proposal {
            None => Ok(Turn::quiet(Note::Idle)),
            Some(proposal) => {
                let moment = proposal.due_moment();
                if now < moment {
                    return Ok(Turn::quiet(Note::Idle));
                }
                let last = proposal.ballot();
                let report = copied(sitting.alloc, row.vote())?;
                match proposal.due(row.promised(), report, now)? {
                    DueAnswer::Wait => Ok(Turn::quiet(Note::Idle)),
                    DueAnswer::GaveUp => { Ok(self.close(None, Note::GaveUp { ballot: last })) }
                    DueAnswer::Began { ballot } => self.begun(sitting, ballot, row),
                }
            }
        }
    }

    /// Begins the first ballot, the next above the saved promise.
    fn begin(&mut self, sitting: Sitting, own: Option<Entry>, row: &Row) -> Result<Turn, AllocError>
        requires of { IsInstanceOf sitting.seat self.old }
        requires next { IsSome (next row.now.promised sitting.seat.me) }
        ensures { BeginsFirst sitting.seat (option_map owned_entry own) sitting.now row.now result self.old self.new }
    {
        learner::laws::other_marks_pass();
        let report = copied(sitting.alloc, row.vote())?;
        let beginning = Beginning {
            seen: row.promised(),
            own,
            report,
            now: sitting.now,
        };
        match Proposal::begin(sitting.alloc, sitting.seat, beginning) {
            Err(_) => unreachable!(),
            Ok(proposal) => {
                let ballot = proposal.ballot();
                self.proposal = Some(proposal);
                self.begun(sitting, ballot, row)
            }
        }
    }

    /// Takes an offer or a search.
    fn start(
        &mut self,
        sitting: Sitting,
        own: Option<Entry>,
        row: &Row,
    ) -> Result<Turn, CoreRefusal>
        requires { IsInstanceOf sitting.seat self.old }
        ensures taken { Starts sitting.seat (option_map owned_entry own) sitting.now row.now result self.old self.new }
        ensures refused { IfErr result (λ e. RefusesToStart e (self.new ≡ self.old) (InstanceStands self.old) sitting.seat.me self.old.number row.now) }
    {
        if self.open_ballot().is_some() {
            return Err(CoreRefusal::AlreadyOpen);
        }
        if Ballot::next(row.promised(), sitting.seat.me()).is_none() {
            return Err(CoreRefusal::RoundsSpent);
        }
        Ok(self.begin(sitting, own, row)?)
    }

    /// Takes an Accept: the acceptor answers it, and its vote is heard.
    fn accept(
        &mut self,
        sitting: Sitting,
        packet: &PacketRef<'_>,
        entry: EntryRef<'_>,
        row: &Row,
    ) -> Result<Turn, AllocError>
        requires { MayTakeAccept sitting.seat packet.now (lent_entry entry) self.old }
        ensures { HandlesAccept sitting.seat packet.now (lent_entry entry.entry) row.now result self.old self.new }
    {
        // The packet is to this member, which is one of its circuit.
        packets::laws::range_of_seat(sitting.seat);
        let Voting { turn, votes } = voting::accept(sitting, packet, entry, row)?;
        if !votes {
            return Ok(turn);
        }
        // The row's own entry is heard, not the packet's: so its tape is unpacked once.
        let release = match turn.row.as_ref().unwrap_or(row).vote() {
            Some(vote) => self.hear(packet.to(), packet.ballot(), vote.entry())?,
            None => unreachable!(),
        };
        Ok(Turn { release, ..turn })
    }

    /// Takes an Accepted: the sender's vote is heard.
    fn accepted(
        &mut self,
        seat: Seat,
        packet: &PacketRef<'_>,
        entry: EntryRef<'_>,
    ) -> Result<Turn, AllocError>
        requires { MayTake seat packet.now self.old }
        ensures { HandlesAccepted seat packet.now (lent_entry entry.entry) result self.old self.new }
    {
        let ballot = packet.ballot();
        let release = self.hear(packet.from(), ballot, entry)?;
        Ok(Turn {
            row: None,
            mail: None,
            release,
            note: Note::Heard { ballot },
        })
    }

    /// Takes a packet.
    fn receive(
        &mut self,
        sitting: Sitting,
        packet: &PacketRef<'_>,
        row: &Row,
    ) -> Result<Turn, AllocError>
        requires packet { MayTake sitting.seat packet.now self.old }
        requires to { packet.now.to ≡ sitting.seat.me }
        ensures { HandlesPacket sitting.seat sitting.now packet.now row.now result self.old self.new }
    {
        match packet.body().lend() {
            BodyRef::Prepare => voting::prepare(sitting, packet, row),
            BodyRef::Promise { report } => self.promise(sitting, packet, report, row),
            BodyRef::Accept { entry } => self.accept(sitting, packet, entry, row),
            BodyRef::Accepted { entry } => self.accepted(sitting.seat, packet, entry),
            BodyRef::Nack { promised } => Ok(self.nack(packet, promised)),
        }
    }

    /// Tells the vote of the number's row again. One that the station tells itself is heard.
    fn recall(&mut self, seat: Seat, to: Member, row: &Row) -> Result<Turn, AllocError>
        requires { IsInstanceOf seat self.old }
        ensures { HandlesRecall seat to row.now result self.old self.new }
    {
        let RecallAnswer { turn, own } = voting::tell_again(seat, self.number, to, row);
        match own {
            None => Ok(turn),
            Some(vote) => {
                let release = self.hear(seat.me(), vote.ballot(), vote.entry())?;
                Ok(Turn { release, ..turn })
            }
        }
    }

    /// Takes an event of the number, where `row` is its saved row. What is refused for another cause than memory leaves all as it was.
    pub fn handle(
        &mut self,
        alloc: Global,
        seat: Seat,
        event: Event<'_>,
        row: &Row,
    ) -> Result<Turn, CoreRefusal>
        requires { MayTakeEvent seat event self.old }
        ensures taken { HandlesEvent seat event.entry row.now result self.old self.new }
        ensures refused { IfErr result (λ e. IsRefused event.entry e (self.new ≡ self.old) (InstanceStands self.old) seat.me row.now) }
    {
        match event {
            Event::Offer { entry, now, .. } => self.start(
                Sitting { alloc, seat, now },
                Some(entry),
                row,
            ),
            Event::Seek { now, .. } => self.start(Sitting { alloc, seat, now }, None, row),
            Event::Due { now, .. } => Ok(self.due(Sitting { alloc, seat, now }, row)?),
            Event::Arrived { packet, now } => Ok(self.receive(
                Sitting { alloc, seat, now },
                &packet,
                row,
            )?),
            Event::Recall { to, .. } => Ok(self.recall(seat, to, row)?),
        }
    }
}
