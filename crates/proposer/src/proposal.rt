//! A proposal, with a slot for the promise of each member.

ghost use Rattle.std.specs.Prelude.{◌≡◌, ◌≤◌, ◌<◌, ◌+◌, ◌*◌, ◌-◌, ◌^◌, ℕ, List, Some, None, IfOk, IfErr, OnErr, IsOk, min, nat_le, option_copied, option_map, ◌&&◌, if◌then◌else◌};
ghost use Rattle.protocol.specs.Ballots.{next, is_same};
ghost use Rattle.protocol.specs.Marks.{Mark};
ghost use Rattle.protocol.specs.Proposals.{open_ballot, entry_or};
ghost use Rattle.protocol.specs.Turn.{greater_ballot, most_ballots};
ghost use Rattle.tape_frames.specs.Entries.{owned_entry, lent_entry};
ghost use Rattle.proposer.specs.InHand.{StandsFor};
ghost use Rattle.proposer.specs.Answers.{IsBegun, TellsGathering, CountsPromise, RefusesPromise, KeepsNack, IsPicked, IsProposed, IsDueMoment, SeesToDue};

use crate::answer::{BeginRefusal, Counted, DueAnswer};
use crate::promises::{ReportSlots, count_once, counted_alone, greatest_vote, is_quorum};
use ballots::laws::slots_of_members;
use ballots::{Ballot, Member, Vote, VoteRef};
use packets::Seat;
use std::alloc::{AllocError, Global};
use std::marker::Model;
use tape_frames::{Entry, EntryRef};

/// How many ballots a proposal begins at most.
const MOST_BALLOTS: u8 = 32;

/// What a proposal begins with.
#[derive(Drop)]
pub struct Beginning {
    /// The ballot that was seen: the first one is the next above it.
    pub seen: Option<Ballot>,
    /// The entry to propose where no vote is reported, if there is one.
    pub own: Option<Entry>,
    /// The vote that the own member reports, if it has one.
    pub report: Option<Vote>,
    /// When it begins, in milliseconds.
    pub now: u64,
}

/// The proposal of one member for one number.
///
/// Lamport, Paxos Made Simple: with the promises of a majority it proposes the entry of the highest vote that was
/// reported, or its own where none was.
#[derive(Drop)]
pub struct Proposal {
    alloc: Global,
    seat: Seat,
    ballot: Ballot,
    own: Option<Entry>,
    slots: ReportSlots,
    gathers: bool,
    denied: Option<Ballot>,
    begun: u8,
    moved: u64,
}

impl Model for Proposal {
    ghost use Rattle.std.specs.Prelude.{◌≡◌, length, option_map};
    ghost use Rattle.tape_frames.specs.Entries.{owned_entry};
    ghost use Rattle.proposer.specs.InHand.{InHand};

    ghost Value = { InHand };

    ghost view = { λ p. record {
      me = p.seat.me;
      members = length p.slots;
      ballot = p.ballot;
      own = option_map owned_entry p.own;
      reports = p.slots;
      gathers = p.gathers;
      denied = p.denied;
      begun = p.begun;
      moved = p.moved;
    } };

    ghost invariant = { λ p. length p.slots ≡ p.seat.members };
}

/// The greater of two ballots that may be none.
fn greater(a: Option<Ballot>, b: Option<Ballot>) -> Option<Ballot>
    ensures { result ≡ greater_ballot a b }
{
    match (a, b) {
        (None, b) => b,
        (Some(a), None) => Some(a),
        (Some(a), Some(b)) => Some(if a.is_below(b) { b } else { a }),
    }
}

/// The entry, lent, where there is one.
fn lent(entry: &Option<Entry>) -> Option<EntryRef<'_>>
    ensures { option_map lent_entry result ≡ option_map owned_entry entry.now }
{
    match entry {
        None => None,
        Some(entry) => Some(entry.lend()),
    }
}

/// The vote's entry, or the own one where there is no vote.
fn entry_or<'a>(own: &'a Option<Entry>, vote: Option<&'a Vote>) -> Option<EntryRef<'a>>
    ensures { option_map lent_entry result ≡ entry_or (option_map owned_entry own.now) (option_copied vote.entry) }
{
    match vote {
        Some(vote) => Some(vote.entry()),
        None => lent(own),
    }
}

impl Proposal {
    /// Begins the first ballot of a seat's member above the one that was seen. The own member counts as promised with its report.
    ///
    /// `RoundsSpent` where there is no such ballot; the entries are given up then. No memory is taken.
    pub fn begin(alloc: Global, seat: Seat, beginning: Beginning) -> Result<Proposal, BeginRefusal>
        ensures begun { IfOk result (λ p. IsBegun seat beginning p) }
        ensures refused { IfErr result (λ e. (e ≡ BeginRefusal.RoundsSpent) × (next beginning.seen seat.me ≡ None)) }
    {
        slots_of_members::<Option<Option<Vote>>>();
        // The member's range is known once it is read.
        let me = seat.me();
        match Ballot::next(beginning.seen, me) {
            None => Err(BeginRefusal::RoundsSpent),
            Some(ballot) => Ok(Proposal {
                alloc,
                seat,
                ballot,
                own: beginning.own,
                slots: counted_alone(seat, beginning.report),
                gathers: true,
                denied: None,
                begun: 1,
                moved: beginning.now,
            }),
        }
    }

    /// Its ballot.
    pub fn ballot(&self) -> Ballot
        ensures value { result ≡ self.now.ballot }
        ensures open { (n : ℕ) (marks : List Mark) → StandsFor self.now n marks → open_ballot n marks ≡ Some result }
    {
        self.ballot
    }

    /// Whether it gathers promises at this ballot.
    pub fn gathers_at(&self, ballot: Ballot) -> bool
        ensures value { result ≡ self.now.gathers && is_same self.now.ballot ballot }
        ensures marks { TellsGathering result ballot self.now }
    {
        self.gathers && self.ballot.is_same(ballot)
    }

    /// Counts the promise of a member for a ballot, with the vote that it reported.
    ///
    /// `Err` comes only where the promise is to be counted; the proposal is as before then.
    pub fn promise(
        &mut self,
        from: Member,
        ballot: Ballot,
        report: Option<VoteRef<'_>>,
    ) -> Result<Counted, AllocError>
        requires { from ≤ self.old.members }
        ensures counted { IfOk result (λ kind. CountsPromise kind from ballot report.entry self.old self.new) }
        ensures refused { OnErr result (RefusesPromise from ballot self.old self.new) }
    {
        if !self.gathers_at(ballot) {
            return Ok(Counted::Stale);
        }
        slots_of_members::<Option<Option<Vote>>>();
        // The member's range is known once it is read.
        let _range = from.get();
        let is_new = count_once(self.alloc, &mut self.slots, from, report)?;
        if !is_new {
            return Ok(Counted::Repeated);
        }
        if !is_quorum(&self.slots) {
            return Ok(Counted::More);
        }
        Ok(Counted::Quorum)
    }

    /// Keeps the promise by which an acceptor denied the ballot, where it is the greatest so far.
    ///
    /// `false` where the ballot is another: nothing is kept then.
    pub fn nack(&mut self, ballot: Ballot, promised: Ballot) -> bool
        ensures { KeepsNack result ballot promised self.old self.new }
    {
        if !self.ballot.is_same(ballot) {
            return false;
        }
        self.denied = greater(self.denied, Some(promised));
        true
    }

    /// The entry to propose: that of the greatest reported vote (of the least member where equal), else the own one, if any.
    pub fn pick(&self) -> Option<EntryRef<'_>>
        ensures { IsPicked (option_map lent_entry result) self.now }
    {
        slots_of_members::<Option<Option<Vote>>>();
        entry_or(&self.own, greatest_vote(&self.slots))
    }

    /// It was proposed at this moment, in milliseconds: it gathers no more promises, and its due moment is set anew.
    pub fn proposed(&mut self, now: u64)
        ensures { IsProposed now self.old self.new }
    {
        self.gathers = false;
        self.moved = now;
    }

    /// The moment from which on it is due, in milliseconds: 250, and 40 for each of the member's number, after it
    /// last began a ballot or was proposed; at most the last moment of all.
    pub fn due_moment(&self) -> u64
        ensures value { result ≡ min (self.now.moved + 250 + 40 * self.now.me) (2 ^ 64 - 1) }
        ensures moment { IsDueMoment result self.now }
    {
        let member = u64::from(self.seat.me().get());
        self.moved.saturating_add(250 + 40 * member)
    }

    /// The ballot after the saved promise and the greatest Nack; `None` after the most ballots, or where the rounds are spent.
    fn next_ballot(&self, promised: Option<Ballot>) -> Option<Ballot>
        ensures { result ≡ (if nat_le most_ballots self.now.begun then None else next (greater_ballot promised self.now.denied) self.now.me) }
    {
        if self.begun >= MOST_BALLOTS {
            return None;
        }
        Ballot::next(greater(promised, self.denied), self.seat.me())
    }

    /// What it does at this moment, in milliseconds, where `promised` is the saved promise and `report` the saved vote.
    ///
    /// Where it begins anew, the own entry is kept, and the own member counts as promised with `report`.
    /// No memory is taken, and `Err` never comes.
    pub fn due(
        &mut self,
        promised: Option<Ballot>,
        report: Option<Vote>,
        now: u64,
    ) -> Result<DueAnswer, AllocError>
        ensures due { IfOk result (λ answer. SeesToDue answer promised report now self.old self.new) }
        ensures no_memory { IsOk result }
    {
        slots_of_members::<Option<Option<Vote>>>();
        if now < self.due_moment() {
            return Ok(DueAnswer::Wait);
        }
        match self.next_ballot(promised) {
            None => Ok(DueAnswer::GaveUp),
            Some(ballot) => {
                self.ballot = ballot;
                self.slots = counted_alone(self.seat, report);
                self.gathers = true;
                self.begun += 1;
                self.moved = now;
                Ok(DueAnswer::Began { ballot })
            }
        }
    }
}
