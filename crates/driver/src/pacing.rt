//! The pace of a station that stays up: which work comes next, by what was done before it, what waits, and how far the members are with
//! what was asked.

ghost use Rattle.std.specs.Prelude.{◌≡◌, None, Some};
ghost use Rattle.pace.specs.Behind.{first_pace};
ghost use Rattle.pace.specs.Order.{first_counts, next_work};
ghost use Rattle.driver.specs.Pacing.{asking_of, begun_at, counts_at, done_of, heard_from, seen_as, settled_where, sight_at};

use crate::said::Said;
use ballots::{Ballot, Member, Number};
use node_core::Note;
use pace::{Deeds, Done, Pace, Sight, Turns, Work};
use packets::PacketKind;

/// What is to be done with files.
#[derive(Clone, Copy)]
pub struct Tasks {
    /// What is left to be done with them.
    pub deeds: Deeds,
    /// How many are under way.
    pub under_way: usize,
}

/// A ballot of the station itself that was begun for what it was asked.
#[derive(Clone, Copy)]
pub(crate) struct Asking {
    pub(crate) number: Number,
    /// The station's own member.
    pub(crate) owner: Member,
    /// How many bytes the entry has.
    pub(crate) length: usize,
}

/// What is kept in mind of the pace.
#[derive(Drop)]
pub(crate) struct Pacing {
    turns: Turns,
    /// The last work, as long as its end is not told yet; it is the beginning of the next.
    done: Option<Done>,
    pace: Pace,
}

/// What was done of a work, unless it turns out otherwise: that a number was due, or a datagram came, is noted where it is seen.
fn done_of(work: Work) -> Done
    ensures { result ≡ done_of work }
{
    match work {
        Work::Look => Done::Looked,
        Work::TakeIn => Done::TookIn,
        Work::Due => Done::SawNothing,
        Work::Deed { .. } => Done::DidDeed,
        Work::Wait => Done::Waited,
    }
}

/// What was begun where the station has this ballot open of a number, for an entry of so many bytes.
pub(crate) fn asking_of(ballot: Option<Ballot>, number: Number, length: usize) -> Option<Asking>
    ensures { result ≡ asking_of ballot number length }
{
    let owner = ballot?.owner();
    Some(Asking {
        number,
        owner,
        length,
    })
}

/// The last work, if there was one, has ended at a moment in milliseconds.
fn end_last(turns: &mut Turns, last: Option<Done>, now: u64)
    ensures { turns.new ≡ counts_at now last turns.old }
{
    if let Some(done) = last {
        turns.after(done, now);
    }
}

/// Where no datagram waits, what comes from now on was sent after what was asked for.
fn settle(pace: &mut Pace, waits: bool)
    ensures { pace.new ≡ settled_where waits pace.old }
{
    if !waits {
        pace.settle();
    }
}

impl Pacing {
    /// Nothing was done yet, and nothing asked for.
    pub(crate) fn new() -> Pacing
        ensures turns { result.turns ≡ first_counts }
        ensures done { result.done ≡ None }
        ensures pace { result.pace ≡ first_pace }
    {
        Pacing {
            turns: Turns::new(),
            done: None,
            pace: Pace::new(),
        }
    }

    /// The work that comes next at a moment in milliseconds, where a datagram waits in memory or none does, and this is to be done with
    /// files.
    pub(crate) fn next(&mut self, waits: bool, tasks: Tasks, now: u64) -> Work
        ensures work { result ≡ next_work self.new.turns (sight_at now waits tasks (settled_where waits self.old.pace)) }
        ensures turns { self.new.turns ≡ counts_at now self.old.done self.old.turns }
        ensures done { self.new.done ≡ Some (done_of result) }
        ensures pace { self.new.pace ≡ settled_where waits self.old.pace }
    {
        end_last(&mut self.turns, self.done, now);
        settle(&mut self.pace, waits);
        let sight = Sight {
            now,
            waits,
            deeds: tasks.deeds,
            under_way: tasks.under_way,
            is_behind: self.pace.is_any_behind(now),
        };
        let work = self.turns.next(sight);
        self.done = Some(done_of(work));
        work
    }

    /// It was seen to what is due, and this came of it: a number was due, unless the note says that none was.
    pub(crate) fn saw(&mut self, note: &Note)
        ensures { self.new ≡ record self.old { done = seen_as note.now self.old.done } }
    {
        if !matches!(note, Note::Idle) {
            self.done = Some(Done::SawOne);
        }
    }

    /// A ballot was begun, if one was, at a moment in milliseconds.
    pub(crate) fn begin(&mut self, asking: Option<Asking>, now: u64)
        ensures { self.new ≡ record self.old { pace = begun_at asking now self.old.pace } }
    {
        if let Some(asking) = asking {
            self.pace
                .ask(asking.number, asking.owner, asking.length, now);
        }
    }

    /// A datagram that says this was taken in, or one was passed over, at a moment in milliseconds.
    pub(crate) fn hear(&mut self, said: Option<Said>, now: u64)
        ensures { self.new ≡ record self.old { done = Some Done.TookIn; pace = heard_from said now self.old.pace } }
    {
        self.done = Some(Done::TookIn);
        let Some(said) = said else {
            return;
        };
        match said.kind {
            PacketKind::Accepted => {
                self.pace
                    .hear_vote(said.sender, said.number, said.owner, now);
            }
            PacketKind::Accept => {
                self.pace.come_up(said.number, said.owner);
                self.pace.hear(said.sender, now);
            }
            PacketKind::Prepare | PacketKind::Promise | PacketKind::Nack => self
                .pace
                .hear(said.sender, now),
        }
    }
}
