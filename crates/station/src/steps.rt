//! The steps of a station.

ghost use Rattle.std.specs.Prelude.{◌≡◌, ◌≤◌, true, false, IfOk, OnOk, IfErr, length};
ghost use Rattle.protocol.specs.Entries.{Void, Taped};
ghost use Rattle.protocol.specs.Versions.{fits};
ghost use Rattle.protocol.specs.Refusals.{Offering, Seeking, Falling_due, Receiving, Recalling, number_refusal};
ghost use Rattle.protocol.specs.Fitting.{EventFits};
ghost use Rattle.protocol.specs.Limits.{most_sent};
ghost use Rattle.tape_frames.specs.Entries.{lent_entry};
ghost use Rattle.rows_saved.specs.Saved.{Rises};
ghost use Rattle.node_core.specs.Standing.{OfItsMarks};
ghost use Rattle.node_core.specs.Calls.{MayCome};
ghost use Rattle.node_core.specs.Turns.{event_value};
ghost use Rattle.station.specs.Readiness.{WasChecked, IsNumbered};
ghost use Rattle.station.specs.Refusing.{ChecksRecall, offer_refusal};
ghost use Rattle.station.specs.Checking.{ChecksAsked};
ghost use Rattle.station.specs.Stations.{FollowsRows, Halts, StaysMade, sight};
ghost use Rattle.station.specs.Steps.{Ends, IsFree, IsStep, OnStore, IfStore, IsBlamed, is_early, stopped_after};

use crate::answer::Answer;
use crate::save::Checked;
use crate::station::Station;
use ballots::{Member, Number};
use node_core::{CoreRefusal, Event};
use refusals::StepRefusal;
use rows_saved::Rows;
use tape_frames::{Entry, EntryRef, Tape};

impl<R: Rows> Station<R> {
    /// Offers a tape for a number, at a moment in milliseconds.
    ///
    /// Refused, in this order: `Stopped`, `BadNumber`, `AlreadyReleased`, `AlreadyOpen`, `WireTooOld`,
    /// `TapeFaulty`, `RoundsSpent`; `Store` and `OutOfMemory` stop the station.
    pub fn offer(&mut self, number: u32, tape: &Tape, now: u64) -> Result<Answer, StepRefusal>
        ensures { IsStep R.Rows (Offering number (Taped tape.now) now) self.old self.new result }
    {
        if self.stopped {
            return Err(StepRefusal::Stopped);
        }
        self.follow_rows();
        let number = self.check_offer(number, EntryRef::Plain(tape.lend()))?;
        let slugs = match self.setting(tape) {
            Ok(Ok(slugs)) => slugs,
            Ok(Err(fault)) => return Err(StepRefusal::TapeFaulty(fault)),
            Err(_) => return Err(self.stop(StepRefusal::OutOfMemory)),
        };
        let checked = Checked { tape, slugs };
        match tape.copy() {
            Ok(tape) => {
                let entry = Entry::Tape(tape);
                self.run_turn(Event::Offer { number, entry, now }, Some(checked))
            }
            Err(_) => Err(self.stop(StepRefusal::OutOfMemory)),
        }
    }

    /// Withdraws a number, at a moment in milliseconds: it offers that the number has no tape.
    ///
    /// Refused, in this order: `Stopped`, `BadNumber`, `AlreadyReleased`, `AlreadyOpen`, `WireTooOld`,
    /// `RoundsSpent`; `Store` and `OutOfMemory` stop the station.
    pub fn withdraw(&mut self, number: u32, now: u64) -> Result<Answer, StepRefusal>
        ensures { IsStep R.Rows (Offering number Void now) self.old self.new result }
    {
        if self.stopped {
            return Err(StepRefusal::Stopped);
        }
        self.follow_rows();
        let number = self.check_offer(number, EntryRef::Void)?;
        let entry = Entry::Void;
        self.run_turn(Event::Offer { number, entry, now }, None)
    }

    /// Seeks the entry of a number, at a moment in milliseconds.
    ///
    /// Refused, in this order: `Stopped`, `BadNumber`, `AlreadyReleased`, `AlreadyOpen`,
    /// `RoundsSpent`; `Store` and `OutOfMemory` stop the station.
    pub fn seek(&mut self, number: u32, now: u64) -> Result<Answer, StepRefusal>
        ensures { IsStep R.Rows (Seeking number now) self.old self.new result }
    {
        if self.stopped {
            return Err(StepRefusal::Stopped);
        }
        self.follow_rows();
        let number = self.check_number(number)?;
        self.run_turn(Event::Seek { number, now }, None)
    }

    /// Sees to the least number that is due at a moment in milliseconds. Where none is due, the note is
    /// `Idle`, and the store is not asked.
    ///
    /// Refused as `Stopped`; `Store` and `OutOfMemory` stop the station.
    pub fn due(&mut self, now: u64) -> Result<Answer, StepRefusal>
        ensures { IsStep R.Rows (Falling_due now) self.old self.new result }
    {
        if self.stopped {
            return Err(StepRefusal::Stopped);
        }
        self.follow_rows();
        match self.speaker.core().next_due(now) {
            None => Ok(Answer::idle(self.alloc)),
            Some(number) => self.run_turn(Event::Due { number, now }, None),
        }
    }

    /// Takes in the bytes of a datagram that came, at a moment in milliseconds. At version 1 it reads packets of version 1
    /// alone, at version 2 those of both.
    ///
    /// Refused, in this order: `Stopped`, `BadDatagram`, `WrongCircuit`, `NotForMe`, `Stranger`;
    /// `Store` and `OutOfMemory` stop the station.
    pub fn receive(&mut self, bytes: &[u8], now: u64) -> Result<Answer, StepRefusal>
        ensures { IsStep R.Rows (Receiving bytes.now now) self.old self.new result }
    {
        if self.stopped {
            return Err(StepRefusal::Stopped);
        }
        self.follow_rows();
        let packet = self.speaker.read(bytes)?;
        self.run_turn(Event::Arrived { packet, now }, None)
    }

    /// Tells the vote of a number's row again to a member: to another in a datagram, and to the station itself by hearing it, which
    /// may release the number's entry. The row stays as it is, and nothing is saved. Where it has no vote, the note is `Blank`.
    ///
    /// Refused, in this order: `Stopped`, `BadNumber`, `NoSuchMember`; `Store` and `OutOfMemory` stop the station.
    pub fn recall(&mut self, number: u32, to: u8) -> Result<Answer, StepRefusal>
        ensures { IsStep R.Rows (Recalling number to) self.old self.new result }
    {
        if self.stopped {
            return Err(StepRefusal::Stopped);
        }
        self.follow_rows();
        let (number, to) = self.check_recall(number, to)?;
        self.run_turn(Event::Recall { number, to }, None)
    }

    /// The number, where it is one that can be asked for.
    fn check_number(&self, number: u32) -> Result<Number, StepRefusal>
        ensures { ChecksAsked number self.now.speaker.core (number_refusal number) result }
    {
        let Some(number) = Number::new(number) else {
            return Err(StepRefusal::BadNumber);
        };
        let core = self.speaker.core();
        if core.released(number) {
            return Err(StepRefusal::AlreadyReleased);
        }
        if core.open_ballot(number).is_some() {
            return Err(StepRefusal::AlreadyOpen);
        }
        Ok(number)
    }

    /// The number, where it is one that can be asked for, and the station has a spelling for the entry that is offered.
    fn check_offer(&self, number: u32, entry: EntryRef<'_>) -> Result<Number, StepRefusal>
        ensures fits { OnOk result (fits self.now.speaker.wire (lent_entry entry.entry) ≡ true) }
        ensures asked { ChecksAsked number self.now.speaker.core (offer_refusal self.now.speaker.wire number (lent_entry entry.entry)) result }
    {
        let number = self.check_number(number)?;
        if !self.speaker.has_spelling(&entry) {
            return Err(StepRefusal::WireTooOld);
        }
        Ok(number)
    }

    /// The number and the member to which its vote is to be told again. Refused where there is no such number, and then where the circuit has
    /// no such member.
    fn check_recall(&self, number: u32, to: u8) -> Result<(Number, Member), StepRefusal>
        ensures number { IfOk result (λ asked. asked.0 ≡ number) }
        ensures to { IfOk result (λ asked. asked.1 ≡ to) }
        ensures checks { ChecksRecall self.now.speaker.core.members number to result }
    {
        let Some(number) = Number::new(number) else {
            return Err(StepRefusal::BadNumber);
        };
        let members = self.speaker.core().members();
        match Member::new(to) {
            Some(to) if to.get() <= members => Ok((number, to)),
            _ => Err(StepRefusal::NoSuchMember),
        }
    }

    /// Runs the turn of an event at its number's saved row, and saves the row before anything is handed out.
    /// A tape that was checked is not set again.
    #[tactic(auto, using(crate::proofs::Refused::spent_stays, crate::proofs::Refused::spent_none, crate::proofs::Refused::not_released, crate::proofs::Refused::not_open, crate::proofs::Refused::not_failed))]
    fn run_turn(
        &mut self,
        event: Event<'_>,
        checked: Option<Checked<'_>>,
    ) -> Result<Answer, StepRefusal>
        requires goes { self.old.stopped ≡ false }
        requires wire { self.old.speaker.wire ≡ R.version self.old.rows }
        requires arrived { MayCome self.old.speaker.core.me self.old.speaker.core.members event }
        requires fits { EventFits self.old.speaker.wire (event_value event) }
        requires checked { WasChecked self.old.table self.old.widths checked }
        requires free { OfItsMarks self.old.speaker.core (λ marks. IsFree marks (event_value event)) }
        ensures ends { R.kept self.new.rows → OfItsMarks self.old.speaker.core (λ marks. Ends (sight R.Rows) (event_value event.entry) self.old self.new marks result) }

        // What is refused early is so before the turn.
        ensures late { IfErr result (λ r. is_early r ≡ false) }
        ensures rows { StaysMade R.Rows self.old.rows self.new.rows }
        ensures few { IfOk result (λ a. length a.out.items ≤ most_sent) }
        ensures numbered { IfOk result (λ a. IsNumbered a.release) }
        ensures cause { OnStore result (Rises (R.refusals self.old.rows) (R.refusals self.new.rows)) }
        ensures blames { IfStore result (IsBlamed (sight R.Rows) self.old.rows self.new.rows) }
        ensures wire { self.new.speaker.wire ≡ self.old.speaker.wire }
        ensures stops { self.new.stopped ≡ stopped_after self.old.stopped result }
    {
        let number = event.number();
        let row = match self.rows.get(number) {
            Ok(row) => row,
            Err(fault) => return Err(self.stop(StepRefusal::Store(fault))),
        };
        match self.speaker.handle(event, &row) {
            Ok(turn) => match self.save(number, &row, turn, checked) {
                Ok(answer) => Ok(answer),
                Err(refusal) => Err(self.stop(refusal)),
            },
            Err(CoreRefusal::RoundsSpent) => Err(StepRefusal::RoundsSpent),
            Err(CoreRefusal::AlreadyReleased) => Err(StepRefusal::AlreadyReleased),
            Err(CoreRefusal::AlreadyOpen) => Err(StepRefusal::AlreadyOpen),
            Err(CoreRefusal::Failed) => Err(self.stop(StepRefusal::OutOfMemory)),
            Err(CoreRefusal::OutOfMemory) => Err(self.stop(StepRefusal::OutOfMemory)),
        }
    }

    /// Speaks the version of its rows from now on, as each step does before all else. Where another left the rows at a
    /// lower version, it forgets what it took in.
    pub(crate) fn follow_rows(&mut self)
        ensures { FollowsRows R.Rows self.old self.new }
    {
        self.speaker.follow(self.rows.version());
    }

    /// It forgets what it took in, and takes no step until a restart, or an upgrade that is Ok. Handed on is the refusal that stops it.
    pub(crate) fn stop(&mut self, refusal: StepRefusal) -> StepRefusal
        ensures same { result ≡ refusal }
        ensures halts { Halts self.old self.new }
    {
        self.speaker.clear();
        self.stopped = true;
        refusal
    }
}
