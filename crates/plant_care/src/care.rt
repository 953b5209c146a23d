//! How a station that stays up catches up, and lets others do: what it is told of that, and what it does about it.

ghost use Rattle.std.specs.Prelude.{◌≡◌, ◌||◌, [], None, IfSome, false};
ghost use Rattle.catch_up.specs.Errands.{IsGoodErrand};
ghost use Rattle.plant_care.specs.Asking.{is_search_due};
ghost use Rattle.plant_care.specs.Caring.{ComesNext, Declines, FindsErrand, HasLeft, IsAskHeard, IsAsideHeard, IsDone, IsHeardSo, IsPacketHeard, KeepsGone, KeepsMissed, TakesTurns, told_by};

use crate::ask::RangeAsk;
use crate::beginning::CareStart;
use crate::ranges::{decline_by_hand, hear_by_hand, is_search_due, next_by_hand};
use crate::surveying::add_lacked;
use ballots::Number;
use catch_up::{CatchUp, Errand, PacketHead, Unheard};
use catch_up_log::{Missed, Spoken, Unheards, Unnoted};
use driver::{Chance, Declined, HeardDatagram, Log, Said, TakenStep};
use folders::FolderFault;
use gone_out::Numbers;
use node_core::Note;
use packets::PacketKind;
use rolls::Aside;
use std::alloc::Global;
use std::io::Write;

/// What is kept in mind of catching up.
#[derive(Drop)]
pub struct Care {
    pub(crate) alloc: Global,
    pub(crate) catch_up: CatchUp,
    /// The numbers that went out before that was kept, and are not noted yet.
    pub(crate) before: Vec<Number>,
    pub(crate) notes: Unnoted,
    /// The recalls and the rolls that were passed over.
    recalls: Unheards,
    rolls: Unheards,
    /// The numbers that are asked for, as far as that is not told yet.
    pub(crate) missed: Missed,
    /// Whether the last deed was an errand, so that the next is one with a file.
    had_turn: bool,
    /// Whether faults alone are told.
    pub(crate) is_quiet: bool,
    /// Whether it was told that no majority told its votes.
    pub(crate) told_few: bool,
    /// What the station is to start from, where it can't be read yet what went out, and why it can't.
    pub(crate) waiting: Option<(CareStart, FolderFault)>,
    /// The range that an editor asks for.
    pub(crate) ask: Option<RangeAsk>,
    /// The numbers that were asked for since nothing was lacked last.
    pub(crate) lacked: Option<Numbers>,
}

impl Care {
    /// Nothing is to be noted or told yet, and nothing is asked for by hand.
    pub(crate) fn new(
        alloc: Global,
        catch_up: CatchUp,
        waiting: Option<(CareStart, FolderFault)>,
        is_quiet: bool,
    ) -> Care
        ensures catch_up { result.catch_up ≡ catch_up }
        ensures waiting { result.waiting ≡ waiting }
        ensures quiet { result.is_quiet ≡ is_quiet }
        ensures before { result.before.items ≡ [] }
        ensures ask { result.ask ≡ None }
    {
        Care {
            alloc,
            catch_up,
            before: Vec::new(alloc),
            notes: Unnoted::new(),
            recalls: Unheards::new(Spoken::Recall),
            rolls: Unheards::new(Spoken::Roll),
            missed: Missed::new(),
            had_turn: false,
            is_quiet,
            told_few: false,
            waiting,
            ask: None,
            lacked: None,
        }
    }

    /// A packet came that says this, at a moment. Where there is no memory for it, its number is seen to later.
    fn hear_packet(&mut self, said: Option<Said>, now: u64)
        ensures { IsPacketHeard said self.old self.new }
    {
        match said {
            Some(said) => {
                let packet = PacketHead {
                    number: said.number,
                    sender: said.sender,
                    is_vote: said.kind == PacketKind::Accepted,
                };
                let _ = self.catch_up.came(packet, now);
            }
            None => self.catch_up.passed_over(),
        }
    }

    /// Tells that a recall or a roll is passed over, at a moment.
    fn pass_over<E: Write>(
        &mut self,
        found: &Aside,
        unheard: Unheard,
        now: u64,
        log: &mut Log<'_, E>,
    )
        ensures { self.new ≡ record self.old { recalls = self.new.recalls; rolls = self.new.rolls } }
    {
        let (alloc, text) = (self.alloc, unheard.text());
        match found {
            Aside::Recall(_) => self.recalls.tell(alloc, text, now, log.err),
            Aside::Roll(_) => self.rolls.tell(alloc, text, now, log.err),
        }
    }

    /// A datagram was taken in, at a moment. A recall or a roll that is passed over is told.
    pub fn hear<E: Write>(&mut self, heard: &HeardDatagram, now: u64, log: &mut Log<'_, E>)
        ensures { IsHeardSo heard.now now self.old self.new }
    {
        match heard {
            HeardDatagram::Taken(said) => self.hear_packet(*said, now),
            HeardDatagram::Refused(_) => self.catch_up.passed_over(),
            HeardDatagram::Aside(found) => {
                if let Err(unheard) = self.catch_up.hear(found, now) {
                    self.pass_over(found, unheard, now, log);
                }
            }
        }
    }

    /// A vote was told again to another member, if this step did that.
    fn count_told(&mut self, step: &TakenStep)
        ensures { self.new ≡ record self.old { catch_up = told_by step.now.answer step.now.moment self.old.catch_up } }
    {
        if let Note::Recalled { .. } = &step.answer.note
            && let Some(datagram) = step.answer.out.as_slice().first()
        {
            self.catch_up
                .told(datagram.to(), datagram.bytes().len(), step.moment);
        }
    }

    /// A number was released, if this step did that: it went out.
    fn hear_release(&mut self, step: &TakenStep)
        ensures { HasLeft step.now.answer.release self.old self.new }
    {
        if let Some(release) = &step.answer.release {
            self.catch_up.went_out(release.number);
        }
    }

    /// There is news of the number of a step, if it is about one; whether it opened a ballot for a file.
    fn hear_step(&mut self, step: &TakenStep, opened: bool)
        ensures { KeepsGone self.old self.new }
    {
        if let Some(number) = step.answer.number {
            let _ = self
                .catch_up
                .did(number, &step.answer.note, opened, step.moment);
        }
    }

    /// What came of the number of a step, if it is about one, is an answer where that is asked for; and where it is not known yet what went
    /// out, a row that was saved is kept in mind.
    fn hear_ask(&mut self, step: &TakenStep)
        ensures { IsAskHeard self.old self.new }
    {
        if let Some(number) = step.answer.number {
            hear_by_hand(&mut self.ask, number, step);
            self.keep_saved(number, step);
        }
    }

    /// A step was taken; whether it opened a ballot for a file.
    pub fn did(&mut self, step: &TakenStep, opened: bool)
        ensures { IsDone step.now self.old self.new }
    {
        self.hear_step(step, opened);
        self.hear_ask(step);
        self.count_told(step);
        self.hear_release(step);
    }

    /// The numbers that are asked for from now on are lacked, and to be told, unless faults alone are.
    fn keep_missed(&mut self)
        ensures { KeepsMissed self.old self.new }
    {
        let missed = self.catch_up.take_missed();
        for value in missed.as_slice() {
            if let Some(number) = Number::new(*value) {
                add_lacked(self.alloc, &mut self.lacked, number);
                if !self.is_quiet {
                    self.missed.add(self.alloc, number);
                }
            }
        }
    }

    /// Whether there may be an errand.
    pub fn has_errand(&self) -> bool
        ensures { result ≡ (self.now.catch_up.is_stirred || is_search_due self.now.ask) }
    {
        self.catch_up.has_errand() || is_search_due(&self.ask)
    }

    /// The next errand of catching up, or else of what is asked for by hand. Where there is no memory for it, it comes later.
    fn next_of_all(&mut self, chance: Chance) -> Option<Errand>
        ensures { FindsErrand chance.moment self.old self.new result }
    {
        match self.catch_up.next(chance.moment, chance.waits) {
            Ok(Some(errand)) => Some(errand),
            Ok(None) | Err(_) => match next_by_hand(&mut self.ask, chance.moment) {
                Some(number) => Some(Errand::Seek { number }),
                None => None,
            },
        }
    }

    /// The next errand, if there is one; never two without a deed with a file between them. Where there is no memory for it, it comes later.
    pub fn next(&mut self, chance: Chance) -> Option<Errand>
        ensures good { IfSome result IsGoodErrand }
        ensures turn { TakesTurns result self.old self.new }
        ensures next { self.old.had_turn ≡ false → ComesNext chance.moment result self.old self.new }
    {
        if self.had_turn {
            self.had_turn = false;
            return None;
        }
        let errand = self.next_of_all(chance);
        self.had_turn = errand.is_some();
        self.keep_missed();
        errand
    }

    /// The station took no search of a number; under which a tape was released since the start, or a withdrawal, if anything was.
    pub fn decline(&mut self, declined: Declined, released: Option<bool>)
        ensures { Declines self.old self.new }
    {
        decline_by_hand(&mut self.ask, &declined, released);
        let _ = self.catch_up.declined(declined.number, declined.moment);
    }
}
