//! What a plant does to catch up.

ghost use Rattle.std.specs.Prelude.{◌≡◌, ◌&&◌, ◌||◌, ◌+◌, ◌-◌, ◌^◌, None, IfOk, is_some, min};
ghost use Rattle.catch_up.specs.Asked.{nothing_asked, told_to};
ghost use Rattle.catch_up.specs.Before.{IsBegunBefore, handed_out, left_before, settled_before};
ghost use Rattle.catch_up.specs.Lacking.{IsOutOf, gone_in, taken_in};
ghost use Rattle.catch_up.specs.Calls.{dropped_in, is_told_in, told_by_in};
ghost use Rattle.catch_up.specs.Starting.{AsksFrom, CallsFrom, StartsWith};
ghost use Rattle.catch_up.specs.CatchUp.{AreMissedTaken, IsWaveTaken, out_at};
ghost use Rattle.catch_up.specs.Told.{HasCome, IsDeclined, IsStepTold};

use crate::asked::RecallQueue;
use crate::before::Before;
use crate::calls;
use crate::lacking::{count_datagram, has_gone_out, is_busy, leave, tell};
use crate::news::{news_of, news_of_packet};
use crate::own::OwnRecalls;
use crate::packet::PacketHead;
use crate::recalling::recall_no_longer;
use crate::start::{Start, asking_of, calls_of, healing_of};
use crate::wave::{AskedNumbers, ToldBy, Wave, finished, leave_wave, missed_of};
use arrayvec::ArrayVec;
use ballots::{Member, Number};
use gone_out::{Numbers, Origin};
use healing::{Healing, NumberNews};
use node_core::Note;
use roll_call::RollCall;
use std::alloc::{AllocError, Global};
use std::marker::Model;

/// What a plant knows of the numbers that it lacks and of the votes of its circuit, what it does about them, and what waits to be told to
/// members that asked.
#[derive(Drop)]
pub struct CatchUp {
    pub(crate) alloc: Global,
    pub(crate) own: Origin,
    /// What is lacked; `None` where it is not known what went out.
    pub(crate) healing: Option<Healing>,
    /// What is known of votes; `None` where it is not known what has rows.
    pub(crate) rolls: Option<RollCall>,
    /// Whether the plant asks on its own.
    pub(crate) asks: bool,
    pub(crate) before: Before,
    /// What was asked for of late; `None` where the plant never asks.
    pub(crate) wave: Option<AskedNumbers>,
    /// How many batches were recalled, as far as there are numbers.
    pub(crate) batches: u32,
    /// The numbers that are recalled.
    pub(crate) recalling: Option<OwnRecalls>,
    pub(crate) asked: RecallQueue,
    /// Whether there may be an errand.
    pub(crate) is_stirred: bool,
    /// Whether the last errand was an own one, so that those for others come first.
    pub(crate) others_first: bool,
    /// Whether the last errand for others told a vote, so that replies to rolls come first.
    pub(crate) replies_first: bool,
    /// Whether the last own errand that was begun was about what is lacked, so that asks of rolls come first.
    pub(crate) rolls_first: bool,
}

impl Model for CatchUp {
    ghost use Rattle.catch_up.specs.CatchUp.{CatchUpValue, IsCatchUp};

    ghost Value = { CatchUpValue };

    ghost view = { λ c. record { own = c.own; healing = c.healing; rolls = c.rolls; asks = c.asks; before = c.before; wave = c.wave; batches = c.batches; recalling = c.recalling; asked = c.asked; is_stirred = c.is_stirred; others_first = c.others_first; replies_first = c.replies_first; rolls_first = c.rolls_first } };

    ghost invariant = { λ c. IsCatchUp c.own c.healing c.rolls c.recalling };
}

impl CatchUp {
    /// What a plant knows at its start, at a moment in milliseconds.
    ///
    /// # Errors
    ///
    /// Out of memory.
    pub fn new(alloc: Global, start: Start, now: u64) -> Result<CatchUp, AllocError>
        ensures own { IfOk result (λ c. c.own ≡ start.own) }
        ensures lacks { IfOk result (λ c. StartsWith start now c.healing) }
        ensures rolls { IfOk result (λ c. CallsFrom start.own start.known now c.rolls) }
        ensures asks { IfOk result (λ c. c.asks ≡ (start.asks && is_some c.healing)) }
        ensures before { IfOk result (λ c. IsBegunBefore (start.is_first && is_some c.healing) c.before) }
        ensures wave { IfOk result (λ c. AsksFrom c.asks c.wave) }
        ensures nothing { IfOk result (λ c. (c.recalling ≡ None) × (c.asked ≡ nothing_asked)) }
    {
        let mut start = start;
        let healing = healing_of(alloc, &mut start, now)?;
        let asks = start.asks && healing.is_some();
        let before = Before::new(alloc, start.is_first && healing.is_some())?;
        let wave = asking_of(alloc, asks)?;
        let own = start.own;
        let rolls = calls_of(alloc, own, start.known, now)?;
        Ok(CatchUp {
            alloc,
            own,
            healing,
            rolls,
            asks,
            before,
            wave,
            batches: 0,
            recalling: None,
            asked: RecallQueue::new(alloc)?,
            is_stirred: true,
            others_first: false,
            replies_first: false,
            rolls_first: true,
        })
    }

    /// Whether there may be an errand. It is cheap.
    pub fn has_errand(&self) -> bool
        ensures { result ≡ self.now.is_stirred }
    {
        self.is_stirred
    }

    /// A look at the folders came to pass: what is lacked is looked for again, and others may be asked. A station that knows neither what
    /// went out nor its rows has nothing to look for.
    pub fn look(&mut self)
        ensures { self.new ≡ record self.old { is_stirred = self.old.is_stirred || (is_some self.old.healing || is_some self.old.rolls) } }
    {
        self.is_stirred = self.is_stirred || (self.healing.is_some() || self.rolls.is_some());
    }

    /// A packet was taken in by the station, at a moment in milliseconds.
    ///
    /// # Errors
    ///
    /// Out of memory. What is known of numbers is then as before.
    pub fn came(&mut self, packet: PacketHead, now: u64) -> Result<(), AllocError>
        ensures { HasCome packet self.old self.new now result }
    {
        count_datagram(&mut self.healing);
        calls::came(&mut self.rolls, now);
        tell(
            &mut self.healing,
            packet.number,
            news_of_packet(packet),
            now,
        )
    }

    /// A datagram that says nothing was taken in or passed over.
    pub fn passed_over(&mut self)
        ensures { self.new ≡ record self.old { healing = taken_in self.old.healing } }
    {
        count_datagram(&mut self.healing);
    }

    /// A step of the station about a number was done with this note, at a moment in milliseconds; whether it opened a ballot for a file
    /// among the offers. Where the step saved a vote, the number is among the own votes.
    ///
    /// # Errors
    ///
    /// Out of memory. What is known of numbers is then as before, but that the step's row may be known.
    pub fn did(
        &mut self,
        number: Number,
        note: &Note,
        opened: bool,
        now: u64,
    ) -> Result<(), AllocError>
        ensures { IsStepTold (record { number = number; note = note.now; opened = opened }) self.old self.new now result }
    {
        calls::note_vote(&mut self.rolls, number, note, now);
        if let Some(news) = news_of(*note) {
            tell(&mut self.healing, number, news, now)?;
        }
        if opened {
            tell(&mut self.healing, number, NumberNews::Opened, now)?;
        }
        Ok(())
    }

    /// A vote was told again to a member by so many bytes, at a moment in milliseconds.
    pub fn told(&mut self, to: Member, bytes: usize, now: u64)
        ensures { self.new ≡ record self.old { asked = told_to to bytes now self.old.asked } }
    {
        self.asked.count(to, bytes, now);
    }

    /// The station took no search of this number now: it waits again.
    ///
    /// # Errors
    ///
    /// Out of memory. What is known of numbers is then as before.
    pub fn declined(&mut self, number: Number, now: u64) -> Result<(), AllocError>
        ensures { IsDeclined number self.old self.new now result }
    {
        tell(&mut self.healing, number, NumberNews::Closed, now)
    }

    /// A number went out here: it is never asked for again.
    pub fn went_out(&mut self, number: Number)
        ensures out { IsOutOf self.old.healing self.new.healing number }
        ensures rest { self.new ≡ out_at number self.new.healing self.old }
    {
        let was_out = has_gone_out(&self.healing, number);
        leave(&mut self.healing, number);
        recall_no_longer(&mut self.recalling, number);
        leave_wave(&mut self.wave, number, was_out);
    }

    /// Whether a number went out here. Where it is not known what went out, none did.
    pub fn has_gone_out(&self, number: Number) -> bool
        ensures { result ≡ gone_in self.now.healing number }
    {
        has_gone_out(&self.healing, number)
    }

    /// How many numbers and rolls were dropped of what others asked, since the start.
    pub fn dropped(&self) -> u64
        ensures { result ≡ min (self.now.asked.dropped + dropped_in self.now.rolls) (2 ^ 64 - 1) }
    {
        self.asked
            .dropped()
            .saturating_add(calls::dropped(&self.rolls))
    }

    /// Whether a majority, the station itself among it, told its votes: how many numbers of each page have one, and each page that has.
    pub fn is_told(&self) -> bool
        ensures { result ≡ is_told_in self.now.rolls }
    {
        calls::is_told(&self.rolls)
    }

    /// How many others there are to tell their votes, and how many of them told them.
    pub fn told_by(&self) -> ToldBy
        ensures others { result.others ≡ self.now.own.count - 1 }
        ensures told { result.told ≡ told_by_in self.now.rolls }
    {
        ToldBy {
            others: self.own.count.saturating_sub(1),
            told: calls::told_by(&self.rolls),
        }
    }

    /// In the first start that keeps what went out, once a majority told its votes: the numbers that others have a vote of and that were
    /// not known here. They went out before, and are to be told and noted. They are handed out once.
    pub fn take_from_before(&mut self) -> Option<Numbers>
        ensures result { result ≡ handed_out (settled_before (is_told_in self.old.rolls) self.old.before) }
        ensures rest { self.new ≡ record self.old { before = left_before (settled_before (is_told_in self.old.rolls) self.old.before) } }
    {
        self.before.settle(calls::is_told(&self.rolls));
        self.before.take()
    }

    /// The numbers that were asked for the first time since nothing was lacked last, and that were not handed out yet: at most 64. Those of
    /// a batch rise.
    pub fn take_missed(&mut self) -> ArrayVec<u32, 64>
        ensures { AreMissedTaken self.old self.new result.items }
    {
        missed_of(&mut self.wave)
    }

    /// What became of the numbers that were asked for, once nothing is lacked any more and a majority told its votes; it is over then, and
    /// the next begins with the next number that is asked for. `None` where nothing was asked for. Where memory is refused it comes later.
    pub fn take_wave(&mut self) -> Option<Wave>
        ensures { IsWaveTaken self.old self.new result }
    {
        if is_busy(&self.healing) || !calls::is_told(&self.rolls) {
            return None;
        }
        finished(&mut self.wave, self.alloc)
    }
}
