//! What a plant does next to catch up.

ghost use Rattle.std.specs.Prelude.{◌≡◌, None, Some, true, false, IfOk, IfSome, OnErr, is_some};
ghost use Rattle.catch_up.specs.Own.{asked_again, begun};
ghost use Rattle.catch_up.specs.Errands.{IsGoodErrand};
ghost use Rattle.catch_up.specs.Lacking.{NoneWentOut, SameGone};
ghost use Rattle.catch_up.specs.Waves.{AreAskedIn};
ghost use Rattle.catch_up.specs.CatchUp.{IsAsked, IsBegun, IsErrandFor, IsFirstAsk, IsFirstForOthers, IsAsking, IsFirstReply, IsHealed, IsLastAsk, IsNext, IsOwnErrand, IsReplied, IsReplying, IsSent, IsServing, KeepsOthers, Rests, StaysItself, TakesNext, calm, next_batch};

use crate::calls;
use crate::catch_up::CatchUp;
use crate::errand::Errand;
use crate::lacking::{again, may_ask_pages, want};
use crate::own::OwnRecalls;
use crate::recalling::go_on;
use crate::wave::ask_wave;
use healing::{Batch, Want};
use rolls::Roll;
use std::alloc::{AllocError, Global};

/// The errand that sends a roll.
fn sent(alloc: Global, roll: &Roll) -> Result<Errand, AllocError>
    ensures { IfOk result (IsSent roll.now) }
{
    Ok(Errand::Send {
        to: roll.ticket().to(),
        bytes: rolls::encode(alloc, roll)?,
    })
}

impl CatchUp {
    /// These numbers are recalled.
    fn recall(&mut self, batch: &Batch)
        requires { NoneWentOut self.old.healing batch.now }
        ensures wave { AreAskedIn self.old.wave self.new.wave batch.now }
        ensures rest { self.new ≡ record self.old { batches = next_batch self.old; recalling = Some (begun self.old.own (next_batch self.old) batch.now); wave = self.new.wave } }
    {
        self.batches = self.batches.wrapping_add(1);
        self.recalling = Some(OwnRecalls::new(self.own, self.batches, batch));
        ask_wave(&mut self.wave, batch);
    }

    /// These numbers, which are recalled, are asked for once more.
    fn ask_again(&mut self, batch: &Batch)
        requires { NoneWentOut self.old.healing batch.now }
        ensures { self.new ≡ record self.old { batches = next_batch self.old; recalling = Some (asked_again self.old.own (next_batch self.old) batch.now) } }
    {
        self.batches = self.batches.wrapping_add(1);
        self.recalling = Some(OwnRecalls::again(self.own, self.batches, batch));
    }

    /// What comes next about what is lacked: what is recalled is asked for once more, or else what the plant wants next.
    fn heal(&mut self, now: u64, waits: bool) -> Result<Option<Errand>, AllocError>
        ensures own { IfOk result (λ e. IfSome e (IsHealed self.old self.new.wave now)) }
        ensures rest { self.new ≡ record self.old { healing = self.new.healing; batches = self.new.batches; recalling = self.new.recalling; wave = self.new.wave } }
        ensures gone { SameGone self.old.healing self.new.healing }
    {
        if let Some(batch) = &again(&mut self.healing, now, waits) {
            self.ask_again(batch);
            return go_on(&mut self.recalling, self.alloc);
        }
        let Some(want) = want(&mut self.healing, now, waits)? else {
            return Ok(None);
        };
        match &want {
            Want::Seek { number } => Ok(Some(Errand::Seek { number: *number })),
            Want::Recall { numbers } => {
                self.recall(numbers);
                go_on(&mut self.recalling, self.alloc)
            }
        }
    }

    /// The next ask of a roll; of pages only where they may be asked for.
    fn ask(&mut self, now: u64, may_ask_pages: bool) -> Result<Option<Errand>, AllocError>
        ensures { IsAsking self.old self.new (IsAsked self.old self.new now may_ask_pages) result }
    {
        let Some(roll) = calls::question(&mut self.rolls, now, may_ask_pages) else {
            return Ok(None);
        };
        self.rolls_first = false;
        Ok(Some(sent(self.alloc, &roll)?))
    }

    /// The next ask of a roll, where those come first.
    fn first_ask(&mut self, now: u64, may_ask_pages: bool) -> Result<Option<Errand>, AllocError>
        ensures { IsAsking self.old self.new (IsFirstAsk self.old self.new now may_ask_pages) result }
    {
        if self.rolls_first {
            self.ask(now, may_ask_pages)
        } else {
            Ok(None)
        }
    }

    /// The next ask of a roll, where those do not come first.
    fn last_ask(&mut self, now: u64, may_ask_pages: bool) -> Result<Option<Errand>, AllocError>
        ensures { IsAsking self.old self.new (IsLastAsk self.old self.new now may_ask_pages) result }
    {
        if self.rolls_first {
            Ok(None)
        } else {
            self.ask(now, may_ask_pages)
        }
    }

    /// What comes next of the plant's own where nothing is left of what it recalls: an ask of a roll or something about what is lacked, by
    /// turns.
    fn begin(&mut self, now: u64, waits: bool) -> Result<Option<Errand>, AllocError>
        ensures own { IfOk result (λ e. IfSome e (IsBegun self.old self.new now)) }
        ensures keeps { KeepsOthers self.old self.new }
    {
        let may = may_ask_pages(&self.healing);
        if let Some(errand) = self.first_ask(now, may)? {
            return Ok(Some(errand));
        }
        if let Some(errand) = self.heal(now, waits)? {
            self.rolls_first = true;
            return Ok(Some(errand));
        }
        self.last_ask(now, may)
    }

    /// The next errand of the plant's own, if it asks on its own: what is left of what it recalls, or else what it begins.
    #[tactic(auto, using(crate::proofs::Next::done))]
    fn own_errand(&mut self, now: u64, waits: bool) -> Result<Option<Errand>, AllocError>
        ensures own { IfOk result (λ e. IfSome e (IsOwnErrand self.old self.new now)) }
        ensures asks { IfOk result (λ e. IfSome e (λ _. self.old.asks ≡ true)) }
        ensures rests { IfOk result (λ e. e ≡ None → Rests self.old) }
        ensures keeps { KeepsOthers self.old self.new }
    {
        if !self.asks {
            return Ok(None);
        }
        if let Some(errand) = go_on(&mut self.recalling, self.alloc)? {
            return Ok(Some(errand));
        }
        self.begin(now, waits)
    }

    /// The next reply to a roll.
    fn reply(&mut self, now: u64) -> Result<Option<Errand>, AllocError>
        ensures { IsReplying self.old self.new (IsReplied self.old self.new now) result }
    {
        let Some(roll) = calls::reply(&mut self.rolls, now) else {
            return Ok(None);
        };
        self.replies_first = false;
        Ok(Some(sent(self.alloc, &roll)?))
    }

    /// The next reply to a roll, where those come first.
    fn first_reply(&mut self, now: u64) -> Result<Option<Errand>, AllocError>
        ensures { IsReplying self.old self.new (IsFirstReply self.old self.new now) result }
    {
        if self.replies_first {
            self.reply(now)
        } else {
            Ok(None)
        }
    }

    /// The next errand for others: a reply to a roll, or a vote that is told, by turns.
    fn errand_for_others(&mut self, now: u64) -> Result<Option<Errand>, AllocError>
        ensures { IsServing self.old self.new (IsErrandFor self.old self.new now) result }
    {
        if let Some(errand) = self.first_reply(now)? {
            return Ok(Some(errand));
        }
        if let Some((number, to)) = self.asked.take(now) {
            self.replies_first = true;
            return Ok(Some(Errand::Tell { number, to }));
        }
        self.reply(now)
    }

    /// The next errand for others, where those come first.
    fn first_for_others(&mut self, now: u64) -> Result<Option<Errand>, AllocError>
        ensures { IsServing self.old self.new (IsFirstForOthers self.old self.new now) result }
    {
        if self.others_first {
            self.errand_for_others(now)
        } else {
            Ok(None)
        }
    }

    /// The next errand of those whose turn it is, or else of the others.
    fn errand(&mut self, now: u64, waits: bool) -> Result<Option<Errand>, AllocError>
        ensures { TakesNext self.old self.new now result }
    {
        if let Some(errand) = self.first_for_others(now)? {
            self.others_first = false;
            return Ok(Some(errand));
        }
        if let Some(errand) = self.own_errand(now, waits)? {
            self.others_first = true;
            return Ok(Some(errand));
        }
        let errand = self.errand_for_others(now)?;
        self.others_first = false;
        Ok(errand)
    }

    /// The next errand, at a moment in milliseconds, where datagrams wait in memory or none does; `None`: nothing until something
    /// happens.
    ///
    /// # Errors
    ///
    /// Out of memory. What is known is then as good as before, but some may come late.
    pub fn next(&mut self, now: u64, waits: bool) -> Result<Option<Errand>, AllocError>
        // What is sent spells a recall or a roll to the member that it is sent to.
        ensures sends { IfOk result (λ e. IfSome e IsGoodErrand) }
        // An own errand, of numbers that are lacked and did not go out, or an ask of a roll; or one for a member, of what it asked for.
        ensures next { IfOk result (IsNext (calm self.old) (calm self.new) now) }
        ensures stirred { IfOk result (λ e. self.new.is_stirred ≡ is_some e) }
        ensures rests { OnErr result (self.new.is_stirred ≡ false) }
        ensures stays { StaysItself self.old self.new }
    {
        self.is_stirred = false;
        let errand = self.errand(now, waits)?;
        self.is_stirred = errand.is_some();
        Ok(errand)
    }
}
