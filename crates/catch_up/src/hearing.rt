//! What a plant makes of recalls and rolls that come.

ghost use Rattle.std.specs.Prelude.{◌≡◌, true, OnErr, OnOk, is_some};
ghost use Rattle.roll_call.specs.RollCall.{IsHeard as IsHeardRoll};
ghost use Rattle.recalls.specs.Recalls.{ticket_of};
ghost use Rattle.rolls.specs.Rolls.{ticket_of as roll_ticket};
ghost use Rattle.catch_up.specs.Unheard.{heard_by};
ghost use Rattle.catch_up.specs.Held.{AreTaken, IsHeldOf, IsHeldOne, IsPageHeld, IsRollHeard, IsTaking, KeepsRest, page_in};
ghost use Rattle.catch_up.specs.Hearing.{IsHeard, IsHeardBy, with_recall};

use crate::calls;
use crate::catch_up::CatchUp;
use crate::lacking::{count_datagram, is_new, tell};
use crate::unheard::{Unheard, check};
use ballots::{Member, Number};
use healing::NumberNews;
use recalls::Recall;
use rolls::{Aside, PAGE_NUMBERS, Roll, RollBody, Votes};
use std::alloc::AllocError;

/// Who told something, and when, in milliseconds.
#[derive(Clone, Copy)]
pub(crate) struct TellingMember {
    member: Member,
    moment: u64,
}

impl CatchUp {
    /// A member told that it has a vote of a number. It is lacked, unless it went out; in the first start that keeps what went out, a
    /// number that is not known here went out before.
    fn hold(&mut self, number: Number, telling: &TellingMember) -> Result<(), AllocError>
        ensures { IsTaking self.old self.new (IsHeldOne self.old self.new number telling.now) result }
    {
        if self.before.collects() && is_new(&self.healing, number) {
            self.before.add(number);
            self.went_out(number);
            return Ok(());
        }
        let member = telling.member;
        tell(
            &mut self.healing,
            number,
            NumberNews::Held { member },
            telling.moment,
        )
    }

    /// A number of a page that a member told, if it is one and has a vote there.
    fn hold_of(
        &mut self,
        value: u32,
        votes: &Votes,
        telling: &TellingMember,
    ) -> Result<(), AllocError>
        ensures { IsTaking self.old self.new (IsHeldOf self.old self.new value votes.now telling.now) result }
    {
        match Number::new(value) {
            Some(number) if votes.contains(number) => self.hold(number, telling),
            _ => Ok(()),
        }
    }

    /// The numbers of a page that a member told.
    fn hold_all(&mut self, votes: &Votes, telling: &TellingMember) -> Result<(), AllocError>
        ensures { IsTaking self.old self.new (IsPageHeld self.old self.new votes.now telling.now) result }
    {
        let first = PAGE_NUMBERS * u32::from(votes.page().get());
        for place in 0..PAGE_NUMBERS {
            self.hold_of(first + place, votes, telling)?;
        }
        Ok(())
    }

    /// The numbers of the page that a roll tells, if it tells one that was asked for.
    fn hear_page(&mut self, roll: &Roll, now: u64) -> Result<(), AllocError>
        ensures taken { OnOk result (AreTaken self.old self.new (page_in roll.now self.old.rolls) (record { member = roll.now.from; moment = now })) }
        ensures refused { OnErr result (is_some (page_in roll.now self.old.rolls) ≡ true) }
        ensures keeps { KeepsRest self.old self.new }
    {
        if !calls::is_wanted(&self.rolls, roll) {
            return Ok(());
        }
        let member = roll.ticket().from();
        match roll.body() {
            RollBody::Page(votes) => self.hold_all(
                votes,
                &TellingMember {
                    member,
                    moment: now,
                },
            ),
            _ => Ok(()),
        }
    }

    /// A roll came that is of this circuit, from another member of it.
    fn hear_checked_roll(&mut self, roll: &Roll, now: u64)
        requires { IsHeardRoll self.old.own roll.now }
        ensures { IsRollHeard self.old self.new roll.now now }
    {
        let heard = self.hear_page(roll, now);
        self.is_stirred = true;
        if heard.is_ok() {
            calls::hear(&mut self.rolls, roll);
            self.before.settle(calls::is_told(&self.rolls));
        }
    }

    /// A roll came.
    fn hear_roll(&mut self, roll: &Roll, now: u64) -> Result<(), Unheard>
        ensures { IsHeardBy (roll_ticket roll.now) self.old self.new (IsRollHeard self.old self.new roll.now now) result }
    {
        check(self.own, roll.ticket())?;
        self.hear_checked_roll(roll, now);
        Ok(())
    }

    /// A recall came.
    fn hear_recall(&mut self, recall: &Recall) -> Result<(), Unheard>
        ensures { IsHeardBy (ticket_of recall.now) self.old self.new (self.new ≡ with_recall recall.now self.old) result }
    {
        check(self.own, recall.ticket())?;
        self.asked.ask(recall.ticket().from(), recall.numbers());
        self.is_stirred = true;
        Ok(())
    }

    /// A recall or a roll came, as `rolls::hear` read it, at a moment in milliseconds. The numbers of a recall wait to be told to the
    /// asker: at most 64 wait for each member; more are dropped and counted. What a roll asks waits to be answered. Of a page that was
    /// asked for, each number that has a vote there and did not go out here is lacked. In the first start that keeps what went out, until
    /// a majority told its votes, such a number that is not known here went out before. Where memory is refused for the numbers of a page,
    /// it counts as not told, and is asked for again.
    ///
    /// # Errors
    ///
    /// Why it is passed over.
    pub fn hear(&mut self, heard: &Aside, now: u64) -> Result<(), Unheard>
        ensures result { result ≡ heard_by self.old.own heard.now }
        ensures heard { IsHeard self.old self.new heard.now now result }
    {
        count_datagram(&mut self.healing);
        match heard {
            Aside::Recall(Ok(recall)) => self.hear_recall(recall),
            Aside::Recall(Err(fault)) => Err(Unheard::Bad(*fault)),
            Aside::Roll(Ok(roll)) => self.hear_roll(roll, now),
            Aside::Roll(Err(fault)) => Err(Unheard::BadRoll(*fault)),
        }
    }
}
