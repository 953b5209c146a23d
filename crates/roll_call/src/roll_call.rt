//! What a station knows of the votes of its circuit by roll calls.

ghost use Rattle.std.specs.Prelude.{◌≡◌, false, IfOk, IfSome};
ghost use Rattle.gone_out.specs.Numbers.{has};
ghost use Rattle.rolls.specs.Bodies.{said};
ghost use Rattle.roll_call.specs.Answers.{asked_one, nothing_asked, TakesTurn};
ghost use Rattle.roll_call.specs.Asks.{AreWhole, asks_from, came_at};
ghost use Rattle.roll_call.specs.Held.{AreCounted, IsVoted};
ghost use Rattle.roll_call.specs.RollCall.{AsksNext, IsHeard, IsNext, IsTold, Replies, after, asking, is_told, is_wanted};

use crate::answers::Answers;
use crate::ask::{Ask, question_of};
use crate::asks::Asks;
use crate::held::HeldVotes;
use ballots::{Member, Number};
use gone_out::{Numbers, Origin};
use recalls::Ticket;
use rolls::{Page, Roll, RollBody};
use std::alloc::{AllocError, Global};
use std::marker::Model;

/// What a station knows of the votes of its circuit by roll calls: its own votes, what others told of theirs, whom it asks for what, and
/// what it is to answer. All moments are in milliseconds. It takes 125,000 bytes for the votes, and some 600 for each of 15 members.
#[derive(Drop)]
pub struct RollCall {
    own: Origin,
    held: HeldVotes,
    answers: Answers,
    asks: Asks,
}

impl Model for RollCall {
    ghost use Rattle.std.specs.Prelude.{◌≡◌, []};
    ghost use Rattle.roll_call.specs.Answers.{waiting_for};
    ghost use Rattle.roll_call.specs.RollCall.{RollCallValue};

    ghost Value = { RollCallValue };

    ghost view = { λ c. record { own = c.own; held = c.held; answers = c.answers; asks = c.asks } };

    ghost invariant = { λ c. waiting_for c.own.member c.answers ≡ [] };
}

impl RollCall {
    /// These numbers have a vote at the start, and every other member of the circuit is to be asked for its counts. Each number is looked
    /// at once.
    pub fn new(alloc: Global, own: Origin, votes: Numbers, now: u64) -> Result<RollCall, AllocError>
        ensures own { IfOk result (λ c. c.own ≡ own) }
        ensures votes { IfOk result (λ c. c.held.votes ≡ votes) }
        ensures counts { IfOk result (λ c. AreCounted c.held.votes c.held.counts) }
        ensures answers { IfOk result (λ c. c.answers ≡ nothing_asked) }
        ensures asks { IfOk result (λ c. c.asks ≡ asks_from own now) }
    {
        let answers = Answers::new(alloc)?;
        let asks = Asks::new(alloc, &own, now)?;
        Ok(RollCall {
            own,
            held: HeldVotes::new(votes),
            answers,
            asks,
        })
    }

    /// The station's own row of a number has a vote, which is saved.
    pub fn voted(&mut self, number: Number)
        ensures voted { IsVoted number self.old.held self.new.held }
        ensures rest { self.new ≡ record self.old { held = self.new.held } }
    {
        self.held.add(number);
    }

    /// A packet of another member came, or a vote was saved here: what others told may be old.
    pub fn came(&mut self, now: u64)
        ensures { self.new ≡ record self.old { asks = came_at now self.old.asks } }
    {
        self.asks.came(now);
    }

    /// Whether a roll tells what was asked for.
    pub fn is_wanted(&self, roll: &Roll) -> bool
        ensures { result ≡ is_wanted roll.now.from roll.now.asked roll.now.body self.now }
    {
        let ticket = roll.ticket();
        let (from, asked) = (ticket.from(), ticket.asked());
        match roll.body() {
            RollBody::CountsAsked | RollBody::PageAsked(_) => false,
            RollBody::Counts(_) => self.asks.is_asked_for(from, asked, &None),
            RollBody::Page(votes) => self.asks.is_asked_for(from, asked, &Some(votes.page())),
        }
    }

    /// A roll came. An ask waits to be answered; four of each member wait, more are dropped and counted. Counts that were asked for are
    /// kept, and say which pages are to be asked for; of a page that was asked for it is kept how many votes it has. What was not asked
    /// for changes nothing. Whether the roll tells what was asked for: only then are the votes of a page to be taken from it.
    pub fn hear(&mut self, roll: &Roll) -> bool
        requires { IsHeard self.old.own roll.now }
        ensures wanted { result ≡ is_wanted roll.now.from roll.now.asked roll.now.body self.old }
        ensures after { self.new ≡ after roll.now.from roll.now.asked roll.now.body self.old }
    {
        let ticket = roll.ticket();
        let (from, asked) = (ticket.from(), ticket.asked());
        match roll.body() {
            RollBody::CountsAsked => self.ask(from, asked, None),
            RollBody::PageAsked(page) => self.ask(from, asked, Some(*page)),
            RollBody::Counts(counts) => self.asks.tell_counts(from, asked, counts),
            RollBody::Page(votes) => self
                .asks
                .tell_page(from, asked, votes.page(), votes.count()),
        }
    }

    /// Another member asks; it tells nothing.
    fn ask(&mut self, from: Member, asked: u32, page: Option<Page>) -> bool
        requires { ¬ (from ≡ self.old.own.member) }
        ensures tells { result ≡ false }
        ensures asks { self.new ≡ record self.old { answers = asked_one from (record { asked = asked; page = page }) self.old.answers } }
    {
        self.answers.ask(from, asked, page);
        false
    }

    /// Takes the ask that is to be answered next, if there is one; it is another member's.
    fn take(&mut self, now: u64) -> Option<(Ask, Member)>
        ensures turn { TakesTurn now result self.old.answers self.new.answers }
        ensures apart { IfSome result (λ r. ¬ (r.1 ≡ self.old.own.member)) }
        ensures rest { self.new ≡ record self.old { answers = self.new.answers } }
    {
        self.answers.take(now)
    }

    /// What is told of the station's votes.
    fn told(&self, page: Option<Page>) -> RollBody
        ensures { IsTold self.now.held page (said result) }
    {
        match page {
            Some(page) => RollBody::Page(self.held.page(page)),
            None => RollBody::Counts(self.held.counts()),
        }
    }

    /// A roll to another member.
    fn roll_to(&self, to: Member, asked: u32, body: RollBody) -> Roll
        requires { ¬ (to ≡ self.now.own.member) }
        ensures { result ≡ record { circuit = self.now.own.circuit; from = self.now.own.member; to = to; asked = asked; body = said body } }
    {
        let Origin {
            circuit,
            member,
            ..
        } = self.own;
        let Some(ticket) = Ticket::new(circuit, member, to, asked) else {
            unreachable!();
        };
        Roll::new(ticket, body)
    }

    /// The next roll that answers, if there is one: at most eight a second to each member.
    pub fn reply(&mut self, now: u64) -> Option<Roll>
        ensures { Replies self.old self.new now result }
    {
        let (ask, to) = self.take(now)?;
        let body = self.told(ask.page);
        Some(self.roll_to(to, ask.asked, body))
    }

    /// The next roll that asks, if there is one; of pages only where they may be asked for.
    pub fn question(&mut self, now: u64, may_ask_pages: bool) -> Option<Roll>
        ensures { AsksNext self.old self.new now may_ask_pages result }
    {
        let question = self.asks.next(&self.own, now, may_ask_pages)?;
        Some(self.roll_to(question.to, question.asked, question_of(&question.page)))
    }

    /// The next roll to send, if there is one: first answers, then asks. It may be called until there is none.
    pub fn next(&mut self, now: u64, may_ask_pages: bool) -> Option<Roll>
        ensures next { IsNext self.old self.new now may_ask_pages result }
        ensures rest { self.new ≡ record self.old { answers = self.new.answers; asks = self.new.asks } }
    {
        match self.reply(now) {
            Some(roll) => Some(roll),
            None => self.question(now, may_ask_pages),
        }
    }

    /// How many other members have told their counts since the start, and each page of them that has votes.
    pub fn told_by(&self) -> u8
        ensures { AreWhole self.now.asks result }
    {
        self.asks.whole()
    }

    /// Whether a majority, the station itself among it, has told its counts since the start, and each page of them that has votes.
    pub fn is_told(&self) -> bool
        ensures { result ≡ is_told self.now }
    {
        2 * (self.told_by() + 1) > self.own.count
    }

    /// How many asks were dropped.
    pub fn dropped(&self) -> u64
        ensures { result ≡ self.now.answers.dropped }
    {
        self.answers.dropped()
    }

    /// Whether a number has a vote at the station.
    pub fn has_vote(&self, number: Number) -> bool
        ensures { result ≡ has self.now.held.votes number }
    {
        self.held.contains(number)
    }
}
