//! What the station asks the members.

ghost use Rattle.std.specs.Prelude.{◌≡◌, ◌<◌, ◌-◌, true, Some, IfOk, IfSome, replicate};
ghost use Rattle.roll_call.specs.Topics.{the_counts};
ghost use Rattle.roll_call.specs.Tellers.{silent};
ghost use Rattle.roll_call.specs.Asks.{AreWhole, asks_from, came_at, counts_told, is_asked_for, is_other, look_at, page_told, turned, IsAsked, IsQuestion};

use crate::choice::{choice, turn_after};
use crate::look::RollLook;
use crate::teller::Teller;
use ballots::{MOST_MEMBERS, Member};
use gone_out::Origin;
use rolls::{Counts, Page};
use std::alloc::{AllocError, Global};
use std::marker::Model;

/// After how long the next member is asked for its counts, in milliseconds.
const ROUND: u64 = 10_000;

/// How long nothing came when it is quiet, in milliseconds.
const QUIET: u64 = 1000;

/// What a member is asked.
#[derive(Clone, Copy)]
pub(crate) struct Question {
    /// The member.
    pub to: Member,
    /// The station's number of the ask.
    pub asked: u32,
    /// The page, or none where its counts are asked for.
    pub page: Option<Page>,
}

/// What each member told, and whose turn it is to be asked.
#[derive(Drop)]
pub(crate) struct Asks {
    /// One for each member of the greatest circuit, in rising order.
    tellers: Vec<Teller>,
    /// The number of the last ask, counted over and over from 0.
    asked: u32,
    /// The member whose turn was last.
    turn: Member,
    /// When it was, in milliseconds.
    round: u64,
    /// How many packets came and votes were saved, counted over and over from 0.
    news: u64,
    /// When the last did, in milliseconds.
    last: u64,
}

impl Model for Asks {
    ghost use Rattle.std.specs.Prelude.{◌≡◌, length};
    ghost use Rattle.roll_call.specs.Asks.{AsksValue};

    ghost Value = { AsksValue };

    ghost view = { λ a. record { tellers = a.tellers.items; asked = a.asked; turn = a.turn; round = a.round; news = a.news; last = a.last } };

    ghost invariant = { λ a. length a.tellers.items ≡ 15 };
}

/// Members at the start.
fn new_tellers(alloc: Global) -> Result<Vec<Teller>, AllocError>
    ensures { IfOk result (λ v. v.items ≡ replicate 15 silent) }
{
    let mut tellers = Vec::new(alloc);
    for _ in 0..MOST_MEMBERS {
        tellers.push(Teller::new())?;
    }
    Ok(tellers)
}

impl Asks {
    /// At the start every other member is to be asked for its counts.
    pub(crate) fn new(alloc: Global, own: &Origin, now: u64) -> Result<Asks, AllocError>
        ensures { IfOk result (λ a. a ≡ asks_from own.now now) }
    {
        Ok(Asks {
            tellers: new_tellers(alloc)?,
            asked: 0,
            turn: own.member,
            round: now,
            news: 0,
            last: now,
        })
    }

    /// A packet came or a vote was saved.
    pub(crate) fn came(&mut self, now: u64)
        ensures { self.new ≡ came_at now self.old }
    {
        self.news = self.news.wrapping_add(1);
        self.last = now;
    }

    /// What a look goes by at a moment.
    fn look(&self, now: u64) -> RollLook
        ensures { result ≡ look_at now self.now }
    {
        RollLook {
            moment: now,
            news: self.news,
            is_quiet: now.saturating_sub(self.last) >= QUIET,
        }
    }

    /// The next member's turn comes, where it is time.
    fn turn(&mut self, own: &Origin, now: u64)
        ensures { self.new ≡ turned own.now now self.old }
    {
        if now.saturating_sub(self.round) >= ROUND {
            self.turn = turn_after(own, self.turn);
            self.round = now;
            self.tellers[usize::from(self.turn.get()) - 1].call();
        }
    }

    /// A member is asked for something, by the next number.
    fn question(&mut self, look: &RollLook, place: usize, page: Option<Page>) -> Question
        requires { place < 15 }
        ensures { IsQuestion look.now place page self.old self.new result }
    {
        let Some(to) = Member::new(place as u8 + 1) else {
            unreachable!();
        };
        let asked = self.asked.wrapping_add(1);
        self.asked = asked;
        match page {
            Some(page) => self.tellers[place].ask_page(look, asked, page),
            None => self.tellers[place].ask_counts(look, asked),
        }
        Question { to, asked, page }
    }

    /// The next question, if there is one. Pages are asked for only where they may be.
    pub(crate) fn next(&mut self, own: &Origin, now: u64, may_ask_pages: bool) -> Option<Question>
        ensures asked { IsAsked own.now now may_ask_pages self.old self.new result }
        ensures other { IfSome result (λ q. is_other own.now (q.to - 1) ≡ true) }
    {
        self.turn(own, now);
        let look = self.look(now);
        let (place, page) = choice(own, &look, self.tellers.as_slice(), may_ask_pages)?;
        Some(self.question(&look, place, page))
    }

    /// Whether a member was asked for its counts, or for a page, by this number, and did not tell yet.
    pub(crate) fn is_asked_for(&self, member: Member, asked: u32, page: &Option<Page>) -> bool
        ensures { result ≡ is_asked_for member asked page.now self.now }
    {
        self.tellers[usize::from(member.get()) - 1].is_pending(asked, page)
    }

    /// A member told its counts. Whether they were asked for.
    pub(crate) fn tell_counts(&mut self, member: Member, asked: u32, counts: &Counts) -> bool
        ensures pending { result ≡ is_asked_for member asked the_counts self.old }
        ensures told { self.new ≡ counts_told member asked counts.now self.old }
    {
        self.tellers[usize::from(member.get()) - 1].tell_counts(asked, counts)
    }

    /// A member told a page, on which so many numbers have a vote. Whether it was asked for.
    pub(crate) fn tell_page(&mut self, member: Member, asked: u32, page: Page, count: u16) -> bool
        ensures pending { result ≡ is_asked_for member asked (Some page) self.old }
        ensures told { self.new ≡ page_told member asked page count self.old }
    {
        self.tellers[usize::from(member.get()) - 1].tell_page(asked, page, count)
    }

    /// How many members told their counts since the start, and each page of them that has votes.
    pub(crate) fn whole(&self) -> u8
        ensures { AreWhole self.now result }
    {
        let mut whole = 0;
        for teller in &self.tellers {
            if teller.is_whole() {
                whole += 1;
            }
        }
        whole
    }
}
