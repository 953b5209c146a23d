//! What the members ask of the station. Each has its place, and they take turns.

ghost use Rattle.std.specs.Prelude.{◌≡◌, ◌<◌, ◌≤◌, IfOk, IfSome, length, position};
ghost use Rattle.roll_call.specs.Answers.{asked_one, is_ready, nothing_asked, TakesTurn, turn_of};

use crate::ask::Ask;
use crate::asker::Asker;
use ballots::{MOST_MEMBERS, Member};
use rolls::Page;
use std::alloc::{AllocError, Global};
use std::marker::Model;

/// What each member waits for, and how many asks were dropped.
#[derive(Drop)]
pub(crate) struct Answers {
    /// One for each member of the greatest circuit, in rising order.
    askers: Vec<Asker>,
    /// The place of the member from which on one is sought that is ready.
    next: usize,
    dropped: u64,
}

impl Model for Answers {
    ghost use Rattle.std.specs.Prelude.{◌≡◌, ◌≤◌, length};
    ghost use Rattle.roll_call.specs.Answers.{AnswersValue};

    ghost Value = { AnswersValue };

    ghost view = { λ a. record { askers = a.askers.items; next = a.next; dropped = a.dropped } };

    ghost invariant = { λ a. (length a.askers.items ≡ 15) × (a.next ≤ 15) };
}

/// The first place of a member that is ready.
fn first_of(askers: &[Asker], now: u64) -> Option<usize>
    ensures place { result ≡ position (is_ready now) askers.now }
    ensures within { IfSome result (λ place. place < length askers.now) }
{
    askers.iter().position(|asker| asker.is_ready(now))
}

impl Answers {
    /// Nobody asked for anything.
    pub(crate) fn new(alloc: Global) -> Result<Answers, AllocError>
        ensures { IfOk result (λ a. a ≡ nothing_asked) }
    {
        let mut askers = Vec::new(alloc);
        for _ in 0..MOST_MEMBERS {
            askers.push(Asker::new())?;
        }
        Ok(Answers {
            askers,
            next: 0,
            dropped: 0,
        })
    }

    /// A member asks.
    pub(crate) fn ask(&mut self, member: Member, asked: u32, page: Option<Page>)
        ensures { self.new ≡ asked_one member (record { asked = asked; page = page }) self.old }
    {
        let place = usize::from(member.get()) - 1;
        let found = self.askers[place].ask(asked, page);
        if !found {
            self.dropped = self.dropped.saturating_add(1);
        }
    }

    /// The place of the member whose turn it is: the first that is ready, from the next on, or else from the first on.
    fn turn(&self, now: u64) -> Option<usize>
        ensures turn { result ≡ turn_of now self.now }
        ensures within { IfSome result (λ place. place < 15) }
    {
        let askers = self.askers.as_slice();
        match first_of(&askers[self.next..], now) {
            Some(place) => Some(self.next + place),
            None => first_of(askers, now),
        }
    }

    /// Takes the ask that waits longest of the member whose turn it is; the next turn is that of the member behind it.
    pub(crate) fn take(&mut self, now: u64) -> Option<(Ask, Member)>
        ensures { TakesTurn now result self.old self.new }
    {
        let place = self.turn(now)?;
        let Some(member) = Member::new(place as u8 + 1) else {
            unreachable!();
        };
        self.next = place + 1;
        let Some(ask) = self.askers[place].take(now) else {
            unreachable!();
        };
        Some((ask, member))
    }

    /// How many asks were dropped.
    pub(crate) fn dropped(&self) -> u64
        ensures { result ≡ self.now.dropped }
    {
        self.dropped
    }
}
