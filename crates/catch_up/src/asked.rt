//! What the members asked to be told again. Each has its place, and they take turns.

ghost use Rattle.std.specs.Prelude.{◌≡◌, ◌<◌, ◌≤◌, IfOk, IfSome, length, position};
ghost use Rattle.catch_up.specs.Values.{AreNumbers};
ghost use Rattle.catch_up.specs.Asked.{asked_all, asked_one, is_ready, nothing_asked, TakesTurn, told_to, turn_of};

use crate::asker::RecallAsker;
use ballots::{MOST_MEMBERS, Member, Number};
use std::alloc::{AllocError, Global};
use std::marker::Model;

/// What waits to be told to each member, and how many numbers were dropped.
#[derive(Drop)]
pub(crate) struct RecallQueue {
    /// One for each member of the greatest circuit, in rising order.
    askers: Vec<RecallAsker>,
    /// The place of the member from which on one is sought that is ready.
    next: usize,
    dropped: u64,
}

impl Model for RecallQueue {
    ghost use Rattle.std.specs.Prelude.{◌≡◌, ◌≤◌, length};
    ghost use Rattle.catch_up.specs.Asked.{AskedValue};

    ghost Value = { AskedValue };

    ghost view = { λ a. record { askers = a.askers.items; next = a.next; dropped = a.dropped } };

    ghost invariant = { λ a. (length a.askers.items ≡ 15) × (a.next ≤ 15) };
}

/// The first place of a member that is ready.
fn first_of(askers: &[RecallAsker], now: u64) -> Option<usize>
    ensures place { result ≡ position (is_ready now) askers.now }
    ensures within { IfSome result (λ place. place < length askers.now) }
{
    askers.iter().position(|asker| asker.is_ready(now))
}

impl RecallQueue {
    /// Nobody asked for anything.
    pub(crate) fn new(alloc: Global) -> Result<RecallQueue, AllocError>
        ensures { IfOk result (λ a. a ≡ nothing_asked) }
    {
        let mut askers = Vec::new(alloc);
        for _ in 0..MOST_MEMBERS {
            askers.push(RecallAsker::new())?;
        }
        Ok(RecallQueue {
            askers,
            next: 0,
            dropped: 0,
        })
    }

    /// A member asks for a number.
    fn ask_one(&mut self, member: Member, number: Number)
        ensures { self.new ≡ asked_one member self.old number }
    {
        let place = usize::from(member.get()) - 1;
        let found = self.askers[place].ask(number);
        if !found {
            self.dropped = self.dropped.saturating_add(1);
        }
    }

    /// A member asks for numbers.
    pub(crate) fn ask(&mut self, member: Member, numbers: &[u32])
        requires { AreNumbers numbers.now }
        ensures { self.new ≡ asked_all member numbers.now self.old }
    {
        for value in numbers {
            let Some(number) = Number::new(*value) else {
                unreachable!();
            };
            self.ask_one(member, number);
        }
    }

    /// The place of the member whose turn it is: the first that is ready, from the next on, or else from the first on.
    fn turn(&self, now: u64) -> Option<usize>
        ensures turn { result ≡ turn_of now self.now }
        ensures within { IfSome result (λ place. place < 15) }
    {
        let askers = self.askers.as_slice();
        match first_of(&askers[self.next..], now) {
            Some(place) => Some(self.next + place),
            None => first_of(askers, now),
        }
    }

    /// Takes the number that waits longest of the member whose turn it is; the next turn is that of the member behind it.
    pub(crate) fn take(&mut self, now: u64) -> Option<(Number, Member)>
        ensures { TakesTurn now result self.old self.new }
    {
        let place = self.turn(now)?;
        let Some(member) = Member::new(place as u8 + 1) else {
            unreachable!();
        };
        self.next = place + 1;
        let Some(number) = self.askers[place].take() else {
            unreachable!();
        };
        Some((number, member))
    }

    /// A member was told a vote of so many bytes, at a moment in milliseconds.
    pub(crate) fn count(&mut self, member: Member, bytes: usize, now: u64)
        ensures { self.new ≡ told_to member bytes now self.old }
    {
        self.askers[usize::from(member.get()) - 1].count(bytes, now);
    }

    /// How many numbers were dropped.
    pub(crate) fn dropped(&self) -> u64
        ensures { result ≡ self.now.dropped }
    {
        self.dropped
    }
}
