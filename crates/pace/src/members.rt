//! Which members are behind: the own work goes at the pace of the slowest member that is there.

ghost use Rattle.std.specs.Prelude.{◌≡◌, ◌+◌, ◌-◌, ◌*◌, ◌/◌, ◌^◌, ◌<◌, ◌&&◌, ◌||◌, nat_lt};
ghost use Rattle.std.specs.List.{list_any};
ghost use Rattle.pace.specs.Behind.{asked_for, came_up, first_pace, heard_within, is_any_behind, is_behind, newest_of, seen_by, serial_for, spoken_by, units_of, with_newest};

use arrayvec::ArrayVec;
use ballots::{MOST_MEMBERS, Member, Number};
use std::marker::Model;

/// How many of the ballots that came up last are kept in mind: those of some rounds of the greatest circuit.
const MOST_KNOWN: usize = 128;

/// How many bytes of an entry are a unit of work.
const BYTES_A_UNIT: usize = 2048;

/// How many units a member may lack, of what was asked since the newest ballot for which it is known to have voted.
const MOST_BEHIND: u64 = 8;

/// How long a member is waited for, in milliseconds: since it was heard, and since the newest ballot was asked.
const PATIENCE: u64 = 3000;

/// How long a member is waited for that is silent, in milliseconds: since it was heard, or since the newest ballot was asked. Its vote
/// may have been lost, and then nothing is left for it to say.
const SILENCE: u64 = 500;

/// A ballot, own or of another member, that came up here.
#[derive(Clone, Copy, PartialEq, Eq, Default)]
struct SeenBallot {
    /// Its number.
    number: u32,
    /// The member whose ballot it is.
    owner: u8,
    /// How many units the station had asked for by then: whoever votes for it has taken in what was sent before.
    serial: u64,
}

/// What is known of a member.
#[derive(Clone, Copy, PartialEq, Eq, Default)]
struct Follower {
    /// The greatest serial of the ballots for which its vote was heard.
    serial: u64,
    /// When it was heard last, in milliseconds.
    heard: Option<u64>,
}

/// What a station asked of its circuit, and how far each member is with it.
#[derive(Drop)]
pub struct Pace {
    /// How many units were asked for.
    asked: u64,
    /// When the newest ballot was asked for, in milliseconds.
    asked_at: u64,
    /// How many units were asked for when no datagram waited last: one that is taken in now came later.
    settled: u64,
    known: ArrayVec<SeenBallot, MOST_KNOWN>,
    followers: [Follower; MOST_MEMBERS],
}

impl Model for Pace {
    ghost use Rattle.pace.specs.Behind.{PaceValue};

    ghost Value = { PaceValue };

    ghost view = { λ p. record { asked = p.asked; asked_at = p.asked_at; settled = p.settled; known = p.known.items; followers = p.followers } };
}

/// How many units an entry of so many bytes is: one, and one more for each 2,048 bytes.
fn units_of(length: usize) -> u64
    ensures { result ≡ units_of length }
{
    (length / BYTES_A_UNIT) as u64 + 1
}

/// Whether less time than this span has gone by since a moment, all in milliseconds.
fn is_within(since: u64, span: u64, now: u64) -> bool
    ensures { result ≡ nat_lt now (since + span) }
{
    match since.checked_add(span) {
        Some(end) => now < end,
        None => true,
    }
}

/// The serial of a ballot, if it is that of this number and owner; else 0.
fn serial_for(known: SeenBallot, number: Number, owner: Member) -> u64
    ensures { result ≡ serial_for number owner known }
{
    if known.number == number.get() && known.owner == owner.get() {
        known.serial
    } else {
        0
    }
}

/// The greatest serial of the ballots of this number and owner; 0 where none is kept in mind.
fn newest_of(known: &[SeenBallot], number: Number, owner: Member) -> u64
    ensures { result ≡ newest_of number owner known.now }
{
    let mut newest = 0;
    for each in known {
        newest = newest.max(serial_for(*each, number, owner));
    }
    newest
}

/// Keeps a ballot in mind, and forgets the oldest where there are many.
fn remember(known: &mut ArrayVec<SeenBallot, MOST_KNOWN>, ballot: SeenBallot)
    ensures { known.new.items ≡ with_newest ballot known.old.items }
{
    if known.is_full() {
        known.remove(0);
    }
    known.push(ballot);
}

impl Follower {
    /// Whether the member was heard within this span.
    fn heard_within(self, span: u64, now: u64) -> bool
        ensures { result ≡ heard_within self span now }
    {
        match self.heard {
            Some(heard) => is_within(heard, span, now),
            None => false,
        }
    }
}

impl Pace {
    /// Nothing was asked for yet, and nobody heard.
    pub fn new() -> Pace
        ensures { result ≡ first_pace }
    {
        Pace {
            asked: 0,
            asked_at: 0,
            settled: 0,
            known: ArrayVec::new(),
            followers: [Follower {
                serial: 0,
                heard: None,
            }; MOST_MEMBERS],
        }
    }

    /// A ballot of the station itself, this member, was begun for a file that was asked for, whose entry has so many bytes, at a moment
    /// in milliseconds.
    pub fn ask(&mut self, number: Number, own: Member, length: usize, now: u64)
        ensures { self.new ≡ asked_for number own length now self.old }
    {
        self.asked = self.asked.saturating_add(units_of(length));
        self.asked_at = now;
        let ballot = SeenBallot {
            number: number.get(),
            owner: own.get(),
            serial: self.asked,
        };
        remember(&mut self.known, ballot);
    }

    /// No datagram waits in memory: what comes from now on was sent after what was asked for.
    pub fn settle(&mut self)
        ensures { self.new ≡ record self.old { settled = self.old.asked } }
    {
        self.settled = self.asked;
    }

    /// The station was asked to vote for a ballot of another member. The first of that member for the number counts.
    pub fn come_up(&mut self, number: Number, owner: Member)
        ensures { self.new ≡ came_up number owner self.old }
    {
        if newest_of(self.known.as_slice(), number, owner) == 0 {
            let ballot = SeenBallot {
                number: number.get(),
                owner: owner.get(),
                serial: self.settled,
            };
            remember(&mut self.known, ballot);
        }
    }

    /// A datagram of this member was taken in, at a moment in milliseconds, that shows a serial; 0 where it shows none.
    fn note(&mut self, member: Member, serial: u64, now: u64)
        ensures { self.new ≡ seen_by member serial now self.old }
    {
        let follower = &mut self.followers[usize::from(member.get()) - 1];
        follower.serial = follower.serial.max(serial);
        follower.heard = Some(now);
    }

    /// A datagram of this member was taken in, at a moment in milliseconds, that is no vote.
    pub fn hear(&mut self, member: Member, now: u64)
        ensures { self.new ≡ seen_by member 0 now self.old }
    {
        self.note(member, 0, now);
    }

    /// A vote of this member for a ballot of this number and owner was taken in, at a moment in milliseconds. A vote for a ballot of
    /// its own shows nothing: it begins those itself, whatever waits there.
    pub fn hear_vote(&mut self, member: Member, number: Number, owner: Member, now: u64)
        ensures { self.new ≡ spoken_by member number owner now self.old }
    {
        let serial = if member.get() == owner.get() {
            0
        } else {
            newest_of(self.known.as_slice(), number, owner)
        };
        self.note(member, serial, now);
    }

    /// Whether a member is behind and is waited for.
    fn waits_for(&self, follower: Follower, now: u64) -> bool
        ensures { result ≡ is_behind now self.now follower }
    {
        self.asked.saturating_sub(follower.serial) >= MOST_BEHIND
            && follower.heard_within(PATIENCE, now)
            && is_within(self.asked_at, PATIENCE, now)
            && (follower.heard_within(SILENCE, now) || is_within(self.asked_at, SILENCE, now))
    }

    /// Whether one of these members is behind and is waited for.
    fn waits_for_one(&self, followers: &[Follower], now: u64) -> bool
        ensures { result ≡ list_any (is_behind now self.now) followers.now }
    {
        for follower in followers {
            if self.waits_for(*follower, now) {
                return true;
            }
        }
        false
    }

    /// Whether any member is behind at this moment in milliseconds, and is waited for.
    pub fn is_any_behind(&self, now: u64) -> bool
        ensures { result ≡ is_any_behind now self.now }
    {
        self.waits_for_one(&self.followers, now)
    }
}
