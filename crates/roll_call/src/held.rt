//! Which numbers have a vote at the station, and how many of each page.

ghost use Rattle.std.specs.Prelude.{◌≡◌, ◌≤◌, ◌+◌, ◌&&◌};
ghost use Rattle.protocol.specs.Limits.{is_number};
ghost use Rattle.gone_out.specs.Numbers.{has};
ghost use Rattle.rolls.specs.Pages.{numbers_on};
ghost use Rattle.roll_call.specs.Held.{count_on, AreCounted, AreVotesOn, IsVoted, LiesOn};

use ballots::Number;
use gone_out::Numbers;
use rolls::{Counts, PAGE_NUMBERS, PAGES, Page, Votes};
use std::marker::Model;

/// Which numbers have a vote at the station, and how many of each page.
#[derive(Drop)]
pub(crate) struct HeldVotes {
    votes: Numbers,
    counts: Counts,
}

impl Model for HeldVotes {
    ghost use Rattle.roll_call.specs.Held.{HeldValue, AreCounted};

    ghost Value = { HeldValue };

    ghost view = { λ h. record { votes = h.votes; counts = h.counts } };

    ghost invariant = { λ h. AreCounted h.votes h.counts };
}

/// The page that a number lies on.
fn page_of(number: Number) -> Page
    ensures { LiesOn number result }
{
    let _value = number.get();
    Page::of(number)
}

/// Whether a value is a number that has a vote.
fn is_vote(votes: &Numbers, value: u32) -> bool
    ensures { result ≡ (is_number value && has votes.now value) }
{
    match Number::new(value) {
        Some(number) => votes.contains(number),
        None => false,
    }
}

/// How many numbers of a page have a vote.
fn count_on(votes: &Numbers, page: Page) -> u16
    ensures many { result ≡ count_on votes.now page }
    ensures fits { result ≤ numbers_on page }
{
    let mut count = 0;
    for place in 0..PAGE_NUMBERS {
        if is_vote(votes, PAGE_NUMBERS * u32::from(page.get()) + place) {
            count += 1;
        }
    }
    count
}

/// How many numbers of each page have a vote.
fn counts_of(votes: &Numbers) -> Counts
    ensures { AreCounted votes.now result }
{
    let mut counts = Counts::none();
    for value in 0..PAGES {
        let Some(page) = Page::new(value as u8) else {
            unreachable!();
        };
        counts.set(page, count_on(votes, page));
    }
    counts
}

impl HeldVotes {
    /// These numbers have a vote.
    pub(crate) fn new(votes: Numbers) -> HeldVotes
        ensures votes { result.votes ≡ votes }
        ensures counts { AreCounted result.votes result.counts }
    {
        let counts = counts_of(&votes);
        HeldVotes { votes, counts }
    }

    /// A number has a vote.
    pub(crate) fn add(&mut self, number: Number)
        ensures { IsVoted number self.old self.new }
    {
        let page = page_of(number);
        if self.votes.insert(number) {
            self.counts.raise(page);
        }
    }

    /// Whether a number has a vote.
    pub(crate) fn contains(&self, number: Number) -> bool
        ensures { result ≡ has self.now.votes number }
    {
        self.votes.contains(number)
    }

    /// How many numbers of each page have a vote.
    pub(crate) fn counts(&self) -> Counts
        ensures { result ≡ self.now.counts }
    {
        self.counts.copied()
    }

    /// Which numbers of a page have a vote.
    pub(crate) fn page(&self, page: Page) -> Votes
        ensures { AreVotesOn page self.now.votes result }
    {
        Votes::of(page, &self.votes)
    }
}
