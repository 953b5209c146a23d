//! What one member told of its votes.

ghost use Rattle.std.specs.Prelude.{◌≡◌, ◌≤◌, length};
ghost use Rattle.rolls.specs.Pages.{pages};
ghost use Rattle.roll_call.specs.Heard.{first_other, heard_so, lowest_of, nothing_heard, with_counts, with_page};

use arrayvec::ArrayVec;
use rolls::{Counts, PAGES, Page};
use std::marker::Model;

/// A count for each page.
type PageTally = ArrayVec<u16, PAGES>;

/// How many numbers of each page have a vote at a member, as far as it told.
#[derive(Drop)]
pub(crate) struct HeardCounts {
    /// The counts that it told last.
    told: PageTally,
    /// How many votes of a page it had when it told which.
    known: PageTally,
    /// The first page of which these differ.
    lowest: Option<Page>,
    /// Whether there was a time since the start when none did.
    is_whole: bool,
}

impl Model for HeardCounts {
    ghost use Rattle.std.specs.Prelude.{◌≡◌, ◌≤◌, length};
    ghost use Rattle.rolls.specs.Pages.{pages};
    ghost use Rattle.roll_call.specs.Heard.{HeardValue};

    ghost Value = { HeardValue };

    ghost view = { λ h. record { told = h.told.items; known = h.known.items; lowest = h.lowest; is_whole = h.is_whole } };

    ghost invariant = { λ h. (length h.told.items ≡ pages) × (length h.known.items ≡ pages) };
}

/// The first place at which two lists of counts differ, or their length.
fn first_other(told: &[u16], known: &[u16]) -> usize
    requires { length told.now ≡ length known.now }
    ensures place { result ≡ first_other told.now known.now }
    ensures within { result ≤ length told.now }
{
    for place in 0..told.len() {
        if told[place] != known[place] {
            return place;
        }
    }
    told.len()
}

/// The first page of which another count was told than is known.
fn lowest_of(told: &[u16], known: &[u16]) -> Option<Page>
    requires told { length told.now ≡ pages }
    requires known { length known.now ≡ pages }
    ensures { result ≡ lowest_of told.now known.now }
{
    Page::new(first_other(told, known) as u8)
}

impl HeardCounts {
    /// It told nothing yet.
    pub(crate) fn new() -> HeardCounts
        ensures { result ≡ nothing_heard }
    {
        HeardCounts {
            told: ArrayVec::from([0; PAGES]),
            known: ArrayVec::from([0; PAGES]),
            lowest: None,
            is_whole: false,
        }
    }

    /// Looks for the first page that differs.
    fn look(&mut self)
        ensures { self.new ≡ heard_so self.old.told self.old.known self.old }
    {
        self.lowest = lowest_of(self.told.as_slice(), self.known.as_slice());
        self.is_whole = self.is_whole || self.lowest.is_none();
    }

    /// It told its counts.
    pub(crate) fn counts(&mut self, counts: &Counts)
        ensures { self.new ≡ with_counts counts.now self.old }
    {
        self.told = counts.to_array();
        self.look();
    }

    /// It told which numbers of a page have a vote, so many.
    pub(crate) fn page(&mut self, page: Page, count: u16)
        ensures { self.new ≡ with_page page count self.old }
    {
        let place = usize::from(page.get());
        self.told[place] = count;
        self.known[place] = count;
        self.look();
    }

    /// The first page of which it told another count than is known.
    pub(crate) fn lowest(&self) -> Option<Page>
        ensures { result ≡ self.now.lowest }
    {
        self.lowest
    }

    /// Whether it told its counts since the start, and each page of them that has votes.
    pub(crate) fn is_whole(&self) -> bool
        ensures { result ≡ self.now.is_whole }
    {
        self.is_whole
    }
}
