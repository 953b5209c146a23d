//! How many numbers of each page have a vote.

ghost use Rattle.std.specs.Prelude.{◌≡◌, length, slice_index, replicate};
ghost use Rattle.rolls.specs.Pages.{pages};
ghost use Rattle.rolls.specs.Counts.{AreCounts, raised, with_count};

use crate::page::{PAGES, Page};
use arrayvec::ArrayVec;
use std::marker::Model;

/// How many numbers of each page have a vote at a station: 123 counts, each at most the numbers of its page. A vote stays, so no count
/// falls, and a page's count tells whether the page has changed. Clauses see the list.
#[derive(Drop)]
pub struct Counts {
    pub(crate) counts: ArrayVec<u16, PAGES>,
}

impl Model for Counts {
    ghost use Rattle.std.specs.Prelude.{ℕ, List};
    ghost use Rattle.rolls.specs.Counts.{AreCounts};

    ghost Value = { List ℕ };

    ghost view = { λ c. c.counts.items };

    ghost invariant = { λ c. AreCounts c.counts.items };
}

/// A copy of 123 counts.
fn copied(counts: &[u16]) -> ArrayVec<u16, PAGES>
    requires { length counts.now ≡ pages }
    ensures { result.items ≡ counts.now }
{
    let mut copy = ArrayVec::new();
    for count in counts {
        copy.push(*count);
    }
    copy
}

impl Counts {
    /// No number has a vote.
    pub fn none() -> Counts
        ensures { result ≡ replicate pages 0 }
    {
        Counts {
            counts: ArrayVec::from([0; PAGES]),
        }
    }

    /// How many numbers of a page have a vote.
    pub fn of_page(&self, page: Page) -> u16
        ensures { result ≡ slice_index self.now page }
    {
        self.counts[usize::from(page.get())]
    }

    /// One number more of a page has a vote; nothing is changed where they all have one.
    pub fn raise(&mut self, page: Page)
        ensures { self.new ≡ raised self.old page }
    {
        let count = self.of_page(page);
        if count < page.numbers() {
            self.counts[usize::from(page.get())] = count + 1;
        }
    }

    /// So many numbers of a page have a vote; nothing is changed where there are fewer on the page.
    pub fn set(&mut self, page: Page, count: u16)
        ensures { self.new ≡ with_count self.old page count }
    {
        if count <= page.numbers() {
            self.counts[usize::from(page.get())] = count;
        }
    }

    /// A copy of them.
    pub fn copied(&self) -> Counts
        ensures { result ≡ self.now }
    {
        Counts {
            counts: copied(self.as_slice()),
        }
    }

    /// A copy of the list of them.
    pub fn to_array(&self) -> ArrayVec<u16, PAGES>
        ensures value { result.items ≡ self.now }
        ensures many { length result.items ≡ pages }
    {
        copied(self.as_slice())
    }

    /// The counts, from page 0 to page 122.
    pub fn as_slice(&self) -> &[u16]
        ensures value { result.now ≡ self.now }
        ensures counts { AreCounts self.now }
    {
        self.counts.as_slice()
    }
}
