//! The book of offers.

ghost use Rattle.std.specs.Prelude.{◌≡◌, ◌≤◌, length, nat_le, option_copied, true, if◌then◌else◌};
ghost use Rattle.offers.specs.Order.{rank, file_at};
ghost use Rattle.offers.specs.Stages.{wish_at};
ghost use Rattle.offers.specs.Rules.{AreApart, entry_of, is_under_way};
ghost use Rattle.offers.specs.Book.{IsFresh, IsLookTaken, begun_again, still_for};
ghost use Rattle.offers.specs.Turns.{deeds_left};
ghost use Rattle.offers.specs.UnderWay.{AreHeld, AreAlone, asked_count};

use crate::edits::index_of;
use crate::known::RuleFacts;
use crate::look::merge;
use crate::marks::{Marks, mark_all};
use crate::offer::{FoundOffer, Offer};
use crate::order::rank;
use crate::under_way::is_under_way;
use ballots::Number;
use folders::{FileRequest, Wish};
use pace::{Deeds, Window};
use std::alloc::{AllocError, Global};
use std::collections::{BTreeMap, VecDeque};
use std::marker::Model;
use std::mem;
use tape_frames::Entry;

/// How long a file has to stay as it was found until it is whole, in milliseconds, where it may be written as it lies there.
const STILL: u64 = 500;

/// How many files are asked for in a row, though something else is to be done.
pub(crate) const MOST_IN_A_ROW: usize = 8;

/// How many files that are no searches are asked for in a row, though a search waits. Somebody waits for a story, so it goes before
/// thousands of searches; eight is half of the numbers that may be under way, so a search waits for no more, and costs a burst of stories
/// one ask of nine.
pub(crate) const MOST_WITHOUT_A_SEARCH: usize = 8;

/// What is known of the files among the offers of a plant, and what is to be done with them. It does none of it: it is told what was
/// found and what came of each deed, in the order in which that happened. Times are in milliseconds.
#[derive(Drop)]
pub struct Book {
    pub(crate) alloc: Global,
    pub(crate) offers: Vec<Offer>,
    /// The numbers that are under way, what was released, and the last look.
    pub(crate) known: RuleFacts,
    /// From which file on it is left to see whether it leaves the offers.
    pub(crate) moves: usize,
    /// From which place on it is left to see whether its file is read or refused: those that are no searches come first, then the searches.
    pub(crate) others: usize,
    /// Whether it is left to see for which the station may be asked.
    pub(crate) asks: bool,
    /// How many files were asked for in a row, as far as that matters.
    pub(crate) row: usize,
    /// How many files that are no searches were asked for since the last search, as far as that matters.
    pub(crate) since_search: usize,
    /// What may be done with each file.
    pub(crate) marks: Marks,
}

impl Model for Book {
    ghost use Rattle.offers.specs.Rules.{Standing};
    ghost use Rattle.offers.specs.Book.{IsBook};

    ghost Value = { Standing };

    ghost view = { λ b. record { files = b.offers.items; window = b.known.window; released = b.known.released.entries; looked = b.known.looked; still = b.known.still; moves = b.moves; others = b.others; asks = b.asks; row = b.row; since_search = b.since_search } };

    ghost invariant = { λ b. IsBook (record { files = b.offers.items; window = b.known.window; released = b.known.released.entries; looked = b.known.looked; still = b.known.still; moves = b.moves; others = b.others; asks = b.asks; row = b.row; since_search = b.since_search }) b.marks };
}

/// A place that begins with the first again, where it has come to the searches or to the end.
fn begun_again(index: usize, end: usize) -> usize
    ensures { result ≡ begun_again index end }
{
    if end <= index { 0 } else { index }
}

/// How long a file has to stay as it was found until it is whole, in milliseconds: files that come only by being renamed are so at once.
pub fn still_for(renamed: bool) -> u64
    ensures { result ≡ still_for renamed }
{
    if renamed { 0 } else { STILL }
}

impl Book {
    /// A book in which nothing stands. A file is whole once two looks found it as it is, half a second apart; over a folder to which files
    /// come only by being renamed, one look that found it is enough.
    pub fn over(alloc: Global, renamed: bool) -> Book
        ensures fresh { IsFresh result }
        ensures still { result.still ≡ still_for renamed }
    {
        Book {
            alloc,
            offers: Vec::new(alloc),
            known: RuleFacts {
                window: Window::new(),
                released: BTreeMap::new(alloc),
                looked: 0,
                still: still_for(renamed),
            },
            moves: 0,
            others: 0,
            asks: true,
            row: 0,
            since_search: 0,
            marks: Marks::new(alloc),
        }
    }

    /// Takes in what a look found among the offers, at a moment: in the order of [`rank`](crate::rank), each file once. What stands out of
    /// order is passed over. A file that is no longer found is forgotten, and one that was changed is watched anew. Where searches were
    /// being read, files that are no searches come first again. Where there is no memory, the book stays as it was.
    pub fn see(&mut self, found: &[FoundOffer], now: u64) -> Result<(), AllocError>
        ensures { IsLookTaken found.now now self.old self.new result }
    {
        let room = Vec::with_capacity(self.alloc, found.len())?;
        let mut marks = Marks::none(self.alloc, found.len())?;
        self.asks = true;
        self.others = begun_again(self.others, self.offers.len());
        let known = mem::replace(&mut self.offers, Vec::new(self.alloc));
        self.offers = merge(VecDeque::from(known), found, now, room);
        self.known.looked = now;
        self.moves = 0;
        mark_all(&mut marks, self.offers.as_slice(), &self.known);
        self.marks = marks;
        Ok(())
    }

    /// What is left to be done with files, where files may be moved whose numbers were released, or may not.
    pub fn deeds(&self, moves: bool) -> Deeds
        ensures { result ≡ deeds_left moves self.now }
    {
        let end = self.offers.len();
        if moves && self.moves < end {
            Deeds::Others
        } else if self.others < 2 * end && (self.row >= MOST_IN_A_ROW || !self.asks) {
            Deeds::Others
        } else if self.asks {
            Deeds::Asks
        } else {
            Deeds::Nothing
        }
    }

    /// What the file that asks for this asks for, where it was read.
    pub fn wish(&self, request: FileRequest) -> Option<&Wish>
        ensures { option_copied result ≡ wish_at (file_at self.now.files (rank request)) }
    {
        match index_of(self.offers.as_slice(), rank(request)) {
            Some(index) => self.offers[index].stage.wish(),
            None => None,
        }
    }

    /// The entry of a number that was released.
    pub fn entry(&self, number: Number) -> Option<&Entry>
        ensures { option_copied result ≡ entry_of self.now number }
    {
        let key = number.get();
        self.known.released.get(&key)
    }

    /// Whether a number is under way: only then is there something to tell of its ballots.
    pub fn is_under_way(&self, number: Number) -> bool
        ensures { result ≡ is_under_way number self.now.window }
    {
        is_under_way(self.known.window.numbers(), number)
    }

    /// How many numbers are under way. A file is only with its number, and of one number one file is: so no more files are.
    pub fn under_way(&self) -> usize
        ensures count { result ≡ length self.now.window }
        ensures few { result ≤ 16 }
        ensures one { AreApart self.now.window }
        ensures held { AreHeld self.now.window self.now.files }
        ensures alone { AreAlone self.now.files }
        ensures files { asked_count self.now.files ≤ result }
    {
        self.known.window.len()
    }
}
