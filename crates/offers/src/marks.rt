//! What may be done with each file now. It is kept up as each changes, so that what comes next is found without a walk over all.

ghost use Rattle.std.specs.Prelude.{◌≡◌, [], true, false, IfOk, length};
ghost use Rattle.offers.specs.Marks.{flag, move_mark, other_mark, ask_mark, AreUnmarked, HasRoom, HaveMarks, IsMarkAt, IsUnmarkedFrom, MarksAll, RemarksFile, RemarksFiles, marked_at};
ghost use Rattle.offers.specs.Moments.{AreNone};
ghost use Rattle.offers.specs.Order.{rank, Rises};
ghost use Rattle.offers.specs.Rules.{only_of};

use crate::edits::{index_of, request_of};
use crate::known::RuleFacts;
use crate::moments::Moments;
use crate::offer::Offer;
use crate::order::{is_search, rank};
use crate::rules::{ask_moment, has_other, is_leaving};
use ballots::Number;
use folders::OfferKind;
use std::alloc::{AllocError, Global};

/// What may be done with a file now: each is a moment where it may, and none where it may not.
#[derive(Clone, Copy)]
pub(crate) struct FileMark {
    /// It leaves the offers.
    pub(crate) moves: Option<u64>,
    /// It is no search, and is read or refused.
    pub(crate) others: Option<u64>,
    /// It is a search, and is read or refused.
    pub(crate) sought: Option<u64>,
    /// It is no search, and the station may be asked for it, since this moment.
    pub(crate) entries: Option<u64>,
    /// It is a search, and the station may be asked for it, since this moment.
    pub(crate) searches: Option<u64>,
}

/// The same of all files, by their index.
#[derive(Drop)]
pub(crate) struct Marks {
    pub(crate) moves: Moments,
    pub(crate) others: Moments,
    pub(crate) sought: Moments,
    pub(crate) entries: Moments,
    pub(crate) searches: Moments,
}

/// Marks what holds.
fn flag(holds: bool) -> Option<u64>
    ensures { result ≡ flag holds }
{
    if holds { Some(0) } else { None }
}

/// A moment of one of the searches, or of one of the others, and of no other file.
fn only_of(searches: bool, is_search: bool, moment: Option<u64>) -> Option<u64>
    ensures { result ≡ only_of searches is_search moment }
{
    if searches == is_search { moment } else { None }
}

/// What may be done with a file.
fn mark_of(offer: &Offer, known: &RuleFacts) -> FileMark
    ensures moves { result.moves ≡ move_mark known.now.released.entries known.now.still known.now.looked offer.now }
    ensures others { result.others ≡ other_mark false known.now.window known.now.still known.now.looked offer.now }
    ensures sought { result.sought ≡ other_mark true known.now.window known.now.still known.now.looked offer.now }
    ensures entries { result.entries ≡ ask_mark false known.now.released.entries known.now.window known.now.still known.now.looked offer.now }
    ensures searches { result.searches ≡ ask_mark true known.now.released.entries known.now.window known.now.still known.now.looked offer.now }
{
    let other = has_other(offer, known);
    let asks = ask_moment(offer, known);
    let is_search = is_search(offer.request.kind);
    FileMark {
        moves: flag(is_leaving(offer, known)),
        others: flag(!is_search && other),
        sought: flag(is_search && other),
        entries: only_of(false, is_search, asks),
        searches: only_of(true, is_search, asks),
    }
}

impl Marks {
    /// Of no file.
    pub(crate) fn new(alloc: Global) -> Marks
        ensures moves { result.moves ≡ [] }
        ensures others { result.others ≡ [] }
        ensures sought { result.sought ≡ [] }
        ensures entries { result.entries ≡ [] }
        ensures searches { result.searches ≡ [] }
    {
        Marks {
            moves: Moments::new(alloc),
            others: Moments::new(alloc),
            sought: Moments::new(alloc),
            entries: Moments::new(alloc),
            searches: Moments::new(alloc),
        }
    }

    /// Of so many files, with which nothing may be done.
    pub(crate) fn none(alloc: Global, len: usize) -> Result<Marks, AllocError>
        ensures moves { IfOk result (λ m. (length m.moves ≡ len) × AreNone m.moves) }
        ensures others { IfOk result (λ m. (length m.others ≡ len) × AreNone m.others) }
        ensures sought { IfOk result (λ m. (length m.sought ≡ len) × AreNone m.sought) }
        ensures entries { IfOk result (λ m. (length m.entries ≡ len) × AreNone m.entries) }
        ensures searches { IfOk result (λ m. (length m.searches ≡ len) × AreNone m.searches) }
    {
        let moves = Moments::none(alloc, len)?;
        let others = Moments::none(alloc, len)?;
        let sought = Moments::none(alloc, len)?;
        let entries = Moments::none(alloc, len)?;
        let searches = Moments::none(alloc, len)?;
        Ok(Marks {
            moves,
            others,
            sought,
            entries,
            searches,
        })
    }

    /// Marks the file at an index so.
    fn set(&mut self, index: usize, mark: FileMark)
        requires { IsMarkAt self.old index }
        ensures { self.new ≡ marked_at self.old index mark }
    {
        self.moves.set(index, mark.moves);
        self.others.set(index, mark.others);
        self.sought.set(index, mark.sought);
        self.entries.set(index, mark.entries);
        self.searches.set(index, mark.searches);
    }

    /// The same where nothing is marked from there on.
    fn put(&mut self, index: usize, mark: FileMark)
        requires { IsUnmarkedFrom self.old index }
        ensures { self.new ≡ marked_at self.old index mark }
    {
        self.moves.put(index, mark.moves);
        self.others.put(index, mark.others);
        self.sought.put(index, mark.sought);
        self.entries.put(index, mark.entries);
        self.searches.put(index, mark.searches);
    }
}

/// Marks all files, of which none is marked.
pub(crate) fn mark_all(marks: &mut Marks, offers: &[Offer], known: &RuleFacts)
    requires { AreUnmarked offers.now marks.old }
    ensures { MarksAll known.now offers.now marks.new }
{
    for index in 0..offers.len() {
        let mark = mark_of(&offers[index], known);
        marks.put(index, mark);
    }
}

/// Marks the file of a place anew, if it is there.
fn remark_at(marks: &mut Marks, offers: &[Offer], known: &RuleFacts, place: u32)
    requires { HaveMarks offers.now marks.old }
    ensures { RemarksFile known.now offers.now place marks.old marks.new }
{
    if let Some(index) = index_of(offers, place) {
        let mark = mark_of(&offers[index], known);
        marks.set(index, mark);
    }
}

/// Marks the files of a number anew.
pub(crate) fn remark(marks: &mut Marks, offers: &[Offer], known: &RuleFacts, number: Number)
    requires rises { Rises offers.now }
    requires room { HasRoom offers.now marks.old }
    ensures { RemarksFiles known.now offers.now number marks.old marks.new }
{
    remark_at(
        marks,
        offers,
        known,
        rank(request_of(number, OfferKind::Tape)),
    );
    remark_at(
        marks,
        offers,
        known,
        rank(request_of(number, OfferKind::Text)),
    );
    remark_at(
        marks,
        offers,
        known,
        rank(request_of(number, OfferKind::Withdraw)),
    );
    remark_at(
        marks,
        offers,
        known,
        rank(request_of(number, OfferKind::Seek)),
    );
}
