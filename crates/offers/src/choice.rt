//! Which deed comes next.

ghost use Rattle.std.specs.Prelude.{◌≡◌, ◌≤◌, ◌<◌, ◌+◌, ◌-◌, ◌*◌, ◌↔◌, Some, None, IsTrue, if◌then◌else◌, IfSome, length, is_some, min, true, false, slice_index_or};
ghost use Rattle.offers.specs.declared.offer.Offer.{Offer};
ghost use Rattle.offers.specs.Rules.{MayDo, ask_moment_among, has_other_of};
ghost use Rattle.offers.specs.Stages.{after, changed};
ghost use Rattle.offers.specs.Order.{rank, Rises};
ghost use Rattle.offers.specs.Choices.{AsksAt, AsksOrTakes, ChoosesBehindMoves, FindsNextPlace, LeavesOrHasLeft, MayMoveBy, MayTakeBy, TakesNext, TakesOverdue};
ghost use Rattle.pace.specs.UnderWay.{with_one};
ghost use Rattle.offers.specs.Asks.{IsFirstAsk, MatchFirstAsk, MatchSoonest};
ghost use Rattle.offers.specs.Left.{NoMoves, NoOthers, NoAsks, IsOtherAt, HaveLeft};
ghost use Rattle.offers.specs.Turns.{IsAskOf, NoMovesLeft, IsBehindMoves, IsInTurn, Rests, RestsButMoves, Advances, PassesFew, since_ask, done_by};

use crate::book::{Book, MOST_IN_A_ROW, MOST_WITHOUT_A_SEARCH};
use crate::deed::{Allowed, Deed};
use crate::edits::{index_of, request_of, tell};
use crate::marks::remark;
use crate::offer::Offer;
use crate::order::{is_search, rank};
use crate::rules::{leaving, other};
use crate::stage::FileNews;
use ballots::Number;
use folders::{FileRequest, OfferKind};
use pace::Window;

/// Where a file is asked for, counts one more that was in a row, as far as that matters.
fn count_if(row: &mut usize, is_asked: bool)
    ensures { row.new ≡ (if is_asked then min (row.old + 1) 8 else row.old) }
{
    if is_asked {
        *row = row.saturating_add(1).min(MOST_IN_A_ROW);
    }
}

/// How many that are no searches were asked for since the last that is one, as far as that matters, once one of a kind is asked for.
fn since_ask(since: usize, kind: OfferKind) -> usize
    ensures { result ≡ since_ask kind since }
{
    if is_search(kind) {
        0
    } else {
        since.saturating_add(1).min(MOST_WITHOUT_A_SEARCH)
    }
}

/// Where a file of a kind is asked for, counts how many that are no searches were since the last that is one.
fn count_kind(since: &mut usize, is_asked: bool, kind: OfferKind)
    ensures { since.new ≡ (if is_asked then since_ask kind since.old else since.old) }
{
    if is_asked {
        *since = since_ask(*since, kind);
    }
}

/// Asks for a file, or does nothing.
fn ask_if(is_asked: bool, request: &FileRequest) -> Option<Deed>
    ensures { result ≡ (if is_asked then Some (Deed.Ask request.now) else None) }
{
    if is_asked {
        let request = *request;
        Some(Deed::Ask { request })
    } else {
        None
    }
}

/// What a file asks for is under way from now on, where there is room for its number; whether there is.
fn take_off(window: &mut Window, offers: &mut Vec<Offer>, request: &FileRequest) -> bool
    requires { Rises offers.old.items }
    ensures room { IsTrue result ↔ (length window.old < 16) }
    ensures window { window.new ≡ with_one result request.now.number window.old }
    ensures files { offers.new.items ≡ (if result then changed (rank request.now) (after FileNews.Asked 0) offers.old.items else offers.old.items) }
    ensures rises { Rises offers.new.items }
{
    let found = window.add(request.number);
    if found {
        tell(offers, *request, FileNews::Asked, 0);
    }
    found
}

impl Book {
    /// How the file at an index leaves the offers that was released under its number, if its moment has come.
    fn move_at(&self, index: usize) -> Option<Deed>
        requires { index < length self.now.files }
        ensures some { IfSome result (MayMoveBy self.now) }
        ensures none { result ≡ None → NoMoves self.now index (index + 1) }
    {
        leaving(&self.offers[index], &self.known)
    }

    /// The first file of those that are left that leaves the offers.
    fn first_move(&self) -> Option<(usize, Deed)>
        ensures within { IfSome result (λ p. (self.now.moves ≤ p.0) × (p.0 < length self.now.files)) }
        ensures before { IfSome result (λ p. NoMoves self.now self.now.moves p.0) }
        ensures rules { IfSome result (λ p. MayMoveBy self.now p.1) }
        ensures none { result ≡ None → NoMoves self.now self.now.moves (length self.now.files) }
    {
        match self.marks.moves.next(self.moves) {
            Some(index) => match self.move_at(index) {
                Some(deed) => Some((index, deed)),
                None => None,
            },
            None => None,
        }
    }

    /// The same, where it is allowed, and the work goes on behind it.
    fn move_if(&mut self, moves: bool) -> Option<Deed>
        ensures rules { IfSome result (MayMoveBy self.old) }
        ensures allowed { IfSome result (λ _. moves ≡ true) }
        ensures passed { NoMoves self.old self.old.moves (self.new.moves - 1) }
        ensures forward { IfSome result (λ _. self.old.moves < self.new.moves) }
        ensures none { result ≡ None → NoMovesLeft self.old moves }
        ensures done { result ≡ None → moves ≡ true → length self.old.files ≤ self.new.moves }
        ensures same { self.new ≡ record self.old { moves = self.new.moves } }
    {
        if !moves {
            return None;
        }
        match self.first_move() {
            Some((index, deed)) => {
                self.moves = index + 1;
                Some(deed)
            }
            None => {
                self.moves = self.offers.len();
                None
            }
        }
    }

    /// Whether the file at an index is read or refused now.
    fn other_at(&self, index: usize) -> Option<Deed>
        requires { index < length self.now.files }
        ensures some { IfSome result (MayTakeBy self.now) }
        ensures none { result ≡ None → (d : Offer) → has_other_of self.now (slice_index_or self.now.files index d) ≡ false }
    {
        other(&self.offers[index], &self.known)
    }

    /// The index of the first file of those that are no searches and are left that is marked, by its place.
    fn next_entry(&self) -> Option<usize>
        ensures some { IfSome result (λ i. IsOtherAt self.now i i) }
        ensures from { IfSome result (λ i. self.now.others ≤ i) }
        ensures before { IfSome result (λ i. NoOthers self.now self.now.others i) }
        ensures none { result ≡ None → NoOthers self.now self.now.others (length self.now.files) }
    {
        self.marks.others.next(self.others)
    }

    /// The same of the searches, whose places stand behind those of all files.
    fn next_search(&self) -> Option<usize>
        ensures some { IfSome result (λ i. IsOtherAt self.now (length self.now.files + i) i) }
        ensures from { IfSome result (λ i. self.now.others ≤ length self.now.files + i) }
        ensures before { NoOthers self.now self.now.others (length self.now.files) → IfSome result (λ i. NoOthers self.now self.now.others (length self.now.files + i)) }
        ensures none { NoOthers self.now self.now.others (length self.now.files) → result ≡ None → NoOthers self.now self.now.others (2 * length self.now.files) }
    {
        let from = self.others.saturating_sub(self.offers.len());
        self.marks.sought.next(from)
    }

    /// The first place of those that are left at which a file is read or refused, with the index of the file.
    fn next_place(&self) -> Option<(usize, usize)>
        ensures { FindsNextPlace self.now result }
    {
        match self.next_entry() {
            Some(index) => Some((index, index)),
            None => match self.next_search() {
                Some(index) => Some((self.offers.len() + index, index)),
                None => None,
            },
        }
    }

    /// The first place of those that are left whose file is read or refused.
    fn first_other(&self) -> Option<(usize, Deed)>
        ensures within { IfSome result (λ p. (self.now.others ≤ p.0) × (p.0 < 2 * length self.now.files)) }
        ensures before { IfSome result (λ p. NoOthers self.now self.now.others p.0) }
        ensures rules { IfSome result (λ p. MayTakeBy self.now p.1) }
        ensures none { result ≡ None → NoOthers self.now self.now.others (2 * length self.now.files) }
    {
        match self.next_place() {
            Some((place, index)) => match self.other_at(index) {
                Some(deed) => Some((place, deed)),
                None => None,
            },
            None => None,
        }
    }

    /// The same, and the work goes on behind it.
    fn next_other(&mut self) -> Option<Deed>
        ensures takes { TakesNext self.old self.new result }
        ensures none { result ≡ None → NoOthers self.old self.old.others (2 * length self.old.files) }
        ensures done { result ≡ None → self.new.others ≡ 2 * length self.old.files }
    {
        match self.first_other() {
            Some((place, deed)) => {
                self.others = place + 1;
                self.row = 0;
                Some(deed)
            }
            None => {
                self.others = 2 * self.offers.len();
                None
            }
        }
    }

    /// The file for which the station may be asked whose moment came first, of the searches or of the others, with that moment.
    fn soonest_of(&self, searches: bool) -> Option<(usize, u64)>
        ensures { MatchSoonest (ask_moment_among searches self.now) self.now.files result }
    {
        if searches {
            self.marks.searches.first()
        } else {
            self.marks.entries.first()
        }
    }

    /// The file that comes first of those for which the station may be asked: the searches go last, or first, where it is their turn.
    fn soonest(&self) -> Option<(usize, u64)>
        ensures { MatchFirstAsk self.now result }
    {
        let searches = self.since_search >= MOST_WITHOUT_A_SEARCH;
        match self.soonest_of(searches) {
            Some(first) => Some(first),
            None => self.soonest_of(!searches),
        }
    }

    /// The same, where it is left to see for which the station may be asked.
    fn first_ask(&self) -> Option<usize>
        ensures within { IfSome result (λ index. index < length self.now.files) }
        ensures some { IfSome result (λ index. IsFirstAsk self.now index) }
        ensures none { result ≡ None → NoAsks self.now }
        ensures asks { IfSome result (λ _. self.now.asks ≡ true) }
    {
        if !self.asks {
            return None;
        }
        match self.soonest() {
            Some((index, _)) => Some(index),
            None => None,
        }
    }

    /// Asks for the file at an index, which asks for this, where there is room in the window: it is under way from now on. It is left to see for which others
    /// the station may be asked.
    fn ask_at(&mut self, index: usize, request: FileRequest) -> Option<Deed>
        requires within { index < length self.old.files }
        requires request { (d : Offer) → (slice_index_or self.old.files index d).request ≡ request }
        requires first { IsFirstAsk self.old index }
        requires left { self.old.asks ≡ true }
        ensures { AsksAt index self.old self.new result }
    {
        let found = take_off(&mut self.known.window, &mut self.offers, &request);
        remark(
            &mut self.marks,
            self.offers.as_slice(),
            &self.known,
            request.number,
        );
        count_if(&mut self.row, found);
        count_kind(&mut self.since_search, found, request.kind);
        ask_if(found, &request)
    }

    /// Asks for the file that comes first, where that is allowed and there is room; where there is none, another is read or refused.
    fn ask_or_other(&mut self, asks: bool) -> Option<Deed>
        ensures { AsksOrTakes asks self.old self.new result }
    {
        match self.first_ask() {
            Some(index) => {
                let request = self.offers[index].request;
                if asks {
                    self.ask_at(index, request)
                } else {
                    None
                }
            }
            None => {
                self.asks = false;
                self.next_other()
            }
        }
    }

    /// What is read or refused next, where eight files were asked for in a row.
    fn overdue(&mut self) -> Option<Deed>
        ensures { TakesOverdue self.old self.new result }
    {
        if self.row >= MOST_IN_A_ROW {
            self.next_other()
        } else {
            None
        }
    }

    /// What comes behind the moves.
    fn behind_moves(&mut self, asks: bool) -> Option<Deed>
        ensures chooses { ChoosesBehindMoves self.old self.new result }
        ensures turn { IsBehindMoves self.old asks result }
        ensures rests { result ≡ None → RestsButMoves self.new asks }
    {
        match self.overdue() {
            Some(deed) => Some(deed),
            None => self.ask_or_other(asks),
        }
    }

    /// What is to be done next, of what is allowed, if anything is left since the last look: first, files are moved whose numbers were
    /// released; then the station is asked for files, in the order of their moments, for the searches behind the others; then files are
    /// read, or refused, searches behind the others too, but one of these after eight that were asked for. One search is asked for first
    /// after eight others that were. A file that is asked for is under way, until it is told what became of its number.
    pub fn next(&mut self, allowed: Allowed) -> Option<Deed>
        ensures rules { IfSome result (MayDo self.old) }
        ensures turn { IsInTurn self.old allowed result }
        ensures fair { IfSome result (PassesFew self.old) }
        ensures rests { result ≡ None → Rests self.new allowed }
        ensures moves { NoMoves self.old self.old.moves (self.new.moves - 1) }
        ensures others { NoOthers self.old self.old.others (self.new.others - 1) }
        ensures forward { IfSome result (Advances self.old self.new) }
        ensures same { self.new ≡ record (done_by result self.old) { moves = self.new.moves; others = self.new.others; asks = self.new.asks } }
    {
        match self.move_if(allowed.moves) {
            Some(deed) => Some(deed),
            None => self.behind_moves(allowed.asks),
        }
    }

    /// How the file that asks for this leaves the offers that was released under its number, if its moment has come.
    fn leaving_of(&self, request: FileRequest) -> Option<Deed>
        ensures { LeavesOrHasLeft self.now request result }
    {
        match index_of(self.offers.as_slice(), rank(request)) {
            Some(index) => self.move_at(index),
            None => None,
        }
    }

    /// How a file of a number leaves the offers: once the number is released, and what was released is written, each of them that was
    /// read does, one after the other.
    pub fn leaving(&self, number: Number) -> Option<Deed>
        ensures rules { IfSome result (MayDo self.now) }
        ensures none { result ≡ None → HaveLeft self.now number }
    {
        let tape = self.leaving_of(request_of(number, OfferKind::Tape));
        if tape.is_some() {
            return tape;
        }
        let text = self.leaving_of(request_of(number, OfferKind::Text));
        if text.is_some() {
            return text;
        }
        let withdrawal = self.leaving_of(request_of(number, OfferKind::Withdraw));
        if withdrawal.is_some() {
            return withdrawal;
        }
        self.leaving_of(request_of(number, OfferKind::Seek))
    }
}
