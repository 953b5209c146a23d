//! News of one file among the offers, and of all files of a number.

ghost use Rattle.std.specs.Prelude.{◌≡◌, ◌<◌, ℕ, MatchOption, None, length};
ghost use Rattle.std.specs.Ordering.{nat_cmp};
ghost use Rattle.offers.specs.Order.{rank, file_at, Rises, IsPlaceOf};
ghost use Rattle.offers.specs.Edits.{TellsAll, TellsOne};
ghost use Rattle.offers.specs.Stages.{after, changed};

use crate::offer::Offer;
use crate::order::rank;
use crate::stage::{FileNews, Landing, Stage};
use ballots::Number;
use folders::{FileRequest, OfferKind};
use std::cmp::Ordering;
use std::mem;

/// How a file stands to a place.
fn compare(offer: &Offer, place: u32) -> Ordering
    ensures { result ≡ nat_cmp (rank offer.now.request) place }
{
    rank(offer.request).cmp(&place)
}

/// Where the file of a place stands among files in order.
pub(crate) fn index_of(offers: &[Offer], place: u32) -> Option<usize>
    requires { Rises offers.now }
    ensures { MatchOption result (file_at offers.now place ≡ None) (IsPlaceOf offers.now place) }
{
    match offers.binary_search_by(|offer| compare(offer, place)) {
        Ok(index) => Some(index),
        Err(_) => None,
    }
}

/// Takes in some news of the file at an index.
fn tell_at(offers: &mut Vec<Offer>, index: usize, news: FileNews, now: u64)
    requires rises { Rises offers.old.items }
    requires within { index < length offers.old.items }
    ensures { (place : ℕ) → IsPlaceOf offers.old.items place index → offers.new.items ≡ changed place (after news now) offers.old.items }
{
    let offer = &mut offers[index];
    let stage = mem::replace(&mut offer.stage, Stage::Gone);
    offer.stage = stage.after(news, now);
}

/// Takes in some news of a file, if it is there.
pub(crate) fn tell(offers: &mut Vec<Offer>, request: FileRequest, news: FileNews, now: u64)
    requires { Rises offers.old.items }
    ensures { TellsOne (rank request) (after news now) offers.old.items offers.new.items }
{
    if let Some(index) = index_of(offers.as_slice(), rank(request)) {
        tell_at(offers, index, news, now);
    }
}

/// Takes in what became of a number, of each file of it that is there.
pub(crate) fn tell_all(offers: &mut Vec<Offer>, number: Number, landing: Landing, now: u64)
    requires { Rises offers.old.items }
    ensures { TellsAll number (after (FileNews.Landed landing) now) offers.old.items offers.new.items }
{
    tell(
        offers,
        request_of(number, OfferKind::Tape),
        FileNews::Landed(landing),
        now,
    );
    tell(
        offers,
        request_of(number, OfferKind::Text),
        FileNews::Landed(landing),
        now,
    );
    tell(
        offers,
        request_of(number, OfferKind::Withdraw),
        FileNews::Landed(landing),
        now,
    );
    tell(
        offers,
        request_of(number, OfferKind::Seek),
        FileNews::Landed(landing),
        now,
    );
}

/// What a file of a number and a kind asks for.
pub(crate) fn request_of(number: Number, kind: OfferKind) -> FileRequest
    ensures { result ≡ record { number = number; kind = kind } }
{
    FileRequest { number, kind }
}
