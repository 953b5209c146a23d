//! A look at the offers: what was found beside what was known, both in order, in one pass.

ghost use Rattle.std.specs.Prelude.{◌≡◌, ◌≤◌, [], suc, length, vec_capacity};
ghost use Rattle.offers.specs.Order.{rank, file_at, from, starts_before, Rises, RisesFrom};
ghost use Rattle.offers.specs.Looks.{seen, seen_as, looked};

use crate::offer::{FoundOffer, Offer, is_same_stamp};
use crate::order::rank;
use crate::stage::Stage;
use std::collections::VecDeque;

/// Whether the first of the files stands before a place.
fn starts_before(rest: &VecDeque<Offer>, low: u32) -> bool
    ensures { result ≡ starts_before low rest.now.items }
{
    match rest.front() {
        Some(offer) => rank(offer.request) < low,
        None => false,
    }
}

/// Lets go of the files before a place.
fn skip_to(rest: &mut VecDeque<Offer>, low: u32)
    ensures { rest.new.items ≡ from low rest.old.items }
{
    while starts_before(rest, low) {
        let _ = rest.pop_front();
    }
}

/// A file as it stands in the book from now on.
fn offer_of(found: FoundOffer, since: u64, stage: Stage) -> Offer
    ensures { result ≡ record { request = found.request; stamp = found.stamp; since = since; stage = stage } }
{
    Offer {
        request: found.request,
        stamp: found.stamp,
        since,
        stage,
    }
}

/// A file that is found now, of which this was known, if anything was.
fn seen_as(known: Option<Offer>, found: FoundOffer, now: u64) -> Offer
    ensures { result ≡ seen_as known now found }
{
    match known {
        Some(offer) => {
            if is_same_stamp(offer.stamp, found.stamp) {
                offer_of(found, offer.since, offer.stage)
            } else {
                offer_of(found, now, offer.stage.anew(now))
            }
        }
        None => offer_of(found, now, Stage::watched(now, false)),
    }
}

/// Takes the file at a place out, which stands in front where it is there.
fn take_at(rest: &mut VecDeque<Offer>, place: u32) -> Option<Offer>
    requires within { place ≤ 3_999_999 }
    requires rises { RisesFrom place rest.old.items }
    ensures file { result ≡ file_at rest.old.items place }
    ensures rest { rest.new.items ≡ from (suc place) rest.old.items }
{
    if starts_before(rest, place + 1) {
        rest.pop_front()
    } else {
        None
    }
}

/// A file that is found now, beside those that were known.
fn meet(rest: &mut VecDeque<Offer>, found: FoundOffer, now: u64) -> Offer
    requires { Rises rest.old.items }
    ensures file { result ≡ seen rest.old.items now found }
    ensures rest { rest.new.items ≡ from (suc (rank found.request)) rest.old.items }
{
    let place = rank(found.request);
    skip_to(rest, place);
    let known = take_at(rest, place);
    seen_as(known, found, now)
}

/// All that is found now, beside what was known; for which there is room.
pub(crate) fn merge(
    known: VecDeque<Offer>,
    found: &[FoundOffer],
    now: u64,
    room: Vec<Offer>,
) -> Vec<Offer>
    requires rises { Rises known.items }
    requires room { length found.now ≤ vec_capacity room }
    requires empty { room.items ≡ [] }
    ensures { result.items ≡ looked known.items now found.now }
{
    let mut rest = known;
    let mut files = room;
    let mut low = 0;
    for each in found {
        let place = rank(each.request);
        if low <= place {
            files.push_reserved(meet(&mut rest, *each, now));
            low = place + 1;
        }
    }
    files
}
