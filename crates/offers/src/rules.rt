//! What the rules say of one file.

ghost use Rattle.std.specs.Prelude.{◌≡◌, None, false, is_some, IfSome};
ghost use Rattle.std.specs.Ordering.{nat_cmp};
ghost use Rattle.std.specs.BTreeMap.{get};
ghost use Rattle.offers.specs.Rules.{is_whole, is_leaving, leaves_now, moment_of, ask_moment, is_free, is_other, has_other, entry_for, flies_by, IsLeaving, IsMoveFor, IsOther};

use crate::deed::Deed;
use crate::known::RuleFacts;
use crate::offer::Offer;
use crate::stage::Stage;
use crate::under_way::is_under_way;
use folders::{Place, Wish, has_passed, place_of};
use std::collections::BTreeMap;
use tape_frames::Entry;

/// Whether two looks found a file as it is, so long apart as is asked: the first that did, and the last look.
fn is_whole(offer: &Offer, known: &RuleFacts) -> bool
    ensures { result ≡ is_whole known.now.still known.now.looked offer.now }
{
    has_passed(offer.since, known.still, known.looked)
}

/// Where a file goes whose number was released; nowhere where it was not.
fn leave(offer: &Offer, wish: &Wish, released: &BTreeMap<u32, Entry>) -> Option<Deed>
    ensures some { IfSome result (IsMoveFor (get nat_cmp released.now offer.now.request.number) offer.now wish.now) }
    ensures none { result ≡ None → get nat_cmp released.now offer.now.request.number ≡ None }
{
    let key = offer.request.number.get();
    match released.get(&key) {
        Some(entry) => Some(Deed::Move {
            request: offer.request,
            stamp: offer.stamp,
            to: place_of(wish, &entry.lend()),
        }),
        None => None,
    }
}

/// How a search leaves the offers that was answered.
fn leave_answered(offer: &Offer) -> Deed
    ensures { result ≡ Deed.Move offer.now.request offer.now.stamp Place.Done }
{
    Deed::Move {
        request: offer.request,
        stamp: offer.stamp,
        to: Place::Done,
    }
}

/// How a file leaves the offers that was released under its number, or is a search that was answered, if its moment has come.
pub(crate) fn leaving(offer: &Offer, known: &RuleFacts) -> Option<Deed>
    ensures some { IfSome result (IsLeaving (entry_for known.now offer.now) known.now.still known.now.looked offer.now) }
    ensures none { result ≡ None → is_leaving (entry_for known.now offer.now) known.now.still known.now.looked offer.now ≡ false }
{
    if !is_whole(offer, known) {
        return None;
    }
    match &offer.stage {
        Stage::Waiting { wish, at, .. } => {
            if *at <= known.looked {
                leave(offer, wish, &known.released)
            } else {
                None
            }
        }
        Stage::Answered { at, .. } => {
            if *at <= known.looked {
                Some(leave_answered(offer))
            } else {
                None
            }
        }
        _ => None,
    }
}

/// The moment from which on a file waits to be asked for, if it has come.
fn moment_of(stage: &Stage, looked: u64) -> Option<u64>
    ensures { result ≡ moment_of looked stage.now }
{
    match stage {
        Stage::Waiting { at, .. } => if *at <= looked { Some(*at) } else { None },
        _ => None,
    }
}

/// Whether the number of a file was released.
fn is_released(offer: &Offer, known: &RuleFacts) -> bool
    ensures { result ≡ is_some (entry_for known.now offer.now) }
{
    let key = offer.request.number.get();
    known.released.contains_key(&key)
}

/// Whether a file in its state leaves the offers. What was released is asked only where its moment has come.
fn leaves_now(offer: &Offer, known: &RuleFacts) -> bool
    ensures { result ≡ leaves_now (is_some (entry_for known.now offer.now)) known.now.looked offer.now.stage }
{
    let looked = known.looked;
    match &offer.stage {
        Stage::Waiting { at, .. } => *at <= looked && is_released(offer, known),
        Stage::Answered { at, .. } => *at <= looked,
        _ => false,
    }
}

/// Whether a file leaves the offers now, whatever its way.
pub(crate) fn is_leaving(offer: &Offer, known: &RuleFacts) -> bool
    ensures { result ≡ is_leaving (entry_for known.now offer.now) known.now.still known.now.looked offer.now }
{
    is_whole(offer, known) && leaves_now(offer, known)
}

/// Whether the number of a file is under way.
fn flies(offer: &Offer, known: &RuleFacts) -> bool
    ensures { result ≡ flies_by known.now offer.now }
{
    is_under_way(known.window.numbers(), offer.request.number)
}

/// Whether the station may be asked for a file, once its moment has come.
fn is_free(offer: &Offer, known: &RuleFacts) -> bool
    ensures { result ≡ is_free (entry_for known.now offer.now) (flies_by known.now offer.now) known.now.still known.now.looked offer.now }
{
    is_whole(offer, known) && !is_released(offer, known) && !flies(offer, known)
}

/// The moment since which the station may be asked for a file.
pub(crate) fn ask_moment(offer: &Offer, known: &RuleFacts) -> Option<u64>
    ensures { result ≡ ask_moment (entry_for known.now offer.now) (flies_by known.now offer.now) known.now.still known.now.looked offer.now }
{
    let moment = moment_of(&offer.stage, known.looked);
    if moment.is_some() && is_free(offer, known) {
        moment
    } else {
        None
    }
}

/// Whether a file in its state was not read and is to be, or is to be refused. What is under way is asked only where its moment has come.
fn is_other(offer: &Offer, known: &RuleFacts) -> bool
    ensures { result ≡ is_other (flies_by known.now offer.now) known.now.looked offer.now.stage }
{
    let looked = known.looked;
    match &offer.stage {
        Stage::Watched { at, .. } => *at <= looked && !flies(offer, known),
        Stage::Refused { at, .. } => *at <= looked,
        _ => false,
    }
}

/// Whether a file is read or refused now.
pub(crate) fn has_other(offer: &Offer, known: &RuleFacts) -> bool
    ensures { result ≡ has_other (flies_by known.now offer.now) known.now.still known.now.looked offer.now }
{
    is_whole(offer, known) && is_other(offer, known)
}

/// How a file is read or refused now.
pub(crate) fn other(offer: &Offer, known: &RuleFacts) -> Option<Deed>
    ensures some { IfSome result (IsOther (flies_by known.now offer.now) known.now.still known.now.looked offer.now) }
    ensures none { result ≡ None → has_other (flies_by known.now offer.now) known.now.still known.now.looked offer.now ≡ false }
{
    if !is_whole(offer, known) {
        return None;
    }
    let flies = is_under_way(known.window.numbers(), offer.request.number);
    let looked = known.looked;
    let request = offer.request;
    let stamp = offer.stamp;
    match &offer.stage {
        Stage::Watched { at, replaced } => {
            if *at <= looked && !flies {
                let replaced = *replaced;
                Some(Deed::Read {
                    request,
                    stamp,
                    replaced,
                })
            } else {
                None
            }
        }
        Stage::Refused { reason, at, .. } => {
            if *at <= looked {
                let reason = *reason;
                Some(Deed::Refuse {
                    request,
                    stamp,
                    reason,
                })
            } else {
                None
            }
        }
        _ => None,
    }
}
