//! Files that leave the offers: to those that were sent or lost once their number is released, to those that are no offers, or to those
//! that are done, as searches that were answered.

ghost use Rattle.std.specs.Prelude.{◌≡◌, [], IfOk, codes, string_bytes};
ghost use Rattle.tape_frames.specs.Entries.{lent_entry};
ghost use Rattle.release_texts.specs.EntryText.{entry_text};
ghost use Rattle.release_texts.specs.ReleaseText.{plain_line};
ghost use Rattle.run_command.specs.Departing.{IsBeside, IsReason, TellsDeparture, left_event, place_of};
ghost use Rattle.run_command.specs.Working.{Departs, MayDepart};

use crate::plant::Papers;
use crate::status::note_left;
use driver::Log;
use folders::{FolderFault, Folders, Leaving, Place, name_of};
use offers::{FoundOffer, OfferFault};
use plant_log::{LogEvent, ReasonText, Told, Trouble};
use release_texts::entry_text;
use std::alloc::{AllocError, Global};
use std::io::Write;
use tape_frames::EntryRef;

/// Why a file leaves the offers.
#[derive(Clone, Copy)]
pub(crate) enum LeavingCause {
    /// Its number was released; it goes there.
    Released(Place),
    /// It is no offer.
    NoOffer(OfferFault),
    /// It is a search that found nothing ten times.
    Answered,
}

/// A file that leaves the offers.
#[derive(Clone, Copy)]
pub(crate) struct Departure {
    pub(crate) found: FoundOffer,
    pub(crate) way: LeavingCause,
}

/// Where such a file goes.
fn place_of(way: LeavingCause) -> Place
    ensures { result ≡ place_of way }
{
    match way {
        LeavingCause::Released(to) => to,
        LeavingCause::NoOffer(_) => Place::Refused,
        LeavingCause::Answered => Place::Done,
    }
}

/// The text beside a file that was lost: what stands under its number.
fn standing_text(alloc: Global, number: u32, entry: &EntryRef<'_>) -> Result<String, AllocError>
    ensures { IfOk result (λ t. string_bytes t ≡ plain_line [] number (entry_text (lent_entry entry.now))) }
{
    let text = entry_text(alloc, entry)?;
    format!(in alloc; "release {number} {text}\n")
}

/// The text beside a file that is no offer.
fn reason_text(alloc: Global, reason: OfferFault) -> Result<String, AllocError>
    ensures { IfOk result (λ t. IsReason reason (string_bytes t)) }
{
    let why = ReasonText(reason);
    format!(in alloc; "{why}\n")
}

/// The text beside a search that was answered.
fn answer_text(alloc: Global) -> Result<String, AllocError>
    ensures { IfOk result (λ t. string_bytes t ≡ codes "nothing\n") }
{
    String::from_str(alloc, "nothing\n")
}

/// What befell the number of a file that has left the offers; nothing where it was no offer.
fn event_of(departure: &Departure) -> Option<LogEvent>
    ensures { result ≡ left_event departure.now }
{
    let number = departure.found.request.number.get();
    match departure.way {
        LeavingCause::Released(Place::Lost) => Some(LogEvent::Lost { number }),
        LeavingCause::Released(_) => Some(LogEvent::Sent { number }),
        LeavingCause::NoOffer(_) => None,
        LeavingCause::Answered => Some(LogEvent::Done { number }),
    }
}

/// Tells at a moment that a file has left the offers.
fn tell_departure<E: Write>(told: &mut Told, departure: &Departure, now: u64, log: &mut Log<'_, E>)
    ensures tells { TellsDeparture departure.now now told.old told.new (E.contents log.old.err.now) (E.contents log.new.err.now) }
{
    match event_of(departure) {
        Some(event) => told.tell(event, now, log.err),
        None => {
            if let LeavingCause::NoOffer(reason) = departure.way {
                told.no_offer(departure.found.request, reason, log.err);
            }
        }
    }
}

impl Papers {
    /// What is to lie beside a file: nothing where it was sent.
    fn text_beside(&self, departure: &Departure) -> Result<Option<String>, FolderFault>
        ensures { IfOk result (IsBeside self.now.book departure.now) }
    {
        let alloc = self.journal.alloc;
        match departure.way {
            LeavingCause::Released(Place::Lost) => {
                let number = departure.found.request.number;
                let Some(entry) = self.book.entry(number) else {
                    return Err(FolderFault::Missing);
                };
                let text = standing_text(alloc, number.get(), &entry.lend())?;
                Ok(Some(text))
            }
            LeavingCause::Released(_) => Ok(None),
            LeavingCause::NoOffer(reason) => {
                let text = reason_text(alloc, reason)?;
                Ok(Some(text))
            }
            LeavingCause::Answered => {
                let text = answer_text(alloc)?;
                Ok(Some(text))
            }
        }
    }

    /// Moves a file, with the text beside it that is to lie there.
    fn depart<F: Folders>(&self, folders: &mut F, departure: &Departure) -> Result<(), FolderFault>
        ensures { MayDepart departure.now (F.doings folders.old) (F.doings folders.new) }
    {
        let text = self.text_beside(departure)?;
        let name = name_of(self.journal.alloc, departure.found.request)?;
        let leaving = Leaving {
            name: name.as_str(),
            stamp: departure.found.stamp,
            to: place_of(departure.way),
        };
        let beside = text.as_ref().map(|text| text.as_str());
        folders.set_aside(self.journal.alloc, leaving, beside)
    }

    /// Lets a file leave the offers. One that can't be moved is put off, which is told.
    pub(crate) fn leave<F: Folders, E: Write>(
        &mut self,
        folders: &mut F,
        departure: &Departure,
        now: u64,
        log: &mut Log<'_, E>,
    )
        ensures { Departs departure.now (F.doings folders.old) (F.doings folders.new) self.old.book self.new.book }
    {
        let request = &departure.found.request;
        match self.depart(folders, departure) {
            Ok(()) => {
                self.book.moved(*request);
                self.journal.told.is_done(request);
                note_left(&mut self.journal.keeper, departure);
                tell_departure(&mut self.journal.told, departure, now, log);
            }
            Err(fault) => {
                let trouble = Trouble {
                    request: *request,
                    fault,
                };
                self.journal.told.cannot_move(&trouble, now, log.err);
                self.book.could_not(*request, now);
            }
        }
    }
}
