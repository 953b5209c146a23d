//! What is done with a file among the offers.

ghost use Rattle.std.specs.Prelude.{[], ◌≡◌, IfSome, true};
ghost use Rattle.run_command.specs.Departing.{departure_of, task_of, way_to, IsFree, IsFreeTask};
ghost use Rattle.run_command.specs.Living.{LivedOn};
ghost use Rattle.run_command.specs.Working.{Follows};

use crate::departures::{Departure, LeavingCause};
use crate::desk::PlantDesk;
use crate::plant::Papers;
use ballots::Number;
use driver::{Chance, Log};
use folders::{FileRequest, Folders, Place};
use offers::{Allowed, Deed, FoundOffer};
use plant_log::{LogEvent, Trouble};
use plant_status::StatusFile;
use std::io::Write;

/// What is to be done with the offers.
#[derive(Clone, Copy)]
pub(crate) enum Task {
    /// A file leaves them.
    Leave(Departure),
    /// A file is read; whether it may be in place of one that was under way.
    Read(FoundOffer, bool),
    /// The station is asked for a file.
    Ask(FileRequest),
    /// It is seen to a file whose name asks for nothing.
    SeeToStray,
    /// A look at them goes on.
    LookOn,
}

/// Why a file leaves the offers that is moved to a place: its number was released, or it is a search that was answered.
fn way_to(to: Place) -> LeavingCause
    ensures { result ≡ way_to to }
{
    match to {
        Place::Done => LeavingCause::Answered,
        Place::Sent | Place::Lost | Place::Refused => LeavingCause::Released(to),
    }
}

/// How a file leaves the offers by a deed; nothing where it does not.
fn departure_of(deed: &Deed) -> Option<Departure>
    ensures { result ≡ departure_of deed.now }
{
    match *deed {
        Deed::Move { request, stamp, to } => {
            let found = FoundOffer { request, stamp };
            let way = way_to(to);
            Some(Departure { found, way })
        }
        Deed::Refuse {
            request,
            stamp,
            reason,
        } => {
            let found = FoundOffer { request, stamp };
            let way = LeavingCause::NoOffer(reason);
            Some(Departure { found, way })
        }
        _ => None,
    }
}

/// What is to be done by a deed.
fn task_of(deed: &Deed) -> Option<Task>
    ensures { result ≡ task_of deed.now }
{
    match *deed {
        Deed::Ask { request } => Some(Task::Ask(request)),
        Deed::Read {
            request,
            stamp,
            replaced,
        } => Some(Task::Read(FoundOffer { request, stamp }, replaced)),
        _ => match departure_of(deed) {
            Some(departure) => Some(Task::Leave(departure)),
            None => None,
        },
    }
}

impl Papers {
    /// What is to be done next: with a file whose name asks for something, or else with one whose name asks for nothing, or else a look goes
    /// on. Files leave the offers for what was released only where nothing waits to be written among the releases: what is offered again at
    /// the next start is released again, and a release that waits would be lost.
    fn next_task(&mut self, allowed: Allowed) -> Option<Task>
        ensures book { Follows self.old.book self.new.book }
        ensures free { IfSome result (IsFreeTask self.new.book allowed.moves) }
    {
        if let Some(deed) = self.book.next(allowed) {
            return task_of(&deed);
        }
        if self.strays.find() {
            return Some(Task::SeeToStray);
        }
        if self.looking.goes_on() {
            return Some(Task::LookOn);
        }
        None
    }

    /// How the next file of a number leaves the offers that was released, if one does. What was released is written.
    pub(crate) fn next_departure(&self, number: Number) -> Option<Departure>
        ensures { IfSome result (IsFree self.now.book true) }
    {
        match self.book.leaving(number) {
            Some(deed) => departure_of(&deed),
            None => None,
        }
    }
}

impl<F: Folders, S: StatusFile> PlantDesk<'_, F, S> {
    /// Reads a file, which may be in place of one that was under way; that it is, is told. One that can't be read is put off, which is told.
    fn read_file<E: Write>(
        &mut self,
        found: &FoundOffer,
        replaced: bool,
        now: u64,
        log: &mut Log<'_, E>,
    )
        ensures { LivedOn F.doings self.old self.new [] }
    {
        let request = &found.request;
        let read = self.plant.read(self.folders, found);
        let papers = &mut self.plant.papers;
        match read {
            Ok(wish) => {
                papers.book.was_read(*request, wish);
                papers.journal.told.is_done(request);
                if replaced {
                    let number = request.number.get();
                    let event = LogEvent::Replaced { number };
                    papers.journal.told.tell(event, now, log.err);
                }
            }
            Err(fault) => {
                let trouble = Trouble {
                    request: *request,
                    fault,
                };
                papers.journal.told.cannot_read(&trouble, now, log.err);
                papers.book.could_not(*request, now);
            }
        }
    }

    /// Does a deed with a file, or answers for which one the station is to be asked, where it may be.
    pub(crate) fn deed_with_file<E: Write>(
        &mut self,
        chance: Chance,
        log: &mut Log<'_, E>,
    ) -> Option<FileRequest>
        ensures { LivedOn F.doings self.old self.new [] }
    {
        let allowed = Allowed {
            moves: self.plant.waits.is_filed(),
            asks: chance.may_ask,
        };
        match self.plant.papers.next_task(allowed) {
            Some(Task::Ask(request)) => Some(request),
            Some(Task::Leave(departure)) => {
                let papers = &mut self.plant.papers;
                papers.leave(self.folders, &departure, chance.moment, log);
                None
            }
            Some(Task::Read(found, replaced)) => {
                self.read_file(&found, replaced, chance.moment, log);
                None
            }
            Some(Task::SeeToStray) => {
                let papers = &mut self.plant.papers;
                papers.leave_stray(self.folders, chance.moment, log);
                None
            }
            Some(Task::LookOn) => {
                let papers = &mut self.plant.papers;
                papers.look_at_offers(self.folders, chance.moment, log);
                None
            }
            None => None,
        }
    }
}
