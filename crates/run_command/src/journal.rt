//! What is told of a plant, and what is noted and caught up with there.

ghost use Rattle.std.specs.Prelude.{◌≡◌};
ghost use Rattle.run_command.specs.Layouts.{older_by, older_in};
ghost use Rattle.run_command.specs.Working.{EndsRange, LooksBy};

use crate::backlog::Backlog;
use crate::status::note_heard;
use ballots::Member;
use driver::{HeardDatagram, Log, Said};
use folders::{FolderFault, Folders};
use plant_care::Care;
use plant_log::{LogEvent, Told};
use plant_status::Keeper;
use station::Release;
use std::alloc::Global;
use std::io::Write;
use tape_frames::Version;

/// What is kept in mind so that it is told, noted or caught up with. Moments are in milliseconds.
#[derive(Drop)]
pub(crate) struct Journal {
    pub(crate) alloc: Global,
    pub(crate) told: Told,
    pub(crate) care: Box<Care>,
    /// What is kept in mind for the status file, where there is one.
    pub(crate) keeper: Option<Keeper>,
    /// The layout of the station's rows.
    pub(crate) layout: Version,
}

/// The sender of a packet of this version, where that shows that its rows are of layout 1, and those of the station are of layout 2.
fn older_by(own: Version, said: &Said) -> Option<Member>
    ensures { result ≡ older_by own said.now.version said.now.sender }
{
    match (own, said.version) {
        (Version::Two, Version::One) => Some(said.sender),
        (Version::Two, Version::Two) | (Version::One, _) => None,
    }
}

/// The same of a datagram. Such a member hears nothing of this station.
fn older_in(own: Version, heard: &HeardDatagram) -> Option<Member>
    ensures { result ≡ older_in own heard.now }
{
    match heard {
        HeardDatagram::Taken(Some(said)) => older_by(own, said),
        HeardDatagram::Taken(None) | HeardDatagram::Refused(_) | HeardDatagram::Aside(_) => None,
    }
}

impl Journal {
    /// A datagram was taken in, at a moment.
    pub(crate) fn hear<E: Write>(&mut self, heard: &HeardDatagram, now: u64, log: &mut Log<'_, E>) {
        if let HeardDatagram::Refused(refusal) = heard {
            self.told.hear_refusal(*refusal, now, log.err);
        }
        let older = older_in(self.layout, heard);
        if let Some(member) = older {
            self.told.hear_older(member, log.err);
        }
        note_heard(&mut self.keeper, heard, older.is_some(), now);
        self.care.hear(heard, now, log);
    }

    /// Tells a release, at a moment.
    pub(crate) fn tell_release<E: Write>(
        &mut self,
        release: &Release,
        now: u64,
        log: &mut Log<'_, E>,
    ) {
        let number = release.number.get();
        self.told.tell(LogEvent::Released { number }, now, log.err);
    }

    /// Tells how the file of a range was moved. It is asked for no longer; one that could not be moved is asked for anew later.
    fn end_ask<E: Write>(&mut self, moved: &Result<(), FolderFault>, log: &mut Log<'_, E>) {
        let Some(ask) = self.care.end_ask() else {
            return;
        };
        match moved {
            Ok(()) => self.care.tell_answers(&ask, log),
            Err(fault) => {
                if let Ok(name) = ask.name(self.alloc) {
                    self.told.stuck(name.as_str(), *fault, log.err);
                }
            }
        }
    }

    /// The file of a range whose numbers have answers leaves the offers, with what came of them beside it.
    fn end_range<F: Folders, E: Write>(&mut self, folders: &mut F, log: &mut Log<'_, E>)
        ensures { EndsRange (F.doings folders.old) (F.doings folders.new) }
    {
        let Some(ask) = self.care.asked() else {
            return;
        };
        if ask.is_done() {
            let moved = ask.set_aside(self.alloc, folders);
            self.end_ask(&moved, log);
        }
    }

    /// Sees at a look to what is missing here: what went out is read, where it could not be before; what is told, is told; and what went out
    /// before that was kept is noted, if no number waits to be noted. Once all is stored and written that was released, the file of a range
    /// whose numbers have answers leaves the offers.
    pub(crate) fn look<F: Folders, E: Write>(
        &mut self,
        folders: &mut F,
        waits: &Backlog,
        now: u64,
        log: &mut Log<'_, E>,
    )
        ensures { LooksBy F.doings waits.now folders.old folders.new }
    {
        self.care.look(folders, waits.unnoted(), now, log);
        if waits.is_filed() {
            self.end_range(folders, log);
        }
    }

    /// Whether the file that ends the run lies among the offers, at a moment. Where it does, the disk has all that was written, and what went
    /// out is noted.
    pub(crate) fn is_over<F: Folders, E: Write>(
        &mut self,
        folders: &mut F,
        now: u64,
        log: &mut Log<'_, E>,
    ) -> bool
        ensures { F.doings folders.new ≡ F.doings folders.old }
    {
        let is_over = folders.has_stop(self.alloc);
        if is_over {
            self.care.settle(folders, now, log);
        }
        is_over
    }
}
