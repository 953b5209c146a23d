//! Files whose names ask for nothing: they are moved to those that are no offers.

ghost use Rattle.std.specs.Prelude.{◌≡◌, string_bytes};
ghost use Rattle.folders.specs.Doings.{moved_file, MayDo};
ghost use Rattle.folders.specs.declared.leaving.Place.TheVariants.{Refused};
ghost use Rattle.looks.specs.Strays.{ripe_at};
ghost use Rattle.run_command.specs.Straying.{TellsMoved, TellsStray};
ghost use Rattle.run_command.specs.Working.{Looked};

use crate::plant::Papers;
use crate::range_asks::ask_for_stray;
use crate::status::note_stray;
use driver::Log;
use folders::{FolderFault, Folders, Leaving, Place};
use looks::Stray;
use plant_log::NO_NUMBER;
use std::alloc::Global;
use std::io::Write;

/// Moves such a file, with a text beside it.
fn set_aside<F: Folders>(alloc: Global, folders: &mut F, stray: &Stray) -> Result<(), FolderFault>
    ensures { MayDo (F.doings folders.old) (F.doings folders.new) (moved_file (string_bytes stray.now.name) Refused) }
{
    let leaving = Leaving {
        name: stray.name.as_str(),
        stamp: stray.sighting.stamp,
        to: Place::Refused,
    };
    folders.set_aside(alloc, leaving, Some("no number\n"))
}

impl Papers {
    /// Tells that this file was moved, or why it can't be, at a moment: not the same again within an hour.
    fn tell_moved<E: Write>(
        &self,
        stray: &Stray,
        moved: &Result<(), FolderFault>,
        now: u64,
        log: &mut Log<'_, E>,
    )
        ensures { TellsMoved self.now.journal.told.loudness stray.now moved.now now (E.contents log.old.err.now) (E.contents log.new.err.now) }
    {
        let name = stray.name.as_str();
        match moved {
            Ok(()) => self.journal.told.refused(name, NO_NUMBER, log.err),
            Err(fault) => {
                if stray.sighting.is_to_be_told(*fault, now) {
                    self.journal.told.stuck(name, *fault, log.err);
                }
            }
        }
    }

    /// The same of the next such file.
    fn tell_stray<E: Write>(&self, moved: &Result<(), FolderFault>, now: u64, log: &mut Log<'_, E>)
        ensures { TellsStray self.now.journal.told.loudness (ripe_at self.now.strays) moved.now now (E.contents log.old.err.now) (E.contents log.new.err.now) }
    {
        if let Some(stray) = self.strays.first() {
            self.tell_moved(stray, moved, now, log);
        }
    }

    /// Sees to the next such file, at a moment: the range that its name asks for is asked for, if it asks for one, or else it is moved to
    /// those that are no offers. One that can't be moved is put off, which is told.
    pub(crate) fn leave_stray<F: Folders, E: Write>(
        &mut self,
        folders: &mut F,
        now: u64,
        log: &mut Log<'_, E>,
    )
        ensures { Looked (F.doings folders.old) (F.doings folders.new) self.old.book self.new.book }
    {
        let journal = &mut self.journal;
        if ask_for_stray(journal.alloc, &mut self.strays, &mut journal.care, now) {
            return;
        }
        let Some(stray) = self.strays.first() else {
            return;
        };
        let moved = set_aside(self.journal.alloc, folders, stray);
        self.tell_stray(&moved, now, log);
        match moved {
            Ok(()) => {
                note_stray(&mut self.journal.keeper);
                self.strays.moved();
            }
            Err(fault) => self.strays.could_not(fault, now),
        }
    }
}
