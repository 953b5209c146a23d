//! What is noted of what went out, behind the files that were written.

ghost use Rattle.std.specs.Prelude.{◌≡◌};
ghost use Rattle.plant_care.specs.Caring.{AreNotedBefore, AreNotedGone, SettlesNames, TellsNotes};

use crate::care::Care;
use ballots::Number;
use driver::Log;
use folders::Folders;
use std::io::Write;

impl Care {
    /// Notes at a moment that these numbers went out, whose files were written. None of them waits then. Where they can't be noted, they all
    /// wait on, and that is told once, and again each hour.
    pub fn note_gone<F: Folders, E: Write>(
        &mut self,
        folders: &mut F,
        numbers: &mut Vec<Number>,
        now: u64,
        log: &mut Log<'_, E>,
    )
        ensures noted { AreNotedGone F.doings F.refuses folders.old folders.new numbers.old.items numbers.new.items }
        ensures rest { TellsNotes self.old self.new }
    {
        if numbers.is_empty() {
            return;
        }
        match folders.note_gone(self.alloc, numbers.as_slice()) {
            Ok(()) => {
                numbers.clear();
                self.notes.noted();
            }
            Err(fault) => self.notes.cannot_note(self.alloc, fault, now, log.err),
        }
    }

    /// Notes at a moment the numbers that went out before that was kept. That they can't be noted is told in the same way.
    pub(crate) fn note_before<F: Folders, E: Write>(
        &mut self,
        folders: &mut F,
        now: u64,
        log: &mut Log<'_, E>,
    )
        ensures does { AreNotedBefore (F.doings folders.old) (F.doings folders.new) self.old.before.items }
        ensures rest { self.new ≡ record self.old { before = self.new.before; notes = self.new.notes } }
    {
        if self.before.is_empty() {
            return;
        }
        match folders.note_before(self.alloc, self.before.as_slice()) {
            Ok(()) => {
                self.before.clear();
                self.notes.noted();
            }
            Err(fault) => self.notes.cannot_note(self.alloc, fault, now, log.err),
        }
    }

    /// Sees to it that the disk has the names of all files that were written, and what went out, at a moment. That it can't is told.
    pub fn settle<F: Folders, E: Write>(&mut self, folders: &mut F, now: u64, log: &mut Log<'_, E>)
        ensures { SettlesNames F.doings folders.old folders.new self.old self.new }
    {
        if let Err(fault) = folders.settle(self.alloc) {
            self.notes.cannot_note(self.alloc, fault, now, log.err);
        }
    }
}
