//! Files that wait to be written among the releases. They are written once what the step saved that released them is stored.

ghost use Rattle.std.specs.Prelude.{◌≡◌, ◌≤◌, ◌↔◌, [], None, IsTrue, drop, length, OnOk, OnErr};
ghost use Rattle.folders.specs.Doings.{WritesSome};
ghost use Rattle.plant_care.specs.Caring.{AreNotedGone, TellsNotes};
ghost use Rattle.run_command.specs.Waiting.{IsFiled, WritesStored, none_waits, settled_by, with_release};

use crate::journal::Journal;
use crate::plant::Plant;
use crate::release_files::{file, galley_text, tape_file};
use ballots::Number;
use driver::Log;
use folders::{FolderFault, Folders, NamedFile, Unwritten};
use station::Release;
use std::alloc::{AllocError, Global};
use std::io::Write;
use std::marker::Model;
use tape_frames::Entry;

/// The files that wait to be written among the releases. None is written before what its step saved is stored. Clauses see the files, the
/// numbers that are to be noted, and whether that is so.
#[derive(Drop)]
pub(crate) struct Backlog {
    files: Vec<NamedFile>,
    /// The numbers that were released and are not noted as gone out yet.
    unnoted: Vec<Number>,
    /// Whether all is stored that the steps saved that released them.
    is_stored: bool,
}

impl Model for Backlog {
    ghost use Rattle.run_command.specs.Waiting.{Waiting};

    ghost Value = { Waiting };

    ghost view = { λ b. record { files = b.files.items; numbers = b.unnoted.items; stored = b.is_stored } };
}

/// Takes so many files away, the first of those that wait.
fn drop_first(waits: &mut Vec<NamedFile>, count: usize)
    requires { count ≤ length waits.old.items }
    ensures { waits.new.items ≡ drop count waits.old.items }
{
    for place in 0..count {
        let _ = waits.remove(0);
    }
}

/// Writes the files that wait among the releases, in order, up to the first that the folder refuses: with its fault, that one and those
/// behind it go on waiting.
fn write_waiting<F: Folders>(
    alloc: Global,
    folders: &mut F,
    waits: &mut Vec<NamedFile>,
) -> Result<(), FolderFault>
    ensures writes { WritesSome (F.doings folders.old) (F.doings folders.new) waits.old.items waits.new.items }
    ensures all { OnOk result (waits.new.items ≡ []) }
    ensures left { OnErr result (¬ (waits.new.items ≡ [])) }
    ensures refused { OnErr result (F.refuses folders.old folders.new) }
{
    match folders.put_all(alloc, waits.as_slice()) {
        Ok(()) => {
            waits.clear();
            Ok(())
        }
        Err(Unwritten { written, fault }) => {
            drop_first(waits, written);
            Err(fault)
        }
    }
}

impl Backlog {
    /// No file waits.
    pub(crate) fn new(alloc: Global) -> Backlog
        ensures { result ≡ none_waits }
    {
        Backlog {
            files: Vec::new(alloc),
            unnoted: Vec::new(alloc),
            is_stored: true,
        }
    }

    /// How many files wait.
    pub(crate) fn len(&self) -> usize
        ensures { result ≡ length self.now.files }
    {
        self.files.len()
    }

    /// The numbers that were released and are not noted as gone out yet.
    pub(crate) fn unnoted(&self) -> &[Number]
        ensures { result.now ≡ self.now.numbers }
    {
        &self.unnoted
    }

    /// Whether no file waits, and all that was saved is stored.
    pub(crate) fn is_filed(&self) -> bool
        ensures { IsTrue result ↔ IsFiled self.now }
    {
        self.is_stored && self.files.is_empty()
    }

    /// Lets the files of a release, if there is one, wait behind the others, and its number: of a tape `12.tape` with its frames and
    /// `12.galley` with its slugs, or with why it does not set; of a withdrawal `12.void`, which is empty. What its step saved is not stored
    /// yet. Where there is no memory for them, `AllocError`.
    pub(crate) fn keep(
        &mut self,
        alloc: Global,
        release: &Option<Release>,
    ) -> Result<(), AllocError>
        ensures { OnOk result (self.new ≡ with_release release.now self.old) }
    {
        let Some(release) = release else {
            return Ok(());
        };
        self.is_stored = false;
        self.unnoted.push(release.number)?;
        let number = release.number.get();
        match &release.entry {
            Entry::Void => self
                .files
                .push(file(alloc, number, ".void", Vec::new(alloc))?)?,
            Entry::Tape(tape) => {
                let text = galley_text(alloc, &release.set)?;
                self.files.push(tape_file(alloc, number, tape)?)?;
                self.files.push(file(alloc, number, ".galley", text)?)?;
            }
        }
        Ok(())
    }
}

impl Journal {
    /// All files that waited are written: that these numbers went out is noted, at a moment.
    fn note_written<F: Folders, E: Write>(
        &mut self,
        folders: &mut F,
        unnoted: &mut Vec<Number>,
        now: u64,
        log: &mut Log<'_, E>,
    )
        ensures told { self.new.told ≡ record self.old.told { unwritten = None } }
        ensures care { TellsNotes self.old.care.value self.new.care.value }
        ensures noted { AreNotedGone F.doings F.refuses folders.old folders.new unnoted.old.items unnoted.new.items }
    {
        self.told.written();
        self.care.note_gone(folders, unnoted, now, log);
    }
}

impl Plant {
    /// Writes the files that wait, at a moment, and notes which numbers went out. `settled` says that the station stored all that it had saved.
    /// Nothing is written while something of that is not stored. A fault is told once, and again each hour.
    pub(crate) fn write<F: Folders, E: Write>(
        &mut self,
        folders: &mut F,
        settled: bool,
        now: u64,
        log: &mut Log<'_, E>,
    )
        ensures writes { WritesStored F.doings F.refuses folders.old folders.new (settled_by settled self.old.waits) self.new.waits }
        ensures rest { self.new ≡ record self.old { waits = self.new.waits; papers = record self.old.papers { journal = self.new.papers.journal } } }
    {
        self.waits.is_stored = settled || self.waits.is_stored;
        if !self.waits.is_stored {
            return;
        }
        let journal = &mut self.papers.journal;
        match write_waiting(journal.alloc, folders, &mut self.waits.files) {
            Ok(()) => journal.note_written(folders, &mut self.waits.unnoted, now, log),
            Err(fault) => journal.told.cannot_write(fault, now, log.err),
        }
    }
}
