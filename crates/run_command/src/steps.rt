//! What steps of the station did, taken in by its plant: what became of ballots, and of releases. A step is first noted, and nothing is done
//! with the folders; once what it saved is stored and its files are written, the files leave the offers that asked for what it released.

ghost use Rattle.std.specs.Prelude.{◌≡◌};
ghost use Rattle.offers.specs.Rules.{is_under_way};
ghost use Rattle.run_command.specs.Living.{SettlesWritten};
ghost use Rattle.run_command.specs.Noting.{closed_by, event_of, is_of_opening, is_opened};
ghost use Rattle.run_command.specs.Story.{IsReleasedIn};
ghost use Rattle.run_command.specs.Working.{Follows, Keeps, Releases, Settles};

use crate::plant::{Papers, Plant};
use crate::status::note_step;
use ballots::Number;
use driver::{Log, TakenStep};
use folders::Folders;
use node_core::Note;
use offers::Book;
use plant_log::{LogEvent, tell_folders};
use station::Release;
use std::alloc::{AllocError, Global};
use std::io::Write;

/// What there is to tell of a step with this note about a number.
fn event_of(number: Number, note: &Note) -> Option<LogEvent>
    ensures { result ≡ event_of number note.now }
{
    let number = number.get();
    match *note {
        Note::Began { ballot } => Some(LogEvent::Began { number, ballot }),
        Note::GaveUp { ballot } => Some(LogEvent::GaveUp { number, ballot }),
        Note::Nothing { ballot } => Some(LogEvent::Nothing { number, ballot }),
        _ => None,
    }
}

/// Whether a step with this note opened a ballot.
fn is_of_opening(note: &Note) -> bool
    ensures { result ≡ is_of_opening note.now }
{
    matches!(note, Note::Began { .. } | Note::Proposed { .. })
}

/// Whether a step opened a ballot for a file among the offers.
fn is_opened(book: &Book, step: &TakenStep) -> bool
    ensures { result ≡ is_opened step.now.answer.number step.now.answer.note book.now.window }
{
    match step.answer.number {
        Some(number) => is_of_opening(&step.answer.note) && book.is_under_way(number),
        None => false,
    }
}

/// Where a step about a number closed a ballot, its file is no longer under way. Whether it was before.
fn close_ballot(book: &mut Book, number: Number, step: &TakenStep) -> bool
    ensures told { result ≡ is_under_way number book.old.window }
    ensures closed { book.new ≡ closed_by step.now.answer.note number step.now.moment book.old }
    ensures follows { Follows book.old book.new }
{
    match step.answer.note {
        Note::GaveUp { .. } => book.ended(number, step.moment),
        Note::Nothing { .. } => book.found_nothing(number, step.moment),
        _ => book.is_under_way(number),
    }
}

/// Keeps a release in mind, at a moment. Where there is no memory for it, its files wait.
fn keep(alloc: Global, book: &mut Book, release: &Release, now: u64) -> Result<(), AllocError>
    ensures { Keeps (λ log. IsReleasedIn log release.now) book.old book.new }
{
    let number = release.number;
    match release.entry.lend().copy(alloc) {
        Ok(entry) => book.released(number, entry, now),
        Err(_) => {
            book.ended(number, now);
            Err(AllocError)
        }
    }
}

impl Papers {
    /// Keeps in mind what a step did and released. What became of a ballot for a file is told.
    pub(crate) fn note<E: Write>(&mut self, step: &TakenStep, log: &mut Log<'_, E>)
        ensures { Keeps (Releases step.now.answer.release) self.old.book self.new.book }
    {
        let opened = is_opened(&self.book, step);
        self.journal.care.did(step, opened);
        note_step(&mut self.journal.keeper, step);
        match (&step.answer.release, step.answer.number) {
            (Some(release), _) => {
                if keep(self.journal.alloc, &mut self.book, release, step.moment).is_err() {
                    tell_folders(self.journal.alloc, "no memory for releases", log.err);
                }
            }
            (None, Some(number)) => {
                if close_ballot(&mut self.book, number, step)
                    && let Some(event) = event_of(number, &step.answer.note)
                {
                    self.journal.told.tell(event, step.moment, log.err);
                }
            }
            (None, None) => {}
        }
    }

    /// Lets the files of a number whose release is written leave the offers, at a moment: its tape, its text, its withdrawal, its search.
    fn leave_all<F: Folders, E: Write>(
        &mut self,
        folders: &mut F,
        number: Number,
        now: u64,
        log: &mut Log<'_, E>,
    )
        ensures { Settles (F.doings folders.old) (F.doings folders.new) self.old.book self.new.book }
    {
        for _ in 0..4 {
            let Some(departure) = self.next_departure(number) else {
                return;
            };
            self.leave(folders, &departure, now, log);
        }
    }
}

impl Plant {
    /// Where a step released something, tells it, at a moment, and lets the files of its number leave the offers. None leaves while a file
    /// waits to be written among the releases.
    fn settle_step<F: Folders, E: Write>(
        &mut self,
        folders: &mut F,
        step: &TakenStep,
        now: u64,
        log: &mut Log<'_, E>,
    )
        ensures { SettlesWritten (F.doings folders.old) (F.doings folders.new) self.old self.new }
    {
        let Some(release) = &step.answer.release else {
            return;
        };
        self.papers.journal.tell_release(release, now, log);
        if self.waits.is_filed() {
            self.papers.leave_all(folders, release.number, now, log);
        }
    }

    /// The same of each of these steps, in order.
    pub(crate) fn settle_each<F: Folders, E: Write>(
        &mut self,
        folders: &mut F,
        steps: &[TakenStep],
        now: u64,
        log: &mut Log<'_, E>,
    )
        ensures { SettlesWritten (F.doings folders.old) (F.doings folders.new) self.old self.new }
    {
        for step in steps {
            self.settle_step(folders, step, now, log);
        }
    }
}
