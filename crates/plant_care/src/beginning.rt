//! What a station knows at its start of what went out, and of what it may lack.

ghost use Rattle.std.specs.Prelude.{◌≡◌, false, IfOk};
ghost use Rattle.plant_care.specs.Starting.{Begins, BeginsAgain, IsOpeningOf, saved_by, WaitsOn};

use crate::care::Care;
use ballots::Number;
use catch_up::{CatchUp, Start};
use catch_up_log::{tell_missing, tell_set_aside, tell_unread};
use driver::{Log, TakenStep};
use folders::{FolderFault, Folders, WentOut};
use gone_out::{Known, Numbers, Origin};
use node_core::Note;
use std::alloc::{AllocError, Global};
use std::io::Write;

/// What a station starts from.
#[derive(Drop)]
pub struct CareStart {
    pub alloc: Global,
    /// Whose station it is.
    pub own: Origin,
    /// The numbers that have a saved row, where that is known.
    pub known: Option<Known>,
    /// Whether it asks others for what it lacks.
    pub catches_up: bool,
    /// Whether faults alone are told.
    pub is_quiet: bool,
}

/// What went out there, where it is kept; and whether this is the first start that keeps it, over rows that were there before.
#[derive(Drop)]
struct Gone {
    numbers: Option<Numbers>,
    is_first: bool,
}

/// A station that has started: how it catches up; and what it is to start from once it can be read what went out there, and why it can't.
#[derive(Drop)]
pub(crate) struct Opening {
    catch_up: CatchUp,
    waiting: Option<(CareStart, FolderFault)>,
}

/// What went out; an operator is told of what may be missing from before, and of a file of another station.
fn told_of<E: Write>(alloc: Global, known: &Known, went: WentOut, err: &mut E) -> Gone {
    if went.set_aside {
        tell_set_aside(alloc, err);
    }
    let is_first = match &went.missing {
        Some(missing) => {
            tell_missing(alloc, missing, err);
            !known.rows.is_empty()
        }
        None => false,
    };
    Gone {
        numbers: Some(went.numbers),
        is_first,
    }
}

/// A station that starts, at a moment, by its rows, and by what went out. Where that can't be read now, it answers no roll and asks for
/// nothing until it can be.
fn opened(
    start: CareStart,
    gone: Result<Gone, FolderFault>,
    now: u64,
) -> Result<Opening, AllocError>
    ensures { IfOk result (IsOpeningOf start) }
{
    let alloc = start.alloc;
    match gone {
        Ok(gone) => Ok(Opening {
            catch_up: CatchUp::new(alloc, start.first(gone), now)?,
            waiting: None,
        }),
        Err(fault) => Ok(Opening {
            catch_up: CatchUp::new(alloc, unread(start.own), now)?,
            waiting: Some((start, fault)),
        }),
    }
}

/// From what a station starts where it can't be read what went out: it asks for nothing.
fn unread(own: Origin) -> Start
    ensures { (result.own ≡ own) × (result.asks ≡ false) }
{
    Start {
        own,
        known: None,
        gone: None,
        is_first: false,
        asks: false,
    }
}

/// What is kept in mind of catching up at the start of a station. Where it can't be read what went out, that is told.
///
/// # Errors
///
/// Out of memory.
pub fn begin<F: Folders, E: Write>(
    start: CareStart,
    folders: &mut F,
    err: &mut E,
) -> Result<Box<Care>, AllocError>
    ensures { Begins F.doings start folders.old folders.new result }
{
    let (alloc, is_quiet) = (start.alloc, start.is_quiet);
    let gone = start.went_out(folders, err);
    let Opening { catch_up, waiting } = opened(start, gone, 0)?;
    if let Some((_, fault)) = &waiting {
        tell_unread(alloc, *fault, err);
    }
    Ok(Box::new(alloc, Care::new(alloc, catch_up, waiting, is_quiet))?)
}

/// Whether a step with this note saved a row, and whether the row has a vote.
fn saved_by(note: &Note) -> Option<bool>
    ensures { result ≡ saved_by note.now }
{
    match note {
        Note::Began { .. } | Note::Promised { .. } => Some(false),
        Note::Proposed { .. } | Note::Voted { .. } => Some(true),
        _ => None,
    }
}

impl CareStart {
    /// What went out there, where the rows are known, as the folders have it; what there is to tell of it is told.
    fn went_out<F: Folders, E: Write>(
        &self,
        folders: &mut F,
        err: &mut E,
    ) -> Result<Gone, FolderFault>
        ensures { F.doings folders.new ≡ F.doings folders.old }
    {
        let unkept = Gone {
            numbers: None,
            is_first: false,
        };
        let Some(known) = &self.known else {
            return Ok(unkept);
        };
        match folders.went_out(self.alloc, &self.own, &known.rows)? {
            Some(went) => Ok(told_of(self.alloc, known, went, err)),
            None => Ok(unkept),
        }
    }

    /// From what a station starts by its rows, and by what went out.
    fn first(self, gone: Gone) -> Start
        ensures { (result.own ≡ self.own) × (result.asks ≡ self.catches_up) }
    {
        Start {
            own: self.own,
            known: self.known,
            gone: gone.numbers,
            is_first: gone.is_first,
            asks: self.catches_up,
        }
    }

    /// A row of a number was saved, which has a vote or has none.
    fn save(&mut self, number: Number, has_vote: bool)
        ensures { self.new ≡ record self.old { known = self.new.known } }
    {
        if let Some(known) = &mut self.known {
            known.add(number, has_vote);
        }
    }
}

impl Care {
    /// Before it could be read what went out, a row that a step saved is kept in mind.
    pub(crate) fn keep_saved(&mut self, number: Number, step: &TakenStep)
        ensures { WaitsOn self.old self.new }
    {
        if let Some((start, _)) = &mut self.waiting
            && let Some(has_vote) = saved_by(&step.answer.note)
        {
            start.save(number, has_vote);
        }
    }

    /// These numbers were released since the start: they went out.
    fn leave_all(&mut self, released: &[Number])
        ensures rest { self.new ≡ record self.old { catch_up = self.new.catch_up } }
        ensures asks { self.new.catch_up.asks ≡ self.old.catch_up.asks }
    {
        for number in released {
            self.catch_up.went_out(*number);
        }
    }

    /// Where it could not be read what went out, that is tried again, at a moment. These numbers were released since the start, and are not
    /// noted yet.
    pub(crate) fn begin_again<F: Folders, E: Write>(
        &mut self,
        folders: &mut F,
        released: &[Number],
        now: u64,
        log: &mut Log<'_, E>,
    )
        ensures { BeginsAgain F.doings folders.old folders.new self.old self.new }
    {
        let Some((start, _)) = self.waiting.take() else {
            return;
        };
        let gone = start.went_out(folders, log.err);
        match opened(start, gone, now) {
            Ok(begun) => {
                self.waiting = begun.waiting;
                if self.waiting.is_none() {
                    self.catch_up = begun.catch_up;
                    self.leave_all(released);
                }
            }
            Err(_) => tell_unread(self.alloc, FolderFault::OutOfMemory, log.err),
        }
    }
}
