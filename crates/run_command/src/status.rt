//! What a plant keeps in mind for its status file, and the writing of it. No story hangs on it.

ghost use Rattle.std.specs.Prelude.{◌≡◌};

use crate::departures::{Departure, LeavingCause};
use crate::journal::Journal;
use ballots::{Member, Number};
use driver::{HeardDatagram, Log, TakenStep};
use folders::{FileRequest, FolderFault, OfferKind, Place};
use gone_out::Range;
use node_core::Note;
use plant_care::{Care, NumberSurvey};
use plant_log::tell_fault;
use plant_status::{Keeper, NumberSpan, PlantCounts, Released, StatusFile, text_of};
use rolls::Aside;
use std::alloc::{AllocError, Global};
use std::io::Write;

/// The member that a datagram is of, where it can be read.
fn sender_of(heard: &HeardDatagram) -> Option<Member> {
    match heard {
        HeardDatagram::Taken(Some(said)) => Some(said.sender),
        HeardDatagram::Aside(Aside::Recall(Ok(recall))) => Some(recall.ticket().from()),
        HeardDatagram::Aside(Aside::Roll(Ok(roll))) => Some(roll.ticket().from()),
        _ => None,
    }
}

/// A datagram was taken in, at a moment; a packet shows whether its sender's rows are of layout 1, while those of this station are of layout 2.
pub(crate) fn note_heard(
    keeper: &mut Option<Keeper>,
    heard: &HeardDatagram,
    is_older: bool,
    now: u64,
) {
    let Some(keeper) = keeper else {
        return;
    };
    if let Some(member) = sender_of(heard) {
        keeper.hear(member, now);
    }
    if let HeardDatagram::Taken(Some(said)) = heard {
        keeper.speak(said.sender, is_older);
    }
}

/// A step about a number was taken that released nothing.
fn note_of(keeper: &mut Keeper, number: Number, note: &Note) {
    match *note {
        Note::Began { ballot } => keeper.begin(number, ballot),
        Note::GaveUp { .. } | Note::Nothing { .. } => keeper.end(number),
        _ => {}
    }
}

/// A step was taken.
pub(crate) fn note_step(keeper: &mut Option<Keeper>, step: &TakenStep) {
    let Some(keeper) = keeper else {
        return;
    };
    match (&step.answer.release, step.answer.number) {
        (Some(release), _) => keeper.end(release.number),
        (None, Some(number)) => note_of(keeper, number, &step.answer.note),
        (None, None) => {}
    }
}

/// The station is asked for a file.
pub(crate) fn note_asked(keeper: &mut Option<Keeper>, request: &FileRequest) {
    if let Some(keeper) = keeper
        && !matches!(request.kind, OfferKind::Seek)
    {
        keeper.offer(request.number);
    }
}

/// So many files whose names ask for something are among the offers.
pub(crate) fn note_found(keeper: &mut Option<Keeper>, files: usize) {
    if let Some(keeper) = keeper {
        keeper.find(files);
    }
}

/// A file left the offers.
pub(crate) fn note_left(keeper: &mut Option<Keeper>, departure: &Departure) {
    let Some(keeper) = keeper else {
        return;
    };
    match departure.way {
        LeavingCause::Released(Place::Lost) => keeper.lose(),
        LeavingCause::Released(_) | LeavingCause::Answered => {}
        LeavingCause::NoOffer(_) => keeper.refuse(),
    }
}

/// A file whose name asks for nothing left the offers.
pub(crate) fn note_stray(keeper: &mut Option<Keeper>) {
    if let Some(keeper) = keeper {
        keeper.refuse();
    }
}

/// A range of what is missing, as a status tells it.
fn span_of(range: &Range) -> NumberSpan {
    NumberSpan {
        first: range.first.get(),
        last: range.last.get(),
    }
}

/// The same of ranges.
fn spans_of(alloc: Global, ranges: &[Range]) -> Result<Vec<NumberSpan>, AllocError> {
    let mut spans = Vec::with_capacity(alloc, ranges.len())?;
    for range in ranges {
        spans.push(span_of(range))?;
    }
    Ok(spans)
}

/// Whether the number by which it is known that something is missing still is.
fn is_still_missing(keeper: &Keeper, care: &Care) -> bool {
    match keeper.witness().and_then(Number::new) {
        Some(number) => care.is_missing(number),
        None => false,
    }
}

/// What is counted for a status; and since when something is missing is kept in mind, at a moment.
fn counted(
    alloc: Global,
    keeper: &mut Keeper,
    papers: (&Care, usize),
    now: u64,
) -> Result<PlantCounts, AllocError> {
    let (care, unwritten) = papers;
    let NumberSurvey {
        released,
        greatest,
        missing,
        more,
    } = care.survey()?;
    let missing = spans_of(alloc, missing.as_slice())?;
    let is_still = is_still_missing(keeper, care);
    keeper.watch(is_still, missing.first().map(|span| span.first), now);
    Ok(PlantCounts {
        released: Released {
            count: released,
            greatest,
        },
        missing,
        more,
        unwritten: u32::try_from(unwritten).unwrap_or(u32::MAX),
    })
}

/// Puts the status at a moment into its file. Where the clock fails, it is not put there.
fn put<S: StatusFile>(
    alloc: Global,
    keeper: &mut Keeper,
    papers: (&Care, usize),
    at: (u64, &mut S),
) -> Result<(), FolderFault> {
    let (now, file) = at;
    let counts = counted(alloc, keeper, papers, now)?;
    let Some(seconds) = file.seconds() else {
        return Err(FolderFault::Failed);
    };
    match keeper.status(counts, now, seconds)? {
        Some(status) => {
            let text = text_of(alloc, &status)?;
            file.replace(alloc, text.as_str())
        }
        None => Err(FolderFault::Failed),
    }
}

/// Writes the status where it is time for that, at a moment; why it can't be written, where that is to be told.
fn write_due<S: StatusFile>(
    alloc: Global,
    keeper: &mut Keeper,
    papers: (&Care, usize),
    at: (u64, &mut S),
) -> Option<FolderFault> {
    let (now, file) = at;
    if !keeper.is_due(now) {
        return None;
    }
    let put = put(alloc, keeper, papers, (now, file));
    keeper.written(now);
    match put {
        Ok(()) => {
            keeper.succeed();
            None
        }
        Err(fault) => keeper.fail(now).then_some(fault),
    }
}

impl Journal {
    /// Writes the status where it is time for that, at a moment, with so many files that wait to be written. That it can't be written is told
    /// once, and again each hour.
    pub(crate) fn tell_status<S: StatusFile, E: Write>(
        &mut self,
        unwritten: usize,
        file: &mut S,
        now: u64,
        log: &mut Log<'_, E>,
    )
        ensures { self.new ≡ record self.old { keeper = self.new.keeper } }
    {
        let Some(keeper) = &mut self.keeper else {
            return;
        };
        let papers = (&*self.care, unwritten);
        if let Some(fault) = write_due(self.alloc, keeper, papers, (now, file)) {
            tell_fault(self.alloc, "cannot write status", fault, log.err);
        }
    }
}
