//! What is known at a plant of what lies in its folders.

ghost use Rattle.std.specs.Prelude.{◌≡◌};
ghost use Rattle.offers.specs.Book.{IsFresh, still_for};
ghost use Rattle.looks.specs.Strays.{none_known};
ghost use Rattle.run_command.specs.Minding.{WasRead};
ghost use Rattle.run_command.specs.Working.{IfRead, Looks, LooksBy};

use crate::backlog::Backlog;
use crate::journal::Journal;
use crate::reading::read;
use crate::unseen::Unseen;
use code_table::CodeTable;
use driver::Log;
use folders::{FolderFault, Folders, Wish};
use log_terms::Loudness;
use looks::{Looking, Strays};
use offers::{Book, FoundOffer, OfferFault};
use plant_care::Care;
use plant_log::Told;
use plant_status::{Keeper, StationId};
use std::alloc::Global;
use std::io::Write;
use tape_frames::Version;

/// What is known of what lies among the offers, and what is told and noted at a plant.
#[derive(Drop)]
pub(crate) struct Papers {
    /// The files among the offers, and what was released.
    pub(crate) book: Book,
    /// The files among the offers whose names ask for nothing.
    pub(crate) strays: Strays,
    /// What is left to be taken in of what the last look found.
    pub(crate) unseen: Option<Unseen>,
    pub(crate) looking: Looking,
    pub(crate) journal: Journal,
}

/// What a plant has besides its folders.
#[derive(Drop)]
pub(crate) struct Plant {
    /// The files that wait to be written among the releases.
    pub(crate) waits: Backlog,
    /// By which code table texts among the offers become tapes; by none where no text may be offered.
    pub(crate) texts: Option<CodeTable>,
    pub(crate) papers: Papers,
}

/// How a plant is run.
#[derive(Drop)]
pub(crate) struct Manner {
    /// Whether files come into the offers only by being renamed.
    pub(crate) renamed: bool,
    /// How much is told.
    pub(crate) loudness: Loudness,
    /// Which station its status file tells of, where it has one.
    pub(crate) status: Option<StationId>,
    /// The layout of its rows.
    pub(crate) layout: Version,
}

/// What is kept in mind for the status file of a station, if it has one. Without memory for it no status is written.
fn keeper_of(alloc: Global, status: Option<StationId>) -> Option<Keeper> {
    Keeper::new(alloc, status?).ok()
}

impl Papers {
    /// Nothing is known yet of the offers.
    pub(crate) fn new(alloc: Global, manner: Manner, care: Box<Care>) -> Papers
        ensures book { IsFresh result.book }
        ensures still { result.book.still ≡ still_for manner.renamed }
        ensures strays { result.strays ≡ none_known (still_for manner.renamed) }
        ensures loudness { result.journal.told.loudness ≡ manner.loudness }
        ensures care { result.journal.care ≡ care }
    {
        let Manner {
            renamed,
            loudness,
            status,
            layout,
        } = manner;
        let journal = Journal {
            alloc,
            told: Told::new(alloc, loudness),
            care,
            keeper: keeper_of(alloc, status),
            layout,
        };
        Papers {
            book: Book::over(alloc, renamed),
            strays: Strays::over(alloc, renamed),
            unseen: None,
            looking: Looking::new(alloc),
            journal,
        }
    }

    /// Whether there is something to do besides what the book knows: with a file whose name asks for nothing, with a look that goes on or what
    /// one found that is left to be taken in, or an errand.
    pub(crate) fn has_more(&mut self) -> bool
        ensures { self.new ≡ record self.old { strays = self.new.strays } }
    {
        self.unseen.is_some()
            || self.strays.find()
            || self.looking.goes_on()
            || self.journal.care.has_errand()
    }
}

impl Plant {
    /// What a file, as it was found, asks for, or why it is no offer.
    pub(crate) fn read<F: Folders>(
        &self,
        folders: &mut F,
        found: &FoundOffer,
    ) -> Result<Result<Wish, OfferFault>, FolderFault>
        ensures { Looks (F.doings folders.old) (F.doings folders.new) (λ doings. IfRead result (λ wish. WasRead self.now.texts doings found.now.request wish)) }
    {
        read(self.papers.journal.alloc, folders, found, &self.texts)
    }

    /// Sees at a look to what is missing here, at a moment. The journal does it, by what waits.
    pub(crate) fn see_to_missing<F: Folders, E: Write>(
        &mut self,
        folders: &mut F,
        now: u64,
        log: &mut Log<'_, E>,
    )
        ensures looks { LooksBy F.doings self.old.waits folders.old folders.new }
        ensures rest { self.new ≡ record self.old { papers = record self.old.papers { journal = self.new.papers.journal } } }
    {
        self.papers.journal.look(folders, &self.waits, now, log);
    }
}
