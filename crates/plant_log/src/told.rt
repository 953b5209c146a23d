//! What a station that stays up tells, and what it told last, so that it is not told again at each look.

ghost use Rattle.std.specs.Prelude.{◌≡◌, [], None, codes, true, false};
ghost use Rattle.folders.specs.LogNames.{shown_name};
ghost use Rattle.offers.specs.Order.{rank};
ghost use Rattle.plant_log.specs.Words.{differs_text, file_text, folder_text, older_text, refused_text};
ghost use Rattle.plant_log.specs.Telling.{TellsIf, WasTold};
ghost use Rattle.plant_log.specs.Keeping.{Forgets, HasRoom};
ghost use Rattle.plant_log.specs.Standing.{IsToldAnew, Stands};
ghost use Rattle.plant_log.specs.Skipping.{TellsSkipped, skipped_after};
ghost use Rattle.plant_log.specs.Passing.{Remembers, TellsPassed};
ghost use Rattle.plant_log.specs.Differing.{differ_after, differ_told};
ghost use Rattle.plant_log.specs.Older.{IsToldOf, none_told, was_told};
ghost use Rattle.plant_log.specs.Stories.{IsHeard, IsTellingRefused, TellsHeard};
ghost use Rattle.plant_log.specs.Refusing.{TellsNoOffer};
ghost use Rattle.plant_log.specs.Troubles.{NoticesOf, TellsTrouble};

use crate::differences::Differences;
use crate::event::LogEvent;
use crate::files::{ToldFaults, Trouble};
use crate::line::{FileTrouble, LogLine};
use crate::older::Older;
use crate::passed::Passed;
use crate::skipped::Skipped;
use crate::standing::{Standing, is_told_anew, told_after};
use crate::stories::Stories;
use crate::writing::{
    tell_event, tell_fault, tell_file, tell_folders, tell_line, tell_no_memory, tell_no_offer,
    tell_refused,
};
use ballots::Member;
use folders::{FileRequest, FolderFault, PassedOver, name_of};
use log_terms::Loudness;
use offers::OfferFault;
use refusals::StepRefusal;
use std::alloc::Global;
use std::io::Write;

/// What is told, and what was told last. Moments are in milliseconds.
#[derive(Drop)]
pub struct Told {
    alloc: Global,
    loudness: Loudness,
    /// What is kept in mind of the numbers that are under way.
    stories: Stories,
    /// Why the folder of offers, or that of releases, does not serve.
    unread: Option<Standing>,
    unwritten: Option<Standing>,
    /// What was passed over among the offers at the last look.
    skipped: Skipped,
    passed: Passed,
    /// Why files were not read or moved.
    files: ToldFaults,
    /// That other stations have other configurations.
    differences: Differences,
    /// Of which members it was told that their rows are of layout 1.
    older: Older,
}

/// Whether something that befell a number is told at a moment, where so much is told.
fn are_told(loudness: Loudness, stories: &mut Stories, event: LogEvent, now: u64) -> bool
    ensures hears { IsHeard loudness event now result stories.old.kept stories.new.kept }
    ensures bound { HasRoom stories.old.kept stories.new.kept }
{
    match loudness {
        Loudness::Faults => false,
        Loudness::Usual => stories.are_told(event, now),
        Loudness::All => true,
    }
}

impl Told {
    /// Nothing was told yet; so much is told.
    pub fn new(alloc: Global, loudness: Loudness) -> Told
        ensures loudness { result.loudness ≡ loudness }
        ensures stories { result.stories.kept.entries ≡ [] }
        ensures files { result.files.kept.entries ≡ [] }
        ensures older { result.older ≡ none_told }
    {
        Told {
            alloc,
            loudness,
            stories: Stories::new(alloc),
            unread: None,
            unwritten: None,
            skipped: Skipped::new(),
            passed: Passed::new(alloc),
            files: ToldFaults::new(alloc),
            differences: Differences::new(),
            older: Older::new(),
        }
    }

    /// Tells what befell a number at a moment, as far as it is told.
    pub fn tell<E: Write>(&mut self, event: LogEvent, now: u64, err: &mut E)
        ensures tells { TellsHeard self.old.loudness event now self.old.stories.kept self.new.stories.kept (E.contents err.old) (E.contents err.new) }
        ensures bound { HasRoom self.old.stories.kept self.new.stories.kept }
        ensures rest { self.new ≡ record self.old { stories = self.new.stories } }
    {
        if are_told(self.loudness, &mut self.stories, event, now) {
            tell_event(self.alloc, &event, err);
        }
    }

    /// Tells why the file of this name is no offer, unless faults alone are told.
    pub fn refused<E: Write>(&self, name: &str, why: &str, err: &mut E)
        ensures { TellsIf (IsTellingRefused self.now.loudness) (refused_text (shown_name name.now) why.now) (E.contents err.old) (E.contents err.new) }
    {
        match self.loudness {
            Loudness::Faults => {}
            Loudness::Usual | Loudness::All => tell_refused(self.alloc, name, why, err),
        }
    }

    /// Tells why the file that asks for this is no offer, unless faults alone are told.
    pub fn no_offer<E: Write>(&self, request: FileRequest, reason: OfferFault, err: &mut E)
        ensures told { IsTellingRefused self.now.loudness → TellsNoOffer request reason (E.contents err.old) (E.contents err.new) }
        ensures quiet { ¬ IsTellingRefused self.now.loudness → E.contents err.new ≡ E.contents err.old }
    {
        match self.loudness {
            Loudness::Faults => {}
            Loudness::Usual | Loudness::All => tell_no_offer(self.alloc, request, reason, err),
        }
    }

    /// Tells that a datagram was refused, at a moment, where that shows that its sender has another configuration, each once in a while.
    pub fn hear_refusal<E: Write>(&mut self, refusal: StepRefusal, now: u64, err: &mut E)
        ensures tells { TellsIf (differ_told self.old.differences refusal now ≡ true) (differs_text refusal) (E.contents err.old) (E.contents err.new) }
        ensures rest { self.new ≡ record self.old { differences = differ_after self.old.differences refusal now } }
    {
        if self.differences.are_told_by(refusal, now) {
            tell_line(self.alloc, &LogLine::Differs(refusal), err);
        }
    }

    /// Tells that the rows of a member are of layout 1, while those of this station are of layout 2: once of each member.
    pub fn hear_older<E: Write>(&mut self, member: Member, err: &mut E)
        ensures tells { TellsIf (was_told self.old.older member ≡ false) (older_text member) (E.contents err.old) (E.contents err.new) }
        ensures after { IsToldOf member self.old.older self.new.older }
        ensures rest { self.new ≡ record self.old { older = self.new.older } }
    {
        if self.older.is_told(member) {
            tell_line(self.alloc, &LogLine::Older(member), err);
        }
    }

    /// Tells that the folder of offers can't be read, at a moment, where that is told anew.
    pub fn cannot_list<E: Write>(&mut self, fault: FolderFault, now: u64, err: &mut E)
        ensures tells { TellsIf (IsToldAnew self.old.unread fault now) (folder_text (codes "cannot read offers") fault) (E.contents err.old) (E.contents err.new) }
        ensures stands { Stands self.old.unread fault now self.new.unread }
        ensures rest { self.new ≡ record self.old { unread = self.new.unread } }
    {
        let last = self.unread;
        self.unread = Some(told_after(last, fault, now));
        if is_told_anew(last, fault, now) {
            tell_fault(self.alloc, "cannot read offers", fault, err);
        }
    }

    /// Tells that the folder of releases does not take what is to be written, at a moment, where that is told anew.
    pub fn cannot_write<E: Write>(&mut self, fault: FolderFault, now: u64, err: &mut E)
        ensures tells { TellsIf (IsToldAnew self.old.unwritten fault now) (folder_text (codes "cannot write releases") fault) (E.contents err.old) (E.contents err.new) }
        ensures stands { Stands self.old.unwritten fault now self.new.unwritten }
        ensures rest { self.new ≡ record self.old { unwritten = self.new.unwritten } }
    {
        let last = self.unwritten;
        self.unwritten = Some(told_after(last, fault, now));
        if is_told_anew(last, fault, now) {
            tell_fault(self.alloc, "cannot write releases", fault, err);
        }
    }

    /// All that was to be written among the releases is.
    pub fn written(&mut self)
        ensures { self.new ≡ record self.old { unwritten = None } }
    {
        self.unwritten = None;
    }

    /// Tells of these, which are some of what a look passed over, what is to be told at a moment.
    pub fn passed_over<E: Write>(&mut self, others: Vec<PassedOver>, now: u64, err: &mut E)
        ensures tells { TellsPassed self.old.passed.kept now others.items (E.contents err.old) (E.contents err.new) }
        ensures next { Remembers self.old.passed.kept now others.items self.old.passed.next self.new.passed.next }
        ensures rest { self.new ≡ record self.old { passed = record self.old.passed { next = self.new.passed.next } } }
    {
        self.passed.see(others, now, err);
    }

    /// The folder of offers can be read, and all was told that a look passed over; so many names were not UTF-8, which is told at a moment, where
    /// that is told anew.
    pub fn listed<E: Write>(&mut self, names: usize, now: u64, err: &mut E)
        ensures tells { TellsSkipped self.old.skipped names now (E.contents err.old) (E.contents err.new) }
        ensures skipped { self.new.skipped ≡ skipped_after self.old.skipped names now }
        ensures kept { self.new.passed.kept ≡ self.old.passed.next }
        ensures next { self.new.passed.next.entries ≡ [] }
        ensures rest { self.new ≡ record self.old { unread = None; skipped = self.new.skipped; passed = self.new.passed } }
    {
        self.passed.end();
        if self.skipped.is_told(names, now) {
            tell_folders(self.alloc, "cannot read a name that is not UTF-8", err);
        }
        self.unread = None;
    }

    /// Tells what can't be done with the file that asks for this.
    fn tell_trouble<E: Write>(&self, what: &str, trouble: &Trouble, err: &mut E)
        ensures { TellsTrouble what.now trouble.now (E.contents err.old) (E.contents err.new) }
    {
        match name_of(self.alloc, trouble.request) {
            Ok(name) => {
                let file = FileTrouble {
                    what,
                    name: name.as_str(),
                    fault: trouble.fault,
                };
                tell_file(self.alloc, &file, err);
            }
            Err(_) => tell_no_memory(err),
        }
    }

    /// Tells that a file can't be read, at a moment, where that is told anew.
    pub fn cannot_read<E: Write>(&mut self, trouble: &Trouble, now: u64, err: &mut E)
        ensures { NoticesOf (codes "cannot read") trouble.now now self.old self.new (E.contents err.old) (E.contents err.new) }
    {
        if self.files.is_told(trouble, now) {
            self.tell_trouble("cannot read", trouble, err);
        }
    }

    /// Tells that a file can't be moved, at a moment, where that is told anew.
    pub fn cannot_move<E: Write>(&mut self, trouble: &Trouble, now: u64, err: &mut E)
        ensures { NoticesOf (codes "cannot move") trouble.now now self.old self.new (E.contents err.old) (E.contents err.new) }
    {
        if self.files.is_told(trouble, now) {
            self.tell_trouble("cannot move", trouble, err);
        }
    }

    /// Tells that a file of this name can't be moved.
    pub fn stuck<E: Write>(&self, name: &str, fault: FolderFault, err: &mut E)
        ensures { WasTold (file_text (codes "cannot move") (shown_name name.now) fault) (E.contents err.old) (E.contents err.new) }
    {
        let file = FileTrouble {
            what: "cannot move",
            name,
            fault,
        };
        tell_file(self.alloc, &file, err);
    }

    /// A file was read, or moved.
    pub fn is_done(&mut self, request: &FileRequest)
        ensures forgets { Forgets (rank request.now) self.old.files.kept self.new.files.kept }
        ensures rest { self.new ≡ record self.old { files = self.new.files } }
    {
        self.files.done(*request);
    }
}
