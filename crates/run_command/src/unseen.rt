//! What a look found, taken in a part at a time: where it is much, each part has a turn of its own, so that no turn takes long.

ghost use Rattle.std.specs.Prelude.{◌≡◌, ◌++◌, IfOk, drop, map};
ghost use Rattle.run_command.specs.Looking.{passed_over, Sorts};
ghost use Rattle.run_command.specs.Working.{Follows};

use crate::plant::Papers;
use driver::Log;
use folders::{FolderFault, PassedOver, Stamp};
use looks::{EndedLook, MOST_NAMES, Merging, Stray, Strays, TakenIn};
use offers::{Book, FoundOffer};
use plant_log::Told;
use std::alloc::{AllocError, Global};
use std::collections::BTreeMap;
use std::io::Write;

/// What is left to be taken in of what a look found.
#[derive(Drop)]
pub(crate) enum UnseenPart {
    /// All of it.
    All(EndedLook),
    /// All but some of what could not be read, of which it is told; the files whose names ask for something in order of their places.
    Unread(Sorted),
    /// The files.
    Files {
        requests: Vec<FoundOffer>,
        strays: BTreeMap<String, Stamp>,
    },
    /// The files whose names ask for nothing.
    Strays(BTreeMap<String, Stamp>),
    /// Some of those.
    Merging(Merging),
    /// Nothing; those of them that were known before are let go of.
    Gone(Vec<Stray>),
}

/// The files that a look found, and what could not be read, as far as it is not told.
#[derive(Drop)]
pub(crate) struct Sorted {
    /// The files whose names ask for something, in order of their places.
    pub(crate) requests: Vec<FoundOffer>,
    pub(crate) strays: BTreeMap<String, Stamp>,
    /// Why something was passed over, by its name.
    pub(crate) others: BTreeMap<String, FolderFault>,
    /// How many names are not UTF-8.
    pub(crate) skipped: usize,
}

/// What is left to be taken in of what a look found.
#[derive(Drop)]
pub(crate) struct Unseen {
    pub(crate) part: UnseenPart,
    /// The moment at which the look came to its end.
    pub(crate) looked: u64,
}

/// All that a look found, in order.
fn sort(seen: EndedLook) -> Result<Sorted, AllocError>
    ensures { IfOk result (Sorts seen) }
{
    let EndedLook {
        requests,
        strays,
        others,
        skipped,
    } = seen;
    let requests = requests.in_order()?;
    Ok(Sorted {
        requests,
        strays,
        others,
        skipped,
    })
}

/// The first of the names that were passed over, in order, as many as a turn of a look finds at most; they are others no longer.
fn first_of(
    alloc: Global,
    others: &mut BTreeMap<String, FolderFault>,
) -> Result<Vec<PassedOver>, AllocError>
    ensures all { IfOk result (λ first. first.items ++ map passed_over others.new.entries ≡ map passed_over others.old.entries) }
    ensures left { IfOk result (λ first. others.new.entries ≡ drop 512 others.old.entries) }
{
    let mut first = Vec::with_capacity(alloc, others.len().min(MOST_NAMES))?;
    for _ in 0..MOST_NAMES {
        if let Some((name, fault)) = others.pop_first() {
            first.push(PassedOver { name, fault })?;
        }
    }
    Ok(first)
}

impl Sorted {
    /// Tells some of what a look could not read, at its moment; what is left then. The files are.
    fn tell_unread<E: Write>(
        self,
        alloc: Global,
        told: &mut Told,
        looked: u64,
        log: &mut Log<'_, E>,
    ) -> Result<UnseenPart, AllocError> {
        let mut sorted = self;
        told.passed_over(first_of(alloc, &mut sorted.others)?, looked, log.err);
        if !sorted.others.is_empty() {
            return Ok(UnseenPart::Unread(sorted));
        }
        told.listed(sorted.skipped, looked, log.err);
        Ok(UnseenPart::Files {
            requests: sorted.requests,
            strays: sorted.strays,
        })
    }
}

/// Takes in which files a look found whose names ask for something, in order, at its moment. Where there is no memory for it, what is known
/// stays as it was.
fn see_requests(book: &mut Book, requests: &[FoundOffer], looked: u64) -> Result<(), AllocError>
    ensures { Follows book.old book.new }
{
    book.see(requests, looked)?;
    Ok(())
}

/// Goes on to take in the files whose names ask for nothing; what is left then.
fn merge(strays: &mut Strays, merging: Merging) -> UnseenPart {
    match strays.go_on(merging) {
        TakenIn::Partly(merging) => UnseenPart::Merging(merging),
        TakenIn::Wholly(gone) => UnseenPart::Gone(gone),
    }
}

impl Papers {
    /// Takes in a part of what a look found, at its moment; what is left then. Where there is no memory for it, what is known stays as it was.
    fn see_part<E: Write>(
        &mut self,
        part: UnseenPart,
        looked: u64,
        log: &mut Log<'_, E>,
    ) -> Result<Option<UnseenPart>, AllocError>
        ensures { Follows self.old.book self.new.book }
    {
        match part {
            UnseenPart::All(seen) => Ok(Some(UnseenPart::Unread(sort(seen)?))),
            UnseenPart::Unread(sorted) => {
                let journal = &mut self.journal;
                let left = sorted.tell_unread(journal.alloc, &mut journal.told, looked, log)?;
                Ok(Some(left))
            }
            UnseenPart::Files { requests, strays } => {
                see_requests(&mut self.book, requests.as_slice(), looked)?;
                Ok(Some(UnseenPart::Strays(strays)))
            }
            UnseenPart::Strays(strays) => {
                let merging = self.strays.begin(strays, looked)?;
                Ok(Some(merge(&mut self.strays, merging)))
            }
            UnseenPart::Merging(merging) => Ok(Some(merge(&mut self.strays, merging))),
            UnseenPart::Gone(_) => Ok(None),
        }
    }

    /// Takes in the next part of what the last look found, if one is left, at a moment.
    pub(crate) fn see_next<E: Write>(&mut self, now: u64, log: &mut Log<'_, E>)
        ensures { Follows self.old.book self.new.book }
    {
        let Some(Unseen { part, looked }) = self.unseen.take() else {
            return;
        };
        match self.see_part(part, looked, log) {
            Ok(Some(part)) => self.unseen = Some(Unseen { part, looked }),
            Ok(None) => {}
            Err(_) => {
                let told = &mut self.journal.told;
                told.cannot_list(FolderFault::OutOfMemory, now, log.err);
            }
        }
    }
}
