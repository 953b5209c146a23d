//! What a station asks of its folders.

ghost use Rattle.std.specs.Prelude.{◌≡◌, ◌≤◌, ◌<◌, List, [], ◌∷◌, Option, None, OnOk, OnErr, IfOk, IfErr, IfSome, IfNone, length, map, take};
ghost use Rattle.folders.specs.Doings.{Doing, saw_file, read_whole, wrote_file, noted_gone, noted_before, moved_file, removed_file, Does, MayDo};
ghost use Rattle.folders.specs.GoneOut.{StartsWith};

use crate::fault::FolderFault;
use crate::leaving::Leaving;
use crate::named_file::NamedFile;
use crate::stamp::Stamp;
use ballots::Number;
use gone_out::{Numbers, Origin};
use std::alloc::Global;

/// A plain file among the offers.
#[derive(Drop)]
pub struct Found {
    pub name: String,
    pub stamp: Stamp,
}

/// Something among the offers that is passed over, and why.
#[derive(Drop)]
pub struct PassedOver {
    pub name: String,
    pub fault: FolderFault,
}

/// What befell a folder.
#[derive(Clone, Copy, PartialEq, Eq)]
pub enum News {
    /// Another folder stands in place of the offers.
    OtherOffers,
    /// Another folder stands in place of the releases.
    OtherReleases,
    /// A release was written once more, since another file had come to stand under its name.
    WrittenAnew,
}

/// What lies among the offers, as far as a look has come since it was asked last.
#[derive(Drop)]
pub struct Listing {
    /// The plain files, in no order.
    pub files: Vec<Found>,
    /// What is neither a plain file nor a folder, or can't be looked at, in no order.
    pub others: Vec<PassedOver>,
    /// How many there are besides whose names are not UTF-8.
    pub skipped: usize,
    /// What befell the folders since they were asked last.
    pub news: Vec<News>,
    /// Whether the look has come to its end.
    pub is_end: bool,
    /// How long the look has taken so far, in milliseconds.
    pub took: u64,
}

impl Listing {
    /// A look has come to its end at once, and nothing lies there.
    pub fn new(alloc: Global) -> Listing {
        Listing {
            files: Vec::new(alloc),
            others: Vec::new(alloc),
            skipped: 0,
            news: Vec::new(alloc),
            is_end: true,
            took: 0,
        }
    }
}

/// Files that were not all written.
#[derive(Clone, Copy)]
pub struct Unwritten {
    /// How many of them were, the first in their order.
    pub written: usize,
    /// Why the next was not.
    pub fault: FolderFault,
}

/// What went out at a plant.
#[derive(Drop)]
pub struct WentOut {
    /// The numbers that went out.
    pub numbers: Numbers,
    /// At the first start that keeps it: the numbers that have a row and no file among the releases or among what was sent; none later.
    pub missing: Option<Numbers>,
    /// Whether a file of another station lay there, and was set aside.
    pub set_aside: bool,
}

/// The folders of a plant. A call that fails leaves a file as it was, or not there.
pub trait Folders {
    // What was done with them, in order, where that is known: which files of the offers were found and read, which left them, what was written
    // among the releases, and which numbers were noted as gone out.
    ghost doings: { Self → Option (List Doing) } = { λ _. None };

    // Something that was to be written among the releases, or noted, was refused meanwhile.
    ghost refuses: { Self → Self → Type 0 } = { λ _ _. Unit {0} };

    /// What lies among the offers: the next names of a look, so many at most, where it left off; where none goes on one is begun. A name may
    /// come twice or not at all where files are laid or taken away meanwhile. A fault ends the look.
    fn list(&mut self, alloc: Global, most: usize) -> Result<Listing, FolderFault>
        ensures { doings self.new ≡ doings self.old };

    /// Whether a file `stop` that is newer than the start lies among the offers; it is looked for by its name.
    fn has_stop(&self, alloc: Global) -> bool;

    /// What the file of this name and stamp among the offers holds; `None` where that is more than so many bytes, which are not read then.
    /// Where another file stands there, or it was changed before it was read to its end, `Changed`.
    fn read(
        &mut self,
        alloc: Global,
        name: &str,
        stamp: Stamp,
        most: usize,
    ) -> Result<Option<Vec<u8>>, FolderFault>
        ensures most { IfOk result (λ held. IfSome held (λ v. length v.items ≤ most)) }
        ensures whole { IfOk result (λ held. IfSome held (λ v. Does (doings self.old) (doings self.new) (read_whole name.now v.items))) }
        ensures longer { IfOk result (λ held. IfNone held (Does (doings self.old) (doings self.new) (saw_file name.now ∷ []))) }
        ensures err { OnErr result (MayDo (doings self.old) (doings self.new) (saw_file name.now)) };

    /// Writes these files among the releases, in order: each whole, in place of one of its name that is there, or not at all, and none
    /// behind one that is not written.
    fn put_all(&mut self, alloc: Global, files: &[NamedFile]) -> Result<(), Unwritten>
        ensures ok { OnOk result (Does (doings self.old) (doings self.new) (map wrote_file files.now)) }
        ensures err { IfErr result (λ u. Does (doings self.old) (doings self.new) (map wrote_file (take u.written files.now))) }
        ensures fewer { IfErr result (λ u. u.written < length files.now) }
        ensures refused { OnErr result (refuses self.old self.new) };

    /// Moves a file of the offers to a place, under the same name or with a number behind it, once the text that is to lie beside it is
    /// written; what lies there already is not written over. Where it is not the file of this stamp, it stays, and is `Changed`. Where it
    /// fails otherwise the file may have been moved all the same.
    fn set_aside(
        &mut self,
        alloc: Global,
        leaving: Leaving<'_>,
        beside: Option<&str>,
    ) -> Result<(), FolderFault>
        ensures ok { OnOk result (Does (doings self.old) (doings self.new) (moved_file leaving.entry.name.now leaving.entry.to ∷ [])) }
        ensures err { OnErr result (MayDo (doings self.old) (doings self.new) (moved_file leaving.entry.name.now leaving.entry.to)) };

    /// Takes a file of the offers away that lay there before the start; a newer one stays. Where it fails the file may be gone all the same.
    fn remove(&mut self, alloc: Global, name: &str) -> Result<(), FolderFault>
        ensures ok { OnOk result (Does (doings self.old) (doings self.new) (removed_file name.now ∷ [])) }
        ensures err { OnErr result (MayDo (doings self.old) (doings self.new) (removed_file name.now)) };

    /// What went out here, as the file `.released` among the releases has it for this station. Where there is none of this station, it is
    /// made whole: it is the first start that keeps it, and what has a row counts as gone out. `None` where nothing is kept of it, as by a
    /// station without folders.
    fn went_out(
        &mut self,
        alloc: Global,
        own: &Origin,
        known: &Numbers,
    ) -> Result<Option<WentOut>, FolderFault>
        ensures same { doings self.new ≡ doings self.old }
        ensures starts { IfOk result (λ kept. IfSome kept (λ w. StartsWith known.now w.numbers w.missing)) };

    /// These numbers went out: their files were written before. Their records are added once the disk has those files' names, at the next
    /// look or before at the latest.
    fn note_gone(&mut self, alloc: Global, numbers: &[Number]) -> Result<(), FolderFault>
        ensures ok { OnOk result (Does (doings self.old) (doings self.new) (noted_gone numbers.now ∷ [])) }
        ensures err { OnErr result (MayDo (doings self.old) (doings self.new) (noted_gone numbers.now)) }
        ensures refused { OnErr result (refuses self.old self.new) };

    /// These numbers went out before that was kept. Their records are added in the same way.
    fn note_before(&mut self, alloc: Global, numbers: &[Number]) -> Result<(), FolderFault>
        ensures ok { OnOk result (Does (doings self.old) (doings self.new) (noted_before numbers.now ∷ [])) }
        ensures err { OnErr result (MayDo (doings self.old) (doings self.new) (noted_before numbers.now)) };

    /// The disk has the names of all files that were written, and the records of all numbers that were noted.
    fn settle(&mut self, alloc: Global) -> Result<(), FolderFault>
        ensures { doings self.new ≡ doings self.old };
}
