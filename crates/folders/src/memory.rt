//! Folders in memory, for tests.

ghost use Rattle.std.specs.Prelude.{◌≡◌, ◌++◌, ◌∷◌, [], Bool, List, OnOk, OnErr, IfOk};
ghost use Rattle.folders.specs.Acting.{IsDone, acts_of, act_of};
ghost use Rattle.folders.specs.Changes.{after};
ghost use Rattle.folders.specs.Doings.{noted_before, noted_gone, wrote_file};
ghost use Rattle.folders.specs.Starts.{IsFound};

use crate::acts::{Act, Noted};
use crate::change::Change;
use crate::fault::FolderFault;
use crate::first_start::{first_went_out, went_before};
use crate::folders::{Folders, Found, Listing, Unwritten, WentOut};
use crate::leaving::{Leaving, Place, text_name};
use crate::ledger::Ledger;
use crate::named_file::NamedFile;
use crate::names::STOP;
use crate::reading::{Opened, read_between, test_same};
use crate::release_names::{release_number, sent_number};
use crate::released::{Kept, copy_of, kept_of};
use crate::stamp::{FileId, Stamp};
use ballots::Number;
use gone_out::{Numbers, Origin};
use std::alloc::{AllocError, Global};

/// A file among the offers.
#[derive(Drop)]
struct MemoryOffer {
    name: String,
    bytes: Vec<u8>,
    changed: i64,
}

impl MemoryOffer {
    fn stamp(&self) -> Stamp {
        Stamp {
            file: FileId {
                device: 0,
                inode: 0,
            },
            length: self.bytes.len() as u64,
            changed: (self.changed, 0),
            touched: (self.changed, 0),
        }
    }
}

/// An offer of this name and these bytes, which were changed at this moment.
fn offer_of(
    alloc: Global,
    name: &str,
    bytes: &[u8],
    changed: i64,
) -> Result<MemoryOffer, AllocError> {
    Ok(MemoryOffer {
        name: String::from_str(alloc, name)?,
        bytes: Vec::from_slice(alloc, bytes)?,
        changed,
    })
}

/// Takes the offer of this name away, if there is one.
fn drop_offer(offers: &mut Vec<MemoryOffer>, name: &str) {
    offers.retain(|offer| offer.name.as_str() != name);
}

/// An offer that is open to be read, which may be written anew at the moment at which it is.
#[derive(Drop)]
struct OpenOffer {
    bytes: Vec<u8>,
    /// Its stamp until it is read, and from then on.
    before: Stamp,
    after: Stamp,
    is_read: bool,
}

impl Opened for OpenOffer {
    fn stamp(&mut self) -> Result<Stamp, FolderFault> {
        if self.is_read {
            Ok(self.after)
        } else {
            Ok(self.before)
        }
    }

    fn bytes(&mut self, alloc: Global, _most: u64) -> Result<Vec<u8>, FolderFault> {
        self.is_read = true;
        Ok(Vec::from_slice(alloc, &self.bytes)?)
    }
}

/// A station that keeps what went out.
#[derive(Drop)]
struct MemoryKeeper {
    own: Origin,
    ledger: Ledger,
}

/// The file `.released` in memory.
#[derive(Drop)]
struct MemoryReleased {
    /// Its bytes; none where there is no file.
    bytes: Vec<u8>,
    /// Who keeps it.
    keeper: Option<MemoryKeeper>,
}

/// Folders in memory. They can be told to refuse what is written among the releases, and to write an offer anew while it is read.
#[derive(Drop)]
pub struct MemoryFolders {
    offers: Vec<MemoryOffer>,
    /// How many of them a look has come to that goes on.
    looked_at: usize,
    /// What is laid among the offers while a file is read next.
    coming: Option<MemoryOffer>,
    /// What was done, in order.
    acts: Vec<Act>,
    is_full: bool,
    released: MemoryReleased,
}

impl MemoryReleased {
    /// Keeps what went out from now on, over what the file holds of this station. One whose head is damaged is written anew.
    fn go_on(&mut self, alloc: Global, own: &Origin, kept: Kept) {
        if !kept.has_head {
            self.bytes.clear();
        }
        self.keeper = Some(MemoryKeeper {
            own: *own,
            ledger: Ledger::new(alloc, kept.numbers),
        });
    }

    /// Begins to keep what went out: so far what has a row. Whether something lay there, which goes aside.
    fn begin(&mut self, alloc: Global, own: &Origin, known: &Numbers) -> Result<bool, AllocError> {
        let ledger = Ledger::new(alloc, copy_of(alloc, known)?);
        let set_aside = !self.bytes.is_empty();
        self.bytes.clear();
        self.keeper = Some(MemoryKeeper { own: *own, ledger });
        Ok(set_aside)
    }

    /// Reads what went out, or begins to keep it where the file is not this station's, by the numbers of which a file was found.
    fn start_keeping(
        &mut self,
        alloc: Global,
        own: &Origin,
        known: &Numbers,
        found: &Numbers,
    ) -> Result<WentOut, FolderFault>
        ensures { IfOk result (IsFound own.now known.now self.old.bytes.items) }
    {
        match kept_of(alloc, &self.bytes, own)? {
            Some(kept) => {
                let went = went_before(alloc, &kept.numbers)?;
                self.go_on(alloc, own, kept);
                Ok(went)
            }
            None => {
                let mut went = first_went_out(alloc, known, found)?;
                went.set_aside = self.begin(alloc, own, known)?;
                Ok(went)
            }
        }
    }

    /// Adds the records of the numbers that wait for them, unless what is written is refused.
    fn write_records(&mut self, alloc: Global, is_full: bool) -> Result<(), FolderFault> {
        let Some(keeper) = &mut self.keeper else {
            return Ok(());
        };
        if is_full {
            return Err(FolderFault::Full);
        }
        let len = self.bytes.len() as u64;
        let change = keeper.ledger.change(alloc, &keeper.own, len)?;
        changed(&mut self.bytes, change)?;
        keeper.ledger.made();
        Ok(())
    }

    /// Enters numbers among those that went out, and adds their records, unless what is written is refused: then it is tried again as they are
    /// settled.
    fn enter(
        &mut self,
        alloc: Global,
        numbers: &[Number],
        is_full: bool,
    ) -> Result<(), FolderFault> {
        if let Some(keeper) = &mut self.keeper {
            keeper.ledger.note(numbers)?;
        }
        let _ = self.write_records(alloc, is_full);
        Ok(())
    }
}

impl MemoryFolders {
    /// Folders in which nothing lies.
    pub fn new(alloc: Global) -> MemoryFolders {
        MemoryFolders {
            offers: Vec::new(alloc),
            looked_at: 0,
            coming: None,
            acts: Vec::new(alloc),
            is_full: false,
            released: MemoryReleased {
                bytes: Vec::new(alloc),
                keeper: None,
            },
        }
    }

    /// The bytes of the file `.released` among the releases; none where there is no file.
    pub fn released(&self) -> &[u8]
        ensures { result.now ≡ self.now.released.bytes.items }
    {
        &self.released.bytes
    }

    /// Lays the file `.released` among the releases, as a start before left it, in place of what is there. It is read at the next start.
    pub fn lay_released(&mut self, alloc: Global, bytes: &[u8]) -> Result<(), AllocError>
        ensures acts { self.new.acts ≡ self.old.acts }
        ensures bytes { OnOk result (self.new.released.bytes.items ≡ bytes.now) }
    {
        let bytes = Vec::from_slice(alloc, bytes)?;
        self.released = MemoryReleased {
            bytes,
            keeper: None,
        };
        Ok(())
    }

    /// The numbers of which a file was written among the releases, or was sent.
    fn files(&self, alloc: Global) -> Result<Numbers, AllocError> {
        let mut found = Numbers::new(alloc)?;
        for act in self.acts.iter() {
            let number = match act {
                Act::Wrote(file) => release_number(alloc, file.name.as_str())?,
                Act::SetAside(name, Place::Sent) => sent_number(alloc, name)?,
                _ => None,
            };
            if let Some(number) = number {
                found.insert(number);
            }
        }
        Ok(found)
    }

    /// Whether what is written among the releases is refused from now on.
    pub fn set_full(&mut self, is_full: bool) {
        self.is_full = is_full;
    }

    /// What was done since the start, in order.
    pub fn acts(&self) -> &[Act]
        ensures { result.now ≡ self.now.acts.items }
    {
        &self.acts
    }

    /// Lays a file among the offers, or writes it anew.
    pub fn lay(
        &mut self,
        alloc: Global,
        name: &str,
        bytes: &[u8],
        changed: i64,
    ) -> Result<(), AllocError> {
        let offer = offer_of(alloc, name, bytes, changed)?;
        drop_offer(&mut self.offers, name);
        self.offers.push(offer)?;
        Ok(())
    }

    /// Does the same while a file is read next: once its stamp was looked at, and before its bytes are.
    pub fn lay_within_read(
        &mut self,
        alloc: Global,
        name: &str,
        bytes: &[u8],
        changed: i64,
    ) -> Result<(), AllocError> {
        self.coming = Some(offer_of(alloc, name, bytes, changed)?);
        Ok(())
    }

    fn find(&self, name: &str) -> Option<&MemoryOffer> {
        self.offers.iter().find(|offer| offer.name.as_str() == name)
    }

    /// The stamp of the file of this name among the offers.
    fn stamp_of(&self, name: &str) -> Result<Stamp, FolderFault> {
        match self.find(name) {
            Some(offer) => Ok(offer.stamp()),
            None => Err(FolderFault::Missing),
        }
    }

    /// Opens the file of this name among the offers, once what is laid while it is read was.
    fn open(&mut self, alloc: Global, name: &str) -> Result<OpenOffer, FolderFault>
        ensures { self.new.acts ≡ self.old.acts }
    {
        let before = self.stamp_of(name)?;
        if let Some(coming) = self.coming.take() {
            drop_offer(&mut self.offers, coming.name.as_str());
            if self.offers.push(coming).is_err() {
                return Err(FolderFault::OutOfMemory);
            }
        }
        let offer = self.find(name).ok_or(FolderFault::Missing)?;
        Ok(OpenOffer {
            bytes: Vec::from_slice(alloc, &offer.bytes)?,
            before,
            after: offer.stamp(),
            is_read: false,
        })
    }

    /// Lets a file leave the offers. Where there is no memory to tell it, it stays.
    fn leave(&mut self, name: &str, act: Act) -> Result<(), FolderFault>
        ensures { IsDone self.old.acts.items self.new.acts.items (act_of act) result }
    {
        if self.find(name).is_none() {
            return Err(FolderFault::Missing);
        }
        keep(&mut self.acts, act)?;
        drop_offer(&mut self.offers, name);
        Ok(())
    }

    /// Writes one file among the releases.
    fn put(&mut self, alloc: Global, named: &NamedFile) -> Result<(), FolderFault>
        ensures { IsDone self.old.acts.items self.new.acts.items (wrote_file named.now ∷ []) result }
    {
        if self.is_full {
            return Err(FolderFault::Full);
        }
        let named = NamedFile::of(alloc, &named.name, named.bytes.as_ref())?;
        keep(&mut self.acts, Act::Wrote(named))
    }

    /// Tells that these numbers went out.
    fn tell_gone(&mut self, alloc: Global, numbers: &[Number]) -> Result<(), FolderFault>
        ensures { IsDone self.old.acts.items self.new.acts.items (noted_gone numbers.now ∷ []) result }
    {
        let gone = Vec::from_slice(alloc, numbers)?;
        keep(&mut self.acts, Act::NotedGone(gone))
    }

    /// Tells that these numbers went out before that was kept.
    fn tell_before(&mut self, alloc: Global, numbers: &[Number]) -> Result<(), FolderFault>
        ensures { IsDone self.old.acts.items self.new.acts.items (noted_before numbers.now ∷ []) result }
    {
        let before = Vec::from_slice(alloc, numbers)?;
        keep(&mut self.acts, Act::NotedBefore(before))
    }

    /// Writes the text beside where a file goes.
    fn note(&mut self, alloc: Global, leaving: Leaving<'_>, text: &str) -> Result<(), FolderFault>
        ensures { acts_of self.new.acts.items ≡ acts_of self.old.acts.items }
    {
        let noted = Noted {
            to: leaving.to,
            name: text_name(alloc, leaving.name)?,
            text: String::from_str(alloc, text)?,
        };
        keep(&mut self.acts, Act::Noted(noted))
    }
}

/// Keeps what was done behind what was done before.
fn keep(acts: &mut Vec<Act>, act: Act) -> Result<(), FolderFault>
    ensures ok { OnOk result (acts_of acts.new.items ≡ acts_of acts.old.items ++ act_of act) }
    ensures err { OnErr result (acts.new.items ≡ acts.old.items) }
{
    if let Err(_) = acts.push(act) {
        return Err(FolderFault::OutOfMemory);
    }
    Ok(())
}

/// The bytes of a file after a change.
fn changed(bytes: &mut Vec<u8>, change: Change) -> Result<(), AllocError>
    ensures { OnOk result (bytes.new.items ≡ after change bytes.old.items) }
{
    match change {
        Change::Stays => Ok(()),
        Change::Adds(records) => {
            bytes.truncate(records.place as usize);
            bytes.extend_from_slice(&records.bytes)
        }
        Change::Anew(whole) => {
            *bytes = whole;
            Ok(())
        }
    }
}

impl Folders for MemoryFolders {
    ghost use Rattle.std.specs.Prelude.{◌≡◌, Some, IfOk, IfSome};
    ghost use Rattle.folders.specs.Acting.{acts_of};
    ghost use Rattle.folders.specs.Starts.{IsFound};

    ghost doings = { λ m. Some (acts_of m.acts.items) };

    fn list(&mut self, alloc: Global, most: usize) -> Result<Listing, FolderFault> {
        let mut listing = Listing::new(alloc);
        let first = self.looked_at;
        self.looked_at = 0;
        for offer in self.offers.iter().skip(first).take(most) {
            let name = offer.name.clone()?;
            let stamp = offer.stamp();
            if listing.files.push(Found { name, stamp }).is_err() {
                return Err(FolderFault::OutOfMemory);
            }
        }
        let next = first.saturating_add(most);
        listing.is_end = next >= self.offers.len();
        if !listing.is_end {
            self.looked_at = next;
        }
        Ok(listing)
    }

    fn has_stop(&self, _alloc: Global) -> bool {
        self.find(STOP).is_some()
    }

    fn read(
        &mut self,
        alloc: Global,
        name: &str,
        stamp: Stamp,
        most: usize,
    ) -> Result<Option<Vec<u8>>, FolderFault> {
        let seen = String::from_str(alloc, name)?;
        test_same(stamp, self.stamp_of(name)?)?;
        keep(&mut self.acts, Act::Saw(seen))?;
        if stamp.length > most as u64 {
            return Ok(None);
        }
        let mut file = self.open(alloc, name)?;
        let bytes = read_between(alloc, &mut file, stamp)?.into_bytes();
        let named = NamedFile::of(alloc, name, &bytes)?;
        keep(&mut self.acts, Act::Read(named))?;
        Ok(Some(bytes))
    }

    fn put_all(&mut self, alloc: Global, files: &[NamedFile]) -> Result<(), Unwritten> {
        for (written, named) in files.iter().enumerate() {
            if let Err(fault) = self.put(alloc, named) {
                return Err(Unwritten { written, fault });
            }
        }
        Ok(())
    }

    fn set_aside(
        &mut self,
        alloc: Global,
        leaving: Leaving<'_>,
        beside: Option<&str>,
    ) -> Result<(), FolderFault> {
        test_same(leaving.stamp, self.stamp_of(leaving.name)?)?;
        let name = String::from_str(alloc, leaving.name)?;
        if let Some(text) = beside {
            self.note(alloc, leaving, text)?;
        }
        self.leave(leaving.name, Act::SetAside(name, leaving.to))
    }

    fn remove(&mut self, alloc: Global, name: &str) -> Result<(), FolderFault> {
        let own = String::from_str(alloc, name)?;
        self.leave(name, Act::TakenAway(own))
    }

    fn went_out(
        &mut self,
        alloc: Global,
        own: &Origin,
        known: &Numbers,
    ) -> Result<Option<WentOut>, FolderFault>
        ensures same { self.new.acts ≡ self.old.acts }
        ensures found { IfOk result (λ kept. IfSome kept (IsFound own.now known.now self.old.released.bytes.items)) }
    {
        let found = self.files(alloc)?;
        let went = self.released.start_keeping(alloc, own, known, &found)?;
        self.released.write_records(alloc, self.is_full)?;
        Ok(Some(went))
    }

    fn note_gone(&mut self, alloc: Global, numbers: &[Number]) -> Result<(), FolderFault> {
        self.tell_gone(alloc, numbers)?;
        self.released.enter(alloc, numbers, self.is_full)?;
        Ok(())
    }

    fn note_before(&mut self, alloc: Global, numbers: &[Number]) -> Result<(), FolderFault> {
        self.tell_before(alloc, numbers)?;
        self.released.enter(alloc, numbers, self.is_full)?;
        Ok(())
    }

    fn settle(&mut self, alloc: Global) -> Result<(), FolderFault> {
        self.released.write_records(alloc, self.is_full)
    }
}
