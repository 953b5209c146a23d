//! The folder of offers: what lies there, and what it holds.

ghost use Rattle.std.specs.Prelude.{◌≡◌, ◌≤◌, IfOk, IfSome, length};

use crate::guard::{Guard, Guarded};
use crate::looks::{found_again, plain_file, stamp_of, within};
use crate::maker::Maker;
use crate::moving::clear_offers;
use crate::part::Part;
use folders::{
    FolderFault, Found, Listing, Opened, PassedOver, STOP, Stamp, WholeRead, is_since, nanos_of,
    read_between, test_same,
};
use std::alloc::Global;
use std::fs::{DirEntry, File, ReadDir};
use std::io::{ErrorKind, Read};
use std::path::AsPath;
use std::time::Instant;
use std::{fs, io};

/// A look at what lies in a folder.
#[derive(Drop)]
struct Walk {
    /// What it has not come to yet.
    entries: ReadDir,
    /// How long it took so far, in microseconds.
    took: u64,
}

/// The folder of offers.
#[derive(Drop)]
pub(crate) struct Offers {
    guarded: Guarded,
    /// The look that goes on.
    walk: Option<Walk>,
    /// The start, in nanoseconds since 1970 by the clock of the folder, or of the host where the folder told none.
    start: u64,
}

/// The moment of the clock of a folder, in nanoseconds since 1970: that of a file that is made there.
fn clock_of(maker: &mut Maker<'_>, folder: &str) -> Result<u64, FolderFault> {
    let part = Part::make(maker, folder)?;
    let touched = part.touched();
    part.discard(maker.rt);
    Ok(nanos_of(touched?))
}

/// How many microseconds have passed since a moment; none where the clock failed.
fn micros_since(rt: &HostRuntime, moment: io::Result<Instant>) -> u64 {
    let Ok(moment) = moment else {
        return 0;
    };
    match moment.elapsed(rt) {
        Ok(passed) => u64::try_from(passed.as_micros()).unwrap_or(u64::MAX),
        Err(_) => 0,
    }
}

/// A file that is open.
#[derive(Drop)]
struct OpenFile {
    file: File,
}

impl Opened for OpenFile {
    fn stamp(&mut self) -> Result<Stamp, FolderFault> {
        Ok(stamp_of(&self.file.metadata()?))
    }

    fn bytes(&mut self, alloc: Global, most: u64) -> Result<Vec<u8>, FolderFault> {
        let mut bytes = Vec::new(alloc);
        let mut front = (&self.file).take(most);
        front.read_to_end(&mut bytes)?;
        Ok(bytes)
    }
}

/// What the plain file of this stamp at a path holds. It is seen to be the one that was found, and to stay as it is.
fn read_whole(rt: &HostRuntime, path: &str, stamp: Stamp) -> Result<WholeRead, FolderFault>
    ensures { IfOk result (λ r. length r.bytes.items ≡ stamp.length) }
{
    let file = File::open(rt, path)?;
    let mut open = OpenFile { file };
    read_between(rt.alloc(), &mut open, stamp)
}

impl Offers {
    pub(crate) fn new(path: String, start: u64) -> Offers {
        Offers {
            guarded: Guarded::new(path, true),
            walk: None,
            start,
        }
    }

    /// What the paths of its files begin with.
    pub(crate) fn root(&self) -> &str {
        self.guarded.root()
    }

    /// Takes the start from the clock of the folder.
    pub(crate) fn note_start(&mut self, maker: &mut Maker<'_>) {
        if let Ok(start) = clock_of(maker, self.guarded.root()) {
            self.start = start;
        }
    }

    /// Sees to it that the folder is held; whether another one stands in its place. In one that was not held before, what starts before
    /// left on its way is settled.
    pub(crate) fn check(&mut self, maker: &mut Maker<'_>) -> Result<bool, FolderFault> {
        let guard = self.guarded.check(maker.rt)?;
        if guard != Guard::Same {
            clear_offers(maker, self.guarded.root())?;
        }
        Ok(guard == Guard::Other)
    }

    /// Whether a file that was touched at this moment is newer than the start.
    fn is_new(&self, stamp: Stamp) -> bool {
        is_since(nanos_of(stamp.touched), self.start)
    }

    /// Lists what stands at the path of a name. A folder is not listed.
    fn see(
        &self,
        rt: &HostRuntime,
        entry: &DirEntry,
        listing: &mut Listing,
    ) -> Result<(), FolderFault> {
        let name = String::from_str(rt.alloc(), entry.file_name())?;
        let is_listed = match plain_file(rt, entry.path().path_text()) {
            Ok(stamp) => listing.files.push(Found { name, stamp }).is_ok(),
            Err(FolderFault::Missing) => true,
            Err(fault) => listing.others.push(PassedOver { name, fault }).is_ok(),
        };
        if is_listed {
            Ok(())
        } else {
            Err(FolderFault::OutOfMemory)
        }
    }

    /// Goes on with a look, so many names at most; whether it has come to its end. A name that is not UTF-8 fails alone.
    fn go_on(
        &self,
        rt: &HostRuntime,
        walk: &mut Walk,
        most: usize,
        listing: &mut Listing,
    ) -> Result<bool, FolderFault> {
        for _ in 0..most {
            match walk.entries.next() {
                None => return Ok(true),
                Some(Ok(entry)) => self.see(rt, &entry, listing)?,
                Some(Err(error)) if error.kind() == ErrorKind::InvalidFilename => {
                    listing.skipped = listing.skipped.saturating_add(1);
                }
                Some(Err(error)) => return Err(FolderFault::from(error)),
            }
        }
        Ok(false)
    }

    /// Whether a look goes on.
    pub(crate) fn is_looking(&self) -> bool {
        self.walk.is_some()
    }

    /// Begins a look, in place of one that went on. It fails where the folder may be listed and not searched.
    fn begin(&self, rt: &HostRuntime) -> Result<Walk, FolderFault> {
        // Names are only looked at, so they are listed by the path: below the descriptor each look takes half as long again.
        let path = self.guarded.path();
        fs::symlink_metadata(rt, within(rt.alloc(), path, ".")?.as_str())?;
        let entries = fs::read_dir(rt, path)?;
        Ok(Walk { entries, took: 0 })
    }

    /// The look that goes on, or else one that is begun.
    fn take_walk(&mut self, rt: &HostRuntime) -> Result<Walk, FolderFault> {
        match self.walk.take() {
            Some(walk) => Ok(walk),
            None => self.begin(rt),
        }
    }

    /// The next of what lies there, so many names at most.
    pub(crate) fn list(&mut self, rt: &HostRuntime, most: usize) -> Result<Listing, FolderFault> {
        let start = Instant::now(rt);
        let mut walk = self.take_walk(rt)?;
        let mut listing = Listing::new(rt.alloc());
        listing.is_end = self.go_on(rt, &mut walk, most, &mut listing)?;
        walk.took = walk.took.saturating_add(micros_since(rt, start));
        listing.took = walk.took / 1000;
        if !listing.is_end {
            self.walk = Some(walk);
        }
        Ok(listing)
    }

    /// Whether a file `stop` that is newer than the start lies there.
    pub(crate) fn has_stop(&self, rt: &HostRuntime) -> bool {
        let Ok(path) = self.guarded.within(rt.alloc(), STOP) else {
            return false;
        };
        matches!(plain_file(rt, &path), Ok(stamp) if self.is_new(stamp))
    }

    /// What the file of this name and stamp holds; `None` where that is more than so many bytes. That one is not opened, nor is an empty one.
    pub(crate) fn read(
        &self,
        rt: &HostRuntime,
        name: &str,
        stamp: Stamp,
        most: usize,
    ) -> Result<Option<Vec<u8>>, FolderFault>
        ensures { IfOk result (λ held. IfSome held (λ v. length v.items ≤ most)) }
    {
        let path = self.guarded.within(rt.alloc(), name)?;
        test_same(stamp, found_again(rt, &path)?)?;
        if stamp.length > most as u64 {
            return Ok(None);
        }
        if stamp.length == 0 {
            return Ok(Some(Vec::new(rt.alloc())));
        }
        Ok(Some(read_whole(rt, &path, stamp)?.into_bytes()))
    }

    /// Takes a plain file away that is older than the start. What can't be looked at is not there.
    pub(crate) fn remove(&self, rt: &HostRuntime, name: &str) -> Result<(), FolderFault> {
        let path = self.guarded.within(rt.alloc(), name)?;
        match plain_file(rt, &path) {
            Ok(stamp) if self.is_new(stamp) => Ok(()),
            Ok(_) => Ok(fs::remove_file(rt, path.as_str())?),
            Err(_) => Err(FolderFault::Missing),
        }
    }
}
