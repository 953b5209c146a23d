//! What went out at a plant, kept in the file `.released` among the releases.

ghost use Rattle.std.specs.Prelude.{◌≡◌, IfOk};
ghost use Rattle.folders.specs.GoneOut.{StartsWith};

use crate::copies::free_path;
use crate::held::{GoneFile, Held, find, path_in};
use crate::looks::{id_at, within};
use crate::maker::Maker;
use crate::open_folder::OpenFolder;
use crate::part::Part;
use crate::releases::Releases;
use ballots::Number;
use folders::{
    Change, FolderFault, Kept, Ledger, Place, RELEASED, WentOut, copy_of, first_went_out,
    release_number, sent_number, went_before,
};
use gone_out::{Numbers, Origin};
use std::alloc::Global;
use std::fs;
use std::io::ErrorKind;

/// The folders of a plant, and what makes files there.
#[derive(Drop)]
pub(crate) struct PlantFolders<'p, 'a> {
    pub(crate) maker: &'p mut Maker<'a>,
    pub(crate) releases: &'p Releases,
    pub(crate) offers: &'p str,
}

/// What a station keeps of what went out.
#[derive(Drop)]
pub(crate) struct GoneKeeper {
    own: Origin,
    ledger: Ledger,
    /// The file, where one that has the station's head lay under the name as it was looked at last.
    held: Option<Held>,
}

/// What went out.
#[derive(Drop)]
pub(crate) enum GoneOut {
    /// It is not known yet what the file holds: these were noted.
    Early(Vec<Number>),
    Kept(GoneKeeper),
}

/// Gives a file that is not this station's another name, with the first number that is free behind it.
fn set_aside(rt: &HostRuntime, folder: &str) -> Result<(), FolderFault> {
    let path = path_in(rt, folder)?;
    let aside = free_path(rt, folder, RELEASED, None)?;
    Ok(fs::rename(rt, path.as_str(), aside.as_str())?)
}

/// Makes the file anew with these bytes, in place of the one that is there: a crash leaves that one, or the new one whole.
fn make_anew(
    maker: &mut Maker<'_>,
    releases: &Releases,
    bytes: &[u8],
) -> Result<Held, FolderFault> {
    let path = path_in(maker.rt, releases.root())?;
    let held = Part::filled(maker, releases.root(), bytes)?.name_as(maker.rt, &path)?;
    releases.sync()?;
    Ok(held)
}

/// The names of files that are looked for.
#[derive(Clone, Copy)]
enum FileSort {
    Released,
    Sent,
}

/// The number of a file of this name.
fn number_of(alloc: Global, sort: FileSort, name: &str) -> Result<Option<Number>, FolderFault> {
    let number = match sort {
        FileSort::Released => release_number(alloc, name)?,
        FileSort::Sent => sent_number(alloc, name)?,
    };
    Ok(number)
}

/// Adds the numbers of the files in a folder. One that is not there has none; a name that is not UTF-8 is passed over.
fn add_files(
    rt: &HostRuntime,
    folder: &str,
    sort: FileSort,
    found: &mut Numbers,
) -> Result<(), FolderFault> {
    if id_at(rt, folder)?.is_none() {
        return Ok(());
    }
    for entry in fs::read_dir(rt, folder)? {
        match entry {
            Ok(entry) => {
                if let Some(number) = number_of(rt.alloc(), sort, entry.file_name())? {
                    found.insert(number);
                }
            }
            Err(error) if error.kind() == ErrorKind::InvalidFilename => {}
            Err(error) => return Err(FolderFault::from(error)),
        }
    }
    Ok(())
}

impl PlantFolders<'_, '_> {
    /// The numbers of which a file lies among the releases or among what was sent.
    fn files(&self) -> Result<Numbers, FolderFault> {
        let rt = self.maker.rt;
        let mut found = Numbers::new(rt.alloc())?;
        add_files(rt, self.releases.root(), FileSort::Released, &mut found)?;
        match OpenFolder::below(rt, self.offers, Place::Sent.folder()) {
            Ok(sent) => add_files(rt, sent.root(), FileSort::Sent, &mut found)?,
            // A link in its place is not followed.
            Err(FolderFault::Missing | FolderFault::NoFolder | FolderFault::Changed) => {}
            Err(fault) => return Err(fault),
        }
        Ok(found)
    }
}

impl GoneKeeper {
    /// Whether the file under the name is the one that is held.
    fn holds_what_stands(&self, rt: &HostRuntime, folder: &str) -> Result<bool, FolderFault> {
        let path = path_in(rt, folder)?;
        match (&self.held, id_at(rt, &path)?) {
            (Some(held), Some(id)) => Ok(held.id == id),
            _ => Ok(false),
        }
    }

    /// Adopts a file that came to stand under the name: what it lacks waits, and what is another station's is set aside.
    fn adopt(
        &mut self,
        rt: &HostRuntime,
        folder: &str,
        found: GoneFile,
    ) -> Result<(), FolderFault> {
        let GoneFile { held, kept } = found;
        let Some(Kept { numbers, has_head }) = kept else {
            return set_aside(rt, folder);
        };
        self.ledger = self.ledger.over(rt.alloc(), numbers)?;
        if has_head {
            self.held = Some(held);
        }
        Ok(())
    }

    /// Sees to it that the file under the name is held, if one stands there.
    fn look(&mut self, rt: &HostRuntime, folder: &str) -> Result<(), FolderFault> {
        if self.holds_what_stands(rt, folder)? {
            return Ok(());
        }
        self.held = None;
        match find(rt, folder, &self.own)? {
            Some(found) => self.adopt(rt, folder, found),
            None => Ok(()),
        }
    }

    /// Does with the file what is to be done.
    fn write(&mut self, maker: &mut Maker<'_>, releases: &Releases) -> Result<(), FolderFault> {
        let len = match &self.held {
            Some(held) => held.len()?,
            None => 0,
        };
        match self.ledger.change(maker.rt.alloc(), &self.own, len)? {
            Change::Stays => return Ok(()),
            Change::Adds(records) => match &mut self.held {
                Some(held) => held.add(&records)?,
                None => return Err(FolderFault::Missing),
            },
            Change::Anew(bytes) => self.held = Some(make_anew(maker, releases, &bytes)?),
        }
        self.ledger.made();
        Ok(())
    }
}

/// What is kept from now on over a file of this station.
fn keeper_of(alloc: Global, own: &Origin, held: Held, kept: Kept) -> GoneKeeper {
    let held = kept.has_head.then_some(held);
    GoneKeeper {
        own: *own,
        ledger: Ledger::new(alloc, kept.numbers),
        held,
    }
}

impl GoneOut {
    /// Notes numbers that went out.
    pub(crate) fn note(&mut self, numbers: &[Number]) -> Result<(), FolderFault> {
        match self {
            GoneOut::Early(early) => early.extend_from_slice(numbers)?,
            GoneOut::Kept(keeper) => keeper.ledger.note(numbers)?,
        }
        Ok(())
    }

    /// Adds the records of the numbers that wait for them; the disk has the names of their files.
    pub(crate) fn write(
        &mut self,
        maker: &mut Maker<'_>,
        releases: &Releases,
    ) -> Result<(), FolderFault> {
        let GoneOut::Kept(keeper) = self else {
            return Ok(());
        };
        if !releases.is_held() {
            return Err(FolderFault::Missing);
        }
        keeper.look(maker.rt, releases.root())?;
        keeper.write(maker, releases)
    }

    /// Waits until the disk has the records.
    pub(crate) fn sync(&self) -> Result<(), FolderFault> {
        match self {
            GoneOut::Kept(
                GoneKeeper {
                    held: Some(held),
                    ..
                },
            ) => Ok(held.file.sync_all()?),
            _ => Ok(()),
        }
    }

    /// Keeps what went out from now on, and what was noted before, once the file is written.
    fn keep(
        &mut self,
        plant: &mut PlantFolders<'_, '_>,
        mut keeper: GoneKeeper,
    ) -> Result<(), FolderFault> {
        if let GoneOut::Early(early) = self {
            keeper.ledger.note(early.as_slice())?;
        }
        keeper.write(plant.maker, plant.releases)?;
        *self = GoneOut::Kept(keeper);
        Ok(())
    }

    /// Reads what went out here, or begins to keep it.
    pub(crate) fn start(
        &mut self,
        plant: &mut PlantFolders<'_, '_>,
        own: &Origin,
        known: &Numbers,
    ) -> Result<WentOut, FolderFault>
        ensures { IfOk result (λ w. StartsWith known.now w.numbers w.missing) }
    {
        let alloc = plant.maker.rt.alloc();
        let found = find(plant.maker.rt, plant.releases.root(), own)?;
        let is_other = found.is_some();
        if let Some(
            GoneFile {
                held,
                kept: Some(kept),
            },
        ) = found
        {
            let went = went_before(alloc, &kept.numbers)?;
            self.keep(plant, keeper_of(alloc, own, held, kept))?;
            return Ok(went);
        }
        let mut went = first_went_out(alloc, known, &plant.files()?)?;
        if is_other {
            set_aside(plant.maker.rt, plant.releases.root())?;
            went.set_aside = true;
        }
        let keeper = GoneKeeper {
            own: *own,
            ledger: Ledger::new(alloc, copy_of(alloc, known)?),
            held: None,
        };
        self.keep(plant, keeper)?;
        Ok(went)
    }
}
