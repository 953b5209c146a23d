//! The folder of releases: files that are made ahead, begun, and get their names.

ghost use Rattle.std.specs.Prelude.{◌<◌, IfErr, length};

use crate::guard::{Guard, Guarded};
use crate::maker::Maker;
use crate::part::{Part, clear_parts};
use folders::{FolderFault, NamedFile, News, Unwritten};
use std::alloc::Global;
use std::collections::VecDeque;

/// How many files are made ahead: those of one release.
const MOST_SPARES: usize = 2;

/// How many files are filled before the disk has the first: those of the releases of as many steps as share a save.
const MOST_BEGUN: usize = 32;

/// How often a file is written where another comes to stand under its name.
const TRIES: u32 = 3;

/// The folder of releases.
///
/// A file has its name there as soon as the disk has all that it holds. Until the disk has the name too, no file leaves the offers: of
/// two files that are written one after the other, the second does not wait for the name of the first.
#[derive(Drop)]
pub(crate) struct Releases {
    guarded: Guarded,
    /// Whether a file was written whose name the disk is not known to have.
    has_new_names: bool,
    /// Files that were made ahead, at a look, and have their room on the disk: to make one and to find room for it takes as long as
    /// a wait for a fast disk.
    spares: Vec<Part>,
    pub(crate) news: Vec<News>,
}

impl Releases {
    pub(crate) fn new(alloc: Global, path: String) -> Releases {
        Releases {
            guarded: Guarded::new(path, false),
            has_new_names: false,
            spares: Vec::new(alloc),
            news: Vec::new(alloc),
        }
    }

    /// Sees to it that the folder is held. In one that was not held before lies nothing that was made ahead, and what starts before
    /// left there is taken away.
    pub(crate) fn check(&mut self, rt: &HostRuntime) -> Result<(), FolderFault> {
        match self.guarded.check(rt)? {
            Guard::Same => return Ok(()),
            Guard::First => {}
            Guard::Other => {
                let _ = self.news.push(News::OtherReleases);
            }
        }
        self.spares.clear();
        let _ = clear_parts(rt, self.guarded.root());
        Ok(())
    }

    /// What the paths of its files begin with.
    pub(crate) fn root(&self) -> &str {
        self.guarded.root()
    }

    /// Whether the folder is held.
    pub(crate) fn is_held(&self) -> bool {
        self.guarded.is_held()
    }

    /// Waits until the disk has the names that are in the folder now.
    pub(crate) fn sync(&self) -> Result<(), FolderFault> {
        self.guarded.sync()
    }

    /// Waits until the disk has the names of all files that were written.
    pub(crate) fn settle_names(&mut self) -> Result<(), FolderFault> {
        if self.has_new_names {
            self.guarded.sync()?;
            self.has_new_names = false;
        }
        Ok(())
    }

    /// Makes the files ahead that are not there.
    pub(crate) fn make_spares(&mut self, maker: &mut Maker<'_>) {
        for _ in self.spares.len()..MOST_SPARES {
            // Where one can't be made, it is tried again at the next look, or made in its turn.
            let Ok(part) = Part::roomy(maker, self.guarded.root()) else {
                return;
            };
            let _ = self.spares.push(part);
        }
    }

    /// Fills the first of these files, in their order, up to one that can't be begun. To write all of them before the first wait for the disk
    /// takes less than to write one after the other: the disk then has them together, and the waits behind the first are short.
    fn begin(
        &mut self,
        maker: &mut Maker<'_>,
        files: &[NamedFile],
        begun: &mut VecDeque<Part>,
    ) -> Result<(), FolderFault> {
        self.check(maker.rt)?;
        for named in files.iter().take(MOST_BEGUN) {
            let empty = match self.spares.pop() {
                Some(spare) => spare,
                None => Part::make(maker, self.guarded.root())?,
            };
            let _ = begun.push_back(empty.fill(maker.rt, named.bytes.as_ref())?);
        }
        Ok(())
    }

    /// Writes a file into the folder that is held, by the one that was begun for it where there is one.
    fn put_held(
        &self,
        maker: &mut Maker<'_>,
        named: &NamedFile,
        begun: Option<Part>,
    ) -> Result<(), FolderFault> {
        let path = self.guarded.within(maker.rt.alloc(), &named.name)?;
        let part = match begun {
            Some(part) => part,
            None => Part::filled(maker, self.guarded.root(), named.bytes.as_ref())?,
        };
        part.name_as(maker.rt, &path)?;
        Ok(())
    }

    /// Writes a file; and again where another came to stand under its name, or another folder at the path of this one.
    fn put(
        &mut self,
        maker: &mut Maker<'_>,
        named: &NamedFile,
        begun: Option<Part>,
    ) -> Result<(), FolderFault> {
        let mut begun = begun;
        for _ in 0..TRIES {
            self.check(maker.rt)?;
            self.has_new_names = true;
            match self.put_held(maker, named, begun.take()) {
                Ok(()) if self.guarded.stands(maker.rt) => return Ok(()),
                Ok(()) | Err(FolderFault::Changed) => {
                    let _ = self.news.push(News::WrittenAnew);
                }
                Err(fault) => return Err(fault),
            }
        }
        Err(FolderFault::Changed)
    }

    /// Writes these files, in order, up to the first that is not written: of those that were begun behind it nothing stays.
    pub(crate) fn put_all(
        &mut self,
        maker: &mut Maker<'_>,
        files: &[NamedFile],
    ) -> Result<(), Unwritten>
        ensures { IfErr result (λ u. u.written < length files.now) }
    {
        let mut begun = VecDeque::new(maker.rt.alloc());
        for (written, named) in files.iter().enumerate() {
            if begun.is_empty() {
                // One that can't be begun is written whole in its turn, or refused then.
                let _ = self.begin(maker, &files[written..], &mut begun);
            }
            if let Err(fault) = self.put(maker, named, begun.pop_front()) {
                for part in begun {
                    part.discard(maker.rt);
                }
                return Err(Unwritten { written, fault });
            }
        }
        Ok(())
    }
}
