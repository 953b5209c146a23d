//! Folders that one process alone works with.

use crate::locks::lock_passage;
use crate::looks::folder_at;
use crate::open_folder::OpenFolder;
use folders::{FileId, FolderFault};
use std::alloc::Global;
use std::fs::File;

/// What stands under the name of a folder that is guarded.
#[derive(Clone, Copy, PartialEq, Eq)]
pub(crate) enum Guard {
    /// The folder that was held before.
    Same,
    /// The first that was found there.
    First,
    /// Another one in its place.
    Other,
}

/// A folder that is held.
#[derive(Drop)]
struct HeldFolder {
    folder: OpenFolder,
    /// The file in its passage whose lock is held, where it has one.
    _lock: Option<File>,
}

/// A folder by its path, and the one that is held there. Links may lead to it.
#[derive(Drop)]
pub(crate) struct Guarded {
    path: String,
    /// Whether it has a passage.
    has_passage: bool,
    held: Option<HeldFolder>,
    /// Whether one was ever held.
    was_held: bool,
}

/// Opens the folder at a path and takes its locks.
fn hold(rt: &HostRuntime, path: &str, has_passage: bool) -> Result<HeldFolder, FolderFault> {
    let folder = OpenFolder::at(rt, path)?;
    if !folder.lock(rt) {
        return Err(FolderFault::InUse);
    }
    let lock = if has_passage {
        lock_passage(rt, folder.root())?
    } else {
        None
    };
    Ok(HeldFolder {
        folder,
        _lock: lock,
    })
}

impl Guarded {
    pub(crate) fn new(path: String, has_passage: bool) -> Guarded {
        Guarded {
            path,
            has_passage,
            held: None,
            was_held: false,
        }
    }

    pub(crate) fn path(&self) -> &str {
        self.path.as_str()
    }

    /// What the paths of its files begin with. Where none is held, that is its path.
    pub(crate) fn root(&self) -> &str {
        match &self.held {
            Some(held) => held.folder.root(),
            None => self.path.as_str(),
        }
    }

    /// Whether one is held.
    pub(crate) fn is_held(&self) -> bool {
        self.held.is_some()
    }

    /// The path of a file in the folder that is held. Where none is, nothing is there.
    pub(crate) fn within(&self, alloc: Global, name: &str) -> Result<String, FolderFault> {
        match &self.held {
            Some(held) => Ok(held.folder.within(alloc, name)?),
            None => Err(FolderFault::Missing),
        }
    }

    /// Whether this very folder is held.
    fn holds(&self, id: FileId) -> bool {
        match &self.held {
            Some(held) => held.folder.id == id,
            None => false,
        }
    }

    /// Whether the folder that stands at the path is the one that is held.
    pub(crate) fn stands(&self, rt: &HostRuntime) -> bool {
        match folder_at(rt, &self.path) {
            Ok(id) => self.holds(id),
            Err(_) => false,
        }
    }

    /// Waits until the disk has the names in the folder that is held.
    pub(crate) fn sync(&self) -> Result<(), FolderFault> {
        match &self.held {
            Some(held) => held.folder.sync(),
            None => Err(FolderFault::Missing),
        }
    }

    /// Sees to it that the folder that stands under the name is held: where another one does it is taken, and the one before let go.
    pub(crate) fn check(&mut self, rt: &HostRuntime) -> Result<Guard, FolderFault> {
        let id = folder_at(rt, &self.path)?;
        if self.holds(id) {
            return Ok(Guard::Same);
        }
        self.held = None;
        self.held = Some(hold(rt, &self.path, self.has_passage)?);
        let guard = if self.was_held {
            Guard::Other
        } else {
            Guard::First
        };
        self.was_held = true;
        Ok(guard)
    }
}
