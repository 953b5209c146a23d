//! A folder that is open. What lies in it is named below its own descriptor: whatever comes to stand at its path, its names lead into this folder.

use crate::locks::is_own_lock;
use crate::looks::{entry_at, folder_at, id_of, within};
use folders::{Entry, FileId, FolderFault, test_seen};
use std::alloc::{AllocError, Global};
use std::fs;
use std::fs::{File, TryLockError};
use std::io::ErrorKind;
use std::os::fd::AsRawFd;

/// A folder that is open.
#[derive(Drop)]
pub(crate) struct OpenFolder {
    folder: File,
    pub(crate) id: FileId,
    /// What the paths of its files begin with.
    root: String,
}

/// What the paths of the files in a folder begin with: where the host lists what a process has open, the name that the folder has there, and else
/// its path. So where the host has no such list, another folder may come to stand at the path between a look and a move.
fn root_of(rt: &HostRuntime, folder: &File, id: FileId, path: &str) -> Result<String, AllocError> {
    let descriptor = folder.as_raw_fd();
    let own = format!(in rt.alloc(); "/proc/self/fd/{descriptor}")?;
    match folder_at(rt, &own) {
        Ok(found) if found == id => Ok(own),
        _ => String::from_str(rt.alloc(), path),
    }
}

impl OpenFolder {
    /// The folder at a path, to which links may lead. What is no folder is not opened: an open of a fifo would wait.
    pub(crate) fn at(rt: &HostRuntime, path: &str) -> Result<OpenFolder, FolderFault> {
        let inside = within(rt.alloc(), path, ".")?;
        let folder = File::open(rt, inside.as_str())?;
        let id = id_of(&folder.metadata()?);
        let root = root_of(rt, &folder, id, path)?;
        Ok(OpenFolder { folder, id, root })
    }

    /// The folder of this name in one whose files' paths begin so. No link is followed.
    pub(crate) fn below(
        rt: &HostRuntime,
        root: &str,
        name: &str,
    ) -> Result<OpenFolder, FolderFault> {
        let path = within(rt.alloc(), root, name)?;
        let seen = entry_at(rt, &path)?;
        if matches!(seen, Entry::Other) {
            return Err(FolderFault::NoFolder);
        }
        let opened = OpenFolder::at(rt, &path)?;
        test_seen(seen, opened.id)?;
        Ok(opened)
    }

    /// The same, which is made where nothing stands there.
    pub(crate) fn made_below(
        rt: &HostRuntime,
        root: &str,
        name: &str,
    ) -> Result<OpenFolder, FolderFault> {
        let path = within(rt.alloc(), root, name)?;
        match fs::create_dir(rt, path.as_str()) {
            Err(error) if error.kind() != ErrorKind::AlreadyExists => {
                return Err(FolderFault::from(error));
            }
            _ => {}
        }
        OpenFolder::below(rt, root, name)
    }

    /// What the paths of its files begin with.
    pub(crate) fn root(&self) -> &str {
        self.root.as_str()
    }

    /// The path of a file in it.
    pub(crate) fn within(&self, alloc: Global, name: &str) -> Result<String, AllocError> {
        within(alloc, &self.root, name)
    }

    /// Takes its lock, where nobody holds it; whether no process of this user does. Who may read the folder can hold its lock too, which is no
    /// reason not to work with it. A host that has no locks for it refuses nothing.
    pub(crate) fn lock(&self, rt: &HostRuntime) -> bool {
        match self.folder.try_lock() {
            Err(TryLockError::WouldBlock) => !is_own_lock(rt, self.id.inode),
            Ok(()) | Err(TryLockError::Error(_)) => true,
        }
    }

    /// Whether nobody holds its lock, which is taken for that.
    pub(crate) fn is_free(&self) -> bool {
        !matches!(self.folder.try_lock(), Err(TryLockError::WouldBlock))
    }

    /// Waits until the disk has the names in it.
    pub(crate) fn sync(&self) -> Result<(), FolderFault> {
        Ok(self.folder.sync_all()?)
    }
}
