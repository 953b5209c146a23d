//! What stands at a path, by looks that open nothing.

use folders::{Entry, FileId, FolderFault, Stamp};
use std::alloc::{AllocError, Global};
use std::fs::Metadata;
use std::io::ErrorKind;
use std::os::unix::fs::MetadataExt;
use std::{fs, io};

/// The path of a file in a folder.
pub(crate) fn within(alloc: Global, folder: &str, name: &str) -> Result<String, AllocError> {
    format!(in alloc; "{folder}/{name}")
}

/// Which file it is.
pub(crate) fn id_of(data: &Metadata) -> FileId {
    FileId {
        device: data.dev(),
        inode: data.ino(),
    }
}

/// Which file it is, and in which state.
pub(crate) fn stamp_of(data: &Metadata) -> Stamp {
    Stamp {
        file: id_of(data),
        length: data.len(),
        changed: (data.mtime(), data.mtime_nsec()),
        touched: (data.ctime(), data.ctime_nsec()),
    }
}

/// Which file stands at a path, whatever its kind: no link is followed. `None` where nothing does.
pub(crate) fn id_at(rt: &HostRuntime, path: &str) -> io::Result<Option<FileId>> {
    match fs::symlink_metadata(rt, path) {
        Ok(data) => Ok(Some(id_of(&data))),
        Err(error) if error.kind() == ErrorKind::NotFound => Ok(None),
        Err(error) => Err(error),
    }
}

/// Whether this very file stands at a path.
pub(crate) fn stands_at(rt: &HostRuntime, path: &str, file: FileId) -> bool {
    matches!(id_at(rt, path), Ok(Some(found)) if found == file)
}

/// The stamp of the plain file at a path. A folder is not there.
pub(crate) fn plain_file(rt: &HostRuntime, path: &str) -> Result<Stamp, FolderFault> {
    let data = fs::symlink_metadata(rt, path)?;
    if data.is_file() {
        Ok(stamp_of(&data))
    } else if data.is_dir() {
        Err(FolderFault::Missing)
    } else {
        Err(FolderFault::NoFile)
    }
}

/// The same of a path where a plain file was found before.
pub(crate) fn found_again(rt: &HostRuntime, path: &str) -> Result<Stamp, FolderFault> {
    match plain_file(rt, path) {
        Err(FolderFault::NoFile) => Err(FolderFault::Changed),
        found => found,
    }
}

/// Which folder stands at a path; links are followed.
pub(crate) fn folder_at(rt: &HostRuntime, path: &str) -> Result<FileId, FolderFault> {
    let data = fs::metadata(rt, path)?;
    if data.is_dir() {
        Ok(id_of(&data))
    } else {
        Err(FolderFault::NoFolder)
    }
}

/// What stands at a path; no link is followed.
pub(crate) fn entry_at(rt: &HostRuntime, path: &str) -> Result<Entry, FolderFault> {
    let data = fs::symlink_metadata(rt, path)?;
    if data.is_dir() {
        Ok(Entry::Folder(id_of(&data)))
    } else {
        Ok(Entry::Other)
    }
}

/// Why no folder stands at a path, if none does; links are followed.
pub fn why_no_folder(rt: &HostRuntime, path: &str) -> Option<FolderFault> {
    folder_at(rt, path).err()
}
