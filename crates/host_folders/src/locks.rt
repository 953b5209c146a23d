//! Who holds a lock, by the host's list of them; and the lock of the station's own that nobody else can take.

use crate::open_folder::OpenFolder;
use folders::{FolderFault, LOCK, PASSAGE, lock_in};
use std::fs::{File, Metadata, OpenOptions, TryLockError};
use std::io::ErrorKind;
use std::os::unix::fs::{MetadataExt, OpenOptionsExt};
use std::{fs, io};

/// Where the host lists locks.
const LIST: &str = "/proc/locks";

/// Nobody else may open the file whose lock is taken: so nobody else can take it.
const MODE: u32 = 0o600;

/// What a mode lets others do.
const OTHERS: u32 = 0o077;

/// The host's list of locks, where it can be read.
pub(crate) fn lock_list(rt: &HostRuntime) -> Option<String> {
    fs::read_to_string(rt, LIST).ok()
}

/// The user of a process, where the host tells it.
fn user_of(rt: &HostRuntime, process: u32) -> Option<u32> {
    let path = format!(in rt.alloc(); "/proc/{process}").ok()?;
    Some(fs::metadata(rt, path.as_str()).ok()?.uid())
}

/// Whether a process is of this user; of any where none is given.
fn is_of(rt: &HostRuntime, process: u32, user: Option<u32>) -> bool {
    user.is_none() || user_of(rt, process) == user
}

/// The first process of this user, or of any, that holds the lock of the file of this number, by a list.
pub(crate) fn holder_of(
    rt: &HostRuntime,
    list: &str,
    inode: u64,
    user: Option<u32>,
) -> Option<u32> {
    for line in list.lines() {
        if let Some(held) = lock_in(line)
            && held.inode == inode
            && is_of(rt, held.process, user)
        {
            return Some(held.process);
        }
    }
    None
}

/// Whether a process of this process's own user holds the lock of the file of this number, which was refused. Where the host does not list who does,
/// it counts as held so.
pub(crate) fn is_own_lock(rt: &HostRuntime, inode: u64) -> bool {
    let Some(list) = lock_list(rt) else {
        return true;
    };
    let own = Some(libc::geteuid());
    holder_of(rt, &list, inode, own).is_some() || holder_of(rt, &list, inode, None).is_none()
}

/// Whether a file is one that this user made, and that no other can open.
fn is_closed_to_others(data: &Metadata) -> bool {
    data.is_file() && data.uid() == libc::geteuid() && data.mode() & OTHERS == 0
}

/// Opens the file at a path, which is made where nothing stands there, or something that others could have locked.
fn open_own(rt: &HostRuntime, path: &str) -> io::Result<File> {
    match fs::symlink_metadata(rt, path) {
        Ok(data) if is_closed_to_others(&data) => {
            return OpenOptions::new().read(true).write(true).open(rt, path);
        }
        Ok(_) => fs::remove_file(rt, path)?,
        Err(error) if error.kind() == ErrorKind::NotFound => {}
        Err(error) => return Err(error),
    }
    OpenOptions::new()
        .read(true)
        .write(true)
        .create_new(true)
        .mode(MODE)
        .open(rt, path)
}

/// The file in the passage of offers whose paths begin so, open.
fn lock_file(rt: &HostRuntime, offers: &str) -> Result<File, FolderFault> {
    let passage = OpenFolder::made_below(rt, offers, PASSAGE)?;
    let path = passage.within(rt.alloc(), LOCK)?;
    Ok(open_own(rt, &path)?)
}

/// Takes the lock of the file in the passage, and answers the file; it is let go as that is closed. Where no such file can be made there is none, and
/// the lock of the folder alone tells.
pub(crate) fn lock_passage(rt: &HostRuntime, offers: &str) -> Result<Option<File>, FolderFault> {
    let Ok(file) = lock_file(rt, offers) else {
        return Ok(None);
    };
    match file.try_lock() {
        Err(TryLockError::WouldBlock) => Err(FolderFault::InUse),
        Ok(()) | Err(TryLockError::Error(_)) => Ok(Some(file)),
    }
}

/// The number of the file in the passage at the path of offers, and its user, where one lies there.
pub(crate) fn passage_lock(rt: &HostRuntime, offers: &str) -> Option<(u64, u32)> {
    let path = format!(in rt.alloc(); "{offers}/{PASSAGE}/{LOCK}").ok()?;
    let data = fs::symlink_metadata(rt, path.as_str()).ok()?;
    data.is_file().then_some((data.ino(), data.uid()))
}
