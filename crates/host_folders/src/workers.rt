//! Which process works with the offers of a station, by the host's list of locks. None is taken.

use crate::locks::{holder_of, lock_list, passage_lock};
use crate::looks::folder_at;
use folders::FolderFault;
use std::fs;
use std::os::unix::fs::MetadataExt;

/// Who may run a station whatever its files belong to.
const ROOT: u32 = 0;

/// What works with the offers of a station.
#[derive(Clone, Copy)]
pub enum Worker {
    Nobody,
    /// The process of this number.
    Process(u32),
    /// The host does not list who holds a lock.
    Unlisted,
}

/// The station whose offers are asked about: their folder, and its row file, whose owner the station runs as.
#[derive(Clone, Copy)]
pub struct WorkedOffers<'a> {
    pub offers: &'a str,
    pub rows: &'a str,
}

/// The owner of the file at a path; links are followed. `None` where it can't be looked at.
fn owner_at(rt: &HostRuntime, path: &str) -> Option<u32> {
    Some(fs::metadata(rt, path).ok()?.uid())
}

/// Whether a file of this owner can be the station's own: where it is not known who the station runs as, any can.
fn can_be_own(user: u32, own: Option<u32>) -> bool {
    match own {
        Some(own) => user == own || user == ROOT,
        None => true,
    }
}

/// The process of the station's user, or of root, that holds the lock of the file of this number, by a list.
fn own_holder(rt: &HostRuntime, list: &str, inode: u64, own: Option<u32>) -> Option<u32> {
    match holder_of(rt, list, inode, own) {
        None => holder_of(rt, list, inode, Some(ROOT)),
        found => found,
    }
}

/// The process that holds the lock of the file in the passage, by a list. A file that somebody else laid there is not asked about.
fn passage_holder(rt: &HostRuntime, list: &str, offers: &str, own: Option<u32>) -> Option<u32> {
    let (inode, user) = passage_lock(rt, offers)?;
    if can_be_own(user, own) {
        own_holder(rt, list, inode, own)
    } else {
        None
    }
}

/// The process that holds that lock, or else that of the folder of offers, by a list.
fn listed(rt: &HostRuntime, list: &str, worked: WorkedOffers<'_>) -> Result<Worker, FolderFault> {
    let folder = folder_at(rt, worked.offers)?;
    let own = owner_at(rt, worked.rows);
    let holder = match passage_holder(rt, list, worked.offers, own) {
        None => own_holder(rt, list, folder.inode, own),
        found => found,
    };
    match holder {
        Some(process) => Ok(Worker::Process(process)),
        None => Ok(Worker::Nobody),
    }
}

/// Which process works with the offers of a station. A fault is one of their folder.
pub fn worker_at(rt: &HostRuntime, worked: WorkedOffers<'_>) -> Result<Worker, FolderFault> {
    match lock_list(rt) {
        Some(list) => listed(rt, &list, worked),
        None => Ok(Worker::Unlisted),
    }
}
