//! The end of a plant's station, asked for by another process.

use crate::looks::within;
use crate::open_folder::OpenFolder;
use crate::workers::{WorkedOffers, Worker, worker_at};
use folders::{FolderFault, STOP};
use std::fs::{File, OpenOptions};
use std::io::ErrorKind;
use std::time::Duration;
use std::{fs, io, thread};

/// The name under which the file is made: a station leaves names that begin so alone.
const MADE: &str = ".circuitd-stop";

/// How many milliseconds pass between two looks, and how many looks there are in a second.
const PAUSE: u64 = 50;

const LOOKS: u32 = 20;

/// Makes an empty file at a path, in place of what was left there.
fn make_anew(rt: &HostRuntime, path: &str) -> io::Result<File> {
    match fs::remove_file(rt, path) {
        Err(error) if error.kind() != ErrorKind::NotFound => return Err(error),
        _ => {}
    }
    OpenOptions::new()
        .write(true)
        .create_new(true)
        .open(rt, path)
}

/// Lays the file that ends a station into a folder of offers, in place of one that lies there: a station passes over one that is
/// older than its start.
pub fn lay_stop(rt: &HostRuntime, offers: &str) -> Result<(), FolderFault> {
    let made = within(rt.alloc(), offers, MADE)?;
    let stop = within(rt.alloc(), offers, STOP)?;
    drop(make_anew(rt, &made)?);
    Ok(fs::rename(rt, made.as_str(), stop.as_str())?)
}

/// Whether another process has the lock of a folder, which is taken for that. A host that has no locks for it says that none does.
fn is_locked(rt: &HostRuntime, path: &str) -> Result<bool, FolderFault> {
    let folder = OpenFolder::at(rt, path)?;
    Ok(!folder.is_free())
}

/// What works with the offers of a station. A lock is taken only where the host does not list who holds one.
fn look(rt: &HostRuntime, worked: WorkedOffers<'_>) -> Result<Worker, FolderFault> {
    match worker_at(rt, worked)? {
        Worker::Unlisted => {
            if is_locked(rt, worked.offers)? {
                Ok(Worker::Unlisted)
            } else {
                Ok(Worker::Nobody)
            }
        }
        found => Ok(found),
    }
}

/// Waits until no process works with the offers of a station, for so many seconds at most, and answers what does then.
pub fn await_end(
    rt: &HostRuntime,
    worked: WorkedOffers<'_>,
    seconds: u32,
) -> Result<Worker, FolderFault> {
    for _ in 0..LOOKS.saturating_mul(seconds) {
        if matches!(look(rt, worked)?, Worker::Nobody) {
            return Ok(Worker::Nobody);
        }
        thread::sleep(rt, Duration::from_millis(PAUSE));
    }
    look(rt, worked)
}
