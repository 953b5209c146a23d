//! What stands at the path of a row file, by plain reads: a look writes nothing, and opens nothing but a file.

use rows_files::{
    FoundFile, FoundLog, HEAD_LEN, RefusedRows, RowsCause, file_of, kept_refusal, making_refusal,
    opening_refusal,
};
use rows_life::{LOG_HEAD_LEN, log_of};
use station_files::{kept_path, log_path};
use std::fs::File;
use std::io::{ErrorKind, Read};
use std::{fs, io};

/// A row file and its log, read one after the other.
#[derive(Drop)]
struct RowFilePair {
    /// The first bytes of the file, where something stands at its path.
    head: Option<Vec<u8>>,
    log: FoundLog,
}

impl RowFilePair {
    fn file(&self) -> FoundFile {
        match &self.head {
            Some(head) => file_of(head),
            None => FoundFile::Nothing,
        }
    }
}

/// The first bytes of a file, so many or as many as it has.
fn head_of(rt: &HostRuntime, path: &str, len: usize) -> io::Result<Vec<u8>> {
    let file = File::open(rt, path)?;
    let mut head = Vec::new(rt.alloc());
    file.take(len as u64).read_to_end(&mut head)?;
    Ok(head)
}

/// The log of the file at a path that no link stands at.
fn log_beside(rt: &HostRuntime, path: &str) -> Result<FoundLog, RefusedRows> {
    let log = log_path(rt.alloc(), path)?;
    match fs::symlink_metadata(rt, log.as_str()) {
        Ok(data) if !data.is_file() => Err(RefusedRows::for_cause(RowsCause::Unopened)),
        Ok(_) => {
            let head = head_of(rt, log.as_str(), LOG_HEAD_LEN)?;
            Ok(log_of(&head))
        }
        Err(error) if error.kind() == ErrorKind::NotFound => Ok(FoundLog::Nothing),
        Err(error) => Err(RefusedRows::from(error)),
    }
}

/// Whether nothing has this path, not even a link that leads nowhere.
fn is_free(rt: &HostRuntime, path: &str) -> Result<bool, RefusedRows> {
    match fs::symlink_metadata(rt, path) {
        Ok(_) => Ok(false),
        Err(error) if error.kind() == ErrorKind::NotFound => Ok(true),
        Err(error) => Err(RefusedRows::from(error)),
    }
}

/// How the file at a path begins, if something stands there. Nothing but a file is opened: to open a fifo is to wait for who writes
/// to it.
fn head_at(rt: &HostRuntime, path: &str) -> Result<Option<Vec<u8>>, RefusedRows> {
    if is_free(rt, path)? {
        return Ok(None);
    }
    if !fs::metadata(rt, path)?.is_file() {
        return Err(RefusedRows::for_cause(RowsCause::Unopened));
    }
    Ok(Some(head_of(rt, path, HEAD_LEN)?))
}

/// What stands at a path. A link is followed, as the database does, and the log lies where it leads.
fn found_at(rt: &HostRuntime, path: &str) -> Result<RowFilePair, RefusedRows> {
    let head = head_at(rt, path)?;
    let log = if head.is_none() {
        log_beside(rt, path)?
    } else {
        let real = fs::canonicalize(rt, path)?;
        log_beside(rt, real.as_str())?
    };
    Ok(RowFilePair { head, log })
}

/// Whether the file at a path still begins as it was found.
fn is_as_found(rt: &HostRuntime, path: &str, found: &RowFilePair) -> Result<bool, RefusedRows> {
    let head = head_at(rt, path)?;
    Ok(match (&found.head, &head) {
        (Some(before), Some(now)) => before.as_slice() == now.as_slice(),
        (None, None) => true,
        _ => false,
    })
}

/// Refuses what was found at a path for this cause. What a log is to its file can be told of one moment alone: where the file
/// begins otherwise by now, another process has come between the two reads.
fn refused_at(rt: &HostRuntime, path: &str, found: &RowFilePair, cause: RowsCause) -> RefusedRows {
    let of_log = match cause {
        RowsCause::LogAlone | RowsCause::WithoutLog | RowsCause::OtherLog => true,
        _ => false,
    };
    if !of_log {
        return RefusedRows::for_cause(cause);
    }
    match is_as_found(rt, path, found) {
        Ok(true) => RefusedRows::for_cause(cause),
        Ok(false) => RefusedRows::for_cause(RowsCause::InUse),
        Err(refused) => refused,
    }
}

/// Refuses a path beside which something is kept that was saved there: what stands at the path itself is older, or another station's.
fn test_kept(rt: &HostRuntime, path: &str) -> Result<(), RefusedRows> {
    let kept = kept_path(rt.alloc(), path)?;
    let log = log_path(rt.alloc(), &kept)?;
    match kept_refusal(!is_free(rt, &kept)?, !is_free(rt, &log)?) {
        None => Ok(()),
        Some(cause) => Err(RefusedRows::for_cause(cause)),
    }
}

/// Refuses a path at which no row file may be made.
pub(crate) fn test_making(rt: &HostRuntime, path: &str) -> Result<(), RefusedRows> {
    test_kept(rt, path)?;
    let found = found_at(rt, path)?;
    match making_refusal(found.file(), found.log) {
        None => Ok(()),
        Some(cause) => Err(refused_at(rt, path, &found, cause)),
    }
}

/// Refuses a path at which no row file is to be opened.
pub(crate) fn test_opening(rt: &HostRuntime, path: &str) -> Result<(), RefusedRows> {
    test_kept(rt, path)?;
    let found = found_at(rt, path)?;
    match opening_refusal(found.file(), found.log) {
        None => Ok(()),
        Some(cause) => Err(refused_at(rt, path, &found, cause)),
    }
}
