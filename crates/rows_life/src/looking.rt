//! What a row file and its log are, as they are read once no other process may change them.

ghost use Rattle.std.specs.Prelude.{IsTrue, OnOk, length};
ghost use Rattle.sqlite_wal.specs.Reads.{IsClean};
ghost use Rattle.rows_life.specs.Acts.{IsRead, AreRead};
ghost use Rattle.rows_life.specs.Lives.{file_in, log_in, page_size_in, BeginsWithBytes};

use crate::log_head::{LOG_HEAD_LEN, log_of};
use rows_files::{FoundFile, FoundLog, HEAD_LEN, RefusedRows, RowsCause, file_of};
use sqlite_disk::{Disk, Files};
use std::io;

/// Tells the proofs that bytes are less than 256.
fn are_bytes(bytes: &[u8])
    ensures { BeginsWithBytes (length bytes.now) bytes.now }
{
    let _ = bytes;
}

/// What a database's file is.
pub(crate) fn file_on<D: Disk>(db: &mut D) -> io::Result<FoundFile>
    requires { IsTrue (D.Disk.is_usable db.old) }
    ensures file { IsRead D.Disk file_in db.old db.new result }
    ensures bytes { OnOk result (IsClean D.Disk db.new → BeginsWithBytes 108 (D.Disk.seen db.old)) }
{
    let mut head = [0; HEAD_LEN];
    db.read_at(0, &mut head)?;
    are_bytes(&head);
    Ok(file_of(&head))
}

/// The size of its pages, as its header names it (SQLite's file format, 1.3.2).
pub(crate) fn page_size_on<D: Disk>(db: &mut D) -> io::Result<u32>
    requires { IsTrue (D.Disk.is_usable db.old) }
    ensures { IsRead D.Disk page_size_in db.old db.new result }
{
    let mut field = [0; 2];
    db.read_at(16, &mut field)?;
    let named = field[0] as u32 * 0x100 + field[1] as u32;
    Ok(if named == 1 { 0x1_0000 } else { named })
}

/// What its log is.
pub(crate) fn log_on<D: Disk>(log: &mut D) -> io::Result<FoundLog>
    requires { IsTrue (D.Disk.is_usable log.old) }
    ensures { IsRead D.Disk log_in log.old log.new result }
{
    let len = log.len()?;
    let mut head = [0; LOG_HEAD_LEN];
    let head = &mut head[..len.min(LOG_HEAD_LEN)];
    log.read_at(0, head)?;
    Ok(log_of(head))
}

/// Files that are not as they were left.
pub(crate) fn failed() -> RefusedRows {
    RefusedRows::for_cause(RowsCause::DiskFailed)
}

/// What both are. Files that may be used no more are refused.
pub fn pair_on<D: Disk>(files: &mut Files<D>) -> Result<(FoundFile, FoundLog), RefusedRows>
    ensures { AreRead D.Disk files.old files.new result }
{
    if !files.may_be_used() {
        return Err(failed());
    }
    let file = file_on(&mut files.db)?;
    let log = log_on(&mut files.log)?;
    Ok((file, log))
}
