//! What a log holds, copied into its file.

ghost use Rattle.std.specs.Prelude.{IsTrue};
ghost use Rattle.sqlite_wal.specs.Log.{AreUsable, state};
ghost use Rattle.sqlite_wal.specs.Reads.{AreClean};
ghost use Rattle.sqlite_wal.specs.Recovery.{AddsNothing};
ghost use Rattle.rows_life.specs.Keeping.{KeepPages};

use crate::looking::failed;
use rows_files::{RefusedRows, RowsCause};
use rows_saved::RowsFault;
use sqlite_disk::{Disk, Files, is_no_room};
use sqlite_wal::{Error, Log, probe_page_size};
use std::alloc::Global;

/// Why rows are refused whose log is not copied.
pub(crate) fn refused_by(error: Error) -> RefusedRows {
    match error {
        Error::OutOfMemory => RefusedRows::by(RowsFault::OutOfMemory),
        Error::Io(error) if is_no_room(&error) => RefusedRows::for_cause(RowsCause::DiskFull),
        Error::Io(_) | Error::Full => RefusedRows::for_cause(RowsCause::DiskFailed),
        Error::Closed | Error::NoSuchPage | Error::Corrupt | Error::Exists => {
            RefusedRows::for_cause(RowsCause::Damaged)
        }
    }
}

/// What came of copying.
fn told(done: Result<(), Error>) -> Result<(), RefusedRows> {
    match done {
        Ok(()) => Ok(()),
        Err(error) => Err(refused_by(error)),
    }
}

/// Copies the pages in the log into the database's file, which waits for the disk, and empties the log. Its number stays.
fn empty<D: Disk>(log: &mut Log<D>) -> Result<(), Error>
    requires { AreUsable log.old }
    ensures clean { IsTrue (state log.new).is_clean → IsTrue (state log.old).is_clean }
    ensures kept { AddsNothing (state log.old).page_size (state log.old).may_leave (state log.new).may_leave }
{
    log.recover()?;
    log.finish()
}

/// The files once the pages that the log held are in the database's file. If they are not, the result says why: the files may no longer
/// be used, or the disk refuses. Wherever a crash cuts the copy off, the two files have the pages that they had.
pub(crate) fn copied<D: Disk>(
    alloc: Global,
    files: Files<D>,
    seed: u64,
) -> (Files<D>, Result<(), RefusedRows>)
    ensures clean { AreClean D.Disk result.0.log result.0.db → AreClean D.Disk files.log files.db }
    ensures kept { KeepPages D.Disk files result.0 }
{
    if !files.may_be_used() {
        return (files, Err(failed()));
    }
    let mut files = files;
    let size = match probe_page_size(&mut files) {
        Ok(Some(size)) => size,
        Ok(None) => return (files, Err(refused_by(Error::Corrupt))),
        Err(error) => return (files, Err(refused_by(Error::Io(error)))),
    };
    match Log::new(alloc, files, size, seed) {
        Ok(mut log) => {
            let done = empty(&mut log);
            (log.into_files(), told(done))
        }
        Err(failed) => (failed.value, Err(refused_by(Error::OutOfMemory))),
    }
}
