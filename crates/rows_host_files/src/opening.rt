//! The rows in the file at a path of the host. The file and its log are opened once, and stay locked until their rows are let go.

ghost use Rattle.std.specs.Prelude.{◌≡◌, IfOk};
ghost use Rattle.sqlite.specs.Files.{image_of};
ghost use Rattle.sqlite.specs.WalFiles.{image_at};
ghost use Rattle.rows_life.specs.Keeping.{AreSynced};
ghost use Rattle.rows_host_files.specs.Causes.{IsNotOpened};
ghost use Rattle.rows_host_files.specs.Living.{AreInLife};

use crate::life::{Chances, rows_in_life};
use crate::look::test_opening;
use acceptor_store::SqliteRows;
use rows_files::{RefusedRows, RowsCause};
use rows_saved::{Identity, RowsFault};
use sqlite::{FileFrom, FileStore, Files, Start};
use sqlite_disk::Disk;
use sqlite_std_file::OpenError;
use std::hash::{BuildHasher, RandomState};
use std::io;

/// Why rows are refused whose file and log are not opened.
fn unopened(error: OpenError) -> RefusedRows
    ensures { IsNotOpened error result }
{
    match error {
        OpenError::Io(error) => RefusedRows::from(error),
        OpenError::OutOfMemory => RefusedRows::by(RowsFault::OutOfMemory),
        OpenError::Busy => RefusedRows::for_cause(RowsCause::InUse),
        OpenError::HotJournal => RefusedRows::for_cause(RowsCause::Unopened),
    }
}

/// A random number.
fn chance(rt: &HostRuntime) -> io::Result<u64> {
    Ok(RandomState::new(rt)?.hash_one(&0u8))
}

/// The file at a path, and its log, which no other process opens by now. `start` stands for what they hold.
fn files_at<T: Start>(
    rt: &HostRuntime,
    path: &str,
    start: T,
) -> Result<Files<FileFrom<T>>, RefusedRows>
    ensures held { IfOk result (λ files. image_of ⟦<FileFrom<T> as Disk>⟧ files ≡ image_at T.Start) }
    ensures synced { IfOk result (AreSynced ⟦<FileFrom<T> as Disk>⟧) }
{
    match sqlite_std_file::open(rt, path, start) {
        Ok(files) => Ok(files),
        Err(error) => Err(unopened(error)),
    }
}

/// Takes up the rows in the file at a path, for the station that is given, if any, in a life that is begun of it. `start` stands for what the
/// file and its log hold: of code over any `T` no clause rests on what that is.
pub(crate) fn rows_at<T: Start>(
    rt: &HostRuntime,
    path: &str,
    start: T,
    given: Option<Identity>,
) -> Result<SqliteRows<FileStore<FileFrom<T>>>, RefusedRows>
    ensures { IfOk result (AreInLife (image_at T.Start) given) }
{
    // To the host's open a file that is missing is an empty one, and is made.
    test_opening(rt, path)?;
    let chances = Chances {
        life: chance(rt)?,
        log: chance(rt)?,
    };
    let files = files_at(rt, path, start)?;
    match rows_in_life(rt.alloc(), files, chances, given) {
        Ok(rows) => Ok(rows),
        Err(refused) => Err(refused),
    }
}
