//! Rows in two files that are open.

ghost use Rattle.std.specs.Prelude.{IfOk, IfErr};
ghost use Rattle.sqlite.specs.Files.{file_state, image_of, Finds, IsOpened};
ghost use Rattle.sqlite.specs.State.{HasCleanDisk};
ghost use Rattle.sqlite.specs.WalReads.{AreClean};
ghost use Rattle.acceptor_store.specs.Files.{AreTakenUp};
ghost use Rattle.acceptor_store.specs.Untaken.{AreUntaken, FailToOpen};

use crate::faults::{FileFault, file_fault_of};
use crate::given_up::into_files;
use crate::rows_at_path::{Wanted, rows_in_files};
use crate::sqlite_rows::SqliteRows;
use rows_saved::Identity;
use sqlite::{Connection, FileStore, Files, Options};
use sqlite_disk::Disk;
use std::alloc::Global;

/// The database that two files hold. Files that may be used no more are refused, and come back as they are.
fn opened<D: Disk + Drop>(
    alloc: Global,
    files: Files<D>,
    seed: u64,
) -> Result<Connection<FileStore<D>>, (FileFault, Files<D>)>
    ensures opened { IfOk result (λ conn. HasCleanDisk (file_state conn) → IsOpened conn) }
    ensures found { IfOk result (λ conn. HasCleanDisk (file_state conn) → Finds files conn) }
    ensures refused { IfErr result (λ e. FailToOpen D.Disk files e.0 e.1) }
{
    if !files.may_be_used() {
        return Err((FileFault::DiskFailed, files));
    }
    match Connection::open_files(alloc, files, Options::new(seed)) {
        Ok(conn) => Ok(conn),
        Err((error, left)) => Err((file_fault_of(&error), left.into_files())),
    }
}

impl<D: Disk + Drop> SqliteRows<FileStore<D>> {
    /// Takes up the rows that two files hold, as [`SqliteRows::open`] does, and tells what is the matter where there are none. Files
    /// without the tables stay without them. `seed` is to be random, for what the log is told apart by.
    ///
    /// The files come back with the fault, and hold what they held.
    pub fn open_files(
        alloc: Global,
        files: Files<D>,
        seed: u64,
        given: Option<Identity>,
    ) -> Result<SqliteRows<FileStore<D>>, (FileFault, Files<D>)>
        ensures taken { IfOk result (AreTakenUp (image_of D.Disk files) given) }

        // Where the disk has returned what was written by now, it had as the files were handed in.
        ensures honest { IfOk result (λ s. HasCleanDisk (file_state s.conn) → AreClean D.Disk files.log files.db) }

        // Why they are refused, and what comes back.
        ensures refused { IfErr result (λ e. AreUntaken D.Disk given files e.0 e.1) }
    {
        let conn = match opened(alloc, files, seed) {
            Ok(conn) => conn,
            Err(refused) => return Err(refused),
        };
        match rows_in_files(alloc, conn, Wanted::Stored(given)) {
            Ok(rows) => Ok(rows),
            Err((fault, conn)) => Err((fault, into_files(conn))),
        }
    }
}
