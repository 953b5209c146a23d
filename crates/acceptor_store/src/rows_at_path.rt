//! Rows in the file at a path, and what is the matter where there are none.

ghost use Rattle.std.specs.Prelude.{IfOk, IfErr};
ghost use Rattle.sqlite.specs.Files.{file_state, over_files};
ghost use Rattle.sqlite.specs.WalFiles.{image_at};
ghost use Rattle.tape_frames.specs.Entries.{version_of};
ghost use Rattle.rows_saved.specs.Identity.{IsIdentity};
ghost use Rattle.acceptor_store.specs.Taking.{AreAsWanted, CanBeMade, GivesWanted, IsRefused};
ghost use Rattle.acceptor_store.specs.declared.rows_at_path.Wanted.TheVariants.{Stored, Made};

use crate::faults::{FileFault, file_fault_of, test_unmade};
use crate::found_tables::has_none;
use crate::given_up::into_files;
use crate::sqlite_rows::SqliteRows;
use rows_saved::Identity;
use sqlite::{Alter, Connection, FileFrom, FileStore, Start};
use sqlite_disk::Disk;
use std::alloc::Global;
use tape_frames::Version;

/// What new tables are made for: a station, at a version.
#[derive(Clone, Copy)]
pub struct NewTables {
    pub identity: Identity,
    pub version: Version,
}

/// What is wanted of a database: the rows in it, or new tables.
#[derive(Clone, Copy)]
pub(crate) enum Wanted {
    /// The rows that it holds: those of this station, or whosever they are where none is given.
    Stored(Option<Identity>),
    /// Tables for this station, in the layout that rows of this version are made in.
    Made(Identity, Version),
}

/// Opens the rows of a database, as [`SqliteRows::open`] does, and tells what is the matter where there are none.
fn open_rows<S: Alter + Drop>(
    alloc: Global,
    conn: Connection<S>,
    given: Option<Identity>,
) -> Result<SqliteRows<S>, (FileFault, Connection<S>)>
    ensures { GivesWanted S.Store (Stored given) conn result }
{
    if has_none(conn.schema()) {
        return Err((FileFault::Unmade, conn));
    }
    match SqliteRows::open(alloc, conn, given) {
        Ok(rows) => Ok(rows),
        Err((fault, conn)) => Err((FileFault::Rows(fault), conn)),
    }
}

/// Makes the tables of a station in a database, as [`SqliteRows::create`] does, and tells what is the matter where they are not made.
#[tactic(auto, using(crate::proofs::MakingLemmas::unmade_by))]
fn make_rows<S: Alter + Drop>(
    alloc: Global,
    conn: Connection<S>,
    identity: Identity,
    version: Version,
) -> Result<SqliteRows<S>, (FileFault, Connection<S>)>
    requires { IsIdentity identity }
    ensures { GivesWanted S.Store (Made identity version) conn result }
{
    match test_unmade(conn.schema()) {
        Ok(()) => {}
        Err(fault) => return Err((fault, conn)),
    }
    match SqliteRows::make(alloc, conn, identity, version) {
        Ok(rows) => Ok(rows),
        Err((fault, conn)) => Err((fault, conn)),
    }
}

/// Opens the rows of a database or makes its tables, whichever is wanted. A database that is refused comes back.
fn wanted_rows<S: Alter + Drop>(
    alloc: Global,
    conn: Connection<S>,
    wanted: Wanted,
) -> Result<SqliteRows<S>, (FileFault, Connection<S>)>
    requires { CanBeMade wanted }
    ensures { GivesWanted S.Store wanted conn result }
{
    match wanted {
        Wanted::Stored(given) => open_rows(alloc, conn, given),
        Wanted::Made(identity, version) => make_rows(alloc, conn, identity, version),
    }
}

/// The same over two files. A store of files meets a function over any store here, for all who open one: each such place costs
/// the prover many seconds.
pub(crate) fn rows_in_files<D: Disk + Drop>(
    alloc: Global,
    conn: Connection<FileStore<D>>,
    wanted: Wanted,
) -> Result<SqliteRows<FileStore<D>>, (FileFault, Connection<FileStore<D>>)>
    requires { CanBeMade wanted }
    ensures { GivesWanted over_files wanted conn result }
{
    wanted_rows(alloc, conn, wanted)
}

/// The same for who wants no database back: one that is refused is given up, its files as they are.
fn rows_or_fault<D: Disk + Drop>(
    alloc: Global,
    conn: Connection<FileStore<D>>,
    wanted: Wanted,
) -> Result<SqliteRows<FileStore<D>>, FileFault>
    requires { CanBeMade wanted }
    ensures taken { IfOk result (AreAsWanted over_files wanted (file_state conn)) }
    ensures fault { IfErr result (IsRefused over_files wanted conn) }
{
    match rows_in_files(alloc, conn, wanted) {
        Ok(rows) => Ok(rows),
        Err((fault, conn)) => {
            let _files = into_files(conn);
            Err(fault)
        }
    }
}

impl<T: Start> SqliteRows<FileStore<FileFrom<T>>> {
    ghost use Rattle.acceptor_store.specs.Files.{AreMadeIn};
    ghost use Rattle.acceptor_store.specs.Untaken.{AreUnmade};

    /// Makes the tables of a station in the file at a path, as [`SqliteRows::create`] does, and tells what is the matter
    /// where they are not made. A file that is not there is made; one that holds the tables stays as it is. `start` is as for
    /// `Connection::open_from`.
    pub fn create_at(
        rt: &HostRuntime,
        path: &str,
        start: T,
        new: NewTables,
    ) -> Result<SqliteRows<FileStore<FileFrom<T>>>, FileFault>
        requires { IsIdentity new.identity }
        ensures made { IfOk result (AreMadeIn (image_at T.Start) new.identity (version_of new.version)) }
        ensures fault { IfErr result (AreUnmade ⟦<FileFrom<T> as Disk>⟧ (image_at T.Start) new.identity (version_of new.version)) }
    {
        match Connection::open_from(rt, path, false, start) {
            Ok(conn) => rows_or_fault(rt.alloc(), conn, Wanted::Made(new.identity, new.version)),
            Err((error, _)) => Err(file_fault_of(&error)),
        }
    }
}
