//! The life of a row file, over the two files that it and its log are: it begins before a database is opened over them, and ends once that
//! is closed. They stay open, and locked, from before the first look at them here until their rows are let go: no other process comes between.

ghost use Rattle.std.specs.Prelude.{◌≡◌, IfOk, OnOk, IsTrue};
ghost use Rattle.sqlite_disk.specs.Disk.{Only};
ghost use Rattle.sqlite.specs.Files.{image_of};
ghost use Rattle.rows_files.specs.declared.found.FoundFile.TheVariants.{Database};
ghost use Rattle.rows_files.specs.declared.found.Mark.TheVariants.{Unmarkable};
ghost use Rattle.rows_life.specs.Keeping.{AreSynced};
ghost use Rattle.rows_host_files.specs.Living.{AreAsRead, AreInLife, AreReady, BeginsLife, FindsMark, TakesUp, WasMarked};

use crate::causes::refused_by;
use crate::database::ended;
use acceptor_store::SqliteRows;
use rows_files::{FoundFile, Mark, RefusedRows, RowsCause, opening_refusal};
use rows_life::{begin_life, end_life, pair_on};
use rows_saved::Identity;
use sqlite::{FileStore, Files};
use sqlite_disk::{Disk, is_no_room};
use std::alloc::Global;

/// Random numbers: one for a life, and one for the log of the database in it.
#[derive(Clone, Copy)]
pub(crate) struct Chances {
    pub(crate) life: u64,
    pub(crate) log: u64,
}

/// The mark of a file.
fn mark_of(file: FoundFile) -> Mark
    ensures { result ≡ Unmarkable → file ≡ Database Unmarkable }
{
    match file {
        FoundFile::Database(mark) => mark,
        FoundFile::Nothing | FoundFile::Foreign | FoundFile::Bare => Mark::Unmarked,
    }
}

/// The mark of two files, as they are found once no other process may change them. Files that are no pair, or no database, are refused.
fn mark_on<D: Disk>(files: &mut Files<D>) -> Result<Mark, RefusedRows>
    ensures { FindsMark D.Disk files.old files.new result }
{
    let (file, log) = pair_on(files)?;
    match opening_refusal(file, log) {
        None => Ok(mark_of(file)),
        Some(cause) => Err(RefusedRows::for_cause(cause)),
    }
}

/// Waits until the disk has a file as it is read.
fn settled<D: Disk>(file: &mut D) -> Result<(), RefusedRows>
    requires { IsTrue (D.Disk.is_usable file.old) }
    ensures seen { D.Disk.seen file.new ≡ D.Disk.seen file.old }
    ensures synced { OnOk result (Only (D.Disk.seen file.new) (D.Disk.may_leave file.new)) }
{
    match file.sync() {
        Ok(()) => Ok(()),
        Err(error) if is_no_room(&error) => Err(RefusedRows::for_cause(RowsCause::DiskFull)),
        Err(_) => Err(RefusedRows::for_cause(RowsCause::DiskFailed)),
    }
}

/// Waits until the disk has both files as they are read. Files that may be used no more are refused.
fn both_settled<D: Disk>(files: &mut Files<D>) -> Result<(), RefusedRows>
    ensures { OnOk result (AreAsRead D.Disk (image_of D.Disk files.old) files.new) }
{
    if !files.may_be_used() {
        return Err(RefusedRows::for_cause(RowsCause::DiskFailed));
    }
    settled(&mut files.log)?;
    settled(&mut files.db)
}

/// Two files with a mark, which no version before 0.3.0 set. Their rows are taken up first, as they are, and closed again, so that nothing
/// is written to the database of another program.
fn marked<D: Disk + Drop>(
    alloc: Global,
    files: Files<D>,
    seed: u64,
    given: Option<Identity>,
) -> Result<Files<D>, RefusedRows>
    ensures marked { IfOk result (λ marked. WasMarked D.Disk (image_of D.Disk files) given (image_of D.Disk marked)) }
    ensures synced { IfOk result (AreSynced D.Disk) }
{
    match SqliteRows::open_files(alloc, files, seed, given) {
        Ok(rows) => {
            let mut files = ended(rows)?;
            both_settled(&mut files)?;
            Ok(files)
        }
        Err((fault, _)) => Err(refused_by(fault)),
    }
}

/// Two files that have a mark, once a life of them is begun.
fn begun<D: Disk + Drop>(
    alloc: Global,
    files: Files<D>,
    chance: u64,
) -> Result<Files<D>, RefusedRows>
    ensures { AreSynced D.Disk files → IfOk result (BeginsLife D.Disk (image_of D.Disk files)) }
{
    let (files, done) = begin_life(alloc, files, chance);
    match done {
        Ok(()) => Ok(files),
        Err(refused) => Err(refused),
    }
}

/// Two files as a database is to be opened over them: in a life that is begun of them, unless they can't be marked.
fn ready<D: Disk + Drop>(
    alloc: Global,
    files: Files<D>,
    chances: Chances,
    given: Option<Identity>,
) -> Result<Files<D>, RefusedRows>
    ensures { AreSynced D.Disk files → IfOk result (AreReady D.Disk (image_of D.Disk files) given) }
{
    let mut files = files;
    match mark_on(&mut files)? {
        Mark::Unmarkable => Ok(files),
        Mark::AtRest | Mark::InUse(_) => begun(alloc, files, chances.life),
        Mark::Unmarked => {
            let files = marked(alloc, files, chances.log, given)?;
            begun(alloc, files, chances.life)
        }
    }
}

/// Takes up the rows in two files that are ready for it. Where they are refused, the life of the files is ended again.
fn rows_over<D: Disk + Drop>(
    alloc: Global,
    files: Files<D>,
    seed: u64,
    given: Option<Identity>,
) -> Result<SqliteRows<FileStore<D>>, RefusedRows>
    ensures { TakesUp D.Disk given files result }
{
    match SqliteRows::open_files(alloc, files, seed, given) {
        Ok(rows) => Ok(rows),
        Err((fault, files)) => {
            let mut files = files;
            let _ = end_life(&mut files);
            Err(refused_by(fault))
        }
    }
}

/// Takes up the rows in two files of the host, in a life that is begun of them.
pub(crate) fn rows_in_life<D: Disk + Drop>(
    alloc: Global,
    files: Files<D>,
    chances: Chances,
    given: Option<Identity>,
) -> Result<SqliteRows<FileStore<D>>, RefusedRows>
    ensures { AreSynced D.Disk files → IfOk result (AreInLife (image_of D.Disk files) given) }
{
    let files = ready(alloc, files, chances, given)?;
    match rows_over(alloc, files, chances.log, given) {
        Ok(rows) => Ok(rows),
        Err(refused) => Err(refused),
    }
}
