//! What a command does with all rows of a database, and the close of one over two files.

ghost use Rattle.std.specs.Prelude.{◌≡◌, IfOk, OnOk, IfErr};
ghost use Rattle.std.specs.Io.KnownBytes.{Appends};
ghost use Rattle.rows_command.specs.RowsText.{layout_text};
ghost use Rattle.command_ends.specs.Ends.{end_of, IsOfRows};
ghost use Rattle.rows_files.specs.Telling.{IsToldStill};
ghost use Rattle.rows_host_files.specs.Living.{EndsAs, WasClosed};
ghost use Rattle.rows_host_files.specs.Taking.{AreUpgraded, WereUpgraded};
ghost use Rattle.rows_host_files.specs.Watching.{IsClosedBehindLook};
ghost use Rattle.rows_host_files.specs.declared.database.RowsTask.TheVariants.{Upgrade};

use crate::causes::refused_by;
use crate::watched::{Watch, Watched, stands};
use acceptor_store::SqliteRows;
use command_ends::Fault;
use rows_command::{print_rows, upgrade_rows};
use rows_files::{RefusedRows, RowsCause};
use rows_life::end_life;
use rows_saved::{Rows, RowsFault};
use sqlite::{Alter, FileStore, Files};
use sqlite_disk::Disk;
use std::alloc::Global;
use std::io::Write;

/// What a command does with all rows of a database.
#[derive(Clone, Copy)]
pub(crate) enum RowsTask {
    /// They are listed.
    List(Global),
    /// They are upgraded to the second layout.
    Upgrade,
}

/// Does this with the rows, and gives them back where there is no fault; else they are let go.
fn carried_out<S: Alter + Drop, W: Write>(
    mut rows: SqliteRows<S>,
    task: RowsTask,
    out: &mut W,
) -> Result<SqliteRows<S>, Fault<'static>>
    ensures done { OnOk result (task ≡ Upgrade → Appends (W.contents out.old) (W.contents out.new) layout_text) }
    ensures upgraded { IfOk result (λ now. task ≡ Upgrade → AreUpgraded S.Store rows now) }
    ensures rows { IfErr result (λ fault. IsOfRows (end_of fault)) }
{
    match task {
        RowsTask::List(alloc) => print_rows(alloc, &mut rows, out)?,
        RowsTask::Upgrade => upgrade_rows(&mut rows, out)?,
    }
    Ok(rows)
}

/// The two files of a database that is closed: the one has all, and is marked as at rest. Where that is refused the files are let go, as they
/// are.
pub(crate) fn ended<D: Disk + Drop>(rows: SqliteRows<FileStore<D>>) -> Result<Files<D>, RefusedRows>
    ensures { IfOk result (EndsAs rows) }
{
    match rows.close() {
        Ok(files) => {
            let mut files = files;
            end_life(&mut files)?;
            Ok(files)
        }
        Err((fault, store)) => {
            let _files = store.close();
            Err(refused_by(fault))
        }
    }
}

/// Closes a database, and its files, and marks the one that has all as at rest.
pub(crate) fn close_database<D: Disk + Drop>(
    rows: SqliteRows<FileStore<D>>,
) -> Result<(), RefusedRows>
    ensures { OnOk result (WasClosed rows) }
{
    let _files = ended(rows)?;
    Ok(())
}

/// Closes a database where its file stands at its path now; else what it holds is kept beside that, and nothing at the path is touched.
pub(crate) fn close_where_it_stands<D: Disk + Drop, H: Watch>(
    rows: Watched<SqliteRows<FileStore<D>>, H>,
) -> Result<(), RefusedRows>
    ensures { OnOk result (IsClosedBehindLook H.looks (λ s. WasClosed s) rows) }
{
    let Watched {
        rows,
        mut watch,
        mut is_gone,
        refusals: _,
    } = rows;
    if !stands(&mut watch, &mut is_gone) {
        return Err(RefusedRows::for_cause(watch.keep()));
    }
    close_database(rows)?;
    Ok(())
}

/// A save that was refused for no cause that is known, told with the cause that is known by now; any other fault as it is.
pub(crate) fn told_with<'f>(fault: Fault<'f>, cause: RowsCause) -> Fault<'f>
    ensures told { IsToldStill (λ _. Unit {0}) fault.entry result }
{
    match fault {
        Fault::Rows(RowsFault::Store) => Fault::RowsFile(RowsFault::Store, cause.text()),
        fault => fault,
    }
}

/// Lets go of the rows of a command that came to a fault. Where their file does not stand at its path, what it holds is kept beside that, and the
/// fault tells what came of it.
pub(crate) fn let_go_of<'f, R: Rows, H: Watch>(rows: Watched<R, H>, fault: Fault<'f>) -> Fault<'f>
    ensures lets_go { IsToldStill (λ _. Unit {0}) fault.entry result }
{
    // The rows stay locked until all is kept.
    let Watched {
        rows: _rows,
        mut watch,
        mut is_gone,
        refusals: _,
    } = rows;
    if stands(&mut watch, &mut is_gone) {
        fault
    } else {
        told_with(fault, watch.keep())
    }
}

/// Does this with the rows of a database, and closes it where there is no fault and its file stands at its path. A store of files meets a function
/// over any store here alone: each such place costs the prover many seconds.
pub(crate) fn done_over<D: Disk + Drop, H: Watch, W: Write>(
    rows: Watched<SqliteRows<FileStore<D>>, H>,
    task: RowsTask,
    out: &mut W,
) -> Result<(), Fault<'static>>
    ensures ends { IfErr result (λ fault. IsOfRows (end_of fault)) }
    ensures upgraded { OnOk result (task ≡ Upgrade → WereUpgraded rows.rows) }
    ensures done { OnOk result (task ≡ Upgrade → Appends (W.contents out.old) (W.contents out.new) layout_text) }
{
    let Watched {
        rows,
        watch,
        is_gone,
        refusals,
    } = rows;
    let rows = carried_out(rows, task, out)?;
    let rows = Watched {
        rows,
        watch,
        is_gone,
        refusals,
    };
    close_where_it_stands(rows)?;
    Ok(())
}
