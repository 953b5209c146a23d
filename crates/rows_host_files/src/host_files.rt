//! Saved rows in files of the host, each a database.

ghost use Rattle.tape_frames.specs.Entries.{version_of};
ghost use Rattle.rows_host_files.specs.Living.{WasClosed};
ghost use Rattle.rows_host_files.specs.Taking.{AreOpened, HasMade, HasUpgraded};
ghost use Rattle.rows_host_files.specs.Watching.{IsClosedBehindLook};

use crate::causes::refused_by;
use crate::database::{RowsTask, close_where_it_stands, done_over, let_go_of};
use crate::known_rows;
use crate::look::test_opening;
use crate::making::Making;
use crate::opening::rows_at;
use crate::watch::{HostWatch, found_at, paths_at};
use crate::watched::{Watch, Watched};
use acceptor_store::{FileFault, SqliteRows};
use command_ends::Fault;
use gone_out::Known;
use rows_files::{NewRows, RefusedRows, RowFiles};
use rows_saved::Identity;
use sqlite::{FileFrom, FileStore, Wary};
use sqlite_disk::Disk;
use std::alloc::Global;
use std::io::Write;

/// The database in a file. The database supposes nothing of a torn write, since a story that is lost to one would be a
/// promise broken.
type Database = SqliteRows<FileStore<FileFrom<Wary>>>;

/// The database, saved only while its file stands at its path.
type WatchedRows = Watched<Database, HostWatch>;

/// The files of the host.
#[derive(Clone, Copy)]
pub struct HostFiles;

impl RowFiles for HostFiles {
    type Rows = WatchedRows;

    // Whoever has the program has its files; what of a call asks for a file to be made stands in the contracts above.
    ghost may_make = { λ _. Unit {0} };

    // Which refusals the host answers with is not known.
    ghost refuses = { λ _ _. Unit {0} };

    ghost leaves = { λ _ _ i version. HasMade ⟦<FileFrom<Wary> as Disk>⟧ i (version_of version) };

    ghost opens = { λ _ _ given rows. AreOpened given rows.rows };

    ghost upgrades = { λ _ _. HasUpgraded ⟦<FileFrom<Wary> as Disk>⟧ };

    // A look found file and log at their paths before.
    ghost closes = { λ _ rows. IsClosedBehindLook ⟦<HostWatch as Watch>⟧.looks (λ s. WasClosed s) rows };

    /// What a making that is refused leaves under the other name is removed.
    fn make(&self, rt: &HostRuntime, new: NewRows<'_>) -> Result<(), RefusedRows> {
        let making = Making::at(rt, new.path)?;
        match making.make(rt, new) {
            Ok(()) => Ok(()),
            Err(refused) => {
                let _ = making.clear(rt);
                Err(refused)
            }
        }
    }

    fn open(
        &self,
        rt: &HostRuntime,
        path: &str,
        identity: Option<Identity>,
    ) -> Result<WatchedRows, RefusedRows> {
        test_opening(rt, path)?;
        let paths = paths_at(rt, path)?;
        let before = found_at(rt, &paths);
        let rows = rows_at(rt, path, Wary, identity)?;
        let watch = HostWatch::behind(rt, paths, before)?;
        Ok(Watched {
            rows,
            watch,
            is_gone: false,
            refusals: 0,
        })
    }

    fn known(&self, alloc: Global, rows: &mut WatchedRows) -> Result<Known, RefusedRows> {
        match known_rows(alloc, &mut rows.rows) {
            Ok(known) => Ok(known),
            Err(fault) => Err(refused_by(FileFault::Rows(fault))),
        }
    }

    fn close(&self, rows: WatchedRows) -> Result<(), RefusedRows> {
        close_where_it_stands(rows)?;
        Ok(())
    }

    fn let_go<'f>(&self, rows: WatchedRows, fault: Fault<'f>) -> Fault<'f> {
        let_go_of(rows, fault)
    }

    fn list<W: Write>(
        &self,
        rt: &HostRuntime,
        path: &str,
        out: &mut W,
    ) -> Result<(), Fault<'static>> {
        let rows = self.open(rt, path, None)?;
        done_over(rows, RowsTask::List(rt.alloc()), out)
    }

    fn upgrade<W: Write>(
        &self,
        rt: &HostRuntime,
        path: &str,
        out: &mut W,
    ) -> Result<(), Fault<'static>> {
        let rows = self.open(rt, path, None)?;
        done_over(rows, RowsTask::Upgrade, out)
    }
}
