//! Rows whose file is closed.

ghost use Rattle.std.specs.Prelude.{IfOk, IfErr};
ghost use Rattle.sqlite.specs.Closing.{IsCopied};
ghost use Rattle.sqlite.specs.Files.{IsClosed};
ghost use Rattle.sqlite.specs.WalReads.{AreClean};
ghost use Rattle.acceptor_store.specs.Faults.{rows_fault};
ghost use Rattle.acceptor_store.specs.Files.{KeepsRowsAlone};
ghost use Rattle.acceptor_store.specs.Restarts.{GivesUp};
ghost use Rattle.acceptor_store.specs.Sqlite.{IsRefusal};

use crate::faults::{FileFault, file_fault_of};
use crate::sqlite_rows::SqliteRows;
use sqlite::{FileStore, Files};
use sqlite_disk::Disk;

impl<D: Disk + Drop> SqliteRows<FileStore<D>> {
    /// Closes the database: what its log holds is copied into its file, so that this alone holds the rows, also after a
    /// crash. The two files come back; whatever a crash leaves of them, the next start finds it as after any other end.
    ///
    /// Where the disk or memory refuses, the files hold together what they held; the database comes back with the fault.
    pub fn close(self) -> Result<Files<D>, (FileFault, FileStore<D>)>
        ensures copied { IfOk result (λ files. AreClean D.Disk files.log files.db → IsCopied self.conn files) }
        ensures rows { IfOk result (KeepsRowsAlone self) }
        ensures gives_up { IfOk result (GivesUp D.Disk self.conn) }
        ensures refusal { IfErr result (λ e. IsRefusal (rows_fault e.0)) }
        ensures left { IfErr result (λ e. IsClosed self.conn e.1) }
    {
        match self.into_connection().close_files() {
            Ok(files) => Ok(files),
            Err((error, store)) => Err((file_fault_of(&error), store)),
        }
    }
}
