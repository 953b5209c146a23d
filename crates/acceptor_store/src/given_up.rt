//! What is left of a database whose program ends without closing it.

ghost use Rattle.acceptor_store.specs.Restarts.{GivesUp};

use sqlite::{Connection, FileStore, Files};
use sqlite_disk::Disk;

/// The two files of a database, given up as they are: nothing is copied out of the log, as where the program that holds
/// them dies.
///
/// Whatever a crash leaves of them, they hold a database that a crash could leave before.
pub fn into_files<D: Disk + Drop>(conn: Connection<FileStore<D>>) -> Files<D>
    ensures { GivesUp D.Disk conn result }
{
    conn.into_store().close()
}
