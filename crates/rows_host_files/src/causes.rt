//! Why a host's file of saved rows is refused, in the words of those who ask for files of rows.

ghost use Rattle.std.specs.Prelude.{◌≡◌};
ghost use Rattle.rows_host_files.specs.Causes.{refusal_of};

use acceptor_store::FileFault;
use rows_files::{RefusedRows, RowsCause};
use rows_saved::RowsFault;

/// How rows are refused whose file has this fault. A fault of theirs that tells all has no cause beside it.
pub(crate) fn refused_by(fault: FileFault) -> RefusedRows
    ensures { result ≡ refusal_of fault }
{
    match fault {
        FileFault::InUse => RefusedRows::for_cause(RowsCause::InUse),
        FileFault::Unmade => RefusedRows::for_cause(RowsCause::Unmade),
        FileFault::Made => RefusedRows::for_cause(RowsCause::Made),
        FileFault::Damaged => RefusedRows::for_cause(RowsCause::Damaged),
        FileFault::Unopened => RefusedRows::for_cause(RowsCause::Unopened),
        FileFault::DiskFull => RefusedRows::for_cause(RowsCause::DiskFull),
        FileFault::DiskFailed => RefusedRows::for_cause(RowsCause::DiskFailed),
        FileFault::Rows(RowsFault::Store) => RefusedRows::for_cause(RowsCause::Unread),
        FileFault::Rows(fault) => RefusedRows::by(fault),
    }
}
