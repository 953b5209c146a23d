//! All numbers that have a saved row.

ghost use Rattle.std.specs.Prelude.{◌≡◌, ◌≤◌, IsTrue, IsErr, IfOk, OnOk};
ghost use Rattle.rows_saved.specs.Saved.{SameRows};
ghost use Rattle.acceptor_store.specs.Sqlite.{IsKept, IsOpen, LeavesNoOther, saved_of};
ghost use Rattle.rows_files.specs.Knowing.{KnowsAll};

use crate::collecting::Collector;
use acceptor_store::SqliteRows;
use gone_out::Known;
use rows_saved::RowsFault;
use sqlite::Alter;
use std::alloc::Global;

/// Which numbers have a saved row, and which of these rows have a vote. The rows are read one by one; no list of them is kept, and no row
/// is changed.
///
/// It is refused as [`SqliteRows::visit`] is; with `OutOfMemory`, and before a row is read, where there is no room for the numbers.
pub fn known_rows<S: Alter + Drop>(
    alloc: Global,
    rows: &mut SqliteRows<S>,
) -> Result<Known, RowsFault>
    ensures known { IsKept S.Store rows.new → IfOk result (KnowsAll (saved_of S.Store rows.old)) }

    // No row is written.
    ensures open { IsKept S.Store rows.new → OnOk result (IsOpen S.Store rows.new) }
    ensures same { IsKept S.Store rows.new → IsOpen S.Store rows.new → SameRows (saved_of S.Store rows.old) (saved_of S.Store rows.new) }
    ensures crash { IsKept S.Store rows.new → LeavesNoOther S.Store rows.old rows.new }
    ensures was_kept { IsKept S.Store rows.new → IsKept S.Store rows.old }
    ensures was_open { IsKept S.Store rows.new → IsOpen S.Store rows.new → IsOpen S.Store rows.old }
    ensures counts { rows.old.refusals ≤ rows.new.refusals }
    ensures stays { (rows.new.stopped ≡ rows.old.stopped) × (rows.new.identity ≡ rows.old.identity) × (rows.new.layout ≡ rows.old.layout) }

    // What the store owes stays as it was.
    ensures ours { (rows.new.alone ≡ rows.old.alone) × (rows.new.was ≡ rows.old.was) × (rows.new.found ≡ rows.old.found) }

    // After a refused save nothing is known.
    ensures stopped { IsTrue rows.old.stopped → IsErr result }
{
    let Ok(mut collector) = Collector::new(alloc) else {
        return Err(RowsFault::OutOfMemory);
    };
    match rows.visit(&mut collector) {
        Ok(_) => Ok(collector.known),
        Err(fault) => Err(fault),
    }
}
