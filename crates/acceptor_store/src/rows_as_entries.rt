//! The rows of layout 1 as entries of layout 2.

ghost use Rattle.std.specs.Prelude.{IfOk};
ghost use Rattle.std.specs.List.{AllByRecursion};
ghost use Rattle.rows_saved.specs.Saved.{HasPromise};
ghost use Rattle.acceptor_store.specs.RowsAsEntries.{AreEntriesOf, MovesMap};

use crate::entry_columns::entry_columns_for;
use ballots::{Number, Row};
use rows_table::EntryColumns;
use std::alloc::{AllocError, Global};

/// The entries of these numbers and rows, in their order: in a table of entries they are the same map.
/// Each row has a promise.
pub(crate) fn entries_for(
    alloc: Global,
    items: &[(Number, Row)],
) -> Result<Vec<EntryColumns>, AllocError>
    requires { AllByRecursion (λ p. HasPromise p.1) items.now }
    ensures entries { IfOk result (λ entries. AreEntriesOf items.now entries.items) }
    ensures same_map { IfOk result (λ entries. MovesMap items.now entries.items) }
{
    let mut entries = Vec::new(alloc);
    for (number, row) in items {
        let entry = entry_columns_for(alloc, *number, row)?;
        entries.push(entry)?;
    }
    Ok(entries)
}
