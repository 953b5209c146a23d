//! The upgrade of the rows of layout 1 to layout 2.

ghost use Rattle.std.specs.Prelude.{[]};
ghost use Rattle.rows_table.specs.declared.layout.Layout.TheVariants.{One};
ghost use Rattle.rows_table.specs.Entries.{with_entries};
ghost use Rattle.acceptor_store.specs.Upgrading.{MovesEntries, TestsUpgraded, Upgrades};

use crate::rows_as_entries::entries_for;
use crate::statements::{fault_of, list};
use rows_saved::RowsFault;
use rows_table::{EntryColumns, Layout, get_row, upgrade_tables};
use sqlite::{Alter, Connection};
use std::alloc::Global;

/// Puts these entries, which hold the map of layout 1, into a table of entries that is made for them, and sets the layout, in one transaction.
fn move_entries<S: Alter>(
    conn: &mut Connection<S>,
    entries: &[EntryColumns],
) -> Result<(), RowsFault>
    ensures { MovesEntries S.Store (with_entries entries.now []) result conn.old conn.new }
{
    if !conn.is_autocommit() {
        return Err(RowsFault::Store);
    }
    match upgrade_tables(conn, entries) {
        Ok(()) => Ok(()),
        Err(error) => Err(fault_of(&error)),
    }
}

/// Reads and packs all rows of layout 1, and moves them to layout 2.
fn move_rows<S: Alter>(alloc: Global, conn: &mut Connection<S>) -> Result<(), RowsFault>
    ensures { Upgrades S.Store One result conn.old conn.new }
{
    let items = list(alloc, conn, Layout::One)?;
    let Ok(entries) = entries_for(alloc, items.as_slice()) else {
        return Err(RowsFault::OutOfMemory);
    };
    move_entries(conn, entries.as_slice())
}

/// Tests that a connection still answers what is saved in layout 2. Nothing is written.
fn test_open<S: Alter>(conn: &mut Connection<S>, layout: Layout) -> Result<(), RowsFault>
    ensures { TestsUpgraded S.Store layout result conn.old conn.new }
{
    match get_row(conn, layout, 1) {
        Ok(_) => Ok(()),
        Err(error) => Err(fault_of(&error)),
    }
}

/// Goes over to layout 2 with the rows of layout 1; from layout 2 nothing is changed.
pub(crate) fn upgrade_rows<S: Alter>(
    alloc: Global,
    conn: &mut Connection<S>,
    layout: Layout,
) -> Result<(), RowsFault>
    ensures { Upgrades S.Store layout result conn.old conn.new }
{
    match layout {
        Layout::One => move_rows(alloc, conn),
        Layout::Two(_) => test_open(conn, layout),
    }
}
