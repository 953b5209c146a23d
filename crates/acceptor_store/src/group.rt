//! Rows that are saved together, in one transaction.

ghost use Rattle.sqlite.specs.Held.{state};
ghost use Rattle.rows_table.specs.declared.layout.Layout.TheVariants as layouts;
ghost use Rattle.protocol.specs.Versions.{One};
ghost use Rattle.rows_saved.specs.Saved.{HasPromise};
ghost use Rattle.rows_saved.specs.Groups.{AreRowsOf};
ghost use Rattle.acceptor_store.specs.Columns.{version_in};
ghost use Rattle.acceptor_store.specs.Grouping.{SavesTogether, StagesBack, StagesEach, StagesRows, StagesEntryBack};
ghost use Rattle.acceptor_store.specs.Statements.{CanBeSaved};

use crate::columns::columns_for;
use crate::entry_columns::entry_columns_for;
use crate::statements::fault_of;
use ballots::{Number, Row};
use rows_saved::RowsFault;
use rows_table::{Layout, stage_entry, stage_row};
use sqlite::{Alter, Connection, Transaction};
use std::alloc::Global;

/// Puts a row in layout 1, which has it.
fn put_row<S: Alter>(
    alloc: Global,
    tx: &mut Transaction<'_, S>,
    number: Number,
    row: &Row,
) -> Result<(), RowsFault>
    requires { CanBeSaved One row.now }
    ensures { StagesRows S.Store (StagesBack layouts.One number row.now) result tx.old tx.new }
{
    // Which numbers there are is known once it is read.
    let _key = number.get();
    let Ok(columns) = columns_for(alloc, number, row) else {
        return Err(RowsFault::OutOfMemory);
    };
    match stage_row(tx, &columns) {
        Ok(()) => Ok(()),
        Err(error) => Err(fault_of(&error)),
    }
}

/// Puts a row in layout 2.
fn put_entry<S: Alter>(
    alloc: Global,
    tx: &mut Transaction<'_, S>,
    number: Number,
    row: &Row,
) -> Result<(), RowsFault>
    requires promise { HasPromise row.now }
    ensures { StagesRows S.Store (StagesEntryBack number row.now) result tx.old tx.new }
{
    let Ok(entry) = entry_columns_for(alloc, number, row) else {
        return Err(RowsFault::OutOfMemory);
    };
    match stage_entry(tx, &entry) {
        Ok(()) => Ok(()),
        Err(error) => Err(fault_of(&error)),
    }
}

/// Puts a row that has a promise, and that the layout has.
fn put_in<S: Alter>(
    alloc: Global,
    tx: &mut Transaction<'_, S>,
    layout: Layout,
    item: &(Number, Row),
) -> Result<(), RowsFault>
    requires { CanBeSaved (version_in layout) item.now.1 }
    ensures { StagesRows S.Store (StagesBack layout item.now.0 item.now.1) result tx.old tx.new }
{
    match layout {
        Layout::One => put_row(alloc, tx, item.0, &item.1),
        Layout::Two(_) => put_entry(alloc, tx, item.0, &item.1),
    }
}

/// Puts these rows, one after the other, in a transaction.
fn put_each<S: Alter>(
    alloc: Global,
    tx: &mut Transaction<'_, S>,
    layout: Layout,
    items: &[(Number, Row)],
) -> Result<(), RowsFault>
    requires rows { AreRowsOf (version_in layout) items.now }
    ensures { StagesRows S.Store (StagesEach layout items.now) result tx.old tx.new }
{
    for item in items {
        put_in(alloc, tx, layout, item)?;
    }
    Ok(())
}

/// Saves rows that have a promise, and that the layout has: all or none.
pub(crate) fn save_all<S: Alter>(
    alloc: Global,
    conn: &mut Connection<S>,
    layout: Layout,
    items: &[(Number, Row)],
) -> Result<(), RowsFault>
    requires rows { AreRowsOf (version_in layout) items.now }
    ensures { SavesTogether layout items.now result (state S.Store conn.old) (state S.Store conn.new) }
{
    if !conn.is_autocommit() {
        return Err(RowsFault::Store);
    }
    let mut tx = conn.transaction();
    put_each(alloc, &mut tx, layout, items)?;
    match tx.commit() {
        Ok(()) => Ok(()),
        Err(error) => Err(fault_of(&error)),
    }
}
