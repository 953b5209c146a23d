//! Rows read and saved by the statements of the tables.

ghost use Rattle.std.specs.Prelude.{◌≤◌};
ghost use Rattle.sqlite.specs.Held.{state};
ghost use Rattle.rows_table.specs.declared.layout.LayoutOrigin.{LayoutOrigin};
ghost use Rattle.rows_table.specs.declared.layout.Layout.TheVariants as layouts;
ghost use Rattle.protocol.specs.Versions.{One};
ghost use Rattle.protocol.specs.Limits.{last_number};
ghost use Rattle.rows_saved.specs.Saved.{HasPromise};
ghost use Rattle.acceptor_store.specs.Columns.{version_in};
ghost use Rattle.acceptor_store.specs.Sqlite.{IsRefusal};
ghost use Rattle.acceptor_store.specs.Statements.{CanBeSaved, ListsSaved, ReadsSaved, Saves};

use crate::columns::{columns_for, damage_in, items_in, row_in};
use crate::entry_columns::entry_columns_for;
use ballots::{Number, Row};
use rows_saved::RowsFault;
use rows_table::{Layout, all_rows, are_rising, get_row, put_entry, put_row};
use sqlite::{Alter, Connection, Error, ErrorCode};
use std::alloc::Global;

/// What a refused statement is told as.
pub(crate) fn fault_of(error: &Error) -> RowsFault
    ensures { IsRefusal result }
{
    match error {
        Error::SqliteFailure(ErrorCode::OutOfMemory) => RowsFault::OutOfMemory,
        _ => RowsFault::Store,
    }
}

/// Saves a row in layout 1, which has it: one statement.
fn save_row<S: Alter>(
    alloc: Global,
    conn: &mut Connection<S>,
    number: Number,
    row: &Row,
) -> Result<(), RowsFault>
    requires { CanBeSaved One row.now }
    ensures { Saves layouts.One number row.now result (state S.Store conn.old) (state S.Store conn.new) }
{
    let Ok(columns) = columns_for(alloc, number, row) else {
        return Err(RowsFault::OutOfMemory);
    };
    match put_row(conn, &columns) {
        Ok(_) => Ok(()),
        Err(error) => Err(fault_of(&error)),
    }
}

/// Saves a row in layout 2: one statement.
fn save_entry<S: Alter>(
    alloc: Global,
    conn: &mut Connection<S>,
    number: Number,
    row: &Row,
) -> Result<(), RowsFault>
    requires promise { HasPromise row.now }
    ensures { (origin : LayoutOrigin) → Saves (layouts.Two origin) number row.now result (state S.Store conn.old) (state S.Store conn.new) }
{
    let Ok(entry) = entry_columns_for(alloc, number, row) else {
        return Err(RowsFault::OutOfMemory);
    };
    match put_entry(conn, &entry) {
        Ok(_) => Ok(()),
        Err(error) => Err(fault_of(&error)),
    }
}

/// A row, and the number that it is saved under.
#[derive(Clone, Copy)]
pub(crate) struct Numbered<'a> {
    pub(crate) number: Number,
    pub(crate) row: &'a Row,
}

/// Saves a row that has a promise, and that the layout has.
pub(crate) fn save<S: Alter>(
    alloc: Global,
    conn: &mut Connection<S>,
    layout: Layout,
    item: Numbered<'_>,
) -> Result<(), RowsFault>
    requires { CanBeSaved (version_in layout) item.row.now }
    ensures saves { Saves layout item.entry.number item.entry.row.now result (state S.Store conn.old) (state S.Store conn.new) }
    ensures number { (1 ≤ item.entry.number) × (item.entry.number ≤ last_number) }
{
    // Which numbers there are is known once it is read.
    let _key = item.number.get();
    match layout {
        Layout::One => save_row(alloc, conn, item.number, item.row),
        Layout::Two(_) => save_entry(alloc, conn, item.number, item.row),
    }
}

/// Reads the row of a number, blank where there is none. The version of the layout has it.
pub(crate) fn read<S: Alter>(
    alloc: Global,
    conn: &mut Connection<S>,
    layout: Layout,
    number: Number,
) -> Result<Row, RowsFault>
    ensures { ReadsSaved layout number result (state S.Store conn.old) (state S.Store conn.new) }
{
    let mut rows = match get_row(conn, layout, number.get()) {
        Ok(rows) => rows,
        Err(error) => return Err(fault_of(&error)),
    };
    let Some(columns) = rows.pop() else {
        return Ok(Row::blank());
    };
    match row_in(alloc, layout, &columns, 0) {
        Ok(Some(row)) => Ok(row),
        Ok(None) => Err(RowsFault::Damaged {
            number: i64::from(number.get()),
        }),
        Err(_) => Err(RowsFault::OutOfMemory),
    }
}

/// Reads all rows, in order of their numbers. The version of the layout has each.
pub(crate) fn list<S: Alter>(
    alloc: Global,
    conn: &mut Connection<S>,
    layout: Layout,
) -> Result<Vec<(Number, Row)>, RowsFault>
    ensures { ListsSaved layout result (state S.Store conn.old) (state S.Store conn.new) }
{
    let rows = match all_rows(conn, layout) {
        Ok(rows) => rows,
        Err(error) => return Err(fault_of(&error)),
    };
    if !are_rising(rows.as_slice()) {
        return Err(RowsFault::Store);
    }
    if let Some(number) = damage_in(layout, rows.as_slice()) {
        return Err(RowsFault::Damaged { number });
    }
    match items_in(alloc, layout, rows.as_slice()) {
        Ok(items) => Ok(items),
        Err(_) => Err(RowsFault::OutOfMemory),
    }
}
