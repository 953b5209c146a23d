//! The layouts of a database of saved rows.

ghost use Rattle.std.specs.Prelude.{◌≡◌, None, IfSome};
ghost use Rattle.tape_frames.specs.Entries.{version_of};
ghost use Rattle.rows_table.specs.declared.layout.Layout.{Layout as LayoutValue};
ghost use Rattle.rows_table.specs.Tables.{layout_schema};
ghost use Rattle.acceptor_store.specs.Columns.{version_in};
ghost use Rattle.acceptor_store.specs.Layouts.{upgraded_from, made_in, layout_by, layout_in, table_with};

use rows_table::{Layout, LayoutOrigin};
use sqlite_schema::schema::Schema;
use tape_frames::Version;

/// The version of the rows that a layout keeps.
pub(crate) fn version_in(layout: Layout) -> Version
    ensures { version_of result ≡ version_in layout }
{
    match layout {
        Layout::One => Version::One,
        Layout::Two(_) => Version::Two,
    }
}

/// The layout that rows of a version are made in.
pub(crate) fn made_in(version: Version) -> Layout
    ensures { result ≡ made_in (version_of version) }
{
    match version {
        Version::One => Layout::One,
        Version::Two => Layout::Two(LayoutOrigin::Created),
    }
}

/// The layout of rows that were upgraded from this one.
pub(crate) fn upgraded_from(layout: Layout) -> Layout
    ensures { result ≡ upgraded_from layout }
{
    match layout {
        Layout::One => Layout::Two(LayoutOrigin::Upgraded),
        Layout::Two(_) => layout,
    }
}

/// The layout of a database with a table of rows at the one place and a table of entries at the other, if they are there.
fn layout_by(rows: Option<usize>, entries: Option<usize>) -> Option<Layout>
    ensures { result ≡ layout_by rows entries }
{
    match (rows, entries) {
        (Some(_), None) => Some(Layout::One),
        (None, Some(_)) => Some(Layout::Two(LayoutOrigin::Created)),
        (Some(_), Some(_)) => Some(Layout::Two(LayoutOrigin::Upgraded)),
        (None, None) => None,
    }
}

/// The place of the first table that has this name and a column of that name.
fn table_with(schema: &Schema, name: &[u8], column: &[u8]) -> Option<usize>
    ensures { result ≡ table_with schema.now name.now column.now }
{
    let mut tables = schema.tables.as_slice().iter();
    tables.position(|t| t.is_named(name) && t.column_named(column).is_some())
}

/// The layout that the tables of a schema tell, by their names and by the column that the one or the other keeps an entry in;
/// `None` where no table of saved rows is among them. A table of another program that has the name alone is none.
pub(crate) fn layout_in(schema: &Schema) -> Option<Layout>
    ensures value { result ≡ layout_in schema.now }
    ensures laid { (layout : LayoutValue) → schema.now ≡ layout_schema layout → IfSome result (λ l. l ≡ layout) }
    ensures none { result ≡ None → (layout : LayoutValue) → ¬ (schema.now ≡ layout_schema layout) }
{
    let rows = table_with(schema, b"acceptor_row", b"tape");
    let entries = table_with(schema, b"acceptor_entry", b"packed");
    layout_by(rows, entries)
}
