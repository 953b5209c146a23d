//! Which of the tables of saved rows a database has that was just opened.

ghost use Rattle.std.specs.Prelude.{◌≡◌};
ghost use Rattle.acceptor_store.specs.FoundTables.{has_station, has_tables, has_none, has_any};

use crate::layout::layout_in;
use sqlite_schema::schema::Schema;

/// Whether the table of the station is there.
fn has_station(schema: &Schema) -> bool
    ensures { result ≡ has_station schema.now }
{
    schema.table_named(b"station").is_some()
}

/// Whether the tables of saved rows are there: that of the station, and one that a layout keeps its rows in.
pub(crate) fn has_tables(schema: &Schema) -> bool
    ensures { result ≡ has_tables schema.now }
{
    has_station(schema) && layout_in(schema).is_some()
}

/// Whether none of them is there.
pub(crate) fn has_none(schema: &Schema) -> bool
    ensures { result ≡ has_none schema.now }
{
    !has_station(schema) && layout_in(schema).is_none()
}

/// Whether a table of one of their names is there, whatever its columns are.
pub(crate) fn has_any(schema: &Schema) -> bool
    ensures { result ≡ has_any schema.now }
{
    has_station(schema)
        || schema.table_named(b"acceptor_row").is_some()
        || schema.table_named(b"acceptor_entry").is_some()
}
