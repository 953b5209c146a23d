//! The queries on the table that a layout keeps its rows in.

ghost use Rattle.sqlite.specs.Held.{state};
ghost use Rattle.rows_table.specs.Reading.{FindsRow, HandsRows, ListsRows};

use crate::cursor::{TableVisitor, each_row};
use crate::layout::{Layout, all_text, get_text};
use sqlite::{Alter, Connection, Error, Row, params};

/// The columns that are saved under a number, beside that number: at most one row.
///
/// An error comes where the database refuses the statement: where the table is missing, or the disk fails, or memory is refused. Nothing is then changed.
pub fn get_row<S: Alter>(
    conn: &mut Connection<S>,
    layout: Layout,
    number: u32,
) -> Result<Vec<Row>, Error>
    ensures { FindsRow layout number result (state S.Store conn.old) (state S.Store conn.new) }
{
    conn.query_all(get_text(layout), params![number])
}

/// All rows, each with its number first, by their numbers.
///
/// An error comes where the database refuses the statement, as in `get_row`.
pub fn all_rows<S: Alter>(conn: &mut Connection<S>, layout: Layout) -> Result<Vec<Row>, Error>
    ensures { ListsRows layout result (state S.Store conn.old) (state S.Store conn.new) }
{
    conn.query_all(all_text(layout), &[])
}

/// Shows all rows to a visitor, one by one, each with its number first, by their numbers, and answers whether these were all of them.
///
/// They are not all where the visitor wanted no more. An error comes where the database refuses the statement, as in `get_row`;
/// the visitor may have seen rows by then.
pub fn visit_rows<S: Alter, T: TableVisitor>(
    conn: &mut Connection<S>,
    layout: Layout,
    visitor: &mut T,
) -> Result<bool, Error>
    ensures { HandsRows layout T.saw T.has_enough visitor.old visitor.new result (state S.Store conn.old) (state S.Store conn.new) }
{
    each_row(conn, all_text(layout), visitor)
}
