//! Rows that are seen one by one as a query reads them, so that no list of them is kept.

ghost use Rattle.std.specs.Prelude.{◌≡◌, ◌++◌, ◌∷◌, [], false, List, IfOk};
ghost use Rattle.sqlite_value.specs.Order.{Row as RowValue};
ghost use Rattle.sqlite.specs.State.{Survives, CommitsShowing};
ghost use Rattle.sqlite.specs.Held.{state};
ghost use Rattle.rows_table.specs.Cursor.{ReadsWithoutChange, SeesAllShown, SeesFirstGiven, WritesNothingWhereRefused};

use sqlite::{Alter, Connection, Error, ErrorCode, Row};

/// What the rows of a table are shown to, one by one and in their order.
pub trait TableVisitor {
    // Seeing these rows, in this order, leads from the one visitor to the other.
    ghost saw: { Self → Self → List RowValue → Type 0 };

    // It has all that it wants.
    ghost has_enough: { Self → Type 0 };

    /// Sees the next row, and answers whether it wants the one after it.
    fn see(&mut self, row: &Row) -> bool
        ensures saw { (first : Self) (rows : List RowValue) → saw first self.old rows → saw first self.new (rows ++ row.now ∷ []) }
        ensures enough { result ≡ false → has_enough self.new };

    // Seeing none leads nowhere.
    ghost saw_none: { (it : Self) → saw it it [] };
}

/// Shows the rows of a query to a visitor, and answers whether these were all of them.
///
/// They are not all where the visitor wanted no more. An error comes where the database refuses the query, or the rows are more than 64 bits count;
/// the visitor may have seen rows by then.
pub(crate) fn each_row<S: Alter, T: TableVisitor>(
    conn: &mut Connection<S>,
    sql: &str,
    visitor: &mut T,
) -> Result<bool, Error>
    ensures all { SeesAllShown T.saw visitor.old visitor.new sql.now result (state S.Store conn.old) (state S.Store conn.new) }
    ensures enough { IfOk result (λ all. all ≡ false → T.has_enough visitor.new) }

    // However it ends, the visitor has seen the first of them, or is as it was.
    ensures front { SeesFirstGiven T.saw visitor.old visitor.new sql.now (state S.Store conn.old) (state S.Store conn.new) }

    // It has seen some rows, and nothing else.
    ensures only { (rows : List RowValue) × T.saw visitor.old visitor.new rows }
    ensures same { ReadsWithoutChange sql.now result (state S.Store conn.old) (state S.Store conn.new) }
    ensures err { WritesNothingWhereRefused sql.now result (state S.Store conn.old) (state S.Store conn.new) }
    ensures mode { conn.old.in_transaction ≡ false → conn.new.in_transaction ≡ false }
    ensures survives { Survives (state S.Store conn.old) (state S.Store conn.new) (CommitsShowing sql.now [] (state S.Store conn.old)) }
{
    let mut rows = conn.query(sql, &[])?;
    'rows: for _ in 0..u64::MAX {
        let Some(row) = rows.next()? else {
            return Ok(true);
        };
        if !visitor.see(row) {
            return Ok(false);
        }
    }
    Err(Error::SqliteFailure(ErrorCode::OperationInterrupted))
}
