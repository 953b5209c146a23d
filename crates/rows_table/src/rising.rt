//! Whether the numbers of a listing rise.

ghost use Rattle.std.specs.Prelude.{None, ◌≡◌, ◌∷◌, true, false, List, IsTrue, IfSome};
ghost use Rattle.sqlite_value.specs.Order.{Row as RowValue, column};
ghost use Rattle.rows_table.specs.Tables.{Layout};
ghost use Rattle.rows_table.specs.Rising.{key_of, rise_from, AreListed};
ghost use Rattle.rows_table.specs.Rows.{IsListing, AreRows};

use sqlite::Row;
use sqlite::types::ValueRef;

fn key_of(row: &Row) -> Option<u64>
    ensures { result ≡ key_of (column row.now 0) }
{
    match row.get_ref(0) {
        Ok(ValueRef::Int(n)) => { if 0 <= n { Some(n as u64) } else { None } }
        _ => None,
    }
}

/// The number of a row that comes next in a listing, where it has one that is above the last.
pub fn number_above(last: Option<u64>, row: &Row) -> Option<u64>
    ensures above { IfSome result (λ number. (rows : List RowValue) → rise_from last (row.now ∷ rows) ≡ rise_from (Some number) rows) }
    ensures none { result ≡ None → (rows : List RowValue) → rise_from last (row.now ∷ rows) ≡ false }
{
    let number = key_of(row)?;
    let above = match last {
        None => true,
        Some(before) => before < number,
    };
    if above { Some(number) } else { None }
}

/// Whether the number of each row is above the one before.
fn rise(rows: &[Row]) -> bool
    ensures { result ≡ rise_from None rows.now }
{
    let mut last: Option<u64> = None;
    for row in rows {
        let Some(number) = number_above(last, row) else {
            return false;
        };
        last = Some(number);
    }
    true
}

/// Whether the numbers of the rows rise. Then a table of which they are the listing has each number once,
/// and what is found in the one is found in the other.
pub fn are_rising(rows: &[Row]) -> bool
    ensures test { result ≡ rise_from None rows.now }
    ensures table { IsTrue result → (layout : Layout) (table : _) → IsListing layout table rows.now → AreListed layout table rows.now }
{
    rise(rows)
}

/// A table whose listing rises has each number once, and what is found in the one is found in the other.
pub fn rising_is_listed()
    ensures { (layout : Layout) (table rows : List RowValue) → IsListing layout table rows → rise_from None rows ≡ true → AreListed layout table rows }
{}

/// The listing of a table that has each number once rises.
pub fn rows_rise()
    ensures { (layout : Layout) (table rows : List RowValue) → IsListing layout table rows → AreRows table → rise_from None rows ≡ true }
{}
