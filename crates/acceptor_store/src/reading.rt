//! Saved rows that are shown one by one, as they are read.

ghost use Rattle.std.specs.Prelude.{◌≡◌, ◌⊎◌, ◌++◌, ◌∷◌, [], ℕ, false, None, Some, List, IsSome, IfOk, IfErr, refl};
ghost use Rattle.sqlite_value.specs.Order.{column};
ghost use Rattle.sqlite.specs.Held.{state};
ghost use Rattle.protocol.specs.Rows.{Row as RowValue};
ghost use Rattle.acceptor_store.specs.Columns.{row_in, damage_of, item_in};
ghost use Rattle.acceptor_store.specs.Sqlite.{IsRefusal};
ghost use Rattle.acceptor_store.specs.Reading.{HasSeen, ShowsRows};

use crate::columns::{damage_of, item_in};
use crate::statements::fault_of;
use ballots::{Number, Row};
use rows_saved::RowsFault;
use rows_table::{Layout, TableVisitor, number_above, rising_is_listed, rows_rise, visit_rows};
use sqlite::{Alter, Connection};
use std::alloc::Global;

/// What saved rows are shown to, one by one and in order of their numbers.
pub trait RowVisitor {
    // Seeing these numbers and rows, in this order, leads from the one visitor to the other.
    ghost saw: { Self → Self → List (ℕ × RowValue) → Type 0 };

    // It has all that it wants.
    ghost has_enough: { Self → Type 0 };

    /// Sees the next row, and answers whether it wants the one after it.
    fn see(&mut self, number: Number, row: &Row) -> bool
        ensures saw { (first : Self) (items : List (ℕ × RowValue)) → saw first self.old items → saw first self.new (items ++ (number, row.now) ∷ []) }
        ensures enough { result ≡ false → has_enough self.new };

    // Seeing none leads nowhere.
    ghost saw_none: { (it : Self) → saw it it [] };
}

/// The number and the row that come next in a listing, behind the last number; or what is wrong with them, as a listing of all rows tells it.
fn next_item(
    alloc: Global,
    layout: Layout,
    last: Option<u64>,
    columns: &sqlite::Row,
) -> Result<(Number, Row), RowsFault>
    ensures item { IfOk result (λ item. item_in layout columns.now ≡ Some item) }
    ensures fault { IfErr result (λ fault. IsRefusal fault ⊎ IsSome (damage_of (column columns.now 0) (row_in layout 1 columns.now))) }
{
    if number_above(last, columns).is_none() {
        return Err(RowsFault::Store);
    }
    if let Some(number) = damage_of(layout, columns) {
        return Err(RowsFault::Damaged { number });
    }
    match item_in(alloc, layout, columns) {
        Ok(Some(item)) => Ok(item),
        Ok(None) => Err(RowsFault::Store),
        Err(_) => Err(RowsFault::OutOfMemory),
    }
}

/// Shows the rows of a listing to a visitor, up to the first that is no saved row.
#[derive(Drop)]
struct RowReader<'a, V: RowVisitor> {
    alloc: Global,
    layout: Layout,
    visitor: &'a mut V,
    /// The number of the last row.
    last: Option<u64>,
    /// What was wrong with a row.
    fault: Option<RowsFault>,
}

impl<V: RowVisitor> TableVisitor for RowReader<'_, V> {
    ghost saw = { λ old new rows. (old.visitor.ghost_name ≡ new.visitor.ghost_name) × (new.layout ≡ old.layout)
        × (old.fault ≡ None → HasSeen V.saw old.layout new.fault old.visitor.now new.visitor.now rows) };

    ghost has_enough = { λ it. IsSome it.fault ⊎ V.has_enough it.visitor.now };

    fn see(&mut self, columns: &sqlite::Row) -> bool {
        if self.fault.is_some() {
            return false;
        }
        match next_item(self.alloc, self.layout, self.last, columns) {
            Ok((number, row)) => {
                self.last = Some(u64::from(number.get()));
                self.visitor.see(number, &row)
            }
            Err(fault) => {
                self.fault = Some(fault);
                false
            }
        }
    }

    ghost saw_none = { λ it. (
      refl,
      refl,
      λ none. record {
        seen = [];
        unseen = [];
        are = refl;
        all = λ _. refl;
        saw_them = V.saw_none it.visitor.now;
        cause = Prim.rw none tt;
      },
    ) };
}

/// What came of showing rows, all of them or not, with the fault of one of them, if any has one.
fn outcome(fault: Option<RowsFault>, all: bool) -> Result<bool, RowsFault>
    ensures ok { IfOk result (λ of_all. (fault ≡ None) × (of_all ≡ all)) }
    ensures err { IfErr result (λ of_row. fault ≡ Some of_row) }
{
    match fault {
        None => Ok(all),
        Some(fault) => Err(fault),
    }
}

/// Shows all rows to a visitor, and answers whether these were all of them.
///
/// They are not all where the visitor wanted no more. At a fault the rows before it were shown.
pub(crate) fn show_all<S: Alter, V: RowVisitor>(
    alloc: Global,
    conn: &mut Connection<S>,
    layout: Layout,
    visitor: &mut V,
) -> Result<bool, RowsFault>
    ensures { ShowsRows layout V.saw V.has_enough visitor.old visitor.new result (state S.Store conn.old) (state S.Store conn.new) }
{
    rising_is_listed();
    rows_rise();
    let mut reader = RowReader {
        alloc,
        layout,
        visitor,
        last: None,
        fault: None,
    };
    match visit_rows(conn, layout, &mut reader) {
        Ok(all) => outcome(reader.fault, all),
        Err(error) => Err(fault_of(&error)),
    }
}
