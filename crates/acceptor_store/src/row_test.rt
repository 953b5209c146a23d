//! A test of rows that has them one by one, as they are read.

ghost use Rattle.std.specs.Prelude.{◌≡◌, refl};
ghost use Rattle.sqlite_value.specs.Order.{column};
ghost use Rattle.acceptor_store.specs.Columns.{row_in, damage_of, first_of};
ghost use Rattle.acceptor_store.specs.Testing.{begun, LeadsTo, PassesSoundRows, RefusesUnsoundRows, RisesWith};

use crate::columns::damage_of;
use rows_saved::RowsFault;
use rows_table::{Layout, TableVisitor, number_above, rising_is_listed};
use sqlite::Row;

/// What was found in the rows of a listing up to here.
#[derive(Drop)]
pub(crate) struct RowTest {
    layout: Layout,
    /// The key of the first row that is damaged, if any is.
    damage: Option<i64>,
    /// The number of the last row.
    last: Option<u64>,
    /// Whether the numbers have risen from row to row.
    rising: bool,
}

impl RowTest {
    /// A test that has had no row.
    pub(crate) fn new(layout: Layout) -> RowTest
        ensures { result ≡ begun layout }
    {
        RowTest {
            layout,
            damage: None,
            last: None,
            rising: true,
        }
    }

    /// Keeps the key of a damaged row, unless one came before.
    fn see_damage(&mut self, row: &Row)
        ensures damage { self.new.damage ≡ first_of self.old.damage (damage_of (column row.now 0) (row_in self.old.layout 1 row.now)) }
        ensures same { self.new ≡ record self.old { damage = self.new.damage } }
    {
        if self.damage.is_none() {
            self.damage = damage_of(self.layout, row);
        }
    }

    /// Keeps the number of a row, or that it is not above the last.
    fn see_number(&mut self, row: &Row)
        ensures rises { RisesWith row.now self.old self.new }
        ensures same { self.new ≡ record self.old { last = self.new.last; rising = self.new.rising } }
    {
        match number_above(self.last, row) {
            Some(number) => self.last = Some(number),
            None => self.rising = false,
        }
    }

    /// What is wrong with the rows of a listing that it has had to the end: a row that is damaged, or else numbers that do not rise.
    pub(crate) fn verdict(&self) -> Result<(), RowsFault>
        ensures sound { PassesSoundRows self.now result }
        ensures refuses { RefusesUnsoundRows self.now result }
    {
        rising_is_listed();
        if let Some(number) = self.damage {
            return Err(RowsFault::Damaged { number });
        }
        if self.rising {
            Ok(())
        } else {
            Err(RowsFault::WrongSchema)
        }
    }
}

impl TableVisitor for RowTest {
    ghost saw = { LeadsTo };

    // A damaged row may still come, so it wants every row.
    ghost has_enough = { λ _. ⊥ };

    fn see(&mut self, row: &Row) -> bool {
        self.see_damage(row);
        self.see_number(row);
        true
    }

    ghost saw_none = { λ _. record { layout = refl; damage = λ _. refl; rises = λ _. refl } };
}
