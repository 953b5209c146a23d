//! What is asked of rows that are saved together.

ghost use Rattle.std.specs.Prelude.{ℕ, List, OnOk};
ghost use Rattle.protocol.specs.Rows.{Row as RowValue};
ghost use Rattle.rows_saved.specs.Groups.{AreRowsOf, PutsAll};

use crate::balky::Balky;
use crate::fault::RowsFault;
use crate::memory::MemoryRows;
use crate::rows::Rows;
use ballots::{Number, Row};

/// Rows of which many are saved by one call.
pub trait SavesAll: Rows {
    // What else the Ok of a `put_all` of these items shows, and what it tells however it ends, for a caller that knows the type.
    ghost stores: { Self → Self → List (ℕ × RowValue) → Type 0 } = { λ _ _ _. Unit {0} };

    ghost leaves: { Self → Self → List (ℕ × RowValue) → Type 0 } = { λ _ _ _. Unit {0} };

    /// Saves these rows, each under its number, one after the other; the version has each. A number may come more than once.
    ///
    /// A refusal is counted; it leaves the rows as they were, or with the first so many of these saved. A store that can saves all
    /// or none.
    fn put_all(&mut self, items: &[(Number, Row)]) -> Result<(), RowsFault>
        requires { AreRowsOf (Self.Rows.version self.old) items.now }
        ensures puts { PutsAll Self.Rows result items.now self.old self.new }
        ensures stores { OnOk result (stores self.old self.new items.now) }
        ensures leaves { leaves self.old self.new items.now };
}

/// Saves these rows, each under its number. The first that is refused ends it.
fn put_each<R: Rows>(rows: &mut R, items: &[(Number, Row)]) -> Result<(), RowsFault>
    requires { AreRowsOf (R.Rows.version rows.old) items.now }
    ensures { PutsAll R.Rows result items.now rows.old rows.new }
{
    for item in items {
        rows.put(item.0, &item.1)?;
    }
    Ok(())
}

impl SavesAll for MemoryRows {
    fn put_all(&mut self, items: &[(Number, Row)]) -> Result<(), RowsFault> {
        put_each(self, items)
    }
}

/// Armed, it refuses the first of the rows as its next save.
impl<R: Rows> SavesAll for Balky<R> {
    fn put_all(&mut self, items: &[(Number, Row)]) -> Result<(), RowsFault> {
        put_each(self, items)
    }
}
