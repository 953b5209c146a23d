//! The upgrade from the table of rows to the table of entries, in one transaction.

ghost use Rattle.std.specs.Prelude.{◌≡◌, false};
ghost use Rattle.sqlite.specs.Held.{state};
ghost use Rattle.rows_table.specs.Within.{ActsWithin};
ghost use Rattle.rows_table.specs.Making.{MovesToEntries, SetsLayout, UpgradesTables};

use crate::entry_table::{EntryColumns, add_entries, make_entry_table};
use sqlite::{Alter, Connection, Error, Transaction};

/// Says in the row of the station that the database is in layout 2, in a transaction.
fn set_layout<S: Alter>(tx: &mut Transaction<'_, S>) -> Result<(), Error>
    ensures { ActsWithin S.Store SetsLayout result tx.old tx.new }
{
    tx.execute("UPDATE station SET layout = 2", &[])?;
    Ok(())
}

/// Makes the table of entries, with these in it, and sets the layout, in a transaction.
fn move_to_entries<S: Alter>(
    tx: &mut Transaction<'_, S>,
    entries: &[EntryColumns],
) -> Result<(), Error>
    ensures { ActsWithin S.Store (MovesToEntries entries.now) result tx.old tx.new }
{
    make_entry_table(tx)?;
    add_entries(tx, entries)?;
    set_layout(tx)?;
    Ok(())
}

/// Upgrades a database of layout 1 to layout 2, with these entries in its table of entries, in one transaction.
///
/// The table of rows stays as it was. An error comes where the database refuses a statement or the commit: where a table of entries is there,
/// or two entries have one number, or the disk fails or is full, or memory is refused. Nothing is then changed. A crash leaves the database
/// as it was, or with all of this.
pub fn upgrade_tables<S: Alter>(
    conn: &mut Connection<S>,
    entries: &[EntryColumns],
) -> Result<(), Error>
    requires { conn.old.in_transaction ≡ false }
    ensures { UpgradesTables entries.now result (state S.Store conn.old) (state S.Store conn.new) }
{
    let mut tx = conn.transaction();
    move_to_entries(&mut tx, entries)?;
    tx.commit()?;
    Ok(())
}
