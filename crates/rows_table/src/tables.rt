//! The statements that make the tables, in one transaction.

ghost use Rattle.std.specs.Prelude.{◌≡◌, false};
ghost use Rattle.sqlite.specs.Held.{state};
ghost use Rattle.rows_table.specs.declared.layout.Layout.TheVariants.{One, Two};
ghost use Rattle.rows_table.specs.declared.layout.LayoutOrigin.TheVariants.{Created};
ghost use Rattle.rows_table.specs.Within.{ActsWithin};
ghost use Rattle.rows_table.specs.Making.{AddsStation, MakesLayout, MakesRowTable, MakesStationTable, CommitsTables};

use crate::entry_table::make_entry_table;
use crate::layout::{Layout, LayoutOrigin};
use sqlite::{Alter, Connection, Error, Transaction, params};

/// Which station the rows of a database belong to, as the row of its table tells it.
#[derive(Clone, Copy)]
pub struct StationColumns {
    /// The number of the circuit.
    pub circuit: u32,
    /// The number of the member.
    pub member: u32,
    /// How many members the circuit has.
    pub members: u32,
}

/// Makes the table of the station, in a transaction in an empty database.
fn make_station_table<S: Alter>(tx: &mut Transaction<'_, S>) -> Result<(), Error>
    ensures { ActsWithin S.Store MakesStationTable result tx.old tx.new }
{
    tx.execute(
        "CREATE TABLE station (one INTEGER PRIMARY KEY CHECK (one = 1),\n  layout INTEGER NOT NULL, circuit INTEGER NOT NULL,\n  member INTEGER NOT NULL, members INTEGER NOT NULL) STRICT",
        &[],
    )?;
    Ok(())
}

/// Makes the table of rows beside that of the station, in a transaction.
fn make_row_table<S: Alter>(tx: &mut Transaction<'_, S>) -> Result<(), Error>
    ensures { ActsWithin S.Store MakesRowTable result tx.old tx.new }
{
    tx.execute(
        "CREATE TABLE acceptor_row (number INTEGER PRIMARY KEY,\n  promised_round INTEGER NOT NULL, promised_owner INTEGER NOT NULL,\n  vote_round INTEGER, vote_owner INTEGER, tape BLOB) STRICT",
        &[],
    )?;
    Ok(())
}

/// Adds the row of the station, in a transaction on the tables of this layout.
fn add_station<S: Alter>(
    tx: &mut Transaction<'_, S>,
    layout: Layout,
    station: &StationColumns,
) -> Result<(), Error>
    ensures { ActsWithin S.Store (AddsStation layout station.now) result tx.old tx.new }
{
    tx.execute(
        "INSERT INTO station VALUES (1, ?1, ?2, ?3, ?4)",
        params![
            layout.number(),
            station.circuit,
            station.member,
            station.members
        ],
    )?;
    Ok(())
}

/// Makes the tables of layout 1 and the row of the station, in a transaction in an empty database.
fn make_layout_one<S: Alter>(
    tx: &mut Transaction<'_, S>,
    station: &StationColumns,
) -> Result<(), Error>
    ensures { ActsWithin S.Store (MakesLayout One station.now) result tx.old tx.new }
{
    make_station_table(tx)?;
    make_row_table(tx)?;
    add_station(tx, Layout::One, station)?;
    Ok(())
}

/// Makes the tables of layout 2 and the row of the station, in a transaction in an empty database.
fn make_layout_two<S: Alter>(
    tx: &mut Transaction<'_, S>,
    station: &StationColumns,
) -> Result<(), Error>
    ensures { ActsWithin S.Store (MakesLayout (Two Created) station.now) result tx.old tx.new }
{
    make_station_table(tx)?;
    make_entry_table(tx)?;
    add_station(tx, Layout::Two(LayoutOrigin::Created), station)?;
    Ok(())
}

/// Makes the tables of layout 1, that of the station with its row and the table of rows, in one transaction, in an empty database.
///
/// Where it is refused nothing is changed. A crash leaves the database as it was, or with all of this.
pub fn create_layout_one<S: Alter>(
    conn: &mut Connection<S>,
    station: &StationColumns,
) -> Result<(), Error>
    requires { conn.old.in_transaction ≡ false }
    ensures { CommitsTables One station.now result (state S.Store conn.old) (state S.Store conn.new) }
{
    let mut tx = conn.transaction();
    make_layout_one(&mut tx, station)?;
    tx.commit()?;
    Ok(())
}

/// Makes the tables of layout 2, that of the station with its row and the table of entries, in one transaction, in an empty database.
///
/// Where it is refused nothing is changed. A crash leaves the database as it was, or with all of this.
pub fn create_layout_two<S: Alter>(
    conn: &mut Connection<S>,
    station: &StationColumns,
) -> Result<(), Error>
    requires { conn.old.in_transaction ≡ false }
    ensures { CommitsTables (Two Created) station.now result (state S.Store conn.old) (state S.Store conn.new) }
{
    let mut tx = conn.transaction();
    make_layout_two(&mut tx, station)?;
    tx.commit()?;
    Ok(())
}
