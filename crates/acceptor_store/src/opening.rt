//! What a database is tested for before its rows are taken up.

ghost use Rattle.std.specs.Prelude.{◌≤◌};
ghost use Rattle.sqlite_trees.specs.View.{doubt};
ghost use Rattle.sqlite.specs.Held.{state};
ghost use Rattle.acceptor_store.specs.Opening.{ReadsIdentity, ReadsStation, TestsDatabase, TestsRows};

use crate::layout::layout_in;
use crate::row_test::RowTest;
use crate::statements::fault_of;
use crate::station_row::{agrees, station_in, wanted_station};
use rows_saved::{Identity, RowsFault};
use rows_table::{Layout, get_station, visit_rows};
use sqlite::{Alter, Connection};
use sqlite_schema::schema::Schema;

/// The layout's number and the identity that the database holds.
fn read_station<S: Alter>(conn: &mut Connection<S>) -> Result<(u32, Identity), RowsFault>
    ensures { ReadsIdentity result (state S.Store conn.old) (state S.Store conn.new) }
{
    let stations = match get_station(conn) {
        Ok(stations) => stations,
        Err(error) => return Err(fault_of(&error)),
    };
    match station_in(stations.as_slice()) {
        Some(station) => Ok(station),
        None => Err(RowsFault::WrongSchema),
    }
}

/// The identity that the database holds in this layout, where it is the one given, if any.
fn test_station<S: Alter>(
    conn: &mut Connection<S>,
    layout: Layout,
    given: Option<Identity>,
) -> Result<Identity, RowsFault>
    ensures { ReadsStation layout given result (state S.Store conn.old) (state S.Store conn.new) }
{
    let stored = read_station(conn)?;
    wanted_station(stored, layout, given)
}

/// Why a database without a table of saved rows is refused: its row of the station may tell another layout, or another station.
fn refuse_without_rows<S: Alter>(conn: &mut Connection<S>, given: Option<Identity>) -> RowsFault
    ensures { doubt (state S.Store conn.old).is_clean ≤ doubt (state S.Store conn.new).is_clean }
{
    match read_station(conn) {
        Ok((_, station)) => {
            if agrees(given, station) {
                RowsFault::Store
            } else {
                RowsFault::WrongStation
            }
        }
        Err(fault) => fault,
    }
}

/// Tests that every key is a circuit number and its columns are a row of the layout.
fn test_rows<S: Alter>(conn: &mut Connection<S>, layout: Layout) -> Result<(), RowsFault>
    ensures { TestsRows layout result (state S.Store conn.old) (state S.Store conn.new) }
{
    let mut test = RowTest::new(layout);
    match visit_rows(conn, layout, &mut test) {
        // The test wants every row, so these were all of them.
        Ok(_) => test.verdict(),
        Err(error) => Err(fault_of(&error)),
    }
}

/// Tests a database, in this order: the station and its layout, whose rows they are, and the rows.
/// It gives the layout, which the tables tell, and the identity. Nothing is written.
pub(crate) fn test_database<S: Alter>(
    conn: &mut Connection<S>,
    given: Option<Identity>,
) -> Result<(Layout, Identity), RowsFault>
    ensures { TestsDatabase given result (state S.Store conn.old) (state S.Store conn.new) }
{
    let Some(layout) = layout_in(conn.schema()) else {
        return Err(refuse_without_rows(conn, given));
    };
    let station = test_station(conn, layout, given)?;
    test_rows(conn, layout)?;
    Ok((layout, station))
}
