//! The statement on the table of the station.

ghost use Rattle.sqlite.specs.Held.{state};
ghost use Rattle.rows_table.specs.Reading.{ReadsStation};

use sqlite::{Alter, Connection, Error, Row};

/// The key, layout, circuit, member and number of members of each row of the station table; there is one.
pub fn get_station<S: Alter>(conn: &mut Connection<S>) -> Result<Vec<Row>, Error>
    ensures { ReadsStation result (state S.Store conn.old) (state S.Store conn.new) }
{
    conn.query_all(
        "SELECT one, layout, circuit, member, members FROM station",
        &[],
    )
}
