//! The tables of a station that starts.

ghost use Rattle.std.specs.Prelude.{◌≡◌, false};
ghost use Rattle.sqlite.specs.Held.{state};
ghost use Rattle.tape_frames.specs.Entries.{version_of};
ghost use Rattle.rows_table.specs.Making.{CommitsTables};
ghost use Rattle.acceptor_store.specs.Layouts.{made_in};
ghost use Rattle.acceptor_store.specs.Opening.{columns_of_station};

use rows_saved::Identity;
use rows_table::{StationColumns, create_layout_one, create_layout_two};
use sqlite::{Alter, Connection, Error};
use tape_frames::Version;

/// Makes the tables of the layout that rows of a version are made in, and the row of the station, in one transaction.
pub(crate) fn make_tables<S: Alter>(
    conn: &mut Connection<S>,
    identity: Identity,
    version: Version,
) -> Result<(), Error>
    requires { conn.old.in_transaction ≡ false }
    ensures { CommitsTables (made_in (version_of version)) (columns_of_station identity) result (state S.Store conn.old) (state S.Store conn.new) }
{
    let station = StationColumns {
        circuit: u32::from(identity.circuit),
        member: u32::from(identity.member),
        members: u32::from(identity.members),
    };
    match version {
        Version::One => create_layout_one(conn, &station),
        Version::Two => create_layout_two(conn, &station),
    }
}
