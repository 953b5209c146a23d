//! The station in its table: whose rows a database holds, and in which layout.

ghost use Rattle.std.specs.Prelude.{◌≡◌, ◌≢◌, false, Some, IsTrue, IfOk, IfErr};
ghost use Rattle.rows_table.specs.Tables.{layout_number};
ghost use Rattle.rows_saved.specs.declared.identity.Identity.{Identity as IdentityValue};
ghost use Rattle.acceptor_store.specs.StationRow.{station_of, station_in, Agrees, RefusesStation};

use crate::columns::{value_at, whole_in};
use ballots::Member;
use rows_saved::{Identity, RowsFault};
use rows_table::Layout;

/// The layout's number and the identity that the columns of a station are; `None` where the key is not 1, the layout is not 1 or 2,
/// or a number is out of range.
fn station_of(row: &sqlite::Row) -> Option<(u32, Identity)>
    ensures { result ≡ station_of row.now }
{
    let key = whole_in(value_at(row, 0))?;
    let layout = whole_in(value_at(row, 1))?;
    let circuit = whole_in(value_at(row, 2))?;
    let member = whole_in(value_at(row, 3))?;
    let members = whole_in(value_at(row, 4))?;
    if key == 1
        && 1 <= layout
        && layout <= 2
        && circuit <= 65_535
        && 1 <= member
        && member <= members
        && members <= u32::from(Member::LAST)
    {
        let identity = Identity {
            circuit: circuit as u16,
            member: member as u8,
            members: members as u8,
        };
        Some((layout, identity))
    } else {
        None
    }
}

/// The layout's number and the identity in the rows of the station table; `None` where there isn't one row of layout 1 or 2.
pub(crate) fn station_in(rows: &[sqlite::Row]) -> Option<(u32, Identity)>
    ensures { result ≡ station_in rows.now }
{
    match rows {
        [row] => station_of(row),
        _ => None,
    }
}

/// Whether a station is the one given, if any.
pub(crate) fn agrees(given: Option<Identity>, station: Identity) -> bool
    ensures agrees { IsTrue result → Agrees given station }
    ensures other { result ≡ false → (wanted : IdentityValue) × (given ≡ Some wanted) × (wanted ≢ station) }
{
    match given {
        Some(wanted) => wanted == station,
        None => true,
    }
}

/// The identity of a station that is stored with the number of its layout, where the number is that of this layout and the identity is the
/// one given, if any. `WrongSchema` comes before `WrongStation`.
pub(crate) fn wanted_station(
    stored: (u32, Identity),
    layout: Layout,
    given: Option<Identity>,
) -> Result<Identity, RowsFault>
    ensures stored { IfOk result (λ i. (stored.0 ≡ layout_number layout) × (i ≡ stored.1)) }
    ensures given { IfOk result (Agrees given) }
    ensures refuses { IfErr result (RefusesStation layout given stored) }
{
    let (number, station) = stored;
    if number != layout.number() {
        return Err(RowsFault::WrongSchema);
    }
    if agrees(given, station) {
        Ok(station)
    } else {
        Err(RowsFault::WrongStation)
    }
}
