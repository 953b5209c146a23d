//! A station is taken over to version 2.

ghost use Rattle.station.specs.Stations.{sight};
ghost use Rattle.world.specs.Logging.{UpgradedAs};

use crate::step::Outcome;
use rows_saved::{Balky, Rows};
use station::Station;

/// Takes a station over to version 2, and tells how that ended.
pub(crate) fn upgrade_station<R: Rows>(station: &mut Station<Balky<R>>) -> Outcome
    ensures takes { UpgradedAs (sight ⟦<Balky<R> as Rows>⟧) station.old station.new result }
    ensures was_kept { R.kept station.new.rows.rows → R.kept station.old.rows.rows }
    ensures made { R.made station.old.rows.rows → R.made station.new.rows.rows }
{
    match station.upgrade() {
        Ok(()) => Outcome::Upgraded,
        Err(refusal) => Outcome::Refused(refusal),
    }
}
