//! A station goes over to version 2.

ghost use Rattle.station.specs.Upgrading.{IsUpgrade};

use crate::station::Station;
use refusals::StepRefusal;
use rows_saved::Rows;

impl<R: Rows> Station<R> {
    /// Goes over to version 2 with all its saved rows, also while it is stopped, and starts again there: it forgets what
    /// it took in, and keeps its rows, its code table and its widths. At version 2 already it only starts again.
    /// It takes no memory of its own.
    ///
    /// Refused as `Store` alone, where its rows refuse: each stands as it was, at the version before or at version 2,
    /// and the station stops.
    pub fn upgrade(&mut self) -> Result<(), StepRefusal>
        ensures { IsUpgrade R.Rows self.old self.new result }
    {
        match self.rows.upgrade() {
            Ok(()) => {
                self.restart();
                Ok(())
            }
            Err(fault) => {
                self.follow_rows();
                Err(self.stop(StepRefusal::Store(fault)))
            }
        }
    }
}
