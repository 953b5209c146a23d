//! A station under `run`: its steps are gathered in groups. What the steps of a group saved is stored by one save, and then what they handed
//! out is handed on.

ghost use Rattle.std.specs.Prelude.{◌≡◌, [], true, false, Ok, OnOk};
ghost use Rattle.driver.specs.Driving.{DroveBehind, HasEnded, IsDueUp, IsStoring, IsTakingUp, MayStore};
ghost use Rattle.driver.specs.Grouping.{ends_group, goes_alone, one_more};

use crate::desk::Desk;
use crate::driver::Driver;
use crate::group::Group;
use crate::log::Log;
use command_ends::Fault;
use pace::Work;
use rows_saved::{Rows, Settles};
use std::io::Write;
use wire::Wire;

impl<'a, R: Settles, N: Wire, S: Desk> Driver<'a, R, N, S> {
    /// Takes in what comes at a moment in milliseconds, one datagram at most.
    pub(crate) fn gather<E: Write>(
        &mut self,
        now: u64,
        group: &mut Group,
        log: &mut Log<'_, E>,
    ) -> Result<(), Fault<'static>>
        ensures { DroveBehind (IsTakingUp now) result R.Rows R.Settles.is_settled N.passed S.Sink self.old self.new group.old group.new }
    {
        match self.receive_next(now, log) {
            Ok(Some(step)) => group.hold(step, &mut self.sink, log),
            Ok(None) => Ok(()),
            Err(fault) => Err(fault),
        }
    }

    /// Sees to what is due at a moment in milliseconds, one number at most.
    pub(crate) fn gather_due<E: Write>(
        &mut self,
        now: u64,
        group: &mut Group,
        log: &mut Log<'_, E>,
    ) -> Result<(), Fault<'static>>
        ensures { DroveBehind (IsDueUp now) result R.Rows R.Settles.is_settled N.passed S.Sink self.old self.new group.old group.new }
    {
        match self.fall_due(now) {
            Ok(Some(step)) => group.hold(step, &mut self.sink, log),
            Ok(None) => Ok(()),
            Err(fault) => Err(fault),
        }
    }

    /// Stores what the steps of a group saved, and hands on what they handed out, at a moment in milliseconds.
    pub(crate) fn settle_group<E: Write>(
        &mut self,
        now: u64,
        group: &mut Group,
        log: &mut Log<'_, E>,
    ) -> Result<(), Fault<'static>>
        ensures drove { DroveBehind IsStoring result R.Rows R.Settles.is_settled N.passed S.Sink self.old self.new group.old group.new }
        ensures ended { OnOk result (HasEnded S.handed self.old.sink self.new.sink group.old group.new) }
    {
        match self.station.settle() {
            Ok(()) => {
                group.hand_on(self.wire, &mut self.sink, now, log);
                Ok(())
            }
            Err(refusal) => Err(Fault::of_step(refusal)),
        }
    }

    /// Ends the group where the work that comes next can't share its save, or where it is full.
    pub(crate) fn end_group<E: Write>(
        &mut self,
        next: Work,
        now: u64,
        group: &mut Group,
        log: &mut Log<'_, E>,
    ) -> Result<(), Fault<'static>>
        ensures drove { DroveBehind MayStore result R.Rows R.Settles.is_settled N.passed S.Sink self.old self.new group.old group.new }
        ensures ended { ends_group next now group.old ≡ true → OnOk result (HasEnded S.handed self.old.sink self.new.sink group.old group.new) }
        ensures alone { goes_alone next ≡ true → OnOk result (group.new.steps.items ≡ []) }
        ensures goes_on { ends_group next now group.old ≡ false → (result ≡ Ok tt) × (self.new ≡ self.old) × (group.new ≡ one_more now group.old) }
    {
        if group.ends_before(next, now) {
            self.settle_group(now, group, log)
        } else {
            group.go_on(now);
            Ok(())
        }
    }
}
