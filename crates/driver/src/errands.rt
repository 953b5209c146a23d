//! The errands by which a station catches up, or others do: recalls and rolls are sent, votes told again, and numbers searched.

ghost use Rattle.std.specs.Prelude.{◌≡◌};
ghost use Rattle.catch_up.specs.Errands.{IsGoodErrand};
ghost use Rattle.driver.specs.Driving.{DroveBehind};
ghost use Rattle.driver.specs.Todos.{IsGoodSending, IsHailing, IsRunOf, IsSearching, IsTellingAgain};

use crate::desk::{Declined, Desk};
use crate::driver::{Driver, pass_over};
use crate::group::Group;
use crate::log::Log;
use crate::sending::send_bytes;
use crate::sink::TakenStep;
use ballots::{Member, Number};
use catch_up::Errand;
use command_ends::Fault;
use rows_saved::{Rows, Settles};
use std::io::Write;
use wire::Wire;

/// Bytes that spell a recall or a roll, and to whom.
#[derive(Clone, Copy)]
struct Hail<'b> {
    to: Member,
    bytes: &'b [u8],
}

/// A vote that is told again: of which number, and to whom.
#[derive(Clone, Copy)]
struct Again {
    number: Number,
    to: Member,
}

impl<'a, R: Settles, N: Wire, S: Desk> Driver<'a, R, N, S> {
    /// Sends a recall or a roll to the member that it is to, at a moment in milliseconds. They may speak of what the steps of
    /// the group saved, so that is stored before, and the group is handed on.
    fn hail<E: Write>(
        &mut self,
        hail: Hail<'_>,
        now: u64,
        group: &mut Group,
        log: &mut Log<'_, E>,
    ) -> Result<(), Fault<'static>>
        requires spelled { IsGoodSending hail.to hail.bytes.now }
        ensures { DroveBehind (IsHailing hail.entry.to hail.entry.bytes.now) result R.Rows R.Settles.is_settled N.passed S.Sink self.old self.new group.old group.new }
    {
        self.settle_group(now, group, log)?;
        send_bytes(hail.to, hail.bytes, self.wire, log.err);
        Ok(())
    }

    /// The station tells a vote again, at a moment in milliseconds.
    fn tell_again<E: Write>(
        &mut self,
        again: Again,
        now: u64,
        group: &mut Group,
        log: &mut Log<'_, E>,
    ) -> Result<(), Fault<'static>>
        ensures { DroveBehind (IsTellingAgain again.number again.to) result R.Rows R.Settles.is_settled N.passed S.Sink self.old self.new group.old group.new }
    {
        match self.station.recall(again.number.get(), again.to.get()) {
            Ok(answer) => {
                let step = TakenStep {
                    answer,
                    moment: now,
                };
                group.hold(step, &mut self.sink, log)
            }
            Err(refusal) => pass_over(refusal),
        }
    }

    /// The station searches a number, at a moment in milliseconds. That it does not take the search is told to the desk.
    fn search<E: Write>(
        &mut self,
        number: Number,
        now: u64,
        group: &mut Group,
        log: &mut Log<'_, E>,
    ) -> Result<(), Fault<'static>>
        ensures { DroveBehind (IsSearching number now) result R.Rows R.Settles.is_settled N.passed S.Sink self.old self.new group.old group.new }
    {
        match self.station.seek(number.get(), now) {
            Ok(answer) => {
                let step = TakenStep {
                    answer,
                    moment: now,
                };
                group.hold(step, &mut self.sink, log)
            }
            Err(refusal) => {
                let declined = Declined {
                    number,
                    refusal,
                    moment: now,
                };
                self.sink.decline(declined, log);
                pass_over(refusal)
            }
        }
    }

    /// Runs an errand, at a moment in milliseconds.
    pub(crate) fn run_errand<E: Write>(
        &mut self,
        errand: &Errand,
        now: u64,
        group: &mut Group,
        log: &mut Log<'_, E>,
    ) -> Result<(), Fault<'static>>
        requires good { IsGoodErrand errand.now }
        ensures { DroveBehind (IsRunOf errand.now now) result R.Rows R.Settles.is_settled N.passed S.Sink self.old self.new group.old group.new }
    {
        match errand {
            Errand::Send { to, bytes } => {
                let hail = Hail {
                    to: *to,
                    bytes: bytes.as_slice(),
                };
                self.hail(hail, now, group, log)
            }
            Errand::Tell { number, to } => {
                let again = Again {
                    number: *number,
                    to: *to,
                };
                self.tell_again(again, now, group, log)
            }
            Errand::Seek { number } => self.search(*number, now, group, log),
        }
    }
}
