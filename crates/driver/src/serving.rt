//! A station under `serve`: each step by itself. What a step saved is stored, and then what it handed out is handed on.

ghost use Rattle.driver.specs.Calls.{IsAsked};
ghost use Rattle.driver.specs.Driving.{DroveUpTo, WentOn, HandedOn, IsTakingIn, IsSeeingToDue, IsTurn, AtClock};

use crate::calls::{Call, ask};
use crate::driver::Driver;
use crate::log::Log;
use crate::sending::send_all;
use crate::sink::{Outlet, TakenStep};
use crate::telling::tell_strangers;
use command_ends::Fault;
use rows_saved::{Rows, Settles};
use std::io::Write;
use wire::Wire;

impl<'a, R: Settles, N: Wire, S: Outlet> Driver<'a, R, N, S> {
    /// Hands on what a step of the station hands out, once what it saved is stored: its datagrams to the wire, and then its release to the sink.
    fn hand_on<E: Write>(
        &mut self,
        step: &TakenStep,
        log: &mut Log<'_, E>,
    ) -> Result<(), Fault<'static>>
        ensures { HandedOn R.Rows R.Settles.is_settled N.passed S.Sink self.old self.new step.now.answer result }
    {
        match self.station.settle() {
            Ok(()) => {
                send_all(step.answer.out.as_slice(), self.wire, log.err);
                self.sink.print(step, log)
            }
            Err(refusal) => Err(Fault::of_step(refusal)),
        }
    }

    /// Takes in what comes at a moment in milliseconds, one datagram at most. One that the station refuses is passed over; where that is for
    /// its layout, it is told.
    pub fn receive<E: Write>(
        &mut self,
        now: u64,
        log: &mut Log<'_, E>,
    ) -> Result<(), Fault<'static>>
        ensures { DroveUpTo (IsTakingIn now) result R.Rows R.Settles.is_settled N.passed S.Sink self.old self.new }
    {
        match self.receive_next(now, log) {
            Ok(Some(step)) => self.hand_on(&step, log),
            Ok(None) => Ok(()),
            Err(fault) => Err(fault),
        }
    }

    /// Sees to what is due at a moment in milliseconds, one number at most.
    pub fn see_to_due<E: Write>(
        &mut self,
        now: u64,
        log: &mut Log<'_, E>,
    ) -> Result<(), Fault<'static>>
        ensures { WentOn (IsSeeingToDue now) result R.Rows R.Settles.is_settled N.passed S.Sink self.old self.new }
    {
        match self.fall_due(now) {
            Ok(Some(step)) => self.hand_on(&step, log),
            Ok(None) => Ok(()),
            Err(fault) => Err(fault),
        }
    }

    /// One turn at a moment in milliseconds, up to its first fault: it takes in one datagram at most, and then sees to what is due. Strangers
    /// are told behind what came, so that no reply waits for it.
    pub fn turn_at<E: Write>(
        &mut self,
        now: u64,
        log: &mut Log<'_, E>,
    ) -> Result<(), Fault<'static>>
        ensures { WentOn (IsTurn now) result R.Rows R.Settles.is_settled N.passed S.Sink self.old self.new }
    {
        self.receive(now, log)?;
        tell_strangers(self.wire, now, log.err);
        self.see_to_due(now, log)
    }

    /// The same, at the moment of the clock.
    pub fn turn<E: Write>(&mut self, log: &mut Log<'_, E>) -> Result<(), Fault<'static>>
        ensures { WentOn (AtClock IsTurn) result R.Rows R.Settles.is_settled N.passed S.Sink self.old self.new }
    {
        let now = self.wire.now();
        self.turn_at(now, log)
    }

    /// Asks the station at the moment of the clock, and hands on what it hands out. That it refuses is the fault.
    pub fn ask<E: Write>(
        &mut self,
        call: Call<'_>,
        log: &mut Log<'_, E>,
    ) -> Result<(), Fault<'static>>
        ensures { DroveUpTo (AtClock (IsAsked call.entry)) result R.Rows R.Settles.is_settled N.passed S.Sink self.old self.new }
    {
        let now = self.wire.now();
        match ask(self.station, call, now) {
            Ok(answer) => {
                let step = TakenStep {
                    answer,
                    moment: now,
                };
                self.hand_on(&step, log)
            }
            Err(refusal) => Err(Fault::of_step(refusal)),
        }
    }
}
