//! A station on a wire, driven step by step.

ghost use Rattle.std.specs.Prelude.{◌≡◌, OnOk, IfErr, false};
ghost use Rattle.station.specs.Steps.{tears};
ghost use Rattle.command_ends.specs.Ends.{end_of, end_of_step};
ghost use Rattle.driver.specs.Driving.{ReceivedNext, post, post_of, no_step, IsReceiving, IsFallingDue, IsTakingIn, IsSeeingToDue};
ghost use Rattle.driver.specs.TakingIn.{Hears};

use crate::log::Log;
use crate::pacing::Pacing;
use crate::said::said_in;
use crate::sink::{HeardDatagram, Sink, TakenStep};
use crate::taking_in::{Received, take_datagram};
use crate::telling::{NewerLayouts, newer_in};
use command_ends::Fault;
use rows_saved::{Rows, Settles};
use station::{Station, StepRefusal};
use std::io::Write;
use wire::Wire;

/// Passes over a refusal after which the station goes on as it was; any other is the fault that it has stopped for.
pub(crate) fn pass_over(refusal: StepRefusal) -> Result<(), Fault<'static>>
    ensures goes_on { OnOk result (tears refusal ≡ false) }
    ensures takes_steps { OnOk result (¬ (refusal ≡ StepRefusal.Stopped)) }
    ensures ends { IfErr result (λ fault. end_of fault ≡ end_of_step refusal) }
{
    match refusal {
        StepRefusal::Stopped | StepRefusal::Store(_) | StepRefusal::OutOfMemory => Err(
            Fault::of_step(refusal),
        ),
        _ => Ok(()),
    }
}

/// No step was taken, or the fault.
fn no_step(passed: Result<(), Fault<'static>>) -> Result<Option<TakenStep>, Fault<'static>>
    ensures { result ≡ no_step passed.entry }
{
    match passed {
        Ok(()) => Ok(None),
        Err(fault) => Err(fault),
    }
}

/// A station on a wire, with what becomes of its releases.
#[derive(Drop)]
pub struct Driver<'a, R: Settles, N: Wire, S: Sink> {
    pub(crate) station: &'a mut Station<R>,
    pub(crate) wire: &'a mut N,
    pub(crate) sink: S,
    newer: &'a mut NewerLayouts,
    pub(crate) pacing: Pacing,
}

impl<'a, R: Settles, N: Wire, S: Sink> Driver<'a, R, N, S> {
    /// A station on this wire, whose releases go to this sink, with what was told of newer layouts.
    pub fn new(
        station: &'a mut Station<R>,
        wire: &'a mut N,
        sink: S,
        newer: &'a mut NewerLayouts,
    ) -> Driver<'a, R, N, S>
        ensures station { result.station.ghost_name ≡ station.entry.ghost_name }
        ensures wire { result.wire.ghost_name ≡ wire.entry.ghost_name }
        ensures is { post_of result ≡ post station.old wire.old sink }
    {
        Driver {
            station,
            wire,
            sink,
            newer,
            pacing: Pacing::new(),
        }
    }

    /// What becomes of the releases, as it is now.
    pub fn sink(&self) -> &S
        ensures { result.now ≡ self.now.sink }
    {
        &self.sink
    }

    /// Takes up what comes at a moment in milliseconds, one datagram at most: the step that the station took, if it took one. A datagram that it
    /// refuses is passed over; where that is for its layout, it is told.
    pub(crate) fn receive_next<E: Write>(
        &mut self,
        now: u64,
        log: &mut Log<'_, E>,
    ) -> Result<Option<TakenStep>, Fault<'static>>
        ensures took { ReceivedNext (IsReceiving now) (IsTakingIn now) result R.Rows R.Settles.is_settled N.passed S.Sink self.old self.new }
        ensures hears { Hears R.Rows N.passed now self.old self.new }
    {
        match take_datagram(self.station, self.wire, now) {
            Received::Nothing => Ok(None),
            Received::Failed => Err(Fault::Socket("receive failed")),
            Received::Taken { bytes, answer } => {
                let heard = HeardDatagram::Taken(said_in(&bytes));
                self.pacing.hear(heard.said(), now);
                self.sink.hear(&heard, now, log);
                let step = TakenStep {
                    answer,
                    moment: now,
                };
                Ok(Some(step))
            }
            Received::Refused { bytes, refusal } => {
                let heard = HeardDatagram::Refused(refusal);
                self.pacing.hear(heard.said(), now);
                self.newer.tell(newer_in(refusal, &bytes), now, log.err);
                self.sink.hear(&heard, now, log);
                no_step(pass_over(refusal))
            }
            Received::Beside(found) => {
                let heard = HeardDatagram::Aside(found);
                self.pacing.hear(heard.said(), now);
                self.sink.hear(&heard, now, log);
                Ok(None)
            }
        }
    }

    /// Sees to what is due at a moment in milliseconds, one number at most: the step that the station took, if it took one.
    pub(crate) fn fall_due(&mut self, now: u64) -> Result<Option<TakenStep>, Fault<'static>>
        ensures took { ReceivedNext (IsFallingDue now) (IsSeeingToDue now) result R.Rows R.Settles.is_settled N.passed S.Sink self.old self.new }
        ensures goes_on { OnOk result (self.new.station.now.stopped ≡ false) }
    {
        match self.station.due(now) {
            Ok(answer) => {
                self.pacing.saw(&answer.note);
                let step = TakenStep {
                    answer,
                    moment: now,
                };
                Ok(Some(step))
            }
            Err(refusal) => no_step(pass_over(refusal)),
        }
    }
}
