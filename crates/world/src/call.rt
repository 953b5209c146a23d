//! What a step asks of a member's station.

ghost use Rattle.std.specs.Prelude.{◌≡◌, IfOk};
ghost use Rattle.station.specs.Steps.{IsStep};
ghost use Rattle.world.specs.Taking.{call_of};
ghost use Rattle.world.specs.Logging.{offer_of};

use crate::logs::OfferLog;
use rows_saved::Rows;
use station::{Answer, Station, StepRefusal};
use std::alloc::AllocError;
use tape_frames::{Entry, Tape};

/// What a step asks of a member's station. What comes last is the moment in milliseconds, but for `Recall`.
#[derive(Clone, Copy)]
pub(crate) enum MemberCall<'t> {
    /// It offers a tape for a number.
    Offer(u32, &'t Tape, u64),
    /// It offers that a number has no tape.
    Withdraw(u32, u64),
    /// It seeks what is agreed on for a number.
    Seek(u32, u64),
    /// It sees to what is due.
    Due(u64),
    /// It tells its vote for a number again to a member.
    Recall(u32, u8),
}

impl<'t> MemberCall<'t> {
    /// Asks a station.
    pub(crate) fn ask<R: Rows>(self, station: &mut Station<R>) -> Result<Answer, StepRefusal>
        ensures { IsStep R.Rows (call_of self.entry) station.old station.new result }
    {
        match self {
            MemberCall::Offer(number, tape, now) => station.offer(number, tape, now),
            MemberCall::Withdraw(number, now) => station.withdraw(number, now),
            MemberCall::Seek(number, now) => station.seek(number, now),
            MemberCall::Due(now) => station.due(now),
            MemberCall::Recall(number, to) => station.recall(number, to),
        }
    }

    /// The log of what is offered to a member, with a copy of the tape; `None` where nothing is.
    pub(crate) fn offer(self, member: u8) -> Result<Option<OfferLog>, AllocError>
        ensures { IfOk result (λ offer. offer ≡ offer_of member (call_of self.entry)) }
    {
        match self {
            MemberCall::Offer(number, tape, _) => {
                let entry = Entry::Tape(tape.copy()?);
                Ok(Some(OfferLog::new(member, number, entry)))
            }
            MemberCall::Withdraw(number, _) => Ok(Some(OfferLog::new(member, number, Entry::Void))),
            MemberCall::Seek(..) => Ok(None),
            MemberCall::Due(_) => Ok(None),
            MemberCall::Recall(..) => Ok(None),
        }
    }
}
