//! What a station is asked for a number.

ghost use Rattle.std.specs.Prelude.{◌≡◌};
ghost use Rattle.station.specs.Steps.{IsStep};
ghost use Rattle.driver.specs.Calls.{call_of, length_of};

use rows_saved::Rows;
use station::{Answer, Station, StepRefusal};
use tape_frames::Tape;

/// What a station is asked for a number.
#[derive(Clone, Copy)]
pub enum Call<'t> {
    /// It offers a tape.
    Offer { number: u32, tape: &'t Tape },
    /// It offers its withdrawal.
    Withdraw { number: u32 },
    /// It seeks what was agreed on.
    Seek { number: u32 },
}

impl<'t> Call<'t> {
    /// How many bytes the entry has that it offers.
    pub(crate) fn length(self) -> usize
        ensures { result ≡ length_of self.entry }
    {
        match self {
            Call::Offer { tape, .. } => tape.frames().len(),
            Call::Withdraw { .. } => 0,
            Call::Seek { .. } => 0,
        }
    }
}

/// Asks a station, at a moment in milliseconds.
pub(crate) fn ask<R: Rows>(
    station: &mut Station<R>,
    call: Call<'_>,
    now: u64,
) -> Result<Answer, StepRefusal>
    ensures { IsStep R.Rows (call_of call.entry now) station.old station.new result }
{
    match call {
        Call::Offer { number, tape } => station.offer(number, tape, now),
        Call::Withdraw { number } => station.withdraw(number, now),
        Call::Seek { number } => station.seek(number, now),
    }
}
