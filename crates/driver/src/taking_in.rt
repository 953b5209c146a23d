//! A datagram that comes to a station, taken in: a packet by one step of the station, a recall or a roll beside it.

ghost use Rattle.driver.specs.TakingIn.{IsAsideOf, IsTakenIn};

use rolls::{Aside, hear};
use rows_saved::Rows;
use station::{Answer, Station, StepRefusal};
use wire::{Arrival, Wire};

/// What came of waiting for a datagram.
#[derive(Drop)]
pub(crate) enum Received {
    /// None came.
    Nothing,
    /// The network failed.
    Failed,
    /// One came that has the mark of recalls and rolls, as it was read. The station was not called.
    Beside(Aside),
    /// One came of these bytes, and the station took it in.
    Taken {
        bytes: Vec<u8>,
        answer: Answer,
    },
    /// One came of these bytes, and the station refused it.
    Refused {
        bytes: Vec<u8>,
        refusal: StepRefusal,
    },
}

/// What stations say beside packets, as these bytes are read; `None` where they have not its mark, which no packet has.
fn aside_of(bytes: &[u8]) -> Option<Aside>
    ensures { IsAsideOf bytes.now result }
{
    if !bytes.starts_with(b"TR") {
        return None;
    }
    Some(hear(bytes))
}

/// Takes in what comes, one datagram at most, at a moment in milliseconds. What the station hands out is not sent yet.
pub(crate) fn take_datagram<R: Rows, N: Wire>(
    station: &mut Station<R>,
    wire: &mut N,
    now: u64,
) -> Received
    ensures { IsTakenIn R.Rows N.passed now station.old station.new wire.old wire.new result }
{
    let bytes = match wire.receive() {
        Arrival::Nothing => return Received::Nothing,
        Arrival::Datagram(bytes) => bytes,
        Arrival::Failed => return Received::Failed,
    };
    if let Some(found) = aside_of(&bytes) {
        return Received::Beside(found);
    }
    match station.receive(&bytes, now) {
        Ok(answer) => Received::Taken { bytes, answer },
        Err(refusal) => Received::Refused { bytes, refusal },
    }
}
