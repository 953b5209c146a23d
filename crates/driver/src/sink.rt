//! What becomes of the releases of a station.

ghost use Rattle.std.specs.Prelude.{◌≡◌, [], List};
ghost use Rattle.protocol.specs.Refusals.{Call};
ghost use Rattle.driver.specs.Events.{Event};
ghost use Rattle.driver.specs.Fates.{Fates, IsTaken};
ghost use Rattle.driver.specs.Pacing.{said_of};

use crate::log::Log;
use crate::said::Said;
use command_ends::Fault;
use rolls::Aside;
use station::{Answer, StepRefusal};
use std::io::Write;

/// A step that the station took.
#[derive(Drop)]
pub struct TakenStep {
    /// What it handed out.
    pub answer: Answer,
    /// When it was taken, in milliseconds.
    pub moment: u64,
}

/// What a datagram was that was taken in.
#[derive(Drop)]
pub enum HeardDatagram {
    /// A packet that the station took in; what its head says.
    Taken(Option<Said>),
    /// One that the station refused, and passed over unless it stopped the station.
    Refused(StepRefusal),
    /// One that has the mark of recalls and rolls, as it was read. The station was not called.
    Aside(Aside),
}

impl HeardDatagram {
    /// What the head of a packet says that the station took in; of any other datagram nothing.
    pub(crate) fn said(&self) -> Option<Said>
        ensures { result ≡ said_of self.now }
    {
        match self {
            HeardDatagram::Taken(said) => *said,
            HeardDatagram::Refused(_) | HeardDatagram::Aside(_) => None,
        }
    }
}

/// Where the releases of a station go, as they are printed, or written as files. Moments are in milliseconds.
pub trait Sink: Drop {
    // What became of it while exactly these events happened, one after the other.
    ghost lived: { Self → Self → List Event → Type 0 };

    // How far it came with them, where what was released in the last could not be taken.
    ghost front: { Self → Self → List Event → Type 0 };

    // The station may be called so, as far as it knows.
    ghost may: { Self → Call → Type 0 };

    /// A datagram was taken in.
    fn hear<E: Write>(&mut self, heard: &HeardDatagram, now: u64, log: &mut Log<'_, E>)
        ensures { lived self.old self.new [] };

    ghost fates: { Fates lived front may };
}

/// Where releases go one by one, as they are printed.
pub trait Outlet: Sink {
    /// Takes what a step of the station did and released, once what it saved is stored and its datagrams are sent. It fails where that can't
    /// be written, or there is no memory for it.
    fn print<E: Write>(
        &mut self,
        step: &TakenStep,
        log: &mut Log<'_, E>,
    ) -> Result<(), Fault<'static>>
        ensures { IsTaken Self.lived Self.front Self.may self.old self.new step.now.answer result };

    // The station may be called in whatever way, whatever became of it.
    ghost free: { (outlet : Self) (call : Call) → Self.Sink.may outlet call };
}
