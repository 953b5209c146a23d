//! What a station asks of the network.

ghost use Rattle.std.specs.Prelude.{[], ◌∷◌};
ghost use Rattle.wire.specs.Arrival.{came_by};
ghost use Rattle.wire.specs.Passing.{Passes, Trace, sent, told, untold};

use crate::strangers::Strangers;
use ballots::Member;

/// What came within the time limit of a receive.
#[derive(Drop)]
pub enum Arrival {
    /// Nothing came, or what did is none of a station.
    Nothing,
    /// A datagram of these bytes. It has waited in memory and is handed out, not copied; a wire over a socket hands out 12,314 at most.
    Datagram(Vec<u8>),
    /// The network failed, otherwise than by the time limit.
    Failed,
}

/// A network of datagrams, with a clock.
pub trait Wire {
    // What it tells of what has passed over it.
    ghost passed: { Self → Trace } = { λ _. untold };

    /// Takes into memory what waits at the network, and waits for nothing; whether a datagram waits in memory then. A wire that keeps
    /// none in memory answers that none does.
    fn fetch(&mut self) -> bool
        ensures passes { Passes (passed self.old) (passed self.new) [] }
    {
        false
    }

    /// Takes one datagram at most: one that waits in memory, or else one that comes within the time limit.
    fn receive(&mut self) -> Arrival
        ensures passes { Passes (passed self.old) (passed self.new) (came_by result) };

    /// Sends a datagram to a member, and answers whether the network took it. It may be lost all the same.
    fn send(&mut self, to: Member, bytes: &[u8]) -> bool
        ensures passes { Passes (passed self.old) (passed self.new) (sent to bytes.now ∷ []) };

    /// The moment, in milliseconds since the start.
    fn now(&mut self) -> u64
        ensures passes { Passes (passed self.old) (passed self.new) (told result ∷ []) };

    /// The datagrams of strangers since the last telling, where there are such to tell at this moment. A wire to which none
    /// comes tells none.
    fn strangers(&mut self, _now: u64) -> Option<Strangers>
        ensures passes { Passes (passed self.old) (passed self.new) [] }
    {
        None
    }

    /// How many datagrams of stations found no place in memory since the last telling, where there are such to tell at this moment. A
    /// wire that keeps none in memory tells none.
    fn lost(&mut self, _now: u64) -> Option<u64>
        ensures passes { Passes (passed self.old) (passed self.new) [] }
    {
        None
    }
}
