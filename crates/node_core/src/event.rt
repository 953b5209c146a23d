//! What comes to a station.

ghost use Rattle.std.specs.Prelude.{◌≡◌};
ghost use Rattle.protocol.specs.Turn.{number_of};
ghost use Rattle.node_core.specs.Turns.{event_value};

use ballots::{Member, Number};
use packets::PacketRef;
use tape_frames::Entry;

/// An event of one number. `now` is its moment, in milliseconds.
#[derive(Drop)]
pub enum Event<'a> {
    /// The entry is offered for the number: a tape, or that the number is withdrawn.
    Offer {
        number: Number,
        entry: Entry,
        now: u64,
    },
    /// The number's entry is sought.
    Seek {
        number: Number,
        now: u64,
    },
    /// The due moment of the number's proposal may have come.
    Due {
        number: Number,
        now: u64,
    },
    /// A packet came, its frames lent by the datagram.
    Arrived {
        packet: PacketRef<'a>,
        now: u64,
    },
    /// The vote of the number's row is to be told again, to another member or by the station to itself.
    Recall {
        number: Number,
        to: Member,
    },
}

impl Event<'_> {
    /// The number that it is about.
    pub fn number(&self) -> Number
        ensures { result ≡ number_of (event_value self.now) }
    {
        match self {
            Event::Offer { number, .. } => *number,
            Event::Seek { number, .. } => *number,
            Event::Due { number, .. } => *number,
            Event::Arrived { packet, .. } => packet.number(),
            Event::Recall { number, .. } => *number,
        }
    }
}
