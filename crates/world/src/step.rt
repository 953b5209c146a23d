//! What can be done next in a world, and what is seen of it.

use node_core::Note;
use station::StepRefusal;
use tape_frames::Tape;

/// What is done next. Moments are in milliseconds, and may go backwards.
#[derive(Drop)]
pub enum Step {
    /// A member is offered a tape for a number.
    Offer {
        member: u8,
        number: u32,
        tape: Tape,
        now: u64,
    },
    /// A member is asked to withdraw a number: it is offered that the number has no tape.
    Withdraw {
        member: u8,
        number: u32,
        now: u64,
    },
    /// A member seeks what is agreed on for a number.
    Seek {
        member: u8,
        number: u32,
        now: u64,
    },
    /// A member sees to what is due.
    Due {
        member: u8,
        now: u64,
    },
    /// The `k`-th datagram ever sent, from 1, comes to its addressee. One that no step delivers is lost, one that two
    /// deliver is repeated.
    Deliver {
        k: usize,
        now: u64,
    },
    /// A member starts again: it forgets what it took in, and keeps its saved rows.
    Restart {
        member: u8,
    },
    /// A member goes over to version 2, also where it has stopped: it starts again there, with all its saved rows.
    Upgrade {
        member: u8,
    },
    /// A member's store is armed: it refuses the next save or upgrade, after passing it on where `saved`, else without.
    Balk {
        member: u8,
        saved: bool,
    },
    /// A member is to tell its vote for a number again, to another member or to itself.
    Recall {
        member: u8,
        number: u32,
        to: u8,
    },
}

/// How a step ended.
#[derive(Clone, Copy, PartialEq, Eq)]
pub enum Outcome {
    /// The station did it.
    Done(Note),
    /// The station refused it. After `Store` and `OutOfMemory` it is stopped.
    Refused(StepRefusal),
    /// The member started again.
    Restarted,
    /// The member went over to version 2.
    Upgraded,
    /// The member's store is armed.
    Armed { saved: bool },
}

/// What is seen of a step.
#[derive(Clone, Copy, PartialEq, Eq)]
pub struct Seen {
    /// The member that acted: of a delivery the addressee.
    pub member: u8,
    /// One more than the datagrams that were sent before.
    pub first: usize,
    /// How many datagrams this step sent.
    pub count: usize,
    /// Whether this step released an entry.
    pub released: bool,
    /// How it ended.
    pub outcome: Outcome,
}

/// Why there is no such step, or why it could not be taken. Nothing is changed by it.
#[derive(Clone, Copy, PartialEq, Eq)]
pub enum WorldRefusal {
    /// The member, or the addressee of the datagram, is none of the circuit's.
    NoSuchMember,
    /// The datagram was never sent.
    NoSuchDatagram,
    /// The logs could not grow. The station was not asked.
    OutOfMemory,
}

/// Where a run stopped, and why. The steps before it stand.
#[derive(Clone, Copy, PartialEq, Eq)]
pub struct RunStop {
    /// The place of the refused step in the list, from 0.
    pub at: usize,
    /// Why it was refused.
    pub refusal: WorldRefusal,
}
