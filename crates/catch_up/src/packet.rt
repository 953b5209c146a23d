//! A packet that came.

use ballots::{Member, Number};

/// A packet that the station took in, by its head.
#[derive(Clone, Copy)]
pub struct PacketHead {
    /// The number that it is about.
    pub number: Number,
    /// The member that sent it.
    pub sender: Member,
    /// Whether it tells a vote (an Accepted).
    pub is_vote: bool,
}
