//! What an acceptor is asked, and what it says.

use ballots::{Ballot, Vote};
use tape_frames::Entry;

/// A request to an acceptor.
#[derive(Drop)]
pub enum Request {
    /// Promise to accept nothing below this ballot.
    Prepare { ballot: Ballot },
    /// Vote for this entry at this ballot.
    Accept { ballot: Ballot, entry: Entry },
}

/// What an acceptor says to a request.
#[derive(Drop)]
pub enum Reply {
    /// It promises, and reports its highest vote.
    Promise { report: Option<Vote> },
    /// It answered a prepare of this ballot, or a vote at it, already.
    Silent,
    /// It has promised this ballot, which is above the request's.
    Nack { promised: Ballot },
    /// It votes.
    Voted,
    /// It voted at this ballot before, and that vote stands.
    Again,
}
