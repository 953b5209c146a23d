//! What a mail says.

use ballots::{Ballot, Member};

/// What a mail says, and to whom. It holds no entry: the row after the turn does.
#[derive(Clone, Copy)]
pub enum Letter {
    /// A Prepare, to all others.
    Prepare,
    /// An Accept of the entry that the row votes for, to all others; and then to all the news of that vote.
    Proposal,
    /// The news of the row's vote, to all others.
    Vote,
    /// The news of the row's vote, to this member.
    VoteTo { to: Member },
    /// A Promise that reports the row's vote, to this member.
    Promise { to: Member },
    /// A Nack with the higher promise, to this member.
    Nack { to: Member, promised: Ballot },
}
