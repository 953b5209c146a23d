//! What the calls of a proposal answer.

use ballots::Ballot;

/// Why no ballot was begun.
#[derive(Clone, Copy, PartialEq, Eq)]
pub enum BeginRefusal {
    /// There is no round above the one that was seen.
    RoundsSpent,
    /// Memory was refused; a proposal that begins takes none, so this never comes.
    OutOfMemory,
}

/// What became of a promise.
#[derive(Clone, Copy, PartialEq, Eq)]
pub enum Counted {
    /// It is for another ballot, or the proposal no longer gathers promises.
    Stale,
    /// Its member is counted already.
    Repeated,
    /// It is counted, and the counted members are no majority yet.
    More,
    /// It is counted, and the counted members are a majority.
    Quorum,
}

/// What a proposal does at a moment.
#[derive(Clone, Copy, PartialEq, Eq)]
pub enum DueAnswer {
    /// Its due moment has not come.
    Wait,
    /// It has begun as many ballots as it may, or the rounds are spent.
    GaveUp,
    /// It has begun this ballot, with all counts new.
    Began { ballot: Ballot },
}
