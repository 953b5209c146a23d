//! The row after a turn, where it changes.

ghost use Rattle.std.specs.Prelude.{◌≡◌, ◌↔◌, IsTrue, IfOk, Some, false, option_copied};
ghost use Rattle.protocol.specs.Rows.{raised, voted};
ghost use Rattle.tape_frames.specs.Entries.{owned_entry, lent_entry};
ghost use Rattle.protocol.specs.Acceptor.{is_above};
ghost use Rattle.node_core.specs.Turns.{IsRowAfter, HasPromise};

use ballots::{Ballot, Row, Vote};
use std::alloc::{AllocError, Global};
use tape_frames::{Entry, EntryRef};

/// A copy of the vote, if there is one.
pub(crate) fn copied(alloc: Global, vote: Option<&Vote>) -> Result<Option<Vote>, AllocError>
    ensures { IfOk result (λ copy. copy ≡ option_copied vote.entry) }
{
    match vote {
        None => Ok(None),
        Some(vote) => Ok(Some(vote.copy(alloc)?)),
    }
}

/// Whether the row's promise is this ballot.
pub(crate) fn is_promised(row: &Row, ballot: Ballot) -> bool
    ensures { IsTrue result ↔ (row.now.promised ≡ Some ballot) }
{
    match row.promised() {
        None => false,
        Some(promised) => promised.is_same(ballot),
    }
}

/// Whether the row's vote is for this entry at this ballot.
fn is_vote(row: &Row, ballot: Ballot, entry: EntryRef<'_>) -> bool
    ensures { IsTrue result ↔ (row.now.vote ≡ Some (record { ballot = ballot; entry = lent_entry entry.entry })) }
{
    match row.vote() {
        None => false,
        Some(vote) => vote.ballot().is_same(ballot) && vote.entry().same(entry),
    }
}

/// The row with its promise raised to the ballot, where that changes it; `None` too where the ballot is below its vote.
pub(crate) fn raise(alloc: Global, row: &Row, ballot: Ballot) -> Result<Option<Row>, AllocError>
    ensures row { IfOk result (λ after. is_above row.now.promised ballot ≡ false → IsRowAfter row.now (raised row.now ballot) after) }
    ensures promised { IfOk result (λ after. HasPromise after) }
{
    if is_promised(row, ballot) {
        return Ok(None);
    }
    let vote = copied(alloc, row.vote())?;
    Ok(Row::new(Some(ballot), vote))
}

/// The row with a vote for the entry at the ballot, where that changes it.
pub(crate) fn vote(row: &Row, ballot: Ballot, entry: Entry) -> Option<Row>
    ensures row { IsRowAfter row.now (voted ballot (owned_entry entry)) result }
    ensures promised { HasPromise result }
{
    if is_promised(row, ballot) && is_vote(row, ballot, entry.lend()) {
        return None;
    }
    match Row::new(Some(ballot), Some(Vote::new(ballot, entry))) {
        Some(after) => Some(after),
        None => unreachable!(),
    }
}
