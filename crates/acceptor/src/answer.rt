//! One request, answered from the row of its number.

ghost use Rattle.std.specs.Prelude.{◌≡◌, IfOk, IfErr, IsTrue};
ghost use Rattle.protocol.specs.Acceptor.{Prepares, Accepts, Votes, reply_of, next_row};
ghost use Rattle.acceptor.specs.Said.{said_of_prepare, said_of_accept, row_of, fits};
ghost use Rattle.tape_frames.specs.Entries.{lent_entry};

use ballots::{Ballot, Row, Vote};
use std::alloc::{AllocError, Global};
use tape_frames::EntryRef;

/// The answer to a prepare request.
#[derive(Drop)]
pub enum PrepareAnswer<'a> {
    /// There was no promise, or a lower one: it promises, and reports the row's vote.
    Promise { report: Option<&'a Vote> },
    /// It has promised this very ballot.
    Silent,
    /// It has promised this higher ballot.
    Nack { promised: Ballot },
}

/// The answer to an accept request.
#[derive(Drop)]
pub enum AcceptAnswer {
    /// It has promised this higher ballot.
    Nack { promised: Ballot },
    /// The row's vote has this ballot: it stands, whatever entry comes now.
    Again,
    /// It votes: the row after has this ballot as its promise and its vote's.
    Voted { row: Row },
}

/// Answers a prepare request (Lamport, phase 1). The row's promise is the ballot after a `Promise`, else it stays.
pub fn prepare(row: &Row, ballot: Ballot) -> PrepareAnswer<'_>
    ensures reply { said_of_prepare result ≡ reply_of row.now (Prepares ballot) }
    ensures fits { IsTrue (fits (said_of_prepare result) ballot) }
{
    match row.promised() {
        Some(p) if ballot.is_below(p) => PrepareAnswer::Nack { promised: p },
        Some(p) if p.is_same(ballot) => PrepareAnswer::Silent,
        _ => PrepareAnswer::Promise { report: row.vote() },
    }
}

/// Answers an accept request (Lamport, phase 2). The entry is copied only where it is voted for,
/// and nothing else takes memory.
pub fn accept(
    alloc: Global,
    row: &Row,
    ballot: Ballot,
    entry: EntryRef<'_>,
) -> Result<AcceptAnswer, AllocError>
    ensures reply { IfOk result (λ a. said_of_accept a ≡ reply_of row.now (Accepts ballot (lent_entry entry.entry))) }
    ensures row { IfOk result (λ a. row_of a row.now ≡ next_row row.now (Accepts ballot (lent_entry entry.entry))) }
    ensures fits { IfOk result (λ a. IsTrue (fits (said_of_accept a) ballot)) }
    ensures memory { IfErr result (λ _. reply_of row.now (Accepts ballot (lent_entry entry.entry)) ≡ Votes) }
{
    match row.promised() {
        Some(p) if ballot.is_below(p) => return Ok(AcceptAnswer::Nack { promised: p }),
        _ => {}
    }
    match row.vote() {
        Some(v) if v.ballot().is_same(ballot) => return Ok(AcceptAnswer::Again),
        _ => {}
    }
    let entry = entry.copy(alloc)?;
    match Row::new(Some(ballot), Some(Vote::new(ballot, entry))) {
        Some(row) => Ok(AcceptAnswer::Voted { row }),
        None => unreachable!(),
    }
}
