//! Whole runs of an acceptor, from a blank row.

ghost use Rattle.std.specs.Prelude.{◌≡◌, IfOk, map};
ghost use Rattle.protocol.specs.Acceptor.{Prepares, reply_of, next_row, row_after, replies_to};
ghost use Rattle.acceptor.specs.Said.{asked, said};

use crate::answer::{AcceptAnswer, PrepareAnswer, accept, prepare};
use crate::request::{Reply, Request};
use ballots::{Ballot, Row};
use std::alloc::{AllocError, Global};

/// A prepare request: the row after it, and the reply with a report of its own.
fn serve_prepare(alloc: Global, row: Row, ballot: Ballot) -> Result<(Row, Reply), AllocError>
    ensures reply { IfOk result (λ x. said x.1 ≡ reply_of row (Prepares ballot)) }
    ensures row { IfOk result (λ x. x.0 ≡ next_row row (Prepares ballot)) }
{
    match prepare(&row, ballot) {
        PrepareAnswer::Nack { promised } => Ok((row, Reply::Nack { promised })),
        PrepareAnswer::Silent => Ok((row, Reply::Silent)),
        PrepareAnswer::Promise { report } => {
            let told = match report {
                None => None,
                Some(v) => Some(v.copy(alloc)?),
            };
            let (_, vote) = row.into_parts();
            match Row::new(Some(ballot), vote) {
                Some(row) => Ok((row, Reply::Promise { report: told })),
                None => unreachable!(),
            }
        }
    }
}

/// One request: the row after it, and the reply.
fn serve(alloc: Global, row: Row, request: &Request) -> Result<(Row, Reply), AllocError>
    ensures reply { IfOk result (λ x. said x.1 ≡ reply_of row (asked request.now)) }
    ensures row { IfOk result (λ x. x.0 ≡ next_row row (asked request.now)) }
{
    match request {
        Request::Prepare { ballot } => serve_prepare(alloc, row, *ballot),
        Request::Accept { ballot, entry } => match accept(alloc, &row, *ballot, entry.lend())? {
            AcceptAnswer::Nack { promised } => Ok((row, Reply::Nack { promised })),
            AcceptAnswer::Again => Ok((row, Reply::Again)),
            AcceptAnswer::Voted { row } => Ok((row, Reply::Voted)),
        },
    }
}

/// The row after a list of requests, and the reply to each: the acceptor by the whole list.
pub fn run(alloc: Global, requests: &[Request]) -> Result<(Row, Vec<Reply>), AllocError>
    ensures row { IfOk result (λ x. x.0 ≡ row_after (map asked requests.now)) }
    ensures replies { IfOk result (λ x. map said x.1.items ≡ replies_to (map asked requests.now)) }
{
    // The rows of the loop are those of the whole list.
    protocol_laws::laws::acceptor_steps();
    let mut row = Row::blank();
    let mut replies = Vec::new(alloc);
    for request in requests {
        let (next, reply) = serve(alloc, row, request)?;
        row = next;
        replies.push(reply)?;
    }
    Ok((row, replies))
}
