//! The lines that `rows` writes.

ghost use Rattle.std.specs.Prelude.{◌≡◌, IfOk, option_copied, string_bytes};
ghost use Rattle.ballots.specs.Texts.{ballot_text};
ghost use Rattle.rows_command.specs.RowsText.{promise_text, vote_text, row_line, station_line};

use ballots::{Ballot, Number, Row, Vote};
use release_texts::entry_text;
use rows_saved::Identity;
use std::alloc::{AllocError, Global};

fn ballot_text(alloc: Global, ballot: Ballot) -> Result<String, AllocError>
    ensures { IfOk result (λ t. string_bytes t ≡ ballot_text ballot) }
{
    format!(in alloc; "{ballot}")
}

fn promise_text(alloc: Global, promise: Option<Ballot>) -> Result<String, AllocError>
    ensures { IfOk result (λ t. string_bytes t ≡ promise_text promise) }
{
    match promise {
        None => String::from_str(alloc, "-"),
        Some(ballot) => ballot_text(alloc, ballot),
    }
}

/// The ballot of a vote and the text of its entry, or a mark for each where there is none.
fn vote_text(alloc: Global, vote: Option<&Vote>) -> Result<String, AllocError>
    ensures { IfOk result (λ t. string_bytes t ≡ vote_text (option_copied vote.entry)) }
{
    let Some(vote) = vote else {
        return String::from_str(alloc, "- -");
    };
    let ballot = ballot_text(alloc, vote.ballot())?;
    let entry = entry_text(alloc, &vote.entry())?;
    format!(in alloc; "{ballot} {entry}")
}

/// The line of a number and its row.
pub(crate) fn row_line(alloc: Global, number: Number, row: &Row) -> Result<String, AllocError>
    ensures { IfOk result (λ t. string_bytes t ≡ row_line (number, row.now)) }
{
    let number = number.get();
    let promise = promise_text(alloc, row.promised())?;
    let vote = vote_text(alloc, row.vote())?;
    format!(in alloc; "{number} {promise} {vote}\n")
}

/// The line that says whose rows they are.
pub(crate) fn station_line(alloc: Global, station: Identity) -> Result<String, AllocError>
    ensures { IfOk result (λ t. string_bytes t ≡ station_line station) }
{
    let member = station.member;
    let members = station.members;
    let circuit = station.circuit;
    format!(in alloc; "station {member} of {members} circuit {circuit}\n")
}
