//! The statements that make the table of entries and fill it, in a transaction.

ghost use Rattle.rows_table.specs.Within.{ActsWithin};
ghost use Rattle.rows_table.specs.Making.{AddsEntries, AddsEntry, MakesEntryTable};

use sqlite::{Alter, Error, Transaction, params};

/// The columns of a vote in the table of entries.
#[derive(Drop)]
pub struct EntryVote {
    /// The round of the ballot that the vote was cast in.
    pub round: u32,
    /// The member that owns that ballot.
    pub owner: u32,
    /// How many frames the entry has that was voted for.
    pub length: u32,
    /// Its frames, six bits each, four frames in three bytes.
    pub packed: Vec<u8>,
}

/// A row of the table of entries, column by column.
#[derive(Drop)]
pub struct EntryColumns {
    /// The number that the row is about, which is its key.
    pub number: u32,
    /// The round of the ballot that is promised.
    pub promised_round: u32,
    /// The member that owns that ballot.
    pub promised_owner: u32,
    /// The vote, if there is one; without one its columns are null.
    pub vote: Option<EntryVote>,
}

/// Makes the table of entries, empty, beside the tables that are there.
///
/// An error comes where the database refuses the statement: where it has such a table, or its disk fails or is full, or memory is refused.
pub fn make_entry_table<S: Alter>(tx: &mut Transaction<'_, S>) -> Result<(), Error>
    ensures { ActsWithin S.Store MakesEntryTable result tx.old tx.new }
{
    tx.execute(
        "CREATE TABLE acceptor_entry (number INTEGER PRIMARY KEY,\n  promised_round INTEGER NOT NULL, promised_owner INTEGER NOT NULL,\n  vote_round INTEGER, vote_owner INTEGER,\n  length INTEGER, packed BLOB) STRICT",
        &[],
    )?;
    Ok(())
}

/// Adds one entry to the table, which has none of its number.
///
/// An error comes where the database refuses the statement: where the table is missing or has the number, or the disk fails or is full, or memory is refused.
pub fn add_entry<S: Alter>(tx: &mut Transaction<'_, S>, entry: &EntryColumns) -> Result<(), Error>
    ensures { ActsWithin S.Store (AddsEntry entry.now) result tx.old tx.new }
{
    let vote = entry.vote.as_ref();
    tx.execute(
        "INSERT INTO acceptor_entry VALUES (?1, ?2, ?3, ?4, ?5, ?6, ?7)",
        params![
            entry.number,
            entry.promised_round,
            entry.promised_owner,
            vote.map(|vote| vote.round),
            vote.map(|vote| vote.owner),
            vote.map(|vote| vote.length),
            vote.map(|vote| &vote.packed)
        ],
    )?;
    Ok(())
}

/// Adds these entries to the table, one statement each; their numbers differ.
///
/// An error comes where one of them is refused, as `add_entry` says; those before it are then in the transaction.
pub fn add_entries<S: Alter>(
    tx: &mut Transaction<'_, S>,
    entries: &[EntryColumns],
) -> Result<(), Error>
    ensures { ActsWithin S.Store (AddsEntries entries.now) result tx.old tx.new }
{
    for entry in entries {
        add_entry(tx, entry)?;
    }
    Ok(())
}
