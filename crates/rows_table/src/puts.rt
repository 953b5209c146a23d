//! The statements that save a row, outside a transaction.

ghost use Rattle.sqlite.specs.Held.{state};
ghost use Rattle.rows_table.specs.declared.layout.Layout.TheVariants.{One};
ghost use Rattle.rows_table.specs.Puts.{PutsEntry, PutsRow, columns_of_row};

use crate::entry_table::EntryColumns;
use sqlite::{Alter, Connection, Error, params};

/// The columns of a vote in the table of rows.
#[derive(Drop)]
pub struct RowVote {
    /// The round of the ballot that the vote was cast in.
    pub round: u32,
    /// The member that owns that ballot.
    pub owner: u32,
    /// The frames of the tape that was voted for, one a byte.
    pub tape: Vec<u8>,
}

/// A row of the table of rows, column by column.
#[derive(Drop)]
pub struct RowColumns {
    /// The number that the row is about, which is its key.
    pub number: u32,
    /// The round of the ballot that is promised.
    pub promised_round: u32,
    /// The member that owns that ballot.
    pub promised_owner: u32,
    /// The vote, if there is one; without one its columns are null.
    pub vote: Option<RowVote>,
}

/// The statement that puts one row in place of the one under its number.
pub(crate) const PUT_ROW: &str =
    "INSERT INTO acceptor_row VALUES (?1, ?2, ?3, ?4, ?5, ?6) ON CONFLICT (number) DO UPDATE SET promised_round = excluded.promised_round, promised_owner = excluded.promised_owner, vote_round = excluded.vote_round, vote_owner = excluded.vote_owner, tape = excluded.tape";

/// The statement that puts one entry in place of the one under its number.
pub(crate) const PUT_ENTRY: &str =
    "INSERT INTO acceptor_entry VALUES (?1, ?2, ?3, ?4, ?5, ?6, ?7) ON CONFLICT (number) DO UPDATE SET promised_round = excluded.promised_round, promised_owner = excluded.promised_owner, vote_round = excluded.vote_round, vote_owner = excluded.vote_owner, length = excluded.length, packed = excluded.packed";

/// Saves one row in layout 1, in place of the one that has its number, if there is one: one statement. It gives how many rows that changed.
///
/// An error comes where the database refuses the statement: where the table is missing, or the disk fails or is full, or memory is refused.
/// Nothing is then changed. A crash leaves the table as it was, or with this row saved.
pub fn put_row<S: Alter>(conn: &mut Connection<S>, row: &RowColumns) -> Result<usize, Error>
    ensures { PutsRow One row.now.number (columns_of_row row.now) result (state S.Store conn.old) (state S.Store conn.new) }
{
    let vote = row.vote.as_ref();
    conn.execute(
        PUT_ROW,
        params![
            row.number,
            row.promised_round,
            row.promised_owner,
            vote.map(|vote| vote.round),
            vote.map(|vote| vote.owner),
            vote.map(|vote| &vote.tape)
        ],
    )
}

/// Saves one entry in layout 2, as `put_row` saves a row.
pub fn put_entry<S: Alter>(conn: &mut Connection<S>, entry: &EntryColumns) -> Result<usize, Error>
    ensures { PutsEntry entry.now result (state S.Store conn.old) (state S.Store conn.new) }
{
    let vote = entry.vote.as_ref();
    conn.execute(
        PUT_ENTRY,
        params![
            entry.number,
            entry.promised_round,
            entry.promised_owner,
            vote.map(|vote| vote.round),
            vote.map(|vote| vote.owner),
            vote.map(|vote| vote.length),
            vote.map(|vote| &vote.packed)
        ],
    )
}
