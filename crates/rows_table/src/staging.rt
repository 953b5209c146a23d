//! The statements that put a row in place of the one under its number, in a transaction.

ghost use Rattle.rows_table.specs.declared.layout.Layout.TheVariants.{One};
ghost use Rattle.rows_table.specs.Puts.{columns_of_row};
ghost use Rattle.rows_table.specs.Staging.{StagesEntry, StagesRow};
ghost use Rattle.rows_table.specs.Within.{ActsWithin};

use crate::entry_table::EntryColumns;
use crate::puts::{PUT_ENTRY, PUT_ROW, RowColumns};
use sqlite::{Alter, Error, Transaction, params};

/// Puts one row in place of the one under its number, in the table of rows.
///
/// An error comes where the database refuses the statement: where the table is missing, or the disk fails or is full, or memory is
/// refused. The transaction may then have ended, with nothing of it committed.
pub fn stage_row<S: Alter>(tx: &mut Transaction<'_, S>, row: &RowColumns) -> Result<(), Error>
    ensures { ActsWithin S.Store (StagesRow One row.now.number (columns_of_row row.now)) result tx.old tx.new }
{
    let vote = row.vote.as_ref();
    tx.execute(
        PUT_ROW,
        params![
            row.number,
            row.promised_round,
            row.promised_owner,
            vote.map(|vote| vote.round),
            vote.map(|vote| vote.owner),
            vote.map(|vote| &vote.tape)
        ],
    )?;
    Ok(())
}

/// Puts one entry in place of the one under its number, in the table of entries. An error comes as in `stage_row`.
pub fn stage_entry<S: Alter>(tx: &mut Transaction<'_, S>, entry: &EntryColumns) -> Result<(), Error>
    ensures { ActsWithin S.Store (StagesEntry entry.now) result tx.old tx.new }
{
    let vote = entry.vote.as_ref();
    tx.execute(
        PUT_ENTRY,
        params![
            entry.number,
            entry.promised_round,
            entry.promised_owner,
            vote.map(|vote| vote.round),
            vote.map(|vote| vote.owner),
            vote.map(|vote| vote.length),
            vote.map(|vote| &vote.packed)
        ],
    )?;
    Ok(())
}
