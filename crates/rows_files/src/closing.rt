//! The end of a command that is done with its rows.

ghost use Rattle.std.specs.Prelude.{◌≡◌, Ok, OnOk, IfOk, IfErr};
ghost use Rattle.command_ends.specs.Ends.{end_of, IsOfRows};
ghost use Rattle.rows_files.specs.Telling.{IsToldStill, TellsRefused};

use crate::files::RowFiles;
use command_ends::Fault;

/// Closes the rows that a command came to this outcome over, where that is no fault. Else they are let go, and its fault stays, or tells why a save
/// was refused. Where all went well but the close, the fault is that of the refused close, with its own cause.
pub fn close_rows<'a, F: RowFiles>(
    row_files: &F,
    rows: F::Rows,
    outcome: Result<(), Fault<'a>>,
) -> Result<(), Fault<'a>>
    ensures done { OnOk result ((outcome.entry ≡ Ok tt) × F.closes row_files.now rows) }
    ensures other { IfErr outcome.entry (λ fault. IfErr result (IsToldStill (F.refuses row_files.now) fault)) }
    ensures refused { IfOk outcome.entry (λ _. IfErr result (TellsRefused (F.refuses row_files.now))) }
    ensures rows { IfErr outcome.entry (λ fault. IsOfRows (end_of fault)) → IfErr result (λ fault. IsOfRows (end_of fault)) }
{
    match outcome {
        Ok(()) => {
            row_files.close(rows)?;
            Ok(())
        }
        Err(fault) => Err(row_files.let_go(rows, fault)),
    }
}
