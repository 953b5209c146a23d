//! The command `upgrade`: saved rows that are upgraded to layout 2.

ghost use Rattle.std.specs.Prelude.{◌≡◌, ◌⊎◌, false, IfErr, IsTrue, OnOk};
ghost use Rattle.std.specs.Io.KnownBytes.{Appends};
ghost use Rattle.protocol.specs.Versions.{Two};
ghost use Rattle.acceptor_store.specs.Sqlite.{IsKept, IsOpen, LeavesAll, rows_version};
ghost use Rattle.rows_command.specs.Reading.{KeepsRows};
ghost use Rattle.rows_command.specs.RowsText.{TellsNoneOrFront, layout_text};
ghost use Rattle.command_ends.specs.Ends.{end_of, IsOfRows};
ghost use Rattle.command_ends.specs.declared.end.End.TheVariants.{Store, Memory};

use acceptor_store::SqliteRows;
use command_ends::Fault;
use rows_saved::Rows;
use sqlite::Alter;
use std::io::Write;
use streams::put_whole;

/// Upgrades the rows to layout 2, and then writes `layout 2`. Rows that are in it already stay as they are.
///
/// No row is changed. Where the rows refuse, nothing is written, and they answer `Store` until they are opened anew; where the
/// writer fails, they are upgraded, and a front of the text was written.
pub fn upgrade_rows<S: Alter + Drop, W: Write>(
    rows: &mut SqliteRows<S>,
    out: &mut W,
) -> Result<(), Fault<'static>>
    // Where there is no fault the rows are upgraded, and that is written.
    ensures over { OnOk result (rows_version rows.new ≡ Two) }
    ensures done { OnOk result (Appends (W.contents out.old) (W.contents out.new) layout_text) }
    ensures open { IsKept S.Store rows.new → OnOk result (IsOpen S.Store rows.new) }

    // Else nothing is written, or a front of it, of rows that are upgraded.
    ensures front { TellsNoneOrFront (rows_version rows.new) (W.contents out.old) (W.contents out.new) }
    ensures refused { IfErr result (λ fault. (end_of fault ≡ Store) ⊎ (end_of fault ≡ Memory) → W.contents out.new ≡ W.contents out.old) }

    // A fault of the rows, the output or memory ends it, and nothing else.
    ensures of_rows { IfErr result (λ fault. IsOfRows (end_of fault)) }

    // The map and the station stay the same, and so they do after a crash, all in the one layout or all in the other.
    ensures keeps { KeepsRows S.Store rows.old rows.new }
    ensures crash { IsKept S.Store rows.new → IsOpen S.Store rows.old → rows.old.stopped ≡ false → LeavesAll S.Store rows.old rows.new }
    ensures stays { rows.new.identity ≡ rows.old.identity }

    // After a refused save nothing is upgraded.
    ensures stopped { IsTrue rows.old.stopped → W.contents out.new ≡ W.contents out.old }
{
    if let Err(fault) = rows.upgrade() {
        return Err(Fault::of_rows(fault));
    }
    put_whole(out, b"layout 2\n")?;
    Ok(())
}
