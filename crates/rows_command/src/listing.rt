//! The command `rows`: what a database of saved rows holds.

ghost use Rattle.std.specs.Prelude.{◌≡◌, None, IsOk, IfErr, OnOk};
ghost use Rattle.acceptor_store.specs.Sqlite.{IsKept, saved_of};
ghost use Rattle.rows_command.specs.RowsText.{PrintsWhereDone};
ghost use Rattle.rows_command.specs.Printing.{head_text};
ghost use Rattle.rows_command.specs.Reading.{PrintsRows, PrintsSeen};
ghost use Rattle.command_ends.specs.Ends.{end_of, IsOfRows};
ghost use Rattle.streams.specs.Writing.{Writes};

use crate::printing::{RowPrinter, RowsHead, put_head};
use acceptor_store::SqliteRows;
use command_ends::Fault;
use rows_saved::RowsFault;
use sqlite::Alter;
use std::alloc::Global;
use std::io::Write;
use streams::{PutFault, hand_on};

/// Why it did not come to the last row: a fault of the rows, or one of a line.
fn ended(seen: Result<bool, RowsFault>, fault: Option<PutFault>) -> Result<(), Fault<'static>>
    ensures whole { OnOk result ((fault ≡ None) × IsOk seen) }
    ensures ends { IfErr result (λ fault. IsOfRows (end_of fault)) }
{
    if let Err(fault) = seen {
        return Err(Fault::of_rows(fault));
    }
    match fault {
        None => Ok(()),
        Some(fault) => Err(Fault::from(fault)),
    }
}

/// Writes the rows as they are read, and answers whether one has come, and why it did not come to the last.
fn print_seen<S: Alter + Drop, W: Write>(
    alloc: Global,
    rows: &mut SqliteRows<S>,
    out: &mut W,
) -> (bool, Result<(), Fault<'static>>)
    ensures { PrintsSeen S.Store result rows.old rows.new (W.contents out.old) (W.contents out.new) }
{
    let mut printer = RowPrinter {
        alloc,
        station: rows.identity(),
        out,
        begun: false,
        fault: None,
    };
    let seen = rows.visit(&mut printer);
    (printer.begun, ended(seen, printer.fault))
}

/// Writes what is missing behind the last row: whose rows they are, where there was none. All of it is handed on.
fn put_end<W: Write>(head: RowsHead, out: &mut W) -> Result<(), PutFault>
    ensures { Writes result (W.contents out.old) (W.contents out.new) (head_text head.station head.begun) }
{
    put_head(head, out)?;
    hand_on(out)?;
    Ok(())
}

/// Writes `station M of C circuit K`, and then for each row that is saved, in order of the numbers, a line
/// `NUMBER PROMISED VOTE FRAMES`: the ballots as `round.owner`, the frames in lower-case hex, `-` where there is none. For
/// a withdrawal `void` stands in the place of the frames.
///
/// Each line is written as its row is read, so that no list of the rows is kept, and no row is changed. Where a row can't be
/// read, or memory or the writer fails, a front of the text was written; nothing was where that comes before the first row.
pub fn print_rows<S: Alter + Drop, W: Write>(
    alloc: Global,
    rows: &mut SqliteRows<S>,
    out: &mut W,
) -> Result<(), Fault<'static>>
    ensures done { IsKept S.Store rows.new → PrintsWhereDone result (saved_of S.Store rows.old) rows.old.identity (W.contents out.old) (W.contents out.new) }
    ensures prints { PrintsRows S.Store rows.old rows.new (W.contents out.old) (W.contents out.new) }

    // A fault of the rows, the output or memory ends it, and nothing else.
    ensures fault { IfErr result (λ fault. IsOfRows (end_of fault)) }
{
    let station = rows.identity();
    let (begun, printed) = print_seen(alloc, rows, out);
    printed?;
    let head = RowsHead {
        alloc,
        station,
        begun,
    };
    put_end(head, out)?;
    Ok(())
}
