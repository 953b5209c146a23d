//! The command `check`: the galley of a tape.

ghost use Rattle.std.specs.Prelude.{◌≡◌, OnOk};
ghost use Rattle.code_table.specs.Tables.{mean};
ghost use Rattle.check_command.specs.Galley.{Checks, CheckEnds, IsSetAs};
ghost use Rattle.command_ends.specs.Giving.{Gives};

use command_ends::{End, Fault, end_with};
use inputs::{TapePaths, read_table, read_tape, read_widths};
use line_check::{Setting, galley, set};
use std::alloc::Global;
use std::io::{Read, Write};
use std::str;
use streams::{CannotWrite, hand_on};
use tape_frames::{Tape, holes};

/// What `check` is asked: where its three files are, what they are read from, and whether its galley has a listing before it.
#[derive(Drop)]
pub struct CheckOrder<'a, R: Read + Drop> {
    pub paths: &'a TapePaths<'a>,
    pub table: R,
    pub widths: R,
    pub tape: R,
    pub listing: bool,
}

/// Writes one line per frame: its holes, and the frame in decimal.
fn put_holes<W: Write>(tape: &Tape, out: &mut W) -> Result<(), CannotWrite> {
    for frame in tape.frames() {
        let row = holes(*frame).unwrap_or(*b"......");
        let row = str::from_utf8(&row).unwrap_or("......");
        writeln!(out, "{row} {frame}")?;
    }
    Ok(())
}

/// Writes the galley of a tape, and hands it on.
fn put_galley<'a, W: Write>(
    alloc: Global,
    setting: &Setting,
    tape: &Tape,
    out: &mut W,
) -> Result<(), Fault<'a>>
    ensures { Gives result (λ _. IsSetAs (mean setting.now.table) setting.now.widths tape.now (W.contents out.old) (W.contents out.new)) }
{
    let slugs = set(alloc, &setting.table, &setting.widths, tape)?;
    galley(&slugs, out)?;
    hand_on(out)?;
    Ok(())
}

/// Reads the three files, and writes the listing of the tape, if it is asked for, and its galley, up to the first fault.
fn checked<'a, R: Read + Drop, W: Write>(
    alloc: Global,
    order: CheckOrder<'a, R>,
    out: &mut W,
) -> Result<(), Fault<'a>>
    ensures { Gives result (λ _. Checks R.remaining order.entry (W.contents out.old) (W.contents out.new)) }
{
    let CheckOrder {
        paths,
        mut table,
        mut widths,
        mut tape,
        listing,
    } = order;
    let table = read_table(alloc, &mut table, paths.table)?;
    let widths = read_widths(alloc, &mut widths, paths.widths)?;
    let tape = read_tape(alloc, &mut tape, paths.tape)?;
    if listing {
        put_holes(&tape, out)?;
    }
    put_galley(alloc, &Setting { table, widths }, &tape, out)
}

/// Sets a tape by a code table and a width file, and writes its galley; with `listing` first one line per frame.
///
/// The table is read and taken before the widths are read, and the widths before the tape. The first fault ends it.
/// The listing is written before the tape is set, so a tape that does not set leaves the listing and no galley.
pub fn check<R: Read + Drop, W: Write, E: Write>(
    alloc: Global,
    order: CheckOrder<'_, R>,
    out: &mut W,
    err: &mut E,
) -> End
    ensures { CheckEnds R.remaining order.entry (W.contents out.old) (W.contents out.new) result }
{
    let outcome = checked(alloc, order, out);
    if outcome.is_err() {
        // The listing stands, if there is one.
        let _ = out.flush();
    }
    end_with(outcome, err)
}
