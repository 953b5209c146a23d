//! Tapes read as lines.

ghost use Rattle.std.specs.Prelude.{◌≡◌};
ghost use Rattle.code_table.specs.Tables.{mean};
ghost use Rattle.slug_reader.specs.Faults.{lines_of};
ghost use Rattle.slug_reader.specs.Pieces.{ReadsPiece};
ghost use Rattle.slug_reader.specs.Answers.{Reads};

use crate::fault::ReadFault;
use crate::line::Line;
use crate::reader::Reader;
use code_table::CodeTable;
use std::alloc::Global;
use tape_frames::Tape;
use widths::Widths;

/// How many frames of a tape are read at a time.
pub const PIECE_FRAMES: usize = 256;

/// Adds the lines that one piece more of a tape cuts.
fn read_piece(reader: &mut Reader<'_>, piece: &[u8], lines: &mut Vec<Line>) -> Result<(), ReadFault>
    ensures by { (reader.new.table ≡ reader.old.table) × (reader.new.widths ≡ reader.old.widths) }
    ensures read { ReadsPiece piece.now result lines.old.items lines.new.items reader.old reader.new }
{
    let mut more = reader.push(piece)?;
    match lines.append(&mut more) {
        Ok(()) => Ok(()),
        Err(_) => Err(ReadFault::OutOfMemory),
    }
}

/// The lines of a tape that have items, in order.
///
/// Otherwise its first fault: `UnknownCode` or `NoWidth` at a frame, or `Unfinished` at the tape's length. `TooLong`
/// never comes. `OutOfMemory` comes where the lines could not be kept.
pub fn read_lines(
    alloc: Global,
    table: &CodeTable,
    widths: &Widths,
    tape: &Tape,
) -> Result<Vec<Line>, ReadFault>
    ensures { Reads result (lines_of (mean table.now) widths.now tape.now) }
{
    let mut reader = Reader::new(alloc, table, widths);
    let mut lines = Vec::new(alloc);
    for piece in tape.frames().chunks(PIECE_FRAMES) {
        read_piece(&mut reader, piece, &mut lines)?;
    }
    reader.finish()?;
    Ok(lines)
}
