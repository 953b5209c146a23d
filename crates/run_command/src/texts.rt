//! The tape that a text among the offers becomes.

ghost use Rattle.std.specs.Prelude.{[], IfOk, IfErr};
ghost use Rattle.code_table.specs.Tables.{mean};
ghost use Rattle.tape_frames.specs.Frames.{most_frames};
ghost use Rattle.text_tape.specs.Punching.{IsError, IsPunched};

use code_table::CodeTable;
use std::alloc::Global;
use streams::MAX_INPUT;
use tape_frames::{Tape, Version};
use text_tape::{PunchError, PunchedBy, punch};

/// The most bytes of a text, as of any input.
pub(crate) const MAX_TEXT: usize = MAX_INPUT;

/// The tape of a text by a code table, as the command `punch` makes it where it is given nothing else, or why there is none. Whether the
/// layout of a station has room for the tape is not looked at: the station says so, as of any tape.
pub(crate) fn tape_of_text(
    alloc: Global,
    table: &CodeTable,
    text: &[u8],
) -> Result<Tape, PunchError>
    ensures tape { IfOk result (λ tape. IsPunched [] (mean table.now) text.now tape) }
    ensures fault { IfErr result (λ e. IsError most_frames [] (mean table.now) text.now e) }
{
    let by = PunchedBy {
        table,
        ligatures: &[],
        room: Version::Two,
    };
    let frames = punch(alloc, &by, text)?;
    match Tape::from_vec(alloc, frames) {
        Ok(tape) => Ok(tape),
        Err(_) => Err(PunchError::OutOfMemory),
    }
}
