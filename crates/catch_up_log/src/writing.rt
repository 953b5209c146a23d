//! Lines that are written to the log.

ghost use Rattle.plant_log.specs.Telling.{WasTold};
ghost use Rattle.catch_up_log.specs.Words.{line_text};

use crate::line::CatchUpLine;
use plant_log::{put_text, tell_no_memory};
use std::alloc::Global;
use std::io::Write;

/// Writes a line, at once. That the writer fails is ignored.
pub(crate) fn tell_line<E: Write>(alloc: Global, line: &CatchUpLine<'_>, err: &mut E)
    ensures { WasTold (line_text line.now) (E.contents err.old) (E.contents err.new) }
{
    match format!(in alloc; "{line}\n") {
        Ok(text) => put_text(text.as_str(), err),
        Err(_) => tell_no_memory(err),
    }
}
