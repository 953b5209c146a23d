//! What came of a file that an editor laid.

ghost use Rattle.plant_log.specs.Telling.{WasTold};
ghost use Rattle.catch_up_log.specs.Words.{answered_text};

use crate::line::CatchUpLine;
use crate::writing::tell_line;
use std::alloc::Global;
use std::io::Write;

/// What the numbers of a file came to.
#[derive(Clone, Copy, PartialEq, Eq)]
pub struct Answered {
    /// How many have a tape.
    pub tapes: u32,
    /// How many are void.
    pub voids: u32,
    /// Of how many nothing was found.
    pub nothing: u32,
}

/// Tells that all numbers of the file of this name, as `41-80.seek`, are answered, and how.
pub fn tell_answered<E: Write>(alloc: Global, name: &str, counts: Answered, err: &mut E)
    ensures { WasTold (answered_text name.now counts) (E.contents err.old) (E.contents err.new) }
{
    tell_line(alloc, &CatchUpLine::Answered { name, counts }, err);
}
