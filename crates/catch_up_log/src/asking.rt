//! What came of asking the other members for what is missing here.

ghost use Rattle.plant_log.specs.Telling.{WasTold};
ghost use Rattle.catch_up_log.specs.Words.{caught_up_text, few_text};

use crate::line::CatchUpLine;
use crate::writing::tell_line;
use std::alloc::Global;
use std::io::Write;

/// What became of the numbers that were asked for until none was left to ask for.
#[derive(Clone, Copy, PartialEq, Eq)]
pub struct Caught {
    /// How many were released.
    pub released: u32,
    /// How many came to nothing.
    pub nothing: u32,
}

/// Tells that nothing is left to ask for, and what became of what was asked for.
pub fn tell_caught_up<E: Write>(alloc: Global, wave: Caught, err: &mut E)
    ensures { WasTold (caught_up_text wave) (E.contents err.old) (E.contents err.new) }
{
    tell_line(alloc, &CatchUpLine::CaughtUp(wave), err);
}

/// Tells that so many members were asked what they have, and so many of them told it: too few.
pub fn tell_few<E: Write>(alloc: Global, asked: u8, told: u8, err: &mut E)
    ensures { WasTold (few_text asked told) (E.contents err.old) (E.contents err.new) }
{
    tell_line(alloc, &CatchUpLine::Few { asked, told }, err);
}
