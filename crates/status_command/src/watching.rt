//! A status that is drawn again each second.

use crate::command::{StatusPlan, print};
use crate::fault::StatusFault;
use std::io::Write;
use std::thread;
use std::time::Duration;

/// How many times it is drawn at most: a year.
const TIMES: u32 = 31_536_000;

/// What stands before a drawing, so that it takes the place of the one before.
pub(crate) const FRESH: &str = "\u{1b}[H\u{1b}[2J";

/// Draws how a station stands again each second, on a terminal, until nothing can be told any more.
pub(crate) fn watch<W: Write>(
    rt: &HostRuntime,
    asked: StatusPlan<'_>,
    out: &mut W,
) -> Result<bool, StatusFault> {
    let mut is_well = true;
    for _ in 0..TIMES {
        is_well = print(rt, asked, out)?;
        thread::sleep(rt, Duration::from_secs(1));
    }
    Ok(is_well)
}
