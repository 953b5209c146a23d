//! The moment that stands before a line.

use jiff::Timestamp;
use std::alloc::Global;
use std::time::Clock;

/// The moment of a clock, in whole seconds.
fn moment<C: Clock>(clock: &C) -> Option<Timestamp> {
    let now = Timestamp::now(clock).ok()?;
    Timestamp::from_second(now.as_second()).ok()
}

/// The moment of a clock as it stands before a line, in Coordinated Universal Time, as `2026-11-27T20:51:07Z `. Nothing where the clock or
/// memory fails.
pub(crate) fn stamp<C: Clock>(alloc: Global, clock: &C) -> Option<String> {
    let moment = moment(clock)?;
    format!(in alloc; "{moment} ").ok()
}
